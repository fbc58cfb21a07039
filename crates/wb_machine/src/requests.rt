//! Whether a job over a target may be started, and the tasks of reads, writes, flushes, invalidations and migrations.

ghost use Rattle.std.specs.Prelude.{◌≡◌, ◌/◌, [], None, true, IfOk, IfErr};
ghost use Rattle.wb_types.specs.declared.refusal.Refusal.TheVariants.{Memory};
ghost use Rattle.wb_types.specs.declared.mode.Mode.{Mode as ModeValue};
ghost use Rattle.wb_types.specs.Extents.{pieces};
ghost use Rattle.wb_tasks.specs.Plan.{table};
ghost use Rattle.wb_tasks.specs.Phases.{job_on_block};
ghost use Rattle.wb_tasks.specs.Tables.{OnBlock, Migrating, whole_block};
ghost use Rattle.wb_promise.specs.Happenings.{begun_as, block_range, extent_refusal, job_refusal, migrated_range, order_for, task_job, write_job};
ghost use Rattle.wb_promise.specs.declared.job.Job.TheVariants.{Invalidate, Open};
ghost use Rattle.wb_machine.specs.declared.machine.TheConstants.{ACTORS};
ghost use Rattle.wb_machine.specs.Life.{shape_of, starts_beside};
ghost use Rattle.wb_machine.specs.Serving.{cut_for, is_ordered};

use crate::keeping::blocks_left;
use crate::limits::{geometry_asked, most_for};
use crate::work::Work;
use std::alloc::Global;
use wb_flow::CommitTask;
use wb_policy::Order;
use wb_promise::Job;
use wb_tasks::{BlockTask, Migration};
use wb_types::{Extent, Geometry, Mode, OBlock, Refusal};

/// Why a job is not started.
pub(crate) fn refusal_of(geometry: &Geometry, job: &Job) -> Option<Refusal>
    ensures { result ≡ job_refusal (shape_of geometry.now ACTORS) job.now }
{
    match job {
        Job::Read(extent) => extent_refusal(geometry, *extent),
        Job::Write(extent, _) => extent_refusal(geometry, *extent),
        Job::Flush => None,
        Job::Suspend => None,
        Job::Open(_, second) => room_refusal(geometry, *second),
        Job::Invalidate(block) => block_refusal(geometry, *block),
        Job::Migrate(_, _) => None,
        Job::Replace(_, _) => None,
    }
}

/// Why a read or write of these sectors is not started: `Range` where there is none, or one outside the origin, `Crosses` where they
/// lie in more than one block.
fn extent_refusal(geometry: &Geometry, extent: Extent) -> Option<Refusal>
    ensures { result ≡ extent_refusal (shape_of geometry.now ACTORS) extent }
{
    if !extent.is_some_within(geometry.origin_sectors()) {
        return Some(Refusal::Range);
    }
    let Extent { first, count } = extent;
    let block = u64::from(geometry.block);
    if first / block == (first + count - 1) / block {
        None
    } else {
        Some(Refusal::Crosses)
    }
}

/// Why an invalidation of this block is not started: `Range` where the origin has no such block.
fn block_refusal(geometry: &Geometry, block: OBlock) -> Option<Refusal>
    ensures { result ≡ job_refusal (shape_of geometry.now ACTORS) (Invalidate block) }
{
    if block.0 < geometry.origin_blocks {
        None
    } else {
        Some(Refusal::Range)
    }
}

/// Why an opening that asks for the second version, or does not, is not started: `Geometry` where the metadata have no room for it.
fn room_refusal(geometry: &Geometry, second: bool) -> Option<Refusal>
    ensures { (mode : ModeValue) → result ≡ job_refusal (shape_of geometry.now ACTORS) (Open mode second) }
{
    match geometry_asked(geometry, second) {
        Some(_) => None,
        None => Some(Refusal::Geometry),
    }
}

/// Whether a job runs under an order.
pub(crate) fn is_ordered(job: &Job) -> bool
    ensures { result ≡ is_ordered job.now }
{
    matches!(job, Job::Migrate(_, _) | Job::Replace(_, _))
}

/// What an actor is at once this job was started: a replacement begins with the demotion of the block that leaves.
pub(crate) fn begun_as(job: &Job) -> Job
    ensures { result ≡ begun_as job.now }
{
    match job {
        Job::Replace(old, _) => Job::Migrate(Migration::Demote, *old),
        _ => *job,
    }
}

/// The order of a migration.
pub(crate) fn order_for(migration: Migration, block: OBlock) -> Order
    ensures { result ≡ order_for migration block }
{
    match migration {
        Migration::Promote(cache) => Order::Promote(block, cache),
        Migration::Demote => Order::Demote(block),
        Migration::Clean => Order::Clean(block),
    }
}

/// The task of a job that may be started over a target of this mode whatever the others are at, by an actor of whom these
/// orders wait for a flush: of a read's, write's or migration's steps on a device each takes one sector, and a flush serves
/// those orders and allows as many nodes as an image may have. `Memory` where there is none for the list of what it serves.
pub(crate) fn task_of(
    alloc: Global,
    geometry: &Geometry,
    mode: Mode,
    awaiting: &[Order],
    job: &Job,
) -> Result<Work, Refusal>
    requires beside { starts_beside job.now ≡ true }
    requires may_start { job_refusal (shape_of geometry.now ACTORS) job.now ≡ None }
    ensures task { IfOk result (λ task. task ≡ table (task_job (shape_of geometry.now ACTORS) mode awaiting.now job.now (cut_for (shape_of geometry.now ACTORS) job.now) [])) }
    ensures refusal { IfErr result (λ refusal. refusal ≡ Memory) }
{
    match job {
        Job::Read(extent) => {
            let task = moves(geometry, mode, wb_tasks::Work::Read, *extent);
            Ok(Work::on_block(task))
        }
        Job::Write(extent, _) => {
            let task = writes(geometry, mode, *extent);
            Ok(Work::on_block(task))
        }
        Job::Flush => {
            let serves = blocks_left(alloc, awaiting)?;
            Ok(Work::commits(CommitTask::flush(serves, most_for(geometry, false))))
        }
        Job::Invalidate(block) => {
            let task = BlockTask::invalidate(geometry.block, *block);
            Ok(Work::on_block(task))
        }
        Job::Migrate(migration, block) => Ok(migrates(geometry, *migration, *block)),
        Job::Replace(old, _) => Ok(migrates(geometry, Migration::Demote, *old)),
        Job::Suspend | Job::Open(_, _) => unreachable!(),
    }
}

fn migrates(geometry: &Geometry, migration: Migration, block: OBlock) -> Work
    ensures { result ≡ table (OnBlock (Migrating migration (migrated_range (shape_of geometry.now ACTORS) block (pieces 1 (whole_block geometry.now.block block))))) }
{
    Work::on_block(BlockTask::migrate(migration, geometry.block, block, 1))
}

/// The task that writes sectors of one block: in passthrough it takes the block out of the cache first.
fn writes(geometry: &Geometry, mode: Mode, extent: Extent) -> BlockTask
    requires { extent_refusal (shape_of geometry.now ACTORS) extent ≡ None }
    ensures { result ≡ table (OnBlock (write_job mode (block_range (shape_of geometry.now ACTORS) mode extent (pieces 1 extent)))) }
{
    match mode {
        Mode::Passthrough => moves(geometry, mode, wb_tasks::Work::Displace, extent),
        Mode::Writeback | Mode::Writethrough => {
            moves(geometry, mode, wb_tasks::Work::Write, extent)
        }
    }
}

/// The task that does this with sectors of one block, in this mode.
fn moves(geometry: &Geometry, mode: Mode, work: wb_tasks::Work, extent: Extent) -> BlockTask
    requires { extent_refusal (shape_of geometry.now ACTORS) extent ≡ None }
    ensures { result ≡ table (OnBlock (job_on_block work (block_range (shape_of geometry.now ACTORS) mode extent (pieces 1 extent)))) }
{
    let block = block_of(geometry, extent);
    BlockTask::new(work, mode, geometry.block, block, extent, 1)
}

/// The block in which these sectors lie.
fn block_of(geometry: &Geometry, extent: Extent) -> OBlock
    requires { extent_refusal (shape_of geometry.now ACTORS) extent ≡ None }
    ensures { result.0 ≡ extent.first / geometry.now.block }
{
    OBlock((extent.first / u64::from(geometry.block)) as u32)
}
