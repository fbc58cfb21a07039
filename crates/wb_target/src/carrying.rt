//! Orders carried out, and flushes, by a client on its own thread.

ghost use Rattle.std.specs.Prelude.{◌≡◌, ◌≢◌, ◌≤◌, ◌<◌, ◌⊎◌, [], ◌∷◌, ℕ, OnOk, OnErr, IfOk, IfErr, IfSome, IfNone, Some, None, length};
ghost use Rattle.wb_types.specs.declared.geometry.Geometry.{Geometry as GeometryValue};
ghost use Rattle.wb_types.specs.declared.number.CBlock.{CBlock as CBlockValue};
ghost use Rattle.wb_types.specs.declared.number.OBlock.{OBlock as OBlockValue};
ghost use Rattle.wb_tasks.specs.Tables.{TaskJob};
ghost use Rattle.wb_tasks.specs.Plan.{table};
ghost use Rattle.wb_stage.specs.Jobs.{MayRun};
ghost use Rattle.wb_port.specs.Moves.{copied_to};
ghost use Rattle.wb_port.specs.declared.moving.TheConstants.{LONGEST as LongestStep};
ghost use Rattle.wb_target.specs.Works.{AskedSharing, PerformedWith, IsOrdered, MayMigrate};
ghost use Rattle.wb_target.specs.Carried.{client_state, looked_at_fail, HasBegun, Runs, WasDone, WasDoneWith, WereDone, share_of, migration_of, serving, flush_of, jobs_of, BlocksAreThere, AreSynced};
ghost use Rattle.wb_target.specs.Told.{HadTick, WasNext, WasGivenUp, WereSettled};
ghost use Rattle.wb_target.specs.Workers.{WasRefused, DidNotBegin, GaveUpAmong, OrderRefused, FlushRefused, TickRefused};

use crate::client::Client;
use crate::gate::{Gate, OpenGate};
use crate::orders::perform_task;
use crate::target::Target;
use std::alloc::Global;
use std::sync::Wait;
use std::thread;
use wb_desk::Receipt;
use wb_disk::Disk;
use wb_flow::CommitTask;
use wb_policy::{Order, Policy};
use wb_port::{LONGEST, Port};
use wb_stage::Share;
use wb_tasks::{Answer, BlockTask, Migration, Task};
use wb_types::{Dev, OBlock, Refusal, SECTOR_BYTES};

/// How a flush was answered done.
#[derive(Drop)]
pub enum Flushed {
    /// By a commit of its own.
    Led,
    /// By a commit that another client led, which began after the flush had come.
    Served(Receipt),
}

/// How a flush was answered that is done, and has this of the commits of others.
fn answered(share: Share) -> Flushed
    requires { (ticket : ℕ) → share ≢ Share.Waiting ticket }
    ensures { share_of result ≡ share }
{
    match share {
        Share::Nothing => Flushed::Led,
        Share::Covered(receipt) => Flushed::Served(receipt),
        Share::Waiting(_) => unreachable!(),
    }
}

/// Performs a task, under these orders: a run of its table, its answer, and what it has of the commits of others at its end.
fn work<R: Wait, D: Disk + Drop, P: Policy, G: Gate, T: Task>(
    rt: &R,
    target: &Target<P>,
    gate: &G,
    port: &mut Port<D>,
    held: &[Order],
    task: &mut T,
) -> (Answer, Share)
    requires begun { (job : TaskJob) × (T.plan task.old ≡ table job) × MayRun port.old.geometry.origin_blocks job × MayMigrate port.old.geometry.block held.now job }
    ensures performed { PerformedWith D.tells D.size D.contents D.faults (AskedSharing P.with_entry P.without_entry held.now) port.old.geometry.origin_blocks (T.plan task.old) (client_state port.old) result.0 (client_state port.new) result.1 }
    ensures geometry { port.new.geometry ≡ port.old.geometry }
{
    let mut share = Share::Nothing;
    let answer = perform_task(
        rt,
        target,
        gate,
        &port.cells,
        &mut port.hand,
        port.buffer.as_mut_slice(),
        held,
        &mut port.commit,
        &mut share,
        task,
    );
    (answer, share)
}

/// A buffer for the steps of migrations, if it has none; `Memory` where there is none for it, and then nothing changed.
pub(crate) fn take_buffer<D>(alloc: Global, port: &mut Port<D>) -> Result<(), Refusal>
    ensures kept { 0 < length port.old.buffer.items → port.new.buffer.items ≡ port.old.buffer.items }
    ensures lacked { OnErr result ((length port.old.buffer.items ≡ 0) × (port.new ≡ port.old)) }
    ensures holds { OnOk result (LongestStep ≤ length port.new.buffer.items) }
    ensures refused { IfErr result (λ refusal. refusal ≡ Refusal.Memory) }
    ensures hand { port.new.hand ≡ port.old.hand }
    ensures commit { port.new.commit ≡ port.old.commit }
    ensures geometry { port.new.geometry ≡ port.old.geometry }
{
    if port.buffer.is_empty() {
        port.buffer = vec![in alloc; [0; SECTOR_BYTES]; LONGEST as usize]?;
    }
    Ok(())
}

/// Migrates a block under its order, again while it is busy.
fn migrate<R: Wait, D: Disk + Drop, P: Policy, G: Gate>(
    rt: &R,
    target: &Target<P>,
    gate: &G,
    port: &mut Port<D>,
    order: Order,
    migration: Migration,
    block: OBlock,
) -> Result<(), Refusal>
    requires there { block.0 < port.old.geometry.origin_blocks }
    requires ordered { IsOrdered (order ∷ []) block (copied_to migration) }
    ensures done { OnOk result (WasDone (Runs D.tells D.size D.contents D.faults (AskedSharing P.with_entry P.without_entry) port.old.geometry.origin_blocks (order ∷ [])) (migration_of port.old.geometry migration block) (client_state port.old) (client_state port.new)) }
    ensures refused { IfErr result (λ refusal. WasRefused (Runs D.tells D.size D.contents D.faults (AskedSharing P.with_entry P.without_entry) port.old.geometry.origin_blocks (order ∷ [])) (migration_of port.old.geometry migration block) refusal (client_state port.old) (client_state port.new)) }
    ensures geometry { port.new.geometry ≡ port.old.geometry }
{
    let held = [order];
    for _ in rt.forever() {
        let mut task = BlockTask::migrate(migration, port.geometry.block, block, LONGEST);
        let (answer, _) = work(rt, target, gate, port, &held, &mut task);
        match answer {
            Answer::Done => return Ok(()),
            Answer::Refused(refusal) => {
                if refusal.is_busy() {
                    thread::yield_now();
                    continue;
                }
                pass_over(rt, target, migration, block, refusal);
                return Err(refusal);
            }
        }
    }
    unreachable!()
}

/// Counts a block that cannot be read from the cache as accessed, so that the policy orders other blocks to be cleaned or replaced before it.
fn pass_over<R: Wait, P: Policy>(
    rt: &R,
    target: &Target<P>,
    migration: Migration,
    block: OBlock,
    refusal: Refusal,
)
    ensures { copied_to migration ≡ None → refusal ≡ Refusal.Io Dev.Cache → WereSettled P.ordered P.settled (block ∷ []) }
{
    match (migration, refusal) {
        (Migration::Demote | Migration::Clean, Refusal::Io(Dev::Cache)) => {
            target.settle(rt, &[block]);
        }
        _ => {}
    }
}

/// Makes all that was finished durable, by a commit that begins after it has come: its own, or that of another client which waits, too. The order of a
/// replacement that it serves is given up where there is no memory, or no next generation.
fn flush<R: Wait, D: Disk + Drop, P: Policy, G: Gate>(
    rt: &R,
    target: &Target<P>,
    gate: &G,
    port: &mut Port<D>,
    held: &[Order],
    serves: Option<OBlock>,
) -> Result<Flushed, Refusal>
    ensures done { IfOk result (λ flushed. WasDoneWith D.tells D.size D.contents D.faults (AskedSharing P.with_entry P.without_entry) port.old.geometry.origin_blocks held.now (flush_of port.old.geometry serves) (share_of flushed) (client_state port.old) (client_state port.new)) }
    ensures refused { IfErr result (λ refusal. WasRefused (Runs D.tells D.size D.contents D.faults (AskedSharing P.with_entry P.without_entry) port.old.geometry.origin_blocks held.now) (flush_of port.old.geometry serves) refusal (client_state port.old) (client_state port.new) ⊎ DidNotBegin (Runs D.tells D.size D.contents D.faults (AskedSharing P.with_entry P.without_entry) port.old.geometry.origin_blocks held.now) (flush_of port.old.geometry serves) refusal (client_state port.old) (client_state port.new)) }
    ensures geometry { port.new.geometry ≡ port.old.geometry }
{
    let most = port.geometry.most_nodes(false);
    for _ in rt.forever() {
        let blocks = match served(target.alloc, serves) {
            Ok(blocks) => blocks,
            Err(refusal) => {
                give_up(rt, target, held, serves);
                return Err(refusal);
            }
        };
        let mut task = CommitTask::flush(blocks, most);
        let (answer, share) = work(rt, target, gate, port, held, &mut task);
        match answer {
            Answer::Done => return Ok(answered(share)),
            Answer::Refused(refusal) => {
                if refusal.is_busy() {
                    thread::yield_now();
                    continue;
                }
                return Err(refusal);
            }
        }
    }
    unreachable!()
}

/// The block of the order that a flush serves, if any.
fn served(alloc: Global, block: Option<OBlock>) -> Result<Vec<OBlock>, Refusal>
    ensures blocks { IfOk result (λ blocks. blocks.items ≡ serving block) }
    ensures refused { IfErr result (λ refusal. refusal ≡ Refusal.Memory) }
{
    let mut blocks = Vec::new(alloc);
    if let Some(block) = block {
        blocks.reserve(1)?;
        blocks.push_reserved(block);
    }
    Ok(blocks)
}

/// Gives up the order of a block, which is one of these.
fn give_up<R: Wait, P: Policy>(rt: &R, target: &Target<P>, held: &[Order], block: Option<OBlock>)
    ensures { (one : _) → block ≡ Some one → WasGivenUp P held.now one }
{
    if let Some(block) = block {
        target.release(rt, held, block);
    }
}

/// Carries out an order of blocks that are there.
pub(crate) fn carry_out<R: Wait, D: Disk + Drop, P: Policy, G: Gate>(
    rt: &R,
    target: &Target<P>,
    gate: &G,
    port: &mut Port<D>,
    order: Order,
) -> Result<(), Refusal>
    requires { BlocksAreThere port.old.geometry order }
    ensures carried { OnOk result (WereDone (Runs D.tells D.size D.contents D.faults (AskedSharing P.with_entry P.without_entry) port.old.geometry.origin_blocks (order ∷ [])) (jobs_of port.old.geometry order) (client_state port.old) (client_state port.new)) }
    ensures given_up { IfErr result (λ refusal. GaveUpAmong (Runs D.tells D.size D.contents D.faults (AskedSharing P.with_entry P.without_entry) port.old.geometry.origin_blocks (order ∷ [])) (jobs_of port.old.geometry order) refusal (client_state port.old) (client_state port.new)) }
    ensures geometry { port.new.geometry ≡ port.old.geometry }
{
    match order {
        Order::Replace(victim, block, to) => {
            migrate(rt, target, gate, port, order, Migration::Demote, victim)?;
            let _ = flush(rt, target, gate, port, &[order], Some(block))?;
            migrate(rt, target, gate, port, order, Migration::Promote(to), block)
        }
        _ => {
            let (what, block) = single(order);
            migrate(rt, target, gate, port, order, what, block)
        }
    }
}

/// The one migration of an order that is no replacement, and its block.
fn single(order: Order) -> (Migration, OBlock)
    requires { (v x : OBlockValue) (c : CBlockValue) → order ≢ Order.Replace v x c }
    ensures jobs { (geometry : GeometryValue) → jobs_of geometry order ≡ migration_of geometry result.0 result.1 ∷ [] }
    ensures there { (geometry : GeometryValue) → BlocksAreThere geometry order → result.1.0 < geometry.origin_blocks }
    ensures ordered { IsOrdered (order ∷ []) result.1 (copied_to result.0) }
{
    match order {
        Order::Promote(block, to) => (Migration::Promote(to), block),
        Order::Demote(block) => (Migration::Demote, block),
        Order::Clean(block) => (Migration::Clean, block),
        Order::Replace(_, _, _) => unreachable!(),
    }
}

impl<'t, D: Disk + Drop, P: Policy> Client<'t, D, P> {
    /// Carries out the order that waits longest, if any, and says which: its block is copied and mapped, or copied home, each
    /// task again while its block is busy.
    ///
    /// `Failed` where the target has failed; `Memory` where there is none; `Io` where a step failed; `GenerationEnd` where a
    /// replacement's commit has no next generation.
    pub fn work_one<R: Wait>(&mut self, rt: &R) -> Result<Option<Order>, Refusal>
        ensures carried { IfOk result (λ told. IfSome told (λ order. (begun : _) × HasBegun (client_state self.old.port) begun × WereDone (Runs D.tells D.size D.contents D.faults (AskedSharing P.with_entry P.without_entry) self.old.port.geometry.origin_blocks (order ∷ [])) (jobs_of self.old.port.geometry order) begun (client_state self.new.port))) }
        ensures next { IfOk result (WasNext P) }
        ensures idle { IfOk result (λ told. IfNone told (HasBegun (client_state self.old.port) (client_state self.new.port))) }
        ensures refused { IfErr result (λ refusal. OrderRefused (Runs D.tells D.size D.contents D.faults (AskedSharing P.with_entry P.without_entry) self.old.port.geometry.origin_blocks) (WasNext P) self.old.port.geometry refusal (client_state self.old.port) (client_state self.new.port)) }
        ensures target { self.new.target ≡ self.old.target }
        ensures geometry { self.new.port.geometry ≡ self.old.port.geometry }
    {
        if self.port.has_failed() {
            return Err(Refusal::Failed);
        }
        let target = self.target;
        take_buffer(target.alloc, &mut self.port)?;
        let Some(order) = target.take_order(rt, self.port.geometry) else {
            return Ok(None);
        };
        carry_out(rt, target, &OpenGate, &mut self.port, order)?;
        Ok(Some(order))
    }

    /// Makes durable all that was finished before it, by a commit that begins after it was called: `Led` where it was its own, `Served` where another client led
    /// it, whose flush waited, too.
    ///
    /// `Failed` where the target has failed; `Io` where a step failed; `Memory` where there is none; `GenerationEnd` where there
    /// is no next generation.
    pub fn flush<R: Wait>(&mut self, rt: &R) -> Result<Flushed, Refusal>
        ensures flushed { IfOk result (λ flushed. WasDoneWith D.tells D.size D.contents D.faults (AskedSharing P.with_entry P.without_entry) self.old.port.geometry.origin_blocks [] (flush_of self.old.port.geometry None) (share_of flushed) (client_state self.old.port) (client_state self.new.port)) }
        ensures synced { IfOk result (λ flushed. flushed ≡ Flushed.Led → D.tells → AreSynced D.contents self.new.port.hand.devices) }
        ensures refused { IfErr result (λ refusal. FlushRefused (Runs D.tells D.size D.contents D.faults (AskedSharing P.with_entry P.without_entry) self.old.port.geometry.origin_blocks) self.old.port.geometry refusal (client_state self.old.port) (client_state self.new.port)) }
        ensures target { self.new.target ≡ self.old.target }
        ensures geometry { self.new.port.geometry ≡ self.old.port.geometry }
    {
        let target = self.target;
        flush(rt, target, &OpenGate, &mut self.port, &[], None)
    }

    /// The policy's tick, over the blocks that are dirty now, and then a flush: orders that the policy gives wait to be taken. It
    /// looks at each cache block, under the lock.
    ///
    /// `Failed` where the target has failed, and `Memory` where there is none for the list of dirty blocks: then the policy was
    /// told nothing. Else as `flush`, and then the orders stay.
    pub fn tick<R: Wait>(&mut self, rt: &R) -> Result<Flushed, Refusal>
        ensures ticked { OnOk result (HadTick P.cleaned P.ticked) }
        ensures flushed { IfOk result (λ flushed. WasDoneWith D.tells D.size D.contents D.faults (AskedSharing P.with_entry P.without_entry) self.old.port.geometry.origin_blocks [] (flush_of self.old.port.geometry None) (share_of flushed) (looked_at_fail 0 (client_state self.old.port)) (client_state self.new.port)) }
        ensures synced { IfOk result (λ flushed. flushed ≡ Flushed.Led → D.tells → AreSynced D.contents self.new.port.hand.devices) }
        ensures refused { IfErr result (λ refusal. TickRefused (Runs D.tells D.size D.contents D.faults (AskedSharing P.with_entry P.without_entry) self.old.port.geometry.origin_blocks) self.old.port.geometry refusal (client_state self.old.port) (client_state self.new.port)) }
        ensures target { self.new.target ≡ self.old.target }
        ensures geometry { self.new.port.geometry ≡ self.old.port.geometry }
    {
        if self.port.has_failed() {
            return Err(Refusal::Failed);
        }
        self.target.tick(rt)?;
        self.flush(rt)
    }
}
