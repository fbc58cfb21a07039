//! Performing jobs.

ghost use Rattle.std.specs.Prelude.{◌↔◌, IsTrue, Err, ◌≡◌, ◌≤◌, ◌<◌, ◌+◌, ◌^◌, ◌⊎◌, true, false, OnOk, IfOk, IfErr, length};
ghost use Rattle.wb_nbd.specs.Acts.{Read as ReadAct, Wrote, Flushed, Refused};
ghost use Rattle.wb_nbd.specs.Performing.{TaskFits, Performs, Both, WritesZeros, StopsAmongZeros, zero_sectors};

use crate::answer::Answer;
use crate::errno::Errno;
use crate::export::Export;
use crate::job::{Job, Task};
use std::alloc::Global;
use wb_types::{Content, Extent, SECTOR_BYTES, Sector};

/// How many sectors of zeros are written by one call: 1 MiB.
const ZEROS_AT_ONCE: u64 = 2048;

/// Does a job on an export, and gives its answer: the sectors that were read, none where nothing was to be read, or why it was
/// refused. `Invalid` where its sectors are not all the export's, and then nothing is done.
pub fn perform<E: Export>(alloc: Global, export: &mut E, job: &Job) -> Answer
    ensures cookie { result.cookie ≡ job.now.cookie }
    ensures told { TaskFits (E.size export.old) job.now.task → Performs E.acts export.old job.now.task result.told export.new }
    ensures outside { (TaskFits (E.size export.old) job.now.task → ⊥) → (result.told ≡ Err Errno.Invalid) × (export.new ≡ export.old) }
    ensures size { E.size export.new ≡ E.size export.old }
{
    let told = if fits(export.sectors(), &job.task) {
        perform_task(alloc, export, &job.task)
    } else {
        Err(Errno::Invalid)
    };
    Answer {
        cookie: job.cookie,
        told,
    }
}

/// Whether the sectors of a task are some of so many.
fn fits(size: u64, task: &Task) -> bool
    ensures { IsTrue result ↔ TaskFits size task.now }
{
    let (first, count) = match task {
        Task::Read(Sector(first), count) => (*first, *count),
        Task::Write(Sector(first), content, _) => (*first, content.len() as u64),
        Task::Zeroes(Sector(first), count, _) => (*first, *count),
        Task::Flush | Task::Refuse(_) => return true,
    };
    Extent { first, count }.is_within(size)
}

fn perform_task<E: Export>(
    alloc: Global,
    export: &mut E,
    task: &Task,
) -> Result<Vec<Content>, Errno>
    requires fits { TaskFits (E.size export.old) task.now }
    requires small { E.size export.old < 2 ^ 64 }
    ensures told { Performs E.acts export.old task.now result export.new }
    ensures size { E.size export.new ≡ E.size export.old }
{
    match task {
        Task::Read(at, count) => read(alloc, export, *at, *count),
        Task::Write(at, content, durable) => {
            write(export, *at, content.as_slice(), *durable)?;
            Ok(Vec::new(alloc))
        }
        Task::Zeroes(at, count, durable) => {
            write_zeros(alloc, export, *at, *count, *durable)?;
            Ok(Vec::new(alloc))
        }
        Task::Flush => {
            export.flush()?;
            Ok(Vec::new(alloc))
        }
        Task::Refuse(errno) => Err(*errno),
    }
}

/// Reads sectors into memory of their own.
fn read<E: Export>(
    alloc: Global,
    export: &mut E,
    at: Sector,
    count: u64,
) -> Result<Vec<Content>, Errno>
    requires { at.0 + count ≤ E.size export.old }
    ensures done { IfOk result (λ given. E.acts export.old (ReadAct at.0 given.items) export.new × (length given.items ≡ count)) }
    ensures refused { IfErr result (λ errno. E.acts export.old (Refused errno) export.new ⊎ ((errno ≡ Errno.Memory) × (export.new ≡ export.old))) }
    ensures size { E.size export.new ≡ E.size export.old }
{
    let mut content = vec![in alloc; [0; SECTOR_BYTES]; count as usize].map_err(|_| Errno::Memory)?;
    export.read(at, content.as_mut_slice())?;
    Ok(content)
}

/// Writes sectors, and sees that they are durable where that is wanted.
fn write<E: Export>(
    export: &mut E,
    at: Sector,
    content: &[Content],
    durable: bool,
) -> Result<(), Errno>
    requires { at.0 + length content.now ≤ E.size export.old }
    ensures plain { durable ≡ false → OnOk result (E.acts export.old (Wrote at.0 content.now) export.new) }
    ensures durable { durable ≡ true → OnOk result (Both E.acts export.old (Wrote at.0 content.now) Flushed export.new) }
    ensures plain_refused { durable ≡ false → IfErr result (λ errno. E.acts export.old (Refused errno) export.new) }
    ensures refused { IfErr result (λ errno. E.acts export.old (Refused errno) export.new ⊎ Both E.acts export.old (Wrote at.0 content.now) (Refused errno) export.new) }
    ensures size { E.size export.new ≡ E.size export.old }
{
    export.write(at, content)?;
    if durable {
        export.flush()?;
    }
    Ok(())
}

/// Writes zeros to sectors, and sees that they are durable where that is wanted.
fn write_zeros<E: Export>(
    alloc: Global,
    export: &mut E,
    at: Sector,
    count: u64,
    durable: bool,
) -> Result<(), Errno>
    requires inside { at.0 + count ≤ E.size export.old }
    requires small { E.size export.old < 2 ^ 64 }
    ensures plain { durable ≡ false → OnOk result (WritesZeros E.acts export.old at.0 count export.new) }
    ensures durable { durable ≡ true → OnOk result ((between : _) × WritesZeros E.acts export.old at.0 count between × E.acts between Flushed export.new) }
    ensures refused { IfErr result (λ errno. StopsAmongZeros E.acts export.old at.0 count errno export.new ⊎ ((errno ≡ Errno.Memory) × (export.new ≡ export.old))) }
    ensures size { E.size export.new ≡ E.size export.old }
{
    let zeros = zeros_of(alloc, count.min(ZEROS_AT_ONCE))?;
    write_again(export, at, count, zeros.as_slice())?;
    if durable {
        export.flush()?;
    }
    Ok(())
}

/// So many sectors of zeros.
fn zeros_of(alloc: Global, count: u64) -> Result<Vec<Content>, Errno>
    ensures zeros { IfOk result (λ zeros. zeros.items ≡ zero_sectors count) }
    ensures refused { IfErr result (λ errno. errno ≡ Errno.Memory) }
{
    let Ok(mut zeros) = Vec::with_capacity(alloc, count as usize) else {
        return Err(Errno::Memory);
    };
    for _ in 0..count {
        zeros.push_reserved([0; SECTOR_BYTES]);
    }
    Ok(zeros)
}

/// Writes these sectors of zeros again and again, until so many are written.
fn write_again<E: Export>(
    export: &mut E,
    at: Sector,
    count: u64,
    zeros: &[Content],
) -> Result<(), Errno>
    requires inside { at.0 + count ≤ E.size export.old }
    requires small { E.size export.old < 2 ^ 64 }
    requires zeros { zeros.now ≡ zero_sectors (length zeros.now) }
    requires some { 1 ≤ length zeros.now ⊎ count ≡ 0 }
    ensures done { OnOk result (WritesZeros E.acts export.old at.0 count export.new) }
    ensures refused { IfErr result (λ errno. StopsAmongZeros E.acts export.old at.0 count errno export.new) }
    ensures size { E.size export.new ≡ E.size export.old }
{
    let mut done = 0;
    while done < count {
        let many = (count - done).min(zeros.len() as u64);
        export.write(Sector(at.0 + done), &zeros[..many as usize])?;
        done += many;
    }
    Ok(())
}
