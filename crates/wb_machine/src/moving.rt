//! Steps of a task on devices, done and failed: the code that programs run performs them, over disks in memory, or over disks that fail
//! by a choice.

ghost use Rattle.std.specs.Prelude.{◌≡◌, ◌≤◌, ◌<◌, ◌+◌, ◌⊎◌, ◌↔◌, ℕ, IsTrue, length, IfOk, IfErr, IfSome, OnOk, OnErr, replicate};
ghost use Rattle.std.specs.Bool.{OnTrue, OnFalse};
ghost use Rattle.wb_types.specs.declared.mode.Dev.{Dev as DevValue};
ghost use Rattle.wb_types.specs.declared.extent.Extent.{Extent as ExtentValue};
ghost use Rattle.wb_types.specs.declared.refusal.Refusal.TheVariants.{Memory};
ghost use Rattle.wb_disk.specs.Failing.{MayFail};
ghost use Rattle.wb_disk.specs.Faltering.{falters_as};
ghost use Rattle.wb_disk.specs.Memory.{HasRoomFor};
ghost use Rattle.wb_meta.specs.Steps.{coming_step};
ghost use Rattle.wb_tasks.specs.Plan.{device_of};
ghost use Rattle.wb_tasks.specs.declared.step.DeviceStep.TheVariants.{Read as ReadExtent};
ghost use Rattle.wb_tasks.specs.declared.step.Want.TheVariants.{Device};
ghost use Rattle.wb_tasks.specs.declared.step.Got.TheVariants.{Fault};
ghost use Rattle.wb_devices.specs.Moving.{OthersStay, device_in};
ghost use Rattle.wb_devices.specs.Stepping.{CommitGoes, StepFails};
ghost use Rattle.wb_promise.specs.Happenings.{Plain, sector_put};
ghost use Rattle.wb_machine.specs.Life.{contents_of};
ghost use Rattle.wb_machine.specs.Serving.{DoesOn, FailsAt, FittedTo, HasRoomAt, IsDoable, Moves, commit_by, read_by};

use std::alloc::{AllocError, Global};
use std::mem;
use wb_devices::{Devices, RunningCommit};
use wb_disk::{CrashChoice, Disk, Faltering, MemDisk};
use wb_meta::CommitStep;
use wb_promise::Job;
use wb_tasks::{DeviceStep, Got};
use wb_types::{Content, Dev, Extent, Place, Refusal, SECTOR_BYTES};

/// A step of a job on a device, and what it read. `Memory` where what is read, or what is written, wants more than there is; then no
/// content has changed.
pub(crate) fn do_step(
    alloc: Global,
    devices: &mut Devices<MemDisk>,
    commit: &mut Option<RunningCommit>,
    job: &Job,
    buffer: &[Content],
    step: DeviceStep,
) -> Result<Vec<Content>, Refusal>
    requires { IsDoable (contents_of devices.old) commit.old job.now step }
    ensures ok { IfOk result (λ read. DoesOn (contents_of devices.old) commit.old job.now buffer.now step read.items (contents_of devices.new) commit.new) }
    ensures size { length devices.new.metadata.contents ≡ length devices.old.metadata.contents }
    ensures err { OnErr result ((contents_of devices.new ≡ contents_of devices.old) × (commit.new ≡ commit.old)) }
    ensures refusal { IfErr result (λ refusal. refusal ≡ Memory) }
{
    let mut moved = moved_by(alloc, job, buffer, step)?;
    let there = fitted(devices, step, moved.as_slice());
    make_room(devices, commit, there)?;
    match devices.perform(commit, there, moved.as_mut_slice()) {
        Got::Done => Ok(read_by(alloc, step, moved)),
        Got::Fault => Err(Refusal::Memory),
        _ => unreachable!(),
    }
}

/// A step of a job on a device that fails; what it writes or syncs has landed where the choice says so. False, and nothing changes,
/// where it cannot fail so. `Memory` where there is no room for what it writes; then no content has changed.
pub(crate) fn fail_step(
    alloc: Global,
    devices: &mut Devices<MemDisk>,
    commit: &mut Option<RunningCommit>,
    job: &Job,
    buffer: &[Content],
    step: DeviceStep,
    choice: &CrashChoice,
) -> Result<bool, Refusal>
    requires { IsDoable (contents_of devices.old) commit.old job.now step }
    ensures may { IfOk result (λ may. IsTrue may ↔ MayFail (device_of step) choice.now (length (device_in (device_of step) (contents_of devices.old)))) }
    ensures failed { IfOk result (λ may. OnTrue may (FailsAt choice.now (contents_of devices.old) commit.old job.now buffer.now step (contents_of devices.new) commit.new)) }
    ensures size { length devices.new.metadata.contents ≡ length devices.old.metadata.contents }
    ensures kept { IfOk result (λ may. OnFalse may ((contents_of devices.new ≡ contents_of devices.old) × (commit.new ≡ commit.old))) }
    ensures err { OnErr result ((contents_of devices.new ≡ contents_of devices.old) × (commit.new ≡ commit.old)) }
    ensures refusal { IfErr result (λ refusal. refusal ≡ Memory) }
{
    let device = device_of(step);
    if !choice.may_fail(device, sectors_of(devices, device)) {
        return Ok(false);
    }
    let moved = moved_by(alloc, job, buffer, step)?;
    let there = fitted(devices, step, moved.as_slice());
    make_room(devices, commit, there)?;
    falter(alloc, devices, commit, there, moved, choice)?;
    end(commit, step);
    Ok(true)
}

/// The commit that runs ends where a step of it has failed.
fn end(commit: &mut Option<RunningCommit>, step: DeviceStep)
    ensures { commit.new ≡ commit_by commit.old (Device step) Fault Plain }
{
    match step {
        DeviceStep::Read(_, _)
        | DeviceStep::Write(_, _)
        | DeviceStep::Sync(Dev::Cache)
        | DeviceStep::Sync(Dev::Origin) => {}
        _ => *commit = None,
    }
}

/// Performs a step over the same disks, each call of which fails as the choice says. `Memory` where there is none to take them apart:
/// nothing has changed.
pub(crate) fn falter(
    alloc: Global,
    devices: &mut Devices<MemDisk>,
    commit: &mut Option<RunningCommit>,
    step: DeviceStep,
    moved: Vec<Content>,
    choice: &CrashChoice,
) -> Result<(), Refusal>
    ensures others { OnOk result (OthersStay (device_of step) (contents_of devices.old) (contents_of devices.new)) }
    ensures goes { OnOk result (CommitGoes (length devices.old.metadata.contents) commit.old step Fault commit.new) }
    ensures how { OnOk result (StepFails (falters_as (device_in (device_of step) devices.old) (device_of step) choice.now) commit.old step Fault (length (device_in (device_of step) (contents_of devices.old))) (device_in (device_of step) (contents_of devices.old)) moved.items (device_in (device_of step) (contents_of devices.new))) }
    ensures reads { OnOk result ((device : DevValue) (e : ExtentValue) → step ≡ ReadExtent device e → device_in device (contents_of devices.new) ≡ device_in device (contents_of devices.old)) }
    ensures size { length devices.new.metadata.contents ≡ length devices.old.metadata.contents }
    ensures err { OnErr result ((devices.new ≡ devices.old) × (commit.new ≡ commit.old)) }
    ensures refusal { IfErr result (λ refusal. refusal ≡ Memory) }
{
    let metadata = MemDisk::new(alloc, 0)?;
    let cache = MemDisk::new(alloc, 0)?;
    let origin = MemDisk::new(alloc, 0)?;
    let metadata = mem::replace(&mut devices.metadata, metadata);
    let cache = mem::replace(&mut devices.cache, cache);
    let origin = mem::replace(&mut devices.origin, origin);
    let mut failing = Devices {
        metadata: Faltering::new(metadata, Dev::Metadata, choice),
        cache: Faltering::new(cache, Dev::Cache, choice),
        origin: Faltering::new(origin, Dev::Origin, choice),
    };
    let mut moved = moved;
    let _ = failing.perform(commit, step, moved.as_mut_slice());
    let Devices {
        metadata,
        cache,
        origin,
    } = failing;
    devices.metadata = metadata.into_inner();
    devices.cache = cache.into_inner();
    devices.origin = origin.into_inner();
    Ok(())
}

/// What a step of a job moves: room for what it reads, or what it writes. `Memory` where there is none for it.
fn moved_by(
    alloc: Global,
    job: &Job,
    buffer: &[Content],
    step: DeviceStep,
) -> Result<Vec<Content>, Refusal>
    ensures ok { IfOk result (λ moved. Moves job.now buffer.now step moved.items) }
    ensures refusal { IfErr result (λ refusal. refusal ≡ Memory) }
{
    match (step, job) {
        (DeviceStep::Read(_, extent), _) => {
            let room = vec![in alloc; [0; SECTOR_BYTES]; extent.count as usize]?;
            Ok(room)
        }
        (DeviceStep::Write(_, extent), Job::Write(_, content)) => {
            let all = repeated(alloc, content, extent.count)?;
            Ok(all)
        }
        (DeviceStep::Write(_, _), Job::Migrate(_, _)) => {
            let all = copy_of(alloc, buffer)?;
            Ok(all)
        }
        _ => Ok(Vec::new(alloc)),
    }
}

/// A content so many times.
fn repeated(alloc: Global, content: &Content, count: u64) -> Result<Vec<Content>, AllocError>
    ensures { IfOk result (λ all. all.items ≡ replicate count content.now) }
{
    let mut all = Vec::new(alloc);
    for _ in 0..count {
        all.push(*content)?;
    }
    Ok(all)
}

/// These contents.
fn copy_of(alloc: Global, contents: &[Content]) -> Result<Vec<Content>, AllocError>
    ensures { IfOk result (λ copy. copy.items ≡ contents.now) }
{
    let mut copy = Vec::new(alloc);
    copy.extend_from_slice(contents)?;
    Ok(copy)
}

/// The step whose extent has as many sectors as are written and are there.
fn fitted(devices: &Devices<MemDisk>, step: DeviceStep, moved: &[Content]) -> DeviceStep
    ensures { FittedTo moved.now (contents_of devices.now) step result }
{
    match step {
        DeviceStep::Write(device, extent) => {
            let sectors = sectors_of(devices, device);
            DeviceStep::Write(device, extent_of(sectors, extent.first, moved.len() as u64))
        }
        _ => step,
    }
}

/// As many of these sectors, from this one on, as there are.
fn extent_of(sectors: u64, first: u64, count: u64) -> Extent
    ensures first { result.first ≡ first }
    ensures few { result.count ≤ count }
    ensures inside { first ≤ sectors → first + result.count ≤ sectors }
    ensures all { (result.count ≡ count) ⊎ (sectors ≤ first + result.count) }
{
    if first > sectors {
        return Extent { first, count: 0 };
    }
    let left = sectors - first;
    let count = if count < left { count } else { left };
    Extent { first, count }
}

/// Makes room for what a step writes. `Memory` where there is none. The contents stay.
pub(crate) fn make_room(
    devices: &mut Devices<MemDisk>,
    commit: &Option<RunningCommit>,
    step: DeviceStep,
) -> Result<(), Refusal>
    ensures room { OnOk result (HasRoomAt devices.new commit.now step) }
    ensures contents { contents_of devices.new ≡ contents_of devices.old }
    ensures refusal { IfErr result (λ refusal. refusal ≡ Memory) }
{
    match step {
        DeviceStep::Write(Dev::Metadata, extent) => room_on(&mut devices.metadata, extent),
        DeviceStep::Write(Dev::Cache, extent) => room_on(&mut devices.cache, extent),
        DeviceStep::Write(Dev::Origin, extent) => room_on(&mut devices.origin, extent),
        DeviceStep::WriteNode(_) | DeviceStep::WriteRoot => {
            let first = sector_coming(commit);
            room_on(&mut devices.metadata, Extent { first, count: 1 })
        }
        _ => Ok(()),
    }
}

/// The same on a disk. `Memory` also where it has not got all of these sectors.
fn room_on(disk: &mut MemDisk, extent: Extent) -> Result<(), Refusal>
    ensures room { OnOk result (HasRoomFor disk.new extent.first extent.count) }
    ensures contents { disk.new.contents ≡ disk.old.contents }
    ensures refusal { IfErr result (λ refusal. refusal ≡ Memory) }
{
    if !extent.is_within(disk.sectors()) {
        return Err(Refusal::Memory);
    }
    wb_disk::make_room(disk, extent.first, extent.count)
}

/// The sector that the next step of the commit that runs writes.
fn sector_coming(commit: &Option<RunningCommit>) -> u64
    ensures { IfSome commit.now (λ running. result ≡ sector_put (coming_step running.image running.steps)) }
{
    let Some(running) = commit else {
        return 0;
    };
    match running.coming() {
        Some(CommitStep::WriteNode(Place(place))) => u64::from(place),
        Some(CommitStep::WriteRoot(Place(slot))) => u64::from(slot),
        Some(CommitStep::Sync) | None => 0,
    }
}

/// What was read by a step that moved these.
fn read_by(alloc: Global, step: DeviceStep, moved: Vec<Content>) -> Vec<Content>
    ensures { result.items ≡ read_by step moved.items }
{
    match step {
        DeviceStep::Read(_, _) => moved,
        _ => Vec::new(alloc),
    }
}

/// The device of a step.
pub(crate) fn device_of(step: DeviceStep) -> Dev
    ensures { result ≡ device_of step }
{
    match step {
        DeviceStep::Read(device, _) | DeviceStep::Write(device, _) | DeviceStep::Sync(device) => {
            device
        }
        DeviceStep::ReadMetadata(_) | DeviceStep::WriteNode(_) | DeviceStep::WriteRoot => {
            Dev::Metadata
        }
    }
}

/// How many sectors a device has.
pub(crate) fn sectors_of(devices: &Devices<MemDisk>, device: Dev) -> u64
    ensures { result ≡ length (device_in device (contents_of devices.now)) }
{
    match device {
        Dev::Metadata => devices.metadata.sectors(),
        Dev::Cache => devices.cache.sectors(),
        Dev::Origin => devices.origin.sectors(),
    }
}
