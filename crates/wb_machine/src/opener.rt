//! An opening at work, and its steps on devices.

ghost use Rattle.std.specs.Prelude.{◌≡◌, ◌<◌, ◌↔◌, ℕ, [], None, Some, IfOk, IfSome, OnOk, OnErr, IfErr, IsTrue, length, map, slice_get};
ghost use Rattle.std.specs.declared.alloc.Global.{Global as GlobalValue};
ghost use Rattle.std.specs.Bool.{OnTrue, OnFalse};
ghost use Rattle.wb_types.specs.declared.mode.Dev.TheVariants.{Metadata};
ghost use Rattle.wb_types.specs.declared.refusal.Refusal.TheVariants.{Memory};
ghost use Rattle.wb_disk.specs.Device.{newest, synced};
ghost use Rattle.wb_disk.specs.Failing.{MayFail};
ghost use Rattle.wb_tasks.specs.Plan.{Fits, want, after, device_of};
ghost use Rattle.wb_tasks.specs.declared.step.Got.TheVariants.{Done, Fault};
ghost use Rattle.wb_tasks.specs.declared.step.DeviceStep.TheVariants.{Sync, ReadMetadata};
ghost use Rattle.wb_meta.specs.declared.read_steps.ReadSteps.{ReadSteps as Steps};
ghost use Rattle.wb_tasks.specs.declared.step.Want.TheVariants.{Device};
ghost use Rattle.wb_devices.specs.Moving.{device_in};
ghost use Rattle.wb_devices.specs.Clean.{DidTell};
ghost use Rattle.wb_promise.specs.Effects.{led};
ghost use Rattle.wb_promise.specs.Happenings.{AreWhole};
ghost use Rattle.wb_promise.specs.States.{with_device};
ghost use Rattle.wb_promise.specs.declared.event.Event.TheVariants.{Step};
ghost use Rattle.wb_promise.specs.declared.event.What.TheVariants.{Stepped};
ghost use Rattle.wb_machine.specs.declared.machine.TheConstants.{ACTORS};
ghost use Rattle.wb_machine.specs.declared.phase.Phase.TheVariants.{Underway};
ghost use Rattle.wb_machine.specs.Life.{FailsOn, Happens, WasPut, commit_failed, commit_synced, contents_of, device_step_of, made_synced, reading_synced, reading_failed, shape_of, state_of};
ghost use Rattle.wb_machine.specs.Making.{HasMade, MadeBy, ends_reading, reading_of};
ghost use Rattle.wb_machine.specs.Serving.{ComesNext, FindsItsRoot, IsPut, PutComes, SyncComes};
ghost use Rattle.wb_machine.specs.Standing.{HasReadAll, ReadsOn, StandsAt};

use crate::asked::Asked;
use crate::asking::see_commit;
use crate::machine::ACTORS;
use crate::making::{Made, make};
use crate::moving::{device_of, falter, make_room, sectors_of};
use std::alloc::Global;
use wb_devices::{Devices, Opening, RunningCommit};
use wb_disk::{CrashChoice, Disk, MemDisk};
use wb_flow::OpenTask;
use wb_meta::ReadSteps;
use wb_tasks::{DeviceStep, Got, Task};
use wb_types::{Content, Dev, Geometry, Refusal, SECTOR_BYTES};

/// Who opens in which mode, what is left of the opening, and what was read: the reading begins once the metadata were synced, and is over where
/// the metadata device has failed, as is the commit of the root, and of the nodes that are written anew before it. Once all was read, what the
/// answer wants has been made of it.
#[derive(Drop)]
pub struct Opener {
    pub asked: Asked,
    pub task: OpenTask,
    pub opening: Opening,
    pub made: Option<Made>,
}

impl Opener {
    /// Its next step, on a device, is done. `Memory` where there is none for the node or root that it writes: no content has
    /// changed.
    pub(crate) fn perform(
        &mut self,
        geometry: &Geometry,
        devices: &mut Devices<MemDisk>,
        step: DeviceStep,
    ) -> Result<Got, Refusal>
        requires next { device_step_of (want self.old.task) ≡ Some step }
        requires whole { length devices.old.metadata.contents ≡ geometry.now.meta_sectors }
        requires there { self.old.asked.actor < ACTORS }
        requires stands { StandsAt geometry.now ACTORS self.old }
        requires finds { FindsItsRoot geometry.now devices.old.metadata.contents self.old }
        ensures asked { self.new.asked ≡ self.old.asked }
        ensures whole { length devices.new.metadata.contents ≡ geometry.now.meta_sectors }
        ensures stands { StandsAt geometry.now ACTORS self.new }
        ensures does { IfOk result (λ got. Happens (shape_of geometry.now ACTORS) (state_of ACTORS devices.old (Underway self.old)) (Step self.old.asked.actor) (Stepped (Device step) got) [] (state_of ACTORS devices.new (Underway self.new))) }
        ensures err { OnErr result ((contents_of devices.new ≡ contents_of devices.old) × (self.new ≡ self.old)) }
        ensures refusal { IfErr result (λ refusal. refusal ≡ Memory) }
    {
        let _two_slots = geometry.node_count();
        match step {
            DeviceStep::Sync(device) => {
                self.sync(devices, device);
                Ok(Got::Done)
            }
            DeviceStep::ReadMetadata(left) => Ok(self.read(geometry, &mut devices.metadata, left)),
            _ => {
                self.write(devices, step)?;
                Ok(Got::Done)
            }
        }
    }

    /// Syncs a device, as the next step.
    fn sync(&mut self, devices: &mut Devices<MemDisk>, device: Dev)
        requires next { want self.old.task ≡ Device (Sync device) }
        requires comes { SyncComes device self.old.opening.commit devices.old.metadata.contents }
        ensures asked { self.new.asked ≡ self.old.asked }
        ensures task { self.new.task ≡ after self.old.task Done }
        ensures geometry { self.new.opening.geometry ≡ self.old.opening.geometry }
        ensures commit { self.new.opening.commit ≡ commit_synced device self.old.opening.commit }
        ensures reading { reading_of self.new ≡ reading_synced self.old.opening.alloc device self.old.opening.commit (reading_of self.old) }
        ensures made { self.new.made ≡ made_synced device self.old.opening.commit self.old.made }
        ensures devices { contents_of devices.new ≡ with_device device (contents_of devices.old) (synced (device_in device (contents_of devices.old))) }
    {
        self.begin(device);
        sync(devices, &mut self.opening.commit, device);
        self.task.next(Got::Done);
    }

    /// Where no commit runs, the metadata that are made durable are to be read.
    fn begin(&mut self, device: Dev)
        ensures asked { self.new.asked ≡ self.old.asked }
        ensures task { self.new.task ≡ self.old.task }
        ensures geometry { self.new.opening.geometry ≡ self.old.opening.geometry }
        ensures commit { self.new.opening.commit ≡ self.old.opening.commit }
        ensures reading { reading_of self.new ≡ reading_synced self.old.opening.alloc device self.old.opening.commit (reading_of self.old) }
        ensures made { self.new.made ≡ made_synced device self.old.opening.commit self.old.made }
    {
        let Dev::Metadata = device else {
            return;
        };
        if self.opening.commit.is_some() {
            return;
        }
        forget(&mut self.made);
        self.opening.reading = Some(ReadSteps::Begun {
            alloc: self.opening.alloc,
            global: self.opening.alloc,
        });
    }

    /// Writes a node or the root, as the next step. `Memory` where there is none for it: no content has changed.
    fn write(&mut self, devices: &mut Devices<MemDisk>, step: DeviceStep) -> Result<(), Refusal>
        requires next { want self.old.task ≡ Device step }
        requires puts { IsPut step }
        requires comes { ComesNext self.old.opening.commit step devices.old.metadata.contents }
        ensures size { length devices.new.metadata.contents ≡ length devices.old.metadata.contents }
        ensures asked { self.new.asked ≡ self.old.asked }
        ensures task { OnOk result (self.new.task ≡ after self.old.task Done) }
        ensures geometry { self.new.opening.geometry ≡ self.old.opening.geometry }
        ensures reading { reading_of self.new ≡ reading_of self.old }
        ensures made { self.new.made ≡ self.old.made }
        ensures commit { OnOk result (self.new.opening.commit ≡ led self.old.opening.commit Done) }
        ensures puts { OnOk result (WasPut self.old.opening.commit step devices.old.metadata.contents devices.new.metadata.contents) }
        ensures others { OnOk result (contents_of devices.new ≡ record (contents_of devices.old) { metadata = devices.new.metadata.contents }) }
        ensures err { OnErr result ((contents_of devices.new ≡ contents_of devices.old) × (self.new ≡ self.old)) }
        ensures refusal { IfErr result (λ refusal. refusal ≡ Memory) }
    {
        put_next(devices, &mut self.opening.commit, step)?;
        self.task.next(Got::Done);
        Ok(())
    }

    /// Reads the metadata sector that comes next, as the next step, where at most so many may follow.
    fn read(&mut self, geometry: &Geometry, metadata: &mut MemDisk, left: u32) -> Got
        requires next { want self.old.task ≡ Device (ReadMetadata left) }
        requires reads { ReadsOn geometry.now ACTORS left self.old metadata.old.contents }
        ensures contents { metadata.new.contents ≡ metadata.old.contents }
        ensures asked { self.new.asked ≡ self.old.asked }
        ensures task { self.new.task ≡ after self.old.task result }
        ensures geometry { self.new.opening.geometry ≡ self.old.opening.geometry }
        ensures did { (was : Steps GlobalValue) → self.old.opening.reading ≡ Some was → DidTell self.old.asked.mode self.old.opening.geometry geometry.now.meta_sectors left was metadata.old.contents self.old.opening.commit result (reading_of self.new) self.new.opening.commit }
        ensures made { MadeBy ACTORS result self.old.asked self.new.made }
        ensures whole { IfSome self.new.opening.commit (λ running. AreWhole running.image) }
    {
        let got = self.tell(geometry, metadata, left);
        see_commit(&self.opening.commit);
        self.task.next(got);
        got
    }

    /// Tells the opening what stands in the metadata sector that comes next. Where all was read, what the answer wants is made; the
    /// opening is refused where there is no memory for it, and in passthrough where what was read was not left clean.
    fn tell(&mut self, geometry: &Geometry, metadata: &mut MemDisk, left: u32) -> Got
        requires reads { ReadsOn geometry.now ACTORS left self.old metadata.old.contents }
        ensures contents { metadata.new.contents ≡ metadata.old.contents }
        ensures asked { self.new.asked ≡ self.old.asked }
        ensures task { self.new.task ≡ self.old.task }
        ensures kind { Fits (Device (ReadMetadata left)) result }
        ensures geometry { self.new.opening.geometry ≡ self.old.opening.geometry }
        ensures did { (was : Steps GlobalValue) → self.old.opening.reading ≡ Some was → DidTell self.old.asked.mode self.old.opening.geometry geometry.now.meta_sectors left was metadata.old.contents self.old.opening.commit result (reading_of self.new) self.new.opening.commit }
        ensures made { MadeBy ACTORS result self.old.asked self.new.made }
    {
        let _two_slots = geometry.node_count();
        let got = self.opening.read(self.asked.mode, metadata, left);
        if !ends_reading(got) {
            return got;
        }
        match self.prepare(geometry) {
            Ok(()) => got,
            Err(refusal) => Got::Refused(refusal),
        }
    }

    /// Makes what the answer wants, once all was read. `Memory` where there is none for it: then the reading is over.
    fn prepare(&mut self, geometry: &Geometry) -> Result<(), Refusal>
        requires there { self.old.asked.actor < ACTORS }
        requires none { self.old.made ≡ None }
        requires all { HasReadAll geometry.now self.old.opening.reading self.old.opening.commit }
        ensures asked { self.new.asked ≡ self.old.asked }
        ensures task { self.new.task ≡ self.old.task }
        ensures geometry { self.new.opening.geometry ≡ self.old.opening.geometry }
        ensures reading { OnOk result (reading_of self.new ≡ self.old.opening.reading) }
        ensures commit { OnOk result (self.new.opening.commit ≡ self.old.opening.commit) }
        ensures made { OnOk result (HasMade ACTORS self.old.asked self.new.made) }
        ensures over { OnErr result ((reading_of self.new ≡ None) × (self.new.opening.commit ≡ None) × (self.new.made ≡ None)) }
        ensures refused { IfErr result (λ refusal. refusal ≡ Memory) }
    {
        let _ = geometry;
        let Some(ReadSteps::Done(state)) = self.opening.reading.take() else {
            return Ok(());
        };
        let Some(commit) = &self.opening.commit else {
            return Ok(());
        };
        let next = commit.image().root;
        match make(self.opening.alloc, self.asked, state, next) {
            Ok(made) => {
                self.made = Some(made);
                Ok(())
            }
            Err(refusal) => {
                self.opening.commit = None;
                Err(refusal)
            }
        }
    }

    /// Its next step, on a device, has failed.
    pub(crate) fn fail(&mut self, step: DeviceStep)
        requires { device_step_of (want self.old.task) ≡ Some step }
        ensures asked { self.new.asked ≡ self.old.asked }
        ensures task { self.new.task ≡ after self.old.task Fault }
        ensures geometry { self.new.opening.geometry ≡ self.old.opening.geometry }
        ensures commit { self.new.opening.commit ≡ commit_failed (device_of step) self.old.opening.commit }
        ensures reading { reading_of self.new ≡ reading_failed (device_of step) (reading_of self.old) }
    {
        match step {
            DeviceStep::Sync(Dev::Cache) | DeviceStep::Sync(Dev::Origin) => {}
            _ => self.close(),
        }
        self.task.next(Got::Fault);
    }

    /// The reading is over, and what was made of it is gone.
    fn close(&mut self)
        ensures asked { self.new.asked ≡ self.old.asked }
        ensures task { self.new.task ≡ self.old.task }
        ensures geometry { self.new.opening.geometry ≡ self.old.opening.geometry }
        ensures commit { self.new.opening.commit ≡ None }
        ensures reading { reading_of self.new ≡ None }
    {
        end_reading(&mut self.opening.reading);
        self.opening.commit = None;
        forget(&mut self.made);
    }
}

/// Whether all was read: the root is to be written, or the nodes of a whole image before it.
fn ends_reading(got: Got) -> bool
    ensures { result ≡ ends_reading got }
{
    matches!(got, Got::Done | Got::Began(_))
}

/// What was read is let go.
fn end_reading(reading: &mut Option<ReadSteps<Global>>)
    ensures { reading.new ≡ None }
{
    *reading = None;
}

/// What was made is let go.
fn forget(made: &mut Option<Made>)
    ensures { made.new ≡ None }
{
    *made = None;
}

/// What stands newest in a sector, if one is named that the device has.
pub(crate) fn content_of(disk: &mut MemDisk, coming: Option<u64>) -> Option<Content>
    ensures kept { disk.new ≡ disk.old }
    ensures shown { (place : ℕ) → coming ≡ Some place → slice_get (map newest disk.old.contents) place ≡ result }
{
    let at = coming?;
    if at >= disk.sectors() {
        return None;
    }
    let mut content = [0; SECTOR_BYTES];
    let _ = disk.read(at, &mut content);
    Some(content)
}

/// Syncs a device; this commit goes on where it is the metadata.
fn sync(devices: &mut Devices<MemDisk>, commit: &mut Option<RunningCommit>, device: Dev)
    requires { SyncComes device commit.old devices.old.metadata.contents }
    ensures commit { commit.new ≡ commit_synced device commit.old }
    ensures devices { contents_of devices.new ≡ with_device device (contents_of devices.old) (synced (device_in device (contents_of devices.old))) }
{
    let _ = devices.perform(commit, DeviceStep::Sync(device), &mut []);
}

/// Writes the node or root that comes next of this commit, which goes on. `Memory` where there is none for it: no content has changed.
fn put_next(
    devices: &mut Devices<MemDisk>,
    commit: &mut Option<RunningCommit>,
    step: DeviceStep,
) -> Result<(), Refusal>
    requires puts { IsPut step }
    requires comes { ComesNext commit.old step devices.old.metadata.contents }
    ensures size { length devices.new.metadata.contents ≡ length devices.old.metadata.contents }
    ensures put { OnOk result ((commit.new ≡ led commit.old Done) × WasPut commit.old step devices.old.metadata.contents devices.new.metadata.contents) }
    ensures others { OnOk result (contents_of devices.new ≡ record (contents_of devices.old) { metadata = devices.new.metadata.contents }) }
    ensures err { OnErr result ((contents_of devices.new ≡ contents_of devices.old) × (commit.new ≡ commit.old)) }
    ensures refusal { IfErr result (λ refusal. refusal ≡ Memory) }
{
    make_room(devices, commit, step)?;
    match devices.perform(commit, step, &mut []) {
        Got::Done => Ok(()),
        Got::Fault => Err(Refusal::Memory),
        _ => unreachable!(),
    }
}

/// A step of an opening on a device that fails: a sync, or the write of this commit's node or root, which lands where the choice says so, or
/// one that reads metadata. False, and nothing changes, where it cannot fail so. `Memory` where there is none for it: no content has
/// changed.
pub(crate) fn fail_step(
    alloc: Global,
    devices: &mut Devices<MemDisk>,
    commit: &mut Option<RunningCommit>,
    step: DeviceStep,
    choice: &CrashChoice,
) -> Result<bool, Refusal>
    requires next { device_step_of (Device step) ≡ Some step }
    requires comes { PutComes step commit.old devices.old.metadata.contents }
    ensures may { IfOk result (λ may. IsTrue may ↔ MayFail (device_of step) choice.now (length (device_in (device_of step) (contents_of devices.old)))) }
    ensures failed { IfOk result (λ may. OnTrue may (FailsOn commit.old step choice.now (contents_of devices.old) (contents_of devices.new))) }
    ensures commit { commit.new ≡ commit.old }
    ensures kept { IfOk result (λ may. OnFalse may (devices.new ≡ devices.old)) }
    ensures err { OnErr result (contents_of devices.new ≡ contents_of devices.old) }
    ensures refusal { IfErr result (λ refusal. refusal ≡ Memory) }
{
    let device = device_of(step);
    if !choice.may_fail(device, sectors_of(devices, device)) {
        return Ok(false);
    }
    if let DeviceStep::ReadMetadata(_) = step {
        return Ok(true);
    }
    make_room(devices, commit, step)?;
    falter(alloc, devices, commit, step, Vec::new(alloc), choice)?;
    Ok(true)
}
