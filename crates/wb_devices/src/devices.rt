//! The three devices of a cache.

ghost use Rattle.std.specs.Prelude.{◌≡◌, length};
ghost use Rattle.wb_tasks.specs.Plan.{device_of};
ghost use Rattle.wb_tasks.specs.declared.step.Got.TheVariants.{Fault};
ghost use Rattle.wb_devices.specs.Moving.{IsOutcome, DidRead, DidWrite, DidSync, ReadFails, WriteFails, SyncFails, OthersStay, device_in};
ghost use Rattle.wb_devices.specs.Stepping.{CommitGoes, DidStep, BufferStays, StepFails};

use crate::committing::{put, sync_metadata};
use crate::moving::{read_extent, sync, write_extent};
use crate::running::RunningCommit;
use wb_disk::Disk;
use wb_tasks::{DeviceStep, Got};
use wb_types::{Content, Dev, Extent};

/// The three devices of a cache. A step is on one of them, and the others stay as they are.
#[derive(Drop)]
pub struct Devices<D> {
    pub metadata: D,
    pub cache: D,
    pub origin: D,
}

impl<D: Disk> Devices<D> {
    /// Reads an extent of a device to the front of these contents.
    pub fn read(&mut self, device: Dev, extent: Extent, into: &mut [Content]) -> Got
        ensures kind { IsOutcome result }
        ensures many { length into.new ≡ length into.old }
        ensures others { OthersStay device self.old self.new }
        ensures size { D.size (device_in device self.new) ≡ D.size (device_in device self.old) }
        ensures did { D.tells → DidRead extent result (D.size (device_in device self.old)) (D.contents (device_in device self.old)) (D.faults (device_in device self.old)) into.new (D.contents (device_in device self.new)) (D.faults (device_in device self.new)) }
        ensures fails { D.fails (device_in device self.old) → result ≡ Fault }
        ensures how { D.tells → ReadFails (D.falters (device_in device self.old)) extent result (D.size (device_in device self.old)) into.old }
    {
        match device {
            Dev::Metadata => read_extent(&mut self.metadata, extent, into),
            Dev::Cache => read_extent(&mut self.cache, extent, into),
            Dev::Origin => read_extent(&mut self.origin, extent, into),
        }
    }

    /// Writes an extent of a device from the front of these contents.
    pub fn write(&mut self, device: Dev, extent: Extent, from: &[Content]) -> Got
        ensures kind { IsOutcome result }
        ensures others { OthersStay device self.old self.new }
        ensures size { D.size (device_in device self.new) ≡ D.size (device_in device self.old) }
        ensures did { D.tells → DidWrite extent result (D.size (device_in device self.old)) from.now (D.contents (device_in device self.old)) (D.faults (device_in device self.old)) (D.contents (device_in device self.new)) (D.faults (device_in device self.new)) }
        ensures fails { D.fails (device_in device self.old) → result ≡ Fault }
        ensures how { D.tells → WriteFails (D.falters (device_in device self.old)) extent result (D.size (device_in device self.old)) from.now (D.contents (device_in device self.old)) (D.contents (device_in device self.new)) }
    {
        match device {
            Dev::Metadata => write_extent(&mut self.metadata, extent, from),
            Dev::Cache => write_extent(&mut self.cache, extent, from),
            Dev::Origin => write_extent(&mut self.origin, extent, from),
        }
    }

    /// Syncs a device.
    pub fn sync(&mut self, device: Dev) -> Got
        ensures kind { IsOutcome result }
        ensures others { OthersStay device self.old self.new }
        ensures size { D.size (device_in device self.new) ≡ D.size (device_in device self.old) }
        ensures did { D.tells → DidSync result (D.contents (device_in device self.old)) (D.faults (device_in device self.old)) (D.contents (device_in device self.new)) (D.faults (device_in device self.new)) }
        ensures fails { D.fails (device_in device self.old) → result ≡ Fault }
        ensures how { D.tells → SyncFails (D.falters (device_in device self.old)) result (D.contents (device_in device self.old)) (D.contents (device_in device self.new)) }
    {
        match device {
            Dev::Metadata => sync(&mut self.metadata),
            Dev::Cache => sync(&mut self.cache),
            Dev::Origin => sync(&mut self.origin),
        }
    }

    /// Performs a step of a table, by the contents that it moves and the commit that runs; what is read stands in them then. Of metadata it
    /// reads nothing: who opens does.
    pub fn perform(
        &mut self,
        commit: &mut Option<RunningCommit>,
        step: DeviceStep,
        moved: &mut [Content],
    ) -> Got
        ensures kind { IsOutcome result }
        ensures others { OthersStay (device_of step) self.old self.new }
        ensures size { D.size (device_in (device_of step) self.new) ≡ D.size (device_in (device_of step) self.old) }
        ensures buffer { BufferStays step moved.old moved.new }
        ensures did { D.tells → DidStep commit.old step result (D.size (device_in (device_of step) self.old)) (D.contents (device_in (device_of step) self.old)) (D.faults (device_in (device_of step) self.old)) moved.old moved.new (D.contents (device_in (device_of step) self.new)) (D.faults (device_in (device_of step) self.new)) }
        ensures goes { CommitGoes (D.size self.old.metadata) commit.old step result commit.new }
        ensures fails { D.fails (device_in (device_of step) self.old) → result ≡ Fault }
        ensures how { D.tells → StepFails (D.falters (device_in (device_of step) self.old)) commit.old step result (D.size (device_in (device_of step) self.old)) (D.contents (device_in (device_of step) self.old)) moved.old (D.contents (device_in (device_of step) self.new)) }
    {
        match step {
            DeviceStep::Read(device, extent) => self.read(device, extent, moved),
            DeviceStep::Write(device, extent) => self.write(device, extent, moved),
            DeviceStep::Sync(Dev::Metadata) => sync_metadata(commit, &mut self.metadata),
            DeviceStep::Sync(Dev::Cache) => self.sync(Dev::Cache),
            DeviceStep::Sync(Dev::Origin) => self.sync(Dev::Origin),
            DeviceStep::ReadMetadata(_) => Got::Fault,
            DeviceStep::WriteNode(_) | DeviceStep::WriteRoot => {
                put(commit, &mut self.metadata, step)
            }
        }
    }
}
