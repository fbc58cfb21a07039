//! The steps of a write.

ghost use Rattle.std.specs.Prelude.{◌≡◌};
ghost use Rattle.wb_tasks.specs.Plan.{Fits};
ghost use Rattle.wb_tasks.specs.declared.step.Want.TheVariants.{Device};
ghost use Rattle.wb_tasks.specs.declared.step.DeviceStep.TheVariants.{Write};
ghost use Rattle.wb_port.specs.Moves.{MayWrite};
ghost use Rattle.wb_port.specs.Hands.{IsReadyToWrite, DidWriteFrom, WriteLed, begins_at};

use crate::moving::WriteStage;
use wb_disk::Disk;
use wb_tasks::{DeviceStep, Got, Stage, Want};
use wb_types::{Dev, Extent, Mode};

impl<'a, D: Disk> WriteStage<'a, D> {
    /// Writes an extent by one call, from behind what was written before it; in write-through the cache what the origin was written just
    /// before.
    #[inline(always)]
    fn write(&mut self, device: Dev, extent: Extent) -> Got
        requires owned { MayWrite self.old.hand.now.mode self.old.hand.now.block_sectors self.old.hand.now.pass.card device extent }
        ensures kind { Fits (Device (Write device extent)) result }
        ensures cells { self.new.cells ≡ self.old.cells }
        ensures hand { self.new.hand.ghost_name ≡ self.old.hand.ghost_name }
        ensures from { self.new.from ≡ self.old.from }
        ensures pass { self.new.hand.now.pass ≡ self.old.hand.now.pass }
        ensures size { self.new.hand.now.block_sectors ≡ self.old.hand.now.block_sectors }
        ensures mode { self.new.hand.now.mode ≡ self.old.hand.now.mode }
        ensures did { DidWriteFrom D.tells D.size D.contents D.faults device extent result self.old.from.now self.old.hand.now.devices (begins_at self.old.hand.now.mode device extent.count self.old.moved) self.new.hand.now.devices self.new.moved }
    {
        if let (Mode::Writethrough, Dev::Cache) = (self.hand.mode, device) {
            self.moved = self.moved.saturating_sub(extent.count as usize);
        }
        let rest = &self.from[self.moved..];
        let got = self.hand.write(device, extent, rest);
        if let Got::Done = got {
            self.moved += (extent.count as usize).min(rest.len());
        }
        got
    }
}

impl<'a, D: Disk> Stage for WriteStage<'a, D> {
    ghost ready = { IsReadyToWrite };

    ghost led = { WriteLed D.tells D.size D.contents D.faults };

    #[inline(always)]
    fn perform(&mut self, want: &Want) -> Got {
        match want {
            Want::Cell(step) => Got::from(self.hand.step(self.cells, *step)),
            Want::Device(DeviceStep::Write(device, extent)) => self.write(*device, *extent),
            _ => unreachable!(),
        }
    }
}
