//! The steps of a read.

ghost use Rattle.std.specs.Prelude.{◌≡◌, ◌≤◌, length};
ghost use Rattle.wb_tasks.specs.Plan.{Fits};
ghost use Rattle.wb_tasks.specs.declared.step.Want.TheVariants.{Device};
ghost use Rattle.wb_tasks.specs.declared.step.DeviceStep.TheVariants.{Read};
ghost use Rattle.wb_devices.specs.Moving.{IsOutcome};
ghost use Rattle.wb_port.specs.Moves.{MayRead};
ghost use Rattle.wb_port.specs.Hands.{IsReadyToRead, DidReadInto, ReadLed, further};

use crate::hand::Hand;
use crate::moving::ReadStage;
use wb_disk::Disk;
use wb_tasks::{DeviceStep, Got, Stage, Want};
use wb_types::{Content, Dev, Extent};

impl<'a, D: Disk> ReadStage<'a, D> {
    /// Reads an extent by one call, behind what was read before it.
    #[inline(always)]
    fn read(&mut self, device: Dev, extent: Extent) -> Got
        requires held { MayRead self.old.hand.now.mode self.old.hand.now.block_sectors self.old.hand.now.pass.card device extent }
        ensures kind { Fits (Device (Read device extent)) result }
        ensures cells { self.new.cells ≡ self.old.cells }
        ensures hand { self.new.hand.ghost_name ≡ self.old.hand.ghost_name }
        ensures out { self.new.out.ghost_name ≡ self.old.out.ghost_name }
        ensures pass { self.new.hand.now.pass ≡ self.old.hand.now.pass }
        ensures size { self.new.hand.now.block_sectors ≡ self.old.hand.now.block_sectors }
        ensures mode { self.new.hand.now.mode ≡ self.old.hand.now.mode }
        ensures did { DidReadInto D.tells D.size D.contents D.faults device extent result self.old.hand.now.devices self.old.out.now self.old.moved self.new.hand.now.devices self.new.out.now self.new.moved }
    {
        let got = read_behind(self.hand, device, extent, self.out, self.moved);
        if let Got::Done = got {
            self.moved += (extent.count as usize).min(self.out.len() - self.moved);
        }
        got
    }
}

impl<'a, D: Disk> Stage for ReadStage<'a, D> {
    ghost ready = { IsReadyToRead };

    ghost led = { ReadLed D.tells D.size D.contents D.faults };

    #[inline(always)]
    fn perform(&mut self, want: &Want) -> Got {
        match want {
            Want::Cell(step) => Got::from(self.hand.step(self.cells, *step)),
            Want::Device(DeviceStep::Read(device, extent)) => self.read(*device, *extent),
            _ => unreachable!(),
        }
    }
}

/// Reads an extent of a device to a slice, behind the first so many sectors of it, which stay.
fn read_behind<D: Disk>(
    hand: &mut Hand<D>,
    device: Dev,
    extent: Extent,
    out: &mut [Content],
    moved: usize,
) -> Got
    requires within { moved ≤ length out.old }
    requires held { MayRead hand.old.mode hand.old.block_sectors hand.old.pass.card device extent }
    ensures kind { IsOutcome result }
    ensures pass { hand.new.pass ≡ hand.old.pass }
    ensures block { hand.new.block_sectors ≡ hand.old.block_sectors }
    ensures mode { hand.new.mode ≡ hand.old.mode }
    ensures did { DidReadInto D.tells D.size D.contents D.faults device extent result hand.old.devices out.old moved hand.new.devices out.new (further (length out.old) moved extent result) }
{
    let (_, rest) = out.split_at_mut(moved);
    hand.read(device, extent, rest)
}
