//! Sectors that move between a device and a buffer, and syncs.

ghost use Rattle.std.specs.Prelude.{◌≡◌, ◌≤◌, ◌<◌, ◌+◌, ◌^◌, ◌↔◌, length, take, IsTrue, OnOk, OnErr, IsErr};
ghost use Rattle.wb_disk.specs.Device.{OneMore};
ghost use Rattle.wb_disk.specs.Extents.{Reading, MayLand, GivesEach};
ghost use Rattle.wb_tasks.specs.declared.step.Got.TheVariants.{Fault};
ghost use Rattle.wb_devices.specs.Moving.{IsOutcome, CanMove, DidRead, DidWrite, DidSync, ReadFails, WriteFails, SyncFails};

use wb_disk::{Disk, DiskFault};
use wb_tasks::Got;
use wb_types::{Content, Extent};

/// Reads an extent by one call, to the front of these contents. A fault, and the disk is not asked, where it has not all
/// of these sectors or there is no room for them; else a fault where the disk failed.
pub fn read_extent<D: Disk>(disk: &mut D, extent: Extent, into: &mut [Content]) -> Got
    ensures kind { IsOutcome result }
    ensures many { length into.new ≡ length into.old }
    ensures size { D.size disk.new ≡ D.size disk.old }
    ensures did { D.tells → DidRead extent result (D.size disk.old) (D.contents disk.old) (D.faults disk.old) into.new (D.contents disk.new) (D.faults disk.new) }
    ensures how { D.tells → ReadFails (D.falters disk.old) extent result (D.size disk.old) into.old }
    ensures fails { D.fails disk.old → result ≡ Fault }
{
    if !can_move(disk, extent, into.len()) {
        return Got::Fault;
    }
    if read_front(disk, extent, into).is_err() {
        return Got::Fault;
    }
    Got::Done
}

/// Writes an extent by one call, from the front of these contents. A fault, and the disk is not asked, where it has not all
/// of these sectors or there are too few contents; else a fault where the disk failed.
#[tactic(auto, using(crate::proofs::Landing::none_landed))]
pub fn write_extent<D: Disk>(disk: &mut D, extent: Extent, from: &[Content]) -> Got
    ensures kind { IsOutcome result }
    ensures size { D.size disk.new ≡ D.size disk.old }
    ensures did { D.tells → DidWrite extent result (D.size disk.old) from.now (D.contents disk.old) (D.faults disk.old) (D.contents disk.new) (D.faults disk.new) }
    ensures how { D.tells → WriteFails (D.falters disk.old) extent result (D.size disk.old) from.now (D.contents disk.old) (D.contents disk.new) }
    ensures fails { D.fails disk.old → result ≡ Fault }
{
    if !can_move(disk, extent, from.len()) {
        return Got::Fault;
    }
    let count = extent.count as usize;
    match disk.write_extent(extent.first, &from[..count]) {
        Ok(()) => Got::Done,
        Err(_) => Got::Fault,
    }
}

/// Makes all that was written to a disk durable; a fault where it failed.
pub fn sync<D: Disk>(disk: &mut D) -> Got
    ensures kind { IsOutcome result }
    ensures size { D.size disk.new ≡ D.size disk.old }
    ensures did { D.tells → DidSync result (D.contents disk.old) (D.faults disk.old) (D.contents disk.new) (D.faults disk.new) }
    ensures how { D.tells → SyncFails (D.falters disk.old) result (D.contents disk.old) (D.contents disk.new) }
    ensures fails { D.fails disk.old → result ≡ Fault }
{
    match disk.sync() {
        Ok(()) => Got::Done,
        Err(_) => Got::Fault,
    }
}

/// Whether a disk has all of these sectors, and there is room for so many.
fn can_move<D: Disk>(disk: &D, extent: Extent, room: usize) -> bool
    ensures { IsTrue result ↔ CanMove (D.size disk.now) room extent }
{
    extent.count <= room as u64 && extent.is_within(disk.sectors())
}

/// Reads an extent that the disk has, and for which there is room.
fn read_front<D: Disk>(disk: &mut D, extent: Extent, read: &mut [Content]) -> Result<(), DiskFault>
    requires room { extent.count ≤ length read.old }
    requires inside { extent.first + extent.count ≤ D.size disk.old }
    ensures many { length read.new ≡ length read.old }
    ensures size { D.size disk.new ≡ D.size disk.old }
    ensures given { D.tells → OnOk result (GivesEach (D.contents disk.old) extent.first (take extent.count read.new)) }
    ensures kept { D.tells → D.contents disk.new ≡ D.contents disk.old }
    ensures no_fault { D.tells → OnOk result (D.faults disk.new ≡ D.faults disk.old) }
    ensures cause { D.tells → OnErr result (OneMore (D.faults disk.old) (D.faults disk.new)) }
    ensures how { D.tells → OnErr result (MayLand (D.falters disk.old Reading)) }
    ensures fails { D.fails disk.old → IsErr result }
{
    let (into, _) = read.split_at_mut(extent.count as usize);
    disk.read_extent(extent.first, into)
}
