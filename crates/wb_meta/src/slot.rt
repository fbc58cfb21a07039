//! The two slots of a root.

ghost use Rattle.std.specs.Prelude.{◌≡◌, ◌⊎◌, ◌<◌, List, Some, map, length, slice_get, OnOk, OnErr, IfOk, IfErr};
ghost use Rattle.wb_types.specs.declared.refusal.Refusal.TheVariants.{Io, NotFormatted, Mismatch};
ghost use Rattle.wb_types.specs.declared.mode.Dev.TheVariants.{Metadata};
ghost use Rattle.wb_disk.specs.Device.{Content as Bytes, OneMore, newest};
ghost use Rattle.wb_disk.specs.Extents.{Reading, MayLand};
ghost use Rattle.wb_tree.specs.Reading.{IsNewestRoot};
ghost use Rattle.wb_meta.specs.Slots.{IsInSlot, IsNewest};
ghost use Rattle.wb_meta.specs.States.{IsRefusedBy};

use wb_disk::Disk;
use wb_format::Root;
use wb_types::{Content, Dev, Refusal, SECTOR_BYTES};

/// The valid root of a slot, where there is one. `Io` where the device fails.
pub(crate) fn read_slot<D: Disk>(disk: &mut D, slot: u32) -> Result<Option<Root>, Refusal>
    ensures size { D.size disk.new ≡ D.size disk.old }
    ensures same { D.tells → D.contents disk.new ≡ D.contents disk.old }
    ensures found { D.tells → IfOk result (IsInSlot (map newest (D.contents disk.old)) slot) }
    ensures how { D.tells → OnErr result (MayLand (D.falters disk.old Reading)) }
    ensures refused { IfErr result (λ refusal. refusal ≡ Io Metadata) }
    ensures no_fault { D.tells → OnOk result (D.faults disk.new ≡ D.faults disk.old) }
    ensures cause { D.tells → OnErr result (OneMore (D.faults disk.old) (D.faults disk.new)) }
{
    let at = u64::from(slot);
    if at >= disk.sectors() {
        return Ok(None);
    }
    let mut content = [0; SECTOR_BYTES];
    if disk.read(at, &mut content).is_err() {
        return Err(Refusal::Io(Dev::Metadata));
    }
    Ok(root_in(&content, slot))
}

/// The valid root of a slot that holds this, where it is one.
fn root_in(content: &Content, slot: u32) -> Option<Root>
    ensures { (sectors : List Bytes) → slice_get sectors slot ≡ Some content.now → IsInSlot sectors slot result }
{
    let root = Root::read(content)?;
    if root.slot().0 == slot {
        Some(root)
    } else {
        None
    }
}

/// The root of higher generation of the two slots' roots, for a device of so many sectors. `NotFormatted` where
/// neither slot has one; `Mismatch` where it is of a device of another size.
pub(crate) fn newest_root(
    first: Option<Root>,
    second: Option<Root>,
    sectors: u64,
) -> Result<Root, Refusal>
    ensures newest { IfOk result (λ root. (contents : List Bytes) → IsInSlot contents 0 first
        → IsInSlot contents 1 second → IsNewestRoot contents root) }
    ensures size { IfOk result (λ root. root.geometry.meta_sectors ≡ sectors) }
    ensures refused { IfErr result (λ refusal. (contents : List Bytes) → length contents ≡ sectors
        → IsInSlot contents 0 first → IsInSlot contents 1 second → IsRefusedBy contents refusal) }
    ensures causes { IfErr result (λ refusal. (refusal ≡ NotFormatted) ⊎ (refusal ≡ Mismatch)) }
{
    let Some(root) = newer(first, second) else {
        return Err(Refusal::NotFormatted);
    };
    if u64::from(root.geometry.meta_sectors) != sectors {
        return Err(Refusal::Mismatch);
    }
    Ok(root)
}

/// The root of higher generation of the two slots' roots.
fn newer(first: Option<Root>, second: Option<Root>) -> Option<Root>
    ensures { (contents : List Bytes) → IsInSlot contents 0 first → IsInSlot contents 1 second
        → IsNewest contents result }
{
    let Some(a) = first else {
        return second;
    };
    let Some(b) = second else {
        return first;
    };
    if a.generation < b.generation {
        second
    } else {
        first
    }
}
