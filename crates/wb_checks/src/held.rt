//! What a slot holds.

ghost use Rattle.std.specs.Prelude.{◌≡◌, ◌↔◌, List, Some, All, IsTrue, IfOk, IfErr, OnOk, OnErr, map, slice_get};
ghost use Rattle.wb_types.specs.declared.refusal.Refusal.TheVariants.{Io};
ghost use Rattle.wb_types.specs.declared.mode.Dev.TheVariants.{Metadata};
ghost use Rattle.wb_disk.specs.Device.{Content as Bytes, OneMore, newest};
ghost use Rattle.wb_meta.specs.Slots.{IsInSlot};
ghost use Rattle.wb_checks.specs.Slots.{Holds};

use wb_disk::Disk;
use wb_format::Root;
use wb_types::{Content, Dev, Refusal, SECTOR_BYTES};

/// What a slot holds: its valid root, if it has one, and whether it has zeros alone.
#[derive(Clone, Copy)]
pub struct Held {
    pub root: Option<Root>,
    pub zeros: bool,
}

/// Reads a slot, 0 or 1. `Io` where the device fails.
pub(crate) fn read_slot<D: Disk>(disk: &mut D, slot: u32) -> Result<Held, Refusal>
    ensures size { D.size disk.new ≡ D.size disk.old }
    ensures same { D.tells → D.contents disk.new ≡ D.contents disk.old }
    ensures holds { D.tells → IfOk result (Holds (map newest (D.contents disk.old)) slot) }
    ensures refused { IfErr result (λ refusal. refusal ≡ Io Metadata) }
    ensures no_fault { D.tells → OnOk result (D.faults disk.new ≡ D.faults disk.old) }
    ensures cause { D.tells → OnErr result (OneMore (D.faults disk.old) (D.faults disk.new)) }
{
    let at = u64::from(slot);
    if at >= disk.sectors() {
        return Ok(Held {
            root: None,
            zeros: false,
        });
    }
    let mut content = [0; SECTOR_BYTES];
    if disk.read(at, &mut content).is_err() {
        return Err(Refusal::Io(Dev::Metadata));
    }
    Ok(held_in(&content, slot))
}

/// What a slot holds that has this sector.
fn held_in(content: &Content, slot: u32) -> Held
    ensures { (sectors : List Bytes) → slice_get sectors slot ≡ Some content.now → Holds sectors slot result }
{
    Held {
        root: root_in(content, slot),
        zeros: are_zeros(content),
    }
}

/// The valid root of a slot that has this sector.
fn root_in(content: &Content, slot: u32) -> Option<Root>
    ensures { (sectors : List Bytes) → slice_get sectors slot ≡ Some content.now → IsInSlot sectors slot result }
{
    let root = Root::read(content)?;
    if root.slot().0 == slot {
        Some(root)
    } else {
        None
    }
}

/// Whether a sector has zeros alone.
pub(crate) fn are_zeros(content: &Content) -> bool
    ensures { IsTrue result ↔ All (λ byte. byte ≡ 0) content.now }
{
    content.iter().all(|byte| *byte == 0)
}
