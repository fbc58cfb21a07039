//! Whether the two root slots are as formatting and commits leave them.

ghost use Rattle.std.specs.Prelude.{◌≡◌, ◌↔◌, List, None, IsTrue, IfOk, IfErr, OnOk, OnErr, map};
ghost use Rattle.wb_types.specs.declared.refusal.Refusal.TheVariants.{Io};
ghost use Rattle.wb_types.specs.declared.mode.Dev.TheVariants.{Metadata};
ghost use Rattle.wb_disk.specs.Device.{Content as Bytes, OneMore, newest};
ghost use Rattle.wb_meta.specs.Slots.{IsInSlot};
ghost use Rattle.wb_checks.specs.Slots.{AreNeighbours, Holds, MayHideNewer, StandSo};

use crate::held::{Held, read_slot};
use std::fmt;
use std::fmt::{Display, Formatter};
use wb_disk::Disk;
use wb_types::Refusal;

/// How the slots of the roots stand.
#[derive(Clone, Copy, PartialEq, Eq)]
pub enum RootSlots {
    /// As formatting or a commit leaves them: the newest root counts.
    Whole,
    /// This slot, 0 or 1, has no valid root beside one of this generation. What it had may have been newer.
    Lost(u32, u64),
    /// Both have valid roots, of generations of which neither follows the other.
    Apart(u64, u64),
    /// Neither has a valid root.
    Unformatted,
}

/// Reads the two slots of a metadata device, and says how they stand; it writes nothing. Where they are not whole an opening may take an
/// older state for the newest.
///
/// `Io` where the device fails.
pub fn look_at_roots<D: Disk>(metadata: &mut D) -> Result<RootSlots, Refusal>
    ensures size { D.size metadata.new ≡ D.size metadata.old }
    ensures same { D.tells → D.contents metadata.new ≡ D.contents metadata.old }
    ensures told { D.tells → IfOk result (StandSo (map newest (D.contents metadata.old))) }
    ensures refused { IfErr result (λ refusal. refusal ≡ Io Metadata) }
    ensures no_fault { D.tells → OnOk result (D.faults metadata.new ≡ D.faults metadata.old) }
    ensures cause { D.tells → OnErr result (OneMore (D.faults metadata.old) (D.faults metadata.new)) }
{
    let first = read_slot(metadata, 0)?;
    let second = read_slot(metadata, 1)?;
    Ok(stand(first, second))
}

/// How slots that hold these stand.
fn stand(first: Held, second: Held) -> RootSlots
    ensures { (sectors : List Bytes) → Holds sectors 0 first → Holds sectors 1 second → StandSo sectors result }
{
    let Some(b) = second.root else {
        return stand_alone(first, second);
    };
    let Some(a) = first.root else {
        return RootSlots::Lost(0, b.generation);
    };
    if are_neighbours(a.generation, b.generation) {
        RootSlots::Whole
    } else {
        RootSlots::Apart(a.generation, b.generation)
    }
}

/// How they stand where the second has no valid root.
fn stand_alone(first: Held, second: Held) -> RootSlots
    ensures { (sectors : List Bytes) → Holds sectors 0 first → Holds sectors 1 second → IsInSlot sectors 1 None → StandSo sectors result }
{
    let Some(root) = first.root else {
        return RootSlots::Unformatted;
    };
    if root.generation == 0 && second.zeros {
        RootSlots::Whole
    } else {
        RootSlots::Lost(1, root.generation)
    }
}

/// Whether one generation follows the other.
fn are_neighbours(a: u64, b: u64) -> bool
    ensures { IsTrue result ↔ AreNeighbours a b }
{
    a.abs_diff(b) == 1
}

impl RootSlots {
    /// Whether an opening can take an older state for the newest.
    pub fn may_hide_newer(&self) -> bool
        ensures { IsTrue result ↔ MayHideNewer self.now }
    {
        matches!(self, RootSlots::Lost(..) | RootSlots::Apart(..))
    }
}

impl Display for RootSlots {
    fn fmt<W: fmt::Write>(&self, f: &mut Formatter<W>) -> fmt::Result {
        match self {
            RootSlots::Whole => write!(f, "the slots of the roots are as commits leave them"),
            RootSlots::Lost(slot, generation) => write!(
                f,
                "an older state may be opened: slot {slot} holds no valid root beside generation {generation}"
            ),
            RootSlots::Apart(first, second) => write!(
                f,
                "an older state may be opened: slots 0 and 1 hold generations {first} and {second}, of which neither follows the other"
            ),
            RootSlots::Unformatted => write!(f, "neither slot holds a valid root"),
        }
    }
}
