//! Marking of each sector the content that a crash keeps.

ghost use Rattle.std.specs.Prelude.{◌≡◌, ◌<◌, ◌↔◌, IsTrue, All, length, map};
ghost use Rattle.wb_disk.specs.Crash.{Applies, base_position};
ghost use Rattle.wb_disk.specs.Stored.{histories, capacities, marks, marks_named, HasMark, IsMarked};

use crate::pending::Pending;
use crate::{Base, CrashChoice, NamedContent};
use wb_types::Dev;

/// Marks the chosen content of each sector of the device, and answers whether the choice applies to it. The marks
/// mean nothing where it does not.
pub(crate) fn mark_chosen(sectors: &mut [Pending], device: Dev, choice: &CrashChoice) -> bool
    ensures contents { histories sectors.new ≡ histories sectors.old }
    ensures capacity { capacities sectors.new ≡ capacities sectors.old }
    ensures marked { IsTrue result → IsMarked device choice.now sectors.new }
    ensures applies { IsTrue result ↔ Applies device choice.now (histories sectors.old) }
{
    mark_base(sectors, choice.base());
    mark_named(sectors, device, choice.named()) && are_marks_there(sectors)
}

/// Marks the base's content of each sector.
fn mark_base(sectors: &mut [Pending], base: Base)
    ensures contents { histories sectors.new ≡ histories sectors.old }
    ensures capacity { capacities sectors.new ≡ capacities sectors.old }
    ensures marks { marks sectors.new ≡ map (base_position base) (histories sectors.old) }
{
    for pending in sectors.iter_mut() {
        pending.mark_base(base);
    }
}

/// Marks the contents that are named of this device, in order, and answers whether each is of a sector that is
/// there. Names of other devices are passed over.
fn mark_named(sectors: &mut [Pending], device: Dev, named: &[NamedContent]) -> bool
    ensures contents { histories sectors.new ≡ histories sectors.old }
    ensures capacity { capacities sectors.new ≡ capacities sectors.old }
    ensures inside { IsTrue result ↔ All (λ name. name.device ≡ device → name.sector < length sectors.old) named.now }
    ensures marks { IsTrue result → marks sectors.new ≡ marks_named device named.now (marks sectors.old) }
{
    for name in named {
        if name.is_on(device) {
            let at = name.sector as usize;
            if at >= sectors.len() {
                return false;
            }
            sectors[at].mark_position(name.position);
        }
    }
    true
}

/// Whether each sector has a content at its mark.
fn are_marks_there(sectors: &[Pending]) -> bool
    ensures { IsTrue result ↔ All HasMark sectors.now }
{
    sectors.iter().all(|pending| pending.is_mark_there())
}
