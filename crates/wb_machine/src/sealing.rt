//! Seals of the blocks that were mapped at an opening.

ghost use Rattle.std.specs.Prelude.{◌≡◌, ◌<◌, cond, length, true};
ghost use Rattle.wb_tree.specs.Mapping.{IsMapping};
ghost use Rattle.wb_words.specs.declared.card.Hold.TheVariants.{Nothing};
ghost use Rattle.wb_words.specs.SharedWords.{word_at};
ghost use Rattle.wb_cells.specs.Crews.{card_of};
ghost use Rattle.wb_promise.specs.Effects.{seals_of};
ghost use Rattle.wb_machine.specs.Making.{AllFree, block_seals, crew_by};

use crate::known_crew::KnownCrew;
use std::alloc::Global;
use wb_devices::stored_entry;
use wb_meta::State;
use wb_types::{CBlock, Entry, OBlock};
use wb_words::{Access, CellStep};

/// An actor that holds nothing seals each mapped block at its place: dirty as its entry says, with the bit that was read of it, and each
/// without the clean flag.
pub(crate) fn seal_all(crew: &mut KnownCrew, actor: usize, state: &State<Global>)
    requires there { actor < length crew.old.cards }
    requires idle { (card_of crew.old actor).hold ≡ Nothing }
    requires blocks { crew.old.blocks ≡ state.now.root.geometry.origin_blocks }
    requires free { AllFree crew.old }
    requires mapping { IsMapping state.now.root.geometry.cache_blocks state.now.root.geometry.origin_blocks state.now.tree.entries }
    ensures { crew.new ≡ crew_by crew.old actor (seals_of state.now) }
{
    for c in 0..state.root.geometry.cache_blocks {
        if let Some(entry) = stored_entry(state, CBlock(c)) {
            let dirty = counts_as_dirty(state.root.clean, entry);
            seal(crew, actor, entry.origin, CBlock(c), dirty);
        }
    }
}

/// Whether the block of an entry counts as dirty, where the metadata were clean or were not.
fn counts_as_dirty(clean: bool, entry: Entry) -> bool
    ensures { result ≡ cond clean entry.dirty true }
{
    if clean { entry.dirty } else { true }
}

/// An actor that holds nothing takes a block that nobody has, seals it, and gives it back.
fn seal(crew: &mut KnownCrew, actor: usize, block: OBlock, place: CBlock, dirty: bool)
    requires there { actor < length crew.old.cards }
    requires idle { (card_of crew.old actor).hold ≡ Nothing }
    requires block { block.0 < crew.old.blocks }
    requires free { word_at crew.old.words.cells block ≡ 0 }
    ensures crew { crew.new ≡ crew_by crew.old actor (block_seals block place dirty) }
    ensures idle { (card_of crew.new actor).hold ≡ Nothing }
{
    let _ = crew.step(actor, CellStep::Take(Access::Owned, block, 0));
    let _ = crew.step(actor, CellStep::Seal(block, Some(place), dirty));
    let _ = crew.step(actor, CellStep::Release(Access::Owned, block));
}
