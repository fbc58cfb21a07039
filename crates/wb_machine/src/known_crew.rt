//! A crew whose seals are known without a look.

ghost use Rattle.std.specs.Prelude.{◌≡◌, ◌<◌, length, replicate, IfOk, IfErr};
ghost use Rattle.wb_types.specs.declared.refusal.Refusal.TheVariants.{Memory};
ghost use Rattle.wb_words.specs.SharedWords.{Words, dirty_in, fresh_words, word_at};
ghost use Rattle.wb_words.specs.Cards.{blank_card};
ghost use Rattle.wb_words.specs.Effects.{result_of, words_after};
ghost use Rattle.wb_words.specs.Ready.{IsReady};
ghost use Rattle.wb_cells.specs.Crews.{card_of, crew_after};

use std::alloc::Global;
use std::marker::Model;
use wb_cells::Crew;
use wb_types::{OBlock, Refusal};
use wb_words::{CellResult, CellStep, is_dirty, seal_word};

/// A crew, and its seals as they were stored last. Contracts see the crew alone: a look at a word of it is a step of an actor, and
/// leaves its mark on that one's card, which a question of the machine may not.
pub struct KnownCrew {
    crew: Crew,
    seals: Vec<u64>,
}

impl Drop for KnownCrew {
    fn drop(self) {
        let KnownCrew { crew, seals } = self;
        drop(crew);
        drop(seals);
    }
}

impl Model for KnownCrew {
    ghost use Rattle.std.specs.Prelude.{◌≡◌};
    ghost use Rattle.wb_cells.specs.Crews.{CrewState};

    ghost Value = { CrewState };

    ghost view = { λ c. c.crew };

    ghost invariant = { λ c. c.seals.items ≡ c.crew.words.seals };
}

impl KnownCrew {
    /// So many blocks whose words are 0, and so many actors that hold nothing. `Memory` where there is none for them.
    pub(crate) fn new(alloc: Global, blocks: u32, actors: usize) -> Result<KnownCrew, Refusal>
        ensures new { IfOk result (λ c. (c.blocks ≡ blocks) × (c.words ≡ fresh_words blocks) × (c.cards ≡ replicate actors blank_card)) }
        ensures refused { IfErr result (λ refusal. refusal ≡ Memory) }
    {
        let seals = vec![in alloc; 0u64; blocks as usize]?;
        let crew = Crew::new(alloc, blocks, actors)?;
        Ok(KnownCrew { crew, seals })
    }

    /// One step of an actor, which is ready for it.
    pub(crate) fn step(&mut self, actor: usize, step: CellStep) -> CellResult
        requires actor { actor < length self.old.cards }
        requires ready { IsReady self.old.blocks (card_of self.old actor) step }
        ensures result { result ≡ result_of self.old.words step }
        ensures crew { self.new ≡ crew_after self.old actor step }
    {
        store(&mut self.seals, step);
        self.crew.step(actor, step)
    }

    /// Whether the seal of a block says that its copy on the cache is dirty.
    pub(crate) fn is_dirty(&self, block: OBlock) -> bool
        ensures { result ≡ dirty_in (word_at self.now.words.seals block) }
    {
        match self.seals.get(block.0 as usize) {
            Some(seal) => is_dirty(*seal),
            None => false,
        }
    }
}

/// The seals after a step.
fn store(seals: &mut Vec<u64>, step: CellStep)
    ensures { (words : Words) → words.seals ≡ seals.old.items → seals.new.items ≡ (words_after words step).seals }
{
    if let CellStep::Seal(block, place, dirty) = step {
        if let Some(seal) = seals.get_mut(block.0 as usize) {
            *seal = seal_word(place, dirty);
        }
    }
}
