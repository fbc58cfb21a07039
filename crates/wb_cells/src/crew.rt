//! A crew: the words, and one seat that holds a card for each of its actors. Who has the whole knows every
//! word, so each step is exact.

ghost use Rattle.std.specs.Prelude.{◌≡◌, ◌≢◌, ℕ, ◌-◌, ◌^◌, ◌<◌, ◌==◌, true, [], length, replicate, slice_set, slice_index_or, bit_or, Some, IfOk, IfErr, if◌then◌else◌};
ghost use Rattle.wb_types.specs.declared.refusal.Refusal.TheVariants.{Memory};
ghost use Rattle.wb_words.specs.declared.word.Access.TheVariants.{Owned};
ghost use Rattle.wb_words.specs.declared.word.FailBit.TheVariants.{Failed as FailedBit, Suspended as SuspendedBit};
ghost use Rattle.wb_words.specs.declared.card.Hold.TheVariants.{Nothing, Held};
ghost use Rattle.wb_words.specs.SharedWords.{IsWord, fresh_words, value_of, word_at, with_cell, can_take, taken, given_back, seal_word as seal_of, one_more, counted};
ghost use Rattle.wb_words.specs.Cards.{blank_card, looked, losing, holding, sealing, finishing, counting, failing};
ghost use Rattle.wb_words.specs.Effects.{result_of};
ghost use Rattle.wb_words.specs.Ready.{IsReady};
ghost use Rattle.wb_words.specs.Rule.{LockRule};
ghost use Rattle.wb_cells.specs.Crews.{card_of, crew_after};

use crate::table::WordTable;
use crate::view::View;
use atomic_table::Seat;
use std::alloc::Global;
use std::marker::Model;
use wb_types::{CBlock, OBlock, Refusal};
use wb_words::{Access, CellResult, CellStep, FailBit, Kind, Word, seal_word};

/// Contracts see all words, and each actor's card.
pub struct Crew {
    words: WordTable,
    seat: Seat<u64, View>,
}

impl Drop for Crew {
    fn drop(self) {
        let Crew { words, seat } = self;
        drop(words);
        drop(seat);
    }
}

impl Model for Crew {
    ghost use Rattle.std.specs.Prelude.{◌≡◌, []};
    ghost use Rattle.wb_cells.specs.Views.{known_words};
    ghost use Rattle.wb_cells.specs.Crews.{CrewState, IsCrew};

    ghost Value = { CrewState };

    ghost view = { λ c. record { blocks = c.words.blocks; words = known_words c.seat.me.0; cards = c.seat.me.0.cards } };

    ghost invariant = { λ c. (c.seat.table_id ≡ c.words.table.shared.table_id) × IsCrew c.words.blocks c.seat.me.0 × (c.seat.me.1 ≡ []) };
}

impl Crew {
    /// So many blocks whose words are 0, and so many actors that hold nothing; `Memory` where the words
    /// find no room.
    pub fn new(alloc: Global, blocks: u32, actors: usize) -> Result<Crew, Refusal>
        ensures new { IfOk result (λ c. (c.blocks ≡ blocks) × (c.words ≡ fresh_words blocks) × (c.cards ≡ replicate actors blank_card)) }
        ensures refused { IfErr result (λ r. r ≡ Memory) }
    {
        let (words, seat) = WordTable::new(alloc, blocks, actors)?;
        Ok(Crew { words, seat })
    }

    /// One step of an actor, which is ready for it: a look, the exchange that takes a block at the lock word that was
    /// seen, giving a block back, a seal, a finished write, a count, or a bit of the fail word.
    pub fn step(&mut self, actor: usize, step: CellStep) -> CellResult
        requires actor { actor < length self.old.cards }
        requires ready { IsReady self.old.blocks (card_of self.old actor) step }
        ensures result { result ≡ result_of self.old.words step }
        ensures crew { self.new ≡ crew_after self.old actor step }
    {
        match step {
            CellStep::Look(word) => return CellResult::Word(self.look(actor, word)),
            CellStep::Take(access, block, seen) => {
                if !self.take(actor, access, block, seen) {
                    return CellResult::Lost;
                }
            }
            CellStep::Release(access, block) => self.release(actor, access, block),
            CellStep::Seal(block, place, dirty) => self.seal(actor, block, place, dirty),
            CellStep::Finish(block) => self.finish(actor, block),
            CellStep::Count(kind) => self.count(actor, kind),
            CellStep::SetFailed => self.fail(actor),
            CellStep::SetSuspended => self.suspended(actor),
        }
        CellResult::Done
    }

    /// The rule of the words over the actors' cards, which holds between any two steps.
    pub fn rule(&self)
        ensures { LockRule self.now.blocks self.now.words self.now.cards }
    {
        let _ = &self.seat;
    }
}

// Each kind of step.
impl Crew {
    /// One look of an actor at a word.
    fn look(&mut self, actor: usize, word: Word) -> u64
        requires actor { actor < length self.old.cards }
        requires word { IsWord self.old.blocks word }
        ensures found { result ≡ value_of self.old.words word }
        ensures blocks { self.new.blocks ≡ self.old.blocks }
        ensures words { self.new.words ≡ self.old.words }
        ensures cards { self.new.cards ≡ slice_set self.old.cards actor (looked word result (slice_index_or self.old.cards actor blank_card)) }
    {
        self.words.look(&mut self.seat, actor, word)
    }

    /// The exchange by which an actor takes a block, at the lock word that it has seen: whether that word
    /// stood there still.
    fn take(&mut self, actor: usize, access: Access, block: OBlock, seen: u64) -> bool
        requires actor { actor < length self.old.cards }
        requires block { block.0 < self.old.blocks }
        requires idle { (slice_index_or self.old.cards actor blank_card).hold ≡ Nothing }
        requires free { can_take access seen ≡ true }
        ensures won { result ≡ (word_at self.old.words.cells block == seen) }
        ensures blocks { self.new.blocks ≡ self.old.blocks }
        ensures words { self.new.words ≡ (if result then with_cell self.old.words block (taken access seen) else self.old.words) }
        ensures cards { self.new.cards ≡ slice_set self.old.cards actor (if result then holding (Held access block) (slice_index_or self.old.cards actor blank_card) else losing block (word_at self.old.words.cells block) (slice_index_or self.old.cards actor blank_card)) }
    {
        self.words.take(&mut self.seat, actor, access, block, seen) == seen
    }

    /// An actor gives back the block that it holds so.
    fn release(&mut self, actor: usize, access: Access, block: OBlock)
        requires actor { actor < length self.old.cards }
        requires block { block.0 < self.old.blocks }
        requires holds { (slice_index_or self.old.cards actor blank_card).hold ≡ Held access block }
        ensures blocks { self.new.blocks ≡ self.old.blocks }
        ensures words { self.new.words ≡ with_cell self.old.words block (given_back access (word_at self.old.words.cells block)) }
        ensures cards { self.new.cards ≡ slice_set self.old.cards actor (holding Nothing (slice_index_or self.old.cards actor blank_card)) }
    {
        self.words.release(&mut self.seat, actor, access, block);
    }

    /// An owner stores where the block's newest copy stands, none being the origin alone, and whether it is
    /// dirty.
    fn seal(&mut self, actor: usize, block: OBlock, place: Option<CBlock>, dirty: bool)
        requires actor { actor < length self.old.cards }
        requires block { block.0 < self.old.blocks }
        requires owns { (slice_index_or self.old.cards actor blank_card).hold ≡ Held Owned block }
        ensures blocks { self.new.blocks ≡ self.old.blocks }
        ensures words { self.new.words ≡ record self.old.words { seals = slice_set self.old.words.seals block.0 (seal_of place dirty) } }
        ensures cards { self.new.cards ≡ slice_set self.old.cards actor (sealing block (seal_of place dirty) (slice_index_or self.old.cards actor blank_card)) }
    {
        self.words
            .seal(&mut self.seat, actor, block, seal_word(place, dirty));
    }

    /// An owner that knows the block's number has finished a write on it.
    fn finish(&mut self, actor: usize, block: OBlock)
        requires actor { actor < length self.old.cards }
        requires block { block.0 < self.old.blocks }
        requires owns { (slice_index_or self.old.cards actor blank_card).hold ≡ Held Owned block }
        requires room { (n : ℕ) × ((slice_index_or self.old.cards actor blank_card).number ≡ Some n) × (n ≢ 2 ^ 64 - 1) }
        ensures blocks { self.new.blocks ≡ self.old.blocks }
        ensures words { self.new.words ≡ record self.old.words { numbers = slice_set self.old.words.numbers block.0 (one_more (word_at self.old.words.numbers block)) } }
        ensures cards { self.new.cards ≡ slice_set self.old.cards actor (finishing block (slice_index_or self.old.cards actor blank_card)) }
    {
        self.words.finish(&mut self.seat, actor, block);
    }

    /// An actor counts a part of a request.
    fn count(&mut self, actor: usize, kind: Kind)
        requires actor { actor < length self.old.cards }
        ensures blocks { self.new.blocks ≡ self.old.blocks }
        ensures words { self.new.words ≡ counted self.old.words kind }
        ensures cards { self.new.cards ≡ slice_set self.old.cards actor (counting kind (slice_index_or self.old.cards actor blank_card)) }
    {
        self.words.count(&mut self.seat, actor, kind);
    }

    /// An actor tells of a failure. A block that it owns stays owned for good.
    fn fail(&mut self, actor: usize)
        requires actor { actor < length self.old.cards }
        ensures blocks { self.new.blocks ≡ self.old.blocks }
        ensures words { self.new.words ≡ record self.old.words { fail = bit_or self.old.words.fail 1 } }
        ensures cards { self.new.cards ≡ slice_set self.old.cards actor (failing FailedBit (slice_index_or self.old.cards actor blank_card)) }
    {
        self.words.fail(&mut self.seat, actor, FailBit::Failed);
    }

    /// An actor tells of a suspension. A block that it owns stays owned for good.
    fn suspended(&mut self, actor: usize)
        requires actor { actor < length self.old.cards }
        ensures blocks { self.new.blocks ≡ self.old.blocks }
        ensures words { self.new.words ≡ record self.old.words { fail = bit_or self.old.words.fail 2 } }
        ensures cards { self.new.cards ≡ slice_set self.old.cards actor (failing SuspendedBit (slice_index_or self.old.cards actor blank_card)) }
    {
        self.words.fail(&mut self.seat, actor, FailBit::Suspended);
    }
}
