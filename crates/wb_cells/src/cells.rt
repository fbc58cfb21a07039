//! The shared words as their users see them: each call makes its steps by a pass.

ghost use Rattle.std.specs.Prelude.{◌≡◌, ℕ, ◌+◌, ◌-◌, ◌^◌, ◌<◌, ◌==◌, [], ◌∷◌, ◌++◌, true, Some, if◌then◌else◌, IfOk, IfErr};
ghost use Rattle.wb_types.specs.declared.refusal.Refusal.TheVariants.{Memory};
ghost use Rattle.wb_words.specs.declared.word.Access.TheVariants.{Shared, Owned};
ghost use Rattle.wb_words.specs.declared.word.Kind.{Kind as KindName};
ghost use Rattle.wb_words.specs.declared.word.Word.TheVariants.{Fail as FailWord};
ghost use Rattle.wb_words.specs.declared.word.FailBit.TheVariants.{Failed as FailedBit, Suspended as SuspendedBit};
ghost use Rattle.wb_words.specs.SharedWords.{can_take, seal_word as seal_of, value_of, word_at, HasBits};
ghost use Rattle.wb_words.specs.Moments.{Moment};
ghost use Rattle.wb_words.specs.declared.card.Hold.TheVariants.{Nothing, Held};
ghost use Rattle.wb_words.specs.SharedWords.{IsWord};
ghost use Rattle.wb_words.specs.Cards.{blank_card, looked, losing, holding, sealing, finishing, counting, failing, merged, counts_of, writes_on};
ghost use Rattle.wb_cells.specs.Fractions.{IsWhole, the_whole, half, together};
ghost use Rattle.wb_words.specs.Looks.{Finds};
ghost use Rattle.wb_cells.specs.Passes.{IsSum, Excludes};

use crate::pass::Pass;
use crate::table::WordTable;
use crate::view::View;
use atomic_table::{Join, Split};
use std::alloc::Global;
use std::marker::Model;
use wb_types::{CBlock, OBlock, Refusal};
use wb_words::{Access, FailBit, Kind, Own, Share, Word, seal_word};

/// How a seat's view is cut in two.
pub(crate) struct Halving;

impl Split<View> for Halving {
    ghost use Rattle.wb_cells.specs.Views.{cut_left, cut_right};

    ghost left = { cut_left };

    ghost right = { cut_right };
}

/// How two seats' views become one.
pub(crate) struct Merging;

impl Join<View> for Merging {
    ghost use Rattle.wb_cells.specs.Views.{joined, spent};

    ghost both = { joined };

    ghost spent = { spent };
}

/// How one seat sits for two.
pub(crate) struct Seating;

impl Join<View> for Seating {
    ghost use Rattle.wb_cells.specs.Views.{seated, spent};

    ghost both = { seated };

    ghost spent = { spent };
}

/// How the two stand up again.
pub(crate) struct Parting;

impl Split<View> for Parting {
    ghost use Rattle.wb_cells.specs.Views.{side_view};

    ghost left = { side_view 0 };

    ghost right = { side_view 1 };
}

/// The words that all threads share. Contracts see which words they are, and of how many blocks.
pub struct Cells {
    pub(crate) words: WordTable,
}

impl Drop for Cells {
    fn drop(self) {
        let Cells { words } = self;
        drop(words);
    }
}

impl Model for Cells {
    ghost use Rattle.wb_cells.specs.Passes.{CellsState};

    ghost Value = { CellsState };

    ghost view = { λ c. record { table = c.words.table.shared.table_id; blocks = c.words.blocks } };
}

impl Cells {
    /// The words of so many origin blocks, all 0, and a pass that has the whole of them; `Memory` where
    /// they find no room.
    pub fn new(alloc: Global, origin_blocks: u32) -> Result<(Cells, Pass), Refusal>
        ensures cells { IfOk result (λ r. r.0.blocks ≡ origin_blocks) }
        ensures pass { IfOk result (λ r. r.1 ≡ record { table = r.0.table; fraction = the_whole; card = blank_card; failed = [] }) }
        ensures refused { IfErr result (λ r. r ≡ Memory) }
    {
        let (words, seat) = WordTable::new(alloc, origin_blocks, 1)?;
        Ok((Cells { words }, Pass { seat }))
    }

    /// Two passes of one that holds nothing, each with half its part. Each can be split again, any number
    /// of times; no memory is taken.
    pub fn split(&self, pass: Pass) -> (Pass, Pass)
        requires at { pass.table ≡ self.now.table }
        requires idle { pass.card.hold ≡ Nothing }
        ensures first { result.0 ≡ record pass { fraction = half pass.fraction } }
        ensures second { result.1 ≡ record { table = pass.table; fraction = half pass.fraction; card = blank_card; failed = pass.failed } }
    {
        let Pass { mut seat } = pass;
        let other = self.words.table.shared.split_seat::<Halving>(&mut seat);
        (Pass { seat }, Pass { seat: other })
    }

    /// One pass of two that hold nothing: it has both their parts, and what both have done is on its card.
    pub fn join(&self, pass: Pass, other: Pass) -> Pass
        requires at { (pass.table ≡ self.now.table) × (other.table ≡ self.now.table) }
        requires idle { (pass.card.hold ≡ Nothing) × (other.card.hold ≡ Nothing) }
        ensures pass { result ≡ record { table = pass.table; fraction = together pass.fraction other.fraction; card = merged pass.card other.card; failed = pass.failed ++ other.failed } }
        ensures counts { (kind : KindName) → counts_of kind result.card ≡ counts_of kind pass.card + counts_of kind other.card }
        ensures writes { (b : ℕ) → writes_on b result.card ≡ writes_on b pass.card + writes_on b other.card }
    {
        let Pass { mut seat } = pass;
        let Pass { seat: other } = other;
        self.words
            .table
            .shared
            .join_seat::<Merging>(&mut seat, other);
        Pass { seat }
    }

    /// Gives two passes back as they are, whatever they hold, and tells that they exclude each other: what one owns, or
    /// kept at a failure, the other neither owns, nor kept, nor shares. So who has two passes of the same cells need
    /// not fear that both own a block, or that one shares what the other owns.
    pub fn apart(&self, pass: Pass, other: Pass) -> (Pass, Pass)
        requires at { (pass.table ≡ self.now.table) × (other.table ≡ self.now.table) }
        ensures first { result.0 ≡ pass }
        ensures second { result.1 ≡ other }
        ensures apart { Excludes self.now.blocks pass.card other.card × Excludes self.now.blocks other.card pass.card }
    {
        let Pass { mut seat } = pass;
        let Pass { seat: other } = other;
        let shared = &self.words.table.shared;
        shared.join_seat::<Seating>(&mut seat, other);
        self.words.tell_apart(&mut seat);
        let second = shared.split_seat::<Parting>(&mut seat);
        (Pass { seat }, Pass { seat: second })
    }

    /// One look at a word, which it notes: the word of a moment at which the rule of all words held. At the fail word
    /// it finds each bit that it, or a pass that it came from, has set.
    ///
    /// Who has the whole finds at a lock word what its card has of that block, at a statistics word what it counted, at
    /// a number word the writes that it finished, at the fail word just the bits that it set, and at a seal word 0 where
    /// it never sealed that block, else the newest seal on it in one of its logs.
    pub fn look(&self, pass: &mut Pass, word: Word) -> u64
        requires at { pass.old.table ≡ self.now.table }
        requires word { IsWord self.now.blocks word }
        ensures pass { pass.new ≡ record pass.old { card = looked word result pass.old.card } }
        ensures known { Finds word result pass.old.card }
        ensures failed { word ≡ FailWord → HasBits result pass.old.failed }
        ensures found { (at : Moment self.now.blocks (IsWhole pass.old.fraction) pass.old.card) × (result ≡ value_of at.words word) }
        ensures sums { IsWhole pass.old.fraction → IsSum word result pass.old.card }
    {
        self.words.look(&mut pass.seat, 0, word)
    }

    // The exchange that takes a block, at the lock word that was seen, and what it found.
    pub(crate) fn exchange(&self, pass: &mut Pass, access: Access, block: OBlock, seen: u64) -> u64
        requires at { pass.old.table ≡ self.now.table }
        requires block { block.0 < self.now.blocks }
        requires idle { pass.old.card.hold ≡ Nothing }
        requires free { can_take access seen ≡ true }
        ensures pass { pass.new ≡ record pass.old { card = (if result == seen then holding (Held access block) pass.old.card else losing block result pass.old.card) } }
        ensures found { (at : Moment self.now.blocks (IsWhole pass.old.fraction) pass.old.card) × (result ≡ word_at at.words.cells block) }
    {
        self.words.take(&mut pass.seat, 0, access, block, seen)
    }

    /// Gives back a block that the pass shares.
    pub fn leave(&self, pass: &mut Pass, share: Share)
        requires at { pass.old.table ≡ self.now.table }
        requires block { share.block.0 < self.now.blocks }
        requires shares { pass.old.card.hold ≡ Held Shared share.block }
        ensures { pass.new ≡ record pass.old { card = holding Nothing pass.old.card } }
    {
        self.words
            .release(&mut pass.seat, 0, Access::Shared, share.block);
    }

    /// Gives back a block that the pass owns.
    pub fn disown(&self, pass: &mut Pass, own: Own)
        requires at { pass.old.table ≡ self.now.table }
        requires block { own.block.0 < self.now.blocks }
        requires owns { pass.old.card.hold ≡ Held Owned own.block }
        ensures { pass.new ≡ record pass.old { card = holding Nothing pass.old.card } }
    {
        self.words
            .release(&mut pass.seat, 0, Access::Owned, own.block);
    }

    /// Stores where an owned block's newest copy stands, none being the origin alone, and whether it is
    /// dirty.
    pub fn seal(&self, pass: &mut Pass, own: &mut Own, place: Option<CBlock>, dirty: bool)
        requires at { pass.old.table ≡ self.now.table }
        requires block { own.old.block.0 < self.now.blocks }
        requires owns { pass.old.card.hold ≡ Held Owned own.old.block }
        ensures own { own.new ≡ record own.old { place = place; dirty = dirty } }
        ensures pass { pass.new ≡ record pass.old { card = sealing own.old.block (seal_of place dirty) pass.old.card } }
    {
        let seal = seal_word(place, dirty);
        self.words.seal(&mut pass.seat, 0, own.block, seal);
        own.place = place;
        own.dirty = dirty;
    }

    /// Tells that a write has finished on an owned block: its number rises by one.
    pub fn finish_write(&self, pass: &mut Pass, own: &mut Own)
        requires at { pass.old.table ≡ self.now.table }
        requires block { own.old.block.0 < self.now.blocks }
        requires owns { (pass.old.card.hold ≡ Held Owned own.old.block) × (pass.old.card.number ≡ Some own.old.number) }
        requires room { own.old.number < 2 ^ 64 - 1 }
        ensures own { own.new ≡ record own.old { number = own.old.number + 1 } }
        ensures pass { pass.new ≡ record pass.old { card = finishing own.old.block pass.old.card } }
    {
        self.words.finish(&mut pass.seat, 0, own.block);
        own.number += 1;
    }

    /// Counts a part of a request, modulo 2^64.
    pub fn count(&self, pass: &mut Pass, kind: Kind)
        requires { pass.old.table ≡ self.now.table }
        ensures { pass.new ≡ record pass.old { card = counting kind pass.old.card } }
    {
        self.words.count(&mut pass.seat, 0, kind);
    }

    /// Tells of a failure, by the failed bit alone: from now on this pass, and each that is split from it or joined with
    /// it, is refused every block. A block that the pass owns stays owned for good.
    pub fn fail(&self, pass: &mut Pass)
        requires { pass.old.table ≡ self.now.table }
        ensures { pass.new ≡ record pass.old { card = failing FailedBit pass.old.card; failed = FailedBit ∷ pass.old.failed } }
    {
        self.words.fail(&mut pass.seat, 0, FailBit::Failed);
    }

    /// Tells of a suspension, by the suspended bit alone, and refuses blocks as a failure does. A block that the pass
    /// owns stays owned for good.
    pub fn suspended(&self, pass: &mut Pass)
        requires { pass.old.table ≡ self.now.table }
        ensures { pass.new ≡ record pass.old { card = failing SuspendedBit pass.old.card; failed = SuspendedBit ∷ pass.old.failed } }
    {
        self.words.fail(&mut pass.seat, 0, FailBit::Suspended);
    }
}
