//! The table of words, and each kind of step that an actor makes on it.

ghost use Rattle.std.specs.Prelude.{◌≡◌, ◌≢◌, ℕ, ◌+◌, ◌-◌, ◌*◌, ◌%◌, ◌^◌, ◌<◌, ◌==◌, true, [], ◌∷◌, length, bit_or, Some, IfOk, if◌then◌else◌};
ghost use prog.Atomic.{either};
ghost use mathlib.Core.Option.{none};
ghost use Rattle.atomic_table.specs.Table.{Allows, step};
ghost use Rattle.wb_words.specs.declared.word.Access.TheVariants.{Owned};
ghost use Rattle.wb_words.specs.declared.word.Word.TheVariants.{Cell as LockWord, Seal as SealWord, Number, Count as CountWord, Fail};
ghost use Rattle.wb_words.specs.SharedWords.{word_at, value_of, with_cell, can_take, taken, given_back, one_more, counted};
ghost use Rattle.wb_words.specs.declared.card.Hold.TheVariants.{Nothing, Held};
ghost use Rattle.wb_words.specs.SharedWords.{IsWord, HasBits, put, bit_word};
ghost use Rattle.wb_cells.specs.Flat.{index_of};
ghost use Rattle.wb_words.specs.Cards.{looked, losing, holding, sealing, finishing, counting, failing};
ghost use Rattle.wb_cells.specs.Views.{Ruled, first_view};
ghost use Rattle.wb_words.specs.Looks.{Finds};
ghost use Rattle.wb_cells.specs.Moves.{SeatMoves, card_at};
ghost use Rattle.wb_cells.specs.Passes.{Excludes};

use crate::view::{Sizes, View};
use atomic_table::{Play, Seat, Table, TableRule};
use std::alloc::{AllocError, Global};
use std::marker::Brand;
use wb_types::OBlock;
use wb_words::{Access, FailBit, Kind, Word};

/// The rule of the words.
pub(crate) struct WordRule;

impl TableRule<u64, View, Sizes> for WordRule {
    ghost use Rattle.wb_cells.specs.Views.{Ruled, first_view};

    ghost holds = { λ sizes. Ruled sizes.blocks };

    ghost first = { λ sizes. first_view sizes.blocks sizes.actors };
}

// Each call says for itself what its step tells.
impl Play<u64, View> for Brand {
    ghost then = { λ _ _ _ _. Unit {0} };
}

/// All words of so many blocks.
#[derive(Drop)]
pub(crate) struct WordTable {
    pub(crate) table: Table<u64, View, Sizes, WordRule, Global>,
    pub(crate) blocks: u32,
    ghost sized: { (table.shared.table_id.words ≡ 3 * blocks + 5) × (table.shared.key.blocks ≡ blocks) },
}

/// Where a word lies.
fn index(word: Word) -> usize
    ensures { result ≡ index_of word }
{
    let at = match word {
        Word::Fail => 0,
        Word::Count(Kind::ReadHit) => 1,
        Word::Count(Kind::ReadMiss) => 2,
        Word::Count(Kind::WriteHit) => 3,
        Word::Count(Kind::WriteMiss) => 4,
        Word::Cell(OBlock(block)) => 3 * u64::from(block) + 5,
        Word::Seal(OBlock(block)) => 3 * u64::from(block) + 6,
        Word::Number(OBlock(block)) => 3 * u64::from(block) + 7,
    };
    at as usize
}

/// What a sharer or an owner adds to a lock word.
fn weight(access: Access) -> u64
    ensures { result ≡ taken access 0 }
{
    match access {
        Access::Shared => 2,
        Access::Owned => 1,
    }
}

/// What a bit of the fail word is worth.
fn value(bit: FailBit) -> u64
    ensures { result ≡ bit_word bit }
{
    match bit {
        FailBit::Failed => 1,
        FailBit::Suspended => 2,
    }
}

impl WordTable {
    /// Words that are all 0, and a seat that has the whole, with a card for each actor.
    pub(crate) fn new(
        alloc: Global,
        blocks: u32,
        actors: usize,
    ) -> Result<(WordTable, Seat<u64, View>), AllocError>
        ensures { IfOk result (λ r. (r.0.blocks ≡ blocks) × (r.1.table_id ≡ r.0.table.shared.table_id) × (r.1.me ≡ (first_view blocks actors, []))) }
    {
        let words = vec![in alloc; 0u64; (3 * u64::from(blocks) + 5) as usize]?;
        let (table, seat) = Table::of_words(alloc, words.as_slice(), &Sizes { blocks, actors })?;
        Ok((WordTable { table, blocks }, seat))
    }

    /// One look at a word.
    pub(crate) fn look(&self, seat: &mut Seat<u64, View>, actor: usize, word: Word) -> u64
        requires at { seat.old.table_id ≡ self.now.table.shared.table_id }
        requires actor { actor < length seat.old.me.0.cards }
        requires word { IsWord self.now.blocks word }
        ensures at { (seat.new.table_id ≡ seat.old.table_id) × (seat.new.id ≡ seat.old.id) }
        ensures step { SeatMoves [] actor (λ c d. (d ≡ looked word result c) × Finds word result c × (word ≡ Fail → HasBits result seat.old.me.0.fail)) (λ was now. (result ≡ value_of was word) × (now ≡ was)) seat.old.me seat.new.me }
    {
        self.load::<Brand>(seat, actor, word)
    }

    /// A look by a seat that sits for two, which tells that their cards exclude each other.
    pub(crate) fn tell_apart(&self, seat: &mut Seat<u64, View>)
        requires at { seat.old.table_id ≡ self.now.table.shared.table_id }
        requires two { seat.old.me.0.cards ≡ card_at 0 seat.old.me.0 ∷ card_at 1 seat.old.me.0 ∷ [] }
        requires sized { seat.old.me.0.blocks ≡ self.now.blocks }
        ensures at { (seat.new.table_id ≡ seat.old.table_id) × (seat.new.id ≡ seat.old.id) × (seat.new.me ≡ seat.old.me) }
        ensures apart { Excludes self.now.blocks (card_at 0 seat.old.me.0) (card_at 1 seat.old.me.0) × Excludes self.now.blocks (card_at 1 seat.old.me.0) (card_at 0 seat.old.me.0) }
    {
        self.load::<Brand>(seat, 0, Word::Fail);
    }

    /// The exchange that takes a block, at the lock word that was seen, and what it found.
    pub(crate) fn take(
        &self,
        seat: &mut Seat<u64, View>,
        actor: usize,
        access: Access,
        block: OBlock,
        seen: u64,
    ) -> u64
        requires at { seat.old.table_id ≡ self.now.table.shared.table_id }
        requires actor { actor < length seat.old.me.0.cards }
        requires block { block.0 < self.now.blocks }
        requires idle { (card_at actor seat.old.me.0).hold ≡ Nothing }
        requires free { can_take access seen ≡ true }
        ensures at { (seat.new.table_id ≡ seat.old.table_id) × (seat.new.id ≡ seat.old.id) }
        ensures step { SeatMoves [] actor (λ c d. d ≡ (if result == seen then holding (Held access block) c else losing block result c)) (λ was now. (result ≡ word_at was.cells block) × (now ≡ (if result == seen then with_cell was block (taken access seen) else was))) seat.old.me seat.new.me }
    {
        self.exchange::<Brand>(seat, actor, access, block, seen, seen + weight(access))
    }

    /// A block is given back.
    pub(crate) fn release(
        &self,
        seat: &mut Seat<u64, View>,
        actor: usize,
        access: Access,
        block: OBlock,
    )
        requires at { seat.old.table_id ≡ self.now.table.shared.table_id }
        requires actor { actor < length seat.old.me.0.cards }
        requires block { block.0 < self.now.blocks }
        requires holds { (card_at actor seat.old.me.0).hold ≡ Held access block }
        ensures at { (seat.new.table_id ≡ seat.old.table_id) × (seat.new.id ≡ seat.old.id) }
        ensures step { SeatMoves [] actor (λ c d. d ≡ holding Nothing c) (λ was now. now ≡ with_cell was block (given_back access (word_at was.cells block))) seat.old.me seat.new.me }
    {
        self.subtract::<Brand>(seat, actor, access, block, weight(access));
    }

    /// The owner stores the seal.
    pub(crate) fn seal(&self, seat: &mut Seat<u64, View>, actor: usize, block: OBlock, seal: u64)
        requires at { seat.old.table_id ≡ self.now.table.shared.table_id }
        requires actor { actor < length seat.old.me.0.cards }
        requires block { block.0 < self.now.blocks }
        requires owns { (card_at actor seat.old.me.0).hold ≡ Held Owned block }
        ensures at { (seat.new.table_id ≡ seat.old.table_id) × (seat.new.id ≡ seat.old.id) }
        ensures step { SeatMoves [] actor (λ c d. d ≡ sealing block seal c) (λ was now. now ≡ put was (SealWord block) seal) seat.old.me seat.new.me }
    {
        self.store::<Brand>(seat, actor, block, seal);
    }

    /// The owner's number of writes rises by one.
    pub(crate) fn finish(&self, seat: &mut Seat<u64, View>, actor: usize, block: OBlock)
        requires at { seat.old.table_id ≡ self.now.table.shared.table_id }
        requires actor { actor < length seat.old.me.0.cards }
        requires block { block.0 < self.now.blocks }
        requires owns { (card_at actor seat.old.me.0).hold ≡ Held Owned block }
        requires room { (n : ℕ) × ((card_at actor seat.old.me.0).number ≡ Some n) × (n ≢ 2 ^ 64 - 1) }
        ensures at { (seat.new.table_id ≡ seat.old.table_id) × (seat.new.id ≡ seat.old.id) }
        ensures step { SeatMoves [] actor (λ c d. d ≡ finishing block c) (λ was now. now ≡ put was (Number block) (one_more (word_at was.numbers block))) seat.old.me seat.new.me }
    {
        self.add_write::<Brand>(seat, actor, block);
    }

    /// One more on a statistics word.
    pub(crate) fn count(&self, seat: &mut Seat<u64, View>, actor: usize, kind: Kind)
        requires at { seat.old.table_id ≡ self.now.table.shared.table_id }
        requires actor { actor < length seat.old.me.0.cards }
        ensures at { (seat.new.table_id ≡ seat.old.table_id) × (seat.new.id ≡ seat.old.id) }
        ensures step { SeatMoves [] actor (λ c d. d ≡ counting kind c) (λ was now. now ≡ counted was kind) seat.old.me seat.new.me }
    {
        self.add_count::<Brand>(seat, actor, kind);
    }

    /// Sets a bit of the fail word. Who owns a block keeps it.
    pub(crate) fn fail(&self, seat: &mut Seat<u64, View>, actor: usize, bit: FailBit)
        requires at { seat.old.table_id ≡ self.now.table.shared.table_id }
        requires actor { actor < length seat.old.me.0.cards }
        ensures at { (seat.new.table_id ≡ seat.old.table_id) × (seat.new.id ≡ seat.old.id) }
        ensures step { SeatMoves (bit ∷ []) actor (λ c d. d ≡ failing bit c) (λ was now. now ≡ put was Fail (bit_or was.fail (bit_word bit))) seat.old.me seat.new.me }
    {
        self.set_bit::<Brand>(seat, actor, bit, value(bit));
    }

    // What is passed on beside the operands is for the proof alone: what a step tells may name the
    // arguments of its call.

    fn load<M: Play<u64, View>>(&self, seat: &mut Seat<u64, View>, _actor: usize, word: Word) -> u64
        requires at { seat.old.table_id ≡ self.now.table.shared.table_id }
        requires word { IsWord self.now.blocks word }
        requires rule { Allows (Ruled self.now.blocks) self.now.table.shared.table_id.slots seat.old.id seat.old.me (index_of word) (λ n. n) (M.then (step self.now.table.shared.table_id.slots (index_of word) 0 0 none) seat.old.me) }
        ensures { (seat.new.table_id ≡ seat.old.table_id) × (seat.new.id ≡ seat.old.id) × M.then (step self.now.table.shared.table_id.slots (index_of word) 0 0 none) seat.old.me result seat.new.me }
    {
        self.table.shared.load::<M>(seat, index(word))
    }

    fn exchange<M: Play<u64, View>>(
        &self,
        seat: &mut Seat<u64, View>,
        _actor: usize,
        _access: Access,
        block: OBlock,
        old: u64,
        new: u64,
    ) -> u64
        requires at { (seat.old.table_id ≡ self.now.table.shared.table_id) × (block.0 < self.now.blocks) }
        requires rule { Allows (Ruled self.now.blocks) self.now.table.shared.table_id.slots seat.old.id seat.old.me (index_of (LockWord block)) (λ n. either (n == old) new n) (M.then (step self.now.table.shared.table_id.slots (index_of (LockWord block)) old new none) seat.old.me) }
        ensures { (seat.new.table_id ≡ seat.old.table_id) × (seat.new.id ≡ seat.old.id) × M.then (step self.now.table.shared.table_id.slots (index_of (LockWord block)) old new none) seat.old.me result seat.new.me }
    {
        let cell = index(Word::Cell(block));
        self.table
            .shared
            .compare_exchange::<M>(seat, cell, old, new)
    }

    fn subtract<M: Play<u64, View>>(
        &self,
        seat: &mut Seat<u64, View>,
        _actor: usize,
        _access: Access,
        block: OBlock,
        less: u64,
    )
        requires at { (seat.old.table_id ≡ self.now.table.shared.table_id) × (block.0 < self.now.blocks) }
        requires rule { Allows (Ruled self.now.blocks) self.now.table.shared.table_id.slots seat.old.id seat.old.me (index_of (LockWord block)) (λ n. (n + (2 ^ 64 - less)) % 2 ^ 64) (M.then (step self.now.table.shared.table_id.slots (index_of (LockWord block)) less 0 none) seat.old.me) }
        ensures { (seat.new.table_id ≡ seat.old.table_id) × (seat.new.id ≡ seat.old.id) × ((found : ℕ) × M.then (step self.now.table.shared.table_id.slots (index_of (LockWord block)) less 0 none) seat.old.me found seat.new.me) }
    {
        let cell = index(Word::Cell(block));
        self.table.shared.fetch_sub::<M>(seat, cell, less);
    }

    fn store<M: Play<u64, View>>(
        &self,
        seat: &mut Seat<u64, View>,
        _actor: usize,
        block: OBlock,
        seal: u64,
    )
        requires at { (seat.old.table_id ≡ self.now.table.shared.table_id) × (block.0 < self.now.blocks) }
        requires rule { Allows (Ruled self.now.blocks) self.now.table.shared.table_id.slots seat.old.id seat.old.me (index_of (SealWord block)) (λ _. seal) (λ _. M.then (step self.now.table.shared.table_id.slots (index_of (SealWord block)) seal 0 none) seat.old.me seal) }
        ensures { (seat.new.table_id ≡ seat.old.table_id) × (seat.new.id ≡ seat.old.id) × M.then (step self.now.table.shared.table_id.slots (index_of (SealWord block)) seal 0 none) seat.old.me seal seat.new.me }
    {
        let word = index(Word::Seal(block));
        self.table.shared.store::<M>(seat, word, seal);
    }

    fn add_write<M: Play<u64, View>>(
        &self,
        seat: &mut Seat<u64, View>,
        _actor: usize,
        block: OBlock,
    )
        requires at { (seat.old.table_id ≡ self.now.table.shared.table_id) × (block.0 < self.now.blocks) }
        requires rule { Allows (Ruled self.now.blocks) self.now.table.shared.table_id.slots seat.old.id seat.old.me (index_of (Number block)) (λ n. (n + 1) % 2 ^ 64) (M.then (step self.now.table.shared.table_id.slots (index_of (Number block)) 1 0 none) seat.old.me) }
        ensures { (seat.new.table_id ≡ seat.old.table_id) × (seat.new.id ≡ seat.old.id) × ((found : ℕ) × M.then (step self.now.table.shared.table_id.slots (index_of (Number block)) 1 0 none) seat.old.me found seat.new.me) }
    {
        let word = index(Word::Number(block));
        self.table.shared.fetch_add::<M>(seat, word, 1);
    }

    fn add_count<M: Play<u64, View>>(&self, seat: &mut Seat<u64, View>, _actor: usize, kind: Kind)
        requires at { seat.old.table_id ≡ self.now.table.shared.table_id }
        requires rule { Allows (Ruled self.now.blocks) self.now.table.shared.table_id.slots seat.old.id seat.old.me (index_of (CountWord kind)) (λ n. (n + 1) % 2 ^ 64) (M.then (step self.now.table.shared.table_id.slots (index_of (CountWord kind)) 1 0 none) seat.old.me) }
        ensures { (seat.new.table_id ≡ seat.old.table_id) × (seat.new.id ≡ seat.old.id) × ((found : ℕ) × M.then (step self.now.table.shared.table_id.slots (index_of (CountWord kind)) 1 0 none) seat.old.me found seat.new.me) }
    {
        let word = index(Word::Count(kind));
        self.table.shared.fetch_add::<M>(seat, word, 1);
    }

    fn set_bit<M: Play<u64, View>>(
        &self,
        seat: &mut Seat<u64, View>,
        _actor: usize,
        _bit: FailBit,
        bits: u64,
    )
        requires at { seat.old.table_id ≡ self.now.table.shared.table_id }
        requires rule { Allows (Ruled self.now.blocks) self.now.table.shared.table_id.slots seat.old.id seat.old.me 0 (λ n. bit_or n bits) (M.then (step self.now.table.shared.table_id.slots 0 bits 0 none) seat.old.me) }
        ensures { (seat.new.table_id ≡ seat.old.table_id) × (seat.new.id ≡ seat.old.id) × ((found : ℕ) × M.then (step self.now.table.shared.table_id.slots 0 bits 0 none) seat.old.me found seat.new.me) }
    {
        self.table.shared.fetch_or::<M>(seat, 0, bits);
    }
}
