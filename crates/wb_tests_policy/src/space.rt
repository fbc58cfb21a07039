//! What no contract says: that memory serves, and that the rules come out as they were worked by hand.

mod places;
mod quarantine;
mod sizes;

use self::places::Commit;
use self::quarantine::Act;
use std::alloc::Global;
use wb_space::{Holding, Space};
use wb_types::{CBlock, Geometry, Place, Refusal};

/// A space of so many blocks, all free or all mapped, whose image uses these places.
fn space_of(alloc: Global, blocks: u32, mapped: bool, used: &[Place]) -> Result<Space, Refusal> {
    let geometry = Geometry::new(64, u64::from(blocks), 1_048_576, 4_294_967_295)?;
    let entries = vec![in alloc; mapped; blocks as usize]?;
    Space::new(alloc, &geometry, entries.as_slice(), used)
}

/// What is asked of a space.
#[derive(Clone, Copy)]
enum Question<'a> {
    /// Whether these are all the free places, and each number of them the least.
    Finds(&'a [Place]),
    /// Whether each commit leaves free what its row says.
    Frees(&'a [Commit]),
    /// Whether this is the least free place, of so many.
    BeginsWith(Place, usize),
    /// Whether places are listed, so many, or want of memory is told.
    ListsOrTells(usize),
    /// Whether acts on block 1 leave it held for this.
    Leaves(&'a [Act], Holding),
    /// Whether all blocks can be taken, removed and freed.
    Serves,
    /// Whether blocks that are freed one after the other leave these the least free.
    FreesEach(&'a [(u32, u32)]),
}

/// The answer of a space.
// Letting a space go is dear to prove: this function alone does.
fn answered(
    alloc: Global,
    made: Result<Space, Refusal>,
    question: Question<'_>,
) -> Result<bool, Refusal> {
    let mut space = made?;
    Ok(answer(alloc, &mut space, question))
}

fn answer(alloc: Global, space: &mut Space, question: Question<'_>) -> bool {
    match question {
        Question::Finds(places) => places::finds_each(alloc, space, places),
        Question::Frees(commits) => places::frees(alloc, space, commits),
        Question::BeginsWith(least, count) => places::begins_with(alloc, space, least, count),
        Question::ListsOrTells(count) => places::lists_or_tells(alloc, space, count),
        Question::Leaves(acts, shown) => quarantine::leaves_so(space, acts, shown),
        Question::Serves => sizes::serves(space),
        Question::FreesEach(freed) => sizes::frees_each(space, freed),
    }
}

// Below each call is made where the block is in the state that it asks for; else the answer is false.

fn is_held(space: &Space, c: u32, shown: Holding) -> bool {
    c < space.cache_blocks() && space.block(CBlock(c)) == shown
}

#[tactic(auto, using(wb_space::proofs::Held::free_at))]
fn reserve(space: &mut Space, c: u32) -> bool {
    if c >= space.cache_blocks() {
        return false;
    }
    match space.block(CBlock(c)) {
        Holding::Free => {
            space.reserve(CBlock(c));
            true
        }
        _ => false,
    }
}

#[tactic(auto, using(wb_space::proofs::Held::reserved_at))]
fn map(space: &mut Space, c: u32) -> bool {
    if c >= space.cache_blocks() {
        return false;
    }
    match space.block(CBlock(c)) {
        Holding::Reserved => {
            space.map(CBlock(c));
            true
        }
        _ => false,
    }
}

#[tactic(auto, using(wb_space::proofs::Held::mapped_at))]
fn remove(space: &mut Space, c: u32, keep: bool) -> bool {
    if c >= space.cache_blocks() {
        return false;
    }
    match space.block(CBlock(c)) {
        Holding::Mapped => {
            space.remove(CBlock(c), keep);
            true
        }
        _ => false,
    }
}

fn give_back(space: &mut Space, c: u32) -> bool {
    if c >= space.cache_blocks() || !space.is_kept(CBlock(c)) {
        return false;
    }
    space.give_back(CBlock(c));
    true
}

fn begin(space: &mut Space, used: &[Place]) -> bool {
    if space.is_committing() {
        return false;
    }
    space.begin(used);
    true
}

fn end(space: &mut Space) -> bool {
    if !space.is_committing() {
        return false;
    }
    space.end();
    true
}
