//! What becomes of one block: how long a removed one waits, and what an order keeps.

use super::{Question, answered, begin, end, give_back, is_held, map, remove, reserve, space_of};
use std::alloc::Global;
use wb_space::{Holding, Space};

#[derive(Clone, Copy)]
pub(super) enum Act {
    Reserve,
    Map,
    GiveBack,
    Remove,
    /// Removed, and kept for a live replacement.
    Keep,
    Begin,
    End,
}

/// Acts on block 1; false where the call asks for another state.
fn perform(space: &mut Space, act: Act) -> bool {
    match act {
        Act::Reserve => reserve(space, 1),
        Act::Map => map(space, 1),
        Act::GiveBack => give_back(space, 1),
        Act::Remove => remove(space, 1, false),
        Act::Keep => remove(space, 1, true),
        Act::Begin => begin(space, &[]),
        Act::End => end(space),
    }
}

/// Whether the acts, one after the other on block 1 of three mapped ones, leave it held for this, and its neighbour
/// as it was.
fn leaves(alloc: Global, acts: &[Act], shown: Holding) -> bool {
    let space = space_of(alloc, 3, true, &[]);
    answered(alloc, space, Question::Leaves(acts, shown)) == Ok(true)
}

pub(super) fn leaves_so(space: &mut Space, acts: &[Act], shown: Holding) -> bool {
    for act in acts {
        if !perform(space, *act) {
            return false;
        }
    }
    is_held(space, 1, shown) && is_held(space, 0, Holding::Mapped)
}

/// Acts, and what the block is held for after them.
type Row<'a> = (&'a [Act], Holding);

/// The number of the first row that comes out otherwise.
fn first_wrong(alloc: Global, rows: &[Row<'_>]) -> Option<usize> {
    for (number, (acts, shown)) in rows.iter().enumerate() {
        if !leaves(alloc, acts, *shown) {
            return Some(number);
        }
    }
    None
}

#[test]
fn a_removed_block_waits_for_a_commit_that_began_later(rt: HostRuntime) {
    let table: [Row; 9] = [
        (&[Act::Remove], Holding::Quarantined),
        (&[Act::Remove, Act::Begin], Holding::Quarantined),
        (&[Act::Remove, Act::Begin, Act::End], Holding::Free),
        (&[Act::Begin, Act::Remove], Holding::Quarantined),
        (&[Act::Begin, Act::Remove, Act::End], Holding::Quarantined),
        (
            &[Act::Begin, Act::Remove, Act::End, Act::Begin],
            Holding::Quarantined,
        ),
        (
            &[Act::Begin, Act::Remove, Act::End, Act::Begin, Act::End],
            Holding::Free,
        ),
        (&[Act::Begin, Act::End, Act::Remove], Holding::Quarantined),
        (
            &[Act::Begin, Act::End, Act::Remove, Act::Begin, Act::End],
            Holding::Free,
        ),
    ];
    let wrong = first_wrong(rt.alloc(), &table);
    assert!(rt; wrong.is_none(), "row {wrong:?}");
}

#[test]
fn a_kept_block_is_reserved_after_its_quarantine(rt: HostRuntime) {
    let table: [Row; 6] = [
        (&[Act::Keep, Act::Begin], Holding::Quarantined),
        (&[Act::Keep, Act::Begin, Act::End], Holding::Reserved),
        (&[Act::Begin, Act::Keep, Act::End], Holding::Quarantined),
        (
            &[Act::Begin, Act::Keep, Act::End, Act::Begin, Act::End],
            Holding::Reserved,
        ),
        (
            &[Act::Keep, Act::Begin, Act::End, Act::Map],
            Holding::Mapped,
        ),
        (
            &[Act::Keep, Act::Begin, Act::End, Act::GiveBack],
            Holding::Free,
        ),
    ];
    let wrong = first_wrong(rt.alloc(), &table);
    assert!(rt; wrong.is_none(), "row {wrong:?}");
}

#[test]
fn a_block_given_back_in_quarantine_stays_there(rt: HostRuntime) {
    let table: [Row; 4] = [
        (&[Act::Keep, Act::GiveBack], Holding::Quarantined),
        (
            &[Act::Keep, Act::GiveBack, Act::Begin, Act::End],
            Holding::Free,
        ),
        (
            &[Act::Keep, Act::Begin, Act::GiveBack],
            Holding::Quarantined,
        ),
        (
            &[Act::Keep, Act::Begin, Act::GiveBack, Act::End, Act::Reserve],
            Holding::Reserved,
        ),
    ];
    let wrong = first_wrong(rt.alloc(), &table);
    assert!(rt; wrong.is_none(), "row {wrong:?}");
}
