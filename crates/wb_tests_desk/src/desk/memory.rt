//! Want of memory: `rt try --test --fail-alloc N` refuses the N-th allocation, and the test passes for each.

use super::{Call, Tries, are_done_by, empty};
use std::alloc::Global;
use std::test::Fail;
use wb_policy::TinyLfu;
use wb_types::{Mode, Place, Refusal};

/// Two blocks come in and two commits are made, the second one cleanly.
const CALLS: [(Call, bool); 12] = [
    (Call::Unanswered(5, 1), true),
    (Call::Promoted(5, 0), true),
    (Call::Map(5, 0), true),
    (Call::Unanswered(6, 1), true),
    (Call::Promoted(6, 1), true),
    (Call::Map(6, 1), true),
    (Call::Image(None, (1, 1, Some(Place(2)))), true),
    (Call::End, true),
    (
        Call::Image(Some([false, true, false, false]), (2, 1, Some(Place(3)))),
        true,
    ),
    (Call::End, true),
    (Call::Commits(2, 3), true),
    (Call::Entries(2, 2, 0), true),
];

/// Makes calls of an empty cache, and one that is refused for want of memory once more, of what it left. Whether each comes out as
/// where none is refused; `Memory` where there is none for the desk.
fn are_done_at_last(alloc: Global, calls: &[(Call, bool)]) -> Result<bool, Refusal> {
    let desk = empty::<TinyLfu>(alloc, 1, 4, 10, Mode::Writeback)?;
    are_done_by(desk, alloc, calls, Tries::Two)
}

#[test]
fn a_call_that_is_refused_for_want_of_memory_can_be_made_again(
    rt: HostRuntime,
) -> Result<(), Fail> {
    let are_done = match are_done_at_last(rt.alloc(), &CALLS) {
        Err(Refusal::Memory) => are_done_at_last(rt.alloc(), &CALLS)?,
        answer => answer?,
    };
    assert!(rt; are_done);
    Ok(())
}
