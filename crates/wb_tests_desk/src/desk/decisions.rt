//! What TinyLfu decides at an access, given by the desk and carried out.

use super::{Call, are_answered_by};
use std::test::Fail;
use wb_policy::{Order, Quiet, TinyLfu};
use wb_types::{CBlock, Key, Mode, OBlock};

const REPLACE: Option<Order> = Some(Order::Replace(OBlock(0), OBlock(4), CBlock(0)));

/// The second access of a block brings it into the least free cache block. Of a full cache the third access of another
/// replaces the least recent one, which had two.
const FILLED: [(Call, bool); 24] = [
    (Call::Settle(0, None), true),
    (Call::Promoted(0, 0), true),
    (Call::Map(0, 0), true),
    (Call::Settle(1, None), true),
    (Call::Promoted(1, 1), true),
    (Call::Map(1, 1), true),
    (Call::Settle(2, None), true),
    (Call::Promoted(2, 2), true),
    (Call::Map(2, 2), true),
    (Call::Settle(3, None), true),
    (Call::Promoted(3, 3), true),
    (Call::Map(3, 3), true),
    (Call::Unanswered(4, 2), true),
    (Call::Settle(4, REPLACE), true),
    // it has a live order
    (Call::Settle(4, None), true),
    (Call::Unmap(0), true),
    (Call::Map(4, 0), false),
    (Call::Begin, true),
    (Call::End, true),
    (Call::Map(4, 0), true),
    (Call::Settle(4, None), true),
    (Call::Entries(4, 5, 1), true),
    (Call::Commits(1, 3), true),
    (Call::Take(None), true),
];

#[test]
fn a_full_cache_replaces_only_by_a_greater_estimate(rt: HostRuntime) -> Result<(), Fail> {
    assert!(rt; are_answered_by::<TinyLfu>(rt.alloc(), Mode::Writethrough, &FILLED)?);
    Ok(())
}

/// No order is given for which there is no room, nor of a block that the origin has not.
const WITHOUT_ROOM: [(Call, bool); 5] = [
    (Call::Unanswered(10, 2), true),
    (Call::Set(Key::MigrationThreshold, 63), true),
    (Call::Unanswered(0, 2), true),
    (Call::Set(Key::MigrationThreshold, 64), true),
    (Call::Promoted(0, 0), true),
];

#[test]
fn an_order_waits_for_room(rt: HostRuntime) -> Result<(), Fail> {
    assert!(rt; are_answered_by::<TinyLfu>(rt.alloc(), Mode::Writeback, &WITHOUT_ROOM)?);
    Ok(())
}

const NO_ORDER: [(Call, bool); 3] = [
    (Call::Unanswered(7, 20), true),
    (
        Call::Tick([true, true, true, true], [None, None, None]),
        true,
    ),
    (Call::Room(2048), true),
];

#[test]
fn in_passthrough_and_by_a_quiet_policy_no_order_is_given(rt: HostRuntime) -> Result<(), Fail> {
    assert!(rt; are_answered_by::<TinyLfu>(rt.alloc(), Mode::Passthrough, &NO_ORDER)?);
    assert!(rt; are_answered_by::<Quiet>(rt.alloc(), Mode::Writeback, &NO_ORDER)?);
    Ok(())
}

/// Sixteen accesses count up to the greatest estimate, and 17 is above it.
const COUNTED: [(Call, bool); 6] = [
    (Call::Set(Key::PromoteMin, 17), true),
    (Call::Set(Key::PromoteMin, 18), false),
    (Call::Unanswered(7, 17), true),
    (Call::Set(Key::PromoteMin, 16), true),
    (Call::Unanswered(8, 15), true),
    (Call::Promoted(8, 0), true),
];

/// The 64th access halves the estimate, to 7; the next one makes it 8.
const HALVED: [(Call, bool); 6] = [
    (Call::Set(Key::PromoteMin, 8), true),
    (Call::Set(Key::MigrationThreshold, 0), true),
    (Call::Unanswered(7, 63), true),
    (Call::Set(Key::MigrationThreshold, 64), true),
    (Call::Settle(7, None), true),
    (Call::Promoted(7, 0), true),
];

#[test]
fn estimates_are_counted_and_halved(rt: HostRuntime) -> Result<(), Fail> {
    assert!(rt; are_answered_by::<TinyLfu>(rt.alloc(), Mode::Writeback, &COUNTED)?);
    assert!(rt; are_answered_by::<TinyLfu>(rt.alloc(), Mode::Writeback, &HALVED)?);
    Ok(())
}
