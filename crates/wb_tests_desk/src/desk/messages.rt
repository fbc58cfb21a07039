//! Settings and messages.

use super::{Call, are_answered};
use std::test::Fail;
use wb_types::{Key, Mode, Refusal};

const HIGH: (Key, u64) = (Key::MigrationThreshold, 4_294_967_296);

const LOW: (Key, u64) = (Key::MigrationThreshold, 64);

#[test]
fn the_last_value_of_a_key_counts_and_may_be_refused(rt: HostRuntime) -> Result<(), Fail> {
    let alloc = rt.alloc();
    let room = [(Call::Room(64), true)];
    let high = are_answered(alloc, 7, Mode::Writeback, &[HIGH], &room);
    assert!(rt; high == Err(Refusal::BadMessage));
    let other = are_answered(alloc, 7, Mode::Writeback, &[(Key::PromoteMin, 2)], &room);
    assert!(rt; other == Err(Refusal::BadMessage));
    assert!(rt; are_answered(alloc, 7, Mode::Writeback, &[HIGH, LOW], &room)?);
    Ok(())
}

/// A threshold is taken, and not one that is too high, nor a setting that the policy does not have. Ranges that are there may
/// be invalidated in another mode.
const SETTINGS: [(Call, bool); 6] = [
    (Call::Set(Key::MigrationThreshold, 64), true),
    (Call::Set(Key::MigrationThreshold, 4_294_967_296), false),
    (Call::Set(Key::PromoteMin, 2), false),
    (Call::Room(64), true),
    (Call::Invalidate(0, 2, Err(Refusal::WrongMode)), true),
    (Call::Invalidate(2, 2, Err(Refusal::BadMessage)), true),
];

/// Ranges of cache blocks that are there, and not empty, may be invalidated, and no others.
const RANGES: [(Call, bool); 4] = [
    (Call::Invalidate(0, 2, Ok(())), true),
    (Call::Invalidate(3, 4, Ok(())), true),
    (Call::Invalidate(2, 2, Err(Refusal::BadMessage)), true),
    (Call::Invalidate(3, 5, Err(Refusal::BadMessage)), true),
];

#[test]
fn messages_are_taken_and_refused(rt: HostRuntime) -> Result<(), Fail> {
    assert!(rt; are_answered(rt.alloc(), 7, Mode::Writeback, &[], &SETTINGS)?);
    assert!(rt; are_answered(rt.alloc(), 7, Mode::Passthrough, &[], &RANGES)?);
    Ok(())
}
