//! Orders that are given, given up and taken, and entries that come and go.

use super::{Call, are_answered};
use std::test::Fail;
use wb_policy::Order;
use wb_types::{CBlock, Key, Mode, OBlock};

const CLEAN: Order = Order::Clean(OBlock(3));

const DEMOTE: Order = Order::Demote(OBlock(3));

const PROMOTE: Order = Order::Promote(OBlock(5), CBlock(0));

const LATER: Order = Order::Promote(OBlock(9), CBlock(2));

const REPLACE: Order = Order::Replace(OBlock(3), OBlock(6), CBlock(1));

/// One order a block, of a mapped block, or of an unmapped one that is there for a free cache block. A cache block is reserved
/// for a promotion, and free again once the order is given up, once.
const GIVEN: [(Call, bool); 14] = [
    (Call::Reserve(CLEAN), true),
    // its block has a live order, is mapped, the cache block is mapped, is not there
    (Call::Reserve(CLEAN), false),
    (Call::Reserve(DEMOTE), false),
    (Call::Reserve(Order::Promote(OBlock(3), CBlock(0))), false),
    (Call::Reserve(Order::Promote(OBlock(5), CBlock(1))), false),
    (Call::Reserve(Order::Promote(OBlock(5), CBlock(4))), false),
    // the block is unmapped, is not there
    (Call::Reserve(Order::Demote(OBlock(7))), false),
    (Call::Reserve(Order::Promote(OBlock(10), CBlock(0))), false),
    (Call::Reserve(PROMOTE), true),
    (Call::Reserve(Order::Promote(OBlock(6), CBlock(0))), false),
    (Call::Release(PROMOTE), true),
    (Call::Release(PROMOTE), false),
    (Call::Release(CLEAN), true),
    (Call::Reserve(Order::Promote(OBlock(6), CBlock(0))), true),
];

/// A replacement takes the room of two blocks, and a live order keeps its room where the threshold is lowered.
const ROOM: [(Call, bool); 14] = [
    (Call::Room(150), true),
    (Call::Reserve(REPLACE), true),
    (Call::Reserve(LATER), false),
    (Call::Set(Key::MigrationThreshold, 191), true),
    (Call::Reserve(LATER), false),
    (Call::Set(Key::MigrationThreshold, 192), true),
    (Call::Reserve(LATER), true),
    (Call::Set(Key::MigrationThreshold, 0), true),
    (Call::Room(0), true),
    (Call::Take(None), true),
    (Call::Entries(1, 0, 0), true),
    (Call::Commits(7, 2), true),
    // a lowered threshold takes no live order back
    (Call::Release(REPLACE), true),
    (Call::Map(9, 2), true),
];

#[test]
fn orders_are_given_and_given_up(rt: HostRuntime) -> Result<(), Fail> {
    let keys = [(Key::MigrationThreshold, 150)];
    assert!(rt; are_answered(rt.alloc(), 7, Mode::Writeback, &keys, &GIVEN)?);
    assert!(rt; are_answered(rt.alloc(), 7, Mode::Writeback, &keys, &ROOM)?);
    Ok(())
}

/// A block comes in under its order alone, which is over then.
const COMES: [(Call, bool); 9] = [
    // no order brings it there, and another one brings another block
    (Call::Map(5, 0), false),
    (Call::Reserve(PROMOTE), true),
    (Call::Map(6, 0), false),
    (Call::Map(5, 2), false),
    (Call::Map(5, 0), true),
    // the order is over
    (Call::Release(PROMOTE), false),
    (Call::Map(5, 0), false),
    (Call::Entry(0, Some((5, false, 0))), true),
    (Call::Entries(2, 1, 0), true),
];

/// Block 3, in cache block 1, stays while it is written back, and goes under its demotion.
const GOES: [(Call, bool); 11] = [
    (Call::Unmap(7), false),
    (Call::Reserve(CLEAN), true),
    (Call::Unmap(3), false),
    (Call::Release(CLEAN), true),
    (Call::Reserve(DEMOTE), true),
    (Call::Unmap(3), true),
    (Call::Release(DEMOTE), false),
    // quarantined, before any commit
    (Call::Reserve(Order::Promote(OBlock(8), CBlock(1))), false),
    (Call::Entry(1, None), true),
    (Call::Entries(0, 0, 1), true),
    (Call::Room(2048), true),
];

#[test]
fn entries_come_and_go(rt: HostRuntime) -> Result<(), Fail> {
    assert!(rt; are_answered(rt.alloc(), 7, Mode::Writeback, &[], &COMES)?);
    assert!(rt; are_answered(rt.alloc(), 7, Mode::Writeback, &[], &GOES)?);
    Ok(())
}

/// In passthrough no order is given, and a block goes without one.
const PASSED: [(Call, bool); 7] = [
    (Call::Reserve(CLEAN), false),
    (Call::Reserve(PROMOTE), false),
    (Call::Entry(0, None), true),
    (Call::Entry(1, Some((3, false, 0))), true),
    (Call::Unmap(3), true),
    (Call::Unmap(3), false),
    (Call::Entries(0, 0, 1), true),
];

#[test]
fn in_passthrough_a_block_goes_without_an_order(rt: HostRuntime) -> Result<(), Fail> {
    assert!(rt; are_answered(rt.alloc(), 7, Mode::Passthrough, &[], &PASSED)?);
    Ok(())
}
