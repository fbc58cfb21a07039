//! What ticks order, given by the desk.

ghost use Rattle.std.specs.Prelude.{IfOk};
ghost use Rattle.std.specs.List.Sorted.{IsNonDecreasingBy};
ghost use Rattle.wb_policy.specs.Law.{AreMapped};
ghost use Rattle.wb_desk.specs.Desks.{holdings};

use super::{Call, are_answered_by};
use std::alloc::{AllocError, Global};
use std::test::Fail;
use wb_desk::Desk;
use wb_policy::{Cleaner, Order, Policy, TinyLfu};
use wb_types::{CBlock, Key, Mode, OBlock, Refusal};

/// The mapped blocks of these cache blocks, by rising cache block.
fn seen<P: Policy>(
    desk: &Desk<P>,
    alloc: Global,
    dirty: &[bool],
) -> Result<Vec<(CBlock, OBlock)>, AllocError>
    ensures mapped { IfOk result (λ v. AreMapped (holdings desk.now) v.items) }
    ensures rising { IfOk result (λ v. IsNonDecreasingBy (λ e. e.0.0) v.items) }
{
    let mut seen = Vec::new(alloc);
    for c in 0..desk.geometry().cache_blocks {
        if dirty.get(c as usize) == Some(&true) {
            if let Some(entry) = desk.entry(CBlock(c)) {
                seen.push((CBlock(c), entry.origin))?;
            }
        }
    }
    Ok(seen)
}

/// A tick over these cache blocks, and whether its orders are to clean these blocks, in order.
pub(super) fn cleans<P: Policy>(
    desk: &mut Desk<P>,
    alloc: Global,
    dirty: &[bool],
    blocks: &[Option<u32>],
) -> Result<bool, Refusal> {
    let seen = seen(desk, alloc, dirty)?;
    desk.tick(seen.as_slice());
    for b in blocks {
        let order = match *b {
            Some(b) => Some(Order::Clean(OBlock(b))),
            None => None,
        };
        if desk.next_order() != order {
            return Ok(false);
        }
    }
    Ok(desk.next_order() == None)
}

const ALL: [bool; 4] = [true, true, true, true];

const NONE: [Option<u32>; 3] = [None, None, None];

/// Blocks 5, 6 and 7 come into cache blocks 1, 2 and 0; then one order a tick, of the least recent block without one.
const BY_RECENCY: [(Call, bool); 12] = [
    (Call::Reserve(Order::Promote(OBlock(7), CBlock(0))), true),
    (Call::Reserve(Order::Promote(OBlock(5), CBlock(1))), true),
    (Call::Reserve(Order::Promote(OBlock(6), CBlock(2))), true),
    (Call::Map(5, 1), true),
    (Call::Map(6, 2), true),
    (Call::Map(7, 0), true),
    (
        Call::Tick([true, false, true, false], [Some(6), None, None]),
        true,
    ),
    (Call::Tick(ALL, [Some(5), None, None]), true),
    (Call::Tick(ALL, [Some(7), None, None]), true),
    (Call::Tick(ALL, NONE), true),
    (Call::Release(Order::Clean(OBlock(6))), true),
    (Call::Tick(ALL, [Some(6), None, None]), true),
];

/// The same, and then all blocks round the cache, as far as there is room.
const IN_TURN: [(Call, bool); 16] = [
    (Call::Reserve(Order::Promote(OBlock(7), CBlock(0))), true),
    (Call::Reserve(Order::Promote(OBlock(5), CBlock(1))), true),
    (Call::Reserve(Order::Promote(OBlock(6), CBlock(2))), true),
    (Call::Map(5, 1), true),
    (Call::Map(6, 2), true),
    (Call::Map(7, 0), true),
    (Call::Set(Key::MigrationThreshold, 128), true),
    (Call::Tick(ALL, [Some(7), Some(5), None]), true),
    (Call::Tick(ALL, NONE), true),
    (Call::Release(Order::Clean(OBlock(5))), true),
    (Call::Release(Order::Clean(OBlock(7))), true),
    (Call::Set(Key::MigrationThreshold, 2048), true),
    (Call::Tick(ALL, [Some(6), Some(7), Some(5)]), true),
    (Call::Tick(ALL, NONE), true),
    (Call::Release(Order::Clean(OBlock(6))), true),
    (Call::Tick([true, true, false, true], NONE), true),
];

#[test]
fn tiny_lfu_cleans_the_least_recent_dirty_block(rt: HostRuntime) -> Result<(), Fail> {
    assert!(rt; are_answered_by::<TinyLfu>(rt.alloc(), Mode::Writeback, &BY_RECENCY)?);
    Ok(())
}

#[test]
fn the_cleaner_cleans_all_dirty_blocks_in_turn(rt: HostRuntime) -> Result<(), Fail> {
    assert!(rt; are_answered_by::<Cleaner>(rt.alloc(), Mode::Writeback, &IN_TURN)?);
    Ok(())
}
