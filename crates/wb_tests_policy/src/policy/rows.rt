//! Decisions that were worked by hand, as tables.

use super::{policy, tick};
use std::alloc::{AllocError, Global};
use std::test::Fail;
use wb_policy::{Cleaner, Order, Policy, Quiet, Settled, TinyLfu};
use wb_types::{CBlock, Key, Mode, OBlock, Refusal};

/// Settles one access in write-back mode.
fn settle(
    policy: &mut TinyLfu,
    block: u32,
    free: Option<CBlock>,
    room: u64,
    busy: &[bool],
) -> Option<Order> {
    policy.settle(&Settled {
        block: OBlock(block),
        mode: Mode::Writeback,
        least_free: free,
        room,
        busy,
    })
}

/// Origin block and hint of each cache block: the recency from the least recent is 3, 1, 0, 2.
const PLACED: [Option<(u32, u8)>; 4] = [Some((0, 5)), Some((1, 2)), Some((2, 5)), Some((3, 0))];

const NO_ENTRIES: [Option<(u32, u8)>; 4] = [None, None, None, None];

/// Whether block 9 is to replace this one, which then has a live order.
fn replaces(tiny: &mut TinyLfu, busy: &mut [bool], at: u32) -> bool {
    let order = settle(tiny, 9, None, 128, busy);
    if let Some(bit) = busy.get_mut(at as usize) {
        *bit = true;
    }
    order == Some(Order::Replace(OBlock(at), OBlock(9), CBlock(at)))
}

fn replaces_each(tiny: &mut TinyLfu, busy: &mut [bool], rising: &[u32]) -> bool {
    for at in rising {
        if !replaces(tiny, busy, *at) {
            return false;
        }
    }
    true
}

/// Whether mapped blocks are replaced by their place.
fn replaces_by_place(tiny: &mut TinyLfu) -> bool {
    let mut busy = [false; 10];
    let _first = settle(tiny, 9, None, 128, &busy);
    replaces_each(tiny, &mut busy, &[3, 1, 0, 2])
}

fn placed_are_replaced(alloc: Global) -> Result<bool, Refusal> {
    let mut tiny = policy::<TinyLfu>(alloc, PLACED)?;
    Ok(replaces_by_place(&mut tiny))
}

#[test]
fn mapped_blocks_are_placed_by_hint_then_by_cache_block(rt: HostRuntime) -> Result<(), Fail> {
    assert!(rt; placed_are_replaced(rt.alloc())?);
    Ok(())
}

/// Block, least free cache block, room, order.
type Access = (u32, Option<CBlock>, u64, Option<Order>);

/// Blocks 0 and 1 come in.
const FIRST_TWO: [Access; 4] = [
    (0, Some(CBlock(0)), 64, None),
    (
        0,
        Some(CBlock(0)),
        64,
        Some(Order::Promote(OBlock(0), CBlock(0))),
    ),
    (1, Some(CBlock(1)), 64, None),
    (
        1,
        Some(CBlock(1)),
        64,
        Some(Order::Promote(OBlock(1), CBlock(1))),
    ),
];

/// Blocks 2 and 3 come in, once there is room.
const NEXT_TWO: [Access; 5] = [
    (2, Some(CBlock(2)), 64, None),
    (2, Some(CBlock(2)), 63, None),
    (
        2,
        Some(CBlock(2)),
        64,
        Some(Order::Promote(OBlock(2), CBlock(2))),
    ),
    (3, Some(CBlock(3)), 64, None),
    (
        3,
        Some(CBlock(3)),
        64,
        Some(Order::Promote(OBlock(3), CBlock(3))),
    ),
];

/// The cache is full.
const REPLACING: [Access; 5] = [
    (4, None, 128, None),
    (4, None, 128, None),
    (4, None, 127, None),
    (
        4,
        None,
        128,
        Some(Order::Replace(OBlock(0), OBlock(4), CBlock(0))),
    ),
    (0, None, 128, None),
];

/// Whether each access is answered so; a promotion is carried out.
fn are_answered(tiny: &mut TinyLfu, accesses: &[Access]) -> Result<bool, Refusal> {
    for (block, free, room, want) in accesses {
        let order = settle(tiny, *block, *free, *room, &[]);
        if order != *want {
            return Ok(false);
        }
        if let Some(Order::Promote(b, c)) = order {
            tiny.mapped(b, c)?;
        }
    }
    Ok(true)
}

fn all_are_answered(tiny: &mut TinyLfu) -> Result<bool, Refusal> {
    Ok(
        are_answered(tiny, &FIRST_TWO)?
            && are_answered(tiny, &NEXT_TWO)?
            && are_answered(tiny, &REPLACING)?,
    )
}

/// Whether a cache without entries fills, and replaces then.
fn fills_and_replaces(alloc: Global) -> Result<bool, Refusal> {
    let mut tiny = policy::<TinyLfu>(alloc, NO_ENTRIES)?;
    all_are_answered(&mut tiny)
}

#[test]
fn a_full_cache_replaces_only_by_a_greater_estimate(rt: HostRuntime) -> Result<(), Fail> {
    assert!(rt; fills_and_replaces(rt.alloc())?);
    Ok(())
}

/// A setting, whether it is taken, and the value of `promote_min` then.
type Setting = (Key, u64, bool, u64);

const SETTINGS: [Setting; 7] = [
    (Key::PromoteMin, 0, false, 2),
    (Key::PromoteMin, 18, false, 2),
    (Key::PromoteMin, 258, false, 2),
    (Key::MigrationThreshold, 3, false, 2),
    (Key::PromoteMin, 17, true, 17),
    (Key::PromoteMin, 0, false, 17),
    (Key::PromoteMin, 1, true, 1),
];

fn answers(answer: Result<(), Refusal>, is_taken: bool) -> bool {
    match answer {
        Ok(()) => is_taken,
        Err(refusal) => !is_taken && refusal == Refusal::BadMessage,
    }
}

/// Whether each setting is taken or not, as it says.
fn takes(tiny: &mut TinyLfu, settings: &[Setting]) -> bool {
    for (key, value, is_taken, then) in settings {
        if !answers(tiny.set(*key, *value), *is_taken) || tiny.shown() != ("tinylfu", Some(*then)) {
            return false;
        }
    }
    true
}

/// Whether it takes them so, and then promotes block 0 at its first access.
fn promotes_then(alloc: Global, settings: &[Setting]) -> Result<bool, Refusal> {
    let mut tiny = policy::<TinyLfu>(alloc, NO_ENTRIES)?;
    Ok(takes(&mut tiny, settings) && promotes_first(&mut tiny))
}

fn promotes_first(tiny: &mut TinyLfu) -> bool {
    settle(tiny, 0, Some(CBlock(0)), 64, &[]) == Some(Order::Promote(OBlock(0), CBlock(0)))
}

#[test]
fn the_least_estimate_of_a_promotion_is_a_setting(rt: HostRuntime) -> Result<(), Fail> {
    assert!(rt; promotes_then(rt.alloc(), &SETTINGS)?);
    Ok(())
}

/// Whether a policy is shown so, and has no setting.
fn has_no_setting<P: Policy>(alloc: Global, name: &str) -> Result<bool, Refusal> {
    let mut policy = policy::<P>(alloc, NO_ENTRIES)?;
    Ok(policy.set(Key::PromoteMin, 2) == Err(Refusal::BadMessage) && policy.shown() == (name, None))
}

#[test]
fn other_policies_have_no_setting(rt: HostRuntime) -> Result<(), Fail> {
    assert!(rt; has_no_setting::<Cleaner>(rt.alloc(), "cleaner")?);
    assert!(rt; has_no_setting::<Quiet>(rt.alloc(), "quiet")?);
    Ok(())
}

/// Blocks seen dirty, blocks with a live order, room, how many orders the tick has given, and the block that is written
/// back. Block c stands in cache block c.
type Line = (&'static str, &'static str, u64, u32, Option<u32>);

const TINY_TICKS: [&Line; 8] = [
    &("0123", "", 64, 0, Some(3)),
    &("0123", "", 64, 1, None),
    &("0123", "", 63, 0, None),
    &("0123", "13", 64, 0, Some(0)),
    &("21", "", 64, 0, Some(1)),
    &("2", "", 64, 0, Some(2)),
    &("2", "2", 64, 0, None),
    &("", "", 64, 0, None),
];

const CLEANER_TICKS: [&Line; 10] = [
    &("", "", 64, 0, None),
    &("023", "", 64, 0, Some(0)),
    &("023", "0", 64, 1, Some(2)),
    &("023", "02", 63, 2, None),
    &("023", "02", 64, 2, Some(3)),
    &("023", "023", 64, 3, None),
    &("01", "", 64, 0, Some(0)),
    &("0", "", 64, 0, Some(0)),
    &("10", "1", 64, 0, Some(0)),
    &("321", "", 64, 0, Some(1)),
];

const NO_TICKS: [&Line; 1] = [&("0123", "", 64, 0, None)];

/// The blocks that a text names by their digits, each in the cache block of its number.
fn blocks(alloc: Global, text: &str) -> Result<Vec<(CBlock, OBlock)>, AllocError> {
    let mut blocks = Vec::new(alloc);
    for digit in text.as_bytes() {
        let number = u32::from(digit.wrapping_sub(b'0'));
        blocks.push((CBlock(number), OBlock(number)))?;
    }
    Ok(blocks)
}

/// The origin blocks, those of a text with a live order.
fn with_orders(alloc: Global, text: &str) -> Result<Vec<bool>, AllocError> {
    let mut busy = vec![in alloc; false; 10]?;
    for digit in text.as_bytes() {
        if let Some(bit) = busy.get_mut(usize::from(digit.wrapping_sub(b'0'))) {
            *bit = true;
        }
    }
    Ok(busy)
}

/// Whether a tick of a policy gives what a line says.
fn gives<P: Policy>(
    policy: &mut P,
    alloc: Global,
    mode: Mode,
    line: &Line,
) -> Result<bool, AllocError> {
    let (dirty, live, room, given, want) = line;
    let mut seen = blocks(alloc, dirty)?;
    let busy = with_orders(alloc, live)?;
    let order = tick(policy, mode, *room, busy.as_slice(), &mut seen, *given)?;
    Ok(order == want.map(|b| Order::Clean(OBlock(b))))
}

/// Whether a policy gives what these lines say.
fn gives_each<P: Policy>(alloc: Global, mode: Mode, lines: &[&Line]) -> Result<bool, Refusal> {
    let mut policy = policy::<P>(alloc, PLACED)?;
    for line in lines {
        if !gives(&mut policy, alloc, mode, line)? {
            return Ok(false);
        }
    }
    Ok(true)
}

#[test]
fn ticks(rt: HostRuntime) -> Result<(), Fail> {
    let alloc = rt.alloc();
    assert!(rt; gives_each::<TinyLfu>(alloc, Mode::Writeback, &TINY_TICKS)?);
    assert!(rt; gives_each::<TinyLfu>(alloc, Mode::Passthrough, &NO_TICKS)?);
    assert!(rt; gives_each::<Cleaner>(alloc, Mode::Writethrough, &CLEANER_TICKS)?);
    assert!(rt; gives_each::<Cleaner>(alloc, Mode::Passthrough, &NO_TICKS)?);
    assert!(rt; gives_each::<Quiet>(alloc, Mode::Writeback, &NO_TICKS)?);
    Ok(())
}
