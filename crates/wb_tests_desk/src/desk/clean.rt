//! Clean images.

use super::{Call, Tries, are_answered, are_answered_by, are_done_by, empty};
use std::alloc::Global;
use std::test::Fail;
use wb_desk::Desk;
use wb_policy::{Order, Policy, Quiet, TinyLfu};
use wb_types::{CBlock, Mode, OBlock, Place, Refusal};

/// Where no node changed, and all dirty bits and hints are those of the entries, a clean image writes none; and one that marks
/// block 3 dirty writes the one leaf.
const UNCHANGED: [(Call, bool); 6] = [
    (Call::Begin, true),
    (Call::End, true),
    (
        Call::Image(Some([true, false, true, true]), (9, 0, Some(Place(2)))),
        true,
    ),
    (Call::End, true),
    (
        Call::Image(Some([false, true, false, false]), (10, 1, Some(Place(3)))),
        true,
    ),
    (Call::Entry(1, Some((3, true, 0))), true),
];

#[test]
fn a_clean_image_of_what_did_not_change_writes_no_node(rt: HostRuntime) -> Result<(), Fail> {
    assert!(rt; are_answered(rt.alloc(), 7, Mode::Writeback, &[], &UNCHANGED)?);
    Ok(())
}

/// The entries of a clean image have the dirty bits that were seen, and so have the desk's; a cache block without an entry
/// has none. A commit without such bits leaves them.
const MARKED: [(Call, bool); 9] = [
    (Call::Begin, true),
    (Call::End, true),
    (Call::Entry(1, Some((3, false, 0))), true),
    (
        Call::Image(Some([true, true, false, true]), (9, 1, Some(Place(3)))),
        true,
    ),
    (Call::Entry(1, Some((3, true, 0))), true),
    (Call::Entry(0, None), true),
    (Call::End, true),
    (Call::Image(None, (10, 0, Some(Place(3)))), true),
    (Call::Entry(1, Some((3, true, 0))), true),
];

#[test]
fn a_clean_image_has_the_dirty_bits_that_were_seen(rt: HostRuntime) -> Result<(), Fail> {
    assert!(rt; are_answered(rt.alloc(), 7, Mode::Writeback, &[], &MARKED)?);
    Ok(())
}

/// The hints are the policy's: block 7 was accessed three times. It may be removed while the commit runs.
const HINTED: [(Call, bool); 9] = [
    (Call::Settle(7, None), true),
    (Call::Promoted(7, 0), true),
    (Call::Map(7, 0), true),
    (Call::Settle(7, None), true),
    (
        Call::Image(Some([false, false, false, false]), (1, 1, Some(Place(2)))),
        true,
    ),
    (Call::Entry(0, Some((7, false, 3))), true),
    (Call::Unmap(7), true),
    (Call::End, true),
    (Call::Reserve(Order::Promote(OBlock(8), CBlock(0))), false),
];

#[test]
fn a_clean_image_has_the_hints_of_the_policy(rt: HostRuntime) -> Result<(), Fail> {
    assert!(rt; are_answered_by::<TinyLfu>(rt.alloc(), Mode::Writeback, &HINTED)?);
    Ok(())
}

/// Block 0 comes into the first cache block and block 1 into the last, of 64 or of 32, and a commit is made. Then one mark writes
/// one leaf with the top above it, of the two leaves of 64 cache blocks; of 32 the one leaf.
const INTO_64: [(Call, bool); 7] = [
    (Call::Reserve(Order::Promote(OBlock(0), CBlock(0))), true),
    (Call::Reserve(Order::Promote(OBlock(1), CBlock(63))), true),
    (Call::Map(0, 0), true),
    (Call::Map(1, 63), true),
    (Call::Begin, true),
    (Call::End, true),
    (Call::Marked(2), true),
];

const INTO_32: [(Call, bool); 7] = [
    (Call::Reserve(Order::Promote(OBlock(0), CBlock(0))), true),
    (Call::Reserve(Order::Promote(OBlock(1), CBlock(31))), true),
    (Call::Map(0, 0), true),
    (Call::Map(1, 31), true),
    (Call::Begin, true),
    (Call::End, true),
    (Call::Marked(1), true),
];

/// Whether a clean image writes so many nodes that marks the last cache block dirty, and none of the others.
pub(super) fn writes_of_one_mark<P: Policy>(
    desk: &mut Desk<P>,
    alloc: Global,
    nodes: usize,
) -> Result<bool, Refusal> {
    let mut dirty = vec![in alloc; false; desk.geometry().cache_blocks as usize]?;
    if let Some(bit) = dirty.last_mut() {
        *bit = true;
    }
    let image = desk.begin_commit(alloc, Some(dirty.as_slice()))?;
    Ok(image.nodes.len() == nodes)
}

/// The calls of an empty cache of so many blocks for an origin of two, with metadata of this version.
fn are_answered_of(
    alloc: Global,
    version: u32,
    cache_blocks: u64,
    calls: &[(Call, bool)],
) -> Result<bool, Refusal> {
    let desk = empty::<Quiet>(alloc, version, cache_blocks, 2, Mode::Writeback)?;
    are_done_by(desk, alloc, calls, Tries::One)
}

#[test]
fn one_dirty_bit_writes_the_nodes_above_it(rt: HostRuntime) -> Result<(), Fail> {
    assert!(rt; are_answered_of(rt.alloc(), 1, 64, &INTO_64)?);
    assert!(rt; are_answered_of(rt.alloc(), 1, 32, &INTO_32)?);
    Ok(())
}

/// In the second version the bits of mapped blocks have a node beside the leaf, and the entry stays clean. No clean image follows
/// before another commit, which the node leaves.
const BESIDE: [(Call, bool); 13] = [
    (Call::Reserve(Order::Promote(OBlock(1), CBlock(0))), true),
    (Call::Map(1, 0), true),
    (
        Call::Image(Some([true, true, false, false]), (1, 2, Some(Place(2)))),
        true,
    ),
    (Call::Entry(0, Some((1, false, 0))), true),
    (Call::End, true),
    (Call::Commits(1, 4), true),
    (Call::Refused(Some([false; 4]), Refusal::Memory), true),
    (Call::Image(None, (2, 0, Some(Place(2)))), true),
    (Call::End, true),
    (Call::Commits(2, 3), true),
    (
        Call::Image(Some([true, false, false, false]), (3, 1, Some(Place(2)))),
        true,
    ),
    (Call::End, true),
    (Call::Commits(3, 4), true),
];

#[test]
fn a_clean_image_of_the_second_version_has_its_bits_beside(rt: HostRuntime) -> Result<(), Fail> {
    assert!(rt; are_answered_of(rt.alloc(), 2, 4, &BESIDE)?);
    Ok(())
}
