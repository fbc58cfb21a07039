//! Commits, and what waits for their end.

use super::{Call, are_answered};
use std::alloc::Global;
use std::test::Fail;
use wb_desk::Desk;
use wb_meta::Image;
use wb_policy::{Order, Policy};
use wb_space::Holding;
use wb_types::{CBlock, Mode, OBlock, Place, Refusal};

/// Whether a commit begins, with these dirty bits where they are given, whose image has this generation, so many nodes, and
/// the top of its tree here.
pub(super) fn has_image<P: Policy>(
    desk: &mut Desk<P>,
    alloc: Global,
    dirty: Option<[bool; 4]>,
    wanted: (u64, usize, Option<Place>),
) -> Result<bool, Refusal> {
    let image = begun(desk, alloc, dirty)?;
    let root = image.root;
    let nodes = image.nodes.len();
    Ok(root.clean == dirty.is_some() && (root.generation, nodes, root.top) == wanted)
}

/// The image of a commit that begins, with these dirty bits where they are given.
fn begun<P: Policy>(
    desk: &mut Desk<P>,
    alloc: Global,
    dirty: Option<[bool; 4]>,
) -> Result<Image, Refusal> {
    if desk.geometry().cache_blocks != 4 {
        return Err(Refusal::Range);
    }
    match &dirty {
        Some(bits) => desk.begin_commit(alloc, Some(bits)),
        None => desk.begin_commit(alloc, None),
    }
}

/// Whether no commit begins, for this reason, with these dirty bits where they are given.
pub(super) fn is_refused<P: Policy>(
    desk: &mut Desk<P>,
    alloc: Global,
    dirty: Option<[bool; 4]>,
    wanted: Refusal,
) -> bool {
    match begun(desk, alloc, dirty) {
        Ok(_) => false,
        Err(refusal) => refusal == wanted,
    }
}

/// The one leaf is written to the least free place, and has it from then on. After block 5 has come in it goes to the other
/// place, and after both went there is no node.
const FOLLOWING: [(Call, bool); 19] = [
    (Call::Image(None, (8, 1, Some(Place(2)))), true),
    (Call::Refused(None, Refusal::Busy), true),
    (Call::Commits(7, 2), true),
    (Call::End, true),
    (Call::Commits(8, 3), true),
    (Call::Image(None, (9, 0, Some(Place(2)))), true),
    (Call::End, true),
    (Call::Commits(9, 3), true),
    (Call::Reserve(Order::Promote(OBlock(5), CBlock(0))), true),
    (Call::Map(5, 0), true),
    (Call::Image(None, (10, 1, Some(Place(3)))), true),
    (Call::End, true),
    (Call::Commits(10, 3), true),
    (Call::Unmap(5), true),
    (Call::Unmap(3), true),
    (Call::Image(None, (11, 0, None)), true),
    (Call::Commits(10, 3), true),
    (Call::End, true),
    (Call::Commits(11, 2), true),
];

#[test]
fn commits_follow_on_each_other(rt: HostRuntime) -> Result<(), Fail> {
    assert!(rt; are_answered(rt.alloc(), 7, Mode::Writeback, &[], &FOLLOWING)?);
    Ok(())
}

const WORN: [(Call, bool); 2] = [
    (Call::Refused(None, Refusal::GenerationEnd), true),
    (Call::Commits(u64::MAX, 2), true),
];

#[test]
fn the_last_generation_has_no_next(rt: HostRuntime) -> Result<(), Fail> {
    assert!(rt; are_answered(rt.alloc(), u64::MAX, Mode::Writeback, &[], &WORN)?);
    Ok(())
}

const NEXT: Order = Order::Promote(OBlock(8), CBlock(1));

/// A block that is removed while a commit runs waits for the next one: no order takes its cache block before.
const WAITING: [(Call, bool); 10] = [
    (Call::Begin, true),
    (Call::Begin, false),
    (Call::Unmap(3), true),
    (Call::Reserve(NEXT), false),
    (Call::End, true),
    (Call::Reserve(NEXT), false),
    (Call::Begin, true),
    (Call::Reserve(NEXT), false),
    (Call::End, true),
    (Call::Reserve(NEXT), true),
];

#[test]
fn a_block_that_is_removed_while_a_commit_runs_waits_for_the_next(
    rt: HostRuntime,
) -> Result<(), Fail> {
    assert!(rt; are_answered(rt.alloc(), 7, Mode::Writeback, &[], &WAITING)?);
    Ok(())
}

const REPLACE: Order = Order::Replace(OBlock(3), OBlock(6), CBlock(1));

/// Block 3 makes way for block 6 in cache block 1: which comes in once a commit has ended that began after block 3 went,
/// whoever asked for it. No one else gets the cache block meanwhile.
const REPLACED: [(Call, bool); 23] = [
    (Call::Reserve(REPLACE), true),
    (Call::Holds(1, Holding::Mapped), true),
    (Call::Stands(3, Some(1)), true),
    (Call::Stands(6, None), true),
    (Call::Stands(10, None), true),
    (Call::Begin, true),
    (Call::Unmap(6), false),
    (Call::Unmap(3), true),
    (Call::End, true),
    // that commit had begun before
    (Call::Map(6, 1), false),
    (Call::Holds(1, Holding::Quarantined), true),
    (Call::Begin, true),
    (Call::Map(6, 1), false),
    (Call::End, true),
    (Call::Holds(1, Holding::Reserved), true),
    (Call::Holds(0, Holding::Free), true),
    (Call::Reserve(NEXT), false),
    (Call::Map(3, 1), false),
    (Call::Map(6, 1), true),
    (Call::Stands(6, Some(1)), true),
    (Call::Release(REPLACE), false),
    (Call::Unmap(6), true),
    (Call::Entries(0, 1, 2), true),
];

/// A replacement that is given up after its victim went: the cache block is free after the commit.
const GIVEN_UP: [(Call, bool); 8] = [
    (Call::Reserve(REPLACE), true),
    (Call::Unmap(3), true),
    (Call::Release(REPLACE), true),
    (Call::Map(6, 1), false),
    (Call::Reserve(NEXT), false),
    (Call::Begin, true),
    (Call::End, true),
    (Call::Reserve(NEXT), true),
];

#[test]
fn a_replacement_goes_on_after_a_commit(rt: HostRuntime) -> Result<(), Fail> {
    assert!(rt; are_answered(rt.alloc(), 7, Mode::Writeback, &[], &REPLACED)?);
    assert!(rt; are_answered(rt.alloc(), 7, Mode::Writeback, &[], &GIVEN_UP)?);
    Ok(())
}
