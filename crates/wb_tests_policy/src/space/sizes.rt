//! The least free block, up to where words of bits and the words above them are full.

use super::{Question, answered, begin, end, is_held, map, remove, reserve, space_of};
use std::alloc::Global;
use wb_space::{Holding, Space};
use wb_types::CBlock;

/// Whether this is the least free block.
fn is_least(space: &Space, c: u32) -> bool {
    match space.least_free() {
        Some(CBlock(least)) => least == c,
        None => false,
    }
}

/// Reserves and maps the least free block, which has to be this one.
fn takes(space: &mut Space, c: u32) -> bool {
    is_least(space, c) && reserve(space, c) && map(space, c)
}

/// Takes all blocks, the least first.
fn takes_all(space: &mut Space) -> bool {
    for c in 0..space.cache_blocks() {
        if !takes(space, c) {
            return false;
        }
    }
    space.least_free() == None
}

/// Removes all blocks, every third one kept.
fn removes_all(space: &mut Space) -> bool {
    for c in 0..space.cache_blocks() {
        if !remove(space, c, c % 3 == 1) {
            return false;
        }
    }
    space.least_free() == None
}

/// Every third block is reserved, any other free.
fn is_freed(space: &Space) -> bool {
    for c in 0..space.cache_blocks() {
        let shown = if c % 3 == 1 {
            Holding::Reserved
        } else {
            Holding::Free
        };
        if !is_held(space, c, shown) {
            return false;
        }
    }
    true
}

/// Whether all blocks can be taken, removed and freed.
pub(super) fn serves(space: &mut Space) -> bool {
    let taken = takes_all(space) && removes_all(space);
    taken && begin(space, &[]) && end(space) && is_freed(space)
}

/// Whether so many can.
fn serve(alloc: Global, blocks: u32) -> bool {
    let space = space_of(alloc, blocks, false, &[]);
    answered(alloc, space, Question::Serves) == Ok(true)
}

#[test]
fn every_block_is_found_in_turn(rt: HostRuntime) {
    for blocks in [1, 2, 63, 64, 65, 4_095, 4_096, 4_097] {
        assert!(rt; serve(rt.alloc(), blocks), "of {blocks} blocks");
    }
}

#[test]
fn every_block_of_the_largest_cache_is_found_in_turn(rt: HostRuntime) {
    assert!(rt; serve(rt.alloc(), 1_048_575));
}

/// Frees a block, after which this one has to be the least free.
fn frees_one(space: &mut Space, c: u32, least: u32) -> bool {
    let freed = remove(space, c, false) && begin(space, &[]) && end(space);
    freed && is_least(space, least)
}

pub(super) fn frees_each(space: &mut Space, freed: &[(u32, u32)]) -> bool {
    for (c, least) in freed {
        if !frees_one(space, *c, *least) {
            return false;
        }
    }
    true
}

/// Whether blocks of a full cache that are freed one after the other are the least free ones by turns.
fn frees(alloc: Global, blocks: u32, freed: &[(u32, u32)]) -> bool {
    let space = space_of(alloc, blocks, true, &[]);
    answered(alloc, space, Question::FreesEach(freed)) == Ok(true)
}

// Each row frees a block, and names the least free one then.
#[test]
fn the_least_free_block_after_a_mixed_run(rt: HostRuntime) {
    let table: [(u32, &[(u32, u32)]); 5] = [
        (1, &[(0, 0)]),
        (63, &[(62, 62), (0, 0)]),
        (64, &[(63, 63), (1, 1), (62, 1), (0, 0)]),
        (65, &[(64, 64), (63, 63), (0, 0)]),
        (
            1_048_575,
            &[
                (1_048_574, 1_048_574),
                (4_096, 4_096),
                (262_144, 4_096),
                (64, 64),
                (4_095, 64),
            ],
        ),
    ];
    for (blocks, freed) in table {
        assert!(rt; frees(rt.alloc(), blocks, freed), "of {blocks} blocks");
    }
}
