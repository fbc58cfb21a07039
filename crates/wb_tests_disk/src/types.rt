//! Sizes at their limits, and what a user reads of a refusal.

use std::test::Fail;
use wb_types::*;

/// The sectors of a block, the cache's blocks, the origin's, and the sectors of the metadata.
type Sizes = [u64; 4];

/// The nodes of a full cache: 32,768 leaves of 32 blocks, 1,024 nodes above them, then 32, then the top.
const NODES: u64 = 32_768 + 1_024 + 32 + 1;

const REFUSED: [Sizes; 13] = [
    [96, 1, 1, 4],
    [32, 1, 1, 4],
    [2_097_216, 1, 1, 4],
    // two images have to fit
    [64, 33, 33, 7],
    [64, 1_048_575, 1_048_576, 1 + 2 * NODES],
    [64, 0, 1, 4],
    [64, 1, 0, 4],
    [64, 1_048_576, 1, 100_000],
    [64, 1, 1_048_577, 4],
    [64, 1, 1, 3],
    [64, 1, 1, 4_294_967_296],
    [0, 1, 1, 4],
    [u64::MAX, u64::MAX, u64::MAX, u64::MAX],
];

fn is_refused([block, cache, origin, metadata]: Sizes) -> bool {
    matches!(
        Geometry::new(block, cache, origin, metadata),
        Err(Refusal::Geometry)
    )
}

#[test]
fn sizes_past_a_limit_are_refused(rt: HostRuntime) {
    for sizes in REFUSED {
        assert!(rt; is_refused(sizes));
    }
}

#[test]
fn sizes_at_their_limits_are_taken(rt: HostRuntime) -> Result<(), Fail> {
    let greatest = Geometry::new(2_097_152, 1, 1, 4_294_967_295)?;
    assert!(rt; greatest.block == 2_097_152 && greatest.meta_sectors == 4_294_967_295);
    let two = Geometry::new(64, 33, 33, 8)?;
    assert!(rt; two.depth() == 2 && two.node_count() == 3);
    let full = Geometry::new(64, 1_048_575, 1_048_576, 2 + 2 * NODES)?;
    assert!(rt; full.depth() == 4 && u64::from(full.node_count()) == NODES);
    assert!(rt; full.origin_sectors() == 67_108_864 && full.cache_sectors() == 67_108_800);
    Ok(())
}

/// The cache's blocks; the levels and nodes of their dirty bits; the least sectors of metadata of each version.
const ROOMS: [(u64, [u32; 2], [u64; 2]); 7] = [
    (1, [1, 1], [4, 5]),
    (33, [1, 1], [8, 9]),
    (2_048, [1, 1], [136, 137]),
    (2_049, [2, 3], [140, 143]),
    (65_536, [2, 33], [4_232, 4_265]),
    (65_537, [3, 36], [4_238, 4_274]),
    (1_048_575, [3, 529], [2 + 2 * NODES, 2 + 2 * NODES + 529]),
];

/// Whether a geometry of this version has these levels and nodes of dirty bits on so many sectors, and none is had on fewer.
fn has_room(cache: u64, [depth, nodes]: [u32; 2], least: u64, version: u32) -> bool {
    let Ok(geometry) = Geometry::with_version(64, cache, cache, least, version) else {
        return false;
    };
    let more = if version == 2 { nodes } else { 0 };
    geometry.version.number() == version
        && geometry.dirty_depth() == depth
        && geometry.dirty_node_count() == nodes
        && geometry.most_nodes(false) == geometry.node_count()
        && geometry.most_nodes(true) == geometry.node_count() + more
        && matches!(
            Geometry::with_version(64, cache, cache, least - 1, version),
            Err(Refusal::Geometry)
        )
}

#[test]
fn each_version_has_its_room(rt: HostRuntime) {
    for (cache, dirty, [first, second]) in ROOMS {
        assert!(rt; has_room(cache, dirty, first, 1));
        assert!(rt; has_room(cache, dirty, second, 2));
    }
}

#[test]
fn versions_are_two(rt: HostRuntime) {
    for version in [0, 3, 256, u32::MAX] {
        let other = Geometry::with_version(64, 4, 10, 5, version);
        assert!(rt; matches!(other, Err(Refusal::Geometry)));
    }
}

/// Each refusal as a user reads it.
const TEXTS: [&(Refusal, u8, &str); 19] = [
    &(Refusal::Range, 1, "1 Range"),
    &(Refusal::Crosses, 2, "2 Crosses"),
    &(Refusal::Busy, 3, "3 Busy"),
    &(Refusal::Defer, 4, "4 Defer"),
    &(Refusal::Io(Dev::Metadata), 5, "5 Io metadata"),
    &(Refusal::Io(Dev::Cache), 5, "5 Io cache"),
    &(Refusal::Io(Dev::Origin), 5, "5 Io origin"),
    &(Refusal::Failed, 6, "6 Failed"),
    &(Refusal::Memory, 7, "7 Memory"),
    &(Refusal::Worn, 8, "8 Worn"),
    &(Refusal::Geometry, 9, "9 Geometry"),
    &(Refusal::NotFormatted, 10, "10 NotFormatted"),
    &(Refusal::Damaged(Place(3)), 11, "11 Damaged 3"),
    &(Refusal::Mismatch, 12, "12 Mismatch"),
    &(Refusal::NotClean, 13, "13 NotClean"),
    &(Refusal::BadMessage, 14, "14 BadMessage"),
    &(Refusal::WrongMode, 15, "15 WrongMode"),
    &(Refusal::BadTable, 16, "16 BadTable"),
    &(Refusal::GenerationEnd, 17, "17 GenerationEnd"),
];

#[test]
fn a_refusal_shows_its_number_and_name(rt: HostRuntime) -> Result<(), Fail> {
    for row in TEXTS {
        let (refusal, number, text) = *row;
        let shown = format!(in rt.alloc(); "{refusal}")?;
        assert!(rt; shown.as_str() == text);
        assert!(rt; refusal.number() == number && refusal.is_busy() == (number == 3));
    }
    Ok(())
}

#[test]
fn words_of_the_trade_show_as_users_write_them(rt: HostRuntime) -> Result<(), Fail> {
    for (mode, text) in [
        (Mode::Writeback, "writeback"),
        (Mode::Writethrough, "writethrough"),
        (Mode::Passthrough, "passthrough"),
    ] {
        let shown = format!(in rt.alloc(); "{mode}")?;
        assert!(rt; shown.as_str() == text);
    }
    let (sector, block, cached) = (Sector(640), OBlock(10), CBlock(3));
    let shown = format!(in rt.alloc(); "{sector} {block} {cached}")?;
    assert!(rt; shown.as_str() == "640 10 3");
    Ok(())
}

#[test]
fn ranges_of_blocks_come_back_as_they_went_in(rt: HostRuntime) -> Result<(), Fail> {
    let first = CBlockRange {
        begin: CBlock(1),
        end: CBlock(3),
    };
    let ranges = CBlockRanges::new(vec![in rt.alloc(); first]?);
    assert!(rt; ranges.as_slice() == [first].as_slice());
    let back = ranges.into_vec();
    assert!(rt; back.as_slice() == [first].as_slice());
    Ok(())
}
