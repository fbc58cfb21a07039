//! Rounds over one device: commits, an opening, and a commit again.

ghost use Rattle.std.specs.Prelude.{◌≡◌, ◌≤◌, ◌<◌, ◌+◌, ℕ, All, false, true, Contains, List, [], IfOk, IsTrue, OnOk, length, map};
ghost use Rattle.std.specs.List.{range_with_len};
ghost use Rattle.wb_types.specs.declared.number.Place.{Place as PlaceValue};
ghost use Rattle.wb_tree.specs.Mapping.{AreInside, IsMapping, IsPlaceOf, IsSound};
ghost use Rattle.wb_tree.specs.Edits.{IsEdited};
ghost use Rattle.wb_meta.specs.Placing.{HavePlaces};

use super::cycle::{commit_changes, is_read};
use std::alloc::Global;
use std::test::Fail;
use wb_disk::{Disk, MemDisk};
use wb_meta::{CommitSteps, Image, format, opening_image, read_state};
use wb_tree::Tree;
use wb_types::{CBlock, Dev, Entry, Geometry, OBlock, Place, Refusal};

/// So many places, from one on.
fn places_from(alloc: Global, first: u32, count: u32) -> Result<Vec<Place>, Refusal>
    requires { first + count < 1000 }
    ensures { IfOk result (λ places. places.items
        ≡ map (λ number. record { 0 = number }) (range_with_len first count)) }
{
    let places = (first..first + count)
        .map(|number| Place(number))
        .collect(alloc)?;
    Ok(places)
}

/// Whether all places are outside of these.
fn are_outside(places: &[Place], first: u32, end: u32) -> bool
    ensures { IsTrue result → All (λ place. first ≤ place.0 → end ≤ place.0) places.now }
{
    places.iter().all(|place| place.0 < first || place.0 >= end)
}

/// The entry of a cache block for the origin block of its own number.
pub(super) fn entry_of(block: u32, hint: u8) -> Entry {
    Entry {
        origin: OBlock(block),
        dirty: false,
        hint,
    }
}

/// Whether each entry is for the origin block of its own number, with a hint of 16 at most.
fn is_own(tree: &Tree<Global>, blocks: u32) -> bool
    requires { length tree.now.entries ≡ blocks }
    ensures { IsTrue result → (origin_blocks : ℕ) → blocks ≤ origin_blocks
        → IsMapping blocks origin_blocks tree.now.entries }
{
    for block in 0..blocks {
        if let Some(entry) = tree.get(CBlock(block)) {
            if entry.origin.0 != block || entry.hint > 16 {
                return false;
            }
        }
    }
    true
}

/// Gives a cache block an entry for the origin block of its own number. `Range` where there is no such block.
pub(super) fn change(
    tree: &mut Tree<Global>,
    geometry: &Geometry,
    block: u32,
    hint: u8,
) -> Result<(), Refusal>
    requires { length tree.old.entries ≡ geometry.now.cache_blocks }
    ensures size { OnOk result (length tree.new.entries ≡ geometry.now.cache_blocks) }
    ensures edited { IsEdited tree.old tree.new }
    ensures sound { OnOk result (IsSound tree.new) }
{
    if block >= geometry.cache_blocks {
        return Err(Refusal::Range);
    }
    tree.set(CBlock(block), entry_of(block, hint))
}

/// The image of a generation with so many free places from one on. `Busy` where they are too few, or one of them is
/// used, `BadTable` where an entry is for another origin block.
pub(super) fn plan_at(
    alloc: Global,
    tree: &mut Tree<Global>,
    geometry: &Geometry,
    generation: u64,
    used: &[Place],
    free: (u8, u8),
) -> Result<Image, Refusal>
    requires size { length tree.old.entries ≡ geometry.now.cache_blocks }
    requires used { (place : PlaceValue) → IsPlaceOf tree.old place → Contains used.now place }
    requires inside { AreInside geometry.now.meta_sectors tree.old }
    ensures size { OnOk result (length tree.new.entries ≡ geometry.now.cache_blocks) }
    ensures inside { AreInside geometry.now.meta_sectors tree.new }
    ensures fits { IfOk result (λ image. HavePlaces image.nodes.items geometry.now.meta_sectors) }
    ensures geometry { IfOk result (λ image. image.root.geometry ≡ geometry.now) }
{
    let first = u32::from(free.0);
    let count = u32::from(free.1);
    if first < 2 || count < tree.changed_nodes() || geometry.meta_sectors < first + count {
        return Err(Refusal::Busy);
    }
    if !are_outside(used, first, first + count) {
        return Err(Refusal::Busy);
    }
    if geometry.cache_blocks > geometry.origin_blocks || !is_own(tree, geometry.cache_blocks) {
        return Err(Refusal::BadTable);
    }
    let places = places_from(alloc, first, count)?;
    tree.plan(alloc, geometry, generation, true, &places)
}

/// An opening: synced and read, and then a root of the next generation over the same tree, without a node and without the
/// sync before it.
fn reopen(alloc: Global, disk: &mut MemDisk) -> Result<(), Refusal> {
    disk.sync().map_err(|_| Refusal::Io(Dev::Metadata))?;
    let state = read_state(alloc, alloc, disk)?;
    let image = opening_image(alloc, &state.root)?;
    let mut steps = CommitSteps::root_alone();
    steps.next(disk, &image)?;
    steps.next(disk, &image)
}

/// Whether each of three rounds over a formatted device, whose images have so many nodes, is read behind it: two commits, an
/// opening, and another commit.
fn go_round(alloc: Global, disk: &mut MemDisk, nodes: u8) -> Result<bool, Refusal> {
    commit_changes(alloc, disk, &[(0, 1)], (2, nodes))?;
    let second = (nodes.saturating_add(2), nodes);
    commit_changes(alloc, disk, &[(0, 2)], second)?;
    let begins = is_read(alloc, disk, &[(0, 2)])? == (2, true);
    reopen(alloc, disk)?;
    let opens = is_read(alloc, disk, &[(0, 2)])? == (3, true);
    commit_changes(alloc, disk, &[(0, 3)], (2, nodes))?;
    Ok(begins && opens && is_read(alloc, disk, &[(0, 3)])? == (4, true))
}

/// The same of a device for so many blocks.
fn rounds_follow(alloc: Global, blocks: u64, nodes: u8) -> Result<bool, Refusal> {
    let sectors = 2 + 2 * u64::from(nodes);
    let geometry = Geometry::new(64, blocks, blocks, sectors)?;
    let mut disk = MemDisk::new(alloc, sectors)?;
    format(&mut disk, &geometry)?;
    go_round(alloc, &mut disk, nodes)
}

#[test]
fn rounds_follow_one_another(rt: HostRuntime) -> Result<(), Fail> {
    for (blocks, nodes) in [(1u64, 1u8), (40, 3), (2_000, 66)] {
        assert!(rt; rounds_follow(rt.alloc(), blocks, nodes)?);
    }
    Ok(())
}
