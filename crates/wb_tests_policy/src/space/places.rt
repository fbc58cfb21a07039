//! Which metadata places are free.

use super::{Question, answered, begin, end, space_of};
use std::alloc::Global;
use std::test::Fail;
use wb_space::{Space, left_of, place_count};
use wb_types::{Geometry, Place, Refusal};

/// Whether the so many least free places are these.
fn finds(alloc: Global, space: &Space, n: usize, want: &[Place]) -> bool {
    match space.free_places(alloc, n) {
        Ok(found) => are(found.as_slice(), want),
        Err(_) => false,
    }
}

fn are(found: &[Place], want: &[Place]) -> bool {
    found == want
}

/// Whether these are all the free places, and each number of them the least.
pub(super) fn finds_each(alloc: Global, space: &Space, want: &[Place]) -> bool {
    for n in 0..want.len() {
        if !finds(alloc, space, n, &want[..n]) {
            return false;
        }
    }
    finds(alloc, space, 100, want)
}

#[test]
fn the_least_free_places_rise(rt: HostRuntime) -> Result<(), Fail> {
    let used = [Place(3), Place(4)];
    let want = [Place(2), Place(5), Place(6), Place(7)];
    let space = space_of(rt.alloc(), 33, false, &used);
    assert!(rt; answered(rt.alloc(), space, Question::Finds(&want))?);
    Ok(())
}

/// A commit: the places of its image, and what is free while it runs and after its end.
pub(super) type Commit = (&'static [Place], &'static [Place], &'static [Place]);

// A cache of 33 blocks has a tree of three nodes, so places up to 7 can ever be handed out.
const COMMITS: [Commit; 4] = [
    (
        &[Place(2), Place(4), Place(8)],
        &[Place(5), Place(7)],
        &[Place(3), Place(5), Place(6), Place(7)],
    ),
    (
        &[Place(3), Place(4)],
        &[Place(5), Place(6), Place(7)],
        &[Place(2), Place(5), Place(6), Place(7)],
    ),
    (
        &[Place(7)],
        &[Place(2), Place(5), Place(6)],
        &[Place(2), Place(3), Place(4), Place(5), Place(6)],
    ),
    (
        &[],
        &[Place(2), Place(3), Place(4), Place(5), Place(6)],
        &[Place(2), Place(3), Place(4), Place(5), Place(6), Place(7)],
    ),
];

/// Whether each commit leaves free what its row says.
pub(super) fn frees(alloc: Global, space: &mut Space, commits: &[Commit]) -> bool {
    for (used, running, after) in commits {
        let ran = begin(space, used) && finds(alloc, space, 9, running);
        if !ran || !end(space) || !finds(alloc, space, 9, after) {
            return false;
        }
    }
    true
}

#[test]
fn places_are_free_where_no_image_uses_them(rt: HostRuntime) -> Result<(), Fail> {
    let used = [Place(3), Place(6), Place(9)];
    let space = space_of(rt.alloc(), 33, false, &used);
    assert!(rt; answered(rt.alloc(), space, Question::Frees(&COMMITS))?);
    Ok(())
}

/// Whether the image that begins is the committed one without place 6, which left it, and with place 2.
fn is_told(alloc: Global) -> Result<bool, Refusal> {
    let geometry = Geometry::new(64, 33, 1_048_576, 4_294_967_295)?;
    let used = [Place(3), Place(6)];
    let mut left = left_of(alloc, place_count(&geometry), &used, &[Place(3)])?;
    let mut space = Space::new(alloc, &geometry, &[false; 33], &used)?;
    space.begin_changed(&mut left, &[(Place(2), true)]);
    Ok(left.least() == None && goes_on(alloc, &mut space))
}

/// What is free while that image is written, and behind it.
fn goes_on(alloc: Global, space: &mut Space) -> bool {
    finds(alloc, space, 9, &[Place(4), Place(5), Place(7)])
        && end(space)
        && finds(alloc, space, 9, &[Place(4), Place(5), Place(6), Place(7)])
}

#[test]
fn a_commit_is_told_what_changed(rt: HostRuntime) -> Result<(), Fail> {
    assert!(rt; is_told(rt.alloc())?);
    Ok(())
}

/// How many places are free.
fn count(alloc: Global, space: &Space) -> Result<usize, Refusal> {
    let free = space.free_places(alloc, usize::MAX)?;
    Ok(free.len())
}

/// Whether this is the least free place, of so many.
pub(super) fn begins_with(alloc: Global, space: &Space, least: Place, places: usize) -> bool {
    match count(alloc, space) {
        Ok(count) => count == places && finds(alloc, space, 1, &[least]),
        Err(_) => false,
    }
}

// The nodes of the largest cache are 32,768, 1,024, 32 and the top: twice as many places, less two.
#[test]
fn places_of_the_largest_cache(rt: HostRuntime) -> Result<(), Fail> {
    let used = [Place(2), Place(67_651)];
    let space = space_of(rt.alloc(), 1_048_575, false, &used);
    assert!(rt; answered(rt.alloc(), space, Question::BeginsWith(Place(3), 67_648))?);
    Ok(())
}

/// A cache of so many blocks, with metadata of this version, and how many places can ever be handed out.
type Sizes = (u64, u32, usize);

// By the nodes of a full mapping, twice, and of its dirty bits: 3 and 1 of 33 blocks, 69 and 3 of 2,049.
const SIZES: [Sizes; 4] = [(33, 1, 8), (33, 2, 9), (2_049, 1, 140), (2_049, 2, 143)];

/// Whether each cache has so many places.
fn have_places(sizes: &[Sizes]) -> Result<bool, Refusal> {
    for (blocks, version, places) in sizes {
        let geometry = Geometry::with_version(64, *blocks, 1_048_576, 4_294_967_295, *version)?;
        if place_count(&geometry) != *places {
            return Ok(false);
        }
    }
    Ok(true)
}

#[test]
fn the_second_version_has_places_for_dirty_bits(rt: HostRuntime) -> Result<(), Fail> {
    assert!(rt; have_places(&SIZES)?);
    Ok(())
}

/// Whether so many free places are listed, or want of memory is told, which leaves the places as they were.
pub(super) fn lists_or_tells(alloc: Global, space: &Space, places: usize) -> bool {
    match count(alloc, space) {
        Ok(count) => count == places,
        Err(refusal) => refusal == Refusal::Memory && finds(alloc, space, 1, &[Place(2)]),
    }
}

/// Whether each call that takes memory gets it or tells that there is none.
fn gets_or_tells(alloc: Global) -> bool {
    let space = space_of(alloc, 65, false, &[]);
    match answered(alloc, space, Question::ListsOrTells(8)) {
        Ok(answer) => answer,
        Err(refusal) => refusal == Refusal::Memory,
    }
}

// Run with each allocation failing in turn.
#[test]
fn refused_memory_is_told(rt: HostRuntime) {
    assert!(rt; gets_or_tells(rt.alloc()));
}
