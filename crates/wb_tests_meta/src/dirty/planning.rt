//! Which nodes store sets of dirty blocks, and what is read of them again.

ghost use Rattle.std.specs.Prelude.{◌≡◌, ◌≤◌, ◌<◌, ◌+◌, ◌^◌, ℕ, IfOk, length, map, Some, slice_get};
ghost use Rattle.std.specs.List.{range_with_len};
ghost use Rattle.wb_types.specs.declared.number.Place.{Place as At};

use crate::dirty::blocks::{Blocks, set_of};
use crate::dirty::root::root_of;
use std::alloc::Global;
use wb_bits::BitSet;
use wb_dirty::{DirtyLoader, DirtyPlan, dirty_nodes_of, plan_dirty};
use wb_format::Node;
use wb_types::{Place, Refusal, SECTOR_BYTES, Version};

/// The mapping's nodes stand at these places.
const BEFORE: [Place; 2] = [Place(2), Place(3)];

/// The free places: 60 from the fourth sector on.
fn free_places(alloc: Global) -> Result<Vec<Place>, Refusal>
    ensures many { IfOk result (λ places. length places.items ≡ 60) }
    ensures behind { IfOk result (λ places. (i : ℕ) (place : At) → slice_get places.items i ≡ Some place → 2 ≤ place.0) }
{
    let places = numbered_places(alloc)?;
    Ok(places)
}

/// The 60 places from the fourth sector on.
fn numbered_places(alloc: Global) -> Result<Vec<Place>, Refusal>
    ensures { IfOk result (λ places. places.items ≡ map (λ number. record { 0 = number }) (range_with_len 4 60)) }
{
    let places = (4..64u32).map(|number| Place(number)).collect(alloc)?;
    Ok(places)
}

/// The plan of generation 3 of a set of dirty blocks. `Busy` where there are too few free places.
fn plan_of(alloc: Global, dirty: &BitSet) -> Result<DirtyPlan, Refusal>
    requires { length dirty.now < 2 ^ 20 }
{
    if dirty_nodes_of(dirty) > 60 {
        return Err(Refusal::Busy);
    }
    let free = free_places(alloc)?;
    plan_dirty(alloc, dirty, 3, &free)
}

/// The node that the sector at this place spells, where one of these was written there.
fn spelled_at(nodes: &[(Place, Node)], place: Place) -> Option<Node> {
    let node = nodes.iter().find(|node| node.0 == place)?;
    let mut sector = [0; SECTOR_BYTES];
    node.1.write(&mut sector);
    Node::read(&sector, Version::Two)
}

/// What is read of the nodes of a plan, by a root of so many cache blocks, each of which has an entry.
fn read_of(alloc: Global, cache_blocks: u32, plan: &DirtyPlan) -> Result<BitSet, Refusal> {
    let top = match plan.top {
        Some(Place(number)) => number,
        None => 0,
    };
    let Some(root) = root_of(cache_blocks, top) else {
        return Err(Refusal::NotFormatted);
    };
    let mapped = set_of(alloc, root.geometry.cache_blocks, Blocks::All)?;
    let mut loader = DirtyLoader::new(alloc, &root, mapped, &BEFORE)?;
    for _ in 0..100 {
        let Some(wanted) = loader.wanted() else {
            return Ok(loader.finish());
        };
        loader = loader.tell(spelled_at(&plan.nodes, wanted))?;
    }
    Err(Refusal::Busy)
}

/// Whether two sets have the same members.
fn are_same(one: &BitSet, other: &BitSet) -> bool {
    one.size() == other.size() && (0..one.size()).all(|block| one.has(block) == other.has(block))
}

/// How many nodes store these blocks of so many, once they are read again. `Damaged` at the first slot where others are read.
fn stored_by(alloc: Global, size: u32, blocks: Blocks) -> Result<usize, Refusal>
    requires { size < 2 ^ 20 }
{
    let dirty = set_of(alloc, size, blocks)?;
    let plan = plan_of(alloc, &dirty)?;
    let read = read_of(alloc, size, &plan)?;
    if are_same(&dirty, &read) && plan.nodes.len() == dirty_nodes_of(&dirty) as usize {
        Ok(plan.nodes.len())
    } else {
        Err(Refusal::Damaged(Place(0)))
    }
}

#[test]
fn dirty_blocks_are_read_again(rt: HostRuntime) {
    let alloc = rt.alloc();
    for (size, counts) in [
        (5, [0, 1, 1, 1, 1]),
        (33, [0, 1, 1, 1, 1]),
        (2048, [0, 1, 1, 1, 1]),
        (2049, [0, 2, 2, 3, 3]),
        (70_000, [0, 3, 3, 38, 38]),
    ] {
        let sets = [
            Blocks::None,
            Blocks::One(3),
            Blocks::Last,
            Blocks::Every64th,
            Blocks::All,
        ];
        for (blocks, count) in sets.into_iter().zip(counts) {
            assert!(rt; stored_by(alloc, size, blocks) == Ok(count));
        }
    }
}

/// The words of the only node that stores one dirty block of 68.
fn words_of_one(alloc: Global, block: usize) -> Result<[u64; 32], Refusal> {
    let dirty = set_of(alloc, 68, Blocks::One(block))?;
    let plan = plan_of(alloc, &dirty)?;
    match plan.nodes.first() {
        Some((Place(4), leaf)) => Ok(leaf.words),
        _ => Err(Refusal::Busy),
    }
}

#[test]
fn the_bit_of_a_block(rt: HostRuntime) {
    let alloc = rt.alloc();
    for (block, word, bit) in [
        (0, 0, 1),
        (1, 0, 2),
        (63, 0, 1 << 63),
        (64, 1, 1),
        (67, 1, 8),
    ] {
        let mut words = [0; 32];
        words[word] = bit;
        assert!(rt; words_of_one(alloc, block) == Ok(words));
    }
}

/// The first bytes of the words of the only node that stores the first block of five.
fn bytes_of_first(alloc: Global) -> Result<[u8; 8], Refusal> {
    let dirty = set_of(alloc, 5, Blocks::One(0))?;
    let plan = plan_of(alloc, &dirty)?;
    let mut sector = [0; SECTOR_BYTES];
    if let Some(leaf) = plan.nodes.first() {
        leaf.1.write(&mut sector);
    }
    let mut bytes = [0; 8];
    for k in 0..8 {
        bytes[k] = sector[32 + k];
    }
    Ok(bytes)
}

#[test]
fn the_first_word_of_a_leaf(rt: HostRuntime) {
    let alloc = rt.alloc();
    assert!(rt; bytes_of_first(alloc) == Ok([1, 0, 0, 0, 0, 0, 0, 0]));
}

/// Of each of three nodes that store all of 2,049 blocks the place, the level, the index and the first two words, if there are so many.
fn nodes_of_two_leaves(alloc: Global) -> Result<[(u32, u32, u32, u64, u64); 3], Refusal> {
    let dirty = set_of(alloc, 2049, Blocks::All)?;
    let plan = plan_of(alloc, &dirty)?;
    let mut told = [(0, 0, 0, 0, 0); 3];
    for (k, node) in plan.nodes.iter().enumerate() {
        if k < 3 {
            let words = node.1.words;
            told[k] = (node.0.0, node.1.level, node.1.index, words[0], words[1]);
        }
    }
    Ok(told)
}

#[test]
fn children_come_before_their_parent(rt: HostRuntime) {
    let alloc = rt.alloc();
    let all = u64::MAX;
    assert!(rt;
        nodes_of_two_leaves(alloc) == Ok([(4, 1, 0, all, all), (5, 1, 1, 1, 0), (6, 2, 0, 4, 5)])
    );
}
