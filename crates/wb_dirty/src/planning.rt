//! The nodes that store which cache blocks are dirty.

ghost use Rattle.std.specs.Prelude.{◌≡◌, ◌≢◌, ◌≤◌, ◌<◌, ◌+◌, ◌-◌, ◌*◌, ◌^◌, ◌++◌, ◌==◌, ℕ, true, false, Some, IfOk, OnOk, IfErr, get_or, length, slice_get, slice_index};
ghost use Rattle.std.specs.Int.{bit_at};
ghost use Rattle.wb_types.specs.declared.number.Place.{Place as At};
ghost use Rattle.wb_types.specs.declared.refusal.Refusal.TheVariants.{Memory as OutOfMemory};
ghost use Rattle.wb_types.specs.Limits.{dirty_depth_of};
ghost use Rattle.wb_bits.specs.BitWords.{is_member};
ghost use Rattle.wb_format.specs.NodeWords.{IsNodeWord};
ghost use Rattle.wb_tree.specs.Mapping.{each_from};
ghost use Rattle.wb_tree.specs.Planning.{names};
ghost use Rattle.wb_dirty.specs.Planning.{has_dirty, dirty_below, dirty_names, IsPlaceIfNeeded, IsNamedBy, ArePlanned, Continues, IsDirtyPlan};

use std::alloc::Global;
use wb_bits::BitSet;
use wb_format::Node;
use wb_tree::{number_of, put_node};
use wb_types::{Place, Refusal};

/// The nodes of dirty bits that a clean image writes, in the order of an image, each with its place, and the place of their top;
/// none where no block is dirty.
#[derive(Drop)]
pub struct DirtyPlan {
    pub nodes: Vec<(Place, Node)>,
    pub top: Option<Place>,
}

/// What the nodes are made of.
#[derive(Drop)]
struct Planning<'a> {
    dirty: &'a BitSet,
    generation: u64,
    /// Where the nodes go, one after the other.
    free: &'a [Place],
}

/// The nodes that store this set of dirty blocks, at the first of the free places. `Memory` where there is no room for them.
pub fn plan_dirty(
    global: Global,
    dirty: &BitSet,
    generation: u64,
    free: &[Place],
) -> Result<DirtyPlan, Refusal>
    requires few { length dirty.now ≤ 1048576 }
    requires enough { length (dirty_names dirty.now) ≤ length free.now }
    requires behind { (i : ℕ) (place : At) → slice_get free.now i ≡ Some place → 2 ≤ place.0 }
    ensures plan { IfOk result (IsDirtyPlan dirty.now generation free.now) }
    ensures refused { IfErr result (λ refusal. refusal ≡ OutOfMemory) }
{
    let plan = Planning {
        dirty,
        generation,
        free,
    };
    let mut nodes = Vec::new(global);
    let top = plan_node(&plan, depth(dirty.size()), 0, &mut nodes)?;
    Ok(DirtyPlan { nodes, top })
}

/// The levels of the tree of dirty bits of so many cache blocks.
pub(crate) fn depth(cache_blocks: usize) -> u32
    requires { cache_blocks ≤ 1048576 }
    ensures value { result ≡ dirty_depth_of cache_blocks }
    ensures from { 1 ≤ result }
    ensures to { result ≤ 3 }
{
    if cache_blocks <= 2048 {
        1
    } else if cache_blocks <= 65_536 {
        2
    } else {
        3
    }
}

/// Adds the nodes at and below a node that have a dirty block below them, children rising, each before its parent, with the first of the
/// free places, and gives the place of the node itself; none where no dirty block lies below it. `Memory` where there is no room.
#[cycle(nodes)]
fn plan_node(
    plan: &Planning,
    level: u32,
    index: u32,
    nodes: &mut Vec<(Place, Node)>,
) -> Result<Option<Place>, Refusal>
    requires few { length plan.now.dirty.now ≤ 1048576 }
    requires behind { (i : ℕ) (place : At) → slice_get plan.now.free.now i ≡ Some place → 2 ≤ place.0 }
    requires level_from { 1 ≤ level }
    requires level_to { level ≤ 3 }
    requires index { index < 2 ^ 20 }
    requires enough { length nodes.old.items + length (dirty_below plan.now.dirty.now level index) ≤ length plan.now.free.now }
    requires planned { ArePlanned plan.now.dirty.now plan.now.generation plan.now.free.now nodes.old.items }
    ensures names { OnOk result (names nodes.new.items ≡ names nodes.old.items ++ dirty_below plan.now.dirty.now level index) }
    ensures continues { OnOk result (Continues nodes.old.items nodes.new.items) }
    ensures planned { OnOk result (ArePlanned plan.now.dirty.now plan.now.generation plan.now.free.now nodes.new.items) }
    ensures place { IfOk result (IsPlaceIfNeeded plan.now.dirty.now nodes.new.items level index) }
    ensures refused { IfErr result (λ refusal. refusal ≡ OutOfMemory) }
{
    if !is_any_below(plan.dirty, level, index) {
        return Ok(None);
    }
    let words = plan_words(plan, level, index, nodes)?;
    let node = Node {
        generation: plan.generation,
        dirty: true,
        level,
        index,
        words,
    };
    Ok(Some(put_node(nodes, plan.free, node)?))
}

/// The words of a node: of a leaf the bits of its blocks, else the places of its children, which are added with all below them.
/// `Memory` where there is no room for those.
#[cycle(nodes)]
fn plan_words(
    plan: &Planning,
    level: u32,
    index: u32,
    nodes: &mut Vec<(Place, Node)>,
) -> Result<[u64; 32], Refusal>
    requires few { length plan.now.dirty.now ≤ 1048576 }
    requires behind { (i : ℕ) (place : At) → slice_get plan.now.free.now i ≡ Some place → 2 ≤ place.0 }
    requires level_from { 1 ≤ level }
    requires level_to { level ≤ 3 }
    requires index { index < 2 ^ 15 }
    requires enough { length nodes.old.items + length (each_from (dirty_below plan.now.dirty.now (level - 1)) 32 (32 * index)) ≤ length plan.now.free.now }
    requires planned { ArePlanned plan.now.dirty.now plan.now.generation plan.now.free.now nodes.old.items }
    ensures names { OnOk result (names nodes.new.items
        ≡ names nodes.old.items ++ each_from (dirty_below plan.now.dirty.now (level - 1)) 32 (32 * index)) }
    ensures continues { OnOk result (Continues nodes.old.items nodes.new.items) }
    ensures planned { OnOk result (ArePlanned plan.now.dirty.now plan.now.generation plan.now.free.now nodes.new.items) }
    ensures leaf { IfOk result (λ words. level ≡ 1 → (k : ℕ) → k < 2048 → is_member words k ≡ get_or plan.now.dirty.now (2048 * index + k) false) }
    ensures inner { IfOk result (λ words. level ≢ 1 → (j : ℕ) → j < 32 → IsNamedBy plan.now.dirty.now nodes.new.items (level - 1) (32 * index + j) (slice_index words j)) }
    ensures spelled { IfOk result (λ words. (j : ℕ) → IsNodeWord true level (slice_index words j)) }
    ensures refused { IfErr result (λ refusal. refusal ≡ OutOfMemory) }
{
    if level == 1 {
        return Ok(bits_of_leaf(plan.dirty, index));
    }
    let mut words = [0; 32];
    for j in 0..32 {
        let child = plan_node(plan, level - 1, 32 * index + j, nodes)?;
        words[j as usize] = number_of(child);
    }
    Ok(words)
}

/// Whether the bit of a dirty block lies below a node.
pub(crate) fn is_any_below(dirty: &BitSet, level: u32, index: u32) -> bool
    requires level_from { 1 ≤ level }
    requires level_to { level ≤ 3 }
    requires index { index < 2 ^ 20 }
    ensures { result ≡ has_dirty dirty.now level index }
{
    let span = words_below(level);
    let first = 64 * (index as usize * span);
    match dirty.least_from(first) {
        Some(block) => block < first + 64 * span,
        None => false,
    }
}

/// How many words of leaves lie below a node.
fn words_below(level: u32) -> usize
    requires level_from { 1 ≤ level }
    requires level_to { level ≤ 3 }
    ensures value { result ≡ 32 ^ level }
    ensures at_most { result ≤ 32768 }
{
    if level == 1 {
        32
    } else if level == 2 {
        1024
    } else {
        32_768
    }
}

/// The words of a leaf.
fn bits_of_leaf(dirty: &BitSet, index: u32) -> [u64; 32]
    requires { index < 2 ^ 20 }
    ensures { (k : ℕ) → k < 2048 → is_member result k ≡ get_or dirty.now (2048 * index + k) false }
{
    let first = 2048 * index as usize;
    let mut words = [0; 32];
    for j in 0..32 {
        words[j] = bits_from(dirty, first + 64 * j);
    }
    words
}

/// The bits of 64 cache blocks in a word, that of the first the lowest.
fn bits_from(dirty: &BitSet, first: usize) -> u64
    requires { first < 2 ^ 40 }
    ensures { (t : ℕ) → t < 64 → (bit_at result t == 1) ≡ get_or dirty.now (first + t) false }
{
    let mut word = 0u64;
    for t in 0..64 {
        if dirty.has(first + t) {
            word |= 1 << t;
        }
    }
    word
}
