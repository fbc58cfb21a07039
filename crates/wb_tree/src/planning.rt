//! The nodes that an image writes.

ghost use Rattle.std.specs.Prelude.{◌≡◌, ◌≤◌, ◌<◌, ◌+◌, ◌-◌, ◌*◌, ◌^◌, [], ◌∷◌, ◌++◌, ℕ, false, Some, None, IfOk, OnOk, IfErr, length, slice_get, slice_index, slice_index_or};
ghost use Rattle.wb_types.specs.declared.entry.Entry.{Entry as EntryValue};
ghost use Rattle.wb_types.specs.declared.refusal.Refusal.TheVariants.{Memory as OutOfMemory};
ghost use Rattle.wb_format.specs.NodeWords.{IsEntry, IsLeafWord, IsNodeWord, entry_word, kept};
ghost use Rattle.wb_tree.specs.Mapping.{each_from, place_of, entry_at as entry_of};
ghost use Rattle.wb_tree.specs.Images.{kept_tree, word_at, place_word};
ghost use Rattle.wb_tree.specs.Planning.{names, planned, levels, changed_below, AreWritten, Begins, MayPlan};

use crate::Tree;
use std::alloc::Allocator;
use wb_format::{Node, word_of};
use wb_types::{CBlock, Entry, Place, Refusal, Version};

/// What the nodes of an image are made of.
#[derive(Drop)]
pub(crate) struct Planning<'a, A: Allocator> {
    pub(crate) tree: &'a Tree<A>,
    pub(crate) generation: u64,
    pub(crate) version: Version,
    /// Where the nodes go, one after the other.
    pub(crate) free: &'a [Place],
}

/// Adds the changed nodes at and below a node, children rising, each before its parent, with the first of the free
/// places, and gives the place of the node itself; none where no entry lies below it. `Memory` where there is no room
/// for them.
#[cycle(nodes)]
pub(crate) fn plan_node<A: Allocator + Clone>(
    plan: &Planning<A>,
    level: u32,
    index: u32,
    nodes: &mut Vec<(Place, Node)>,
) -> Result<Option<Place>, Refusal>
    requires can { MayPlan plan.now.tree.now plan.now.free.now }
    requires level_from { 1 ≤ level }
    requires level_to { level ≤ levels plan.now.tree.now }
    requires level_most { level ≤ 4 }
    requires index { index < 32 ^ (levels plan.now.tree.now - level) }
    requires next { Begins plan.now.tree.now (names nodes.old.items ++ changed_below plan.now.tree.now level index) }
    requires planned { AreWritten plan.now.version (planned plan.now.tree.now plan.now.free.now) plan.now.generation
        plan.now.free.now nodes.old.items }
    ensures names { OnOk result (names nodes.new.items
        ≡ names nodes.old.items ++ changed_below plan.now.tree.now level index) }
    ensures planned { OnOk result (AreWritten plan.now.version (planned plan.now.tree.now plan.now.free.now) plan.now.generation
        plan.now.free.now nodes.new.items) }
    ensures place { IfOk result (λ place. place
        ≡ place_of (planned plan.now.tree.now plan.now.free.now) level index) }
    ensures refused { IfErr result (λ refusal. refusal ≡ OutOfMemory) }
{
    match plan.tree.look(level, index) {
        None => return Ok(None),
        Some(Some(place)) => return Ok(Some(place)),
        Some(None) => {}
    }
    let words = plan_words(plan, level, index, nodes)?;
    let place = put_node(
        nodes,
        plan.free,
        Node {
            generation: plan.generation,
            dirty: false,
            level,
            index,
            words,
        },
    )?;
    Ok(Some(place))
}

/// The words of a node: of a leaf its entries, else the places of its children, which are added with all changed
/// nodes below them. `Memory` where there is no room for those.
#[cycle(nodes)]
fn plan_words<A: Allocator + Clone>(
    plan: &Planning<A>,
    level: u32,
    index: u32,
    nodes: &mut Vec<(Place, Node)>,
) -> Result<[u64; 32], Refusal>
    requires can { MayPlan plan.now.tree.now plan.now.free.now }
    requires level_from { 1 ≤ level }
    requires level_to { level ≤ levels plan.now.tree.now }
    requires level_most { level ≤ 4 }
    requires index { index < 32 ^ (levels plan.now.tree.now - level) }
    requires before { index < 2 ^ 20 }
    requires next { Begins plan.now.tree.now (names nodes.old.items
        ++ each_from (changed_below plan.now.tree.now (level - 1)) 32 (32 * index)) }
    requires planned { AreWritten plan.now.version (planned plan.now.tree.now plan.now.free.now) plan.now.generation
        plan.now.free.now nodes.old.items }
    ensures names { OnOk result (names nodes.new.items
        ≡ names nodes.old.items ++ each_from (changed_below plan.now.tree.now (level - 1)) 32 (32 * index)) }
    ensures planned { OnOk result (AreWritten plan.now.version (planned plan.now.tree.now plan.now.free.now) plan.now.generation
        plan.now.free.now nodes.new.items) }
    ensures words { IfOk result (λ words. (j : ℕ) → j < 32 → slice_index words j
        ≡ word_at (kept_tree plan.now.version (planned plan.now.tree.now plan.now.free.now)) level index j) }
    ensures spelled { IfOk result (λ words. (j : ℕ) → IsNodeWord false level (slice_index words j)) }
    ensures refused { IfErr result (λ refusal. refusal ≡ OutOfMemory) }
{
    if level == 1 {
        return Ok(leaf_words(plan.tree, index, plan.version));
    }
    let mut words = [0; 32];
    for j in 0..32 {
        let child = plan_node(plan, level - 1, 32 * index + j, nodes)?;
        words[j as usize] = number_of(child);
    }
    Ok(words)
}

/// The words of a leaf in metadata of a version.
fn leaf_words<A: Allocator + Clone>(tree: &Tree<A>, index: u32, version: Version) -> [u64; 32]
    requires index { index < 2 ^ 20 }
    requires entries { (block : ℕ) (entry : EntryValue) → entry_of tree.now block ≡ Some entry → IsEntry entry }
    ensures words { (j : ℕ) → j < 32 → slice_index result j ≡ entry_word (kept version (entry_of tree.now (32 * index + j))) }
    ensures spelled { (j : ℕ) → IsLeafWord (slice_index result j) }
{
    let mut words = [0; 32];
    for j in 0..32 {
        words[j as usize] = word_of(entry_at(tree, 32 * index + j), version);
    }
    words
}

/// The entry of a cache block; none past the last.
fn entry_at<A: Allocator + Clone>(tree: &Tree<A>, block: u32) -> Option<Entry>
    ensures { result ≡ entry_of tree.now block }
{
    if block >= tree.cache_blocks() {
        return None;
    }
    tree.get(CBlock(block))
}

/// Puts a node behind these, at the next of the free places, and gives that. `Memory` where there is no room for it.
pub fn put_node(
    nodes: &mut Vec<(Place, Node)>,
    free: &[Place],
    node: Node,
) -> Result<Place, Refusal>
    requires { length nodes.old.items < length free.now }
    ensures there { IfOk result (λ place. slice_get free.now (length nodes.old.items) ≡ Some place) }
    ensures put { IfOk result (λ place. nodes.new.items ≡ nodes.old.items ++ (place, node) ∷ []) }
    ensures refused { IfErr result (λ refusal. refusal ≡ OutOfMemory) }
{
    nodes.reserve(1)?;
    let place = free[nodes.len()];
    nodes.push_reserved((place, node));
    Ok(place)
}

/// The number of a place in a word, 0 for none.
pub fn number_of(place: Option<Place>) -> u64
    ensures number { result ≡ place_word place }
    ensures at_most { result ≤ 4294967295 }
{
    match place {
        None => 0,
        Some(Place(number)) => u64::from(number),
    }
}
