//! Nodes of the tree of boxes.

ghost use Rattle.std.specs.Prelude.{◌≡◌, [], false, ◌≤◌, ◌<◌, ◌+◌, ◌-◌, ◌*◌, ◌/◌, ◌%◌, ◌^◌, ◌++◌, ℕ, Some, None, map, is_some, true, IfOk, OnOk, OnErr, slice_index_or, replicate};
ghost use Rattle.std.specs.List.{list_any};
ghost use Rattle.wb_tree.specs.Mapping.{exists, place_in};
ghost use Rattle.wb_tree.specs.Branches.{rewritten, sole_branch, IsKid};
ghost use Rattle.wb_tree.specs.Settling.{place_told, CanSettle, NodesAreSettled, IsSettledAt};

mod copying;
mod filling;

use crate::PlacedNode;
pub(crate) use filling::filled;
use std::alloc::{AllocError, Allocator};
use std::marker::Model;
use wb_types::{Entry, Place};

/// A node: the entries of a leaf, or the boxes of the children of a node above the leaves.
#[derive(Drop)]
pub(crate) struct Node<A: Allocator> {
    /// 1 for a leaf, up to 4.
    level: u32,
    /// Which node of its level it is, counted from 0.
    index: u32,
    /// Where it stands; none where it changed since the last image.
    place: Option<Place>,
    /// The entries of a leaf.
    words: [Option<Entry>; 32],
    /// The children of a node above the leaves, 32 of them; each has an entry below it.
    kids: Vec<Option<Box<Node<A>, A>>, A>,
}

impl<A: Allocator> Model for Node<A> {
    ghost use Rattle.wb_tree.specs.Branches.{Branch};

    ghost Value = { Branch };

    ghost use Rattle.wb_tree.specs.Branches.{branch_of, IsNode};

    ghost view = { λ n. branch_of n.level n.index n.place n.words n.kids.items };

    ghost invariant = { λ n. IsNode n.level n.index n.words n.kids.items };

    ghost size = { λ b. b.level };

    ghost use Rattle.wb_tree.specs.BranchLevels.{deep_level};

    ghost size_decreases = { λ n h. deep_level A.Allocator n h };
}

impl<A: Allocator> Node<A> {
    /// The entry of the cache block at this offset from the first one below the node.
    pub(crate) fn get(&self, offset: u32) -> Option<Entry>
        requires { offset < 32 ^ self.now.level }
        ensures { result ≡ slice_index_or self.now.entries offset None }
    {
        if self.level == 1 {
            return self.words[offset as usize];
        }
        let below = rest_of(self.level, offset);
        match &self.kids[word_of(self.level, offset)] {
            Some(kid) => kid.get(below),
            None => None,
        }
    }

    /// Gives the cache block at this offset an entry; the node and those on the way to the block are then no longer
    /// known. Where a box that is missing cannot be had, the node is as it was.
    #[tactic(auto, using(crate::proofs::Branching::Branches::index_small, crate::proofs::Branching::Branches::kid_index))]
    pub(crate) fn set(&mut self, alloc: &A, offset: u32, entry: Entry) -> Result<(), AllocError>
    where
        A: Clone,
        requires { offset < 32 ^ self.old.level }
        ensures ok { OnOk result (self.new ≡ rewritten self.old offset (Some entry)) }
        ensures err { OnErr result (self.new ≡ self.old) }
    {
        if self.level == 1 {
            self.words[offset as usize] = Some(entry);
            self.place = None;
            return Ok(());
        }
        let word = word_of(self.level, offset);
        let below = rest_of(self.level, offset);
        match self.kids[word].take() {
            Some(mut kid) => {
                let done = kid.set(alloc, below, entry);
                self.kids[word] = Some(kid);
                done?;
                self.place = None;
                Ok(())
            }
            None => {
                let index = 32 * self.index + word as u32;
                let kid = boxed(alloc, self.level - 1, index, below, entry)?;
                self.kids[word] = Some(kid);
                self.place = None;
                Ok(())
            }
        }
    }

    /// Takes the entry of the cache block at this offset away; the node and those on the way to the block are then no
    /// longer known. Boxes that have no entry left are dropped. Answers whether the node has one left.
    pub(crate) fn clear(&mut self, offset: u32) -> bool
        requires { offset < 32 ^ self.old.level }
        ensures cleared { self.new ≡ rewritten self.old offset None }
        ensures left { result ≡ list_any is_some self.new.entries }
        ensures emptied { result ≡ false → self.new.known ≡ [] }
    {
        self.place = None;
        if self.level == 1 {
            self.words[offset as usize] = None;
            return has_some(&self.words);
        }
        let word = word_of(self.level, offset);
        let below = rest_of(self.level, offset);
        match self.kids[word].take() {
            Some(mut kid) => {
                if kid.clear(below) {
                    self.kids[word] = Some(kid);
                    return true;
                }
                has_some(&self.kids)
            }
            None => has_some(&self.kids),
        }
    }

    /// Whether a node at or below this one has a box, and then where it stands, if it is known. It is named by its
    /// level and by its index among those of its level below this node.
    pub(crate) fn look(&self, level: u32, index: u32) -> Option<Option<Place>>
        requires from { 1 ≤ level }
        requires to { level ≤ self.now.level }
        requires index { index < 32 ^ (self.now.level - level) }
        requires kid { IsKid self.now.level self.now.index self.now }
        ensures there { is_some result ≡ exists self.now.entries level index }
        ensures place { place_told result
            ≡ place_in self.now.known level (self.now.index * 32 ^ (self.now.level - level) + index) }
    {
        if self.level == level {
            return Some(self.place);
        }
        let down = self.level - level;
        let below = rest_of(down, index);
        match &self.kids[word_of(down, index)] {
            Some(kid) => kid.look(level, below),
            None => None,
        }
    }

    /// A node at or below this one that has a box, named as for `look`, and was not known stands at this place.
    pub(crate) fn settle(&mut self, level: u32, index: u32, place: Place)
        requires from { 1 ≤ level }
        requires to { level ≤ self.old.level }
        requires index { index < 32 ^ (self.old.level - level) }
        requires there { exists self.old.entries level index ≡ true }
        requires unknown { place_in self.old.known level (self.old.index * 32 ^ (self.old.level - level) + index)
            ≡ None }
        ensures { IsSettledAt self.old self.new (record {
          level = level;
          index = self.old.index * 32 ^ (self.old.level - level) + index;
          place = place;
        }) }
    {
        if self.level == level {
            self.place = Some(place);
            return;
        }
        let down = self.level - level;
        let word = word_of(down, index);
        let below = rest_of(down, index);
        let Some(mut kid) = self.kids[word].take() else {
            return;
        };
        kid.settle(level, below, place);
        self.kids[word] = Some(kid);
    }

    /// Adds the places of the known nodes at and below this one. Some of them are added where memory is wanting.
    pub(crate) fn collect(&self, places: &mut Vec<Place>) -> Result<(), AllocError>
        ensures { OnOk result (places.new.items ≡ places.old.items ++ map (λ node. node.place) self.now.known) }
    {
        if let Some(place) = self.place {
            places.push(place)?;
        }
        if self.level == 1 {
            return Ok(());
        }
        for kid in self.kids.iter() {
            if let Some(kid) = kid {
                kid.collect(places)?;
            }
        }
        Ok(())
    }

    /// A node of this level and index, of which one cache block has an entry; and all boxes below it.
    #[tactic(auto, using(crate::proofs::Branching::Branches::index_small, crate::proofs::Branching::Branches::kid_index))]
    fn new(
        alloc: &A,
        level: u32,
        index: u32,
        offset: u32,
        entry: Entry,
    ) -> Result<Node<A>, AllocError>
    where
        A: Clone,
        requires level_from { 1 ≤ level }
        requires level_to { level ≤ 4 }
        requires index { (index + 1) * 32 ^ level ≤ 1048576 }
        requires offset { offset < 32 ^ level }
        ensures { IfOk result (λ node. node ≡ sole_branch level index offset entry) }
    {
        if level == 1 {
            let mut words = [None; 32];
            words[offset as usize] = Some(entry);
            let kids = Vec::new(alloc.clone()?);
            return Ok(Node {
                level,
                index,
                place: None,
                words,
                kids,
            });
        }
        let word = word_of(level, offset);
        let below = rest_of(level, offset);
        let kid = Node::new(alloc, level - 1, 32 * index + word as u32, below, entry)?;
        let mut kids = no_kids(alloc)?;
        kids[word] = Some(Box::new(alloc.clone()?, kid)?);
        Ok(Node {
            level,
            index,
            place: None,
            words: [None; 32],
            kids,
        })
    }
}

/// The same in a box.
pub(crate) fn boxed<A: Allocator + Clone>(
    alloc: &A,
    level: u32,
    index: u32,
    offset: u32,
    entry: Entry,
) -> Result<Box<Node<A>, A>, AllocError>
    requires level_from { 1 ≤ level }
    requires level_to { level ≤ 4 }
    requires index { (index + 1) * 32 ^ level ≤ 1048576 }
    requires offset { offset < 32 ^ level }
    ensures { IfOk result (λ node. node.value ≡ sole_branch level index offset entry) }
{
    let node = Node::new(alloc, level, index, offset, entry)?;
    Ok(Box::new(alloc.clone()?, node)?)
}

/// These nodes of a tree, none of which was known, are known from now on.
pub(crate) fn settle_all<A: Allocator>(top: &mut Node<A>, nodes: &[PlacedNode])
    requires { CanSettle top.old nodes.now }
    ensures { NodesAreSettled top.old top.new nodes.now }
{
    for node in nodes {
        top.settle(node.level, node.index, node.place);
    }
}

/// The words of a node above the leaves that has no children.
fn no_kids<A: Allocator + Clone>(alloc: &A) -> Result<Vec<Option<Box<Node<A>, A>>, A>, AllocError>
    ensures { IfOk result (λ kids. kids.items ≡ replicate 32 None) }
{
    let mut kids = Vec::with_capacity(alloc.clone()?, 32)?;
    for _i in 0..32usize {
        kids.push_reserved(None);
    }
    Ok(kids)
}

/// Whether there is any among these.
fn has_some<T>(slots: &[Option<T>]) -> bool
    ensures { result ≡ list_any is_some slots.now }
{
    slots.iter().any(|slot| slot.is_some())
}

/// The word of a node of this level that the cache block at this offset is at or below.
#[tactic(auto, using(crate::proofs::Branching::Branches::word_below))]
fn word_of(level: u32, offset: u32) -> usize
    requires from { 1 ≤ level }
    requires to { level ≤ 4 }
    requires offset { offset < 32 ^ level }
    ensures value { result ≡ offset / 32 ^ (level - 1) }
    ensures less { result < 32 }
{
    (offset / span_of(level - 1)) as usize
}

/// The offset of the cache block from the first one at or below that word.
#[tactic(auto, using(crate::proofs::Branching::Branches::rest_below))]
fn rest_of(level: u32, offset: u32) -> u32
    requires from { 1 ≤ level }
    requires to { level ≤ 4 }
    requires offset { offset < 32 ^ level }
    ensures value { result ≡ offset % 32 ^ (level - 1) }
    ensures less { result < 32 ^ (level - 1) }
{
    offset % span_of(level - 1)
}

/// How many cache blocks lie below a node of this level.
pub(crate) fn span_of(level: u32) -> u32
    requires { level ≤ 4 }
    ensures value { result ≡ 32 ^ level }
    ensures from { 1 ≤ result }
    ensures at_most { result ≤ 1048576 }
{
    match level {
        0 => 1,
        1 => 32,
        2 => 1024,
        3 => 32_768,
        _ => 1_048_576,
    }
}
