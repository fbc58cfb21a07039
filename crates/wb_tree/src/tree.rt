//! The mapping as a radix tree of boxes: 32 children or entries a node, and each node knows its place or that it
//! changed.

ghost use Rattle.std.specs.Prelude.{◌≡◌, ◌≢◌, ◌<◌, ◌≤◌, ◌+◌, ◌-◌, ◌/◌, ◌^◌, ◌++◌, [], ℕ, Some, None, IsSome, is_some, IfOk, IfErr, OnOk, OnErr, length, replicate, slice_set};
ghost use Rattle.std.specs.List.{count_by};
ghost use Rattle.wb_types.specs.Limits.{depth_of};
ghost use Rattle.wb_types.specs.declared.refusal.Refusal.TheVariants.{Memory as OutOfMemory};
ghost use Rattle.wb_tree.specs.Mapping.{changed, entry_at, exists, place_in, place_of, places_above, used_places, AreInside, Forgets, IsMapping, IsOnPath, IsSound};
ghost use Rattle.wb_tree.specs.Edits.{IsEdited};
ghost use Rattle.wb_tree.specs.Images.{AreFree, AreUsed, IsImage};
ghost use Rattle.wb_tree.specs.Branches.{forget};
ghost use Rattle.wb_tree.specs.Fields.{AreApart};
ghost use Rattle.wb_tree.specs.Settling.{place_told};

mod node;

use crate::counting::count_changed;
use crate::image::known_of;
use crate::planning::{Planning, plan_node};
use crate::{Image, PlacedNode};
use node::{Node, boxed, filled, settle_all, span_of};
use std::alloc::{Allocator, Global};
use std::marker::Model;
use wb_format::Root;
use wb_types::{CBlock, Entry, Geometry, Place, Refusal};

/// The entries of a cache's blocks, and which nodes are known to stand where.
///
/// A look-up or a change goes down one box a level, four at most. A node has a box where an entry lies below it, and
/// no other does.
pub struct Tree<A: Allocator> {
    alloc: A,
    cache_blocks: u32,
    /// The levels of the tree.
    depth: u32,
    /// How many of its nodes are known.
    known: u32,
    root: Option<Box<Node<A>, A>>,
}

impl<A: Allocator> Drop for Tree<A> {
    fn drop(self) {
        let Tree {
            alloc,
            cache_blocks: _,
            depth: _,
            known: _,
            root,
        } = self;
        drop(alloc);
        drop(root);
    }
}

impl<A: Allocator> Model for Tree<A> {
    ghost use Rattle.wb_tree.specs.Mapping.{Mapping};
    ghost use Rattle.wb_tree.specs.Branches.{boxes_of, IsTree};

    ghost Value = { Mapping };

    ghost view = { λ b. boxes_of b.cache_blocks b.depth b.root };

    ghost invariant = { λ b. IsTree b.cache_blocks b.depth b.known b.root };
}

impl<A: Allocator + Clone> Tree<A> {
    /// A tree of so many cache blocks, 1,048,576 at most, none of which is mapped. It takes no memory.
    pub fn new(alloc: A, cache_blocks: u32) -> Tree<A>
        requires { cache_blocks ≤ 1048576 }
        ensures entries { result.entries ≡ replicate cache_blocks None }
        ensures known { result.known ≡ [] }
        ensures sound { IsSound result }
    {
        Tree {
            alloc,
            cache_blocks,
            depth: depth_for(cache_blocks),
            known: 0,
            root: None,
        }
    }

    /// The same tree, with what is known of its nodes, in boxes of its own. `Memory` where there is no room for it.
    pub fn copied(&self) -> Result<Tree<A>, Refusal>
        ensures same { IfOk result (λ tree. tree ≡ self.now) }
        ensures sound { IsSound self.now }
        ensures refused { IfErr result (λ refusal. refusal ≡ OutOfMemory) }
    {
        let root = match &self.root {
            Some(root) => Some(root.copied(&self.alloc)?),
            None => None,
        };
        Ok(Tree {
            alloc: self.alloc.clone()?,
            cache_blocks: self.cache_blocks,
            depth: self.depth,
            known: self.known,
            root,
        })
    }

    /// The entry of a cache block, which is one of the tree's.
    pub fn get(&self, c: CBlock) -> Option<Entry>
        requires { c.0 < length self.now.entries }
        ensures entry { result ≡ entry_at self.now c.0 }
        ensures sound { IsSound self.now }
    {
        let CBlock(block) = c;
        match &self.root {
            Some(root) => root.get(block),
            None => None,
        }
    }

    /// Gives a cache block, which is one of the tree's, an entry. Where it has that entry already, nothing changes;
    /// else the nodes above it count as changed, and no others. `Memory` where a box that is missing cannot be had;
    /// the tree is then as it was.
    pub fn set(&mut self, c: CBlock, entry: Entry) -> Result<(), Refusal>
        requires { c.0 < length self.old.entries }
        ensures entries { OnOk result (self.new.entries ≡ slice_set self.old.entries c.0 (Some entry)) }
        ensures same { entry_at self.old c.0 ≡ Some entry → self.new ≡ self.old }
        ensures forgets { OnOk result (entry_at self.old c.0 ≢ Some entry → Forgets self.old self.new c.0) }
        ensures stays_off { (level index : ℕ) → (IsOnPath c.0 level index → ⊥)
            → place_of self.new level index ≡ place_of self.old level index }
        ensures edited { IsEdited self.old self.new }
        ensures err { OnErr result (self.new ≡ self.old) }
        ensures refused { IfErr result (λ refusal. refusal ≡ OutOfMemory) }
        ensures sound { IsSound self.new }
    {
        if self.get(c) == Some(entry) {
            return Ok(());
        }
        let CBlock(block) = c;
        let above = self.known_above(c);
        match self.root.take() {
            Some(mut root) => {
                let done = root.set(&self.alloc, block, entry);
                self.root = Some(root);
                done?;
                self.known -= above;
                Ok(())
            }
            None => {
                self.root = Some(boxed(&self.alloc, self.depth, 0, block, entry)?);
                Ok(())
            }
        }
    }

    /// Takes the entry of a cache block, which is one of the tree's, away, and drops the boxes that have no entry
    /// left. Where the cache block has none, nothing changes; else the nodes above it count as changed, and no
    /// others. It takes no memory.
    pub fn clear(&mut self, c: CBlock)
        requires { c.0 < length self.old.entries }
        ensures entries { self.new.entries ≡ slice_set self.old.entries c.0 None }
        ensures same { entry_at self.old c.0 ≡ None → self.new ≡ self.old }
        ensures forgets { IsSome (entry_at self.old c.0) → Forgets self.old self.new c.0 }
        ensures stays_off { (level index : ℕ) → (IsOnPath c.0 level index → ⊥)
            → place_of self.new level index ≡ place_of self.old level index }
        ensures edited { IsEdited self.old self.new }
        ensures sound { IsSound self.new }
    {
        if self.get(c).is_none() {
            return;
        }
        let CBlock(block) = c;
        let above = self.known_above(c);
        let Some(mut root) = self.root.take() else {
            return;
        };
        self.known -= above;
        if !root.clear(block) {
            return;
        }
        self.root = Some(root);
    }

    /// How many nodes are known to stand somewhere, in constant time.
    pub fn known_nodes(&self) -> u32
        ensures known { result ≡ length self.now.known }
        ensures used { AreUsed (length self.now.entries) self.now }
    {
        self.known
    }

    /// The places of the known nodes: a look at each of them, for openings and tests. `Memory` where there is no room
    /// for them.
    pub fn places(&self, global: Global) -> Result<Vec<Place>, Refusal>
        ensures places { IfOk result (λ places. places.items ≡ used_places self.now) }
        ensures used { AreUsed (length self.now.entries) self.now }
        ensures refused { IfErr result (λ refusal. refusal ≡ OutOfMemory) }
    {
        let mut places = Vec::new(global);
        if let Some(root) = &self.root {
            root.collect(&mut places)?;
        }
        Ok(places)
    }

    /// Where the nodes above a cache block, which is one of the tree's, are known to stand, from the leaf up: these
    /// places `set` and `clear` leave where the entry changes, and no others. Four looks, and no memory.
    pub fn places_above(&self, c: CBlock) -> [Option<Place>; 4]
        requires { c.0 < length self.now.entries }
        ensures { result ≡ places_above self.now c.0 }
    {
        let CBlock(block) = c;
        [
            self.place_above(1, block),
            self.place_above(2, block),
            self.place_above(3, block),
            self.place_above(4, block),
        ]
    }

    /// How many nodes changed since the last image: so many the next one writes. It visits those and their children.
    pub fn changed_nodes(&self) -> u32
        ensures { result ≡ length (changed self.now (depth_of (length self.now.entries))) }
    {
        count_changed(self, self.depth, 0)
    }

    /// The image of this generation: the nodes that changed since the last one, on the first of the free places, and
    /// a root with this `clean` flag. After it no node counts as changed. It is on the caller to write it. Of the
    /// nodes it visits those that changed and their children.
    ///
    /// `Memory` where there is no room for the image or for what the nodes are remembered by; the tree is then as it
    /// was.
    pub fn plan(
        &mut self,
        global: Global,
        geometry: &Geometry,
        generation: u64,
        clean: bool,
        free: &[Place],
    ) -> Result<Image, Refusal>
        requires mapping { IsMapping geometry.now.cache_blocks geometry.now.origin_blocks self.old.entries }
        requires inside { AreInside geometry.now.meta_sectors self.old }
        requires free { AreFree self.old geometry.now free.now }
        ensures image { IfOk result (IsImage self.old self.new
            (record { geometry = geometry.now; generation = generation; clean = clean; free = free.now })) }
        ensures err { OnErr result (self.new ≡ self.old) }
        ensures refused { IfErr result (λ refusal. refusal ≡ OutOfMemory) }
        ensures sound { IsSound self.new }
        ensures inside { AreInside geometry.now.meta_sectors self.new }
    {
        let plan = Planning {
            tree: &*self,
            generation,
            version: geometry.version,
            free,
        };
        let mut nodes = Vec::new(global);
        let top = plan_node(&plan, self.depth, 0, &mut nodes)?;
        let settled = known_of(global, &nodes)?;
        self.settle(&settled);
        let root = Root {
            generation,
            version: geometry.version,
            clean,
            geometry: *geometry,
            top,
            top_dirty: None,
        };
        Ok(Image { root, nodes })
    }

    /// A tree of these entries, one for each cache block, of which these nodes are known. `Memory` where there is no
    /// room for it.
    pub(crate) fn of_entries(
        alloc: A,
        cache_blocks: u32,
        entries: &[Option<Entry>],
        known: &[PlacedNode],
    ) -> Result<Tree<A>, Refusal>
        requires few { cache_blocks ≤ 1048576 }
        requires size { length entries.now ≡ cache_blocks }
        requires apart { AreApart known.now }
        requires sound { IsSound (record { entries = entries.now; known = known.now }) }
        ensures entries { IfOk result (λ tree. tree.entries ≡ entries.now) }
        ensures places { IfOk result (λ tree. (level index : ℕ)
            → place_of tree level index ≡ place_in known.now level index) }
        ensures sound { IfOk result (λ tree. IsSound tree) }
        ensures refused { IfErr result (λ refusal. refusal ≡ OutOfMemory) }
    {
        let depth = depth_for(cache_blocks);
        let root = filled(&alloc, entries, depth, 0)?;
        let mut tree = Tree {
            alloc,
            cache_blocks,
            depth,
            known: 0,
            root,
        };
        tree.settle(known);
        Ok(tree)
    }

    /// How many cache blocks it has.
    pub(crate) fn cache_blocks(&self) -> u32
        ensures { result ≡ length self.now.entries }
    {
        self.cache_blocks
    }

    /// Whether the node of this level and index has an entry below it, and then where it stands, if it is known.
    pub(crate) fn look(&self, level: u32, index: u32) -> Option<Option<Place>>
        requires from { 1 ≤ level }
        requires to { level ≤ depth_of (length self.now.entries) }
        requires index { index < 32 ^ (depth_of (length self.now.entries) - level) }
        ensures there { is_some result ≡ exists self.now.entries level index }
        ensures place { place_told result ≡ place_of self.now level index }
    {
        match &self.root {
            Some(root) => root.look(level, index),
            None => None,
        }
    }

    /// Where the node of this level above a cache block is known to stand; none above the top.
    fn place_above(&self, level: u32, block: u32) -> Option<Place>
        requires from { 1 ≤ level }
        requires to { level ≤ 4 }
        requires block { block < length self.now.entries }
        ensures { result ≡ place_of self.now level (block / 32 ^ level) }
    {
        if level > self.depth {
            return None;
        }
        self.look(level, block / span_of(level)).flatten()
    }

    /// How many of the nodes above a cache block are known.
    fn known_above(&self, c: CBlock) -> u32
        requires { c.0 < length self.now.entries }
        ensures forgotten { length (forget c.0 self.now.known) + result ≡ length self.now.known }
    {
        let _ = &self.root;
        let places = self.places_above(c);
        count_known(&places)
    }

    /// These nodes, none of which was known, are known from now on.
    fn settle(&mut self, nodes: &[PlacedNode])
        requires apart { AreApart (self.old.known ++ nodes.now) }
        requires sound { IsSound (record { entries = self.old.entries; known = self.old.known ++ nodes.now }) }
        ensures entries { self.new.entries ≡ self.old.entries }
        ensures places { (level index : ℕ)
            → place_of self.new level index ≡ place_in (self.old.known ++ nodes.now) level index }
        ensures more { length self.new.known ≡ length self.old.known + length nodes.now }
        ensures once { AreApart self.new.known }
        ensures sound { IsSound self.new }
    {
        let Some(mut root) = self.root.take() else {
            return;
        };
        settle_all(&mut root, nodes);
        self.root = Some(root);
        self.known += nodes.len() as u32;
    }
}

/// How many of these places are known.
fn count_known(places: &[Option<Place>]) -> u32
    requires { length places.now < 2 ^ 32 }
    ensures { result ≡ count_by is_some places.now }
{
    places.iter().filter(|place| place.is_some()).count() as u32
}

/// The levels of a tree of so many cache blocks.
#[tactic(auto, unfolding(wb_types::specs::Limits::depth_of))]
fn depth_for(cache_blocks: u32) -> u32
    requires { cache_blocks ≤ 1048576 }
    ensures value { result ≡ depth_of cache_blocks }
    ensures enough { cache_blocks ≤ 32 ^ result }
    ensures from { 1 ≤ result }
    ensures to { result ≤ 4 }
{
    if cache_blocks <= 32 {
        1
    } else if cache_blocks <= 1024 {
        2
    } else if cache_blocks <= 32_768 {
        3
    } else {
        4
    }
}
