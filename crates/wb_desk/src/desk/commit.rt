//! The commits of a desk.

ghost use Rattle.std.specs.Prelude.{◌≡◌, ◌≤◌, ◌<◌, ◌+◌, ◌^◌, true, false, IfOk, IfErr, OnErr, is_some, length, map, filter};
ghost use Rattle.std.specs.Bool.{OnTrue};
ghost use Rattle.std.specs.Option.{IfSome, IfNone, option_map};
ghost use Rattle.wb_types.specs.Limits.{most_nodes as nodes_at_most, node_count};
ghost use Rattle.wb_desk.specs.Commits.{HasBegun, IsBeginRefused, space_begun, commit_ended};
ghost use Rattle.wb_space.specs.Places.{noted, unused, without};

use super::Desk;
use super::beside::note_bits;
use super::imaging::plan;
use std::alloc::Global;
use wb_bits::BitSet;
use wb_format::Node;
use wb_meta::{Image, image_law};
use wb_policy::Policy;
use wb_space::Space;
use wb_tree::Tree;
use wb_types::{Place, Refusal};

impl<P: Policy> Desk<P> {
    /// Begins a commit, and gives the image that it writes: the nodes that changed since the last one, each with a free
    /// place, and a root of the next generation, not clean. The entries are those of now; what is removed from now on is
    /// quarantined until a later commit ends.
    ///
    /// With the dirty bits that were seen, by cache block, the image is clean: it says these bits of its entries, and the policy's
    /// hints. The desk's entries have the hints from then on, and in metadata of the first version the bits. Only nodes above an
    /// entry that differs count as changed for that: where none changed, none is written. In the second version the bits have nodes
    /// of their own, behind those of the tree.
    ///
    /// `Busy` where a commit runs, `GenerationEnd` where there is no next generation, `Memory` where there is none for the
    /// image, or of places for it: a clean image does not follow another one that has dirty bits beside it; a target is
    /// suspended by then. Then nothing changed.
    ///
    /// It takes time by the nodes that changed, the places that they left, and the blocks that were removed; a clean image, by
    /// the cache blocks.
    pub fn begin_commit(&mut self, alloc: Global, clean: Option<&[bool]>) -> Result<Image, Refusal>
        requires { IfSome clean (λ dirty. length dirty.now ≡ self.old.geometry.cache_blocks) }
        ensures begun { IfOk result (λ image. HasBegun P.hint_of (option_map (λ dirty. dirty.now) clean.entry) self.old image self.new) }
        ensures err { OnErr result (self.new ≡ self.old) }
        ensures refused { IfErr result (IsBeginRefused self.old) }
    {
        if self.space.is_committing() {
            return Err(Refusal::Busy);
        }
        let Some(generation) = self.generation.checked_add(1) else {
            return Err(Refusal::GenerationEnd);
        };
        if !self.has_places(clean.is_some()) {
            return Err(Refusal::Memory);
        }
        let geometry = self.geometry;
        let (image, used) = plan(
            alloc,
            &mut self.tree,
            &self.policy,
            &self.space,
            &geometry,
            generation,
            clean,
        )?;
        image_law();
        begin_space(&mut self.space, &mut self.left, &image.nodes, &used);
        self.coming = count_used(&self.tree, &used);
        Ok(image)
    }

    /// Whether a commit runs.
    pub fn is_committing(&self) -> bool
        ensures { result ≡ self.now.space.committing }
    {
        self.space.is_committing()
    }

    /// How many nodes an image has at most, which is clean or not.
    pub fn most_nodes(&self, clean: bool) -> u32
        ensures { result ≡ nodes_at_most self.now.geometry.version clean self.now.geometry.cache_blocks }
    {
        self.geometry.most_nodes(clean)
    }

    /// Whether the free places are enough for an image: for a clean one where the committed one is of a mapping alone.
    fn has_places(&self, clean: bool) -> bool
        ensures { OnTrue result (clean ≡ true → self.now.nodes ≤ node_count self.now.geometry.cache_blocks) }
    {
        !clean || self.nodes <= self.geometry.node_count()
    }

    /// Ends the running commit, all of which was written and synced: its image is the committed one, and one commit more has ended.
    /// What was removed before it began is free, or reserved where a live replacement is to fill it.
    pub fn end_commit(&mut self)
        requires { self.old.space.committing ≡ true }
        ensures { self.new ≡ commit_ended self.old }
    {
        self.space.end();
        self.generation = next(self.generation);
        self.ended = next(self.ended);
        self.nodes = self.coming;
        self.coming = 0;
    }
}

/// A commit begins whose image writes these nodes, by what changed, or where all its places are listed, by these. Then those of
/// its dirty bits leave with the next one; else no place has left its image.
fn begin_space(
    space: &mut Space,
    left: &mut BitSet,
    nodes: &[(Place, Node)],
    used: &Option<Vec<Place>>,
)
    requires idle { space.old.committing ≡ false }
    requires size { length left.old ≡ length space.old.places.committed }
    ensures listed { IfSome used.now (λ used. space.new ≡ space_begun space.old (noted used.items (unused (length space.old.places.running)))) }
    ensures changed { IfNone used.now (space.new ≡ space_begun space.old (noted (map (λ node. node.0) nodes.now) (without left.old space.old.places.committed))) }
    ensures left { IfNone used.now (left.new ≡ unused (length left.old)) }
    ensures bits { IfSome used.now (λ _. left.new ≡ noted (map (λ node. node.0) (filter (λ node. node.1.dirty) nodes.now)) (unused (length left.old))) }
{
    match used {
        None => space.begin_changed(left, nodes),
        Some(used) => {
            space.begin(used);
            left.clear();
            note_bits(left, nodes);
        }
    }
}

/// How many places an image uses which has led to this tree: those that are listed, or one for each node.
fn count_used(tree: &Tree<Global>, used: &Option<Vec<Place>>) -> u32
    requires { IfSome used.now (λ used. length used.items < 2 ^ 32) }
    ensures listed { IfSome used.now (λ used. result ≡ length used.items) }
    ensures known { IfNone used.now (result ≡ length tree.now.known) }
{
    match used {
        None => tree.known_nodes(),
        Some(used) => used.len() as u32,
    }
}

/// The number that comes after one that is not the last, of a generation or a commit.
fn next(number: u64) -> u64
    requires { number + 1 < 2 ^ 64 }
    ensures { result ≡ number + 1 }
{
    1 + number
}
