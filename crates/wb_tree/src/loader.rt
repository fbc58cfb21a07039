//! Reading of a tree, one node a call.

ghost use Rattle.std.specs.Prelude.{◌≡◌, ◌≤◌, [], ◌∷◌, ◌++◌, true, Some, None, Ok, IfOk, IfErr, IfSome, IfNone, map};
ghost use Rattle.wb_types.specs.declared.refusal.Refusal.TheVariants.{Memory as OutOfMemory};
ghost use Rattle.wb_tree.specs.Reading.{Nodes, tree_read, is_node_of as is_right_node};
ghost use Rattle.wb_tree.specs.Loading.{outcome, wanted_place, top_node, IsFresh, FailsBy, LoadingGoesOn, HasReached, FailsAt};
ghost use Rattle.wb_tree.specs.Loaded.{IsLoaded, IsMappingOf};

use crate::frame::Frame;
use crate::frames::{next_wanted, take_in};
use crate::placed::{all_exist, places_of};
use crate::reached::Reached;
use crate::wanted::wanted_node;
use crate::{PlacedNode, Tree};
use std::alloc::{Allocator, Global};
use std::marker::Model;
use wb_format::{Node, Root};
use wb_types::{Entry, Place, Refusal};

/// A tree that is being read from its top, each node's words in rising order, a child before the next word.
///
/// While `wanted` names a place, `tell` is to be called with what the sector there spells. No place is wanted
/// twice, and each is a sector of the root's metadata device, so this ends.
#[derive(Drop)]
pub struct Loader<A: Allocator> {
    /// What the tree is to be made of.
    alloc: A,
    root: Root,
    entries: Vec<Option<Entry>>,
    /// Of each origin block whether it stands in an entry.
    mapped: Vec<bool>,
    reached: Reached<PlacedNode>,
    /// The nodes above the leaves whose words are being read, from the top down.
    frames: Vec<Frame>,
    wanted: Option<PlacedNode>,
}

impl<A: Allocator> Model for Loader<A> {
    ghost use Rattle.wb_tree.specs.Loading.{Loading, IsLoading, loading_of};

    ghost Value = { Loading };

    ghost view = { λ l. loading_of l.root l.reached l.entries.items l.mapped.items l.frames.items l.wanted };

    ghost invariant = { λ l. IsLoading (loading_of l.root l.reached l.entries.items l.mapped.items l.frames.items l.wanted) };
}

impl<A: Allocator + Clone> Loader<A> {
    /// Begins to read the tree of a root. `Memory` where there is no room for its entries and for a mark for each
    /// origin block.
    pub fn new(alloc: A, global: Global, root: &Root) -> Result<Loader<A>, Refusal>
        ensures begun { IfOk result (λ l. (nodes : Nodes) → outcome l nodes ≡ tree_read root.now nodes) }
        ensures root { IfOk result (λ l. l.root ≡ root.now) }
        ensures nothing { IfOk result (λ l. l.found.reached ≡ []) }
        ensures refused { IfErr result (λ refusal. refusal ≡ OutOfMemory) }
    {
        let mut entries = Vec::new(global);
        entries.resize(root.geometry.cache_blocks as usize, None)?;
        let mut mapped = Vec::new(global);
        mapped.resize(root.geometry.origin_blocks as usize, false)?;
        Ok(Loader {
            alloc,
            root: *root,
            entries,
            mapped,
            reached: Reached::new(global),
            frames: Vec::new(global),
            wanted: top_of(root),
        })
    }

    /// The place of the node to be read next; none where the tree was read.
    pub fn wanted(&self) -> Option<Place>
        ensures place { result ≡ wanted_place self.now.wanted }
        ensures ended { IfNone result (self.now.wanted ≡ None) }
        ensures fresh { IfSome result (IsFresh self.now.root self.now.found.reached) }
    {
        let node = self.wanted?;
        Some(node.place)
    }

    /// Goes on with what the sector at the wanted place spells: a node, or none. Nothing is done where none is
    /// wanted. `Damaged` with the place that the first fault of the tree names, `Memory` where there is no room for
    /// what the node is remembered by.
    pub fn tell(self, node: Option<Node>) -> Result<Loader<A>, Refusal>
        ensures goes_on { IfOk result (λ l. LoadingGoesOn self node l) }
        ensures reached { IfOk result (λ l. HasReached self l) }
        ensures root { IfOk result (λ l. l.root ≡ self.root) }
        ensures idle { IfOk result (λ l. self.wanted ≡ None → l ≡ self) }
        ensures err { IfErr result (FailsAt self node) }
    {
        let Some(wanted) = self.wanted else {
            return Ok(self);
        };
        let node = wanted_node(&self.root, wanted, node, false)?;
        self.enter(wanted, &node)
    }

    /// The tree, and the places of its nodes in the order in which they were read. All nodes are known to it, so that
    /// the next image writes none of them that does not change; but where a node has no entry below it, which no
    /// image has, none is, so that the next image writes all of them. `Memory` where there is no room for the tree
    /// or the places.
    pub fn finish(self, global: Global) -> Result<(Tree<A>, Vec<Place>), Refusal>
        requires { self.wanted ≡ None }
        ensures read { (nodes : Nodes) → outcome self nodes ≡ Ok self.found }
        ensures entries { IfOk result (λ loaded. loaded.0.entries ≡ self.found.entries) }
        ensures mapping { IfOk result (λ loaded. IsMappingOf self.root loaded.0) }
        ensures places { IfOk result (λ loaded. loaded.1.items ≡ map (λ node. node.place) self.found.reached) }
        ensures known { IfOk result (λ loaded. IsLoaded self.root self.found loaded.0) }
        ensures refused { IfErr result (λ refusal. refusal ≡ OutOfMemory) }
    {
        let Loader {
            alloc,
            root,
            entries,
            reached,
            ..
        } = self;
        let nodes = reached.into_items();
        let places = places_of(global, &nodes)?;
        let known = if all_exist(&entries, &nodes) {
            nodes
        } else {
            Vec::new(global)
        };
        let tree = Tree::of_entries(alloc, root.geometry.cache_blocks, &entries, &known)?;
        Ok((tree, places))
    }

    /// Goes on with the node that is wanted.
    fn enter(self, wanted: PlacedNode, node: &Node) -> Result<Loader<A>, Refusal>
        requires wanted { self.wanted ≡ Some wanted }
        requires right { is_right_node self.root wanted.level wanted.index node.now ≡ true }
        ensures goes_on { IfOk result (λ l. (nodes : Nodes) → nodes wanted.place.0 ≡ Some node.now
            → outcome l nodes ≡ outcome self nodes) }
        ensures reached { IfOk result (λ l. l.found.reached ≡ self.found.reached ++ wanted ∷ []) }
        ensures root { IfOk result (λ l. l.root ≡ self.root) }
        ensures err { IfErr result (λ refusal. (nodes : Nodes) → nodes wanted.place.0 ≡ Some node.now
            → FailsBy refusal (outcome self nodes)) }
    {
        let Loader {
            alloc,
            root,
            mut entries,
            mut mapped,
            mut reached,
            mut frames,
            ..
        } = self;
        reached.push(wanted)?;
        take_in(&root, wanted, node, &mut entries, &mut mapped, &mut frames)?;
        match next_wanted(&root, &reached, &mut frames) {
            Ok(wanted) => Ok(Loader {
                alloc,
                root,
                entries,
                mapped,
                reached,
                frames,
                wanted,
            }),
            Err(refusal) => Err(refusal),
        }
    }
}

/// The top node of a root's tree.
fn top_of(root: &Root) -> Option<PlacedNode>
    ensures { result ≡ top_node root.now }
{
    match root.top {
        None => None,
        Some(place) => Some(PlacedNode {
            level: root.geometry.depth(),
            index: 0,
            place,
        }),
    }
}
