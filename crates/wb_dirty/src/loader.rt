//! Reading of a tree of dirty bits, one node a call.

ghost use Rattle.std.specs.Prelude.{◌≡◌, ◌≢◌, ◌≤◌, ◌<◌, [], ◌∷◌, ◌++◌, ℕ, List, true, All, Some, None, Ok, Err, OnOk, IfOk, IfErr, IfSome, IfNone, IsSome, length};
ghost use Rattle.wb_types.specs.declared.refusal.Refusal.TheVariants.{Memory as OutOfMemory};
ghost use Rattle.wb_types.specs.declared.number.Place.{Place as At};
ghost use Rattle.wb_tree.specs.Reading.{Nodes};
ghost use Rattle.wb_tree.specs.Loading.{FailsBy, wanted_place};
ghost use Rattle.wb_types.specs.Limits.{dirty_depth_of};
ghost use Rattle.wb_dirty.specs.Reading.{Asked, Marks, is_dirty_node as is_right_node, slot_of_root as slot_in, dirty_top_read, dirty_read};
ghost use Rattle.wb_dirty.specs.Loading.{IsLevelOfChild, outcome_of, wanted_read, rest_read, MayReach, IsTold, FailsOnceTold};

use crate::bits::take_bits;
use crate::children::{Child, next_wanted, put_children};
use std::alloc::Global;
use std::marker::Model;
use wb_bits::BitSet;
use wb_format::{Node, Root};
use wb_tree::{PlacedNode, Reached, wanted_node};
use wb_types::{Place, Refusal};

/// A tree of dirty bits that is being read from its top, each node's words in rising order, a child before the next word.
///
/// While `wanted` names a place, `tell` is to be called with what the sector there spells. No place is wanted twice, nor
/// one of the mapping's nodes, and each is a sector of the root's metadata device, so this ends.
#[derive(Drop)]
pub struct DirtyLoader {
    root: Root,
    mapped: BitSet,
    reached: Reached<Place>,
    dirty: BitSet,
    /// Words whose nodes are still to be read, the next of them last.
    left: Vec<Child>,
    wanted: Option<PlacedNode>,
}

impl Model for DirtyLoader {
    ghost use Rattle.wb_dirty.specs.Loading.{DirtyLoading, IsDirtyLoading};

    ghost Value = { DirtyLoading };

    ghost view = { λ l. record { asked = record { root = l.root; mapped = l.mapped }; marks = record { reached = l.reached; dirty = l.dirty }; left = l.left.items; wanted = l.wanted } };

    ghost invariant = { λ l. IsDirtyLoading (record { asked = record { root = l.root; mapped = l.mapped }; marks = record { reached = l.reached; dirty = l.dirty }; left = l.left.items; wanted = l.wanted }) };
}

impl DirtyLoader {
    /// Begins to read the dirty bits of a root, behind its mapping: `mapped` has the cache blocks with an entry, and the mapping's
    /// nodes stand at these places. `Memory` where there is no room for the places and a bit for each cache block, `Damaged` with the
    /// root's slot where it names one of the places.
    pub fn new(
        alloc: Global,
        root: &Root,
        mapped: BitSet,
        places: &[Place],
    ) -> Result<DirtyLoader, Refusal>
        requires { length mapped ≡ root.now.geometry.cache_blocks }
        ensures asked { IfOk result (λ l. l.asked ≡ record { root = root.now; mapped = mapped }) }
        ensures reached { IfOk result (λ l. l.marks.reached ≡ places.now) }
        ensures begun { IfOk result (λ l. (nodes : Nodes) → outcome_of l nodes ≡ dirty_read (record { root = root.now; mapped = mapped }) nodes places.now) }
        ensures err { IfErr result (λ refusal. (nodes : Nodes) → FailsBy refusal (dirty_read (record { root = root.now; mapped = mapped }) nodes places.now)) }
        ensures memory { IfErr result (λ refusal. places.now ≡ [] → refusal ≡ OutOfMemory) }
    {
        let dirty = BitSet::new(alloc, root.geometry.cache_blocks as usize)?;
        let reached = reached_before(alloc, places)?;
        let wanted = first_wanted(root, &reached)?;
        Ok(DirtyLoader {
            root: *root,
            mapped,
            reached,
            dirty,
            left: Vec::new(alloc),
            wanted,
        })
    }

    /// The place of the node to be read next; none where the tree was read.
    pub fn wanted(&self) -> Option<Place>
        ensures place { result ≡ wanted_place self.now.wanted }
        ensures ended { IfNone result (self.now.wanted ≡ None) }
        ensures fresh { IfSome result (MayReach self.now.asked.root self.now.marks.reached) }
    {
        match self.wanted {
            Some(node) => Some(node.place),
            None => None,
        }
    }

    /// Goes on with what the sector at the wanted place spells: a node, or none. Nothing is done where none is wanted.
    /// `Damaged` with the place that the first fault of the tree names, `Memory` where there is no room for what the node is
    /// remembered by.
    pub fn tell(self, node: Option<Node>) -> Result<DirtyLoader, Refusal>
        ensures ok { IfOk result (IsTold self node) }
        ensures err { IfErr result (FailsOnceTold self node) }
    {
        let Some(wanted) = self.wanted else {
            return Ok(self);
        };
        let node = wanted_node(&self.root, wanted, node, true)?;
        let DirtyLoader {
            root,
            mapped,
            mut reached,
            mut dirty,
            mut left,
            ..
        } = self;
        reached.push(wanted.place)?;
        take_in(&root, wanted, &node, &mapped, &mut dirty, &mut left)?;
        let wanted = next_wanted(&root, &reached, &mut left)?;
        Ok(DirtyLoader {
            root,
            mapped,
            reached,
            dirty,
            left,
            wanted,
        })
    }

    /// The dirty blocks, once no node is wanted: what was read, of whatever sectors read as they were told.
    pub fn finish(self) -> BitSet
        requires { self.wanted ≡ None }
        ensures dirty { result ≡ self.marks.dirty }
        ensures read { (nodes : Nodes) → outcome_of self nodes ≡ Ok self.marks }
    {
        let DirtyLoader { dirty, .. } = self;
        dirty
    }
}

/// Takes the bits of a leaf, or puts the words of a node above the leaves on top of those whose nodes are still to be read: what the node
/// gives, and then what was left, is what is left now. `Damaged` with the place of a leaf that has a bit of a block without an entry, `Memory`
/// where there is no room.
fn take_in(
    root: &Root,
    wanted: PlacedNode,
    node: &Node,
    mapped: &BitSet,
    dirty: &mut BitSet,
    left: &mut Vec<Child>,
) -> Result<(), Refusal>
    requires right { is_right_node root.now wanted.level wanted.index node.now ≡ true }
    requires from { 1 ≤ wanted.level }
    requires to { wanted.level ≤ 3 }
    requires sizes { length dirty.old ≡ length mapped.now }
    requires levels { All IsLevelOfChild left.old.items }
    ensures ok { OnOk result ((nodes : Nodes) (reached : List At) → nodes wanted.place.0 ≡ Some node.now
        → wanted_read (record { root = root.now; mapped = mapped.now }) nodes left.old.items (Some wanted) (record { reached = reached; dirty = dirty.old })
        ≡ rest_read (record { root = root.now; mapped = mapped.now }) nodes left.new.items (record { reached = reached ++ wanted.place ∷ []; dirty = dirty.new })) }
    ensures sizes { OnOk result (length dirty.new ≡ length dirty.old) }
    ensures levels { OnOk result (All IsLevelOfChild left.new.items) }
    ensures err { IfErr result (λ refusal. (nodes : Nodes) (reached : List At) → nodes wanted.place.0 ≡ Some node.now
        → FailsBy refusal (wanted_read (record { root = root.now; mapped = mapped.now }) nodes left.old.items (Some wanted) (record { reached = reached; dirty = dirty.old }))) }
{
    if wanted.level == 1 {
        if let Err(refusal) = take_bits(wanted, &node.words, mapped, dirty) {
            return Err(refusal);
        }
    } else {
        put_children(wanted, &node.words, left)?;
    }
    Ok(())
}

/// The top of the dirty bits of a root, where it names one. `Damaged` with the root's slot where something was read at its place.
fn first_wanted(root: &Root, reached: &Reached<Place>) -> Result<Option<PlacedNode>, Refusal>
    ensures begun { IfOk result (λ wanted. (asked : Asked) (nodes : Nodes) (marks : Marks) → asked.root ≡ root.now → marks.reached ≡ reached.now
        → wanted_read asked nodes [] wanted marks ≡ dirty_top_read asked nodes (dirty_depth_of root.now.geometry.cache_blocks) root.now.top_dirty marks) }
    ensures fresh { IfOk result (λ wanted. IfSome wanted (λ node. MayReach root.now reached.now node.place)) }
    ensures level_from { IfOk result (λ wanted. IfSome wanted (λ node. 1 ≤ node.level)) }
    ensures level_to { IfOk result (λ wanted. IfSome wanted (λ node. node.level ≤ 3)) }
    ensures err { IfErr result (λ refusal. (asked : Asked) (nodes : Nodes) (marks : Marks) → asked.root ≡ root.now → marks.reached ≡ reached.now
        → FailsBy refusal (dirty_top_read asked nodes (dirty_depth_of root.now.geometry.cache_blocks) root.now.top_dirty marks)) }
    ensures after { IfErr result (λ refusal. reached.now ≢ []) }
{
    let Some(top) = root.top_dirty else {
        return Ok(None);
    };
    if reached.contains(top) {
        return Err(Refusal::Damaged(slot_of(root)));
    }
    Ok(Some(top_at(root, top)))
}

/// The top node of the dirty bits of a root.
fn top_at(root: &Root, place: Place) -> PlacedNode
    ensures is { result ≡ record { level = dirty_depth_of root.now.geometry.cache_blocks; index = 0; place = place } }
    ensures level_from { 1 ≤ result.level }
    ensures level_to { result.level ≤ 3 }
{
    PlacedNode {
        level: root.geometry.dirty_depth(),
        index: 0,
        place,
    }
}

/// The slot in which a root of its generation stands.
fn slot_of(root: &Root) -> Place
    ensures { result ≡ slot_in root.now }
{
    Place((root.generation % 2) as u32)
}

/// These places, in their order. `Memory` where there is no room for them.
fn reached_before(alloc: Global, places: &[Place]) -> Result<Reached<Place>, Refusal>
    ensures ok { IfOk result (λ reached. reached ≡ places.now) }
    ensures refused { IfErr result (λ refusal. refusal ≡ OutOfMemory) }
{
    let mut reached = Reached::new(alloc);
    for place in places {
        reached.push(*place)?;
    }
    Ok(reached)
}
