//! Reading of an image, one node a call: the mapping, and behind it the dirty bits.

ghost use Rattle.std.specs.Prelude.{◌≡◌, [], ◌++◌, Some, None, Ok, IfOk, IfErr, IfSome, IfNone, IsSome, is_some, map};
ghost use Rattle.wb_types.specs.declared.refusal.Refusal.TheVariants.{Memory as OutOfMemory};
ghost use Rattle.wb_tree.specs.Reading.{Nodes, tree_read};
ghost use Rattle.wb_tree.specs.Loading.{wanted_place, IsFresh};
ghost use Rattle.wb_tree.specs.Loaded.{IsLoaded, IsMappingOf};
ghost use Rattle.wb_dirty.specs.ImageReading.{image_read, with_bits};
ghost use Rattle.wb_dirty.specs.ImageLoading.{image_outcome, mapping_outcome, mapping_found, bits_reached, ImageGoesOn, MappingGoesOn, ImageHasReached, ImageFailsAt};

use crate::image_part::ImagePart;
use crate::image_steps::{begin, tell_part};
use std::alloc::{Allocator, Global};
use std::marker::Model;
use wb_bits::BitSet;
use wb_format::{Node, Root};
use wb_tree::{Tree, places_of};
use wb_types::{Place, Refusal};

/// An image that is being read: the mapping of its root from the top, and behind it the dirty bits, where the root names a tree of
/// them. Of each node the words are read in rising order, a child before the next word.
///
/// While `wanted` names a place, `tell` is to be called with what the sector there spells. No place is wanted twice over both
/// trees, and each is a sector of the root's metadata device, so this ends.
#[derive(Drop)]
pub struct ImageLoader<A: Allocator> {
    /// What all is made of that is kept no longer than the reading.
    global: Global,
    root: Root,
    part: ImagePart<A>,
}

impl<A: Allocator> Model for ImageLoader<A> {
    ghost use Rattle.wb_dirty.specs.ImageLoading.{ImageLoading, IsImagePart, image_loading, part_read};

    ghost Value = { ImageLoading };

    ghost view = { λ l. image_loading l.root (part_read l.root l.part) };

    ghost invariant = { λ l. IsImagePart l.root l.part };
}

impl<A: Allocator + Clone> ImageLoader<A> {
    /// Begins to read the image of a root. `Memory` where there is no room for the entries of its mapping and for a mark for each
    /// origin block, or where the mapping is empty for a bit for each cache block.
    pub fn new(alloc: A, global: Global, root: &Root) -> Result<ImageLoader<A>, Refusal>
        ensures begun { IfOk result (λ l. (nodes : Nodes) → image_outcome l nodes ≡ image_read root.now nodes) }
        ensures begun_mapping { IfOk result (λ l. (nodes : Nodes) → mapping_outcome l nodes ≡ tree_read root.now nodes) }
        ensures root { IfOk result (λ l. l.root ≡ root.now) }
        ensures nothing { IfOk result (λ l. l.found.reached ≡ []) }
        ensures refused { IfErr result (λ refusal. refusal ≡ OutOfMemory) }
    {
        let part = begin(alloc, global, root)?;
        Ok(ImageLoader {
            global,
            root: *root,
            part,
        })
    }

    /// The place of the node to be read next; none where all was read.
    pub fn wanted(&self) -> Option<Place>
        ensures place { result ≡ wanted_place self.now.wanted }
        ensures ended { IfNone result (self.now.wanted ≡ None) }
        ensures fresh { IfSome result (IsFresh self.now.root self.now.found.reached) }
    {
        match &self.part {
            ImagePart::Alone(loader) => loader.wanted(),
            ImagePart::Ahead { loader, .. } => loader.wanted(),
            ImagePart::Behind { loader, .. } => loader.wanted(),
        }
    }

    /// Goes on with what the sector at the wanted place spells: a node, or none. Nothing is done where none is wanted. Behind the
    /// last node of the mapping the dirty bits come, where the root names them.
    ///
    /// `Damaged` with the place that the first fault of the image names, `Memory` where there is no room for what is remembered of
    /// the node, or with the mapping's last node for its tree and for what the dirty bits are read by.
    pub fn tell(self, node: Option<Node>) -> Result<ImageLoader<A>, Refusal>
        ensures goes_on { IfOk result (λ l. ImageGoesOn self node l) }
        ensures mapping { IfOk result (λ l. MappingGoesOn self node l) }
        ensures reached { IfOk result (λ l. ImageHasReached self l) }
        ensures root { IfOk result (λ l. l.root ≡ self.root) }
        ensures idle { IfOk result (λ l. self.wanted ≡ None → l ≡ self) }
        ensures cause { IfErr result (λ _. IsSome self.wanted) }
        ensures err { IfErr result (λ refusal. ImageFailsAt self node refusal) }
    {
        let ImageLoader { global, root, part } = self;
        let part = tell_part(global, &root, part, node)?;
        Ok(ImageLoader { global, root, part })
    }

    /// The tree of the mapping, the dirty bits where the root names them, and the places of the mapping's nodes in the order in
    /// which they were read; those of the dirty bits are not among them. What the tree knows of its nodes is what `Loader` says.
    /// `Memory` where there is no room for the tree or the places.
    pub fn finish(self, global: Global) -> Result<(Tree<A>, Option<BitSet>, Vec<Place>), Refusal>
        requires { self.wanted ≡ None }
        ensures read { (nodes : Nodes) → image_outcome self nodes ≡ Ok self.found }
        ensures read_mapping { (nodes : Nodes) → mapping_outcome self nodes ≡ Ok (mapping_found self.part) }
        ensures reached { self.found.reached ≡ (mapping_found self.part).reached ++ bits_reached self.part }
        ensures alone { self.root.top_dirty ≡ None → bits_reached self.part ≡ [] }
        ensures entries { IfOk result (λ loaded. with_bits loaded.1 loaded.0.entries ≡ self.found.entries) }
        ensures mapping_entries { IfOk result (λ loaded. loaded.0.entries ≡ (mapping_found self.part).entries) }
        ensures bits { IfOk result (λ loaded. is_some loaded.1 ≡ is_some self.root.top_dirty) }
        ensures mapping { IfOk result (λ loaded. IsMappingOf self.root loaded.0) }
        ensures places { IfOk result (λ loaded. loaded.2.items ≡ map (λ node. node.place) (mapping_found self.part).reached) }
        ensures known { IfOk result (λ loaded. IsLoaded self.root (mapping_found self.part) loaded.0) }
        ensures refused { IfErr result (λ refusal. refusal ≡ OutOfMemory) }
    {
        match self.part {
            ImagePart::Alone(loader) => {
                let (tree, places) = loader.finish(global)?;
                Ok((tree, None, places))
            }
            ImagePart::Ahead { .. } => unreachable!(),
            ImagePart::Behind {
                tree,
                nodes,
                loader,
            } => {
                let dirty = loader.finish();
                let places = places_of(global, &nodes)?;
                Ok((tree, Some(dirty), places))
            }
        }
    }
}
