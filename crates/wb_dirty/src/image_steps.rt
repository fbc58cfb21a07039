//! Steps of the reading of an image: where its mapping was read, it goes over to the dirty bits.

ghost use Rattle.std.specs.Prelude.{◌≡◌, ◌<◌, ◌^◌, [], ◌∷◌, ◌++◌, Some, None, IfOk, IfErr, IsSome, is_some, length, map};
ghost use Rattle.wb_types.specs.declared.refusal.Refusal.TheVariants.{Memory as OutOfMemory};
ghost use Rattle.wb_types.specs.declared.number.Place.{Place as At};
ghost use Rattle.wb_tree.specs.declared.placed.PlacedNode.{PlacedNode as NodeAt};
ghost use Rattle.wb_tree.specs.Reading.{Nodes, tree_read};
ghost use Rattle.wb_tree.specs.Loading.{FailsBy};
ghost use Rattle.wb_dirty.specs.ImageReading.{image_read};
ghost use Rattle.wb_dirty.specs.ImageLoading.{PartRead, IsImagePart, IsAhead, part_read, part_outcome, part_mapping_outcome, found_so_far, next_node, node_told};
ghost use Rattle.wb_dirty.specs.ImageLoading.PartRead.{OfMapping};

use crate::DirtyLoader;
use crate::image_part::ImagePart;
use std::alloc::{Allocator, Global};
use wb_bits::BitSet;
use wb_format::{Node, Root};
use wb_tree::{Loader, PlacedNode, Tree};
use wb_types::{CBlock, Place, Refusal};

/// Begins with the mapping.
pub(crate) fn begin<A: Allocator + Clone>(
    alloc: A,
    global: Global,
    root: &Root,
) -> Result<ImagePart<A>, Refusal>
    ensures part { IfOk result (IsImagePart root.now) }
    ensures begun { IfOk result (λ part. (nodes : Nodes) → part_outcome root.now (part_read root.now part) nodes ≡ image_read root.now nodes) }
    ensures begun_mapping { IfOk result (λ part. (nodes : Nodes) → part_mapping_outcome (part_read root.now part) nodes ≡ tree_read root.now nodes) }
    ensures nothing { IfOk result (λ part. (found_so_far (part_read root.now part)).reached ≡ []) }
    ensures refused { IfErr result (λ refusal. refusal ≡ OutOfMemory) }
{
    let loader = Loader::new(alloc, global, root)?;
    if root.top_dirty.is_none() {
        return Ok(ImagePart::Alone(loader));
    }
    go_on(global, root, loader, Vec::new(global))
}

/// Goes on with the mapping, or where it was read with the dirty bits. `Memory` where there is no room for what these are read by,
/// `Damaged` with the root's slot where it names one of the mapping's places as their top.
fn go_on<A: Allocator + Clone>(
    global: Global,
    root: &Root,
    loader: Loader<A>,
    nodes: Vec<PlacedNode>,
) -> Result<ImagePart<A>, Refusal>
    requires { IsAhead root.now loader nodes.items }
    ensures part { IfOk result (IsImagePart root.now) }
    ensures goes_on { IfOk result (λ part. (nodes : Nodes) → part_outcome root.now (part_read root.now part) nodes ≡ part_outcome root.now (OfMapping loader) nodes) }
    ensures mapping { IfOk result (λ part. (nodes : Nodes) → part_mapping_outcome (part_read root.now part) nodes ≡ part_mapping_outcome (OfMapping loader) nodes) }
    ensures reached { IfOk result (λ part. (found_so_far (part_read root.now part)).reached ≡ loader.found.reached) }
    ensures err { IfErr result (λ refusal. (nodes : Nodes) → FailsBy refusal (part_outcome root.now (OfMapping loader) nodes)) }
    ensures none { IfErr result (λ refusal. loader.found.reached ≡ [] → refusal ≡ OutOfMemory) }
{
    if loader.wanted().is_some() {
        return Ok(ImagePart::Ahead { loader, nodes });
    }
    let (tree, places) = loader.finish(global)?;
    let mapped = blocks_mapped(global, root, &tree)?;
    match DirtyLoader::new(global, root, mapped, &places) {
        Ok(loader) => Ok(ImagePart::Behind {
            tree,
            nodes,
            loader,
        }),
        Err(refusal) => Err(refusal),
    }
}

/// Goes on with what the sector at the wanted place spells: a node, or none. Nothing is done where none is wanted.
pub(crate) fn tell_part<A: Allocator + Clone>(
    global: Global,
    root: &Root,
    part: ImagePart<A>,
    node: Option<Node>,
) -> Result<ImagePart<A>, Refusal>
    requires { IsImagePart root.now part }
    ensures part { IfOk result (IsImagePart root.now) }
    ensures goes_on { IfOk result (λ next. (wanted : NodeAt) (nodes : Nodes) → next_node (part_read root.now part) ≡ Some wanted → nodes wanted.place.0 ≡ node
        → part_outcome root.now (part_read root.now next) nodes ≡ part_outcome root.now (part_read root.now part) nodes) }
    ensures mapping { IfOk result (λ next. (wanted : NodeAt) (nodes : Nodes) → next_node (part_read root.now part) ≡ Some wanted → nodes wanted.place.0 ≡ node
        → part_mapping_outcome (part_read root.now next) nodes ≡ part_mapping_outcome (part_read root.now part) nodes) }
    ensures reached { IfOk result (λ next. (wanted : NodeAt) → next_node (part_read root.now part) ≡ Some wanted
        → (found_so_far (part_read root.now next)).reached ≡ (found_so_far (part_read root.now part)).reached ++ wanted ∷ []) }
    ensures idle { IfOk result (λ next. next_node (part_read root.now part) ≡ None → part_read root.now next ≡ part_read root.now part) }
    ensures cause { IfErr result (λ _. IsSome (next_node (part_read root.now part))) }
    ensures err { IfErr result (λ refusal. (wanted : NodeAt) (nodes : Nodes) → next_node (part_read root.now part) ≡ Some wanted → nodes wanted.place.0 ≡ node
        → FailsBy refusal (part_outcome root.now (part_read root.now part) nodes)) }
{
    match part {
        ImagePart::Alone(loader) => Ok(ImagePart::Alone(loader.tell(node)?)),
        ImagePart::Ahead { loader, nodes } => tell_ahead(global, root, loader, nodes, node),
        ImagePart::Behind {
            tree,
            nodes,
            loader,
        } => Ok(ImagePart::Behind {
            tree,
            nodes,
            loader: loader.tell(node)?,
        }),
    }
}

/// Goes on with the mapping.
fn tell_ahead<A: Allocator + Clone>(
    global: Global,
    root: &Root,
    loader: Loader<A>,
    mut nodes: Vec<PlacedNode>,
    node: Option<Node>,
) -> Result<ImagePart<A>, Refusal>
    requires ahead { IsAhead root.now loader nodes.items }
    requires some { IsSome loader.wanted }
    ensures part { IfOk result (IsImagePart root.now) }
    ensures goes_on { IfOk result (λ next. (wanted : NodeAt) (nodes : Nodes) → loader.wanted ≡ Some wanted → nodes wanted.place.0 ≡ node
        → part_outcome root.now (part_read root.now next) nodes ≡ part_outcome root.now (OfMapping loader) nodes) }
    ensures mapping { IfOk result (λ next. (wanted : NodeAt) (nodes : Nodes) → loader.wanted ≡ Some wanted → nodes wanted.place.0 ≡ node
        → part_mapping_outcome (part_read root.now next) nodes ≡ part_mapping_outcome (OfMapping loader) nodes) }
    ensures reached { IfOk result (λ next. (wanted : NodeAt) → loader.wanted ≡ Some wanted → (found_so_far (part_read root.now next)).reached ≡ loader.found.reached ++ wanted ∷ []) }
    ensures err { IfErr result (λ refusal. (wanted : NodeAt) (nodes : Nodes) → loader.wanted ≡ Some wanted → nodes wanted.place.0 ≡ node
        → FailsBy refusal (part_outcome root.now (OfMapping loader) nodes)) }
{
    let Some(place) = loader.wanted() else {
        unreachable!()
    };
    nodes.reserve(1)?;
    nodes.push_reserved(node_at(&node, place));
    match loader.tell(node) {
        Ok(loader) => go_on(global, root, loader, nodes),
        Err(refusal) => Err(refusal),
    }
}

/// The node that the sector at this place spells.
fn node_at(node: &Option<Node>, place: Place) -> PlacedNode
    ensures { result ≡ node_told node.now place }
{
    match node {
        Some(node) => PlacedNode {
            level: node.level,
            index: node.index,
            place,
        },
        None => PlacedNode {
            level: 0,
            index: 0,
            place,
        },
    }
}

/// The cache blocks that have an entry. `Memory` where there is no room for a bit for each.
fn blocks_mapped<A: Allocator + Clone>(
    global: Global,
    root: &Root,
    tree: &Tree<A>,
) -> Result<BitSet, Refusal>
    requires { length tree.now.entries ≡ root.now.geometry.cache_blocks }
    ensures mapped { IfOk result (λ mapped. mapped ≡ map is_some tree.now.entries) }
    ensures refused { IfErr result (λ refusal. refusal ≡ OutOfMemory) }
{
    let blocks = root.geometry.cache_blocks;
    let mut mapped = BitSet::new(global, blocks as usize)?;
    for block in 0..blocks {
        if tree.get(CBlock(block)).is_some() {
            mapped.insert(block as usize);
        }
    }
    Ok(mapped)
}
