//! The dirty bits that a clean image has beside its tree, in metadata of the second version.

ghost use Rattle.std.specs.Prelude.{◌≡◌, ◌≤◌, ◌<◌, ◌+◌, ◌++◌, ℕ, true, IfOk, IfErr, length, map, filter, slice_get};
ghost use Rattle.wb_types.specs.Limits.{dirty_node_count};
ghost use Rattle.wb_types.specs.declared.number.Place.{Place as At};
ghost use Rattle.wb_types.specs.declared.version.Version.TheVariants.{Two};
ghost use Rattle.wb_tree.specs.Mapping.{Mapping, used_places};
ghost use Rattle.wb_tree.specs.Images.{ImagePlan, IsImage};
ghost use Rattle.wb_space.specs.Places.{noted};
ghost use Rattle.wb_meta.specs.CleanImages.{IsImageWithBits};
ghost use Rattle.wb_desk.specs.Marks.{bits_of_mapped};

use std::alloc::Global;
use wb_bits::BitSet;
use wb_dirty::plan_dirty;
use wb_format::Node;
use wb_meta::image_with_bits;
use wb_space::note_left;
use wb_tree::{Image, Tree};
use wb_types::{CBlock, Geometry, Place, Refusal};

/// The clean image of a tree with these dirty bits beside it, of the blocks that have an entry: their nodes go on the next of the
/// free places. `Memory` where there is none for it.
pub(super) fn with_bits(
    alloc: Global,
    image: Image,
    tree: &Tree<Global>,
    dirty: &[bool],
    free: &[Place],
) -> Result<Image, Refusal>
    requires second { image.root.version ≡ Two }
    requires clean { image.root.clean ≡ true }
    requires size { length tree.now.entries ≡ image.root.geometry.cache_blocks }
    requires seen { length dirty.now ≡ image.root.geometry.cache_blocks }
    requires enough { length image.nodes.items + dirty_node_count image.root.geometry.cache_blocks ≤ length free.now }
    requires behind { (i : ℕ) (place : At) → slice_get free.now i ≡ Some place → 2 ≤ place.0 }
    requires inside { (i : ℕ) (place : At) → slice_get free.now i ≡ Some place → place.0 < image.root.geometry.meta_sectors }
    ensures image { IfOk result (λ whole. (m : Mapping) (plan : ImagePlan) → plan.free ≡ free.now → IsImage m tree.now plan image
        → IsImageWithBits (bits_of_mapped dirty.now tree.now.entries) m tree.now plan whole) }
    ensures refused { IfErr result (λ e. e ≡ Refusal.Memory) }
{
    let bits = mapped_bits(alloc, tree, &image.root.geometry, dirty)?;
    let behind = &free[image.nodes.len()..];
    let marks = plan_dirty(alloc, &bits, image.root.generation, behind)?;
    image_with_bits(image, marks)
}

/// The set of these dirty blocks that have an entry.
fn mapped_bits(
    alloc: Global,
    tree: &Tree<Global>,
    geometry: &Geometry,
    dirty: &[bool],
) -> Result<BitSet, Refusal>
    requires size { length tree.now.entries ≡ geometry.now.cache_blocks }
    requires seen { length dirty.now ≡ geometry.now.cache_blocks }
    ensures bits { IfOk result (λ bits. bits ≡ bits_of_mapped dirty.now tree.now.entries) }
    ensures refused { IfErr result (λ e. e ≡ Refusal.Memory) }
{
    let mut bits = BitSet::new(alloc, geometry.cache_blocks as usize)?;
    for c in 0..geometry.cache_blocks {
        let is_mapped = tree.get(CBlock(c)).is_some();
        bits.set(c as usize, dirty[c as usize] && is_mapped);
    }
    Ok(bits)
}

/// The places that an image uses which has led to this tree: the tree's, and behind them those of its dirty bits.
pub(super) fn all_places(
    alloc: Global,
    tree: &Tree<Global>,
    nodes: &[(Place, Node)],
) -> Result<Vec<Place>, Refusal>
    ensures places { IfOk result (λ used. used.items ≡ used_places tree.now ++ map (λ node. node.0) (filter (λ node. node.1.dirty) nodes.now)) }
    ensures refused { IfErr result (λ e. e ≡ Refusal.Memory) }
{
    let mut used = tree.places(alloc)?;
    for node in nodes {
        if node.1.dirty {
            used.reserve(1)?;
            used.push_reserved(node.0);
        }
    }
    Ok(used)
}

/// The places of the dirty bits among these nodes left: they are free from the next image on.
pub(super) fn note_bits(left: &mut BitSet, nodes: &[(Place, Node)])
    ensures { left.new ≡ noted (map (λ node. node.0) (filter (λ node. node.1.dirty) nodes.now)) left.old }
{
    for node in nodes {
        if node.1.dirty {
            note_left(left, &[Some(node.0)]);
        }
    }
}
