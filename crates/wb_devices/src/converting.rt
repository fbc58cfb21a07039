//! Metadata of the first version, written anew in the second.

ghost use Rattle.std.specs.Prelude.{◌≡◌, ◌≤◌, ◌⊎◌, ◌+◌, ◌^◌, false, List, Some, None, IfOk, IfErr, length};
ghost use Rattle.wb_types.specs.Limits.{node_count};
ghost use Rattle.wb_types.specs.declared.number.Place.{Place as PlaceValue};
ghost use Rattle.wb_types.specs.declared.refusal.Refusal.TheVariants.{GenerationEnd as NoNextGeneration, Memory as OutOfMemory};
ghost use Rattle.wb_types.specs.declared.version.Version.TheVariants.{One, Two};
ghost use Rattle.wb_format.specs.NodeWords.{kept};
ghost use Rattle.wb_tree.specs.Mapping.{Mapping};
ghost use Rattle.wb_tree.specs.Images.{ImagePlan, IsImage};
ghost use Rattle.wb_meta.specs.Conversions.{dirty_bits_of, written_anew};
ghost use Rattle.wb_meta.specs.Imaging.{HasUnused};
ghost use Rattle.wb_meta.specs.Openings.{reopened};
ghost use Rattle.wb_meta.specs.Reads.{FitsDevice};
ghost use Rattle.wb_meta.specs.Sizes.{AreSameSizes};
ghost use Rattle.wb_devices.specs.Converting.{IsConverted, least_unused};

use crate::clean::is_mapped_dirty;
use std::alloc::{Allocator, Global};
use wb_bits::BitSet;
use wb_format::Root;
use wb_meta::{Image, State};
use wb_space::{Places, place_count};
use wb_tree::Tree;
use wb_types::{CBlock, Entry, Geometry, Place, Refusal};

/// The state that was read of metadata of the first version as metadata of this geometry, which are of the second, have it, and the image
/// that leads there: it has every node of the mapping, without the dirty bits, on the least places that the first version leaves, and its
/// root is the next one, not clean. The dirty bits stand beside the tree.
///
/// `GenerationEnd` where there is no next generation, and `Memory`. There are always places enough. It visits the cache blocks and the places.
pub(crate) fn convert<A: Allocator + Clone>(
    global: Global,
    alloc: A,
    state: State<A>,
    asked: &Geometry,
) -> Result<(State<A>, Image), Refusal>
    requires fits { FitsDevice asked.now.meta_sectors state.root state.tree state.used.items }
    requires first { state.root.geometry.version ≡ One }
    requires in_tree { state.dirty ≡ None }
    requires second { asked.now.version ≡ Two }
    requires sizes { AreSameSizes state.root.geometry asked.now }
    ensures converted { IfOk result (λ both. IsConverted asked.now state both.1 both.0) }
    ensures refused { IfErr result (λ refusal. (refusal ≡ OutOfMemory) ⊎ ((refusal ≡ NoNextGeneration) × (state.root.generation + 1 ≡ 2 ^ 64))) }
{
    let Some(generation) = state.root.generation.checked_add(1) else {
        return Err(Refusal::GenerationEnd);
    };
    let dirty = dirty_bits(global, &state.tree, asked.cache_blocks)?;
    let mut tree = written_anew(alloc, &state.tree, asked.cache_blocks)?;
    let free = unused_places(global, asked, &state.used, tree.changed_nodes())?;
    let planned = tree.plan(global, asked, generation, false, &free)?;
    let (root, image) = roots_of(&state.root, planned);
    let used = tree.places(global)?;
    let nodes = image.nodes.len();
    let converted = State {
        root,
        tree,
        dirty: Some(dirty),
        used,
        nodes,
    };
    Ok((converted, image))
}

/// A root of the generation and the clean flag of the one that was read, over the nodes of an image, and the image with the root that
/// an opening writes over it.
fn roots_of(read: &Root, planned: Image) -> (Root, Image)
    requires next { planned.root.generation ≡ read.now.generation + 1 }
    ensures generation { result.0.generation ≡ read.now.generation }
    ensures clean { result.0.clean ≡ read.now.clean }
    ensures geometry { result.0.geometry ≡ planned.root.geometry }
    ensures no_bits { result.0.top_dirty ≡ None }
    ensures opens { result.1.root ≡ reopened result.0 }
    ensures nodes { result.1.nodes.items ≡ planned.nodes.items }
    ensures image { (m n : Mapping) (plan : ImagePlan) → plan.clean ≡ false → IsImage m n plan planned → IsImage m n plan result.1 }
{
    let Image { root, nodes } = planned;
    let version = root.geometry.version;
    let over = Root {
        generation: read.generation,
        version,
        clean: read.clean,
        geometry: root.geometry,
        top: root.top,
        top_dirty: None,
    };
    let written = Root {
        generation: root.generation,
        version,
        clean: false,
        geometry: root.geometry,
        top: root.top,
        top_dirty: None,
    };
    (
        over,
        Image {
            root: written,
            nodes,
        },
    )
}

/// The set of the dirty blocks of so many. `Memory` where there is no room for it.
#[tactic(auto, using(crate::proofs::Anew::one_bit))]
fn dirty_bits<A: Allocator + Clone>(
    global: Global,
    tree: &Tree<A>,
    cache_blocks: u32,
) -> Result<BitSet, Refusal>
    requires size { length tree.now.entries ≡ cache_blocks }
    ensures bits { IfOk result (λ bits. bits ≡ dirty_bits_of tree.now.entries) }
    ensures refused { IfErr result (λ refusal. refusal ≡ OutOfMemory) }
{
    let mut bits = BitSet::new(global, cache_blocks as usize)?;
    for block in 0..cache_blocks {
        bits.set(block as usize, is_mapped_dirty(tree.get(CBlock(block))));
    }
    Ok(bits)
}

/// A tree of the same entries without their dirty bits, of which no node is known to stand anywhere. `Memory` where there is no room for it.
#[tactic(auto, using(crate::proofs::Anew::anew_begun, crate::proofs::Anew::anew_set, crate::proofs::Anew::anew_passed))]
fn written_anew<A: Allocator + Clone>(
    alloc: A,
    tree: &Tree<A>,
    cache_blocks: u32,
) -> Result<Tree<A>, Refusal>
    requires few { cache_blocks ≤ 1048576 }
    requires size { length tree.now.entries ≡ cache_blocks }
    ensures anew { IfOk result (λ anew. anew ≡ written_anew tree.now) }
    ensures refused { IfErr result (λ refusal. refusal ≡ OutOfMemory) }
{
    let mut anew = Tree::new(alloc, cache_blocks);
    for number in 0..cache_blocks {
        let block = CBlock(number);
        if let Some(entry) = tree.get(block) {
            anew.set(block, clean_entry(entry))?;
        }
    }
    Ok(anew)
}

/// The entry without its dirty bit.
fn clean_entry(entry: Entry) -> Entry
    ensures { kept Two (Some entry) ≡ Some result }
{
    Entry {
        origin: entry.origin,
        dirty: false,
        hint: entry.hint,
    }
}

/// So many of the places that are not used, the least ones. `Memory` where there is no room for them.
#[tactic(auto, using(crate::proofs::Anew::least_are_unused))]
fn unused_places(
    global: Global,
    geometry: &Geometry,
    used: &[Place],
    count: u32,
) -> Result<Vec<Place>, Refusal>
    requires few { length used.now ≤ node_count geometry.now.cache_blocks }
    requires enough { count ≤ node_count geometry.now.cache_blocks }
    ensures least { IfOk result (λ free. free.items ≡ least_unused geometry.now used.now count) }
    ensures unused { IfOk result (λ free. HasUnused count geometry.now used.now free.items) }
    ensures refused { IfErr result (λ refusal. refusal ≡ OutOfMemory) }
{
    let places = Places::new(global, place_count(geometry), used)?;
    Ok(places.free(global, count as usize)?)
}
