//! Images that a desk takes of its tree.

ghost use Rattle.std.specs.Prelude.{◌≡◌, ◌≤◌, true, false, Some, IfOk, IfErr, OnErr, is_some, length, get_or};
ghost use Rattle.std.specs.Option.{IfSome, option_map};
ghost use Rattle.wb_tree.specs.Mapping.{Mapping, IsMapping, IsSound, AreInside};
ghost use Rattle.wb_tree.specs.Edits.{IsEdited};
ghost use Rattle.wb_tree.specs.Images.{AreFree, IsImage};
ghost use Rattle.wb_meta.specs.CleanImages.{IsImageOf};
ghost use Rattle.wb_desk.specs.Commits.{places_with};
ghost use Rattle.wb_desk.specs.InUse.{places_for, places_wanted};
ghost use Rattle.wb_desk.specs.Marks.{AreMarked, OfImaged, bits_beside, bits_in_tree};

use super::beside::{all_places, with_bits};
use std::alloc::Global;
use wb_policy::Policy;
use wb_space::Space;
use wb_tree::{Image, Tree};
use wb_types::{CBlock, Entry, Geometry, Place, Refusal, Version};

/// The next image of a tree, as it is, or for a clean root marked with the policy's hints and these dirty bits, which the
/// metadata's version has in the tree or beside it; on the least free places. With a marked one comes the list of the places that
/// it uses. `Memory` where there is none for it, and then the tree is as it was.
pub(super) fn plan<P: Policy>(
    alloc: Global,
    tree: &mut Tree<Global>,
    policy: &P,
    space: &Space,
    geometry: &Geometry,
    generation: u64,
    clean: Option<&[bool]>,
) -> Result<(Image, Option<Vec<Place>>), Refusal>
    requires mapping { IsMapping geometry.now.cache_blocks geometry.now.origin_blocks tree.old.entries }
    requires inside { AreInside geometry.now.meta_sectors tree.old }
    requires free { (imaged : Mapping) → IsEdited tree.old imaged → length imaged.entries ≡ geometry.now.cache_blocks
        → AreFree imaged geometry.now (places_for imaged geometry.now (is_some clean) space.now.places) }
    requires enough { (imaged : Mapping) → length imaged.entries ≡ geometry.now.cache_blocks
        → places_wanted imaged geometry.now (is_some clean) ≤ length (places_for imaged geometry.now (is_some clean) space.now.places) }
    requires seen { IfSome clean (λ dirty. length dirty.now ≡ geometry.now.cache_blocks) }
    ensures image { IfOk result (λ planned. OfImaged geometry.now.version (P.hint_of policy.now) (option_map (λ dirty. dirty.now) clean.entry) tree.old (λ imaged.
        IsImageOf (bits_beside geometry.now.version (option_map (λ dirty. dirty.now) clean.entry) tree.old.entries) imaged tree.new
        (record { geometry = geometry.now; generation = generation; clean = is_some clean.entry; free = places_for imaged geometry.now (is_some clean.entry) space.now.places }) planned.0)) }
    ensures marked { IfOk result (λ planned. is_some planned.1 ≡ is_some clean.entry) }
    ensures used { IfOk result (λ planned. IfSome planned.1 (λ used. used.items ≡ places_with tree.new planned.0)) }
    ensures err { OnErr result (tree.new ≡ tree.old) }
    ensures refused { IfErr result (λ e. e ≡ Refusal.Memory) }
    ensures mapping { IsMapping geometry.now.cache_blocks geometry.now.origin_blocks tree.new.entries }
    ensures sound { IfOk result (λ _. IsSound tree.new) }
    ensures inside { AreInside geometry.now.meta_sectors tree.new }
{
    match clean {
        None => {
            let (image, _) = plan_as_it_is(alloc, tree, space, geometry, generation, false)?;
            Ok((image, None))
        }
        Some(dirty) => {
            let mut imaged = marked(tree, policy, geometry, tree_bits(geometry, dirty))?;
            let image = clean_image(alloc, &mut imaged, space, geometry, generation, dirty)?;
            let used = all_places(alloc, &imaged, &image.nodes)?;
            *tree = imaged;
            Ok((image, Some(used)))
        }
    }
}

/// The dirty bits that the words of the tree have: in the second version none.
fn tree_bits<'a>(geometry: &Geometry, dirty: &'a [bool]) -> &'a [bool]
    ensures { result.now ≡ bits_in_tree geometry.now.version dirty.now }
{
    match geometry.version {
        Version::One => dirty,
        Version::Two => &dirty[..0],
    }
}

/// The clean image of a tree that was marked, with those of these dirty bits beside it that the metadata's version has there.
fn clean_image(
    alloc: Global,
    imaged: &mut Tree<Global>,
    space: &Space,
    geometry: &Geometry,
    generation: u64,
    dirty: &[bool],
) -> Result<Image, Refusal>
    requires mapping { IsMapping geometry.now.cache_blocks geometry.now.origin_blocks imaged.old.entries }
    requires inside { AreInside geometry.now.meta_sectors imaged.old }
    requires free { AreFree imaged.old geometry.now (places_for imaged.old geometry.now true space.now.places) }
    requires enough { places_wanted imaged.old geometry.now true ≤ length (places_for imaged.old geometry.now true space.now.places) }
    requires seen { length dirty.now ≡ geometry.now.cache_blocks }
    ensures image { IfOk result (IsImageOf (bits_beside geometry.now.version (Some dirty.now) imaged.old.entries) imaged.old imaged.new
        (record { geometry = geometry.now; generation = generation; clean = true; free = places_for imaged.old geometry.now true space.now.places })) }
    ensures refused { IfErr result (λ e. e ≡ Refusal.Memory) }
    ensures mapping { IsMapping geometry.now.cache_blocks geometry.now.origin_blocks imaged.new.entries }
    ensures sound { IfOk result (λ _. IsSound imaged.new) }
    ensures inside { AreInside geometry.now.meta_sectors imaged.new }
{
    let (image, free) = plan_as_it_is(alloc, imaged, space, geometry, generation, true)?;
    match geometry.version {
        Version::One => Ok(image),
        Version::Two => with_bits(alloc, image, imaged, dirty, &free),
    }
}

/// The next image of a tree as it is, on the least free places, and the list of these: one for each node that changed, and for a
/// clean image one for each that dirty bits beside the tree can have.
fn plan_as_it_is(
    alloc: Global,
    tree: &mut Tree<Global>,
    space: &Space,
    geometry: &Geometry,
    generation: u64,
    clean: bool,
) -> Result<(Image, Vec<Place>), Refusal>
    requires mapping { IsMapping geometry.now.cache_blocks geometry.now.origin_blocks tree.old.entries }
    requires inside { AreInside geometry.now.meta_sectors tree.old }
    requires free { AreFree tree.old geometry.now (places_for tree.old geometry.now clean space.now.places) }
    ensures image { IfOk result (λ planned. IsImage tree.old tree.new
        (record { geometry = geometry.now; generation = generation; clean = clean; free = places_for tree.old geometry.now clean space.now.places }) planned.0) }
    ensures free { IfOk result (λ planned. planned.1.items ≡ places_for tree.old geometry.now clean space.now.places) }
    ensures err { OnErr result (tree.new ≡ tree.old) }
    ensures refused { IfErr result (λ e. e ≡ Refusal.Memory) }
    ensures sound { IfOk result (λ _. IsSound tree.new) }
    ensures inside { AreInside geometry.now.meta_sectors tree.new }
{
    let bits = geometry.most_nodes(clean) - geometry.node_count();
    let free = space.free_places(alloc, tree.changed_nodes() as usize + bits as usize)?;
    let image = tree.plan(alloc, geometry, generation, clean, &free)?;
    Ok((image, free))
}

/// The tree with these dirty bits and the policy's hints, in boxes of its own: only nodes above an entry that differs count as
/// changed for that. Where no bit is given for a block it has none. `Memory` where there is none for it.
fn marked<P: Policy>(
    tree: &Tree<Global>,
    policy: &P,
    geometry: &Geometry,
    dirty: &[bool],
) -> Result<Tree<Global>, Refusal>
    requires mapping { IsMapping geometry.now.cache_blocks geometry.now.origin_blocks tree.now.entries }
    ensures marked { IfOk result (AreMarked (P.hint_of policy.now) dirty.now tree.now) }
    ensures mapping { IfOk result (λ t. IsMapping geometry.now.cache_blocks geometry.now.origin_blocks t.entries) }
    ensures refused { IfErr result (λ e. e ≡ Refusal.Memory) }
{
    let mut marked = tree.copied()?;
    for c in 0..geometry.cache_blocks {
        if let Some(entry) = tree.get(CBlock(c)) {
            let entry = Entry {
                origin: entry.origin,
                dirty: bit_of(dirty, c),
                hint: policy.hint(entry.origin),
            };
            marked.set(CBlock(c), entry)?;
        }
    }
    Ok(marked)
}

/// The bit of a cache block, where one is given.
fn bit_of(bits: &[bool], c: u32) -> bool
    ensures { result ≡ get_or bits.now c false }
{
    match bits.get(c as usize) {
        Some(bit) => *bit,
        None => false,
    }
}
