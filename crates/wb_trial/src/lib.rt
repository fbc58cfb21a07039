//! Trees to try calls on: each cache block holds the origin block of its own number or none, and an image takes places one
//! after the other. Tests and benchmarks meet by it what `Tree::plan` asks.
#![tactic(auto)]

ghost use Rattle.std.specs.Prelude.{◌≡◌, ◌≤◌, ◌<◌, ◌+◌, IfOk, IsTrue, OnErr, OnOk, All, length, map};
ghost use Rattle.std.specs.List.{range_with_len};
ghost use Rattle.wb_types.specs.declared.number.Place.{Place as PlaceValue};
ghost use Rattle.wb_tree.specs.Mapping.{AreInside, IsPlaceOf};
ghost use Rattle.wb_trial.specs.Own.{AreOwn};

mod trial;

use std::alloc::Global;
pub use trial::Trial;
use wb_tree::{Image, Tree};
use wb_types::{CBlock, Entry, Geometry, OBlock, Place, Refusal};

/// Gives a cache block an entry with this hint, 16 at most, and the origin block of its own number, or takes its
/// entry away. `Memory` where there is no room; the tree is then as it was.
pub fn change(tree: &mut Tree<Global>, block: u32, hint: Option<u8>) -> Result<(), Refusal>
    requires block { block < length tree.old.entries }
    requires own { AreOwn tree.old.entries }
    ensures size { OnOk result (length tree.new.entries ≡ length tree.old.entries) }
    ensures own { OnOk result (AreOwn tree.new.entries) }
    ensures stays { OnOk result ((place : PlaceValue) → IsPlaceOf tree.new place → IsPlaceOf tree.old place) }
    ensures err { OnErr result (tree.new ≡ tree.old) }
{
    let Some(hint) = hint else {
        tree.clear(CBlock(block));
        return Ok(());
    };
    let entry = Entry {
        origin: OBlock(block),
        dirty: false,
        hint: hint.min(16),
    };
    tree.set(CBlock(block), entry)
}

/// The image of a generation whose nodes go to this place, which is 2 at least, and those behind it. `Busy` where they do
/// not lie on the metadata device, or a node of the tree stands at one of them, `Memory` where there is no room for them or the image; the tree
/// is then as it was.
pub fn plan_at(
    global: Global,
    tree: &mut Tree<Global>,
    geometry: &Geometry,
    generation: u64,
    first: u32,
) -> Result<Image, Refusal>
    requires first { 2 ≤ first }
    requires size { length tree.old.entries ≡ geometry.now.cache_blocks }
    requires origin { geometry.now.cache_blocks ≤ geometry.now.origin_blocks }
    requires own { AreOwn tree.old.entries }
    requires inside { AreInside geometry.now.meta_sectors tree.old }
    ensures entries { OnOk result (tree.new.entries ≡ tree.old.entries) }
    ensures geometry { IfOk result (λ image. image.root.geometry ≡ geometry.now) }
    ensures inside { OnOk result (AreInside geometry.now.meta_sectors tree.new) }
    ensures err { OnErr result (tree.new ≡ tree.old) }
{
    let count = tree.changed_nodes();
    if geometry.meta_sectors < count || geometry.meta_sectors - count < first {
        return Err(Refusal::Busy);
    }
    let used = tree.places(global)?;
    if !are_outside(&used, first, first + count) {
        return Err(Refusal::Busy);
    }
    let places = places_from(global, first, count)?;
    tree.plan(global, geometry, generation, true, &places)
}

/// So many places, from one on.
fn places_from(global: Global, first: u32, count: u32) -> Result<Vec<Place>, Refusal>
    requires { first + count ≤ 4294967295 }
    ensures { IfOk result (λ places. places.items
        ≡ map (λ number. record { 0 = number }) (range_with_len first count)) }
{
    let places = (first..first + count)
        .map(|number| Place(number))
        .collect(global)?;
    Ok(places)
}

/// Whether no place is one of those from one on, before an end.
fn are_outside(places: &[Place], first: u32, end: u32) -> bool
    ensures { IsTrue result → All (λ place. first ≤ place.0 → end ≤ place.0) places.now }
{
    places.iter().all(|place| place.0 < first || end <= place.0)
}
