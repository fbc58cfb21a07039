//! Roots.

ghost use Rattle.std.specs.Prelude.{◌≡◌, ◌%◌, ◌↔◌, IfSome, IsTrue, Bool, Option, cond};
ghost use Rattle.wb_types.specs.declared.geometry.Geometry.{Geometry as GeometryValue};
ghost use Rattle.wb_types.specs.declared.number.Place.{Place as PlaceValue};
ghost use Rattle.wb_types.specs.Versions.{version_number};
ghost use Rattle.wb_format.specs.Sizes.{IsTop, MayNameDirty, SpellsGeometry, top_number};

use crate::bytes::{is_zero, put_u32, put_u64, u32_at, u64_at};
use wb_types::{Content, Geometry, Place, SECTOR_BYTES, Version};

/// The letters `WBCROOT1`.
const MAGIC: [u8; 8] = *b"WBCROOT1";

/// A root: which mapping the metadata device stands for, and in the second version which of its blocks are dirty.
#[derive(Clone, Copy, PartialEq, Eq)]
pub struct Root {
    /// The number of this root: 0 from formatting, and one more with each root that follows.
    pub generation: u64,
    /// Its geometry's.
    pub version: Version,
    /// Whether the dirty bits and hints of the mapping are right.
    pub clean: bool,
    pub geometry: Geometry,
    /// Where the top node of the mapping tree stands, from 2 to the last sector; none for an empty mapping.
    pub top: Option<Place>,
    /// Where the top node of the tree of dirty bits stands, from 2 to the last sector; none where no bit is set, in the
    /// first version, and without the clean flag.
    pub top_dirty: Option<Place>,
    pub ghost same_version: { version_number version ≡ version_number geometry.version },
    pub ghost top_inside: { IsTop geometry.meta_sectors top },
    pub ghost dirty_inside: { IsTop geometry.meta_sectors top_dirty },
    pub ghost dirty_clean: { MayNameDirty version clean top_dirty },
}

impl Root {
    ghost use Rattle.wb_format.specs.declared.root.Root.{Root as RootValue};
    ghost use Rattle.wb_format.specs.Layout.{SpellsRoot};

    /// The root that a sector spells, where it spells one.
    pub fn read(content: &Content) -> Option<Root>
        ensures found { IfSome result (SpellsRoot content.now) }
        ensures only { (root : RootValue) → SpellsRoot content.now root → result ≡ Some root }
    {
        if u64_at(content, 0) != u64::from_le_bytes(MAGIC) || !is_zero(content, 48, SECTOR_BYTES) {
            return None;
        }
        let clean = flag_of(u32_at(content, 20))?;
        let geometry = geometry_at(content)?;
        let top = top_of(u32_at(content, 40), geometry.meta_sectors)?;
        let top_dirty = top_of(u32_at(content, 44), geometry.meta_sectors)?;
        if !may_name_dirty(geometry.version, clean, top_dirty) {
            return None;
        }
        Some(Root {
            generation: u64_at(content, 8),
            version: geometry.version,
            clean,
            geometry,
            top,
            top_dirty,
        })
    }

    /// Makes a sector the root's spelling.
    pub fn write(&self, content: &mut Content)
        ensures { SpellsRoot content.new self.now }
    {
        *content = [0; SECTOR_BYTES];
        put_u64(content, 0, u64::from_le_bytes(MAGIC));
        put_u64(content, 8, self.generation);
        put_u32(content, 16, self.version.number());
        put_u32(content, 20, u32::from(self.clean));
        put_u32(content, 24, self.geometry.block);
        put_u32(content, 28, self.geometry.cache_blocks);
        put_u32(content, 32, self.geometry.origin_blocks);
        put_u32(content, 36, self.geometry.meta_sectors);
        put_u32(content, 40, number_of_top(self.top));
        put_u32(content, 44, number_of_top(self.top_dirty));
    }

    /// The slot, 0 or 1, of a root of this generation.
    pub fn slot(&self) -> Place
        ensures { result.0 ≡ self.now.generation % 2 }
    {
        Place((self.generation % 2) as u32)
    }
}

/// Whether flags say that the device is clean; nothing where they say anything else.
fn flag_of(flags: u32) -> Option<bool>
    ensures found { IfSome result (λ clean. flags ≡ cond clean 1 0) }
    ensures only { (clean : Bool) → flags ≡ cond clean 1 0 → result ≡ Some clean }
{
    match flags {
        0 => Some(false),
        1 => Some(true),
        _ => None,
    }
}

/// The version and the sizes in a root, where there is such a version and the sizes are within the limits.
fn geometry_at(content: &Content) -> Option<Geometry>
    ensures found { IfSome result (SpellsGeometry content.now) }
    ensures only { (geometry : GeometryValue) → SpellsGeometry content.now geometry → result ≡ Some geometry }
{
    let version = u32_at(content, 16);
    let block = u64::from(u32_at(content, 24));
    let cache_blocks = u64::from(u32_at(content, 28));
    let origin_blocks = u64::from(u32_at(content, 32));
    let meta_sectors = u64::from(u32_at(content, 36));
    match Geometry::with_version(block, cache_blocks, origin_blocks, meta_sectors, version) {
        Ok(geometry) => Some(geometry),
        Err(_) => None,
    }
}

/// Whether a root of a version, clean or not, may name this top of a tree of dirty bits.
fn may_name_dirty(version: Version, clean: bool, top_dirty: Option<Place>) -> bool
    ensures { IsTrue result ↔ MayNameDirty version clean top_dirty }
{
    top_dirty.is_none() || version == Version::Two && clean
}

/// The place of a top node by its number, 0 being that there is none; nothing where that is no place for a
/// node on a device of so many sectors.
fn top_of(number: u32, meta_sectors: u32) -> Option<Option<Place>>
    ensures found { IfSome result (λ top. number ≡ top_number top) }
    ensures inside { IfSome result (IsTop meta_sectors) }
    ensures only { (top : Option PlaceValue) → IsTop meta_sectors top → number ≡ top_number top → result ≡ Some top }
{
    if number == 0 {
        return Some(None);
    }
    if number == 1 || number >= meta_sectors {
        return None;
    }
    Some(Some(Place(number)))
}

/// The number of the place of a top node.
fn number_of_top(top: Option<Place>) -> u32
    ensures { result ≡ top_number top }
{
    match top {
        None => 0,
        Some(Place(place)) => place,
    }
}
