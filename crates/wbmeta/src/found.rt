//! What an opening would find.

ghost use Rattle.std.specs.Bool.{OnTrue};
ghost use Rattle.std.specs.Prelude.{◌≡◌, ◌<◌, ◌≤◌, ◌^◌, length, map, is_some, count_by, IfOk, IfSome, OnOk};
ghost use Rattle.wb_disk.specs.Device.{newest};
ghost use Rattle.wb_devices.specs.Clean.{entries_of};
ghost use Rattle.wbmeta.specs.Counted.{AreCounted, AreInRange, IsFound, counts_as_dirty};

use std::alloc::{AllocError, Global};
use wb_devices::{are_same_sizes, stored_entry};
use wb_disk::Disk;
use wb_format::Root;
use wb_meta::{ReadSteps, State, read_state};
use wb_table::Keys;
use wb_types::{CBlock, Entry, Geometry, Mode, Refusal, Version};

/// What a metadata device stands for: its newest root's generation and clean flag, and the entry of each cache block.
#[derive(Drop)]
pub struct Found {
    pub generation: u64,
    pub clean: bool,
    pub entries: Vec<Option<Entry>>,
}

/// What an opening counts: without the clean flag each mapped block is dirty (the kernel's device-mapper/cache.rst).
#[derive(Clone, Copy)]
pub struct Counted {
    pub generation: u64,
    pub clean: bool,
    pub mapped: u64,
    pub dirty: u64,
}

/// Reads what a metadata device stands for where these sizes are asked for, in either version, and writes nothing.
///
/// The refusals of an opening, in its order: `NotFormatted`; `Mismatch` where the newest root is of other sizes; `Damaged` with the place of the
/// first fault; and at any step `Io` where the device fails, and `Memory`.
pub fn read_metadata<D: Disk>(
    alloc: Global,
    geometry: &Geometry,
    disk: &mut D,
) -> Result<Found, Refusal>
    ensures same { D.tells → D.contents disk.new ≡ D.contents disk.old }
    ensures found { D.tells → IfOk result (λ found. IsFound (map newest (D.contents disk.old)) geometry.now found.generation found.clean found.entries.items) }
{
    let known = known_geometry(alloc, disk)?;
    if known.is_some_and(|known| !are_same_sizes(known, *geometry)) {
        return Err(Refusal::Mismatch);
    }
    let state = read_state(alloc, alloc, disk)?;
    if !are_same_sizes(state.root.geometry, *geometry) {
        return Err(Refusal::Mismatch);
    }
    let entries = stored_entries(alloc, &state)?;
    Ok(Found {
        generation: state.root.generation,
        clean: state.root.clean,
        entries,
    })
}

/// How often metadata that may change meanwhile are read.
const TRIES: u32 = 10;

/// Reads what a metadata device stands for, which another program may change meanwhile: again where that is refused, or where another root is
/// the newest behind it, up to ten times. Refused as the last time.
pub fn read_moving<D: Disk>(
    alloc: Global,
    geometry: &Geometry,
    disk: &mut D,
) -> Result<Found, Refusal>
    ensures same { D.tells → D.contents disk.new ≡ D.contents disk.old }
    ensures found { D.tells → IfOk result (λ found. IsFound (map newest (D.contents disk.old)) geometry.now found.generation found.clean found.entries.items) }
{
    'again: for _ in 1..TRIES {
        if let Ok(found) = read_metadata(alloc, geometry, disk) {
            if is_newest(alloc, disk, found.generation) {
                return Ok(found);
            }
        }
    }
    read_metadata(alloc, geometry, disk)
}

/// Whether the newest root is of this generation.
fn is_newest<D: Disk>(alloc: Global, disk: &mut D, generation: u64) -> bool
    ensures same { D.tells → D.contents disk.new ≡ D.contents disk.old }
{
    match known_root(alloc, disk) {
        Ok(Some(root)) => root.generation == generation,
        _ => false,
    }
}

/// The version of the metadata on a device; none where no root says so.
pub fn version_on<D: Disk>(alloc: Global, disk: &mut D) -> Option<Version>
    ensures same { D.tells → D.contents disk.new ≡ D.contents disk.old }
{
    match known_root(alloc, disk) {
        Ok(Some(root)) => Some(root.version),
        _ => None,
    }
}

/// The sizes that the newest root tells, once both slots were read.
fn known_geometry<D: Disk>(alloc: Global, disk: &mut D) -> Result<Option<Geometry>, Refusal>
    ensures size { D.size disk.new ≡ D.size disk.old }
    ensures same { D.tells → D.contents disk.new ≡ D.contents disk.old }
{
    Ok(known_root(alloc, disk)?.map(|root| root.geometry))
}

/// The newest root, once both slots were read.
fn known_root<D: Disk>(alloc: Global, disk: &mut D) -> Result<Option<Root>, Refusal>
    ensures size { D.size disk.new ≡ D.size disk.old }
    ensures same { D.tells → D.contents disk.new ≡ D.contents disk.old }
{
    let first = ReadSteps::new(alloc, alloc).next(disk)?;
    let both = first.next(disk)?;
    Ok(both.root())
}

/// The entry of each cache block, with the dirty bit that was read of it.
fn stored_entries(alloc: Global, state: &State<Global>) -> Result<Vec<Option<Entry>>, AllocError>
    requires { length state.now.tree.entries ≡ state.now.root.geometry.cache_blocks }
    ensures { IfOk result (λ entries. entries.items ≡ entries_of state.now) }
{
    let mut entries = vec![in alloc; None; state.root.geometry.cache_blocks as usize]?;
    for c in 0..state.root.geometry.cache_blocks {
        entries[c as usize] = stored_entry(state, CBlock(c));
    }
    Ok(entries)
}

/// What an opening in this mode and with these keys counts. In passthrough `NotClean` where it was not left clean or a block is dirty;
/// `GenerationEnd` where there is no next generation; `BadMessage` where a key's value is out of its range.
pub fn count(found: &Found, mode: Mode, keys: &Keys) -> Result<Counted, Refusal>
    ensures counted { IfOk result (λ counted. AreCounted found.now.clean found.now.entries.items counted.mapped counted.dirty) }
    ensures generation { IfOk result (λ counted. counted.generation ≡ found.now.generation) }
    ensures clean { IfOk result (λ counted. counted.clean ≡ found.now.clean) }
    ensures keys { OnOk result (AreInRange keys.now) }
{
    let counted = count_all(found);
    if mode == Mode::Passthrough && (!counted.clean || counted.dirty > 0) {
        return Err(Refusal::NotClean);
    }
    if counted.generation == u64::MAX {
        return Err(Refusal::GenerationEnd);
    }
    if !are_in_range(keys) {
        return Err(Refusal::BadMessage);
    }
    Ok(counted)
}

/// Whether each key that a table gives has a value of its range: `migration_threshold` below 2^32, `promote_min` 1 to 17.
fn are_in_range(keys: &Keys) -> bool
    ensures { OnTrue result (AreInRange keys.now) }
{
    is_threshold(keys.migration_threshold) && is_least(keys.promote_min)
}

fn is_threshold(sectors: Option<u64>) -> bool
    ensures { OnTrue result (IfSome sectors (λ value. value < 2 ^ 32)) }
{
    match sectors {
        Some(value) => value <= 4_294_967_295,
        None => true,
    }
}

fn is_least(accesses: Option<u64>) -> bool
    ensures { OnTrue result (IfSome accesses (λ value. (1 ≤ value) × (value ≤ 17))) }
{
    match accesses {
        Some(value) => 1 <= value && value <= 17,
        None => true,
    }
}

/// What is counted of what was found, whatever the mode.
pub fn count_all(found: &Found) -> Counted
    ensures counted { AreCounted found.now.clean found.now.entries.items result.mapped result.dirty }
    ensures generation { result.generation ≡ found.now.generation }
    ensures clean { result.clean ≡ found.now.clean }
{
    let entries = found.entries.as_slice();
    Counted {
        generation: found.generation,
        clean: found.clean,
        mapped: count_mapped(entries),
        dirty: count_dirty(found.clean, entries),
    }
}

fn count_mapped(entries: &[Option<Entry>]) -> u64
    ensures { result ≡ count_by is_some entries.now }
{
    entries.iter().filter(|entry| entry.is_some()).count() as u64
}

fn count_dirty(clean: bool, entries: &[Option<Entry>]) -> u64
    ensures { result ≡ count_by (counts_as_dirty clean) entries.now }
{
    entries
        .iter()
        .filter(|entry| is_dirty(clean, **entry))
        .count() as u64
}

/// Whether an entry counts as dirty.
pub fn is_dirty(clean: bool, entry: Option<Entry>) -> bool
    ensures { result ≡ counts_as_dirty clean entry }
{
    match entry {
        Some(entry) => entry.dirty || !clean,
        None => false,
    }
}
