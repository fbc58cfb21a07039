//! Whether a clean cache and its origin still hold the same.

ghost use Rattle.std.specs.Prelude.{◌≡◌, ◌⊎◌, ◌≤◌, true, List, All, Contains, IfSome, IfNone, IfOk, IfErr, map, vec_len};
ghost use Rattle.wb_types.specs.declared.refusal.Refusal.TheVariants.{Io, Memory as OutOfMemory};
ghost use Rattle.wb_types.specs.declared.mode.Dev.{Dev as Device};
ghost use Rattle.wb_types.specs.declared.mode.Dev.TheVariants.{Metadata};
ghost use Rattle.wb_disk.specs.Device.{Content as Bytes, newest};
ghost use Rattle.wb_tree.specs.Reading.{IsNewestRoot};
ghost use Rattle.wb_meta.specs.Slots.{IsInSlot, IsNewest};
ghost use Rattle.wb_checks.specs.Samples.{AreAsBefore, Differs, HaveSizes, IsMappedClean, IsSameOnBoth, IsStale};

use crate::comparing::{PIECE, is_same_on_both};
use crate::drawn::CleanBlock;
use crate::held::read_slot;
use crate::walk::draw_by_walks;
use crate::whole::draw_from_all;
use rand_core::SeedableRng;
use rand_xoshiro::SplitMix64;
use std::alloc::Global;
use std::fmt;
use std::fmt::{Display, Formatter};
use wb_devices::Devices;
use wb_disk::Disk;
use wb_format::Root;
use wb_types::{Geometry, Refusal, SECTOR_BYTES};

/// So many sectors of each device are compared at most, 256 MiB, or one block.
const MOST_SECTORS: u32 = 524_288;

/// So many blocks are compared at most.
const MOST_BLOCKS: usize = 64;

/// A mapping of more cache blocks is not read as a whole where walks find enough of them.
const SMALL: u32 = 32_768;

/// So many blocks, found by walks, are enough.
const ENOUGH: usize = 16;

/// A block whose clean copy is not what the origin holds.
#[derive(Clone, Copy, PartialEq, Eq)]
pub struct StaleBlock(pub CleanBlock);

/// Looks for a block that is clean by the metadata and differs on the cache and the origin, of blocks of this size. It writes nothing.
///
/// Up to 64 blocks are drawn from those that are mapped and clean, by this seed, and compared whole; fewer, at least one, where blocks are
/// larger than 4 MiB. The answer is the first that differs. None is also the answer where nothing can be compared: the newest root has no
/// clean flag, it is of devices of other sizes, there is none, or its tree is damaged.
///
/// `Io` where a device fails, `Memory` where there is no room for a mapping or for two buffers of 512 KiB.
pub fn find_stale<D: Disk>(
    alloc: Global,
    devices: &mut Devices<D>,
    block: u32,
    seed: u64,
) -> Result<Option<StaleBlock>, Refusal>
    ensures sizes { HaveSizes D.size devices.old devices.new }
    ensures kept { D.tells → AreAsBefore D.contents devices.old devices.new }
    ensures stale { D.tells → IfOk result (λ found. IfSome found (λ stale. IsStale D.contents devices.old block stale.0)) }
    ensures refused { IfErr result (λ refusal. ((device : Device) × (refusal ≡ Io device)) ⊎ (refusal ≡ OutOfMemory)) }
{
    let Some(root) = newest_root(&mut devices.metadata)? else {
        return Ok(None);
    };
    if !root.clean || !is_of(root.geometry, devices, block) {
        return Ok(None);
    }
    let drawn = draw(alloc, &mut devices.metadata, &root, seed)?;
    first_stale(alloc, devices, block, &drawn)
}

/// The valid root of higher generation, where a slot has one. `Io` where the device fails.
fn newest_root<D: Disk>(metadata: &mut D) -> Result<Option<Root>, Refusal>
    ensures size { D.size metadata.new ≡ D.size metadata.old }
    ensures same { D.tells → D.contents metadata.new ≡ D.contents metadata.old }
    ensures newest { D.tells → IfOk result (λ root. IfSome root (IsNewestRoot (map newest (D.contents metadata.old)))) }
    ensures refused { IfErr result (λ refusal. refusal ≡ Io Metadata) }
{
    let first = read_slot(metadata, 0)?.root;
    let second = read_slot(metadata, 1)?.root;
    Ok(newer(first, second))
}

/// The root of higher generation of the two slots' roots.
fn newer(first: Option<Root>, second: Option<Root>) -> Option<Root>
    ensures { (contents : List Bytes) → IsInSlot contents 0 first → IsInSlot contents 1 second → IsNewest contents result }
{
    let Some(a) = first else {
        return second;
    };
    let Some(b) = second else {
        return first;
    };
    if a.generation < b.generation {
        second
    } else {
        first
    }
}

/// Whether a geometry is that of these devices, with blocks of this size.
fn is_of<D: Disk>(geometry: Geometry, devices: &Devices<D>, block: u32) -> bool {
    geometry.block == block
        && u64::from(geometry.meta_sectors) == devices.metadata.sectors()
        && geometry.cache_sectors() == devices.cache.sectors()
        && geometry.origin_sectors() == devices.origin.sectors()
}

/// Draws blocks that are mapped and clean: by walks, where the mapping is large and that finds enough of them, or else from all.
fn draw<D: Disk>(
    alloc: Global,
    metadata: &mut D,
    root: &Root,
    seed: u64,
) -> Result<Vec<CleanBlock>, Refusal>
    requires { root.now.clean ≡ true }
    ensures size { D.size metadata.new ≡ D.size metadata.old }
    ensures same { D.tells → D.contents metadata.new ≡ D.contents metadata.old }
    ensures most { IfOk result (λ drawn. vec_len drawn ≤ 64) }
    ensures clean { D.tells → IsNewestRoot (map newest (D.contents metadata.old)) root.now → IfOk result (λ drawn. All (IsMappedClean (map newest (D.contents metadata.old))) drawn.items) }
    ensures refused { IfErr result (λ refusal. (refusal ≡ Io Metadata) ⊎ (refusal ≡ OutOfMemory)) }
{
    let mut dice = SplitMix64::seed_from_u64(seed);
    let most = most_blocks(root.geometry.block);
    if root.geometry.cache_blocks > SMALL && root.top_dirty.is_none() {
        let drawn = draw_by_walks(alloc, metadata, root, most, &mut dice)?;
        if drawn.len() >= most.min(ENOUGH) {
            return Ok(drawn);
        }
    }
    draw_from_all(alloc, metadata, most, &mut dice)
}

/// How many blocks of this size are compared.
fn most_blocks(block: u32) -> usize
    ensures { result ≤ 64 }
{
    let fit = MOST_SECTORS / block.max(1);
    MOST_BLOCKS.min(fit.max(1) as usize)
}

/// The first of these blocks that differs.
#[tactic(auto, using(crate::proofs::Pieces::sizes_on, crate::proofs::Pieces::before_on))]
fn first_stale<D: Disk>(
    alloc: Global,
    devices: &mut Devices<D>,
    size: u32,
    drawn: &[CleanBlock],
) -> Result<Option<StaleBlock>, Refusal>
    ensures sizes { HaveSizes D.size devices.old devices.new }
    ensures kept { D.tells → AreAsBefore D.contents devices.old devices.new }
    ensures stale { D.tells → IfOk result (λ found. IfSome found (λ stale. Contains drawn.now stale.0 × Differs (D.contents devices.old.cache) (D.contents devices.old.origin) size stale.0)) }
    ensures none { D.tells → IfOk result (λ found. IfNone found (All (IsSameOnBoth (D.contents devices.old.cache) (D.contents devices.old.origin) size) drawn.now)) }
    ensures refused { IfErr result (λ refusal. ((device : Device) × (refusal ≡ Io device)) ⊎ (refusal ≡ OutOfMemory)) }
{
    let mut left = vec![in alloc; [0; SECTOR_BYTES]; PIECE]?;
    let mut right = vec![in alloc; [0; SECTOR_BYTES]; PIECE]?;
    'blocks: for block in drawn {
        if !is_same_on_both(devices, *block, size, &mut left, &mut right)? {
            return Ok(Some(StaleBlock(*block)));
        }
    }
    Ok(None)
}

impl Display for StaleBlock {
    fn fmt<W: fmt::Write>(&self, f: &mut Formatter<W>) -> fmt::Result {
        let (cache, origin) = (self.0.cache, self.0.origin);
        write!(
            f,
            "cache block {cache} and origin block {origin} differ, though the cache was left clean: somebody else wrote the origin or the cache; "
        )?;
        write!(
            f,
            "'wbmeta verify TABLE' lists all that differ; formatting gives the cached copies up and keeps the origin; --no-verify opens all the same"
        )
    }
}
