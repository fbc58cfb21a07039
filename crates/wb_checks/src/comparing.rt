//! What the cache and the origin hold of a block.

ghost use Rattle.std.specs.Prelude.{◌≡◌, ◌≤◌, ◌+◌, ◌*◌, ◌⊎◌, ◌^◌, ◌↔◌, IfOk, IfErr, OnOk, IsTrue, length};
ghost use Rattle.std.specs.Bool.{OnTrue, OnFalse};
ghost use Rattle.wb_types.specs.declared.refusal.Refusal.TheVariants.{Io};
ghost use Rattle.wb_types.specs.declared.mode.Dev.TheVariants.{Cache, Origin};
ghost use Rattle.wb_devices.specs.Moving.{device_in};
ghost use Rattle.wb_checks.specs.Samples.{AreAsBefore, AreSame, Differs, HaveSizes, IsSameOnBoth, held_from};

use crate::drawn::CleanBlock;
use wb_devices::Devices;
use wb_disk::Disk;
use wb_tasks::Got;
use wb_types::{CBlock, Content, Dev, Extent, OBlock, Refusal};

/// So many sectors of each device are read at once: 512 KiB.
pub const PIECE: usize = 1024;

/// Whether the cache and the origin hold the same in all sectors of a block of this size. It reads both, piece by piece into these buffers.
///
/// `Io` where a device fails.
pub fn is_same_on_both<D: Disk>(
    devices: &mut Devices<D>,
    block: CleanBlock,
    size: u32,
    left: &mut [Content],
    right: &mut [Content],
) -> Result<bool, Refusal>
    requires left { length left.old ≡ 1024 }
    requires right { length right.old ≡ 1024 }
    ensures sizes { HaveSizes D.size devices.old devices.new }
    ensures kept { D.tells → AreAsBefore D.contents devices.old devices.new }
    ensures same { D.tells → IfOk result (λ same. OnTrue same (IsSameOnBoth (D.contents devices.old.cache) (D.contents devices.old.origin) size block)) }
    ensures differs { D.tells → IfOk result (λ same. OnFalse same (Differs (D.contents devices.old.cache) (D.contents devices.old.origin) size block)) }
    ensures refused { IfErr result (λ refusal. (refusal ≡ Io Cache) ⊎ (refusal ≡ Io Origin)) }
{
    let (CBlock(on_cache), OBlock(on_origin)) = (block.cache, block.origin);
    let cache = start(on_cache, size);
    let origin = start(on_origin, size);
    let mut done: u32 = 0;
    'pieces: while done < size {
        let count = PIECE.min((size - done) as usize);
        let from = u64::from(done);
        let (into, beside) = (&mut left[..count], &mut right[..count]);
        if !is_same_piece(devices, cache + from, origin + from, into, beside)? {
            return Ok(false);
        }
        done += count as u32;
    }
    Ok(true)
}

/// The first sector of a block of this size.
fn start(number: u32, size: u32) -> u64
    ensures first { result ≡ number * size }
    ensures room { result + 2 ^ 32 ≤ 2 ^ 64 }
{
    u64::from(number) * u64::from(size)
}

/// Whether neighbouring sectors hold the same, as many as these buffers have: of the cache from one on, and of the origin from another.
fn is_same_piece<D: Disk>(
    devices: &mut Devices<D>,
    cache: u64,
    origin: u64,
    left: &mut [Content],
    right: &mut [Content],
) -> Result<bool, Refusal>
    requires { length right.old ≡ length left.old }
    ensures sizes { HaveSizes D.size devices.old devices.new }
    ensures kept { D.tells → AreAsBefore D.contents devices.old devices.new }
    ensures same { D.tells → IfOk result (λ same. IsTrue same ↔ AreSame (D.contents devices.old.cache) (D.contents devices.old.origin) cache origin (length left.old)) }
    ensures refused { IfErr result (λ refusal. (refusal ≡ Io Cache) ⊎ (refusal ≡ Io Origin)) }
{
    read_piece(devices, Dev::Cache, cache, left)?;
    read_piece(devices, Dev::Origin, origin, right)?;
    Ok(are_equal(left, right))
}

/// Reads neighbouring sectors of a device from one on, as many as there is room for. `Io` where the device fails, or has not all of them.
fn read_piece<D: Disk>(
    devices: &mut Devices<D>,
    device: Dev,
    first: u64,
    into: &mut [Content],
) -> Result<(), Refusal>
    ensures sizes { HaveSizes D.size devices.old devices.new }
    ensures kept { D.tells → AreAsBefore D.contents devices.old devices.new }
    ensures held { D.tells → OnOk result (into.new ≡ held_from (D.contents (device_in device devices.old)) first (length into.old)) }
    ensures refused { IfErr result (λ refusal. refusal ≡ Io device) }
{
    let extent = Extent {
        first,
        count: into.len() as u64,
    };
    match devices.read(device, extent, into) {
        Got::Done => Ok(()),
        _ => Err(Refusal::Io(device)),
    }
}

/// Whether these contents are the same.
fn are_equal(left: &[Content], right: &[Content]) -> bool
    ensures { IsTrue result ↔ (left.now ≡ right.now) }
{
    left == right
}
