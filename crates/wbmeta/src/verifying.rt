//! Comparing what is clean with the origin.

ghost use Rattle.std.specs.Prelude.{◌≡◌, ◌<◌, None, IfOk, OnOk, length, slice_index_or};
ghost use Rattle.wb_checks.specs.Samples.{AreAsBefore};
ghost use Rattle.wbmeta.specs.Comparing.{AreAllHome, IsHome};

use crate::found::{Found, is_dirty};
use std::alloc::{AllocError, Global};
use wb_checks::{CleanBlock, PIECE, is_same_on_both};
use wb_devices::Devices;
use wb_disk::Disk;
use wb_types::{CBlock, Content, OBlock, Refusal, SECTOR_BYTES};

/// Who hears of a comparison.
pub trait Hearer {
    /// A block differs: whether it can be told.
    fn differs(&mut self, at: CBlock, home: OBlock) -> bool;

    /// So many blocks were compared.
    fn compared(&mut self, done: u32);
}

/// Why a comparison ended before its time.
#[derive(Clone, Copy)]
pub enum Unverified {
    /// A device failed, or has no such block, at this block of the cache and of the origin.
    Failed(Refusal, CBlock, OBlock),
    /// There is no memory.
    Memory,
    /// What differs cannot be told.
    Untold,
}

impl From<AllocError> for Unverified {
    fn from(_: AllocError) -> Unverified {
        Unverified::Memory
    }
}

/// What a comparison came to.
#[derive(Clone, Copy)]
pub struct Verified {
    pub compared: u32,
    pub differing: u32,
}

/// Compares each mapped block that does not count as dirty with its block of the origin, and tells of each that differs. Nothing is written.
///
/// `Failed` where a device fails, or has no such block; `Memory` where there is none for two buffers of 512 KiB; `Untold`.
pub fn verify<D: Disk, H: Hearer>(
    alloc: Global,
    devices: &mut Devices<D>,
    found: &Found,
    block: u32,
    hearer: &mut H,
) -> Result<Verified, Unverified>
    ensures same { D.tells → IfOk result (λ verified. verified.differing ≡ 0
        → AreAllHome (D.contents devices.old.cache) (D.contents devices.old.origin) block found.now.clean found.now.entries.items) }
    ensures kept { D.tells → AreAsBefore D.contents devices.old devices.new }
{
    let Ok(count) = u32::try_from(found.entries.len()) else {
        return Err(Unverified::Memory);
    };
    let mut left = vec![in alloc; [0; SECTOR_BYTES]; PIECE]?;
    let mut right = vec![in alloc; [0; SECTOR_BYTES]; PIECE]?;
    let mut verified = Verified {
        compared: 0,
        differing: 0,
    };
    for c in 0..count {
        let (here, there) = (left.as_mut_slice(), right.as_mut_slice());
        verify_entry(devices, found, c, block, here, there, &mut verified, hearer)?;
    }
    Ok(verified)
}

/// Compares the block of an entry, where that is mapped and does not count as dirty, and tells where it differs.
fn verify_entry<D: Disk, H: Hearer>(
    devices: &mut Devices<D>,
    found: &Found,
    c: u32,
    block: u32,
    left: &mut [Content],
    right: &mut [Content],
    verified: &mut Verified,
    hearer: &mut H,
) -> Result<(), Unverified>
    requires there { c < length found.now.entries.items }
    requires left { length left.old ≡ 1024 }
    requires right { length right.old ≡ 1024 }
    ensures left { length left.new ≡ 1024 }
    ensures right { length right.new ≡ 1024 }
    ensures none { OnOk result (verified.new.differing ≡ 0 → verified.old.differing ≡ 0) }
    ensures same { D.tells → OnOk result (verified.new.differing ≡ 0
        → IsHome (D.contents devices.old.cache) (D.contents devices.old.origin) block found.now.clean c (slice_index_or found.now.entries.items c None)) }
    ensures kept { D.tells → AreAsBefore D.contents devices.old devices.new }
{
    let Some(entry) = found.entries[c as usize] else {
        return Ok(());
    };
    if is_dirty(found.clean, Some(entry)) {
        return Ok(());
    }
    let pair = CleanBlock {
        cache: CBlock(c),
        origin: entry.origin,
    };
    match is_same_on_both(devices, pair, block, left, right) {
        Ok(true) => {}
        Ok(false) => {
            verified.differing = verified.differing.saturating_add(1);
            if !hearer.differs(pair.cache, pair.origin) {
                return Err(Unverified::Untold);
            }
        }
        Err(refusal) => return Err(Unverified::Failed(refusal, pair.cache, pair.origin)),
    }
    verified.compared = verified.compared.saturating_add(1);
    hearer.compared(verified.compared);
    Ok(())
}
