//! Where an extent of a block stands, and where it is read and written in each mode: who walks a table asks here what its mode does.

ghost use Rattle.std.specs.Prelude.{◌≡◌, ◌<◌, Some, true, if◌then◌else◌, [], ◌∷◌};
ghost use Rattle.wb_words.specs.declared.step.CellStep.TheVariants.{Seal};
ghost use Rattle.wb_tasks.specs.Tables.{BlockRange, read_step, write_step, device_at, place_read, places_written, dirtying, is_deferred};
ghost use Rattle.wb_tasks.specs.declared.step.Want.TheVariants.{Cell, Device};
ghost use Rattle.wb_tasks.specs.declared.step.DeviceStep.TheVariants.{Read, Write};

use wb_types::{CBlock, Dev, Extent, Mode};

/// The device that has the newest copy of a block at this place.
pub fn device_at(place: Option<CBlock>) -> Dev
    ensures { result ≡ device_at place }
{
    match place {
        None => Dev::Origin,
        Some(_) => Dev::Cache,
    }
}

/// Where a read takes the extents of a block at this place from.
#[inline(always)]
pub fn place_read(mode: Mode, place: Option<CBlock>) -> Option<CBlock>
    ensures { result ≡ place_read mode place }
{
    match mode {
        Mode::Passthrough => None,
        Mode::Writeback | Mode::Writethrough => place,
    }
}

/// Whether a write of a block at this place needs the desk first.
#[inline(always)]
pub fn is_deferred(mode: Mode, place: Option<CBlock>) -> bool
    ensures { result ≡ is_deferred mode place }
{
    match mode {
        Mode::Passthrough => place.is_some(),
        Mode::Writeback | Mode::Writethrough => false,
    }
}

/// Whether a mapped block is sealed dirty before it is written.
#[inline(always)]
pub fn is_due(mode: Mode, dirty: bool) -> bool
    ensures { (block : _) (c : _) → dirtying mode block (Some c) dirty ≡ (if result then Cell (Seal block (Some c) true) ∷ [] else []) }
{
    match mode {
        Mode::Writeback => !dirty,
        Mode::Writethrough | Mode::Passthrough => false,
    }
}

/// Where a write puts an extent of a block at this place first, and whether it puts it at that place then.
#[inline(always)]
pub fn written(mode: Mode, place: Option<CBlock>) -> (Option<CBlock>, bool)
    ensures { places_written mode place ≡ result.0 ∷ (if result.1 then place ∷ [] else []) }
{
    match mode {
        Mode::Writeback => (place, false),
        Mode::Writethrough => (None, place.is_some()),
        Mode::Passthrough => (None, false),
    }
}

/// The device and the extent of it that hold an extent of a block at this place.
#[inline(always)]
pub fn route(block_sectors: u32, place: Option<CBlock>, extent: Extent) -> (Dev, Extent)
    requires { 0 < block_sectors }
    ensures read { (part : BlockRange) → part.block_sectors ≡ block_sectors → Device (Read result.0 result.1) ≡ read_step part place extent }
    ensures write { (part : BlockRange) → part.block_sectors ≡ block_sectors → Device (Write result.0 result.1) ≡ write_step part place extent }
{
    match place {
        None => (Dev::Origin, extent),
        Some(CBlock(c)) => {
            let size = u64::from(block_sectors);
            let there = Extent {
                first: u64::from(c) * size + extent.first % size,
                count: extent.count,
            };
            (Dev::Cache, there)
        }
    }
}
