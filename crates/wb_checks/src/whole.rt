//! Blocks that are drawn from all that a metadata device stands for.

ghost use Rattle.std.specs.Prelude.{◌≡◌, ◌<◌, ◌≤◌, ◌⊎◌, ◌+◌, ◌^◌, [], true, All, IfOk, IfErr, OnOk, length, map, vec_len};
ghost use Rattle.wb_types.specs.declared.refusal.Refusal.TheVariants.{Io, Memory as OutOfMemory};
ghost use Rattle.wb_types.specs.declared.mode.Dev.TheVariants.{Metadata};
ghost use Rattle.wb_disk.specs.Device.{newest};
ghost use Rattle.wb_meta.specs.States.{CountsFault};
ghost use Rattle.wb_devices.specs.Clean.{entries_of};
ghost use Rattle.wb_checks.specs.Samples.{HasDrawn, IsCleanIn, IsMappedClean, MayDraw};

use crate::drawn::{CleanBlock, draw_below};
use rand_xoshiro::SplitMix64;
use std::alloc::{AllocError, Global};
use wb_devices::stored_entry;
use wb_disk::Disk;
use wb_meta::{State, read_state};
use wb_types::{CBlock, Entry, Refusal};

/// Reads the whole mapping, and draws so many of its clean blocks, each as likely as any other; all where there are no more.
/// None where the newest root has no clean flag, and where the metadata cannot be opened.
///
/// `Io` where the device fails, `Memory` where there is no room for the mapping.
pub(crate) fn draw_from_all<D: Disk>(
    alloc: Global,
    metadata: &mut D,
    most: usize,
    dice: &mut SplitMix64,
) -> Result<Vec<CleanBlock>, Refusal>
    ensures size { D.size metadata.new ≡ D.size metadata.old }
    ensures same { D.tells → D.contents metadata.new ≡ D.contents metadata.old }
    ensures most { IfOk result (λ drawn. vec_len drawn ≤ most) }
    ensures clean { D.tells → IfOk result (λ drawn. All (IsMappedClean (map newest (D.contents metadata.old))) drawn.items) }
    ensures refused { IfErr result (λ refusal. (refusal ≡ Io Metadata) ⊎ (refusal ≡ OutOfMemory)) }
    ensures cause { D.tells → IfErr result (λ refusal. CountsFault refusal (D.faults metadata.old) (D.faults metadata.new)) }
    ensures no_fault { D.tells → OnOk result (D.faults metadata.new ≡ D.faults metadata.old) }
{
    match read_state(alloc, alloc, metadata) {
        Ok(state) => {
            let drawn = draw_from_state(alloc, &state, most, dice);
            drop(state);
            drawn
        }
        Err(refusal @ (Refusal::Io(_) | Refusal::Memory)) => Err(refusal),
        Err(_) => Ok(Vec::new(alloc)),
    }
}

/// Draws from a state that was read; none where it was not left clean.
fn draw_from_state(
    alloc: Global,
    state: &State<Global>,
    most: usize,
    dice: &mut SplitMix64,
) -> Result<Vec<CleanBlock>, Refusal>
    requires { length state.now.tree.entries ≡ state.now.root.geometry.cache_blocks }
    ensures most { IfOk result (λ drawn. vec_len drawn ≤ most) }
    ensures clean { IfOk result (λ drawn. All (IsCleanIn (entries_of state.now)) drawn.items) }
    ensures flag { IfOk result (λ drawn. (state.now.root.clean ≡ true) ⊎ (drawn.items ≡ [])) }
    ensures refused { IfErr result (λ refusal. refusal ≡ OutOfMemory) }
{
    let mut drawn = Vec::new(alloc);
    if !state.root.clean {
        return Ok(drawn);
    }
    let mut seen = 0;
    'blocks: for number in 0..state.root.geometry.cache_blocks {
        let cache = CBlock(number);
        let entry = stored_entry(state, cache);
        seen += consider(&mut drawn, cache, entry, most, seen, dice)?;
    }
    Ok(drawn)
}

/// Draws a cache block, or not, where its entry is clean, so many having been seen before: 1 where it is, else 0.
fn consider(
    drawn: &mut Vec<CleanBlock>,
    cache: CBlock,
    entry: Option<Entry>,
    most: usize,
    seen: u32,
    dice: &mut SplitMix64,
) -> Result<u32, Refusal>
    requires { seen + 1 < 2 ^ 32 }
    ensures most { vec_len drawn.old ≤ most → vec_len drawn.new ≤ most }
    ensures drawn { OnOk result (MayDraw cache entry drawn.old.items drawn.new.items) }
    ensures one { IfOk result (λ more. more ≤ 1) }
    ensures refused { IfErr result (λ refusal. refusal ≡ OutOfMemory) }
{
    let Some(block) = CleanBlock::of(cache, entry) else {
        return Ok(0);
    };
    keep(drawn, block, most, seen + 1, dice)?;
    Ok(1)
}

/// Puts a block among those that were drawn, or in place of one of them, so that each of all that were seen, this one too, is as likely
/// to be there as any other.
fn keep(
    drawn: &mut Vec<CleanBlock>,
    block: CleanBlock,
    most: usize,
    seen: u32,
    dice: &mut SplitMix64,
) -> Result<(), Refusal>
    requires { 1 ≤ seen }
    ensures most { vec_len drawn.old ≤ most → vec_len drawn.new ≤ most }
    ensures drawn { IfOk result (λ _. HasDrawn block drawn.old.items drawn.new.items) }
    ensures refused { IfErr result (λ refusal. refusal ≡ OutOfMemory) }
{
    if drawn.len() < most {
        drawn.push(block).map_err(AllocError::from)?;
        return Ok(());
    }
    let place = draw_below(dice, seen) as usize;
    if place < drawn.len() {
        drawn[place] = block;
    }
    Ok(())
}
