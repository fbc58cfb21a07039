//! Whether metadata that were read were left clean, as an opening in passthrough wants them.

ghost use Rattle.std.specs.Prelude.{◌≡◌, ◌<◌, ℕ, None, IfSome, length, slice_index_or};
ghost use Rattle.std.specs.Bool.{OnTrue, OnFalse};
ghost use Rattle.wb_tasks.specs.Plan.{Fits};
ghost use Rattle.wb_tasks.specs.declared.step.Want.TheVariants.{Device};
ghost use Rattle.wb_tasks.specs.declared.step.DeviceStep.TheVariants.{ReadMetadata};
ghost use Rattle.wb_tasks.specs.declared.step.Got.TheVariants.{More};
ghost use Rattle.wb_meta.specs.Reads.{AreStepsOn, IsDone};
ghost use Rattle.wb_devices.specs.Opened.{HasGeneration};
ghost use Rattle.wb_devices.specs.Clean.{HasComeIn, IsUnclean, IsCleanSoFar, IsLeftClean, IsLeftUnclean, entries_of};
ghost use Rattle.wb_meta.specs.Conversions.{is_mapped_dirty};
ghost use Rattle.wb_dirty.specs.ImageReading.{entry_with};

use crate::opening::Opening;
use crate::sizes::are_same_sizes;
use std::alloc::Global;
use wb_meta::{ReadSteps, State};
use wb_tasks::Got;
use wb_types::{CBlock, Entry, Geometry, Mode, Refusal};

impl Opening {
    /// What becomes of a reading in this mode that has come so far: in passthrough it is refused with `NotClean` once all was read
    /// where the root has no clean flag or an entry is dirty, before it is known whether there is a next generation.
    pub(crate) fn has_come_in(&mut self, mode: Mode, steps: ReadSteps<Global>, left: u32) -> Got
        requires none { self.old.reading ≡ None }
        requires on { (sectors : ℕ) × AreStepsOn sectors steps }
        ensures kind { Fits (Device (ReadMetadata left)) result }
        ensures geometry { self.new.geometry ≡ self.old.geometry }
        ensures on { (sectors : ℕ) → AreStepsOn sectors steps → IfSome self.new.reading (AreStepsOn sectors) }
        ensures come { HasComeIn mode self.old.geometry left steps self.old.commit result self.new.reading self.new.commit }
        ensures generation { HasGeneration self.old.commit → HasGeneration self.new.commit }
        ensures more { result ≡ More → ¬ IsDone steps }
    {
        if mode == Mode::Passthrough && is_unclean(&steps, self.geometry) {
            return Got::Refused(Refusal::NotClean);
        }
        self.has_come(steps, left)
    }
}

/// Whether all was read, of metadata of the sizes that are asked for, and they were not left clean.
pub(crate) fn is_unclean(steps: &ReadSteps<Global>, geometry: Geometry) -> bool
    requires on { (sectors : ℕ) × AreStepsOn sectors steps.now }
    ensures unclean { OnTrue result (IsUnclean geometry steps.now) }
    ensures clean { OnFalse result (IsCleanSoFar geometry steps.now) }
{
    let ReadSteps::Done(state) = steps else {
        return false;
    };
    if !are_same_sizes(state.root.geometry, geometry) {
        return false;
    }
    is_left_unclean(state)
}

/// Whether this root lacks the clean flag, or an entry is dirty.
fn is_left_unclean(state: &State<Global>) -> bool
    requires size { length state.now.tree.entries ≡ state.now.root.geometry.cache_blocks }
    ensures unclean { OnTrue result (IsLeftUnclean state.now) }
    ensures clean { OnFalse result (IsLeftClean state.now) }
{
    if !state.root.clean {
        return true;
    }
    for c in 0..state.root.geometry.cache_blocks {
        if is_mapped_dirty(stored_entry(state, CBlock(c))) {
            return true;
        }
    }
    false
}

/// The entry of a cache block, with the dirty bit that was read of it; none where the block is not mapped.
pub fn stored_entry(state: &State<Global>, block: CBlock) -> Option<Entry>
    requires { block.0 < length state.now.tree.entries }
    ensures { result ≡ slice_index_or (entries_of state.now) block.0 None }
{
    let entry = state.tree.get(block);
    let CBlock(number) = block;
    match &state.dirty {
        None => entry,
        Some(bits) => entry_with_bit(entry, bits.has(number as usize)),
    }
}

/// An entry with this dirty bit.
fn entry_with_bit(entry: Option<Entry>, dirty: bool) -> Option<Entry>
    ensures { result ≡ entry_with dirty entry }
{
    match entry {
        None => None,
        Some(entry) => Some(Entry {
            origin: entry.origin,
            dirty,
            hint: entry.hint,
        }),
    }
}

pub(crate) fn is_mapped_dirty(entry: Option<Entry>) -> bool
    ensures { result ≡ is_mapped_dirty entry }
{
    match entry {
        Some(entry) => entry.dirty,
        None => false,
    }
}
