//! A disk in memory whose calls fail, and land as a choice says.

ghost use Rattle.std.specs.Prelude.{◌≡◌, ◌≤◌, ◌<◌, ◌+◌, IsOk, OnOk, IfErr, length, slice_index_or};
ghost use Rattle.wb_types.specs.declared.refusal.Refusal.TheVariants.{Memory as OutOfMemory};
ghost use Rattle.wb_disk.specs.Device.{OneMore};
ghost use Rattle.wb_disk.specs.Extents.{Writing, WrittenSo, written_where};
ghost use Rattle.wb_disk.specs.Faltering.{falters_as};
ghost use Rattle.wb_disk.specs.Failing.{lands};
ghost use Rattle.wb_disk.specs.Memory.{HasRoomFor};

use crate::{CrashChoice, Disk, DiskFault, MemDisk};
use wb_types::{Content, Dev, Refusal};

/// A disk in memory, as this device, of which each call fails: a write or sync lands where the choice says so, a write that has not
/// all its room nowhere.
#[derive(Drop)]
pub struct Faltering<'a> {
    disk: MemDisk,
    device: Dev,
    choice: &'a CrashChoice,
}

impl<'a> Faltering<'a> {
    /// The disk, whose calls fail so.
    pub fn new(disk: MemDisk, device: Dev, choice: &'a CrashChoice) -> Faltering<'a>
        ensures disk { result.disk ≡ disk }
        ensures device { result.device ≡ device }
        ensures choice { result.choice.now ≡ choice.now }
    {
        Faltering {
            disk,
            device,
            choice,
        }
    }

    /// The disk, as it was left.
    pub fn into_inner(self) -> MemDisk
        ensures { result ≡ self.entry.disk }
    {
        self.disk
    }
}

impl Disk for Faltering<'_> {
    ghost use Rattle.std.specs.Prelude.{length, refl};
    ghost use Rattle.wb_disk.specs.Faltering.{falters_as};

    ghost tells = { Unit {0} };

    ghost size = { λ d. length d.disk.contents };

    ghost contents = { λ d. d.disk.contents };

    ghost faults = { λ d. d.disk.faults };

    ghost falters = { λ d call landed. falters_as d.disk d.device d.choice.now call landed };

    ghost fails = { λ _. Unit {0} };

    fn sectors(&self) -> u64 {
        self.disk.sectors()
    }

    fn read(&mut self, _at: u64, _out: &mut Content) -> Result<(), DiskFault> {
        self.disk.count_fault();
        Err(DiskFault)
    }

    #[tactic(auto, using(crate::proofs::Falters::failed_so))]
    fn write(&mut self, at: u64, from: &Content) -> Result<(), DiskFault> {
        let all = [*from];
        fail_write(&mut self.disk, self.device, self.choice, at, &all);
        Err(DiskFault)
    }

    fn read_extent(&mut self, _first: u64, _out: &mut [Content]) -> Result<(), DiskFault> {
        self.disk.count_fault();
        Err(DiskFault)
    }

    #[tactic(auto, using(crate::proofs::Falters::failed_so))]
    fn write_extent(&mut self, first: u64, from: &[Content]) -> Result<(), DiskFault> {
        fail_write(&mut self.disk, self.device, self.choice, first, from);
        Err(DiskFault)
    }

    fn sync(&mut self) -> Result<(), DiskFault> {
        self.disk.sync_where(self.device, self.choice);
        Err(DiskFault)
    }

    ghost whole = { λ d h. refl };
}

/// Makes room for a write of so many sectors from this one on. `Memory` where there is none. The contents stay.
pub fn make_room(disk: &mut MemDisk, first: u64, count: u64) -> Result<(), Refusal>
    requires { first + count ≤ length disk.old.contents }
    ensures room { OnOk result (HasRoomFor disk.new first count) }
    ensures contents { disk.new.contents ≡ disk.old.contents }
    ensures faults { disk.new.faults ≡ disk.old.faults }
    ensures had { HasRoomFor disk.old first count → IsOk result }
    ensures refusal { IfErr result (λ refusal. refusal ≡ OutOfMemory) }
{
    // The disk's size is a `u64`, so each of these sectors is.
    let _sectors = disk.sectors();
    for k in 0..count {
        disk.room(first + k)?;
    }
    Ok(())
}

/// A write that fails, and lands where the choice says so; nowhere, where there is no room for all of it.
#[tactic(auto, using(crate::proofs::Lengths::length_written_where, crate::proofs::Falters::lands_so, crate::proofs::Falters::lands_nowhere))]
fn fail_write(
    disk: &mut MemDisk,
    device: Dev,
    choice: &CrashChoice,
    first: u64,
    contents: &[Content],
)
    requires { first + length contents.now ≤ length disk.old.contents }
    ensures size { length disk.new.contents ≡ length disk.old.contents }
    ensures how { WrittenSo (falters_as disk.old device choice.now (Writing first (length contents.now))) disk.old.contents first contents.now disk.new.contents }
    ensures faults { OneMore disk.old.faults disk.new.faults }
{
    if make_room(disk, first, contents.len() as u64).is_err() {
        disk.count_fault();
        return;
    }
    write_landing(disk, device, choice, first, contents);
    disk.count_fault();
}

/// Writes these contents to those of these sectors of a device on which the choice lets them land, one each. There is room for them.
fn write_landing(
    disk: &mut MemDisk,
    device: Dev,
    choice: &CrashChoice,
    first: u64,
    contents: &[Content],
)
    requires inside { first + length contents.now ≤ length disk.old.contents }
    requires room { HasRoomFor disk.old first (length contents.now) }
    ensures landed { disk.new.contents ≡ written_where (lands device choice.now) disk.old.contents first contents.now }
    ensures faults { disk.new.faults ≡ disk.old.faults }
{
    // The disk's size is a `u64`, so each of these sectors is.
    let _sectors = disk.sectors();
    let count = contents.len() as u64;
    for k in 0..count {
        let at = first + k;
        let content = nth(contents, k);
        if choice.has_landed(device, at) {
            let _ = disk.write(at, content);
        }
    }
}

/// One of these contents.
fn nth(contents: &[Content], k: u64) -> &Content
    requires { k < length contents.now }
    ensures { result.now ≡ slice_index_or contents.now k result.now }
{
    &contents[k as usize]
}
