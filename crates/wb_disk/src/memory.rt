//! A disk in memory.

ghost use Rattle.std.specs.Prelude.{◌≡◌, ◌<◌, ◌≤◌, ◌+◌, ◌↔◌, [], ◌∷◌, ◌++◌, IsOk, IsTrue, IfOk, OnOk, OnErr, IfErr, length, map};
ghost use Rattle.std.specs.Bool.{OnTrue, OnFalse};
ghost use Rattle.wb_types.specs.declared.refusal.Refusal.TheVariants.{Memory as OutOfMemory};
ghost use Rattle.wb_disk.specs.Device.{ReadGives, written, synced, OneMore, Crashed};
ghost use Rattle.wb_disk.specs.Extents.{GivesEach, written_each};
ghost use Rattle.wb_disk.specs.Memory.{blank, zero_disk, HasRoom, HasRoomFor, DiffersOnlyAt, FrontWritten};
ghost use Rattle.wb_disk.specs.Crash.{Applies, crashed};
ghost use Rattle.wb_disk.specs.Failing.{lands, synced_where};
ghost use Rattle.wb_disk.specs.Stored.{histories, capacities, cut_at_mark, IsNoted, lands_at};

use crate::crash::mark_chosen;
use crate::failing::Landing;
use crate::pending::Pending;
use crate::{CrashChoice, Disk, DiskFault};
use std::alloc::{AllocError, Global};
use std::marker::Model;
use wb_bits::BitSet;
use wb_types::{Content, Dev, Refusal};

/// A disk in memory, which tells all that it holds.
///
/// A contract sees its contents, its count of faults, and of each sector how many writes since the last sync
/// there is memory for.
///
/// Each sector that was written since the last sync is noted, so that a sync goes over these alone.
pub struct MemDisk {
    sectors: Vec<Pending>,
    unsynced: BitSet,
    faults: u64,
}

impl Drop for MemDisk {
    fn drop(self) {
        let MemDisk {
            sectors,
            unsynced,
            faults: _,
        } = self;
        drop(sectors);
        drop(unsynced);
    }
}

impl Model for MemDisk {
    ghost use Rattle.wb_disk.specs.Memory.{Memory};

    ghost Value = { Memory };

    ghost use Rattle.wb_disk.specs.Stored.{histories, capacities};

    ghost view = { λ d. record {
      contents = histories d.sectors.items;
      faults = d.faults;
      capacity = capacities d.sectors.items;
    } };

    ghost use Rattle.wb_disk.specs.Stored.{IsNoted};

    ghost invariant = { λ d. IsNoted (histories d.sectors.items) d.unsynced };
}

impl MemDisk {
    /// A disk of zeros. `Memory` where there is none for so many sectors; 2^40 of them are more than any machine can name.
    pub fn new(alloc: Global, sectors: u64) -> Result<MemDisk, Refusal>
        ensures ok { IfOk result (λ disk. disk ≡ zero_disk sectors) }
        ensures err { IfErr result (λ refusal. refusal ≡ OutOfMemory) }
    {
        let mut all = Vec::with_capacity(alloc, sectors as usize)?;
        for _ in 0..sectors {
            push_blank(alloc, &mut all)?;
        }
        if sectors >= 1 << 40 {
            return Err(Refusal::Memory);
        }
        Ok(MemDisk {
            sectors: all,
            unsynced: BitSet::new(alloc, sectors as usize)?,
            faults: 0,
        })
    }

    /// How often a call has failed, modulo 2^64.
    pub fn faults(&self) -> u64
        ensures { result ≡ self.now.faults }
    {
        self.faults
    }

    /// Makes room for the next write of a sector. `Memory` where the sector's list has to grow and cannot; the
    /// disk is then as it was.
    pub fn room(&mut self, at: u64) -> Result<(), Refusal>
        requires { at < length self.old.contents }
        ensures room { OnOk result (HasRoom self.new at) }
        ensures contents { self.new.contents ≡ self.old.contents }
        ensures faults { self.new.faults ≡ self.old.faults }
        ensures elsewhere { DiffersOnlyAt at self.old.capacity self.new.capacity }

        // It fails only where the room was missing, and takes nothing where it was there.
        ensures had { HasRoom self.old at → IsOk result }
        ensures stays { HasRoom self.old at → self.new ≡ self.old }
        ensures err { OnErr result (self.new ≡ self.old) }
        ensures refusal { IfErr result (λ refusal. refusal ≡ OutOfMemory) }
    {
        self.sectors[at as usize].make_room()
    }

    /// Crashes as this device: each sector keeps its chosen content, and that alone. Names of other devices are of
    /// no account. It takes no memory, and time linear in the sectors and names.
    ///
    /// False, and nothing changes, where the choice does not apply to this device: one of its names is of a sector
    /// that the disk has not got, or the last name of a sector is of a content that is not in its list.
    #[must_use]
    pub fn stop(&mut self, device: Dev, choice: &CrashChoice) -> bool
        ensures applies { IsTrue result ↔ Applies device choice.now self.old.contents }
        ensures crashed { OnTrue result (self.new ≡ record self.old { contents = crashed device choice.now self.old.contents }) }
        ensures outcome { OnTrue result (Crashed self.old.contents self.new.contents) }
        ensures kept { OnFalse result (self.new ≡ self.old) }
    {
        if !mark_chosen(&mut self.sectors, device, choice) {
            return false;
        }
        cut_all(&mut self.sectors);
        self.unsynced.clear();
        true
    }

    /// Whether `stop` would crash the disk, as this device, by this choice. The disk is lent to be marked, and shows
    /// no change.
    pub fn applies(&mut self, device: Dev, choice: &CrashChoice) -> bool
        ensures applies { IsTrue result ↔ Applies device choice.now self.old.contents }
        ensures kept { self.new ≡ self.old }
    {
        mark_chosen(&mut self.sectors, device, choice)
    }

    /// A call that fails and does nothing is a fault that counts.
    pub(crate) fn count_fault(&mut self)
        ensures contents { self.new.contents ≡ self.old.contents }
        ensures capacity { self.new.capacity ≡ self.old.capacity }
        ensures faults { OneMore self.old.faults self.new.faults }
    {
        self.faults = self.faults.wrapping_add(1);
    }

    /// A sync that fails and lands where the choice says so, whatever it names.
    pub(crate) fn sync_where(&mut self, device: Dev, choice: &CrashChoice)
        ensures size { length self.new.contents ≡ length self.old.contents }
        ensures contents { self.new.contents ≡ synced_where (lands device choice.now) self.old.contents }
        ensures faults { OneMore self.old.faults self.new.faults }
        ensures capacity { self.new.capacity ≡ self.old.capacity }
    {
        self.faults = self.faults.wrapping_add(1);
        settle_where(
            &mut self.sectors,
            &self.unsynced,
            Landing::As(device, choice),
        );
    }
}

impl Disk for MemDisk {
    ghost use Rattle.std.specs.Prelude.{length, refl};
    ghost use Rattle.wb_disk.specs.Memory.{memory_falters};

    ghost tells = { Unit {0} };

    ghost size = { λ d. length d.contents };

    ghost contents = { λ d. d.contents };

    ghost faults = { λ d. d.faults };

    ghost falters = { memory_falters };

    ghost fails = { λ _. ⊥ };

    fn sectors(&self) -> u64 {
        self.sectors.len() as u64
    }

    /// It never fails.
    fn read(&mut self, at: u64, out: &mut Content) -> Result<(), DiskFault>
        requires { at < length self.old.contents }
        ensures ok { IsOk result }
        ensures given { ReadGives self.old.contents at out.new }
        ensures kept { self.new ≡ self.old }
    {
        let pending = &self.sectors[at as usize];
        *out = *pending.newest();
        Ok(())
    }

    /// It fails, and adds nothing, where the sector's list has to grow and cannot.
    fn write(&mut self, at: u64, from: &Content) -> Result<(), DiskFault>
        requires { at < length self.old.contents }
        ensures size { length self.new.contents ≡ length self.old.contents }
        ensures ok { OnOk result (self.new.contents ≡ written self.old.contents at from.now) }
        ensures no_fault { OnOk result (self.new.faults ≡ self.old.faults) }
        ensures err { OnErr result (self.new.contents ≡ self.old.contents) }
        ensures cause { OnErr result (OneMore self.old.faults self.new.faults) }

        // Room is used up by the write, and other sectors keep theirs.
        ensures room { HasRoom self.old at → IsOk result }
        ensures in_place { HasRoom self.old at → self.new.capacity ≡ self.old.capacity }
        ensures full { OnErr result (self.new.capacity ≡ self.old.capacity) }
        ensures elsewhere { DiffersOnlyAt at self.old.capacity self.new.capacity }
    {
        let pending = &mut self.sectors[at as usize];
        match pending.make_room() {
            Ok(()) => {
                pending.add(from);
                self.unsynced.insert(at as usize);
                Ok(())
            }
            Err(_) => {
                self.faults = self.faults.wrapping_add(1);
                Err(DiskFault)
            }
        }
    }

    /// It never fails.
    fn read_extent(&mut self, first: u64, out: &mut [Content]) -> Result<(), DiskFault>
        requires { first + length out.old ≤ length self.old.contents }
        ensures ok { IsOk result }
        ensures many { length out.new ≡ length out.old }
        ensures given { GivesEach self.old.contents first out.new }
        ensures kept { self.new ≡ self.old }
    {
        // The disk's size is a `u64`, so each of these sectors is.
        let _sectors = self.sectors();
        for (k, content) in out.iter_mut().enumerate() {
            self.read(first + k as u64, content)?;
        }
        Ok(())
    }

    /// It writes the sectors in order. It fails at the first whose list has to grow and cannot, and has then
    /// written those before it.
    fn write_extent(&mut self, first: u64, from: &[Content]) -> Result<(), DiskFault>
        requires { first + length from.now ≤ length self.old.contents }
        ensures size { length self.new.contents ≡ length self.old.contents }
        ensures ok { OnOk result (self.new.contents ≡ written_each self.old.contents first from.now) }
        ensures no_fault { OnOk result (self.new.faults ≡ self.old.faults) }
        ensures err { OnErr result (FrontWritten self.old.contents first from.now self.new.contents) }
        ensures cause { OnErr result (OneMore self.old.faults self.new.faults) }
        ensures room { HasRoomFor self.old first (length from.now) → IsOk result }
    {
        // The disk's size is a `u64`, so each of these sectors is.
        let _sectors = self.sectors();
        for (k, content) in from.iter().enumerate() {
            self.write(first + k as u64, content)?;
        }
        Ok(())
    }

    /// It never fails. It goes over the sectors that were written since the last sync.
    fn sync(&mut self) -> Result<(), DiskFault>
        ensures ok { IsOk result }
        ensures synced { self.new ≡ record self.old { contents = synced self.old.contents } }
    {
        settle_where(&mut self.sectors, &self.unsynced, Landing::Everywhere);
        self.unsynced.clear();
        Ok(())
    }

    ghost whole = { λ d h. refl };
}

/// Keeps of each sector the content at its mark alone.
fn cut_all(sectors: &mut [Pending])
    ensures contents { histories sectors.new ≡ map cut_at_mark sectors.old }
    ensures capacity { capacities sectors.new ≡ capacities sectors.old }
{
    for pending in sectors.iter_mut() {
        pending.cut();
    }
}

/// Settles the sectors on which a sync lands. It looks at those that are noted alone.
fn settle_where(sectors: &mut [Pending], unsynced: &BitSet, landing: Landing)
    requires noted { IsNoted (histories sectors.old) unsynced.now }
    ensures contents { histories sectors.new ≡ synced_where (lands_at landing.entry) (histories sectors.old) }
    ensures capacity { capacities sectors.new ≡ capacities sectors.old }
    ensures noted { IsNoted (histories sectors.new) unsynced.now }
{
    let mut from = 0;
    while let Some(at) = unsynced.least_from(from) {
        if landing.is_at(at as u64) {
            sectors[at].settle();
        }
        from = at + 1;
    }
}

/// One sector of zeros more.
fn push_blank(alloc: Global, all: &mut Vec<Pending>) -> Result<(), AllocError>
    ensures contents { OnOk result (histories all.new.items ≡ histories all.old.items ++ blank ∷ []) }
    ensures capacity { OnOk result (capacities all.new.items ≡ capacities all.old.items ++ 0 ∷ []) }
{
    all.push(Pending::blank(alloc))?;
    Ok(())
}
