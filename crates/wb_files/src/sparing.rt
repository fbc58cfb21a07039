//! Syncs that are left out: of a disk to which nothing was written since its last good sync.

ghost use Rattle.std.specs.Prelude.{◌≡◌, ◌⊎◌, ◌<◌, ◌≤◌, ◌+◌, ◌∷◌, [], length, OnOk, OnErr, IsErr, IfNone, Option as Maybe};
ghost use Rattle.wb_disk.specs.Device.{synced, written, OneMore};
ghost use Rattle.wb_disk.specs.Extents.{Writing, Syncing, written_each, WrittenSo};
ghost use Rattle.wb_disk.specs.Failing.{SyncedSo};
ghost use Rattle.wb_files.specs.Syncs.{LeavesOut, Asks, AsksInVain};
ghost use Rattle.wb_files.specs.declared.ledger.OngoingSync.{OngoingSync as Ongoing};

use crate::ledger::OngoingSync;
use wb_disk::{Disk, DiskFault};
use wb_types::Content;

/// What is known of the writes to a disk of this type and of its syncs, here or beside the disk.
pub trait SyncRecord<D> {
    /// Whether what it knows is all: nobody else writes to the disk.
    ghost alone: { Type 0 };

    /// Whether nothing was written since a good sync.
    ghost covered: { Self → Type 0 };

    /// Whether a call that tells the end of a write to the disk, which is so then, may lead from one to another.
    ghost notes: { Self → D → Self → Type 0 };

    /// Whether one that begins a sync of the disk, which is so then, may.
    ghost begins: { Self → D → Maybe Ongoing → Self → Type 0 };

    /// Whether one that tells that it ended well may.
    ghost ends: { Self → D → Ongoing → Self → Type 0 };

    /// Whether one that tells that it failed may.
    ghost fails: { Self → D → Self → Type 0 };

    /// A write to the disk ended, well or not.
    fn note_write(&mut self, disk: &D)
        ensures noted { notes self.old disk.now self.new }
        ensures uncovered { alone → ¬ covered self.new };

    /// A sync of the disk begins; None where it can be left out.
    fn begin_sync(&mut self, disk: &D) -> Option<OngoingSync>
        ensures begun { begins self.old disk.now result self.new }
        ensures left_out { alone → IfNone result (covered self.old) };

    /// A sync of the disk ended well.
    fn end_sync(&mut self, disk: &D, sync: OngoingSync)
        ensures { ends self.old disk.now sync self.new };

    /// A sync of the disk failed.
    fn note_failure(&mut self, disk: &D)
        ensures failed { fails self.old disk.now self.new }
        ensures uncovered { alone → ¬ covered self.new };
}

/// A disk whose sync asks the disk inside only where something was written since the last good one: a sync of a disk to which nothing was
/// written leaves it as it was. It tells what that disk tells, where the record is of all that is written.
#[derive(Drop)]
pub struct SparingDisk<D: Disk, R: SyncRecord<D>> {
    inside: D,
    known: R,
    ghost kept: { D.tells → R.alone → R.covered known → synced (D.contents inside) ≡ D.contents inside },
}

impl<D: Disk, R: SyncRecord<D>> SparingDisk<D, R> {
    /// A disk over this one. A record of its own cannot know that what was written before is durable.
    pub fn new(inside: D, known: R) -> SparingDisk<D, R>
        requires { R.alone → ¬ R.covered known }
        ensures { result.inside ≡ inside }
    {
        SparingDisk { inside, known }
    }
}

impl<D: Disk, R: SyncRecord<D>> Disk for SparingDisk<D, R> {
    ghost tells = { D.tells × R.alone };

    ghost size = { λ d. D.size d.inside };

    ghost contents = { λ d. D.contents d.inside };

    ghost faults = { λ d. D.faults d.inside };

    ghost falters = { λ d call lands. D.falters d.inside call lands };

    ghost fails = { λ _. ⊥ };

    fn sectors(&self) -> u64 {
        self.inside.sectors()
    }

    fn read(&mut self, at: u64, out: &mut Content) -> Result<(), DiskFault> {
        self.inside.read(at, out)
    }

    /// The record is told of the write once it has ended, well or not.
    fn write(&mut self, at: u64, from: &Content) -> Result<(), DiskFault>
        requires { at < D.size self.old.inside }
        ensures size { D.size self.new.inside ≡ D.size self.old.inside }
        ensures ok { D.tells × R.alone → OnOk result (D.contents self.new.inside ≡ written (D.contents self.old.inside) at from.now) }
        ensures how { D.tells × R.alone → OnErr result (WrittenSo (D.falters self.old.inside (Writing at 1)) (D.contents self.old.inside) at (from.now ∷ []) (D.contents self.new.inside)) }
        ensures no_fault { D.tells × R.alone → OnOk result (D.faults self.new.inside ≡ D.faults self.old.inside) }
        ensures cause { D.tells × R.alone → OnErr result (OneMore (D.faults self.old.inside) (D.faults self.new.inside)) }
        ensures fails { ⊥ → IsErr result }
        ensures noted { R.notes self.old.known self.new.inside self.new.known }
    {
        let written = self.inside.write(at, from);
        self.known.note_write(&self.inside);
        written
    }

    fn read_extent(&mut self, first: u64, out: &mut [Content]) -> Result<(), DiskFault> {
        self.inside.read_extent(first, out)
    }

    /// The record is told of the write once it has ended, well or not.
    fn write_extent(&mut self, first: u64, from: &[Content]) -> Result<(), DiskFault>
        requires { first + length from.now ≤ D.size self.old.inside }
        ensures size { D.size self.new.inside ≡ D.size self.old.inside }
        ensures ok { D.tells × R.alone → OnOk result (D.contents self.new.inside ≡ written_each (D.contents self.old.inside) first from.now) }
        ensures how { D.tells × R.alone → OnErr result (WrittenSo (D.falters self.old.inside (Writing first (length from.now))) (D.contents self.old.inside) first from.now (D.contents self.new.inside)) }
        ensures no_fault { D.tells × R.alone → OnOk result (D.faults self.new.inside ≡ D.faults self.old.inside) }
        ensures cause { D.tells × R.alone → OnErr result (OneMore (D.faults self.old.inside) (D.faults self.new.inside)) }
        ensures fails { ⊥ → IsErr result }
        ensures noted { R.notes self.old.known self.new.inside self.new.known }
    {
        let written = self.inside.write_extent(first, from);
        self.known.note_write(&self.inside);
        written
    }

    /// The disk inside is asked, or the record leaves that out; the record is told that the sync begins before the disk is asked, and how
    /// it ended behind that.
    fn sync(&mut self) -> Result<(), DiskFault>
        ensures size { D.size self.new.inside ≡ D.size self.old.inside }
        ensures ok { D.tells × R.alone → OnOk result (D.contents self.new.inside ≡ synced (D.contents self.old.inside)) }
        ensures how { D.tells × R.alone → OnErr result (SyncedSo (D.falters self.old.inside Syncing) (D.contents self.old.inside) (D.contents self.new.inside)) }
        ensures no_fault { D.tells × R.alone → OnOk result (D.faults self.new.inside ≡ D.faults self.old.inside) }
        ensures cause { D.tells × R.alone → OnErr result (OneMore (D.faults self.old.inside) (D.faults self.new.inside)) }
        ensures fails { ⊥ → IsErr result }
        ensures asked { OnOk result (LeavesOut R.begins self.old.known self.old.inside self.new.known self.new.inside
            ⊎ ((D.tells → D.contents self.new.inside ≡ synced (D.contents self.old.inside)) × Asks R.begins R.ends self.old.known self.old.inside self.new.known self.new.inside)) }
        ensures failed { OnErr result (AsksInVain R.begins R.fails self.old.known self.old.inside self.new.known self.new.inside) }
    {
        let Some(sync) = self.known.begin_sync(&self.inside) else {
            return Ok(());
        };
        match self.inside.sync() {
            Ok(()) => {
                self.known.end_sync(&self.inside, sync);
                Ok(())
            }
            Err(fault) => {
                self.known.note_failure(&self.inside);
                Err(fault)
            }
        }
    }

    ghost whole = { λ d h. D.whole d.inside h.0 };
}
