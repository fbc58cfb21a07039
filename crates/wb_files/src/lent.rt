//! Disks over an open file that several clients are lent.

ghost use Rattle.std.specs.Prelude.{◌≡◌, [], false};

use crate::ledger::{OngoingSync, SyncLedger};
use crate::sparing::{SparingDisk, SyncRecord};
use crate::watched::{Watch, Watched};
use std::sync::{Mutex, Wait};
use wb_disk::{Disk, DiskFault, FileDisk};
use wb_types::Content;

/// A disk over a file that its clients share, each of whose syncs asks the system, beside the file's ledger.
#[derive(Drop)]
pub struct LentDisk<'f, T, N> {
    disk: FileDisk<Watched<'f, N>>,
    ledger: &'f Mutex<SyncLedger>,
    waits: &'f T,
}

/// A disk over a file that its clients share, whose sync asks the system only where it cannot be left out.
pub type SharedDisk<'f, T, N> = SparingDisk<LentDisk<'f, T, N>, FileLedger>;

impl<'f, T, N> LentDisk<'f, T, N> {
    /// Over a file that was measured, beside its ledger.
    pub(crate) fn new(
        disk: FileDisk<Watched<'f, N>>,
        ledger: &'f Mutex<SyncLedger>,
        waits: &'f T,
    ) -> LentDisk<'f, T, N> {
        LentDisk {
            disk,
            ledger,
            waits,
        }
    }
}

impl<'f, T, N: Watch> Disk for LentDisk<'f, T, N> {
    ghost tells = { ⊥ };

    ghost size = { λ lent. lent.disk };

    ghost contents = { λ _. [] };

    ghost faults = { λ _. 0 };

    ghost falters = { λ _ _ _. Unit {0} };

    ghost fails = { λ _. ⊥ };

    fn sectors(&self) -> u64 {
        self.disk.sectors()
    }

    fn read(&mut self, at: u64, out: &mut Content) -> Result<(), DiskFault> {
        self.disk.read(at, out)
    }

    fn write(&mut self, at: u64, from: &Content) -> Result<(), DiskFault> {
        self.disk.write(at, from)
    }

    fn read_extent(&mut self, first: u64, out: &mut [Content]) -> Result<(), DiskFault> {
        self.disk.read_extent(first, out)
    }

    fn write_extent(&mut self, first: u64, from: &[Content]) -> Result<(), DiskFault> {
        self.disk.write_extent(first, from)
    }

    fn sync(&mut self) -> Result<(), DiskFault> {
        self.disk.sync()
    }

    ghost whole = { λ d h. absurd h };
}

/// The ledger of the file under a disk: a call holds it for as long as it changes some numbers, and no read asks for it.
#[derive(Drop)]
pub struct FileLedger;

impl<'f, T: Wait, N> SyncRecord<LentDisk<'f, T, N>> for FileLedger {
    ghost use Rattle.wb_files.specs.Ledgers.{Notes, Begins, Ends, Fails};
    ghost use Rattle.wb_files.specs.declared.ledger.SyncLedger.{SyncLedger as Ledger};

    ghost alone = { ⊥ };

    ghost covered = { λ _. Unit {0} };

    ghost notes = { λ _ _ _. (ledger : Ledger) × (new : Ledger) × Notes ledger new };

    ghost begins = { λ _ _ begun _. (ledger : Ledger) × (new : Ledger) × Begins ledger begun new };

    ghost ends = { λ _ _ sync _. (ledger : Ledger) × (new : Ledger) × Ends ledger sync new };

    ghost fails = { λ _ _ _. (ledger : Ledger) × (new : Ledger) × Fails ledger new };

    fn note_write(&mut self, disk: &LentDisk<'f, T, N>) {
        disk.ledger.lock(disk.waits).note_write();
    }

    fn begin_sync(&mut self, disk: &LentDisk<'f, T, N>) -> Option<OngoingSync> {
        disk.ledger.lock(disk.waits).begin()
    }

    fn end_sync(&mut self, disk: &LentDisk<'f, T, N>, sync: OngoingSync) {
        disk.ledger.lock(disk.waits).end_well(sync);
    }

    fn note_failure(&mut self, disk: &LentDisk<'f, T, N>) {
        disk.ledger.lock(disk.waits).note_failure();
    }
}
