//! Who knows whether a sync may be left out: a ledger of a disk's own, or the ledger of its file, which all handles of the file share.

ghost use Rattle.std.specs.Prelude.{◌≡◌};
ghost use Rattle.wb_files.specs.Ledgers.{Covers, Notes, Begins, Ends, Fails};

use crate::ledger::{OngoingSync, SyncLedger};
use crate::sparing::SyncRecord;

/// The ledger of a disk that has this one handle.
impl<D> SyncRecord<D> for SyncLedger {
    ghost alone = { Unit {0} };

    ghost covered = { Covers };

    ghost notes = { λ ledger _ new. Notes ledger new };

    ghost begins = { λ ledger _ begun new. Begins ledger begun new };

    ghost ends = { λ ledger _ sync new. Ends ledger sync new };

    ghost fails = { λ ledger _ new. Fails ledger new };

    fn note_write(&mut self, _disk: &D) {
        SyncLedger::note_write(self)
    }

    fn begin_sync(&mut self, _disk: &D) -> Option<OngoingSync> {
        self.begin()
    }

    fn end_sync(&mut self, _disk: &D, sync: OngoingSync) {
        self.end_well(sync)
    }

    fn note_failure(&mut self, _disk: &D) {
        SyncLedger::note_failure(self)
    }
}
