//! Syncs that are left out: how often the system is asked, by one handle of a file and by two that share what they know.

ghost use Rattle.std.specs.Prelude.{[], ◌≡◌};

use super::{Step, are_done, put};
use std::cell::Cell;
use std::sync::{Mutex, Wait};
use std::test::Fail;
use wb_disk::{Disk, DiskFault, MemDisk};
use wb_files::{OngoingSync, SparingDisk, SyncLedger, SyncRecord};
use wb_types::Content;

/// What a handle is asked for.
#[derive(Clone, Copy)]
enum Asked {
    Write,
    Sync,
    /// A sync, while another handle writes.
    SyncMeanwhile,
    /// A sync that fails, where the system is asked.
    SyncFailing,
}

/// One of two handles.
#[derive(Clone, Copy)]
enum Handle {
    First,
    Second,
}

use Asked::{Sync, SyncFailing, SyncMeanwhile, Write};
use Handle::{First, Second};

/// A file whose syncs are counted, and how the next of them goes.
#[derive(Drop)]
struct Counted {
    ledger: Mutex<SyncLedger>,
    syncs: Cell<u64>,
    is_written_meanwhile: Cell<bool>,
    fails: Cell<bool>,
}

/// A handle of it, which holds nothing.
#[derive(Drop)]
struct Opened<'c, T> {
    file: &'c Counted,
    waits: &'c T,
}

impl<'c, T: Wait> Disk for Opened<'c, T> {
    ghost tells = { ⊥ };

    ghost size = { λ _. 2 };

    ghost contents = { λ _. [] };

    ghost faults = { λ _. 0 };

    ghost falters = { λ _ _ _. Unit {0} };

    ghost fails = { λ _. ⊥ };

    fn sectors(&self) -> u64 {
        2
    }

    fn read(&mut self, _at: u64, _out: &mut Content) -> Result<(), DiskFault> {
        Ok(())
    }

    fn write(&mut self, _at: u64, _from: &Content) -> Result<(), DiskFault> {
        Ok(())
    }

    fn read_extent(&mut self, _first: u64, _out: &mut [Content]) -> Result<(), DiskFault> {
        Ok(())
    }

    fn write_extent(&mut self, _first: u64, _from: &[Content]) -> Result<(), DiskFault> {
        Ok(())
    }

    fn sync(&mut self) -> Result<(), DiskFault> {
        let file = self.file;
        file.syncs.set(file.syncs.get().wrapping_add(1));
        if file.is_written_meanwhile.get() {
            file.ledger.lock(self.waits).note_write();
        }
        if file.fails.get() {
            Err(DiskFault)
        } else {
            Ok(())
        }
    }

    ghost whole = { λ d h. absurd h };
}

/// The ledger that lies beside the file.
#[derive(Drop)]
struct Beside;

impl<'c, T: Wait> SyncRecord<Opened<'c, T>> for Beside {
    ghost alone = { ⊥ };

    ghost covered = { λ _. Unit {0} };

    ghost notes = { λ _ _ _. Unit {0} };

    ghost begins = { λ _ _ _ _. Unit {0} };

    ghost ends = { λ _ _ _ _. Unit {0} };

    ghost fails = { λ _ _ _. Unit {0} };

    fn note_write(&mut self, disk: &Opened<'c, T>) {
        disk.file.ledger.lock(disk.waits).note_write();
    }

    fn begin_sync(&mut self, disk: &Opened<'c, T>) -> Option<OngoingSync> {
        disk.file.ledger.lock(disk.waits).begin()
    }

    fn end_sync(&mut self, disk: &Opened<'c, T>, sync: OngoingSync) {
        disk.file.ledger.lock(disk.waits).end_well(sync);
    }

    fn note_failure(&mut self, disk: &Opened<'c, T>) {
        disk.file.ledger.lock(disk.waits).note_failure();
    }
}

fn unsynced_file() -> Counted {
    Counted {
        ledger: Mutex::new(SyncLedger::new()),
        syncs: Cell::new(0),
        is_written_meanwhile: Cell::new(false),
        fails: Cell::new(false),
    }
}

/// Has a handle do what it is asked for.
fn ask<D: Disk, R: SyncRecord<D>>(file: &Counted, disk: &mut SparingDisk<D, R>, asked: Asked) {
    file.is_written_meanwhile
        .set(matches!(asked, SyncMeanwhile));
    file.fails.set(matches!(asked, SyncFailing));
    let _ = match asked {
        Write => put(disk, 1, 7),
        _ => disk.sync(),
    };
}

/// How often the system is asked for a sync by one handle that has a ledger of its own.
fn syncs_of_one<T: Wait>(waits: &T, asked: &[Asked]) -> u64 {
    let file = unsynced_file();
    let opened = Opened { file: &file, waits };
    let mut disk = SparingDisk::new(opened, SyncLedger::new());
    for one in asked {
        ask(&file, &mut disk, *one);
    }
    drop(disk);
    file.syncs.get()
}

/// How often by two that share one.
fn syncs_of_two<T: Wait>(waits: &T, asked: &[(Handle, Asked)]) -> u64 {
    let file = unsynced_file();
    let mut first = SparingDisk::new(Opened { file: &file, waits }, Beside);
    let mut second = SparingDisk::new(Opened { file: &file, waits }, Beside);
    for (handle, one) in asked {
        match *handle {
            First => ask(&file, &mut first, *one),
            Second => ask(&file, &mut second, *one),
        }
    }
    drop(first);
    drop(second);
    file.syncs.get()
}

#[test]
fn a_sync_is_left_out_where_nothing_was_written_since(rt: HostRuntime) -> Result<(), Fail> {
    let rows: [(&[Asked], u64); 5] = [
        (&[Sync], 1),
        (&[Sync, Sync, Sync], 1),
        (&[Sync, Write, Sync, Sync], 2),
        (&[SyncFailing, Sync, Sync], 3),
        (&[Sync, SyncFailing], 1),
    ];
    for (asked, syncs) in rows {
        assert!(rt; syncs_of_one(&rt, asked) == syncs);
    }
    Ok(())
}

#[test]
fn handles_share_what_was_written_and_synced(rt: HostRuntime) -> Result<(), Fail> {
    let rows: [(&[(Handle, Asked)], u64); 8] = [
        (&[(First, Sync), (Second, Sync), (First, Sync)], 1),
        (&[(First, Write), (Second, Sync), (First, Sync)], 1),
        (
            &[
                (First, Sync),
                (Second, Write),
                (First, Sync),
                (Second, Sync),
            ],
            2,
        ),
        (
            &[
                (First, Sync),
                (First, Write),
                (Second, Write),
                (Second, Sync),
                (First, Sync),
            ],
            2,
        ),
        (&[(First, SyncMeanwhile), (First, Sync), (Second, Sync)], 2),
        (&[(First, SyncMeanwhile), (Second, Sync), (First, Sync)], 2),
        (&[(First, Sync), (Second, SyncFailing)], 1),
        (
            &[
                (First, SyncFailing),
                (First, Sync),
                (Second, Sync),
                (First, Sync),
            ],
            4,
        ),
    ];
    for (asked, syncs) in rows {
        assert!(rt; syncs_of_two(&rt, asked) == syncs);
    }
    Ok(())
}

#[test]
fn what_is_synced_stays(rt: HostRuntime) -> Result<(), Fail> {
    let inside = MemDisk::new(rt.alloc(), 3)?;
    let mut disk = SparingDisk::new(inside, SyncLedger::new());
    let steps = [
        Step::Put(2, 7),
        Step::Synced,
        Step::Synced,
        Step::Got(2, 7),
        Step::Got(1, 0),
    ];
    assert!(rt; are_done(&mut disk, &steps));
    Ok(())
}
