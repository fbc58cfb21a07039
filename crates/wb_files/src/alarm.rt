//! What is told at once of a device that failed, for who reads standard error.

ghost use Rattle.std.specs.Prelude.{◌≡◌};

use crate::mark::{MarkPlace, Marker};
use crate::watched::{Step, Watch};
use std::io;
use std::io::ErrorKind;
use std::sync::atomic::{AtomicU64, Ordering};
use wb_types::Dev;

/// No step on a device has failed.
const NONE: u64 = 0;

/// One has failed, the last of them for want of room.
const FULL: u64 = 1;

/// One has failed, the last of them for another reason.
const BROKEN: u64 = 2;

/// Says at once of the first step on each device that failed, leaves a mark where that was a write or a sync, and knows whether a device is
/// full.
#[derive(Drop)]
pub struct Alarm<'a, E> {
    log: &'a E,
    program: &'static str,
    /// Where the mark is left; none where nothing is to be marked.
    mark: Option<&'a MarkPlace>,
    metadata: AtomicU64,
    cache: AtomicU64,
    origin: AtomicU64,
}

impl<'a, E: Eprint> Alarm<'a, E> {
    /// Of a program of this name.
    pub fn new(log: &'a E, program: &'static str, mark: Option<&'a MarkPlace>) -> Alarm<'a, E> {
        Alarm {
            log,
            program,
            mark,
            metadata: AtomicU64::new(NONE),
            cache: AtomicU64::new(NONE),
            origin: AtomicU64::new(NONE),
        }
    }

    fn device(&self, device: Dev) -> &AtomicU64 {
        match device {
            Dev::Metadata => &self.metadata,
            Dev::Cache => &self.cache,
            Dev::Origin => &self.origin,
        }
    }

    /// Whether the last step on this device that failed found no room: in the file system, in what its owner may have of it, or in what a file may.
    pub fn is_full(&self, device: Dev) -> bool {
        self.device(device).load(Ordering::SeqCst) == FULL
    }

    /// A step on a device failed of which no reason is known.
    pub fn note(&self, device: Dev) {
        let word = self.device(device);
        let is_first = word
            .compare_exchange(NONE, BROKEN, Ordering::SeqCst, Ordering::SeqCst)
            .is_ok();
        if is_first {
            let program = self.program;
            let _ = eprintln!(self.log;
                "{program}: {device} file: a read, a write or a sync failed"
            );
        }
    }
}

impl<'a, E: Eprint + Marker> Alarm<'a, E> {
    /// Leaves a mark of a write or a sync that failed, or says why that cannot be done. A read leaves none, and neither does a write that found
    /// no room: the system keeps nothing of it that the disk does not have.
    fn mark(&self, device: Dev, step: Step, reason: &io::Error) {
        let Some(place) = self.mark else {
            return;
        };
        let is_harmless = match step {
            Step::Read(_) => true,
            Step::Write(_) => is_want_of_room(reason.kind()),
            Step::Sync => false,
        };
        if is_harmless {
            return;
        }
        if let Err(error) = self.log.leave(place, device, step, reason) {
            let (program, path) = (self.program, place.path());
            let _ = eprintln!(self.log; "{program}: {path}: no mark can be left: {error}");
        }
    }
}

impl<'a, E: Eprint + Marker> Watch for Alarm<'a, E> {
    fn failed(&self, device: Dev, step: Step, reason: &io::Error) {
        let state = if is_want_of_room(reason.kind()) {
            FULL
        } else {
            BROKEN
        };
        if self.device(device).swap(state, Ordering::SeqCst) == NONE {
            let program = self.program;
            let _ = eprintln!(self.log; "{program}: {device} file: {step}: {reason}");
        }
        self.mark(device, step, reason);
    }
}

fn is_want_of_room(kind: ErrorKind) -> bool {
    match kind {
        ErrorKind::StorageFull | ErrorKind::QuotaExceeded | ErrorKind::FileTooLarge => true,
        _ => false,
    }
}
