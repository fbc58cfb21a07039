//! What is known of the writes and syncs of a file.

ghost use Rattle.std.specs.Prelude.{◌≤◌, [], ◌∷◌};
ghost use Rattle.wb_files.specs.Events.{Wrote};

/// A sync that has begun, by its number: they are numbered from 1 in the order in which they begin. The number 0 is of one that is not
/// noted, since no number is left.
#[derive(Drop)]
pub struct OngoingSync {
    number: u64,
}

/// What is known of the writes to a file and of its syncs: which of them are durable is told by numbers alone.
///
/// A write is noted behind its end, by the number of the last sync that had begun then. A sync takes its number before the system is asked.
/// So one with a greater number began behind the write's end, and where it has ended well the write is durable.
///
/// Once a sync has failed none is left out any more: the system tells once that what was written was lost.
#[derive(Drop)]
pub struct SyncLedger {
    /// How many syncs have begun.
    begun: u64,
    /// How many had begun when the last write was noted.
    written: u64,
    /// The greatest number of a sync that ended well; 0 where there is none.
    synced: u64,
    has_failed: bool,
    ghost within: { synced ≤ begun },
}

impl SyncLedger {
    ghost use Rattle.wb_files.specs.Ledgers.{IsTold, Notes, Begins, Ends, Fails};

    /// Of a file of which nothing is known: what others wrote before is not known to be durable.
    pub fn new() -> SyncLedger
        ensures { IsTold (Wrote ∷ []) result }
    {
        SyncLedger {
            begun: 0,
            written: 0,
            synced: 0,
            has_failed: false,
        }
    }

    /// A write ended, well or not.
    pub fn note_write(&mut self)
        ensures { Notes self.old self.new }
    {
        self.written = self.begun;
    }

    /// A sync begins; None where it can be left out.
    pub fn begin(&mut self) -> Option<OngoingSync>
        ensures { Begins self.old result self.new }
    {
        if self.written < self.synced && !self.has_failed {
            return None;
        }
        if self.begun == u64::MAX {
            return Some(OngoingSync { number: 0 });
        }
        self.begun += 1;
        Some(OngoingSync { number: self.begun })
    }

    /// A sync ended well. One that did not begin here is not noted.
    pub fn end_well(&mut self, sync: OngoingSync)
        ensures { Ends self.old sync self.new }
    {
        let OngoingSync { number } = sync;
        if self.synced < number && number <= self.begun {
            self.synced = number;
        }
    }

    /// A sync failed.
    pub fn note_failure(&mut self)
        ensures { Fails self.old self.new }
    {
        self.has_failed = true;
    }
}
