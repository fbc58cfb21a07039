//! Which root and tree a metadata device may be read as, over any number of commits, faults, crashes and openings: laws, which put
//! those of single commits, readings and openings together.

ghost use Rattle.wb_meta.specs.RootLaws.{CommitBegins, OpeningBegins, CommitGoesOn, CommitFails, OneOfTwoDuring, OldBeforeRoot, OneOfTwoAfterFailure, OldAfterFailedNode, StoresWhenDone};
ghost use Rattle.wb_meta.specs.RootLaws.{StoredIsRead, CrashDecides, SyncDecides, FailedSyncLeaves, ReadIsCommitted, NothingIsRefused};

/// A commit of the next image of a stored tree, alone or with dirty bits beside it, and one of an opening's root, begin, go
/// on by their steps, or fail. Until the root is written the device is read as the old state, then as the old or the new one,
/// also after a failure; once the commit is done the device stores the new one's tree.
pub fn commits_lead_on()
    ensures begins { CommitBegins }
    ensures opening { OpeningBegins }
    ensures goes_on { CommitGoesOn }
    ensures fails { CommitFails }
    ensures during { OneOfTwoDuring }
    ensures before_root { OldBeforeRoot }
    ensures failed { OneOfTwoAfterFailure }
    ensures failed_node { OldAfterFailedNode }
    ensures done { StoresWhenDone }
{}

/// A crash, and a sync, decide which of two states the device is read as; a sync that fails leaves it open. What is read
/// then is that state, with the tree that the device stores from then on, and it is not refused for what stands there.
pub fn one_state_is_read()
    ensures stored { StoredIsRead }
    ensures crash { CrashDecides }
    ensures sync { SyncDecides }
    ensures failed_sync { FailedSyncLeaves }
    ensures read { ReadIsCommitted }
    ensures not_refused { NothingIsRefused }
{}
