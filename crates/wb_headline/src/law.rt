//! The whole promise of every run.

ghost use Rattle.wb_promise.specs.Headline.{AllCrashConsistent, AllOpeningsShowAllowed, AllRunsAreRight};
ghost use Rattle.wb_promise.specs.Latest.{ReadsGiveLatest};
ghost use Rattle.wb_promise.specs.Sealed.{SealsTellPlaces};

/// The whole promise. In every run from formatted metadata, over any policy: no event is skipped that applies; a read that is answered
/// done was given each of its sectors once, and the last write to it; a write that is has entered each of its sectors once; an opening
/// that is answered done shows of each sector what is allowed, and one that is refused has a cause; and whatever a crash leaves after the
/// run, what an opening then shows is allowed.
pub fn headline<P, A>()
    ensures { AllRunsAreRight P A }
{}

/// In every run each sector that a step of a read was given is the last entry of its history, also where the read never ends.
pub fn reads_give_the_latest_write<P, A>()
    ensures { ReadsGiveLatest P A }
{}

/// After every run: whatever a crash leaves of the three devices, what an opening then shows of each sector is an entry of its history at
/// the durable floor or later.
pub fn every_crash_is_consistent<P, A>()
    ensures { AllCrashConsistent P A }
{}

/// In every run an opening that is answered done shows of each sector such an entry.
pub fn every_opening_shows_allowed<P, A>()
    ensures { AllOpeningsShowAllowed P A }
{}

/// After every run where a target stands the seal of each block tells where the desk has it, in a cache block or on the origin; or some
/// actor has just mapped or unmapped the block, and its next step seals it so.
pub fn seals_tell_places<P, A>()
    ensures { SealsTellPlaces P A }
{}
