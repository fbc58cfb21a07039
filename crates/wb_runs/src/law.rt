//! The theorems over all runs.

ghost use Rattle.wb_runs.specs.Holding.{WordsAreUsedRightly};
ghost use Rattle.wb_runs.specs.Inside.{StepsStayInside};
ghost use Rattle.wb_runs.specs.Laws.{AnswersCoverTheirSectors, EventsSkipRightly, MetadataAreRead, MetadataKeepSizes, OpeningsRefuseByCause};
ghost use Rattle.wb_runs.specs.Progress.{NeverStuck};

/// In every run, over any policy: whatever a crash leaves of the metadata device, it represents a root of these sizes and a
/// tree, so an opening finds one.
pub fn metadata_are_read<P, A>()
    ensures { MetadataAreRead P A }
{}

/// In every run the metadata that an opening reads have the sizes that they were formatted for.
pub fn metadata_keep_sizes<P, A>()
    ensures { MetadataKeepSizes P A }
{}

/// After every run each actor that has a task has what is needed for what is left of it, and so is ready for its next step; whoever
/// has none holds no block; and where a target stands its shared words keep their rule: a lock word counts its sharers and its lone owner.
pub fn words_are_used_rightly<P, A>()
    ensures { WordsAreUsedRightly P A }
{}

/// In every run an event is skipped only where it does not apply.
pub fn events_skip_rightly<P, A>()
    ensures { EventsSkipRightly P A }
{}

/// In every run a read that is answered done was given each of its sectors exactly once, and a write that is has entered each of its
/// sectors exactly once, wherever their block stands and in whichever mode the target was opened.
pub fn answers_cover_their_sectors<P, A>()
    ensures { AnswersCoverTheirSectors P A }
{}

/// No run is ever stuck, given some policy to open with and a reading that has read nothing: after every run each event has a
/// happening, which skips it only where it does not apply, and whoever has a task may do its next step.
pub fn never_stuck<P, A>()
    ensures { NeverStuck P A }
{}

/// In every run an opening is refused only where a step of it has failed, and then by that device, for want of memory, since no
/// generation is left, or in passthrough since the metadata were not left clean; never for anything else that they hold.
pub fn openings_refuse_by_cause<P, A>()
    ensures { OpeningsRefuseByCause P A }
{}

/// After every run the cache and the origin have their sizes, and whoever has a task wants next a step on sectors that are there, or a
/// seal by a cache block that is, wherever blocks are cached.
pub fn steps_stay_inside<P, A>()
    ensures { StepsStayInside P A }
{}
