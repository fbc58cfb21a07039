//! The theorem over all runs of a world.

ghost use Rattle.std.specs.declared.alloc.Global.{Global as GlobalValue};
ghost use Rattle.wb_policy.specs.declared.quiet.Quiet.{Quiet as QuietValue};
ghost use Rattle.wb_promise.specs.Headline.{AllRunsAreRight};

use std::alloc::Global;
use wb_policy::Quiet;

/// The theorem of every interleaving of reads, writes, flushes, suspends, promotions, demotions, write-backs, replacements and openings, with
/// failing steps and crashes anywhere and over any number of lives (`wb_headline::headline`), of the desks that a world has. The trace of a world
/// is one of such a run.
pub fn headline()
    ensures { AllRunsAreRight QuietValue GlobalValue }
{
    wb_headline::headline::<Quiet, Global>();
}
