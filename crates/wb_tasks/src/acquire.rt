//! Acquiring a block, as a task sees it: by the steps of a grip.

ghost use Rattle.std.specs.Prelude.{◌≡◌};
ghost use Rattle.wb_tasks.specs.Tables.{BlockJob, is_write, range_of, access_of};
ghost use Rattle.wb_tasks.specs.Plan.{Plan, want, after_look, Fits};
ghost use Rattle.wb_tasks.specs.Phases.{acquiring, after_seeing};

use crate::step::{Got, Want};
use wb_types::{CBlock, OBlock, Refusal};
use wb_words::{Access, Grip, GripStage, Gripped};

/// What comes of a word that a task on its way to its block looked at.
#[derive(Clone, Copy)]
pub(crate) enum Seen {
    Next(GripStage),
    /// It has its block, which stands at this place; the flag says whether that copy is dirty.
    Holds(Option<CBlock>, bool),
    Refused(Refusal),
    /// The block has no number left for a write.
    Worn,
}

/// The next step of a job that takes this block with this access.
pub(crate) fn want(access: Access, block: OBlock, stage: GripStage) -> Want
    ensures { (job : BlockJob) → access_of job ≡ access → (range_of job).block ≡ block → result ≡ want (acquiring job stage) }
{
    let grip = Grip {
        access,
        block,
        stage,
    };
    Want::Cell(grip.step())
}

/// What comes of a word that was looked at. A job that writes wants a number for itself.
pub(crate) fn after_look(
    access: Access,
    writes: bool,
    block: OBlock,
    stage: GripStage,
    word: u64,
) -> Seen
    ensures { (job : BlockJob) → access_of job ≡ access → is_write job ≡ writes → Fits (want (acquiring job stage)) (Got.Word word) → after_seeing job result ≡ after_look (acquiring job stage) (want (acquiring job stage)) word }
{
    let mut grip = Grip {
        access,
        block,
        stage,
    };
    match grip.advance(word) {
        Gripped::More(_) => Seen::Next(grip.stage),
        Gripped::Shared(share) => Seen::Holds(share.place, share.dirty),
        Gripped::Owned(own) if writes && own.number == u64::MAX => Seen::Worn,
        Gripped::Owned(own) => Seen::Holds(own.place, own.dirty),
        Gripped::Refused(refusal) => Seen::Refused(refusal),
    }
}
