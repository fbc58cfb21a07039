//! Laws of how a run is followed in the abstract world.

ghost use Rattle.wb_simulation.specs.Noted.{NotesFollowed};
ghost use Rattle.wb_simulation.specs.Opened.{OpenedFollowed};
ghost use Rattle.wb_simulation.specs.Sites.{ImagesFollowed, OpeningsFollowed};
ghost use Rattle.wb_simulation.specs.Migrating.{MigrationsFollowed};
ghost use Rattle.wb_simulation.specs.Laws.{AnswersFollowed, CanAgree, CellStepsFollowed, ExtentStepsFollowed, CommitStepsFollowed, StartsFollowed, UnmapsFollowed};

/// Each step of a read or a write on the shared words is some records of the abstract world, which stands for the whole state of the
/// run before them and after them: devices, words, the desk's commit and every actor.
pub fn cell_steps_are_followed()
    ensures { CellStepsFollowed }
{}

/// So is each of theirs on an extent of a device, done or failing.
pub fn extent_steps_are_followed()
    ensures { ExtentStepsFollowed }
{}

/// So is the desk's unmap of a block that a write or an invalidation takes out of the cache in passthrough, where no order lives.
pub fn unmaps_are_followed()
    ensures { UnmapsFollowed }
{}

/// So are starts of reads, writes, invalidations, flushes and suspends, and answers of reads, writes and invalidations.
pub fn starts_and_answers_are_followed()
    ensures starts { StartsFollowed }
    ensures answers { AnswersFollowed }
{}

/// So is each step of a flush or of a suspend: its looks, the commit that it leads, or that is refused to it, its syncs and its steps on the
/// metadata, done or failing, an order that a flush gives up, which lies aside there, the bit that a suspend sets, and its answer.
pub fn commit_steps_are_followed()
    ensures { CommitStepsFollowed }
{}

/// So is a promotion, a demotion or a write-back, also under a replacement: its start under an order that is given or lives already, each
/// step on the words, each read and write of an extent, done or failing, what it asks of the desk, and its answer.
pub fn migrations_are_followed()
    ensures { MigrationsFollowed }
{}

/// And there is a state that the abstract world stands for, whatever the sizes and however many actors: that of a target just made.
pub fn a_state_can_agree()
    ensures { CanAgree }
{}

/// A crash, and each step of an opening, done, refused or failing, is an event there that may come, or none where it writes a node anew or
/// syncs those; and after it the devices agree with that world again: cache and origin sector by sector, and the metadata as the images that they
/// may be read as.
pub fn openings_are_followed()
    ensures { OpeningsFollowed }
{}

/// What a commit makes of the images there agrees with what the metadata may be read as, where its root leads to its image's state.
pub fn images_are_followed()
    ensures { ImagesFollowed }
{}

/// The notes of a run's clerk are those of the abstract world's, by block and offset: what is told of each of these steps keeps them so,
/// with what a write enters and finishes, what a flush or a suspend makes durable and what an opening begins with; and what a read is given is the
/// last entry of each of its sectors' histories, where the abstract world's records are right.
pub fn notes_are_followed()
    ensures { NotesFollowed }
{}

/// Of a tree that an opening has read, each mapped block sealed, the words of the target that it makes tell just what the abstract
/// opening's have: where each block is, and that it is dirty; so the whole target stands for that one.
pub fn opened_targets_are_followed()
    ensures { OpenedFollowed }
{}
