//! Runs that there are, and answers that the promise refuses.

ghost use Rattle.wb_examples.specs.Excluded.{ExcludesWrongAnswers, ExcludesWrongSharing, ExcludesWrongSuspends};
ghost use Rattle.wb_examples.specs.Possible.{CanDemote, CanFlush, CanGiveUp, CanOpen, CanPassThrough, CanPromote, CanReplace, CanShare, CanStartAgain, CanStayClean, CanSurvive, CanSuspend, CanWriteBack, CanWriteHalf, CanWriteThrough};

/// From any formatted metadata there is a run, over any policy, in which an opening is answered done and its target stands.
pub fn a_target_can_be_opened<P, A>()
    ensures { CanOpen P A }
{}

/// And one in which a flush over that target comes to its answer, which is done, its root written.
pub fn a_flush_can_be_done<P, A>()
    ensures { CanFlush P A }
{}

/// And where there are two actors one in which a flush that waits for the commit of another is served by the next commit, which that one leads
/// too: three flushes by two commits.
pub fn a_commit_can_be_shared<P, A>()
    ensures { CanShare P A }
{}

/// And over the smallest origin one that passes through a write that is answered done, a read that is given it, a flush that makes it
/// durable, a write of something else that fails, a crash, and a second opening that is answered done and shows the first write.
pub fn a_write_can_survive<P, A>()
    ensures { CanSurvive P A }
{}

/// And over the smallest origin one in which, after an opening, a promotion copies its block, maps it and is about to be answered done: the
/// block stands in the cache, and its order is over.
pub fn a_block_can_be_promoted<P, A>()
    ensures { CanPromote P A }
{}

/// And over the smallest origin one in which after that a demotion unmaps the block and is about to be answered done: the block stands nowhere,
/// its order is over, and its cache block is in quarantine.
pub fn a_block_can_be_demoted<P, A>()
    ensures { CanDemote P A }
{}

/// And over the smallest origin one in write-through in which the block that was promoted is written to: the origin has it, then the cache too,
/// and the block stays clean.
pub fn a_block_can_be_written_through<P, A>()
    ensures { CanWriteThrough P A }
{}

/// And one in which power is lost between those two writes, and a second opening, in write-back, is answered done and shows what had reached the
/// origin.
pub fn a_write_can_be_cut_off<P, A>()
    ensures { CanWriteHalf P A }
{}

/// And over an origin of two blocks one in which the first block, which was promoted and written to, is written back: its content goes home, and
/// it stays where it is, clean.
pub fn a_block_can_be_written_back<P, A>()
    ensures { CanWriteBack P A }
{}

/// And one in which that block, still dirty, is replaced by the second: its content goes home, a flush of the same actor ends the quarantine of
/// its cache block, and under the same order the second block is promoted there.
pub fn a_block_can_be_replaced<P, A>()
    ensures { CanReplace P A }
{}

/// And one in which that flush is refused for want of memory, and gives the order up.
pub fn a_replacement_can_be_given_up<P, A>()
    ensures { CanGiveUp P A }
{}

/// And one in which a replacement fails before its block has left, and starts again under the order that its actor has still.
pub fn a_replacement_can_start_again<P, A>()
    ensures { CanStartAgain P A }
{}

/// And over the smallest origin and cache one in which the block that was promoted is written to, the target is suspended, and an opening behind
/// it is answered done: what was written is durable with the suspend's answer, the block is stored and taken as dirty, and the opening shows it.
pub fn a_target_can_be_suspended<P, A>()
    ensures { CanSuspend P A }
{}

/// And one in which that block, where it was not written to, is stored and taken as clean.
pub fn a_block_can_stay_clean<P, A>()
    ensures { CanStayClean P A }
{}

/// And one in which, where that block stays clean, the target is opened in passthrough behind the suspend: a write to the block takes it out of the
/// cache, and goes to the origin alone; a flush makes it durable; and behind a crash an opening in write-back shows it.
pub fn a_block_can_be_passed_by<P, A>()
    ensures { CanPassThrough P A }
{}

/// The definitions of the promise tell right answers from wrong ones: of a read, a write and an opening on a sector to which two contents
/// were written, of a flush's floor, and of a skipped step.
pub fn promises_exclude_wrong_answers<P, A>()
    ensures { ExcludesWrongAnswers P A }
{}

/// And of suspends: none starts beside a task, nothing starts beside one, what it has seen dirty is stored so, by a root that is marked clean as
/// no flush's is, and its answer raises the floor.
pub fn promises_exclude_wrong_suspends<P, A>()
    ensures { ExcludesWrongSuspends P A }
{}

/// And of flushes that share commits: none is served by a commit that began before it came, or has not ended, nor without a ticket, nor twice; after
/// one that broke none begins a commit, and none waits; and one that waits is skipped, and goes on by nothing.
pub fn promises_exclude_wrong_sharing<P, A>()
    ensures { ExcludesWrongSharing P A }
{}
