//! The rule that cache blocks, mapping, images and orders keep over every run.

ghost use Rattle.std.specs.Prelude.{◌≡◌, ◌≢◌, ◌⊎◌, ℕ, List, Some};
ghost use Rattle.wb_desk.specs.Allocation.{Allocation, DeskAct, AllocationInvariant, IsActRun, after_acts, after_act, DeskMayAct, StaysOrEnds, NoneTwice, BlockMap, at_opening, origin_in};
ghost use Rattle.wb_space.specs.Blocks.{state};
ghost use Rattle.wb_desk.specs.Safety.{OpenedIsSafe, CallsAreSafe, QuarantineStays, BeginningDoes, MappingDoes, UnmappingDoes, TellingDoes, TakingDoes, ReservingDoes, ReleasingDoes, EndingDoes, BreakingDoes};
ghost use Rattle.wb_desk.specs.Marks.{SameMarksChangeNoNode};
ghost use Rattle.wb_desk.specs.Acting.{OpenedDeskBegins, CallsAreActs};
ghost use Rattle.wb_desk.specs.Sharing.{ServedByLaterCommits, ServedStays, BrokenStays, ArrivingDoes, AskingDoes};

use wb_policy::Policy;
use wb_space::Block;

/// What holds after every run of acts on the blocks. The acts do to the cache blocks what the calls of `Space`
/// do.
///
/// `rule`: the allocation invariant, with the safety of both images, stays. `quarantine`: a quarantined block
/// leaves its quarantine only at the end of a commit that began after its removal. `opening`: what an opening
/// makes keeps the rule. `unnamed`: no image entry_in a free or reserved block.
pub fn allocation_keeps_its_invariant()
    ensures rule { (d : Allocation) → AllocationInvariant d → (acts : List DeskAct) → IsActRun d acts →
        AllocationInvariant (after_acts d acts) }
    ensures quarantine { (d : Allocation) (a : DeskAct) → DeskMayAct d a → (c : ℕ) →
        StaysOrEnds (state d.blocks c) a (state (after_act d a).blocks c) }
    ensures opening { (m : BlockMap) (threshold : ℕ) → NoneTwice m → AllocationInvariant (at_opening m threshold) }
    ensures unnamed { (d : Allocation) → AllocationInvariant d → (c : ℕ) →
        (state d.blocks c ≡ Block.Free) ⊎ (state d.blocks c ≡ Block.Reserved) → (b : ℕ) →
        (origin_in d.mapping c ≢ Some b) × (origin_in d.committed c ≢ Some b) × (origin_in d.running c ≢ Some b) }
{}

/// What holds of the images of a desk after every list of calls, though no field holds them: no free or reserved cache block
/// is in the committed image or the running one, and a mapped one stands in each for the block that it has now, or not at all.
///
/// `opening`: it is so of the entries that an opening read. `calls`: it stays so, where a commit takes the entries of its
/// beginning as its image, and leaves it alone when it ends. `quarantine`: a quarantined block leaves its quarantine only at
/// the end of a commit that began after its removal. The others: what the contracts of the calls say is what is
/// supposed of them there. `settle` and `tick` say so themselves, of the calls that follow from them.
pub fn images_stay_safe<P: Policy>()
    ensures opening { OpenedIsSafe P }
    ensures calls { CallsAreSafe P P.knows }
    ensures quarantine { QuarantineStays P P.knows }
    ensures beginning { BeginningDoes P P.hint_of }
    ensures mapping { MappingDoes P P.with_entry }
    ensures unmapping { UnmappingDoes P P.without_entry }
    ensures telling { TellingDoes P P.with_setting }
    ensures taking { TakingDoes P }
    ensures reserving { ReservingDoes P }
    ensures releasing { ReleasingDoes P }
    ensures ending { EndingDoes P }
    ensures breaking { BreakingDoes P }
{}

/// What a desk and its images are after every list of calls, as the acts speak of them. So all that
/// `allocation_keeps_its_invariant` says of them holds, too: no two live orders share an origin block or a cache block, and each
/// with those given before it is within the threshold of when it was given.
///
/// `opening`: a desk that has just been opened is what the acts begin with. `calls`: each call is a list of acts, each of which may
/// be then, and what they make is what the call made. And what holds of all live orders, by cache block, holds after each call.
pub fn calls_are_acts<P: Policy>()
    ensures opening { OpenedDeskBegins P }
    ensures calls { CallsAreActs P P.knows }
{}

/// Which commit covers a flush, over every list of calls.
///
/// `served`: a ticket is served only by a commit that began after its holder came, with all that was in the mapping then. `stays`:
/// one that is served stays so. `broken`: after `break_commit` no commit begins for a flush again. `arriving`, `asking`: a flush
/// begins a commit as `begin_commit` does, or changes nothing; so what holds over every list of calls holds over it.
pub fn flushes_share_commits<P: Policy>()
    ensures served { ServedByLaterCommits P P.knows }
    ensures stays { ServedStays P P.knows }
    ensures broken { BrokenStays P P.knows }
    ensures arriving { ArrivingDoes P P.hint_of }
    ensures asking { AskingDoes P P.hint_of }
{}

/// A clean image writes the nodes that had changed before, and those above an entry whose dirty bit or hint is another now. So
/// where no entry differs, and no node had changed, it writes none.
pub fn same_marks_change_no_node()
    ensures { SameMarksChangeNoNode }
{}
