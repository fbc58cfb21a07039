//! What holds of every crash, at every moment of a commit, of an opening, of a conversion, and of all that is read.

ghost use Rattle.wb_disk.specs.Crashes.{CrashIsLeft, ReadIsLeft, SyncedIsLeft, CrashedIsLeft, SyncedIsRead, PartlySyncedIsRead, PartlySyncedLeavesNoMore};
ghost use Rattle.wb_meta.specs.Laws.{CommitGoesOn, CommitFails, OldOrWantedDuring, OldOrWantedAfterFailure, OldBeforeRoot, OldAfterFailedNode, WantedWhenDone};
ghost use Rattle.wb_meta.specs.Laws.{ImageHasPlaces, ImageMayCommit, ImageWithBitsMayCommit, OldOrTreeDuring, OldOrTreeAfterFailure, TreeWhenDone};
ghost use Rattle.wb_meta.specs.Laws.{FormattedIsFirst, FormattedIsEmpty, FormattedStores, ReadStores, EditedStores, UnusedAreFree, PlannedIsNext, CommittedStores};
ghost use Rattle.wb_meta.specs.Laws.{OpeningHasPlaces, OpeningMayCommit, OpeningStores};
ghost use Rattle.wb_meta.specs.Conversions.{BitsComeBack, AnewIsMapping, AnewIsEdited, ConversionBegins, ConversionKeeps};
ghost use Rattle.wb_meta.specs.Laws.{OneRoot, OneTree, OneState, OneRefusal, StateAlone, FittingAlone, TreeIsNotRefused, OldOrTreeIsRead, OldOrTreeIsNotRefused};
ghost use Rattle.wb_meta.specs.Laws.{StateIsRepresented, DamageIsRepresented, TreeIsRepresented, OneReading, WholeIsRead};

/// However far a commit has come, and after a failure too, a crash leaves the old mapping or the image's: the old one until
/// the root is written, and the image's alone when the commit is done. Where it has come is said step by step.
pub fn commit_law()
    ensures goes_on { CommitGoesOn }
    ensures fails { CommitFails }
    ensures during { OldOrWantedDuring }
    ensures failed { OldOrWantedAfterFailure }
    ensures before_root { OldBeforeRoot }
    ensures failed_node { OldAfterFailedNode }
    ensures done { WantedWhenDone }
{}

/// The next image of a tree, alone or with dirty bits beside it, has places on the device, and may be committed; with the
/// image in place the sectors represent the new tree by the image's root, and store it. However far the commit of the tree
/// alone has come, and after a failure too, a crash leaves what was stored before or the new tree so; when the commit is done,
/// the new tree alone.
pub fn image_law()
    ensures places { ImageHasPlaces }
    ensures may { ImageMayCommit }
    ensures with_bits { ImageWithBitsMayCommit }
    ensures during { OldOrTreeDuring }
    ensures failed { OldOrTreeAfterFailure }
    ensures done { TreeWhenDone }
{}

/// A device that was formatted represents the empty mapping by its first root, whatever a crash leaves of it.
pub fn formatted_law()
    ensures first { FormattedIsFirst }
    ensures empty { FormattedIsEmpty }
{}

/// Round and round: a device that was formatted stores the empty mapping, and one that was read after a sync the tree that
/// was read. It stores what edits leave of a tree; places that are not used are free for its next image; an image on them
/// is the next; and when the next image is committed, the device stores the new tree, and its places are used.
pub fn cycle_law()
    ensures formatted { FormattedStores }
    ensures read { ReadStores }
    ensures edited { EditedStores }
    ensures free { UnusedAreFree }
    ensures planned { PlannedIsNext }
    ensures committed { CommittedStores }
{}

/// The root that an opening writes over a tree that a device stores: it may be committed, and then the device stores the
/// same tree by it, with no dirty bits beside it. That holds of every tree that can be read, also of one with a node that has
/// no entry below it.
pub fn opening_law()
    ensures places { OpeningHasPlaces }
    ensures may { OpeningMayCommit }
    ensures stores { OpeningStores }
{}

/// Metadata of the first version may be written anew in the second, by the commit of an image of every node on places that are not
/// used: a crash within it leaves the one or the other. With their dirty bits beside them the entries are what they were.
pub fn conversion_law()
    ensures bits { BitsComeBack }
    ensures mapping { AnewIsMapping }
    ensures edited { AnewIsEdited }
    ensures begins { ConversionBegins }
    ensures keeps { ConversionKeeps }
{}

/// After a sync a crash leaves what reads gave, and they give it again: so what was read then is there after every crash.
/// After a crash another leaves the same. A sync that failed changes nothing of what is read, and nothing that a crash
/// could not leave before can it leave then.
pub fn sync_law()
    ensures left { SyncedIsLeft }
    ensures crashed { CrashedIsLeft }
    ensures again { SyncedIsRead }
    ensures failed { PartlySyncedIsRead }
    ensures no_more { PartlySyncedLeavesNoMore }
{}

/// What a device holds after a crash is what a crash may leave, and so is what reads give.
pub fn crash_law()
    ensures crashed { CrashIsLeft }
    ensures read { ReadIsLeft }
{}

/// Of the state that is read of sectors and the refusals that speak of them, one alone is right: so each comes exactly
/// where it is. Memory is wanted only where a root is there and the device has its size. Sectors that represent a tree, as
/// those after a commit, after a failed one and after any crash within one, are refused for nothing that stands there.
pub fn reading_law()
    ensures one_root { OneRoot }
    ensures one_tree { OneTree }
    ensures one_state { OneState }
    ensures one_refusal { OneRefusal }
    ensures state_only { StateAlone }
    ensures fitting_only { FittingAlone }
    ensures not_refused { TreeIsNotRefused }
    ensures old_or_tree { OldOrTreeIsRead }
    ensures old_or_tree_not_refused { OldOrTreeIsNotRefused }
{}

/// The state that is read of sectors, and the fault, are what they represent, and they represent one thing alone: what is
/// read of all that they spell.
pub fn represents_law()
    ensures state { StateIsRepresented }
    ensures damage { DamageIsRepresented }
    ensures tree { TreeIsRepresented }
    ensures one { OneReading }
    ensures whole { WholeIsRead }
{}
