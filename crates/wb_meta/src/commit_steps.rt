//! The commit of an image.

ghost use Rattle.std.specs.Prelude.{◌≡◌, ◌≤◌, ◌↔◌, ◌+◌, ℕ, [], List, OnOk, OnErr, IsOk, IfErr, IsTrue, IsFalse};
ghost use Rattle.wb_types.specs.declared.refusal.Refusal.TheVariants.{Io};
ghost use Rattle.wb_types.specs.declared.mode.Dev.TheVariants.{Metadata};
ghost use Rattle.wb_disk.specs.Device.{History, OneMore};
ghost use Rattle.wb_meta.specs.Placing.{HavePlaces};
ghost use Rattle.wb_meta.specs.Steps.{DoesStep, FailsStepSo, coming_step, steps_after};
ghost use Rattle.wb_meta.specs.Commits.{CommitHasCome, Comes, FailsWhere, IsOneStepLess, steps_left};
ghost use Rattle.wb_meta.specs.Laws.{TreeCommitted, TreeOrOld, WantedCommitted, WantedOrOld};

use crate::Image;
use crate::sector::{put_node, put_root, sync};
use wb_disk::Disk;
use wb_types::{Place, Refusal};

/// One step of a commit.
#[derive(Clone, Copy, PartialEq, Eq)]
pub enum CommitStep {
    /// A node is written to this place.
    WriteNode(Place),
    /// The metadata device is synced.
    Sync,
    /// The root is written into this slot.
    WriteRoot(Place),
}

/// A commit by single steps of the metadata device: it writes each node, syncs, writes the root, and syncs. What
/// is done to other devices between the steps changes nothing of it.
#[derive(Clone, Copy)]
pub enum CommitSteps {
    /// So many nodes were written.
    NodesWritten(usize),
    /// The nodes are safe.
    NodesSynced,
    /// The root was written.
    RootWritten,
    /// The root is safe.
    Done,
}

impl CommitSteps {
    ghost use Rattle.wb_tree.specs.declared.image.Image.{Image as ImageValue};
    ghost use Rattle.wb_meta.specs.declared.commit_steps.CommitSteps.TheVariants.{NodesWritten, NodesSynced, Done};

    /// A commit that has done nothing.
    pub fn new() -> CommitSteps
        ensures is { result ≡ NodesWritten 0 }
        ensures begins { (image : ImageValue) (before : List History) → CommitHasCome image before result before }
        ensures left { (nodes : ℕ) → steps_left nodes result ≡ nodes + 3 }
    {
        CommitSteps::NodesWritten(0)
    }

    /// A commit that begins at the root, for an image without nodes, as an opening's is.
    pub fn root_alone() -> CommitSteps
        ensures is { result ≡ NodesSynced }
        ensures begins { (image : ImageValue) (before : List History) → image.nodes.items ≡ []
            → CommitHasCome image before result before }
        ensures left { (nodes : ℕ) → steps_left nodes result ≡ 2 }
    {
        CommitSteps::NodesSynced
    }

    /// Whether no step is left.
    pub fn is_done(&self) -> bool
        ensures done { IsTrue result ↔ self.now ≡ Done }
        ensures left { (nodes : ℕ) → IsFalse result → 1 ≤ steps_left nodes self.now }
    {
        matches!(self, CommitSteps::Done)
    }

    /// The step that comes next; none where no step is left.
    pub fn coming(&self, image: &Image) -> Option<CommitStep>
        ensures { result ≡ coming_step image.now self.now }
    {
        match *self {
            CommitSteps::NodesWritten(count) => match image.nodes.get(count) {
                Some((place, _)) => Some(CommitStep::WriteNode(*place)),
                None => Some(CommitStep::Sync),
            },
            CommitSteps::NodesSynced => Some(CommitStep::WriteRoot(image.root.slot())),
            CommitSteps::RootWritten => Some(CommitStep::Sync),
            CommitSteps::Done => None,
        }
    }

    /// Does the step that comes next; where none is left, nothing. `Io` where the device fails; the sector was then written
    /// or not, or a part of the device synced, the steps are as they were, and none may follow.
    ///
    /// The image is the same at each step.
    pub fn next<D: Disk>(&mut self, disk: &mut D, image: &Image) -> Result<(), Refusal>
        requires { HavePlaces image.now.nodes.items (D.size disk.old) }
        ensures size { D.size disk.new ≡ D.size disk.old }
        ensures after { OnOk result (self.new ≡ steps_after image.now self.old) }
        ensures stays { OnErr result (self.new ≡ self.old) }
        ensures does { D.tells → OnOk result (DoesStep image.now self.old (D.contents disk.old) (D.contents disk.new)) }
        ensures how { D.tells → OnErr result (FailsStepSo (D.falters disk.old) image.now self.old (D.contents disk.old) (D.contents disk.new)) }
        ensures left { OnOk result (IsOneStepLess image.now self.old self.new) }
        ensures come { D.tells → OnOk result (Comes image.now self.old (D.contents disk.old) self.new (D.contents disk.new)) }
        ensures failed { D.tells → OnErr result (FailsWhere image.now self.old (D.contents disk.old) (D.contents disk.new)) }
        ensures fails { D.fails disk.old → IsOk result → self.old ≡ Done }
        ensures refused { IfErr result (λ refusal. refusal ≡ Io Metadata) }
        ensures no_fault { D.tells → OnOk result (D.faults disk.new ≡ D.faults disk.old) }
        ensures cause { D.tells → OnErr result (OneMore (D.faults disk.old) (D.faults disk.new)) }
    {
        match *self {
            CommitSteps::NodesWritten(count) => {
                if count < image.nodes.len() {
                    let (Place(place), node) = image.nodes[count];
                    put_node(disk, u64::from(place), &node)?;
                    *self = CommitSteps::NodesWritten(count + 1);
                } else {
                    sync(disk)?;
                    *self = CommitSteps::NodesSynced;
                }
            }
            CommitSteps::NodesSynced => {
                let Place(slot) = image.root.slot();
                put_root(disk, u64::from(slot), &image.root)?;
                *self = CommitSteps::RootWritten;
            }
            CommitSteps::RootWritten => {
                sync(disk)?;
                *self = CommitSteps::Done;
            }
            CommitSteps::Done => {}
        }
        Ok(())
    }
}

/// Commits an image: all steps of `CommitSteps`. The next image of the tree on the device is then there alone, whatever a
/// crash leaves. `Io` where the device fails; a crash then leaves the old mapping or the image's, as it does at any
/// moment before.
pub fn commit<D: Disk>(disk: &mut D, image: &Image) -> Result<(), Refusal>
    requires { HavePlaces image.now.nodes.items (D.size disk.old) }
    ensures size { D.size disk.new ≡ D.size disk.old }
    ensures tree { D.tells → OnOk result (TreeCommitted image.now (D.contents disk.old) (D.contents disk.new)) }
    ensures tree_or_old { D.tells → OnErr result (TreeOrOld image.now (D.contents disk.old) (D.contents disk.new)) }
    ensures ok { D.tells → OnOk result (WantedCommitted image.now (D.contents disk.old) (D.contents disk.new)) }
    ensures err { D.tells → OnErr result (WantedOrOld image.now (D.contents disk.old) (D.contents disk.new)) }
    ensures refused { IfErr result (λ refusal. refusal ≡ Io Metadata) }
    ensures no_fault { D.tells → OnOk result (D.faults disk.new ≡ D.faults disk.old) }
    ensures cause { D.tells → OnErr result (OneMore (D.faults disk.old) (D.faults disk.new)) }
{
    let mut steps = CommitSteps::new();
    while !steps.is_done() {
        steps.next(disk, image)?;
    }
    Ok(())
}
