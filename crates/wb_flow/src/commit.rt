//! A commit that has begun, step by step:
//!
//! 1. sync the cache, then the origin;
//! 2. write each node of the image, and sync the metadata;
//! 3. write the root, and sync the metadata;
//! 4. end the commit.

ghost use Rattle.std.specs.Prelude.{◌≡◌, ℕ, IfSome};
ghost use Rattle.wb_tasks.specs.Plan.{first_step, later_steps, commit_steps, device_of};
ghost use Rattle.wb_tasks.specs.declared.step.Answer.TheVariants.{Done as Finished};
ghost use Rattle.wb_tasks.specs.declared.step.DeviceStep.{DeviceStep as DeviceStepTerm};
ghost use Rattle.wb_tasks.specs.declared.step.Want.TheVariants.{Device};
ghost use Rattle.wb_flow.specs.Commits.{commit_left, commit_after, IsInRange};

use wb_tasks::{DeskStep, DeviceStep, Got, Want};
use wb_types::Dev;

/// The step that comes next.
#[derive(Clone, Copy)]
pub(crate) enum Stage {
    SyncsCache,
    SyncsOrigin,
    /// Writes the nodes that are left, and then syncs the metadata.
    WritesNodes,
    WritesRoot,
    SyncsRoot,
    EndsCommit,
}

/// A commit that has begun.
#[derive(Clone, Copy)]
pub(crate) struct Commit {
    stage: Stage,
    /// The node that is written next, and how many are left with it.
    node: u32,
    left: u32,
}

impl Commit {
    /// The commit of which this result says that it has begun, before its first step.
    pub(crate) fn begun(got: Got) -> Commit
        ensures steps { (nodes : ℕ) → got ≡ Got.Began nodes → commit_left result ≡ commit_steps nodes }
        ensures in_range { IsInRange result }
    {
        let nodes = if let Got::Began(nodes) = got {
            nodes
        } else {
            0
        };
        Commit {
            stage: Stage::SyncsCache,
            node: 0,
            left: nodes,
        }
    }

    /// Its next step.
    pub(crate) fn want(&self) -> Want
        ensures { result ≡ first_step (commit_left self.now) Finished }
    {
        match self.stage {
            Stage::SyncsCache => Want::Device(DeviceStep::Sync(Dev::Cache)),
            Stage::SyncsOrigin => Want::Device(DeviceStep::Sync(Dev::Origin)),
            Stage::WritesNodes if self.left > 0 => {
                Want::Device(DeviceStep::WriteNode(self.node))
            }
            Stage::WritesNodes | Stage::SyncsRoot => {
                Want::Device(DeviceStep::Sync(Dev::Metadata))
            }
            Stage::WritesRoot => Want::Device(DeviceStep::WriteRoot),
            Stage::EndsCommit => Want::Desk(DeskStep::EndCommit),
        }
    }

    /// It after that step; nothing where it has ended.
    pub(crate) fn advanced(&self) -> Option<Commit>
        requires { IsInRange self.now }
        ensures steps { commit_after result ≡ later_steps (commit_left self.now) }
        ensures in_range { IfSome result IsInRange }
    {
        match self.stage {
            Stage::SyncsCache => Some(self.at(Stage::SyncsOrigin)),
            Stage::SyncsOrigin => Some(self.at(Stage::WritesNodes)),
            Stage::WritesNodes if self.left > 0 => Some(Commit {
                stage: Stage::WritesNodes,
                node: self.node + 1,
                left: self.left - 1,
            }),
            Stage::WritesNodes => Some(self.at(Stage::WritesRoot)),
            Stage::WritesRoot => Some(self.at(Stage::SyncsRoot)),
            Stage::SyncsRoot => Some(self.at(Stage::EndsCommit)),
            Stage::EndsCommit => None,
        }
    }

    /// The device of its next step, where that is on one.
    pub(crate) fn device(&self) -> Dev
        ensures { (step : DeviceStepTerm) → first_step (commit_left self.now) Finished ≡ Device step → device_of step ≡ result }
    {
        match self.stage {
            Stage::SyncsCache => Dev::Cache,
            Stage::SyncsOrigin => Dev::Origin,
            _ => Dev::Metadata,
        }
    }

    /// It with another step next.
    fn at(&self, stage: Stage) -> Commit
        ensures { result ≡ record self.now { stage = stage } }
    {
        Commit {
            stage,
            node: self.node,
            left: self.left,
        }
    }
}
