//! An opening of a cache, up to the root that says that it is in use:
//!
//! 1. sync the metadata, the cache, the origin;
//! 2. read both slots and each node, a metadata sector a step; where they hold no mapping that can be opened, or there is
//!    no memory for it, answer so;
//! 3. where another version is asked for than theirs, write the nodes of the whole mapping anew, and sync the metadata;
//! 4. write a root of the next generation, without the clean flag, and sync the metadata; answer done.
//!
//! After a fault: answer `Io`. There are no words yet, and no desk.

ghost use Rattle.std.specs.Prelude.{◌≡◌, ◌≤◌, ◌-◌, []};
ghost use Rattle.wb_tasks.specs.Tables.{Opening};
ghost use Rattle.wb_tasks.specs.Plan.{Plan, table};

use std::marker::Model;
use wb_tasks::{Answer, DeviceStep, Got, Steps, Want};
use wb_types::{Dev, Refusal};

/// Where an opening stands.
#[derive(Clone, Copy)]
enum Phase {
    SyncsMetadata,
    SyncsCache,
    SyncsOrigin,
    /// Reads a metadata sector; at most so many more follow.
    Reads(u32),
    /// Writes the nodes that are left, from this one on, and then syncs the metadata.
    WritesNodes { node: u32, left: u32 },
    WritesRoot,
    SyncsRoot,
    Ended(Answer),
}

/// An opening.
#[derive(Drop)]
pub struct OpenTask {
    phase: Phase,
    /// How many metadata sectors follow the first at most.
    more: u32,
}

impl Model for OpenTask {
    ghost use Rattle.wb_tasks.specs.Plan.{Plan};

    ghost Value = { Plan };

    ghost use Rattle.wb_flow.specs.Phases.{opening_left, IsOpeningInRange};

    ghost view = { λ t. opening_left t.more t.phase };

    ghost invariant = { λ t. IsOpeningInRange t.phase };
}

impl OpenTask {
    /// An opening over so many metadata sectors; it reads none of them twice.
    pub fn new(metadata_sectors: u32) -> OpenTask
        requires { 1 ≤ metadata_sectors }
        ensures { result ≡ table (Opening (metadata_sectors - 1)) }
    {
        OpenTask::reading(metadata_sectors - 1)
    }

    /// An opening that reads at most so many metadata sectors behind the first.
    pub fn reading(more: u32) -> OpenTask
        ensures { result ≡ table (Opening more) }
    {
        OpenTask {
            phase: Phase::SyncsMetadata,
            more,
        }
    }
}

impl Steps for OpenTask {
    ghost left = { λ t. t };

    fn want(&self) -> Want {
        match self.phase {
            Phase::WritesNodes { node, left } if left > 0 => {
                Want::Device(DeviceStep::WriteNode(node))
            }
            Phase::SyncsMetadata | Phase::WritesNodes { .. } | Phase::SyncsRoot => {
                Want::Device(DeviceStep::Sync(Dev::Metadata))
            }
            Phase::SyncsCache => Want::Device(DeviceStep::Sync(Dev::Cache)),
            Phase::SyncsOrigin => Want::Device(DeviceStep::Sync(Dev::Origin)),
            Phase::Reads(left) => Want::Device(DeviceStep::ReadMetadata(left)),
            Phase::WritesRoot => Want::Device(DeviceStep::WriteRoot),
            Phase::Ended(answer) => Want::End(answer),
        }
    }

    fn after_look(&mut self, _word: u64) {
        // None of its steps looks at a word.
        self.phase = Phase::Ended(Answer::Refused(Refusal::Busy));
    }

    fn after_done(&mut self) {
        match self.phase {
            Phase::SyncsMetadata => self.phase = Phase::SyncsCache,
            Phase::SyncsCache => self.phase = Phase::SyncsOrigin,
            Phase::SyncsOrigin => self.phase = Phase::Reads(self.more),
            Phase::WritesNodes { node, left } if left > 0 => {
                self.phase = Phase::WritesNodes {
                    node: node + 1,
                    left: left - 1,
                };
            }
            Phase::Reads(_) | Phase::WritesNodes { .. } => self.phase = Phase::WritesRoot,
            Phase::WritesRoot => self.phase = Phase::SyncsRoot,
            Phase::SyncsRoot => self.phase = Phase::Ended(Answer::Done),
            Phase::Ended(_) => {}
        }
    }

    #[tactic(auto, using(crate::proofs::Opening::node_fails))]
    fn after_fault(&mut self) {
        let device = match self.phase {
            Phase::SyncsCache => Dev::Cache,
            Phase::SyncsOrigin => Dev::Origin,
            _ => Dev::Metadata,
        };
        self.phase = Phase::Ended(Answer::Refused(Refusal::Io(device)));
    }

    fn after_refusal(&mut self, refusal: Refusal) {
        self.phase = Phase::Ended(Answer::Refused(refusal));
    }

    fn after_rare(&mut self, got: Got) {
        // It reads: there is more to read, or an image to write.
        if let Phase::Reads(left) = self.phase {
            self.phase = match got {
                Got::Began(nodes) => Phase::WritesNodes {
                    node: 0,
                    left: nodes,
                },
                _ => Phase::Reads(left - 1),
            };
        }
    }
}
