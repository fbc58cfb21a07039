//! A commit that runs.

ghost use Rattle.std.specs.Prelude.{◌≡◌, ◌<◌, ◌+◌, ◌^◌, true, length, IfOk, IfErr};
ghost use Rattle.wb_types.specs.declared.refusal.Refusal.TheVariants.{GenerationEnd as NoNextGeneration};
ghost use Rattle.wb_meta.specs.Placing.{HavePlaces};
ghost use Rattle.wb_meta.specs.Openings.{IsOpening};
ghost use Rattle.wb_meta.specs.Steps.{coming_step};
ghost use Rattle.wb_meta.specs.declared.commit_steps.CommitSteps.TheVariants.{NodesWritten, NodesSynced};
ghost use Rattle.wb_tasks.specs.declared.step.Got.TheVariants.{Fault};
ghost use Rattle.wb_devices.specs.Moving.{IsOutcome};
ghost use Rattle.wb_devices.specs.Committing.{DidCommit, CommitStepFails, is_coming, goes_on, steps_then, is_committed};

use std::alloc::Global;
use wb_disk::Disk;
use wb_format::Root;
use wb_meta::{CommitStep, CommitSteps, Image, opening_image};
use wb_tasks::{DeviceStep, Got};
use wb_types::{Dev, Refusal};

/// A commit that runs, and how far it has come: its image goes to the metadata device by the steps of `CommitSteps`, one for one.
pub struct RunningCommit {
    image: Image,
    steps: CommitSteps,
    ghost placed: { HavePlaces image.nodes.items image.root.geometry.meta_sectors },
}

impl Drop for RunningCommit {
    fn drop(self) {
        let RunningCommit { image, steps: _ } = self;
        drop(image);
    }
}

impl RunningCommit {
    /// The commit of an image that has done nothing.
    pub fn new(image: Image) -> RunningCommit
        requires { HavePlaces image.nodes.items image.root.geometry.meta_sectors }
        ensures image { result.image ≡ image }
        ensures steps { result.steps ≡ NodesWritten 0 }
    {
        RunningCommit {
            image,
            steps: CommitSteps::new(),
        }
    }

    /// The commit of the root that an opening writes over this one, which begins at the root. `GenerationEnd` where there is no
    /// next generation.
    pub fn opening(global: Global, root: &Root) -> Result<RunningCommit, Refusal>
        ensures image { IfOk result (λ commit. IsOpening commit.image root.now) }
        ensures steps { IfOk result (λ commit. commit.steps ≡ NodesSynced) }
        ensures generation { IfOk result (λ commit. commit.image.root.generation < 2 ^ 64) }
        ensures refused { IfErr result (λ refusal. (refusal ≡ NoNextGeneration) × (root.now.generation + 1 ≡ 2 ^ 64)) }
    {
        let image = opening_image(global, root)?;
        let _two_slots = image.root.geometry.node_count();
        let _spelled = image.root.generation;
        Ok(RunningCommit {
            image,
            steps: CommitSteps::root_alone(),
        })
    }

    /// Whether this step of a table is the commit's next one, over a device of so many sectors.
    pub fn goes_on(&self, sectors: u64, step: DeviceStep) -> bool
        ensures { result ≡ goes_on sectors self.now.image self.now.steps step }
    {
        self.is_coming(step) && sectors == u64::from(self.image.root.geometry.meta_sectors)
    }

    fn is_coming(&self, step: DeviceStep) -> bool
        ensures { result ≡ is_coming self.now.image self.now.steps step }
    {
        match self.steps {
            CommitSteps::NodesWritten(count) => {
                let is_there = self.image.nodes.get(count).is_some();
                match step {
                    DeviceStep::WriteNode(number) => number as usize == count && is_there,
                    DeviceStep::Sync(Dev::Metadata) => !is_there,
                    _ => false,
                }
            }
            CommitSteps::NodesSynced => matches!(step, DeviceStep::WriteRoot),
            CommitSteps::RootWritten => matches!(step, DeviceStep::Sync(Dev::Metadata)),
            CommitSteps::Done => false,
        }
    }

    /// Its image.
    pub fn image(&self) -> &Image
        ensures { result.now ≡ self.now.image }
    {
        &self.image
    }

    /// The step of it that comes next; none where all of it was done.
    pub fn coming(&self) -> Option<CommitStep>
        ensures { result ≡ coming_step self.now.image self.now.steps }
    {
        self.steps.coming(&self.image)
    }

    /// How many nodes its image has.
    pub fn nodes(&self) -> usize
        ensures { result ≡ length self.now.image.nodes.items }
    {
        self.image.nodes.as_slice().len()
    }

    /// Whether all of it was done.
    pub fn is_done(&self) -> bool
        ensures { result ≡ is_committed self.now.steps }
    {
        matches!(self.steps, CommitSteps::Done)
    }

    /// Does the next step, which is this one of a table; a fault where the device failed.
    #[tactic(auto, using(wb_meta::proofs::Failing::step_left))]
    pub fn next<D: Disk>(&mut self, disk: &mut D, step: DeviceStep) -> Got
        requires { goes_on (D.size disk.old) self.old.image self.old.steps step ≡ true }
        ensures kind { IsOutcome result }
        ensures size { D.size disk.new ≡ D.size disk.old }
        ensures image { self.new.image ≡ self.old.image }
        ensures steps { self.new.steps ≡ steps_then result self.old.image self.old.steps }
        ensures did { D.tells → DidCommit self.old.image self.old.steps result (D.contents disk.old) (D.faults disk.old) (D.contents disk.new) (D.faults disk.new) }
        ensures fails { D.fails disk.old → result ≡ Fault }
        ensures how { D.tells → CommitStepFails (D.falters disk.old) self.old.image self.old.steps result (D.contents disk.old) (D.contents disk.new) }
    {
        let _ = step;
        match self.steps.next(disk, &self.image) {
            Ok(()) => Got::Done,
            Err(_) => Got::Fault,
        }
    }
}
