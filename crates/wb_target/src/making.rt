//! Where a target is opened: an opening of its devices that makes the target of what was read before it writes the root.

ghost use Rattle.std.specs.Prelude.{◌≡◌, ℕ, None, Some, Ok, List, OnOk, IfOk, IfErr};
ghost use Rattle.wb_tasks.specs.Tables.{Opening as OpeningJob};
ghost use Rattle.wb_tasks.specs.Plan.{table};
ghost use Rattle.wb_tasks.specs.Run.{IsRunOf, Leads};
ghost use Rattle.wb_tasks.specs.declared.step.Want.{Want as WantTerm};
ghost use Rattle.wb_tasks.specs.declared.step.Got.{Got as GotTerm};
ghost use Rattle.wb_devices.specs.Openings.{MayGoOn, HasNotBegun};
ghost use Rattle.wb_target.specs.Making.{IsReadyToMake, IsMadeOfRead, MakingGoesOn, WasNotMade, is_due, writes_metadata};
ghost use Rattle.wb_target.specs.Offices.{OfficeState as OfficeTerm};
ghost use Rattle.wb_target.specs.NotOpened.{IsToldOf};
ghost use Rattle.std.specs.Bool.{OnTrue, OnFalse};

use crate::office::Office;
use crate::opening::office_over;
use crate::target::Target;
use std::alloc::Global;
use wb_devices::{Devices, OpeningStage};
use wb_disk::Disk;
use wb_format::Root;
use wb_meta::{ReadSteps, State};
use wb_policy::Policy;
use wb_tasks::{Answer, DeviceStep, Got, Stage, Task, Want, drive};
use wb_types::{Geometry, Key, Mode, Refusal};

/// The stage of an opening of a target, whose geometry is that of the root that comes next over what was read, or was converted. What can be
/// refused for want of memory, or for a key's value, is refused before the first node or root is written: then the devices are as they were,
/// but synced.
#[derive(Drop)]
pub(crate) struct MakingStage<'k, D, P: Policy> {
    pub(crate) stage: OpeningStage<D>,
    alloc: Global,
    keys: &'k [(Key, u64)],
    /// What lies under the target's lock, once it was to be made.
    made: Option<Result<Office<P>, Refusal>>,
}

impl<'k, D: Disk + Drop, P: Policy> MakingStage<'k, D, P> {
    /// A stage over devices of which nothing was read.
    pub(crate) fn new(
        alloc: Global,
        devices: Devices<D>,
        geometry: Geometry,
        mode: Mode,
        keys: &'k [(Key, u64)],
    ) -> MakingStage<'k, D, P>
        ensures goes_on { MayGoOn (D.size result.stage.devices.metadata) result.stage.opening }
        ensures devices { result.stage.devices ≡ devices }
        ensures geometry { result.stage.opening.geometry ≡ geometry }
        ensures begins { HasNotBegun result.stage.opening }
        ensures mode { result.stage.mode ≡ mode }
        ensures keys { result.keys ≡ keys.entry }
        ensures made { result.made ≡ None }
    {
        let stage = OpeningStage::new(alloc, devices, geometry, mode);
        MakingStage {
            stage,
            alloc,
            keys,
            made: None,
        }
    }

    /// Performs an opening that has not begun, up to its answer. Answered done, the target was made.
    pub(crate) fn run<T: Task>(&mut self, task: &mut T) -> Answer
        requires begun { (left : ℕ) × (T.plan task.old ≡ table (OpeningJob left)) }
        requires goes_on { MayGoOn (D.size self.old.stage.devices.metadata) self.old.stage.opening }
        requires none_made { self.old.made ≡ None }
        ensures made { result ≡ Answer.Done → (office : OfficeTerm P) × (self.new.made ≡ Some (Ok office)) }
        ensures run { (steps : List (WantTerm × GotTerm)) × IsRunOf (T.plan task.old) steps result × Leads (MakingGoesOn D.tells D.size D.contents D.faults P.begun P.with_setting) self.old steps self.new }
    {
        drive(task, self)
    }

    /// The devices, and the target over devices of these sizes, or why there is none: why it could not be made, else why the opening was refused.
    pub(crate) fn finish(
        self,
        sizes: Geometry,
        answer: Answer,
    ) -> (Devices<D>, Result<Target<P>, Refusal>)
        requires made { answer ≡ Answer.Done → (office : OfficeTerm P) × (self.made ≡ Some (Ok office)) }
        ensures devices { result.0 ≡ self.entry.stage.devices }
        ensures done { OnOk result.1 (answer ≡ Answer.Done) }
        ensures mode { IfOk result.1 (λ target. target.mode ≡ self.entry.stage.mode) }
        ensures sizes { IfOk result.1 (λ target. target.sizes ≡ sizes) }
        ensures refused { IfErr result.1 (IsToldOf self.entry.made answer) }
    {
        let MakingStage {
            stage,
            alloc,
            keys: _,
            made,
        } = self;
        let mode = stage.mode;
        let (devices, _) = stage.finish();
        let opened = match made {
            Some(Err(refusal)) => Err(refusal),
            Some(Ok(office)) => match answer {
                Answer::Done => Ok(Target::new(alloc, mode, sizes, office)),
                Answer::Refused(refusal) => Err(refusal),
            },
            None => match answer {
                Answer::Done => unreachable!(),
                Answer::Refused(refusal) => Err(refusal),
            },
        };
        (devices, opened)
    }

    /// Whether the target is to be made before this step, which is the first that writes.
    fn is_due(&self, want: &Want) -> bool
        ensures { result ≡ is_due self.now.made want.now }
    {
        writes_metadata(want) && self.made.is_none()
    }

    /// Makes the target of what was read, or was converted, by the root that comes next, and says whether it is there; else why not is kept.
    fn make(&mut self) -> bool
        requires { MayGoOn (D.size self.old.stage.devices.metadata) self.old.stage.opening }
        ensures devices { self.new.stage.devices ≡ self.old.stage.devices }
        ensures commit { self.new.stage.opening.commit ≡ self.old.stage.opening.commit }
        ensures geometry { self.new.stage.opening.geometry ≡ self.old.stage.opening.geometry }
        ensures goes_on { MayGoOn (D.size self.new.stage.devices.metadata) self.new.stage.opening }
        ensures made { OnTrue result ((office : OfficeTerm P) × (self.new.made ≡ Some (Ok office)) × IsMadeOfRead P.begun P.with_setting self.old office) }
        ensures not_made { OnFalse result (WasNotMade P.with_setting self.old.keys.now self.old.stage.opening self.old.made self.new.made) }
        ensures mode { self.new.stage.mode ≡ self.old.stage.mode }
        ensures keys { self.new.keys ≡ self.old.keys }
    {
        let Some(commit) = &self.stage.opening.commit else {
            return false;
        };
        let generation = commit.image().root.generation;
        let Some(ReadSteps::Done(state)) = self.stage.opening.reading.take() else {
            return false;
        };
        let was_clean = state.root.clean;
        let root = Root {
            generation,
            version: state.root.version,
            clean: false,
            geometry: state.root.geometry,
            top: state.root.top,
            top_dirty: None,
        };
        let state = State {
            root,
            tree: state.tree,
            dirty: state.dirty,
            used: state.used,
            nodes: state.nodes,
        };
        let made = office_over(self.alloc, state, was_clean, self.stage.mode, self.keys);
        let is_made = made.is_ok();
        self.made = Some(made);
        is_made
    }
}

impl<'k, D: Disk + Drop, P: Policy> Stage for MakingStage<'k, D, P> {
    ghost ready = { IsReadyToMake D.size };

    ghost led = { MakingGoesOn D.tells D.size D.contents D.faults P.begun P.with_setting };

    fn perform(&mut self, want: &Want) -> Got {
        if self.is_due(want) {
            if !self.make() {
                return Got::Fault;
            }
        }
        self.stage.perform(want)
    }
}

/// Whether a step writes a node or the root.
fn writes_metadata(want: &Want) -> bool
    ensures { result ≡ writes_metadata want.now }
{
    matches!(
        want,
        Want::Device(DeviceStep::WriteNode(_) | DeviceStep::WriteRoot)
    )
}
