//! The steps of openings on their stage.

ghost use Rattle.std.specs.Prelude.{◌≡◌, ℕ, List, Some, IfSome};
ghost use Rattle.wb_meta.specs.Reads.{FitsDevice};
ghost use Rattle.wb_tasks.specs.Tables.{Opening as OpeningJob};
ghost use Rattle.wb_tasks.specs.Plan.{Fits, table, device_of};
ghost use Rattle.wb_tasks.specs.Ready.{IsOpenings};
ghost use Rattle.wb_tasks.specs.Run.{IsRunOf, Leads};
ghost use Rattle.wb_tasks.specs.declared.step.Want.{Want as WantTerm};
ghost use Rattle.wb_tasks.specs.declared.step.Want.TheVariants.{Device as OnDevice};
ghost use Rattle.wb_tasks.specs.declared.step.Got.{Got as GotTerm};
ghost use Rattle.wb_devices.specs.Moving.{OthersStay, device_in};
ghost use Rattle.wb_devices.specs.Openings.{MayGoOn, HasNotBegun};
ghost use Rattle.wb_devices.specs.Outcomes.{IsOpen, OpeningHasEnded, opened_state};
ghost use Rattle.wb_devices.specs.OpeningLed.{IsReadyToOpen, DidForOpening, LedOpening};

use crate::devices::Devices;
use crate::opening_stage::OpeningStage;
use std::alloc::Global;
use wb_disk::Disk;
use wb_meta::State;
use wb_tasks::{Answer, DeviceStep, Got, Stage, Task, Want, drive};

impl<D: Disk> OpeningStage<D> {
    /// A step on a device.
    #[tactic(auto, using(crate::proofs::Going::outcome_fits, crate::proofs::Going::goes_there))]
    fn device_step(&mut self, step: DeviceStep) -> Got
        requires step { IsOpenings (OnDevice step) }
        requires goes_on { MayGoOn (D.size self.old.devices.metadata) self.old.opening }
        ensures kind { Fits (OnDevice step) result }
        ensures others { OthersStay (device_of step) self.old.devices self.new.devices }
        ensures size { D.size (device_in (device_of step) self.new.devices) ≡ D.size (device_in (device_of step) self.old.devices) }
        ensures geometry { self.new.opening.geometry ≡ self.old.opening.geometry }
        ensures goes_on { MayGoOn (D.size self.new.devices.metadata) self.new.opening }
        ensures mode { self.new.mode ≡ self.old.mode }
        ensures did { DidForOpening D.tells self.old.mode self.old.opening step result (D.size (device_in (device_of step) self.old.devices)) (D.contents (device_in (device_of step) self.old.devices)) (D.faults (device_in (device_of step) self.old.devices)) self.new.opening (D.contents (device_in (device_of step) self.new.devices)) (D.faults (device_in (device_of step) self.new.devices)) }
    {
        match step {
            DeviceStep::ReadMetadata(left) => {
                self.opening
                    .read(self.mode, &mut self.devices.metadata, left)
            }
            DeviceStep::Sync(_) | DeviceStep::WriteNode(_) | DeviceStep::WriteRoot => {
                self.devices
                    .perform(&mut self.opening.commit, step, &mut [])
            }
            DeviceStep::Read(_, _) | DeviceStep::Write(_, _) => unreachable!(),
        }
    }
}

impl<D: Disk> Stage for OpeningStage<D> {
    ghost ready = { IsReadyToOpen D.size };

    ghost led = { LedOpening D.tells D.size D.contents D.faults };

    fn perform(&mut self, want: &Want) -> Got {
        match want {
            Want::Device(step) => self.device_step(*step),
            _ => unreachable!(),
        }
    }
}

impl<D: Disk> OpeningStage<D> {
    /// Performs an opening that has not begun, up to its answer: a run of its table, whose steps lead this stage from what it
    /// was to what it is. Answered done, the metadata that are durable were read, and the root that comes next is durable, behind all nodes
    /// of the mapping where they were written anew; cache and origin are durable too. Refused but for a device that failed, all three are
    /// durable and nothing more was written.
    pub fn run<T: Task>(&mut self, task: &mut T) -> Answer
        requires begun { (left : ℕ) × (T.plan task.old ≡ table (OpeningJob left)) }
        requires goes_on { MayGoOn (D.size self.old.devices.metadata) self.old.opening }
        ensures run { (steps : List (WantTerm × GotTerm)) × IsRunOf (T.plan task.old) steps result × Leads (LedOpening D.tells D.size D.contents D.faults) self.old steps self.new }
        ensures goes_on { MayGoOn (D.size self.new.devices.metadata) self.new.opening }
        ensures ended { HasNotBegun self.old.opening → OpeningHasEnded D.tells D.size D.contents self.old result self.new }
    {
        drive(task, self)
    }

    /// The devices, and once an opening is answered done the state of its metadata: what was read, by the root that was written.
    pub fn finish(self) -> (Devices<D>, Option<State<Global>>)
        ensures devices { result.0 ≡ self.devices }
        ensures state { (opened : IsOpen (D.size self.devices.metadata) self.opening) → result.1 ≡ Some (opened_state opened) }
        ensures fits { IsOpen (D.size self.devices.metadata) self.opening → IfSome result.1 (λ state. FitsDevice (D.size result.0.metadata) state.root state.tree state.used.items) }
    {
        let OpeningStage {
            devices,
            opening,
            mode: _,
        } = self;
        (devices, opening.finish())
    }
}
