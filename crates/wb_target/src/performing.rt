//! The steps of a migration or a flush.

ghost use Rattle.std.specs.Prelude.{◌≡◌, [], None};
ghost use Rattle.std.specs.Bool.{OnFalse};
ghost use Rattle.wb_tasks.specs.Plan.{Fits, device_of};
ghost use Rattle.wb_tasks.specs.declared.step.Want.TheVariants.{Desk as AskDesk, Device as OnDevice};
ghost use Rattle.wb_devices.specs.Moving.{IsOutcome, OthersStay, device_in};
ghost use Rattle.wb_devices.specs.Stepping.{CommitGoes, DidStep, BufferStays};
ghost use Rattle.wb_stage.specs.Sharing.{MayAskNow};
ghost use Rattle.wb_stage.specs.Stages.{IsServed};
ghost use Rattle.wb_tasks.specs.declared.step.DeskStep.TheVariants.{Unmap as Unmapping};
ghost use Rattle.wb_target.specs.Told.{WasGivenUp};
ghost use Rattle.wb_target.specs.Works.{AskedSharing, IsReadyToWork, MayWork, WritesUnderCommit, DidAskDesk, WasAsked, WorkLed};

use crate::gate::{Gate, Point};
use crate::target::Target;
use crate::working::WorkStage;
use std::sync::Wait;
use wb_desk::Desk;
use wb_devices::RunningCommit;
use wb_disk::Disk;
use wb_policy::{Order, Policy};
use wb_stage::{Share, asking};
use wb_tasks::{DeskStep, DeviceStep, Got, Stage, Want};
use wb_types::OBlock;

impl<P: Policy> Target<P> {
    /// Performs a step on the desk under its lock, for a client that runs this commit, if any, has this of the commits that others lead, and
    /// has taken these orders. Who has to wait waits first, without the lock, until a commit ends or one is broken, at which all are woken.
    fn ask<R: Wait>(
        &self,
        rt: &R,
        commit: &mut Option<RunningCommit>,
        share: &mut Share,
        held: &[Order],
        step: DeskStep,
    ) -> Got
        requires { IsServed (AskDesk step) }
        ensures kind { Fits (AskDesk step) result }
        ensures commit { DidAskDesk step result commit.old commit.new }
        ensures asked { AskedSharing P.with_entry P.without_entry held.now share.old share.new step result commit.old commit.new }
    {
        let mut office = self.office.lock(rt);
        for _ in rt.forever() {
            if !has_to_wait(&office.desk, share, step) {
                let got = office.ask(self.alloc, commit, share, held, step);
                if matches!(step, DeskStep::EndCommit | DeskStep::BreakCommit) {
                    self.bell.notify_all();
                }
                return got;
            }
            office = self.bell.wait(rt, office);
        }
        unreachable!()
    }

    /// Takes a block out of the mapping, where it has an entry.
    pub(crate) fn unmap<R: Wait>(&self, rt: &R, block: OBlock)
        ensures { WasAsked P.with_entry P.without_entry [] (Unmapping block) Got.Done None None }
    {
        self.office.lock(rt).unmap(block);
    }

    /// Gives up the order of a block, which is one of these.
    pub(crate) fn release<R: Wait>(&self, rt: &R, held: &[Order], block: OBlock)
        ensures { WasGivenUp P held.now block }
    {
        self.office.lock(rt).release(held, block);
    }
}

/// Whether who asks for this step with this has to wait.
fn has_to_wait<P: Policy>(desk: &Desk<P>, share: &Share, step: DeskStep) -> bool
    ensures goes_on { OnFalse result (MayAskNow desk.now share.now step) }
{
    match step {
        DeskStep::Ask(_) => asking::must_wait(desk, share),
        _ => false,
    }
}

impl<'a, R: Wait, D: Disk, P: Policy, G: Gate> WorkStage<'a, R, D, P, G> {
    /// A step on a device.
    #[tactic(auto, using(crate::proofs::Asking::may_perform))]
    fn device_step(&mut self, step: DeviceStep) -> Got
        requires may { MayWork self.old.hand.now.block_sectors self.old.held.now self.old.hand.now.pass.card (OnDevice step) }
        requires commits { WritesUnderCommit D.tells D.contents self.old.hand.now.devices self.old.commit.now (OnDevice step) }
        ensures kind { IsOutcome result }
        ensures cells { self.new.cells ≡ self.old.cells }
        ensures held { self.new.held ≡ self.old.held }
        ensures gate { self.new.gate ≡ self.old.gate }
        ensures same_hand { self.new.hand.ghost_name ≡ self.old.hand.ghost_name }
        ensures same_commit { self.new.commit.ghost_name ≡ self.old.commit.ghost_name }
        ensures same_share { self.new.share.ghost_name ≡ self.old.share.ghost_name }
        ensures same_buffer { self.new.buffer.ghost_name ≡ self.old.buffer.ghost_name }
        ensures share { self.new.share.now ≡ self.old.share.now }
        ensures pass { self.new.hand.now.pass ≡ self.old.hand.now.pass }
        ensures block { self.new.hand.now.block_sectors ≡ self.old.hand.now.block_sectors }
        ensures mode { self.new.hand.now.mode ≡ self.old.hand.now.mode }
        ensures others { OthersStay (device_of step) self.old.hand.now.devices self.new.hand.now.devices }
        ensures size { D.size (device_in (device_of step) self.new.hand.now.devices) ≡ D.size (device_in (device_of step) self.old.hand.now.devices) }
        ensures buffer { BufferStays step self.old.buffer.now self.new.buffer.now }
        ensures did { D.tells → DidStep self.old.commit.now step result (D.size (device_in (device_of step) self.old.hand.now.devices)) (D.contents (device_in (device_of step) self.old.hand.now.devices)) (D.faults (device_in (device_of step) self.old.hand.now.devices)) self.old.buffer.now self.new.buffer.now (D.contents (device_in (device_of step) self.new.hand.now.devices)) (D.faults (device_in (device_of step) self.new.hand.now.devices)) }
        ensures goes { CommitGoes (D.size self.old.hand.now.devices.metadata) self.old.commit.now step result self.new.commit.now }
    {
        self.hand.perform(step, self.commit, self.buffer)
    }

    /// A step on the desk, under the lock.
    fn desk_step(&mut self, step: DeskStep) -> Got
        requires { IsServed (AskDesk step) }
        ensures kind { Fits (AskDesk step) result }
        ensures cells { self.new.cells ≡ self.old.cells }
        ensures held { self.new.held ≡ self.old.held }
        ensures gate { self.new.gate ≡ self.old.gate }
        ensures same_hand { self.new.hand.ghost_name ≡ self.old.hand.ghost_name }
        ensures hand { self.new.hand.now ≡ self.old.hand.now }
        ensures same_commit { self.new.commit.ghost_name ≡ self.old.commit.ghost_name }
        ensures same_share { self.new.share.ghost_name ≡ self.old.share.ghost_name }
        ensures same_buffer { self.new.buffer.ghost_name ≡ self.old.buffer.ghost_name }
        ensures buffer { self.new.buffer.now ≡ self.old.buffer.now }
        ensures commit { DidAskDesk step result self.old.commit.now self.new.commit.now }
        ensures asked { AskedSharing P.with_entry P.without_entry self.old.held.now self.old.share.now self.new.share.now step result self.old.commit.now self.new.commit.now }
    {
        self.target
            .ask(self.rt, self.commit, self.share, self.held, step)
    }
}

impl<'a, R: Wait, D: Disk, P: Policy, G: Gate> Stage for WorkStage<'a, R, D, P, G> {
    ghost ready = { IsReadyToWork D.tells D.contents };

    ghost led = { WorkLed D.tells D.size D.contents D.faults (AskedSharing P.with_entry P.without_entry) G.answers };

    #[tactic(auto, using(wb_devices::proofs::Going::outcome_fits))]
    fn perform(&mut self, want: &Want) -> Got {
        match want {
            Want::Cell(step) => Got::from(self.hand.step(self.cells, *step)),
            Want::Device(step) => {
                self.gate.go_on(Point::Device);
                self.device_step(*step)
            }
            Want::Desk(step) => self.desk_step(*step),
            Want::End(_) => unreachable!(),
        }
    }
}
