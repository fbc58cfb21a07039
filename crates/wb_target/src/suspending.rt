//! Where a target is suspended: on the desk and the words under its lock, which is held to the end, and on devices that are lent.

ghost use Rattle.std.specs.Prelude.{◌≡◌, ◌<◌, ℕ, List, Err, None, false, IfOk, IfErr, OnOk, length, replicate};
ghost use Rattle.wb_types.specs.declared.number.OBlock.{OBlock as OBlockValue};
ghost use Rattle.wb_tasks.specs.Tables.{Suspending};
ghost use Rattle.wb_tasks.specs.Plan.{table, Fits};
ghost use Rattle.wb_tasks.specs.Ready.{AreBelow, IsSuspends};
ghost use Rattle.wb_tasks.specs.declared.step.Want.TheVariants.{Cell as OnWord, Device as OnDevice, Desk as AskDesk};
ghost use Rattle.wb_tasks.specs.declared.step.DeskStep.TheVariants.{BeginCommit, EndCommit};
ghost use Rattle.wb_words.specs.Ready.{IsReady};
ghost use Rattle.wb_port.specs.Kinds.{LeavesHolds};
ghost use Rattle.wb_port.specs.Hands.{DoneByPass};
ghost use Rattle.wb_stage.specs.Seen.{seen_after};
ghost use Rattle.wb_stage.specs.Stages.{DidBeginWith};
ghost use Rattle.wb_target.specs.Works.{WorksOn};
ghost use Rattle.wb_target.specs.Suspends.{AskedWith, DeskGoes, IsReadyToSuspend, SuspendLed, RanSuspend, WasSuspended, SuspendRefused, mapped_blocks};
ghost use Rattle.wb_target.specs.declared.target.TheConstants.{CLIENTS as MostClients};

use crate::office::{Office, see_desk};
use crate::target::CLIENTS;
use std::alloc::{AllocError, Global};
use wb_desk::Desk;
use wb_devices::{Devices, RunningCommit};
use wb_disk::Disk;
use wb_flow::CommitTask;
use wb_policy::Policy;
use wb_port::Seat;
use wb_stage::{Share, asking, seen};
use wb_tasks::{Answer, CellResult, CellStep, DeskStep, DeviceStep, Got, Stage, Task, Want, drive};
use wb_types::{CBlock, Content, OBlock, Refusal};
use wb_words::Word;

/// The stage of a suspend.
#[derive(Drop)]
pub(crate) struct SuspendStage<'a, D, P: Policy> {
    pub(crate) alloc: Global,
    pub(crate) desk: &'a mut Desk<P>,
    /// By which it steps on the words.
    pub(crate) watch: &'a mut Seat,
    pub(crate) devices: &'a mut Devices<D>,
    /// No step of a suspend moves an extent.
    pub(crate) buffer: &'a mut [Content],
    pub(crate) commit: &'a mut Option<RunningCommit>,
    /// For each cache block whether its copy was seen dirty.
    pub(crate) seen: &'a mut [bool],
}

impl<'a, D: Disk, P: Policy> SuspendStage<'a, D, P> {
    /// Performs a suspend that has not begun, up to its answer.
    pub(crate) fn run<T: Task>(&mut self, task: &mut T) -> Answer
        requires begun { (all : List OBlockValue) × (most : ℕ) × (T.plan task.old ≡ table (Suspending all most)) × AreBelow self.old.watch.now.geometry.origin_blocks all }
        requires bits { length self.old.seen.now ≡ self.old.desk.now.geometry.cache_blocks }
        requires unbegun { self.old.commit.now ≡ None }
        ensures same_watch { self.new.watch.ghost_name ≡ self.old.watch.ghost_name }
        ensures same_desk { self.new.desk.ghost_name ≡ self.old.desk.ghost_name }
        ensures same_devices { self.new.devices.ghost_name ≡ self.old.devices.ghost_name }
        ensures words { self.new.watch.now.geometry ≡ self.old.watch.now.geometry }
        ensures cache { self.new.desk.now.geometry ≡ self.old.desk.now.geometry }
        ensures ran { RanSuspend self.old.watch.now.pass self.old.desk.now D.tells D.size D.contents D.faults P.hint_of P.with_entry P.without_entry self.old.watch.now.geometry.origin_blocks (T.plan task.old) self.old.seen.now self.old.devices.now result self.new.devices.now }
    {
        drive(task, self)
    }

    /// A step on the words: what it shows of a seal is noted.
    fn word_step(&mut self, step: CellStep) -> Got
        requires free { LeavesHolds step }
        requires ready { IsReady self.old.watch.now.geometry.origin_blocks self.old.watch.now.pass.card step }
        ensures same_watch { self.new.watch.ghost_name ≡ self.old.watch.ghost_name }
        ensures same_desk { self.new.desk.ghost_name ≡ self.old.desk.ghost_name }
        ensures same_devices { self.new.devices.ghost_name ≡ self.old.devices.ghost_name }
        ensures kind { Fits (OnWord step) result }
        ensures pass { DoneByPass self.old.watch.now.geometry.origin_blocks self.old.watch.now.pass (OnWord step) result self.new.watch.now.pass }
        ensures words { self.new.watch.now.geometry ≡ self.old.watch.now.geometry }
        ensures desk { self.new.desk.now ≡ self.old.desk.now }
        ensures devices { self.new.devices.now ≡ self.old.devices.now }
        ensures buffer { self.new.buffer.now ≡ self.old.buffer.now }
        ensures commit { self.new.commit.now ≡ self.old.commit.now }
        ensures seen { self.new.seen.now ≡ seen_after (OnWord step) result self.old.seen.now }
    {
        let got = Got::from(self.watch.step(step));
        note(self.seen, step, got);
        got
    }

    /// A step on a device.
    #[tactic(auto, using(wb_devices::proofs::Going::outcome_fits))]
    fn device_step(&mut self, step: DeviceStep) -> Got
        ensures same_watch { self.new.watch.ghost_name ≡ self.old.watch.ghost_name }
        ensures same_desk { self.new.desk.ghost_name ≡ self.old.desk.ghost_name }
        ensures same_devices { self.new.devices.ghost_name ≡ self.old.devices.ghost_name }
        ensures kind { Fits (OnDevice step) result }
        ensures watch { self.new.watch.now ≡ self.old.watch.now }
        ensures desk { self.new.desk.now ≡ self.old.desk.now }
        ensures seen { self.new.seen.now ≡ self.old.seen.now }
        ensures works { WorksOn D.tells D.size D.contents D.faults (AskedWith P.hint_of P.with_entry P.without_entry self.old.seen.now) self.old.devices.now self.old.buffer.now self.old.commit.now (OnDevice step) result self.new.devices.now self.new.buffer.now self.new.commit.now }
    {
        self.devices.perform(self.commit, step, self.buffer)
    }

    /// A step on the desk.
    fn desk_step(&mut self, step: DeskStep) -> Got
        requires step { (all : List OBlockValue) × (most : ℕ) × IsSuspends all most (AskDesk step) }
        requires bits { length self.old.seen.now ≡ self.old.desk.now.geometry.cache_blocks }
        ensures same_watch { self.new.watch.ghost_name ≡ self.old.watch.ghost_name }
        ensures same_desk { self.new.desk.ghost_name ≡ self.old.desk.ghost_name }
        ensures same_devices { self.new.devices.ghost_name ≡ self.old.devices.ghost_name }
        ensures kind { Fits (AskDesk step) result }
        ensures watch { self.new.watch.now ≡ self.old.watch.now }
        ensures cache { self.new.desk.now.geometry ≡ self.old.desk.now.geometry }
        ensures devices { self.new.devices.now ≡ self.old.devices.now }
        ensures buffer { self.new.buffer.now ≡ self.old.buffer.now }
        ensures seen { self.new.seen.now ≡ self.old.seen.now }
        ensures works { WorksOn D.tells D.size D.contents D.faults (AskedWith P.hint_of P.with_entry P.without_entry self.old.seen.now) self.old.devices.now self.old.buffer.now self.old.commit.now (AskDesk step) result self.new.devices.now self.new.buffer.now self.new.commit.now }
        ensures goes { DeskGoes P.hint_of P.with_entry P.without_entry self.old.seen.now (AskDesk step) result self.old.desk.now self.old.commit.now self.new.desk.now self.new.commit.now }
    {
        match step {
            DeskStep::BeginCommit(most) => {
                begin(self.alloc, self.desk, self.commit, self.seen, most)
            }
            DeskStep::EndCommit | DeskStep::BreakCommit => asking::ask(
                self.alloc,
                self.desk,
                self.commit,
                &mut Share::Nothing,
                &[],
                step,
            ),
            _ => unreachable!(),
        }
    }
}

impl<'a, D: Disk, P: Policy> Stage for SuspendStage<'a, D, P> {
    ghost ready = { IsReadyToSuspend };

    ghost led = { SuspendLed D.tells D.size D.contents D.faults P.hint_of P.with_entry P.without_entry };

    fn perform(&mut self, want: &Want) -> Got {
        match want {
            Want::Cell(step) => self.word_step(*step),
            Want::Device(step) => self.device_step(*step),
            Want::Desk(step) => self.desk_step(*step),
            Want::End(_) => unreachable!(),
        }
    }
}

/// A clean commit begins, with these dirty bits.
fn begin<P: Policy>(
    alloc: Global,
    desk: &mut Desk<P>,
    commit: &mut Option<RunningCommit>,
    seen: &mut [bool],
    most: u32,
) -> Got
    requires bits { length seen.old ≡ desk.old.geometry.cache_blocks }
    ensures kind { Fits (AskDesk (BeginCommit most)) result }
    ensures cache { desk.new.geometry ≡ desk.old.geometry }
    ensures seen { seen.new ≡ seen.old }
    ensures did { DidBeginWith P.hint_of seen.old most result desk.old commit.old desk.new commit.new }
{
    asking::begin_commit(alloc, desk, commit, seen, most)
}

/// Notes what a step on a word showed of a seal.
fn note(bits: &mut [bool], step: CellStep, got: Got)
    ensures { bits.new ≡ seen_after (OnWord step) got bits.old }
{
    match (step, got) {
        (CellStep::Look(Word::Seal(_)), Got::Word(seal)) => seen::note(bits, seal),
        _ => {}
    }
}

impl<P: Policy> Office<P> {
    /// Suspends what lies here, over these devices, once each seat is back: `Busy` where a client has one.
    pub(crate) fn suspend<D: Disk + Drop>(
        &mut self,
        alloc: Global,
        devices: Devices<D>,
    ) -> (Devices<D>, Result<(), Refusal>)
        ensures suspended { OnOk result.1 (WasSuspended self.old.watch.pass self.old.desk D.tells D.size D.contents D.faults P.hint_of P.with_entry P.without_entry devices Answer.Done result.0) }
        ensures clients { length self.old.seats < MostClients → (result.1 ≡ Err Refusal.Busy) × (result.0 ≡ devices) }
        ensures refused { IfErr result.1 (λ refusal. SuspendRefused self.old.watch.pass self.old.desk (length self.old.seats < MostClients) D.tells D.size D.contents D.faults P.hint_of P.with_entry P.without_entry devices refusal result.0) }
    {
        if self.seats.spare() < CLIENTS {
            return (devices, Err(Refusal::Busy));
        }
        see_desk(&self.desk);
        let Ok(blocks) = self.mapped_blocks(alloc) else {
            return (devices, Err(Refusal::Memory));
        };
        let geometry = self.desk.geometry();
        let Ok(mut bits) = no_bits(alloc, geometry.cache_blocks) else {
            return (devices, Err(Refusal::Memory));
        };
        let mut task = CommitTask::suspend(blocks, geometry.most_nodes(true));
        let mut devices = devices;
        let mut commit = None;
        let answer = run_suspend(
            alloc,
            &mut self.desk,
            &mut self.seats.watch,
            &mut devices,
            &mut [],
            &mut commit,
            bits.as_mut_slice(),
            &mut task,
        );
        match answer {
            Answer::Done => (devices, Ok(())),
            Answer::Refused(refusal) => (devices, Err(refusal)),
        }
    }

    /// The blocks that are mapped, by rising cache block.
    fn mapped_blocks(&self, alloc: Global) -> Result<Vec<OBlock>, AllocError>
        ensures blocks { IfOk result (λ blocks. blocks.items ≡ mapped_blocks self.now.desk.tree self.now.desk.geometry.cache_blocks) }
    {
        let mut blocks = Vec::new(alloc);
        for c in 0..self.desk.geometry().cache_blocks {
            if let Some(entry) = self.desk.entry(CBlock(c)) {
                blocks.push(entry.origin)?;
            }
        }
        Ok(blocks)
    }
}

/// Performs a suspend that has not begun, on this desk, by this seat and over these devices, with these bits.
fn run_suspend<'a, D: Disk, P: Policy, T: Task>(
    alloc: Global,
    desk: &'a mut Desk<P>,
    watch: &'a mut Seat,
    devices: &'a mut Devices<D>,
    buffer: &'a mut [Content],
    commit: &'a mut Option<RunningCommit>,
    bits: &'a mut [bool],
    task: &mut T,
) -> Answer
    requires begun { (all : List OBlockValue) × (most : ℕ) × (T.plan task.old ≡ table (Suspending all most)) × AreBelow watch.old.geometry.origin_blocks all }
    requires bits { length bits.old ≡ desk.old.geometry.cache_blocks }
    requires unbegun { commit.old ≡ None }
    ensures ran { RanSuspend watch.old.pass desk.old D.tells D.size D.contents D.faults P.hint_of P.with_entry P.without_entry watch.old.geometry.origin_blocks (T.plan task.old) bits.old devices.old result devices.new }
    ensures geometry { (watch.new.geometry ≡ watch.old.geometry) × (desk.new.geometry ≡ desk.old.geometry) }
{
    let mut stage = SuspendStage {
        alloc,
        desk,
        watch,
        devices,
        buffer,
        commit,
        seen: bits,
    };
    stage.run(task)
}

/// For each cache block no bit.
fn no_bits(alloc: Global, cache_blocks: u32) -> Result<Vec<bool>, AllocError>
    ensures { IfOk result (λ bits. bits.items ≡ replicate cache_blocks false) }
{
    Ok(vec![in alloc; false; cache_blocks as usize]?)
}
