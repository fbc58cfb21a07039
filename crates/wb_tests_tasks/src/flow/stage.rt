//! A stage without devices.

ghost use Rattle.wb_tasks.specs.Plan.{Fits};
ghost use Rattle.wb_tasks.specs.declared.step.Want.TheVariants.{Cell, Desk, Device};
ghost use Rattle.wb_tasks.specs.declared.step.DeviceStep.TheVariants.{ReadMetadata};
ghost use Rattle.wb_tasks.specs.declared.step.DeskStep.TheVariants.{Arrive, Ask, BeginCommit};

use super::rows::{Meets, Row};
use std::alloc::Global;
use wb_tasks::{CellStep, DeskStep, DeviceStep, Got, Stage, Want};
use wb_types::Refusal;

#[derive(Clone, Copy)]
pub enum Task {
    Flush,
    Suspend,
    Open,
}

/// Notes which steps were wanted, and gives each what a row says.
#[derive(Drop)]
pub struct Noted {
    pub wants: Vec<Want>,
    pub fail: u64,
    /// How many steps on a device there were, and the one that fails.
    pub moved: u32,
    fails: Option<u32>,
    /// The image's nodes, or those that an opening reads.
    nodes: u32,
    /// The nodes that an opening writes anew.
    converts: Option<u32>,
    /// What the desk, or what was read, refuses.
    refuses: Option<Refusal>,
    meets: Meets,
}

impl Noted {
    pub fn new(alloc: Global, row: &Row) -> Result<Noted, Refusal> {
        Ok(Noted {
            wants: Vec::with_capacity(alloc, 32)?,
            fail: row.fail,
            moved: 0,
            fails: row.fails,
            nodes: row.nodes,
            converts: row.converts,
            refuses: row.refuses,
            meets: row.meets,
        })
    }

    fn cell(&mut self, step: CellStep) -> Got
        ensures { Fits (Cell step) result }
    {
        match step {
            CellStep::Look(_) => return Got::Word(self.fail),
            CellStep::SetFailed => self.fail = 1,
            _ => {}
        }
        Got::Done
    }

    fn device(&mut self, step: DeviceStep) -> Got
        ensures { Fits (Device step) result }
    {
        let number = self.moved;
        self.moved = number.saturating_add(1);
        if self.fails == Some(number) {
            return Got::Fault;
        }
        match step {
            DeviceStep::ReadMetadata(left) => self.read(left),
            _ => Got::Done,
        }
    }

    /// Both slots and the nodes are read.
    fn read(&mut self, left: u32) -> Got
        ensures { Fits (Device (ReadMetadata left)) result }
    {
        if left > 0 && self.moved < self.nodes.saturating_add(5) {
            return Got::More;
        }
        match (self.refuses, self.converts) {
            (Some(Refusal::NotFormatted), _) => Got::Refused(Refusal::NotFormatted),
            (_, Some(nodes)) => Got::Began(nodes.min(left)),
            _ => Got::Done,
        }
    }

    fn desk(&mut self, step: DeskStep) -> Got
        ensures { Fits (Desk step) result }
    {
        match (step, self.meets) {
            (DeskStep::Arrive(_), Meets::Commit | Meets::TwoCommits) => Got::Ticket,
            (DeskStep::Ask(_), Meets::TwoCommits) => Got::Served,
            (DeskStep::Arrive(most) | DeskStep::Ask(most), _) => self.lead(most),
            (DeskStep::BeginCommit(most), _) => self.begin(most),
            _ => Got::Done,
        }
    }

    /// A flush leads a commit, or is refused that.
    fn lead(&self, most: u32) -> Got
        ensures arriving { Fits (Desk (Arrive most)) result }
        ensures asking { Fits (Desk (Ask most)) result }
    {
        match self.refuses {
            Some(Refusal::Failed) => Got::Refused(Refusal::Failed),
            Some(Refusal::Memory) => Got::Refused(Refusal::Memory),
            Some(Refusal::GenerationEnd) => Got::Refused(Refusal::GenerationEnd),
            _ => Got::Began(self.nodes.min(most)),
        }
    }

    /// So it is with the commit of a suspend, but for what it is refused.
    fn begin(&self, most: u32) -> Got
        ensures { Fits (Desk (BeginCommit most)) result }
    {
        match self.refuses {
            Some(Refusal::Busy) => Got::Refused(Refusal::Busy),
            Some(Refusal::Memory) => Got::Refused(Refusal::Memory),
            Some(Refusal::GenerationEnd) => Got::Refused(Refusal::GenerationEnd),
            _ => Got::Began(self.nodes.min(most)),
        }
    }
}

impl Stage for Noted {
    ghost ready = { λ _ _. Unit {0} };

    ghost led = { λ _ _ _ _. Unit {0} };

    fn perform(&mut self, want: &Want) -> Got {
        let _ = self.wants.push(*want);
        match *want {
            Want::Cell(step) => self.cell(step),
            Want::Device(step) => self.device(step),
            Want::Desk(step) => self.desk(step),
            Want::End(_) => unreachable!(),
        }
    }
}
