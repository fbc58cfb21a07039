//! What may happen, and what did.

use crate::Job;
use wb_disk::CrashChoice;
use wb_tasks::{Got, Want};
use wb_types::{Content, Refusal};

/// What is to happen. Actors are counted from 0.
#[derive(Drop)]
pub enum Event {
    /// An actor that has no task gets one.
    Start(usize, Job),
    /// An actor's task does its next step, or answers.
    Step(usize),
    /// The next step of an actor, a device step, fails. Of what it writes or syncs the choice says sector by sector what
    /// has landed: a sector that is named with 1 has, one named with 0 has not, and for all others its base says it.
    FaultStep(usize, CrashChoice),
    /// Power is lost. Each sector of the three devices keeps the chosen content; the target and all tasks are gone.
    Stop(CrashChoice),
}

/// What an event did.
#[derive(Clone, Copy, PartialEq, Eq)]
pub enum What {
    /// It doesn't apply, and changed nothing.
    Skipped,
    /// A start was refused.
    Refused(Refusal),
    Started,
    /// This step was done, with this result; an answer is a step, too.
    Stepped(Want, Got),
    Stopped,
}

/// An event, what it did, and what a step of a read was given: one content a sector, and none of anything else.
#[derive(Drop)]
pub struct Record {
    pub event: Event,
    pub what: What,
    pub read: Vec<Content>,
}
