//! A request that commits. A flush, after which all that was finished before it is durable:
//!
//! 1. look at the fail word;
//! 2. arrive at the desk: lead a commit where none runs, else get a ticket of the next one;
//! 3. with a ticket, ask, once no commit runs that began too early: where one has ended that began after the ticket was given, answer done;
//!    else lead one;
//! 4. the steps of the commit: see `Commit`; answer done.
//!
//! Where the desk refuses it for want of memory or of generations, it gives up the orders of the replacements that it serves, and answers so;
//! where commits are broken it answers `Failed`.
//!
//! A suspend, after which a target is used again by opening it alone, and then has each dirty bit and hint that it had:
//!
//! 1. look at the fail word;
//! 2. look at the seal of each mapped block, which tells whether its copy in the cache is dirty;
//! 3. begin a commit whose root is marked clean; where the desk refuses it, since another one runs or for want of memory or of
//!    generations, answer so;
//! 4. the steps of the commit;
//! 5. set the suspended bit, and answer done.
//!
//! After a fault: set the failed bit, break the commits, and answer `Io`. What the seals told is with the performer, who hands it to the desk.

ghost use Rattle.std.specs.Prelude.{◌≡◌};
ghost use Rattle.wb_tasks.specs.Tables.{Flushing, Suspending};
ghost use Rattle.wb_tasks.specs.Plan.{table};
ghost use Rattle.wb_flow.specs.Phases.{commit_job};

use crate::commit::Commit;
use std::marker::Model;
use wb_tasks::{Answer, CellStep, DeskStep, Got, Steps, Want};
use wb_types::{Dev, OBlock, Refusal};
use wb_words::Word;

/// What a request commits for.
#[derive(Clone, Copy)]
enum Purpose {
    Flush,
    Suspend,
}

/// Where a request stands that commits.
#[derive(Clone, Copy)]
enum Phase {
    LooksAtFail,
    /// A suspend looks at the seals that are left, and then begins its commit; a flush arrives.
    Begins,
    /// A flush has a ticket.
    Asks,
    Commits(Commit),
    /// The commit of a suspend has ended.
    SetsSuspended,
    /// A flush gives up the orders that are left, and then answers this refusal.
    GivesUp(Refusal),
    /// A step on this device failed.
    SetsFailed(Dev),
    BreaksCommits(Dev),
    Ended(Answer),
}

/// A flush or a suspend. A flush may serve replacements, whose demotions are done and whose promotions wait for it.
#[derive(Drop)]
pub struct CommitTask {
    purpose: Purpose,
    phase: Phase,
    /// The blocks whose orders the replacements have that a flush serves, or whose seals a suspend looks at.
    blocks: Vec<OBlock>,
    /// How many of those orders it has given up, or of those seals it has looked at.
    past: usize,
    /// How many nodes its image has at most.
    most: u32,
}

impl Model for CommitTask {
    ghost use Rattle.std.specs.Prelude.{drop};
    ghost use Rattle.wb_tasks.specs.Plan.{Plan};

    ghost Value = { Plan };

    ghost use Rattle.wb_flow.specs.Phases.{commit_task_left, IsPhaseInRange};

    ghost view = { λ t. commit_task_left t.purpose t.blocks.items t.most t.phase (drop t.past t.blocks.items) };

    ghost invariant = { λ t. IsPhaseInRange t.phase };
}

impl CommitTask {
    /// A flush that serves the replacements whose orders these blocks have, if any, and whose image has at most so many
    /// nodes.
    pub fn flush(serves: Vec<OBlock>, most: u32) -> CommitTask
        ensures { result ≡ table (Flushing serves.items most) }
    {
        CommitTask::starting(Purpose::Flush, serves, most)
    }

    /// A suspend of a target whose mapped blocks are these; it looks at their seals in this order. Its image has at most so many nodes.
    pub fn suspend(mapped: Vec<OBlock>, most: u32) -> CommitTask
        ensures { result ≡ table (Suspending mapped.items most) }
    {
        CommitTask::starting(Purpose::Suspend, mapped, most)
    }

    /// A request that has not begun.
    #[tactic(auto, using(crate::proofs::Requests::starts))]
    fn starting(purpose: Purpose, blocks: Vec<OBlock>, most: u32) -> CommitTask
        ensures { result ≡ table (commit_job purpose blocks.items most) }
    {
        CommitTask {
            purpose,
            phase: Phase::LooksAtFail,
            blocks,
            past: 0,
            most,
        }
    }
}

impl Steps for CommitTask {
    ghost left = { λ t. t };

    #[tactic(auto, using(crate::proofs::Commits::first_of_closing))]
    fn want(&self) -> Want {
        match self.phase {
            Phase::LooksAtFail => Want::Cell(CellStep::Look(Word::Fail)),
            Phase::Begins => match self.purpose {
                Purpose::Flush => Want::Desk(DeskStep::Arrive(self.most)),
                Purpose::Suspend => match self.blocks.get(self.past) {
                    Some(block) => Want::Cell(CellStep::Look(Word::Seal(*block))),
                    None => Want::Desk(DeskStep::BeginCommit(self.most)),
                },
            },
            Phase::Asks => Want::Desk(DeskStep::Ask(self.most)),
            Phase::Commits(commit) => commit.want(),
            Phase::SetsSuspended => Want::Cell(CellStep::SetSuspended),
            Phase::GivesUp(refusal) => match self.blocks.get(self.past) {
                Some(block) => Want::Desk(DeskStep::ReleaseOrder(*block)),
                None => Want::End(Answer::Refused(refusal)),
            },
            Phase::SetsFailed(_) => Want::Cell(CellStep::SetFailed),
            Phase::BreaksCommits(_) => Want::Desk(DeskStep::BreakCommit),
            Phase::Ended(answer) => Want::End(answer),
        }
    }

    fn after_look(&mut self, word: u64) {
        match self.phase {
            Phase::LooksAtFail if word == 0 => {
                self.past = 0;
                self.phase = Phase::Begins;
            }
            Phase::LooksAtFail => self.phase = Phase::Ended(Answer::Refused(Refusal::Failed)),
            // A suspend alone looks at a word there.
            Phase::Begins => {
                if self.past < self.blocks.as_slice().len() {
                    self.past += 1;
                }
            }
            // Nothing else is looked at.
            _ => {}
        }
    }

    fn after_done(&mut self) {
        match self.phase {
            Phase::Commits(commit) => match commit.advanced() {
                Some(next) => self.phase = Phase::Commits(next),
                None => match self.purpose {
                    Purpose::Flush => self.phase = Phase::Ended(Answer::Done),
                    Purpose::Suspend => self.phase = Phase::SetsSuspended,
                },
            },
            Phase::SetsSuspended => self.phase = Phase::Ended(Answer::Done),
            Phase::GivesUp(_) => {
                if self.past < self.blocks.as_slice().len() {
                    self.past += 1;
                }
            }
            Phase::SetsFailed(device) => self.phase = Phase::BreaksCommits(device),
            Phase::BreaksCommits(device) => {
                self.phase = Phase::Ended(Answer::Refused(Refusal::Io(device)));
            }
            // Nothing else can be done.
            _ => {}
        }
    }

    fn after_fault(&mut self) {
        if let Phase::Commits(commit) = self.phase {
            self.phase = Phase::SetsFailed(commit.device());
        }
    }

    fn after_refusal(&mut self, refusal: Refusal) {
        self.past = 0;
        match self.purpose {
            Purpose::Flush => match refusal {
                Refusal::Failed => self.phase = Phase::Ended(Answer::Refused(Refusal::Failed)),
                _ => self.phase = Phase::GivesUp(refusal),
            },
            Purpose::Suspend => self.phase = Phase::Ended(Answer::Refused(refusal)),
        }
    }

    fn after_rare(&mut self, got: Got) {
        match got {
            Got::Ticket => self.phase = Phase::Asks,
            Got::Served => self.phase = Phase::Ended(Answer::Done),
            // None of its steps is an exchange or reads metadata: its commit began.
            _ => self.phase = Phase::Commits(Commit::begun(got)),
        }
    }
}
