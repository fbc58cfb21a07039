//! Flushes that share a commit.

ghost use Rattle.std.specs.Prelude.{◌≡◌, IfOk, IfErr, OnErr};
ghost use Rattle.std.specs.Bool.{OnTrue, OnFalse};
ghost use Rattle.wb_desk.specs.Commits.{commit_broken};
ghost use Rattle.wb_desk.specs.Sharing.{HasArrived, HasAsked, HasLed, IsLeadRefused, CommitCovers};

use super::Desk;
use std::alloc::Global;
use std::marker::Model;
use wb_meta::Image;
use wb_policy::Policy;
use wb_types::Refusal;

/// A flush's place in the line: the number of the first commit that covers it, which begins after the flush has come.
///
/// `Desk::arrive` alone makes one, and it cannot be copied.
#[derive(Drop)]
pub struct Ticket {
    /// The number of the commit that ran when the flush came.
    after: u64,
}

impl Model for Ticket {
    ghost use Rattle.std.specs.Prelude.{ℕ, ◌+◌};

    ghost Value = { ℕ };

    ghost view = { λ ticket. ticket.after + 1 };
}

/// That a commit ended which covers its holder's flush.
///
/// `Desk::ask` alone makes one, and it cannot be copied.
#[derive(Drop)]
pub struct Receipt {
    number: u64,
}

impl Receipt {
    /// The number of the last commit that had ended, counted from 1 since the opening.
    pub fn number(&self) -> u64
        ensures { result ≡ self.now }
    {
        self.number
    }
}

impl Model for Receipt {
    ghost use Rattle.std.specs.Prelude.{ℕ};

    ghost Value = { ℕ };

    ghost view = { λ receipt. receipt.number };
}

/// What a flush is told that comes.
#[derive(Drop)]
pub enum Arrival {
    /// A commit of this image began for it, which it carries out.
    Lead(Image),
    /// A commit runs that began before it came: it waits.
    Ticket(Ticket),
}

/// What a flush is told that waited.
#[derive(Drop)]
pub enum Asked {
    /// A commit has ended that covers it.
    Served(Receipt),
    /// A commit of this image began for it, which it carries out.
    Lead(Image),
    /// A commit runs: it waits on.
    Wait,
}

impl<P: Policy> Desk<P> {
    /// A flush comes: it leads the commit that begins for it, or where one runs, gets a ticket for the next one, without memory. What
    /// the running one stores is of its beginning, which may be before what the flush is to store.
    ///
    /// `Failed` after `break_commit`; where no commit runs, `GenerationEnd` and `Memory` as `begin_commit` says. Then nothing
    /// changed.
    pub fn arrive(&mut self, alloc: Global) -> Result<Arrival, Refusal>
        ensures ok { IfOk result (λ arrival. HasArrived P.hint_of self.old arrival self.new) }
        ensures err { OnErr result (self.new ≡ self.old) }
        ensures refused { IfErr result (IsLeadRefused self.old) }
    {
        match self.lead(alloc)? {
            Some(image) => Ok(Arrival::Lead(image)),
            None => Ok(Arrival::Ticket(Ticket {
                after: self.ended + 1,
            })),
        }
    }

    /// A flush that waited asks for its commit: it is served where one that covers it has ended; else it leads the next one, or where
    /// one runs, waits on.
    ///
    /// `Failed` after `break_commit` where none that covers it has ended; where no commit runs, `GenerationEnd` and `Memory` as
    /// `begin_commit` says. Then nothing changed.
    pub fn ask(&mut self, alloc: Global, ticket: &Ticket) -> Result<Asked, Refusal>
        ensures ok { IfOk result (λ asked. HasAsked P.hint_of self.old ticket.now asked self.new) }
        ensures err { OnErr result (self.new ≡ self.old) }
        ensures refused { IfErr result (λ refusal. (¬ CommitCovers self.old ticket.now) × IsLeadRefused self.old refusal) }
    {
        if ticket.after < self.ended {
            return Ok(Asked::Served(Receipt { number: self.ended }));
        }
        match self.lead(alloc)? {
            Some(image) => Ok(Asked::Lead(image)),
            None => Ok(Asked::Wait),
        }
    }

    /// A commit failed: no flush is covered any more but by those that ended. It takes no memory, and leaves the running commit as
    /// it is.
    pub fn break_commit(&mut self)
        ensures { self.new ≡ commit_broken self.old }
    {
        self.broken = true;
    }

    /// Whether a commit has ended that covers who waits with this.
    pub fn covers(&self, ticket: &Ticket) -> bool
        ensures covered { OnTrue result (CommitCovers self.now ticket.now) }
        ensures other { OnFalse result (¬ CommitCovers self.now ticket.now) }
    {
        ticket.after < self.ended
    }

    /// Whether a commit failed.
    pub fn is_broken(&self) -> bool
        ensures { result ≡ self.now.broken }
    {
        self.broken
    }

    /// Begins a commit that a flush leads; none where one runs.
    fn lead(&mut self, alloc: Global) -> Result<Option<Image>, Refusal>
        ensures ok { IfOk result (λ image. HasLed P.hint_of self.old image self.new) }
        ensures err { OnErr result (self.new ≡ self.old) }
        ensures refused { IfErr result (IsLeadRefused self.old) }
    {
        if self.broken {
            return Err(Refusal::Failed);
        }
        if self.is_committing() {
            return Ok(None);
        }
        let image = self.begin_commit(alloc, None)?;
        Ok(Some(image))
    }
}
