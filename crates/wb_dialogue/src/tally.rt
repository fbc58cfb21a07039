//! The refused lines of a script.

ghost use Rattle.std.specs.Prelude.{◌≡◌, None, IfSome, IfNone};
ghost use Rattle.wb_dialogue.specs.Leading.{capped_sum};

use crate::line::Call;
use std::fmt;
use std::fmt::{Display, Formatter};
use wb_types::Refusal;

/// What a line was answered that was not done.
#[derive(Clone, Copy)]
pub enum Said {
    Refused(Refusal),
    /// It is no line of a script.
    BadLine,
}

/// How many lines were refused, and the first of them: its number from 1 on, and what it was answered. And how many writes were answered since
/// the last flush.
#[derive(Clone, Copy)]
pub struct Tally {
    pub count: u64,
    pub first: Option<(u64, Said)>,
    pub unflushed: u64,
}

impl Tally {
    /// Of no line yet.
    pub fn new() -> Tally
        ensures nothing { (result.count ≡ 0) × (result.first ≡ None) × (result.unflushed ≡ 0) }
    {
        Tally {
            count: 0,
            first: None,
            unflushed: 0,
        }
    }

    /// What a client was asked was done: a write is not durable before a flush.
    pub fn done(&mut self, asked: Call)
        ensures lines { (self.new.count ≡ self.old.count) × (self.new.first ≡ self.old.first) }
    {
        match asked {
            Call::Write { .. } | Call::TryWrite { .. } => {
                self.unflushed = self.unflushed.saturating_add(1);
            }
            Call::WriteDurably { .. } | Call::Flush => self.flushed(),
            _ => {}
        }
    }

    /// All that was answered is durable.
    pub fn flushed(&mut self)
        ensures durable { self.new.unflushed ≡ 0 }
        ensures lines { (self.new.count ≡ self.old.count) × (self.new.first ≡ self.old.first) }
    {
        self.unflushed = 0;
    }

    /// Counts a line that was refused.
    pub fn note(&mut self, number: u64, said: Said)
        ensures count { self.new.count ≡ capped_sum self.old.count 1 }
        ensures unflushed { self.new.unflushed ≡ self.old.unflushed }
    {
        self.note_all(number, said, 1);
    }

    /// Counts so many lines that were refused, of which this is the first.
    pub fn note_all(&mut self, number: u64, said: Said, count: u64)
        ensures count { self.new.count ≡ capped_sum self.old.count count }
        ensures unflushed { self.new.unflushed ≡ self.old.unflushed }
    {
        self.count = self.count.saturating_add(count);
        match self.first {
            Some((first, _)) if first <= number => {}
            _ => self.first = Some((number, said)),
        }
    }

    /// Counts what another one has counted.
    pub fn join(&mut self, other: &Tally)
        ensures some { IfSome other.now.first (λ first. self.new.count ≡ capped_sum self.old.count other.now.count) }
        ensures none { IfNone other.now.first (self.new.count ≡ self.old.count) }
        ensures unflushed { self.new.unflushed ≡ capped_sum self.old.unflushed other.now.unflushed }
    {
        if let Some((number, said)) = other.first {
            self.note_all(number, said, other.count);
        }
        self.unflushed = self.unflushed.saturating_add(other.unflushed);
    }
}

impl Display for Said {
    fn fmt<W: fmt::Write>(&self, f: &mut Formatter<W>) -> fmt::Result {
        match self {
            Said::Refused(refusal) => write!(f, "{refusal}"),
            Said::BadLine => write!(f, "bad line"),
        }
    }
}

impl Display for Tally {
    fn fmt<W: fmt::Write>(&self, f: &mut Formatter<W>) -> fmt::Result {
        let Some((number, said)) = self.first else {
            return write!(f, "no line was refused");
        };
        if self.count == 1 {
            write!(f, "1 line was refused, the first at line {number}: {said}")
        } else {
            let count = self.count;
            write!(
                f,
                "{count} lines were refused, the first at line {number}: {said}"
            )
        }
    }
}
