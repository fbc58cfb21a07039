//! What becomes of the lines that a client beside the first is asked.

ghost use Rattle.std.specs.Prelude.{◌≡◌, ◌<◌, ◌+◌, ◌∷◌, ◌⊎◌, [], length, false, IfSome, IfNone};
ghost use Rattle.std.specs.Bool.{OnTrue, OnFalse};
ghost use Rattle.wb_dialogue.specs.Leading.{capped_sum, want_of_memory};
ghost use Rattle.wb_dialogue.specs.Queues.{IsTakenIn, IsTurnedAway, IsLineAnswered, AreLinesGivenUp};

use crate::output::out_of_memory;
use crate::queue::{Answer, Asked, Queue};
use crate::status::Status;
use crate::told::Told;
use std::alloc::Global;
use std::mem;
use wb_types::Refusal;

/// How many lines of answers of one client wait for a join at most.
pub const MOST_LINES: u64 = 1_048_576;

/// Room for an answer of one line.
const SHORT: usize = 64;

impl Queue {
    /// Takes in a line, whose answer may have so many lines: whether it did. It is turned away where one was before, or more lines of
    /// answers might wait than may, or for want of memory.
    pub fn put(&mut self, asked: Asked, most: u64) -> bool
        requires some { 0 < most }
        ensures taken { OnTrue result (IsTakenIn self.old asked self.new) }
        ensures refused { OnFalse result (IsTurnedAway self.old self.new) }
        ensures bound { 1048576 < most → result ≡ false }
        ensures client { self.new.told.client ≡ self.old.told.client }
    {
        if self.told.past == 0 && most <= MOST_LINES - self.lines {
            if self.waiting.push_back(asked).is_ok() {
                self.lines += most;
                return true;
            }
        }
        self.told.turn_away(asked.number, 1);
        false
    }

    /// Takes the line that waits longest, which is to be answered, with room for a short answer. Where there is no memory for that, all
    /// that wait are refused for it, and not done.
    pub fn take(&mut self) -> Option<Asked>
        ensures first { IfSome result (λ asked. (self.old.waiting.items ≡ asked ∷ self.new.waiting.items) × (self.new.told.past ≡ self.old.told.past)) }
        ensures none { IfNone result ((self.new.waiting.items ≡ []) × (((self.old.waiting.items ≡ []) × (self.new.told.past ≡ self.old.told.past)) ⊎ (self.new.told.past ≡ capped_sum self.old.told.past (length self.old.waiting.items)))) }
        ensures text { self.new.told.text.items ≡ self.old.told.text.items }
        ensures client { self.new.told.client ≡ self.old.told.client }
    {
        let asked = self.waiting.pop_front()?;
        if self.told.text.reserve(SHORT).is_err() {
            self.give_up(asked.number);
            return None;
        }
        self.is_busy = true;
        Some(asked)
    }

    /// Adds the answer of the line that was taken. Where there is no memory for it, it counts as refused for that; and if not even that can be
    /// told, so do all that wait, which are not done.
    pub fn tell(&mut self, asked: Asked, answer: Answer<'_>)
        ensures told { IsLineAnswered self.old answer.entry.text.now self.new ⊎ IsLineAnswered self.old want_of_memory self.new ⊎ AreLinesGivenUp self.old self.new }
        ensures client { self.new.told.client ≡ self.old.told.client }
    {
        self.is_busy = false;
        if self.told.add(answer.text).is_ok() {
            self.told
                .note(asked.number, asked.call, answer.done, answer.status);
        } else if self.told.add(out_of_memory()).is_ok() {
            self.told.note(
                asked.number,
                asked.call,
                Err(Refusal::Memory),
                Status::of(Refusal::Memory),
            );
        } else {
            self.give_up(asked.number);
        }
    }

    /// Refuses the line at hand, and all that wait, for want of memory.
    fn give_up(&mut self, number: u64)
        ensures refused { AreLinesGivenUp self.old self.new }
        ensures client { self.new.told.client ≡ self.old.told.client }
    {
        self.told
            .turn_away(number, (self.waiting.len() as u64).saturating_add(1));
        self.waiting.clear();
    }

    /// Gives what was told since the last time.
    pub fn drain(&mut self, alloc: Global) -> Told
        ensures told { result ≡ self.old.told }
        ensures nothing { (self.new.told.text.items ≡ []) × (self.new.told.past ≡ 0) }
        ensures waiting { self.new.waiting.items ≡ self.old.waiting.items }
        ensures client { self.new.told.client ≡ self.old.told.client }
    {
        self.lines = self.waiting.len() as u64;
        let client = self.told.client;
        mem::replace(&mut self.told, Told::new(alloc, client))
    }
}
