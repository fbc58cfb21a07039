//! What a client beside the first is asked, in order, and what it has answered since the last join.

ghost use Rattle.std.specs.Prelude.{◌≡◌, ◌≤◌, [], length};

use crate::line::Call;
use crate::status::Status;
use crate::told::Told;
use std::alloc::Global;
use std::collections::VecDeque;
use wb_types::Refusal;

/// What a client is asked, and the number of the line that asks it.
#[derive(Clone, Copy)]
pub struct Asked {
    pub number: u64,
    pub call: Call,
}

/// An answer: how the line was answered, the status that it makes of the run, and its text.
#[derive(Clone, Copy)]
pub struct Answer<'a> {
    pub done: Result<(), Refusal>,
    pub status: Status,
    pub text: &'a [u8],
}

/// What waits for a client, and what it has answered.
#[derive(Drop)]
pub struct Queue {
    pub waiting: VecDeque<Asked>,
    /// Whether one was taken that is not answered.
    pub is_busy: bool,
    /// Whether nothing more comes.
    pub is_closed: bool,
    /// How many lines of answers those may have that were taken in since the last join.
    pub lines: u64,
    pub told: Told,
    ghost bounded: { lines ≤ 1048576 },
    ghost few: { length waiting.items ≤ lines },
}

impl Queue {
    /// Nothing waits.
    pub fn new(alloc: Global, client: u8) -> Queue
        requires numbered { client ≤ 8 }
        ensures client { result.told.client ≡ client }
        ensures nothing { result.waiting.items ≡ [] }
    {
        Queue {
            waiting: VecDeque::new(alloc),
            is_busy: false,
            is_closed: false,
            lines: 0,
            told: Told::new(alloc, client),
        }
    }
}
