//! What a client beside the first has answered since the last join.

ghost use Rattle.std.specs.Prelude.{◌≡◌, ◌++◌, ◌≤◌, ℕ, List, [], length, OnOk, OnErr};
ghost use Rattle.wb_dialogue.specs.Leading.{lead_of, led_by, capped_sum};

use crate::line::Call;
use crate::status::Status;
use crate::tally::{Said, Tally};
use std::alloc::{AllocError, Global};
use wb_types::Refusal;

/// How many bytes of answers of one client wait for a join at most: 64 MiB.
const MOST_BYTES: usize = 67_108_864;

/// What a client has answered.
#[derive(Drop)]
pub struct Told {
    /// Which client it is, 1 to 8.
    pub client: u8,
    /// Its answers, in order, each line led by the client's name.
    pub text: Vec<u8>,
    /// How many lines behind them were refused for want of memory, and not done.
    pub past: u64,
    /// How its lines were answered: as the worst of them.
    pub status: Status,
    pub tally: Tally,
    ghost numbered: { client ≤ 8 },
    ghost bounded: { length text.items ≤ 67108864 },
}

impl Told {
    /// Nothing yet.
    pub fn new(alloc: Global, client: u8) -> Told
        requires numbered { client ≤ 8 }
        ensures client { result.client ≡ client }
        ensures nothing { (result.text.items ≡ []) × (result.past ≡ 0) }
    {
        Told {
            client,
            text: Vec::new(alloc),
            past: 0,
            status: Status::Done,
            tally: Tally::new(),
        }
    }

    /// Adds an answer, each line of it led by the client's name. An error where there is no memory for it, or more than 64 MiB would
    /// wait; then nothing is added.
    pub fn add(&mut self, answer: &[u8]) -> Result<(), AllocError>
        ensures added { OnOk result (self.new.text.items ≡ self.old.text.items ++ led_by self.old.client answer.now) }
        ensures same { OnErr result (self.new.text.items ≡ self.old.text.items) }
        ensures client { self.new.client ≡ self.old.client }
        ensures past { self.new.past ≡ self.old.past }
    {
        let kept = self.text.len();
        let added = push_led(&mut self.text, self.client, answer);
        if added.is_err() {
            self.text.truncate(kept);
        }
        added
    }

    /// Notes how a line of this number was answered, which makes this of a run.
    pub fn note(&mut self, number: u64, call: Call, done: Result<(), Refusal>, status: Status)
        ensures client { self.new.client ≡ self.old.client }
        ensures text { self.new.text ≡ self.old.text }
        ensures past { self.new.past ≡ self.old.past }
    {
        self.status = self.status.max(status);
        match done {
            Ok(()) => self.tally.done(call),
            Err(refusal) => self.tally.note(number, Said::Refused(refusal)),
        }
    }

    /// So many lines, the first of this number, are refused for want of memory, behind all others.
    pub fn turn_away(&mut self, number: u64, count: u64)
        ensures client { self.new.client ≡ self.old.client }
        ensures text { self.new.text ≡ self.old.text }
        ensures past { self.new.past ≡ capped_sum self.old.past count }
    {
        self.past = self.past.saturating_add(count);
        self.status = self.status.max(Status::of(Refusal::Memory));
        self.tally
            .note_all(number, Said::Refused(Refusal::Memory), count);
    }
}

/// What leads each line of a client.
pub fn lead_bytes(client: u8) -> [u8; 3]
    requires numbered { client ≤ 8 }
    ensures { result ≡ lead_of client }
{
    [b'@', b'0' + client, b' ']
}

/// Adds a text of a client, each line of it led by the client's name. An error where there is no memory for it, or more than 64 MiB would
/// wait; then a part of it may have been added.
fn push_led(lines: &mut Vec<u8>, client: u8, text: &[u8]) -> Result<(), AllocError>
    requires numbered { client ≤ 8 }
    requires bounded { length lines.old.items ≤ 67108864 }
    ensures added { OnOk result (lines.new.items ≡ lines.old.items ++ led_by client text.now) }
    ensures kept { OnErr result ((part : List ℕ) × (lines.new.items ≡ lines.old.items ++ part)) }
    ensures bounded { length lines.new.items ≤ 67108864 }
{
    let name = lead_bytes(client);
    let mut begins = true;
    let mut rest = text;
    while let Some((byte, after)) = rest.split_first() {
        if lines.len() > MOST_BYTES - 4 {
            return Err(AllocError);
        }
        if begins {
            lines.extend_from_slice(&name)?;
        }
        lines.push(*byte).map_err(|_| AllocError)?;
        begins = *byte == b'\n';
        rest = after;
    }
    Ok(())
}
