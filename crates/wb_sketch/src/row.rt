//! A row of counters, sixteen to a word.

ghost use Rattle.std.specs.Prelude.{◌≡◌, ◌≢◌, ℕ, ◌≤◌, ◌<◌, ◌+◌, ◌*◌, ◌/◌, IfOk, IfErr, length, replicate, slice_index};
ghost use Rattle.wb_sketch.specs.Frequencies.{halved, raised_at};
ghost use Rattle.wb_sketch.specs.Packed.{counter_in, counters_in};

use std::alloc::Global;
use std::marker::Model;
use wb_types::Refusal;

/// Three ones for each counter of a word: what is left of it when all are shifted by a bit.
const LOW_THREE_BITS: u64 = 0x7777_7777_7777_7777;

/// Counters from 0 to 15, four bits each: those of a word lie from its lowest bits up.
#[derive(Drop)]
pub(crate) struct Row {
    words: Vec<u64>,
}

impl Model for Row {
    ghost use Rattle.std.specs.Prelude.{ℕ, List};
    ghost use Rattle.wb_sketch.specs.Packed.{counters_in};

    ghost Value = { List ℕ };

    ghost view = { λ r. counters_in r.words.items };
}

impl Row {
    /// A row of so many words, all counters 0; `Memory` where there is no room.
    pub(crate) fn new(alloc: Global, words: usize) -> Result<Row, Refusal>
        ensures value { IfOk result (λ r. r ≡ replicate (16 * words) 0) }
        ensures refused { IfErr result (λ e. e ≡ Refusal.Memory) }
    {
        let words = vec![in alloc; 0u64; words]?;
        Ok(Row { words })
    }

    /// The words.
    pub(crate) fn words(&self) -> &[u64]
        ensures { counters_in result.now ≡ self.now }
    {
        self.words.as_slice()
    }

    /// The counter at a place.
    pub(crate) fn get(&self, place: usize) -> u8
        requires { place < length self.now }
        ensures value { result ≡ slice_index self.now place }
        ensures at_most { result ≤ 15 }
    {
        counter_in(self.words[place / 16], place % 16)
    }

    /// Raises the counter at a place by one, if it is its block's least and below 15.
    pub(crate) fn raise(&mut self, place: usize, least: u8)
        requires { place < length self.old }
        ensures { self.new ≡ raised_at least place self.old }
    {
        let word = self.words[place / 16];
        if counter_in(word, place % 16) == least && least < 15 {
            self.words[place / 16] = raised(word, place % 16);
        }
    }

    /// Halves each counter, rounded down.
    pub(crate) fn halve(&mut self)
        ensures { self.new ≡ halved self.old }
    {
        halve_each(&mut self.words);
    }
}

/// The counter of a word with this number, from the lowest bits up.
fn counter_in(word: u64, number: usize) -> u8
    requires { number < 16 }
    ensures value { result ≡ counter_in word number }
    ensures at_most { result ≤ 15 }
{
    ((word >> (4 * number)) & 15) as u8
}

/// A word with one of its counters raised by one, and the others as they were.
fn raised(word: u64, number: usize) -> u64
    requires within { number < 16 }
    requires below { counter_in word number < 15 }
    ensures here { counter_in result number ≡ counter_in word number + 1 }
    ensures others { (other : ℕ) → other ≢ number → counter_in result other ≡ counter_in word other }
{
    word + (1 << (4 * number))
}

/// Halves each of the sixteen counters of a word, rounded down, by one shift and one mask. Counters have
/// four bits each, the first in the lowest.
pub fn halve(word: u64) -> u64
    ensures { (number : ℕ) → number < 16 → counter_in result number ≡ counter_in word number / 2 }
{
    (word >> 1) & LOW_THREE_BITS
}

/// Halves each counter of each word.
fn halve_each(words: &mut [u64])
    ensures { counters_in words.new ≡ halved (counters_in words.old) }
{
    for word in words.iter_mut() {
        *word = halve(*word);
    }
}
