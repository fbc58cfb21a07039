//! The doorkeeper: which blocks have been accessed since it was cleared.

ghost use Rattle.std.specs.Prelude.{◌≡◌, ◌<◌, ◌*◌, IfOk, IfErr, length, replicate, get_or, set, true, false};

use std::alloc::Global;
use std::marker::Model;
use wb_types::Refusal;

/// A Bloom filter's bits, sixty-four to a word.
#[derive(Drop)]
pub(crate) struct Doorkeeper {
    words: Vec<u64>,
}

impl Model for Doorkeeper {
    ghost use Rattle.std.specs.Prelude.{Bool, List};
    ghost use Rattle.wb_sketch.specs.Packed.{marks_in};

    ghost Value = { List Bool };

    ghost view = { λ d. marks_in d.words.items };
}

impl Doorkeeper {
    /// A doorkeeper of so many words of bits, none set; `Memory` where there is no room.
    pub(crate) fn new(alloc: Global, words: usize) -> Result<Doorkeeper, Refusal>
        ensures value { IfOk result (λ d. d ≡ replicate (64 * words) false) }
        ensures refused { IfErr result (λ e. e ≡ Refusal.Memory) }
    {
        let words = vec![in alloc; 0u64; words]?;
        Ok(Doorkeeper { words })
    }

    /// Whether the bit at a place is set.
    pub(crate) fn contains(&self, place: usize) -> bool
        requires { place < length self.now }
        ensures { result ≡ get_or self.now place false }
    {
        (self.words[place / 64] >> (place % 64)) & 1 == 1
    }

    /// Sets the bit at a place.
    pub(crate) fn insert(&mut self, place: usize)
        requires { place < length self.old }
        ensures { self.new ≡ set self.old place true }
    {
        self.words[place / 64] |= 1 << (place % 64);
    }

    /// Clears all bits.
    pub(crate) fn clear(&mut self)
        ensures { self.new ≡ replicate (length self.old) false }
    {
        self.words.fill(0);
    }
}
