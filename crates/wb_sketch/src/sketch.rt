//! The sketch: four rows, a doorkeeper and a sample.

ghost use Rattle.std.specs.Prelude.{◌≡◌, ◌≤◌, ◌<◌, ◌+◌, ◌^◌, IfOk, IfErr};
ghost use Rattle.wb_sketch.specs.Frequencies.{accessed, admitted, counted, empty, estimate_of, is_member, least_at, raised, row_of, AreWithin};
ghost use Rattle.wb_sketch.specs.Places.{places_of};
ghost use Rattle.wb_sketch.specs.Packed.{counters_in};
ghost use Rattle.wb_sketch.specs.Sizes.{IsRowBits, row_bits, sample_limit};

use crate::doorkeeper::Doorkeeper;
use crate::place::{DOOR1, DOOR2, Places, ROW1, ROW2, ROW3, ROW4, place};
use crate::row::Row;
use std::alloc::Global;
use std::marker::Model;
use wb_types::{OBlock, Refusal};

/// How often blocks were accessed lately, estimated: the sketch of TinyLFU (Einziger, Friedman and Manes,
/// ACM Transactions on Storage 2017). In a contract its value is a function of the list of accesses since
/// it was made, `after_accesses`: `new` gives it for none, and `add` for one more.
#[derive(Drop)]
pub struct Sketch {
    cache_blocks: u32,
    /// How many bits a place in a row has.
    bits: u32,
    row1: Row,
    row2: Row,
    row3: Row,
    row4: Row,
    doorkeeper: Doorkeeper,
    sample: u32,
}

impl Model for Sketch {
    ghost use Rattle.wb_sketch.specs.Frequencies.{Frequencies, IsShaped, frequencies};

    ghost Value = { Frequencies };

    ghost view = { λ s. frequencies s.cache_blocks s.row1 s.row2 s.row3 s.row4 s.doorkeeper s.sample };

    ghost invariant = { λ s. IsShaped s.bits (frequencies s.cache_blocks s.row1 s.row2 s.row3 s.row4 s.doorkeeper s.sample) };
}

impl Sketch {
    /// A sketch for a cache of so many blocks, up to 1,048,575, that knows of no access; `Memory` where
    /// there is no room for its `4 w` counters and `8 w` bits, w being the least power of two from 16 on
    /// that is not below the cache's blocks. No other call takes memory.
    pub fn new(alloc: Global, cache_blocks: u32) -> Result<Sketch, Refusal>
        requires { cache_blocks ≤ 1048575 }
        ensures value { IfOk result (λ s. s ≡ empty cache_blocks) }
        ensures width { IfOk result (λ _. IsRowBits cache_blocks (row_bits cache_blocks)) }
        ensures refused { IfErr result (λ e. e ≡ Refusal.Memory) }
    {
        let bits = bits_of_row(cache_blocks);
        let words = 1usize << (bits - 4);
        let row1 = Row::new(alloc, words)?;
        let row2 = Row::new(alloc, words)?;
        let row3 = Row::new(alloc, words)?;
        let row4 = Row::new(alloc, words)?;
        let doorkeeper = Doorkeeper::new(alloc, 1usize << (bits - 3))?;
        Ok(Sketch {
            cache_blocks,
            bits,
            row1,
            row2,
            row3,
            row4,
            doorkeeper,
            sample: 0,
        })
    }

    /// Counts an access to a block: where the doorkeeper knows the block, those of its four counters that
    /// equal their least value rise by one, up to 15; else the doorkeeper learns it. Then the sample rises
    /// by one, and where it has come to `max(64, 8 * cache_blocks)`, sample and counters are halved and the
    /// doorkeeper is cleared.
    ///
    /// A constant number of steps but for that reset, which touches each counter once: amortized constant.
    pub fn add(&mut self, x: OBlock)
        ensures { self.new ≡ accessed self.old x.0 }
    {
        if self.is_known(x) {
            self.raise(x);
        } else {
            self.admit(x);
        }
        self.count();
    }

    /// How often a block was accessed, as far as the sketch knows, 0 to 16: the least of its counters, and
    /// one more where the doorkeeper knows it. Never less than the exact count under the same halvings
    /// (`estimate_law`).
    pub fn estimate(&self, x: OBlock) -> u8
        ensures value { result ≡ estimate_of self.now x.0 }
        ensures at_most { result ≤ 16 }
    {
        let least = self.least(self.places(x));
        if self.is_known(x) { least + 1 } else { least }
    }

    /// How many accesses count, below `max(64, 8 * cache_blocks)`: those since the sketch was made, halved
    /// at each reset.
    pub fn sample(&self) -> u32
        ensures value { result ≡ self.now.sample }
        ensures below { result < sample_limit self.now.cache_blocks }
    {
        self.sample
    }

    /// The words of row 1, 2, 3 or 4. A word holds the counters of sixteen neighbouring places, four bits
    /// each, the lowest place in the lowest four bits. Takes no memory.
    pub fn row(&self, number: usize) -> &[u64]
        requires from { 1 ≤ number }
        requires to { number ≤ 4 }
        ensures { counters_in result.now ≡ row_of self.now number }
    {
        match number {
            1 => self.row1.words(),
            2 => self.row2.words(),
            3 => self.row3.words(),
            _ => self.row4.words(),
        }
    }

    /// Whether both of the block's bits are set in the doorkeeper.
    fn is_known(&self, x: OBlock) -> bool
        ensures { result ≡ is_member self.now x.0 }
    {
        let door1 = place(x, DOOR1, self.bits + 3);
        let door2 = place(x, DOOR2, self.bits + 3);
        self.doorkeeper.contains(door1) && self.doorkeeper.contains(door2)
    }

    /// Where the block has its four counters.
    fn places(&self, x: OBlock) -> Places
        ensures value { result ≡ places_of self.now.cache_blocks x.0 }
        ensures within { AreWithin self.now result }
    {
        Places {
            row1: place(x, ROW1, self.bits),
            row2: place(x, ROW2, self.bits),
            row3: place(x, ROW3, self.bits),
            row4: place(x, ROW4, self.bits),
        }
    }

    /// The least of the counters at a block's places.
    fn least(&self, at: Places) -> u8
        requires { AreWithin self.now at }
        ensures value { result ≡ least_at self.now at }
        ensures at_most { result ≤ 15 }
    {
        let counter1 = self.row1.get(at.row1);
        let counter2 = self.row2.get(at.row2);
        let counter3 = self.row3.get(at.row3);
        let counter4 = self.row4.get(at.row4);
        counter1.min(counter2).min(counter3.min(counter4))
    }

    /// Raises those of the block's counters that equal their least value.
    fn raise(&mut self, x: OBlock)
        ensures { self.new ≡ raised self.old x.0 }
    {
        let at = self.places(x);
        let least = self.least(at);
        self.row1.raise(at.row1, least);
        self.row2.raise(at.row2, least);
        self.row3.raise(at.row3, least);
        self.row4.raise(at.row4, least);
    }

    /// Makes the block known to the doorkeeper.
    fn admit(&mut self, x: OBlock)
        ensures { self.new ≡ admitted self.old x.0 }
    {
        self.doorkeeper.insert(place(x, DOOR1, self.bits + 3));
        self.doorkeeper.insert(place(x, DOOR2, self.bits + 3));
    }

    /// Counts an access in the sample, and resets where that is full.
    fn count(&mut self)
        ensures { self.new ≡ counted self.old }
    {
        self.sample += 1;
        if self.sample >= limit_of_sample(self.cache_blocks) {
            self.row1.halve();
            self.row2.halve();
            self.row3.halve();
            self.row4.halve();
            self.doorkeeper.clear();
            self.sample /= 2;
        }
    }
}

/// The sample at which all is halved.
fn limit_of_sample(cache_blocks: u32) -> u32
    requires { cache_blocks ≤ 1048575 }
    ensures value { result ≡ sample_limit cache_blocks }
    ensures at_most { result ≤ 8388600 }
{
    (8 * cache_blocks).max(64)
}

/// How many bits a place in a row has: the least number from 4 on whose power of two is not below the
/// cache's blocks.
fn bits_of_row(cache_blocks: u32) -> u32
    requires { cache_blocks ≤ 1048575 }
    ensures value { result ≡ row_bits cache_blocks }
    ensures least { IsRowBits cache_blocks result }
    ensures at_most { result ≤ 20 }
{
    for bits in 4..20 {
        if cache_blocks <= 1 << bits {
            return bits;
        }
    }
    20
}
