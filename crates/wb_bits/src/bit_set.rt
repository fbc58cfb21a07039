//! Sets of numbers below a bound, whose least member is found in a few steps.

ghost use Rattle.std.specs.Prelude.{◌≡◌, ◌≢◌, ◌||◌, ℕ, ◌<◌, ◌≤◌, ◌+◌, ◌*◌, ◌/◌, ◌^◌, Bool, true, false, length, replicate, IfOk, slice_set, slice_get, Some, get_or, IfSome, IfNone};
ghost use Rattle.std.specs.List.{position};
ghost use Rattle.wb_bits.specs.BitWords.{Differs, is_member, least_in};
ghost use Rattle.wb_bits.specs.Leasts.{IsLeastFrom};

use std::alloc::{AllocError, Global};
use std::marker::Model;

/// Words of bits, and above them the set of the words that are used.
#[cycle(bit_set)]
pub struct BitSet {
    bound: usize,
    words: Vec<u64>,
    above: Above,
}

#[cycle(bit_set)]
#[derive(Drop)]
enum Above {
    Nothing,
    Summary(Box<BitSet>),
}

impl Drop for BitSet {
    #[cycle(bit_set)]
    fn drop(self) {
        let BitSet {
            bound: _,
            words,
            above,
        } = self;
        drop(words);
        drop(above);
    }
}

impl Model for BitSet {
    ghost use Rattle.std.specs.Prelude.{List, Bool, length};

    ghost Value = { List Bool };

    ghost use Rattle.wb_bits.specs.Summary.{IsSummed, members_of};

    ghost view = { members_of };

    ghost invariant = { IsSummed };

    ghost size = { length };

    ghost use Rattle.wb_bits.specs.Deeper.{above_smaller};

    ghost size_decreases = { λ a h. above_smaller a.bound a.words.items a.above h.bounded h.summed };
}

impl BitSet {
    /// The empty set below this bound.
    pub fn new(alloc: Global, bound: usize) -> Result<Self, AllocError>
        requires { bound < 2 ^ 40 }
        ensures { IfOk result (λ set. set ≡ replicate bound false) }
    {
        let count = bound.div_ceil(64);
        let words = vec![in alloc; 0u64; count]?;
        if count > 1 {
            let above = Box::new(alloc, BitSet::new(alloc, count)?)?;
            Ok(BitSet {
                bound,
                words,
                above: Above::Summary(above),
            })
        } else {
            Ok(BitSet {
                bound,
                words,
                above: Above::Nothing,
            })
        }
    }

    /// The bound.
    pub fn size(&self) -> usize
        ensures { result ≡ length self.now }
    {
        self.bound
    }

    pub fn contains(&self, i: usize) -> bool
        requires { i < length self.now }
        ensures { slice_get self.now i ≡ Some result }
    {
        (self.words[i / 64] >> (i % 64)) & 1 == 1
    }

    /// Is this number a member? One from the bound on is none.
    pub fn has(&self, i: usize) -> bool
        ensures { result ≡ get_or self.now i false }
    {
        i < self.size() && self.contains(i)
    }

    pub fn insert(&mut self, i: usize)
        requires { i < length self.old }
        ensures { self.new ≡ slice_set self.old i true }
    {
        let before = self.words[i / 64];
        self.words[i / 64] = with_bit(before, i % 64);
        match &mut self.above {
            Above::Nothing => {}
            Above::Summary(above) => {
                if before == 0 {
                    above.insert(i / 64);
                }
            }
        }
    }

    pub fn remove(&mut self, i: usize)
        requires { i < length self.old }
        ensures { self.new ≡ slice_set self.old i false }
    {
        let word = without_bit(self.words[i / 64], i % 64);
        self.words[i / 64] = word;
        match &mut self.above {
            Above::Nothing => {}
            Above::Summary(above) => {
                if word == 0 {
                    above.remove(i / 64);
                }
            }
        }
    }

    /// Makes this number a member or none.
    pub fn set(&mut self, i: usize, member: bool)
        requires { i < length self.old }
        ensures { self.new ≡ slice_set self.old i member }
    {
        if member {
            self.insert(i);
        } else {
            self.remove(i);
        }
    }

    /// Takes every member out, by a few words' work for each word that has one.
    pub fn clear(&mut self)
        ensures { self.new ≡ replicate (length self.old) false }
    {
        while let Some(i) = self.least() {
            self.clear_word(i / 64);
        }
    }

    /// Takes out the members that one word has.
    fn clear_word(&mut self, at: usize)
        requires { 64 * at < length self.old }
        ensures size { length self.new ≡ length self.old }
        ensures cleared { (i : ℕ) → i / 64 ≡ at → get_or self.new i false ≡ false }
        ensures others { (i : ℕ) → i / 64 ≢ at → get_or self.new i false ≡ get_or self.old i false }
    {
        self.words[at] = 0;
        match &mut self.above {
            Above::Nothing => {}
            Above::Summary(above) => above.remove(at),
        }
    }

    /// The least member.
    pub fn least(&self) -> Option<usize>
        ensures { result ≡ position (λ b. b) self.now }
    {
        match &self.above {
            Above::Nothing => least_in(&self.words, 0),
            Above::Summary(above) => match above.least() {
                Some(word) => least_in(&self.words, word),
                None => None,
            },
        }
    }

    /// The least member from this number on.
    pub fn least_from(&self, from: usize) -> Option<usize>
        ensures found { IfSome result (IsLeastFrom (λ i. get_or self.now i false) from) }
        ensures none { IfNone result ((i : ℕ) → from ≤ i → get_or self.now i false ≡ false) }
    {
        if from >= self.bound {
            return None;
        }
        let here = least_in_from(&self.words, from);
        if here.is_some() {
            return here;
        }
        match &self.above {
            Above::Nothing => None,
            Above::Summary(above) => match above.least_from(from / 64 + 1) {
                Some(next) => least_in(&self.words, next),
                None => None,
            },
        }
    }
}

fn with_bit(word: u64, bit: usize) -> u64
    requires { bit < 64 }
    ensures differs { Differs word result bit true }
    ensures fits { result < 2 ^ 64 }
{
    word | 1 << bit
}

fn without_bit(word: u64, bit: usize) -> u64
    requires { bit < 64 }
    ensures differs { Differs word result bit false }
    ensures none { word ≡ 0 → result ≡ 0 }
    ensures fits { result < 2 ^ 64 }
{
    word & !(1 << bit)
}

/// The least member of the word at `at`.
fn least_in(words: &[u64], at: usize) -> Option<usize>
    requires { at < 2 ^ 40 }
    ensures { result ≡ least_in words.now at }
{
    if at >= words.len() {
        return None;
    }
    let word = words[at];
    if word == 0 {
        return None;
    }
    Some(64 * at + word.trailing_zeros() as usize)
}

/// The least member from a number on that the word of this number has.
fn least_in_from(words: &[u64], from: usize) -> Option<usize>
    requires small { from < 2 ^ 40 }
    requires inside { from / 64 < length words.now }
    ensures found { IfSome result (IsLeastFrom (is_member words.now) from) }
    ensures none { IfNone result ((i : ℕ) → from ≤ i → i / 64 ≡ from / 64 → is_member words.now i ≡ false) }
{
    let word = words[from / 64] >> (from % 64);
    if word == 0 {
        return None;
    }
    Some(from + word.trailing_zeros() as usize)
}
