//! A set of numbers below a bound that finds its least member at once: words of bits, and above them a set of the words
//! that are not zero.
#![tactic(auto)]

mod bit_set;

pub use bit_set::BitSet;
