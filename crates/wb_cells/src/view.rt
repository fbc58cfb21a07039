//! What a seat at the table of words knows. No value of these types but `Sizes` is ever made.

use wb_words::{Card, FailBit};

/// A share of the whole: so many pieces of a whole that was halved so many times.
pub struct Fraction {
    pub pieces: u64,
    pub halvings: u64,
}

/// What a seat at the table of words knows.
pub struct View {
    pub fraction: Fraction,
    /// How many blocks there are.
    pub blocks: u64,
    pub cards: [Card; 0],
    /// Bits of the fail word that were set by it, or by a seat that it came from.
    pub fail: [FailBit; 0],
    /// All words as they lie in the table, known to who has the whole.
    pub words: Option<[u64; 0]>,
    /// Of a seat that sits for two passes, what each of them had; else nothing.
    pub sides: [Side; 0],
}

/// What a pass had before a seat sat for it and another.
pub struct Side {
    pub fraction: Fraction,
    pub fail: [FailBit; 0],
}

/// What the words are made for.
#[derive(Drop)]
pub(crate) struct Sizes {
    pub(crate) blocks: u32,
    pub(crate) actors: usize,
}
