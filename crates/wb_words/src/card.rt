//! What one actor knows of the shared words. No value of these types is ever made: a clause reads an array as a list
//! of any length, and a `u64` as a number without a greatest.

use crate::{Access, FailBit, Word};
use wb_types::OBlock;

/// What an actor holds: nothing, or one block.
pub enum Hold {
    Nothing,
    Held(Access, OBlock),
}

/// What one actor knows and has done.
pub struct Card {
    pub hold: Hold,
    /// The seal word of the block that is held, once it was looked at.
    pub seal: Option<u64>,
    /// The number word of that block, once it was looked at.
    pub number: Option<u64>,
    /// The blocks whose own bit it kept at a failure.
    pub kept: [OBlock; 0],
    /// The words to which it added one, a word for each time.
    pub added: [Word; 0],
    /// Each seal that it stored, the newest first: the block, and the seal word. After a join there is a log for each
    /// of the two that had one.
    pub stored: [[(OBlock, u64); 0]; 0],
    /// Each block that it took, the newest first, and how.
    pub took: [(Access, OBlock); 0],
    /// Each bit of the fail word that it set, the newest first.
    pub set: [FailBit; 0],
    /// Each look, the newest first: the word, and what was found.
    pub saw: [(Word, u64); 0],
    /// Each exchange that was lost, the newest first: the block, and the lock word that was found.
    pub lost: [(OBlock, u64); 0],
}
