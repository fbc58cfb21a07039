//! Single steps on the shared words.

use crate::{Access, Kind, Word};
use wb_types::{CBlock, OBlock};

/// A step on one shared word.
#[derive(Clone, Copy, PartialEq, Eq)]
pub enum CellStep {
    /// Loads a word.
    Look(Word),
    /// Takes a block by one exchange, at the lock word that was seen.
    Take(Access, OBlock, u64),
    /// Gives a block back.
    Release(Access, OBlock),
    /// Stores where an owned block stands (None: the origin), and whether it is dirty.
    Seal(OBlock, Option<CBlock>, bool),
    /// Counts one finished write on an owned block.
    Finish(OBlock),
    /// Counts one part of a request.
    Count(Kind),
    /// Sets the failed bit.
    SetFailed,
    /// Sets the suspended bit.
    SetSuspended,
}

/// What came of a step on one shared word.
#[derive(Clone, Copy, PartialEq, Eq)]
pub enum CellResult {
    Done,
    /// The word that was looked at.
    Word(u64),
    /// The exchange was lost to another.
    Lost,
}
