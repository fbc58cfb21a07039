//! What a pass is told of a block that it holds.

use wb_types::{CBlock, OBlock};

/// A block that a pass shares, and its words, which stay so while it is shared.
///
/// It is plain data: what the pass holds is on its card.
#[derive(Drop)]
pub struct Share {
    pub block: OBlock,
    /// Where the block's newest copy stands: none is the origin.
    pub place: Option<CBlock>,
    /// Whether the copy on the cache is dirty.
    pub dirty: bool,
    /// The writes that have finished on the block since the opening.
    pub number: u64,
}

/// A block that a pass owns, and its words, which the owner alone changes.
///
/// It is plain data: what the pass holds is on its card.
#[derive(Drop)]
pub struct Own {
    pub block: OBlock,
    /// Where the block's newest copy stands: none is the origin.
    pub place: Option<CBlock>,
    /// Whether the copy on the cache is dirty.
    pub dirty: bool,
    /// The writes that have finished on the block since the opening.
    pub number: u64,
}
