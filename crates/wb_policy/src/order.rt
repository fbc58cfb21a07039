//! What a policy may order.

use wb_types::{CBlock, OBlock};

/// What is to be done with a block.
#[derive(Clone, Copy, PartialEq, Eq)]
pub enum Order {
    /// The origin block is copied into the free cache block.
    Promote(OBlock, CBlock),
    /// The first block is demoted, and the second is copied into the cache block that it had.
    Replace(OBlock, OBlock, CBlock),
    /// The block's entry is removed, after its content was written back.
    Demote(OBlock),
    /// The block's content is written back, and it stays cached.
    Clean(OBlock),
}
