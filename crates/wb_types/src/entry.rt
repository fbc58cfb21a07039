//! What the mapping has for a cache block.

use crate::OBlock;

/// The entry of a mapped cache block.
#[derive(Clone, Copy, PartialEq, Eq)]
pub struct Entry {
    /// The origin block that it holds.
    pub origin: OBlock,
    /// Whether the cache's copy may be newer than the origin's.
    pub dirty: bool,
    /// The policy's hint, 0 to 16.
    pub hint: u8,
}
