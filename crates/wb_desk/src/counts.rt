//! What a desk counts.

/// What a desk counts.
#[derive(Clone, Copy)]
pub struct Counts {
    /// The generation of the root that stands.
    pub generation: u64,
    /// The metadata places in use: the two slots and the committed image's nodes.
    pub used: u32,
    /// The cache blocks with an entry.
    pub mapped: u32,
    /// The entries that came since the opening, modulo 2^64.
    pub promotions: u64,
    /// The entries that went, modulo 2^64.
    pub demotions: u64,
    /// The greatest sum of sectors that live orders may have.
    pub threshold: u64,
}
