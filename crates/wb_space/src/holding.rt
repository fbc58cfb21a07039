//! What a cache block is held for.

/// What a cache block is held for.
#[derive(Clone, Copy)]
pub enum Holding {
    /// An order may take it.
    Free,
    /// It has an entry in the mapping.
    Mapped,
    /// A live order is to fill it.
    Reserved,
    /// Its entry was removed, and an image may still name it.
    Quarantined,
}
