//! What a client is told of the export.

/// What is told of the export before it is served.
#[derive(Clone, Copy)]
pub struct Terms {
    /// Bytes.
    pub size: u64,
    /// How many bytes a request has best: a power of two, from 512 to 32 MiB.
    pub preferred: u32,
}
