//! The words of the trade: block numbers, sizes, modes and refusals.
//!
//! Every other crate of the cache stands on this one. It knows of no device, no text and no thread.
#![tactic(auto)]

mod entry;
mod extent;
mod geometry;
mod law;
mod message;
mod mode;
mod number;
mod refusal;
mod version;

pub use entry::Entry;
pub use extent::Extent;
pub use geometry::Geometry;
pub use law::cutting_law;
pub use message::{CBlockRange, CBlockRanges, Key, Message};
pub use mode::{Dev, Mode};
pub use number::{CBlock, OBlock, Place, Sector};
pub use refusal::Refusal;
pub use version::Version;

/// How many bytes a sector has.
pub const SECTOR_BYTES: usize = 512;

/// The bytes of a sector.
pub type Content = [u8; 512];
