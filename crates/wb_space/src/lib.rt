//! The states of the cache blocks, and which metadata places the images use.
//!
//! A cache block whose entry was removed is kept away from new entries until no image can name it any more.
#![tactic(auto)]

mod block;
mod blocks;
mod holding;
mod places;
mod space;

pub use block::Block;
pub use blocks::Blocks;
pub use holding::Holding;
pub use places::{Places, free_places_suffice, left_of, note_left};
pub use space::{Space, place_count};
