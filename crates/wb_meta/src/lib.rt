//! The metadata device: formatting, the commit of an image of the mapping tree, and its reading.
//!
//! A commit writes the image's nodes to places that the tree on the device does not use, syncs, writes the root
//! into the slot of its generation, and syncs. So a crash at any moment leaves the old mapping or the image's.
//!
//! A reading takes the valid root of higher generation and reads its image, or names the first fault of it. The older
//! root never counts.
#![tactic(auto)]

mod clean_image;
mod commit_steps;
mod formatting;
mod law;
mod opening;
mod read_steps;
mod roots;
mod sector;
mod slot;

pub use clean_image::image_with_bits;
pub use commit_steps::{CommitStep, CommitSteps, commit};
pub use formatting::format;
pub use law::{
    commit_law, conversion_law, crash_law, cycle_law, formatted_law, image_law, opening_law,
    reading_law, represents_law, sync_law,
};
pub use opening::opening_image;
pub use read_steps::{ReadSteps, State, read_state};
pub use roots::{commits_lead_on, one_state_is_read};
pub use wb_tree::Image;
