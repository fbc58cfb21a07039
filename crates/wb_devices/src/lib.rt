//! Performing the steps of tasks on devices: sectors that move, syncs, the steps of a commit and of an opening on the metadata
//! device; and the stage of openings. Each kind of step is performed here once, and who has its own words, devices or buffers
//! builds a stage of these parts.
#![tactic(auto)]

mod clean;
mod committing;
mod converting;
mod devices;
mod finishing;
mod moving;
mod opening;
mod opening_stage;
mod performing;
mod reading;
mod running;
mod sizes;

pub use clean::stored_entry;
pub use committing::{put, sync_metadata};
pub use devices::Devices;
pub use moving::{read_extent, sync, write_extent};
pub use opening::Opening;
pub use opening_stage::OpeningStage;
pub use running::RunningCommit;
pub use sizes::are_same_sizes;
