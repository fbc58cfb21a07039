//! The tasks without a block, as lists of steps: flushing, suspending and opening.
//!
//! What an image holds and where its nodes go, what is read of the metadata and what it stands for are with the performer;
//! a task knows how many nodes there are and whether there is more to read.
#![tactic(auto)]

mod commit;
mod committing;
mod open;

pub use committing::CommitTask;
pub use open::OpenTask;
