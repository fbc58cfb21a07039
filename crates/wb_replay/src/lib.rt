//! Replays: lines that run a cache in memory, one atomic step at a time.
#![tactic(auto)]

mod actor;
mod player;
mod replay;

pub use replay::{Ended, run};
