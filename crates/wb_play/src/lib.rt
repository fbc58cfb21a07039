//! A script that clients of a served target play: the first reads its lines and has them done, others do beside it what they are asked.
#![tactic(auto)]

mod answers;
mod lane;
mod script;

pub use lane::Beside;
pub use script::{Played, Script};
