//! A cache over three devices in memory that runs by events, one atomic step at a time: what happens in it is what the
//! definitions of wb_promise allow.
//!
//! Openings start in write-back and in write-through. Over a target that was opened reads, writes, flushes, promotions, demotions, write-backs,
//! replacements and suspends run.
#![tactic(auto)]

mod asked;
mod asking;
mod keeping;
mod known_crew;
mod limits;
mod machine;
mod making;
mod member;
mod moving;
mod opener;
mod outcome;
mod performing;
mod phase;
mod requests;
mod sealing;
mod serving;
mod starting;
mod stepping;
mod stopping;
mod suspending;
mod target;
mod trace;
mod viewing;
mod work;

pub use asked::Asked;
pub use known_crew::KnownCrew;
pub use machine::{ACTORS, Machine};
pub use making::Made;
pub use member::Member;
pub use opener::Opener;
pub use phase::Phase;
pub use target::Target;
pub use trace::Trace;
pub use work::Work;
