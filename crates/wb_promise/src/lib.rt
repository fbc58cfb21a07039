//! What is promised of a cache: definitions alone, and the records that they speak of. `specs/Lib` names the files in the order in which they
//! are to be read; `wb_headline: headline` proves the promise, and `wb_examples` shows that it is neither empty nor always kept.
#![tactic(auto)]

mod event;
mod job;

pub use event::{Event, Record, What};
pub use job::Job;
