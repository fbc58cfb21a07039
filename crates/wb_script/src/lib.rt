//! Scripts over a reader and a writer, played on a target of files, and the formatting of its metadata.
#![tactic(auto)]

mod ended;
mod format;
mod given_up;
mod reason;
mod script;
mod sparse;

pub use ended::{Ended, refused};
pub use format::format_files;
pub use given_up::{
    Consent, Course, GivenUp, Notice, Overwriting, Overwritten, Wishes, choose_course,
};
pub use reason::Reason;
pub use script::run;
pub use sparse::SparseFile;
