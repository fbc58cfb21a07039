//! The command line of a program over the files of a table: what it takes, and what is said where that asks for nothing.
#![tactic(auto)]

mod options;
mod program;
mod words;

pub use options::{ACCEPT_OLDER, NO_VERIFY};
pub use program::{Named, Program, Subcommand};
pub use words::{FromWords, NoTask, STREAM_FAILED, command_words};
