//! The lines of a replay: what each asks, read exactly where it has its form.
#![tactic(auto)]

mod line;
mod named;
mod setup;

pub use line::{ACTORS, Line, Task, read_line};
pub use setup::{Setup, read_setup};
