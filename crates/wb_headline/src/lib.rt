//! That every run of the machine of three devices (wb_promise) is followed by a run of the abstract world of all tasks (wb_link), and
//! so keeps the whole promise: laws, no code.
#![tactic(auto)]

mod law;

pub use law::{
    every_crash_is_consistent, every_opening_shows_allowed, headline, reads_give_the_latest_write,
    seals_tell_places,
};
