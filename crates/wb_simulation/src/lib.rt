//! Runs of reads, writes, flushes, suspends, migrations and openings on three devices (wb_promise) as runs of the abstract world of all tasks (wb_link):
//! definitions and laws, no code.
#![tactic(auto)]

mod law;

pub use law::{
    a_state_can_agree, cell_steps_are_followed, commit_steps_are_followed,
    extent_steps_are_followed, images_are_followed, migrations_are_followed, notes_are_followed,
    opened_targets_are_followed, openings_are_followed, starts_and_answers_are_followed,
    unmaps_are_followed,
};
