//! Laws of every run of the machine of three devices (wb_promise), in every interleaving, with failing steps and crashes, but those of contents: no
//! code.
#![tactic(auto)]

mod law;

pub use law::{
    answers_cover_their_sectors, events_skip_rightly, metadata_are_read, metadata_keep_sizes,
    never_stuck, openings_refuse_by_cause, steps_stay_inside, words_are_used_rightly,
};
