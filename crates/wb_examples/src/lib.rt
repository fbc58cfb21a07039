//! That what is promised of every run (wb_promise) is neither empty nor always kept: runs that pass through what it speaks of, and answers that it
//! refuses. Laws, no code.
#![tactic(auto)]

mod law;

pub use law::{
    a_block_can_be_demoted, a_block_can_be_passed_by, a_block_can_be_promoted,
    a_block_can_be_replaced, a_block_can_be_written_back, a_block_can_be_written_through,
    a_block_can_stay_clean, a_commit_can_be_shared, a_flush_can_be_done,
    a_replacement_can_be_given_up, a_replacement_can_start_again, a_target_can_be_opened,
    a_target_can_be_suspended, a_write_can_be_cut_off, a_write_can_survive,
    promises_exclude_wrong_answers, promises_exclude_wrong_sharing,
    promises_exclude_wrong_suspends,
};
