//! The desk: the mapping, the policy, the live orders and the running commit of an opened cache, as one value under one
//! lock. Each call is exact: what it makes of the value that it finds, and why it refuses.
#![tactic(auto)]

mod counts;
mod decisions;
mod desk;
mod invalidating;
mod law;
mod opening;

pub use counts::Counts;
pub use decisions::decisions_law;
pub use desk::{Arrival, Asked, Desk, Receipt, Ticket};
pub use invalidating::may_invalidate;
pub use law::{
    allocation_keeps_its_invariant, calls_are_acts, flushes_share_commits, images_stay_safe,
    same_marks_change_no_node,
};
