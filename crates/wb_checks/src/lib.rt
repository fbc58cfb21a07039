//! Checks of a cache before an opening writes anything: that a clean cache and its origin still hold the same, that the two root slots are as
//! commits leave them, and that the migration threshold lets blocks move. They read, and write nothing.
#![tactic(auto)]

mod comparing;
mod drawn;
mod front;
mod held;
mod slots;
mod stale;
mod threshold;
mod walk;
mod whole;

pub use comparing::{PIECE, is_same_on_both};
pub use drawn::CleanBlock;
pub use front::{Front, look_at_front};
pub use slots::{RootSlots, look_at_roots};
pub use stale::{StaleBlock, find_stale};
pub use threshold::{Stopped, ThresholdNotice, threshold_notice};
