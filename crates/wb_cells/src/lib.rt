//! The shared words on atomic words, for any number of threads: for each origin block a lock that counts its sharers, a
//! seal that tells where its newest copy stands, and a number of finished writes; four statistics and a fail word beside
//! them.
//!
//! Each call makes single atomic steps and waits for nobody.
#![tactic(auto)]

mod cells;
mod crew;
mod grip;
mod pass;
mod step;
mod table;
mod view;

pub use cells::Cells;
pub use crew::Crew;
pub use pass::Pass;
pub use view::Fraction;
pub use wb_words::{Card, FailBit, Grip, GripStage, Gripped, Hold, Kind, Own, Share, Word};
