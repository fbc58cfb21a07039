//! The shared words of a cache and the steps on them: what words there are, what each step makes of them and of what
//! an actor knows, and the rule that holds between any two steps.
//!
//! Nothing here is shared or atomic: `wb_cells` performs these steps on atomic words, the step tables name them.
#![tactic(auto)]

mod card;
mod grip;
mod held_block;
mod step;
mod word;

pub use card::{Card, Hold};
pub use grip::{Grip, GripStage, Gripped};
pub use held_block::{Own, Share};
pub use step::{CellResult, CellStep};
pub use word::{Access, FailBit, Kind, Word, can_take, is_dirty, place_in, seal_word};
