//! What is left of an opening for who works on.

ghost use Rattle.std.specs.Prelude.{◌≡◌, ℕ, Some};
ghost use Rattle.wb_devices.specs.Outcomes.{IsOpen, opened_state};

use crate::opening::Opening;
use std::alloc::Global;
use wb_meta::{ReadSteps, State};

impl Opening {
    /// Once all of an opening was done, what was read, by the root that was written.
    pub fn finish(self) -> Option<State<Global>>
        ensures { (sectors : ℕ) (opened : IsOpen sectors self) → result ≡ Some (opened_state opened) }
    {
        let (Some(reading), Some(commit)) = (self.reading, self.commit) else {
            return None;
        };
        let ReadSteps::Done(state) = reading else {
            return None;
        };
        Some(State {
            root: commit.image().root,
            tree: state.tree,
            dirty: state.dirty,
            used: state.used,
            nodes: state.nodes,
        })
    }
}
