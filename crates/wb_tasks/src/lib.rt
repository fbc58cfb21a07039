//! Requests as lists of steps: what comes next, and what drives them.
//!
//! A task says which step it wants and is told what came of it. It holds no content, no device and no
//! lock: what performs its steps has those. So a task takes no memory and borrows nothing.
#![tactic(auto)]

mod acquire;
mod block;
mod cut;
mod law;
pub mod route;
mod stage;
mod step;
mod task;

pub use block::{BlockTask, Work};
pub use law::{refusal_causes, step_bound, steps_are_ready};
pub use stage::{Stage, drive};
pub use step::{Answer, DeskStep, DeviceStep, Got, Migration, Want};
pub use task::{Steps, Task};
pub use wb_words::{CellResult, CellStep};
