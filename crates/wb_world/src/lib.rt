//! A machine of wb_machine that runs by events, and the theorem of it: its traces have what is promised of every run.
#![tactic(auto)]

mod law;
mod running;
mod world;

pub use law::headline;
pub use running::run;
pub use world::World;
