//! A target of files, opened by its table, and what it and its clients are asked by who stands above.
#![tactic(auto)]

mod client;
mod difference;
mod inspection;
mod inspector;
mod opening;
mod play;
mod served;
mod unserved;

pub use difference::Difference;
pub use inspection::{Inspection, Rigor};
pub use inspector::{Inspector, Uninspected, Uninspecting};
pub use opening::{lend_devices, open_files, open_inspected, open_named, open_target};
pub use play::{LANES, Lanes, Next, Play};
pub use served::{Served, Service, Shown};
pub use unserved::Unserved;
