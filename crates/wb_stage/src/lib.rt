//! The steps of tasks on the desk: each call of it is made here once, and a step that the desk cannot be asked now is not done.
//! Who keeps a desk, under a lock or alone, performs those steps by `asking::ask`; the steps on devices are those of wb_devices.
#![tactic(auto)]

pub mod asking;
pub mod seen;
mod share;

pub use share::Share;
