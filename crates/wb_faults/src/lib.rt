//! Disks that fail on purpose, for tests of what stands on disks.
#![tactic(auto)]

mod fault;

pub use fault::FaultDisk;
