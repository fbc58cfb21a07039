//! Tests of a target over disks in memory that stop or fail, at each of their calls in turn, in each mode.
#![tactic(auto)]

#[cfg(test)]
mod broken;
#[cfg(test)]
mod lives;
#[cfg(test)]
mod record;
#[cfg(test)]
mod room;
