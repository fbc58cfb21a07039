//! Tests of the crates that decide what is cached where, by their public contracts. They stand beside those crates, so that
//! testing one does not prove it once more.
#![tactic(auto)]

#[cfg(test)]
mod bits;
#[cfg(test)]
mod orders;
#[cfg(test)]
mod policy;
#[cfg(test)]
mod sketch;
#[cfg(test)]
mod space;
