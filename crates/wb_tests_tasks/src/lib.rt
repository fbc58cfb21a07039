//! Tests of the step tables and of the shared words by their public contracts. They stand beside those crates, so that testing one does not prove it
//! once more.
#![tactic(auto)]

#[cfg(test)]
mod cells;
#[cfg(test)]
mod flow;
#[cfg(test)]
mod tasks;
