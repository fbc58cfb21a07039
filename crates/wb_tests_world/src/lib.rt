//! Tests of the world by its public contracts. They stand beside that crate, so that testing it does not prove it once more.
#![tactic(auto)]

#[cfg(test)]
mod world;
