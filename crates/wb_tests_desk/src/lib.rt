//! Tests of the desk by its public contracts. They stand beside it, so that testing it does not prove it once more.
#![tactic(auto)]

#[cfg(test)]
mod desk;
