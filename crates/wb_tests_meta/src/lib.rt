//! Tests of the mapping, of trees of dirty bits and of the metadata device by their public contracts. They stand beside those crates, so that
//! testing one does not prove it once more.
#![tactic(auto)]

#[cfg(test)]
mod dirty;
#[cfg(test)]
mod meta;
#[cfg(test)]
mod tree;
