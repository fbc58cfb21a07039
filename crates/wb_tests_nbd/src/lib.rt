//! Tests of the network block device protocol by its public contracts: what a client sends, byte by byte, and what it is told. They
//! stand beside that crate, so that testing it does not prove it once more.
#![tactic(auto)]

#[cfg(test)]
mod connections;
#[cfg(test)]
mod memory;
#[cfg(test)]
mod options;
#[cfg(test)]
mod requests;
#[cfg(test)]
mod streams;
