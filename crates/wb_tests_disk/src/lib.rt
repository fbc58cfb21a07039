//! Tests of numbers, formats, texts and disks by their public contracts. They stand beside those crates, so that testing one does
//! not prove it once more.
#![tactic(auto)]

#[cfg(test)]
mod disk;
#[cfg(test)]
mod format;
#[cfg(test)]
mod message;
#[cfg(test)]
mod status;
#[cfg(test)]
mod table;
#[cfg(test)]
mod types;
