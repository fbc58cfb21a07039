//! TinyLFU's frequency sketch: how often a block was accessed lately, in a few bits a block.
//!
//! The sketch is that of Einziger, Friedman and Manes, "TinyLFU: A Highly Efficient Cache Admission
//! Policy", ACM Transactions on Storage 2017: four rows of counters up to 15 with minimal increment, a
//! doorkeeper that takes a block's first access, and a reset that halves all counts.
#![tactic(auto)]

mod doorkeeper;
mod law;
pub mod place;
mod row;
mod sketch;

pub use law::estimate_law;
pub use row::halve;
pub use sketch::Sketch;
