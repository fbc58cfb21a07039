//! Which blocks are worth caching, and which are written back.
//!
//! A policy is told of each access and of each entry that comes or goes, and answers with orders. What it may order
//! is a law that every policy keeps; what it does order is a definition for each.
#![tactic(auto)]

mod cleaner;
mod law;
mod order;
mod policy;
mod quiet;
mod recency;
mod situation;
mod tiny_lfu;

pub use cleaner::Cleaner;
pub use law::accesses_law;
pub use order::Order;
pub use policy::Policy;
pub use quiet::Quiet;
pub use situation::{Settled, Tick};
pub use tiny_lfu::TinyLfu;
