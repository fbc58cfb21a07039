//! The sectors of the metadata device: roots, and nodes of the mapping tree.
//!
//! A sector spells a root or a node field by field, in little-endian numbers. Each value has one spelling, and
//! a sector that is not the spelling of a value is not read. Nothing here takes memory.
#![tactic(auto)]

mod bytes;
mod law;
mod node;
mod root;
mod word;

pub use law::{node_law, root_law, word_law};
pub use node::Node;
pub use root::Root;
pub use word::{entry_of, word_of};
