//! The mapping: which origin block each cache block holds, kept as a tree whose nodes are written to the metadata
//! device.
//!
//! A contract sees a tree as the list of its entries, and as the places at which nodes are known to stand. The
//! nodes that are not known are those that the next image writes.
#![tactic(auto)]

mod below;
mod counting;
mod frame;
mod frames;
mod image;
mod law;
mod leaf;
mod loader;
mod placed;
mod planning;
mod reached;
mod tree;
mod wanted;

pub use image::Image;
pub use law::{edit_law, mapping_law};
pub use loader::Loader;
pub use placed::{PlacedNode, places_of};
pub use planning::{number_of, put_node};
pub use reached::{Reached, Standing};
pub use tree::Tree;
pub use wanted::wanted_node;
