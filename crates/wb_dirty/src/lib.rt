//! The tree of dirty bits that metadata of the second version have beside the mapping: a device has it where its newest root has
//! the clean flag and names its top. It is read as sectors, alone or behind the mapping, and dropped; and which nodes store a set of
//! dirty blocks is planned.
//!
//! The layout is docs/FORMATS.md's; that a clean cache stores which blocks are dirty, and an unclean one has all count as dirty,
//! is the kernel's rule (cache.rst, 'Updating on-disk metadata').
#![tactic(auto)]

mod bits;
mod children;
mod counting;
mod image_loader;
mod image_part;
mod image_steps;
mod law;
mod loader;
mod planning;

pub use counting::dirty_nodes_of;
pub use image_loader::ImageLoader;
pub use law::read_back_law;
pub use loader::DirtyLoader;
pub use planning::{DirtyPlan, plan_dirty};
