//! The part of an image that is being read.

use crate::DirtyLoader;
use std::alloc::Allocator;
use wb_tree::{Loader, PlacedNode, Tree};

/// The mapping of an image, or the dirty bits behind it.
#[derive(Drop)]
pub(crate) enum ImagePart<A: Allocator> {
    /// The mapping is read, and no dirty bits come behind.
    Alone(Loader<A>),
    /// The mapping is read, whose nodes stand here so far, and dirty bits come behind.
    Ahead {
        loader: Loader<A>,
        nodes: Vec<PlacedNode>,
    },
    /// The mapping was read, whose nodes stand here, and the dirty bits are.
    Behind {
        tree: Tree<A>,
        nodes: Vec<PlacedNode>,
        loader: DirtyLoader,
    },
}
