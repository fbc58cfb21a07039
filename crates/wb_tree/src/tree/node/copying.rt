//! Nodes that are copied with all boxes below them.

ghost use Rattle.std.specs.Prelude.{◌≡◌, IfOk};

use super::Node;
use std::alloc::{AllocError, Allocator};

impl<A: Allocator> Node<A> {
    /// The same node, with what is known of it and of all nodes below it, in boxes of its own.
    pub(crate) fn copied(&self, alloc: &A) -> Result<Box<Node<A>, A>, AllocError>
    where
        A: Clone,
        ensures { IfOk result (λ node. node.value ≡ self.now) }
    {
        let mut kids = Vec::with_capacity(alloc.clone()?, self.kids.len())?;
        for kid in self.kids.iter() {
            let copy = match kid {
                Some(kid) => Some(kid.copied(alloc)?),
                None => None,
            };
            kids.push(copy)?;
        }
        let node = Node {
            level: self.level,
            index: self.index,
            place: self.place,
            words: self.words,
            kids,
        };
        Ok(Box::new(alloc.clone()?, node)?)
    }
}
