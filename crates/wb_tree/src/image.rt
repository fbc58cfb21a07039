//! What a commit writes.

ghost use Rattle.std.specs.Prelude.{◌≡◌, IfOk, IfErr, map};
ghost use Rattle.wb_types.specs.declared.refusal.Refusal.TheVariants.{Memory as OutOfMemory};

use crate::PlacedNode;
use std::alloc::Global;
use wb_format::{Node, Root};
use wb_types::{Place, Refusal};

/// The nodes that changed since the last image, each with the place that it goes to, a child before its parent; and
/// the root that names the tree.
#[derive(Drop)]
pub struct Image {
    pub root: Root,
    pub nodes: Vec<(Place, Node)>,
}

/// Where nodes stand that are written. `Memory` where there is no room to say so.
pub(crate) fn known_of(global: Global, nodes: &[(Place, Node)]) -> Result<Vec<PlacedNode>, Refusal>
    ensures known { IfOk result (λ known. known.items
        ≡ map (λ node. record { level = node.1.level; index = node.1.index; place = node.0 }) nodes.now) }
    ensures refused { IfErr result (λ refusal. refusal ≡ OutOfMemory) }
{
    let known = nodes
        .iter()
        .map(|node| PlacedNode {
            level: node.1.level,
            index: node.1.index,
            place: node.0,
        })
        .collect(global)?;
    Ok(known)
}
