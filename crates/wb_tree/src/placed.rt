//! Where nodes stand.

ghost use Rattle.std.specs.Prelude.{◌≡◌, ◌≤◌, ◌↔◌, true, All, IsTrue, IfOk, IfErr, map};
ghost use Rattle.wb_types.specs.declared.refusal.Refusal.TheVariants.{Memory as OutOfMemory};
ghost use Rattle.wb_tree.specs.Mapping.{exists as does_exist};

use crate::below::exists;
use std::alloc::Global;
use wb_types::{Entry, Place, Refusal};

/// A node of the mapping tree, and the sector of the metadata device at which it stands.
#[derive(Clone, Copy)]
pub struct PlacedNode {
    /// 1 for a leaf, up to 4.
    pub level: u32,
    /// Which node of its level it is, counted from 0.
    pub index: u32,
    pub place: Place,
}

/// The places of nodes, in their order. `Memory` where there is no room for them.
pub fn places_of(global: Global, nodes: &[PlacedNode]) -> Result<Vec<Place>, Refusal>
    ensures places { IfOk result (λ places. places.items ≡ map (λ node. node.place) nodes.now) }
    ensures refused { IfErr result (λ refusal. refusal ≡ OutOfMemory) }
{
    let places = nodes.iter().map(|node| node.place).collect(global)?;
    Ok(places)
}

/// Whether an entry lies below each of these nodes.
pub(crate) fn all_exist(entries: &[Option<Entry>], nodes: &[PlacedNode]) -> bool
    requires { All (λ node. node.level ≤ 4) nodes.now }
    ensures { IsTrue result ↔ All (λ node. does_exist entries.now node.level node.index ≡ true) nodes.now }
{
    nodes
        .iter()
        .all(|node| exists(entries, node.level, node.index))
}
