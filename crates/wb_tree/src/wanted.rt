//! The node that a reading wants.

ghost use Rattle.std.specs.Prelude.{◌≡◌, true, false, Some, IfOk, IfErr};
ghost use Rattle.wb_types.specs.declared.refusal.Refusal.TheVariants.{Damaged};
ghost use Rattle.wb_format.specs.declared.node.Node.{Node as NodeValue};
ghost use Rattle.wb_tree.specs.Reading.{is_kind, is_wanted};

use crate::PlacedNode;
use wb_format::{Node, Root};
use wb_types::Refusal;

/// The node that the sector at the wanted place spells, where it is the one that is wanted: of dirty bits or of the mapping, of this
/// level and index, and not newer than the root. `Damaged` with the place where it spells another, or none.
pub fn wanted_node(
    root: &Root,
    wanted: PlacedNode,
    told: Option<Node>,
    dirty: bool,
) -> Result<Node, Refusal>
    ensures told { IfOk result (λ node. told ≡ Some node) }
    ensures right { IfOk result (λ node. is_wanted (is_kind dirty node) root.now wanted.level wanted.index node ≡ true) }
    ensures refused { IfErr result (λ refusal. refusal ≡ Damaged wanted.place) }
    ensures other { IfErr result (λ _. (node : NodeValue) → told ≡ Some node
        → is_wanted (is_kind dirty node) root.now wanted.level wanted.index node ≡ false) }
{
    let Some(node) = told else {
        return Err(Refusal::Damaged(wanted.place));
    };
    if !is_that(root, wanted, &node, dirty) {
        return Err(Refusal::Damaged(wanted.place));
    }
    Ok(node)
}

/// Whether a node is the one that is wanted.
fn is_that(root: &Root, wanted: PlacedNode, node: &Node, dirty: bool) -> bool
    ensures { result ≡ is_wanted (is_kind dirty node.now) root.now wanted.level wanted.index node.now }
{
    is_of(node, dirty)
        && node.level == wanted.level
        && node.index == wanted.index
        && node.generation <= root.generation
}

/// Whether a node is one of dirty bits, or one of the mapping.
fn is_of(node: &Node, dirty: bool) -> bool
    ensures { result ≡ is_kind dirty node.now }
{
    if dirty { node.dirty } else { !node.dirty }
}
