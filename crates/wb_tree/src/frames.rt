//! A reading goes down and on: a node that was reached is taken into what was found, and the next one is looked for.

ghost use Rattle.std.specs.Prelude.{◌≡◌, ◌≤◌, [], ◌∷◌, ◌++◌, true, ℕ, List, Some, None, IfOk, IfErr, OnOk, IfSome, length, reverse};
ghost use Rattle.wb_tree.specs.declared.placed.PlacedNode.{PlacedNode as NodeAt};
ghost use Rattle.wb_tree.specs.Reading.{Found, Nodes, is_node_of as is_right_node};
ghost use Rattle.wb_tree.specs.Loading.{frames_rest, wanted_rest, found_with, IsFresh, FailsBy};

use crate::PlacedNode;
use crate::frame::Frame;
use crate::leaf::read_entries;
use crate::reached::Reached;
use wb_format::{Node, Root};
use wb_types::{Entry, Refusal};

/// Reads the words of a leaf, or puts a node above the leaves below those whose words are being read: what the node
/// gives, and then what was left, is what is left now. `Damaged` with the place that the first fault of a leaf
/// names, `Memory` where there is no room.
pub(crate) fn take_in(
    root: &Root,
    wanted: PlacedNode,
    node: &Node,
    entries: &mut Vec<Option<Entry>>,
    mapped: &mut Vec<bool>,
    frames: &mut Vec<Frame>,
) -> Result<(), Refusal>
    requires right { is_right_node root.now wanted.level wanted.index node.now ≡ true }
    requires entries { length entries.old.items ≡ root.now.geometry.cache_blocks }
    requires mapped { length mapped.old.items ≡ root.now.geometry.origin_blocks }
    ensures ok { OnOk result ((nodes : Nodes) (reached : List NodeAt) → nodes wanted.place.0 ≡ Some node.now
        → wanted_rest root.now nodes (reverse frames.old.items) (Some wanted)
        (found_with reached entries.old.items mapped.old.items)
        ≡ frames_rest root.now nodes (reverse frames.new.items) (found_with (reached ++ wanted ∷ []) entries.new.items mapped.new.items)) }
    ensures entries { OnOk result (length entries.new.items ≡ length entries.old.items) }
    ensures mapped { OnOk result (length mapped.new.items ≡ length mapped.old.items) }
    ensures err { IfErr result (λ refusal. (nodes : Nodes) (reached : List NodeAt) → nodes wanted.place.0 ≡ Some node.now
        → FailsBy refusal (wanted_rest root.now nodes (reverse frames.old.items) (Some wanted)
        (found_with reached entries.old.items mapped.old.items))) }
{
    if wanted.level == 1 {
        if let Err(refusal) = read_entries(root, wanted, &node.words, entries, mapped) {
            return Err(refusal);
        }
    } else {
        frames.reserve(1)?;
        frames.push_reserved(Frame {
            node: wanted,
            words: node.words,
            next: 0,
        });
    }
    Ok(())
}

/// The next node that a word of these names, from the lowest up: what is left of them gives what that node gives,
/// and then what is left. Nodes of which no word is left go. `Damaged` with the place of a node of which a word
/// names no child.
pub(crate) fn next_wanted(
    root: &Root,
    reached: &Reached<PlacedNode>,
    frames: &mut Vec<Frame>,
) -> Result<Option<PlacedNode>, Refusal>
    ensures goes_on { IfOk result (λ wanted. (nodes : Nodes) (found : Found) → found.reached ≡ reached.now
        → frames_rest root.now nodes (reverse frames.old.items) found ≡ wanted_rest root.now nodes (reverse frames.new.items) wanted found) }
    ensures ended { IfOk result (λ wanted. wanted ≡ None → frames.new.items ≡ []) }
    ensures fresh { IfOk result (λ wanted. IfSome wanted (λ node. IsFresh root.now reached.now node.place)) }
    ensures level_from { IfOk result (λ wanted. IfSome wanted (λ node. 1 ≤ node.level)) }
    ensures level_to { IfOk result (λ wanted. IfSome wanted (λ node. node.level ≤ 4)) }
    ensures err { IfErr result (λ refusal. (nodes : Nodes) (found : Found) → found.reached ≡ reached.now
        → FailsBy refusal (frames_rest root.now nodes (reverse frames.old.items) found)) }
{
    while let Some(mut frame) = frames.pop() {
        if let Some(child) = frame.next_child(root, reached)? {
            frames.reserve(1)?;
            frames.push_reserved(frame);
            return Ok(Some(child));
        }
    }
    Ok(None)
}
