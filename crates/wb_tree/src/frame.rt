//! Nodes above the leaves whose words are being read.

ghost use Rattle.std.specs.Prelude.{◌≡◌, ◌≤◌, ◌<◌, ◌+◌, ◌-◌, ◌*◌, ◌^◌, true, false, IfSome, IfNone};
ghost use Rattle.wb_tree.specs.Reading.{names_child};

use crate::PlacedNode;
use crate::reached::Reached;
use wb_format::Root;
use wb_types::{Place, Refusal};

/// A node above the leaves, and which of its words is the next to be read.
#[derive(Clone, Copy)]
pub(crate) struct Frame {
    pub(crate) node: PlacedNode,
    pub(crate) words: [u64; 32],
    pub(crate) next: usize,
    pub(crate) ghost level_from: { 2 ≤ node.level },
    pub(crate) ghost level_to: { node.level ≤ 4 },
    pub(crate) ghost next_to: { next ≤ 32 },
}

impl Frame {
    ghost use Rattle.std.specs.Prelude.{Ok, Err, IfOk, IfErr, MatchOption};
    ghost use Rattle.wb_types.specs.declared.refusal.Refusal.TheVariants.{Damaged};
    ghost use Rattle.wb_format.specs.declared.root.Root.{Root as RootValue};
    ghost use Rattle.wb_tree.specs.Reading.{Found, Nodes, ◌then◌, node_read};
    ghost use Rattle.wb_tree.specs.Loading.{frame_rest, IsFresh};

    /// The next child, where there is one: what the words that are left give is what the child gives, and then the
    /// words that are left after it. `Damaged` with the place of the node where a word names no child.
    pub(crate) fn next_child(
        &mut self,
        root: &Root,
        reached: &Reached<PlacedNode>,
    ) -> Result<Option<PlacedNode>, Refusal>
        ensures child { IfOk result (λ child. (nodes : Nodes) (found : Found) → found.reached ≡ reached.now
            → MatchOption child
            (frame_rest root.now nodes self.old found ≡ Ok found)
            (λ node. frame_rest root.now nodes self.old found
            ≡ (node_read root.now nodes node.level node.index node.place found then frame_rest root.now nodes self.new))) }
        ensures fresh { IfOk result (λ child. IfSome child (λ node. IsFresh root.now reached.now node.place)) }
        ensures level { IfOk result (λ child. IfSome child (λ node. node.level + 1 ≡ self.old.node.level)) }
        ensures err { IfErr result (λ refusal. refusal ≡ Damaged self.old.node.place) }
        ensures fault { IfErr result (λ _. (nodes : Nodes) (found : Found) → found.reached ≡ reached.now
            → frame_rest root.now nodes self.old found ≡ Err self.old.node.place) }
    {
        for j in self.next..32 {
            let word = self.words[j];
            if word != 0 {
                self.next = j + 1;
                return match child_of(self.node, root, reached, j, word) {
                    Some(child) => Ok(Some(child)),
                    None => Err(Refusal::Damaged(self.node.place)),
                };
            }
        }
        self.next = 32;
        Ok(None)
    }
}

/// The child of word j of a node, where the word names one.
fn child_of(
    parent: PlacedNode,
    root: &Root,
    reached: &Reached<PlacedNode>,
    j: usize,
    word: u64,
) -> Option<PlacedNode>
    requires from { 2 ≤ parent.level }
    requires to { parent.level ≤ 4 }
    requires word { j < 32 }
    ensures level { IfSome result (λ node. node.level ≡ parent.level - 1) }
    ensures index { IfSome result (λ node. node.index ≡ 32 * parent.index + j) }
    ensures place { IfSome result (λ node. node.place.0 ≡ word) }
    ensures named { IfSome result (λ _. names_child root.now reached.now (parent.level - 1) (32 * parent.index + j) word
        ≡ true) }
    ensures none { IfNone result (names_child root.now reached.now (parent.level - 1) (32 * parent.index + j) word
        ≡ false) }
{
    let level = parent.level - 1;
    let index = 32 * u64::from(parent.index) + j as u64;
    if !is_child(root, reached, level, index, word) {
        return None;
    }
    Some(PlacedNode {
        level,
        index: index as u32,
        place: Place(word as u32),
    })
}

/// Whether a word names a child of this level and index.
fn is_child(root: &Root, reached: &Reached<PlacedNode>, level: u32, index: u64, word: u64) -> bool
    requires level { level ≤ 3 }
    requires index { index < 2 ^ 38 }
    ensures { result ≡ names_child root.now reached.now level index word }
{
    word >= 2
        && word < u64::from(root.geometry.meta_sectors)
        && !reached.contains(Place(word as u32))
        && first_block(level, index) < u64::from(root.geometry.cache_blocks)
}

/// The first cache block below the node of this level and index.
fn first_block(level: u32, index: u64) -> u64
    requires level { level ≤ 3 }
    requires index { index < 2 ^ 38 }
    ensures { result ≡ index * 32 ^ level }
{
    match level {
        0 => index,
        1 => index * 32,
        2 => index * 1024,
        _ => index * 32_768,
    }
}
