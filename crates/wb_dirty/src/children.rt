//! Words that name nodes of dirty bits, whose nodes are still to be read.

ghost use Rattle.std.specs.Prelude.{◌≡◌, ◌≤◌, ◌<◌, ◌+◌, ◌-◌, ◌*◌, ◌^◌, ◌++◌, [], true, false, None, All, OnOk, IfOk, IfErr, IfSome, IfNone, nat_lt, reverse};
ghost use Rattle.wb_types.specs.declared.refusal.Refusal.TheVariants.{Memory as OutOfMemory};
ghost use Rattle.wb_tree.specs.Reading.{Nodes};
ghost use Rattle.wb_tree.specs.Loading.{FailsBy};
ghost use Rattle.wb_dirty.specs.Reading.{Asked, Marks, children_from, names_node};
ghost use Rattle.wb_dirty.specs.Loading.{IsLevelOfChild, MayReach, rest_read, wanted_read};

use wb_format::Root;
use wb_tree::{PlacedNode, Reached};
use wb_types::{Place, Refusal};

/// A word of a node that is no leaf, and the node that it names: of level 1 or 2, and as which of its level, counted from 0.
#[derive(Clone, Copy)]
pub(crate) struct Child {
    level: u32,
    index: u64,
    /// What the word says: the number of its place.
    word: u64,
    /// Where the node stands that has the word.
    from: Place,
}

/// Puts the words of a node that name children on top of those whose children are still to be read, the first word last.
pub(crate) fn put_children(
    parent: PlacedNode,
    words: &[u64; 32],
    left: &mut Vec<Child>,
) -> Result<(), Refusal>
    requires from { 2 ≤ parent.level }
    requires to { parent.level ≤ 3 }
    requires levels { All IsLevelOfChild left.old.items }
    ensures levels { OnOk result (All IsLevelOfChild left.new.items) }
    ensures ok { OnOk result (reverse left.new.items ≡ children_from 32 (parent.level - 1) parent.index parent.place words.now 0 ++ reverse left.old.items) }
    ensures refused { IfErr result (λ refusal. refusal ≡ OutOfMemory) }
{
    left.reserve(32)?;
    for k in 0..32 {
        let j = 31 - k;
        let word = words[j];
        if word != 0 {
            left.push_reserved(Child {
                level: parent.level - 1,
                index: 32 * u64::from(parent.index) + j as u64,
                word,
                from: parent.place,
            });
        }
    }
    Ok(())
}

impl Child {
    /// The node that the word names, where it names one.
    pub(crate) fn node(&self, root: &Root, reached: &Reached<Place>) -> Option<PlacedNode>
        requires { IsLevelOfChild self.now }
        ensures named { IfSome result (λ _. names_node root.now reached.now self.now ≡ true) }
        ensures level { IfSome result (λ node. node.level ≡ self.now.level) }
        ensures index { IfSome result (λ node. node.index ≡ self.now.index) }
        ensures place { IfSome result (λ node. node.place.0 ≡ self.now.word) }
        ensures none { IfNone result (names_node root.now reached.now self.now ≡ false) }
    {
        if !self.is_named(root, reached) {
            return None;
        }
        Some(PlacedNode {
            level: self.level,
            index: self.index as u32,
            place: Place(self.word as u32),
        })
    }

    /// Whether it names one.
    fn is_named(&self, root: &Root, reached: &Reached<Place>) -> bool
        requires { IsLevelOfChild self.now }
        ensures { result ≡ names_node root.now reached.now self.now }
    {
        self.word >= 2
            && self.word < u64::from(root.geometry.meta_sectors)
            && !reached.contains(Place(self.word as u32))
            && self.is_below(root.geometry.cache_blocks)
    }

    /// Whether the bit of a cache block lies below it.
    fn is_below(&self, cache_blocks: u32) -> bool
        requires level { IsLevelOfChild self.now }
        requires blocks { cache_blocks < 2 ^ 20 }
        ensures { result ≡ nat_lt (64 * (self.now.index * 32 ^ self.now.level)) cache_blocks }
    {
        self.index < u64::from(cache_blocks) && self.first_block() < u64::from(cache_blocks)
    }

    /// The first cache block whose bit lies below it.
    fn first_block(&self) -> u64
        requires level { IsLevelOfChild self.now }
        requires index { self.now.index < 2 ^ 20 }
        ensures { result ≡ 64 * (self.now.index * 32 ^ self.now.level) }
    {
        if self.level == 1 {
            64 * (self.index * 32)
        } else {
            64 * (self.index * 1024)
        }
    }
}

/// The node that the next of these words names: what is left of them gives what that node gives, and then what is left. None where
/// no word is left. `Damaged` with the place of the node that has a word which names none.
pub(crate) fn next_wanted(
    root: &Root,
    reached: &Reached<Place>,
    left: &mut Vec<Child>,
) -> Result<Option<PlacedNode>, Refusal>
    requires { All IsLevelOfChild left.old.items }
    ensures levels { OnOk result (All IsLevelOfChild left.new.items) }
    ensures goes_on { IfOk result (λ wanted. (asked : Asked) (nodes : Nodes) (marks : Marks) → asked.root ≡ root.now → marks.reached ≡ reached.now
        → rest_read asked nodes left.old.items marks ≡ wanted_read asked nodes left.new.items wanted marks) }
    ensures ended { IfOk result (λ wanted. wanted ≡ None → left.new.items ≡ []) }
    ensures fresh { IfOk result (λ wanted. IfSome wanted (λ node. MayReach root.now reached.now node.place)) }
    ensures level_from { IfOk result (λ wanted. IfSome wanted (λ node. 1 ≤ node.level)) }
    ensures level_to { IfOk result (λ wanted. IfSome wanted (λ node. node.level ≤ 3)) }
    ensures err { IfErr result (λ refusal. (asked : Asked) (nodes : Nodes) (marks : Marks) → asked.root ≡ root.now → marks.reached ≡ reached.now
        → FailsBy refusal (rest_read asked nodes left.old.items marks)) }
{
    let Some(child) = left.pop() else {
        return Ok(None);
    };
    match child.node(root, reached) {
        Some(node) => Ok(Some(node)),
        None => Err(Refusal::Damaged(child.from)),
    }
}
