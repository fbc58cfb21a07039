//! Boxes that are made of all entries at once.

ghost use Rattle.std.specs.Prelude.{◌≡◌, ◌≤◌, ◌<◌, ◌+◌, ◌*◌, ◌^◌, ℕ, None, IfOk, length, slice_index_or};
ghost use Rattle.wb_tree.specs.Filling.{IsFilled};

use super::{Node, no_kids};
use crate::below::exists;
use std::alloc::{AllocError, Allocator};
use wb_types::Entry;

/// The node of this level and index with those of the entries that lie below it, and all nodes below it, each in a
/// box that is got and linked once. None where no entry lies below it. None of the nodes is known.
#[tactic(auto, using(crate::proofs::Branching::Branches::index_small, crate::proofs::Branching::Branches::kid_index))]
pub(crate) fn filled<A: Allocator + Clone>(
    alloc: &A,
    entries: &[Option<Entry>],
    level: u32,
    index: u32,
) -> Result<Option<Box<Node<A>, A>>, AllocError>
    requires level_from { 1 ≤ level }
    requires level_to { level ≤ 4 }
    requires index { (index + 1) * 32 ^ level ≤ 1048576 }
    ensures { IfOk result (λ node. IsFilled entries.now level index node) }
{
    if !exists(entries, level, index) {
        return Ok(None);
    }
    if level == 1 {
        let words = words_of(entries, index);
        let kids = Vec::new(alloc.clone()?);
        let leaf = Node {
            level,
            index,
            place: None,
            words,
            kids,
        };
        return Ok(Some(Box::new(alloc.clone()?, leaf)?));
    }
    let mut kids = no_kids(alloc)?;
    for word in 0..32 {
        kids[word as usize] = filled(alloc, entries, level - 1, 32 * index + word)?;
    }
    let node = Node {
        level,
        index,
        place: None,
        words: [None; 32],
        kids,
    };
    Ok(Some(Box::new(alloc.clone()?, node)?))
}

/// The entries below a leaf, and none past the last.
fn words_of(entries: &[Option<Entry>], index: u32) -> [Option<Entry>; 32]
    requires { index < 32768 }
    ensures size { length result ≡ 32 }
    ensures words { (j : ℕ) → j < 32 → slice_index_or result j None ≡ slice_index_or entries.now (32 * index + j) None }
{
    let first = 32 * index as usize;
    let mut words = [None; 32];
    for j in 0..32 {
        if first + j < entries.len() {
            words[j] = entries[first + j];
        }
    }
    words
}
