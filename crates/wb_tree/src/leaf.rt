//! The words of a leaf that is read.

ghost use Rattle.std.specs.Prelude.{◌≡◌, ◌+◌, ◌*◌, ℕ, List, Ok, Err, OnOk, OnErr, IfErr, length, slice_index};
ghost use Rattle.wb_types.specs.declared.refusal.Refusal.TheVariants.{Damaged};
ghost use Rattle.wb_format.specs.NodeWords.{IsLeafWord};
ghost use Rattle.wb_tree.specs.declared.placed.PlacedNode.{PlacedNode as Node};
ghost use Rattle.wb_tree.specs.Reading.{Found, entry_in, may_map as is_mappable};
ghost use Rattle.wb_tree.specs.Loading.{leaf_read};

use crate::PlacedNode;
use wb_format::{Root, entry_of};
use wb_types::{Entry, OBlock, Refusal, Version};

/// Reads the words of a leaf, in rising order, into the entries and the marks of mapped origin blocks. `Damaged`
/// with the place of the leaf where a word has an entry that may not be there; what was read before it stays.
pub(crate) fn read_entries(
    root: &Root,
    leaf: PlacedNode,
    words: &[u64; 32],
    entries: &mut [Option<Entry>],
    mapped: &mut [bool],
) -> Result<(), Refusal>
    requires entries { length entries.old ≡ root.now.geometry.cache_blocks }
    requires mapped { length mapped.old ≡ root.now.geometry.origin_blocks }
    requires words { (j : ℕ) → IsLeafWord (slice_index words.now j) }
    ensures ok { OnOk result ((reached : List Node) → leaf_read root.now leaf words.now
        (record { reached = reached; entries = entries.old; mapped = mapped.old })
        ≡ Ok (record { reached = reached; entries = entries.new; mapped = mapped.new })) }
    ensures refused { IfErr result (λ refusal. refusal ≡ Damaged leaf.place) }
    ensures fault { OnErr result ((reached : List Node) → leaf_read root.now leaf words.now
        (record { reached = reached; entries = entries.old; mapped = mapped.old })
        ≡ Err leaf.place) }
{
    for j in 0..32 {
        if let Some(entry) = entry_in_word(words[j]) {
            let block = 32 * u64::from(leaf.index) + j as u64;
            if !may_map(root, mapped, block, entry) {
                return Err(Refusal::Damaged(leaf.place));
            }
            let OBlock(origin) = entry.origin;
            entries[block as usize] = Some(entry);
            mapped[origin as usize] = true;
        }
    }
    Ok(())
}

/// The entry in a word that a leaf may have. No leaf of the second version has a dirty bit in a word.
fn entry_in_word(word: u64) -> Option<Entry>
    requires { IsLeafWord word }
    ensures { result ≡ entry_in word }
{
    match entry_of(word, Version::One) {
        Some(entry) => entry,
        None => None,
    }
}

/// Whether a cache block may have an entry: both blocks are there, and no entry has the origin block yet.
fn may_map(root: &Root, mapped: &[bool], block: u64, entry: Entry) -> bool
    requires { length mapped.now ≡ root.now.geometry.origin_blocks }
    ensures { result ≡ is_mappable root.now mapped.now block entry }
{
    let OBlock(origin) = entry.origin;
    block < u64::from(root.geometry.cache_blocks)
        && origin < root.geometry.origin_blocks
        && !mapped[origin as usize]
}
