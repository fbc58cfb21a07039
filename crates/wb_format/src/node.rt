//! Nodes of the mapping tree, and of the tree of dirty bits.

ghost use Rattle.std.specs.Prelude.{◌≡◌, ◌≤◌, ◌<◌, ◌↔◌, ℕ, Bool, true, List, IfSome, IfNone, IsTrue, slice_index};
ghost use Rattle.wb_format.specs.Bytes.{HasWords, SameBytes, IsSector};
ghost use Rattle.wb_format.specs.NodeWords.{IsNodeWord, IsNodeWordOf, IsLevelOf};
ghost use Rattle.wb_format.specs.Letters.{node_magic};

use crate::bytes::{is_zero, put_u32, put_u64, u32_at, u64_at};
use crate::word::entry_of;
use wb_types::{Content, SECTOR_BYTES, Version};

/// The letters `WBCNODE1` of a node of the mapping.
const MAPPING: [u8; 8] = *b"WBCNODE1";

/// The letters `WBCDIRT1` of a node of dirty bits.
const DIRTY: [u8; 8] = *b"WBCDIRT1";

/// A node of the mapping tree, or of the tree of dirty bits that metadata of the second version have.
#[derive(Clone, Copy)]
pub struct Node {
    /// The generation of the commit that wrote it.
    pub generation: u64,
    /// Whether it is one of dirty bits.
    pub dirty: bool,
    /// 1 for a leaf, up to 4, or 3 of dirty bits.
    pub level: u32,
    /// Which node of its level it is, counted from 0.
    pub index: u32,
    /// Of a leaf, the words of 32 cache blocks, or the dirty bits of 2,048, 64 in a word, the lowest first; else the places
    /// of 32 nodes of the level below, 0 for none.
    pub words: [u64; 32],
    pub ghost level_from: { 1 ≤ level },
    pub ghost level_to: { level ≤ 4 },
    pub ghost dirty_to: { dirty ≡ true → level ≤ 3 },
    pub ghost spelled: { (j : ℕ) → IsNodeWord dirty level (slice_index words j) },
}

impl Node {
    ghost use Rattle.wb_format.specs.declared.node.Node.{Node as NodeValue};
    ghost use Rattle.wb_format.specs.Layout.{SpellsNode, SpellsNodeOf};

    /// The node that a sector of metadata of a version spells, where it spells one.
    pub fn read(content: &Content, version: Version) -> Option<Node>
        ensures found { IfSome result (SpellsNodeOf version content.now) }
        ensures only { (node : NodeValue) → SpellsNodeOf version content.now node → result ≡ Some node }
    {
        let dirty = dirty_of(u64_at(content, 0))?;
        let level = u32_at(content, 16);
        if !may_have(version, dirty, level)
            || !is_zero(content, 24, 32)
            || !is_zero(content, 288, SECTOR_BYTES)
        {
            return None;
        }
        let words = words_at(content, version, dirty, level)?;
        Some(Node {
            generation: u64_at(content, 8),
            dirty,
            level,
            index: u32_at(content, 20),
            words,
        })
    }

    /// Makes a sector the node's spelling.
    pub fn write(&self, content: &mut Content)
        ensures { SpellsNode content.new self.now }
    {
        *content = [0; SECTOR_BYTES];
        put_u64(content, 0, magic_of(self.dirty));
        put_u64(content, 8, self.generation);
        put_u32(content, 16, self.level);
        put_u32(content, 20, self.index);
        put_words(content, &self.words);
    }
}

/// The letters of a node, as a number.
fn magic_of(dirty: bool) -> u64
    ensures { result ≡ node_magic dirty }
{
    if dirty {
        u64::from_le_bytes(DIRTY)
    } else {
        u64::from_le_bytes(MAPPING)
    }
}

/// Whether a node with these letters is one of dirty bits; nothing where they are no node's.
fn dirty_of(magic: u64) -> Option<bool>
    ensures found { IfSome result (λ dirty. magic ≡ node_magic dirty) }
    ensures only { (dirty : Bool) → magic ≡ node_magic dirty → result ≡ Some dirty }
{
    if magic == magic_of(true) {
        Some(true)
    } else if magic == magic_of(false) {
        Some(false)
    } else {
        None
    }
}

/// Whether metadata of a version may have a node of dirty bits, or else of the mapping, of a level.
fn may_have(version: Version, dirty: bool, level: u32) -> bool
    ensures { IsTrue result ↔ IsLevelOf version dirty level }
{
    if dirty {
        version == Version::Two && (1..=3).contains(&level)
    } else {
        (1..=4).contains(&level)
    }
}

/// Whether a node of a level may have a word in metadata of a version.
fn is_word(version: Version, dirty: bool, level: u32, word: u64) -> bool
    ensures { IsTrue result ↔ IsNodeWordOf version dirty level word }
{
    if level != 1 {
        word != 1 && word <= 4_294_967_295
    } else {
        dirty || entry_of(word, version).is_some()
    }
}

/// The words of a node in a sector, where such a node may have each of them in metadata of a version.
fn words_at(content: &Content, version: Version, dirty: bool, level: u32) -> Option<[u64; 32]>
    ensures found { IfSome result (HasWords content.now) }
    ensures spelled { IfSome result (λ words. (j : ℕ) → IsNodeWordOf version dirty level (slice_index words j)) }
    ensures none { IfNone result ((words : List ℕ) → HasWords content.now words
        → ((j : ℕ) → IsNodeWordOf version dirty level (slice_index words j)) → ⊥) }
{
    let mut words = [0; 32];
    for j in 0..32 {
        let word = u64_at(content, 32 + 8 * j);
        if !is_word(version, dirty, level, word) {
            return None;
        }
        words[j] = word;
    }
    Some(words)
}

/// Writes the words of a node, and nothing else.
fn put_words(content: &mut Content, words: &[u64; 32])
    ensures words { HasWords content.new words.now }
    ensures before { SameBytes content.new content.old 0 32 }
    ensures after { SameBytes content.new content.old 288 512 }
    ensures bytes { IsSector content.new }
{
    for j in 0..32 {
        put_u64(content, 32 + 8 * j, words[j]);
    }
}
