//! The words of a leaf.

ghost use Rattle.std.specs.Prelude.{◌≡◌, ◌↔◌, Option, IfSome, IsSome};
ghost use Rattle.wb_types.specs.declared.entry.Entry.{Entry as EntryValue};
ghost use Rattle.wb_format.specs.NodeWords.{IsEntry, SpellsEntry, IsLeafWord, IsLeafWordOf, kept};

use wb_types::{Entry, OBlock, Version};

/// What the word of a leaf of a version says of a cache block: an entry, or that there is none; nothing where it is no such
/// word.
///
/// The word 0 has no entry. In any other bit 0 is set, bit 1 is the dirty bit, bits 4 to 8 are the hint, 0 to
/// 16, bits 16 to 35 the origin block, and all others are 0. In the second version bit 1 is 0, too.
pub fn entry_of(word: u64, version: Version) -> Option<Option<Entry>>
    ensures found { IfSome result (SpellsEntry word) }
    ensures keeps { IfSome result (λ entry. kept version entry ≡ entry) }
    ensures only { (entry : Option EntryValue) → SpellsEntry word entry → kept version entry ≡ entry
        → result ≡ Some entry }
    ensures readable { IsSome result ↔ IsLeafWordOf version word }
{
    if word == 0 {
        return Some(None);
    }
    let hint = word / 16 % 32;
    let origin = word / 65_536;
    if hint > 16 || origin >= 1 << 20 {
        return None;
    }
    let entry = Some(Entry {
        origin: OBlock(origin as u32),
        dirty: word / 2 % 2 == 1,
        hint: hint as u8,
    });
    if word_of(entry, version) == word {
        Some(entry)
    } else {
        None
    }
}

/// The word of a leaf of a version for what the mapping has, the inverse of `entry_of` for what the version keeps of it: the
/// second leaves the dirty bit out. The origin block is below 2^20, and the hint at most 16.
pub fn word_of(entry: Option<Entry>, version: Version) -> u64
    requires { IfSome entry IsEntry }
    ensures spelled { SpellsEntry result (kept version entry) }
    ensures readable { IsLeafWordOf version result }
{
    match entry {
        None => 0,
        Some(entry) => {
            let OBlock(origin) = entry.origin;
            let dirty = match version {
                Version::One => u64::from(entry.dirty),
                Version::Two => 0,
            };
            1 + 2 * dirty + 16 * u64::from(entry.hint) + 65_536 * u64::from(origin)
        }
    }
}
