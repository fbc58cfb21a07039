//! Words of leaves. Which sectors of a version spell a root or a node stands in scripts/cases/damage.txt and damaged_bits.txt.

use wb_format::*;
use wb_types::{Entry, OBlock, Version};

/// Whether a word spells this entry in the first version, and its bytes are these.
fn spells(word: u64, bytes: [u8; 8], entry: Entry) -> bool {
    let is_inside = entry.origin.0 < 1 << 20 && entry.hint <= 16;
    if !is_inside || word_of(Some(entry), Version::One) != word {
        return false;
    }
    u64::from_le_bytes(bytes) == word && entry_of(word, Version::One) == Some(Some(entry))
}

#[test]
fn words_of_a_leaf(rt: HostRuntime) {
    for (origin, dirty, hint, word, bytes) in [
        (0, false, 0, 1, [1, 0, 0, 0, 0, 0, 0, 0]),
        (5, true, 16, 327_939, [3, 1, 5, 0, 0, 0, 0, 0]),
        (
            1_048_575,
            true,
            16,
            68_719_411_459,
            [3, 1, 0xff, 0xff, 0x0f, 0, 0, 0],
        ),
    ] {
        let entry = Entry {
            origin: OBlock(origin),
            dirty,
            hint,
        };
        assert!(rt; spells(word, bytes, entry));
    }
    assert!(rt; entry_of(0, Version::One) == Some(None) && word_of(None, Version::One) == 0);
    for word in [2, 5, 0x111, 1 << 9 | 1, 1 << 36 | 1] {
        for version in [Version::One, Version::Two] {
            assert!(rt; entry_of(word, version) == None);
        }
    }
}

#[test]
fn words_of_the_second_version_have_no_dirty_bit(rt: HostRuntime) {
    for (hint, dirty, word) in [(4, false, 0x41), (4, true, 0x41), (0, true, 1)] {
        let entry = Entry {
            origin: OBlock(0),
            dirty,
            hint,
        };
        let clean = Entry {
            dirty: false,
            ..entry
        };
        assert!(rt; word_of(Some(entry), Version::Two) == word);
        assert!(rt; entry_of(word, Version::Two) == Some(Some(clean)));
        assert!(rt; entry_of(word | 2, Version::Two) == None);
    }
}
