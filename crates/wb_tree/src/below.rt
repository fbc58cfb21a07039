//! The entries below a node.

ghost use Rattle.std.specs.Prelude.{◌≡◌, ◌≤◌, ◌<◌, ◌+◌, ◌^◌, take, drop};
ghost use Rattle.wb_tree.specs.Mapping.{exists as does_exist};

use wb_types::Entry;

/// Whether an entry lies below the node of this level and index.
#[tactic(auto, unfolding(crate::specs::Mapping::exists))]
pub(crate) fn exists(entries: &[Option<Entry>], level: u32, index: u32) -> bool
    requires level { level ≤ 4 }
    ensures { result ≡ does_exist entries.now level index }
{
    let span = span_of(level);
    part_of(entries, u64::from(index) * span, span)
        .iter()
        .any(|entry| entry.is_some())
}

/// The entries from one on, so many of them, as far as there are.
fn part_of(entries: &[Option<Entry>], first: u64, count: u64) -> &[Option<Entry>]
    requires { first + count < 2 ^ 64 }
    ensures { result.now ≡ take count (drop first entries.now) }
{
    let len = entries.len() as u64;
    let end = (first + count).min(len);
    &entries[first.min(len) as usize..end as usize]
}

/// How many cache blocks lie below a node of this level.
fn span_of(level: u32) -> u64
    requires { level ≤ 4 }
    ensures value { result ≡ 32 ^ level }
    ensures at_most { result ≤ 1048576 }
{
    match level {
        0 => 1,
        1 => 32,
        2 => 1024,
        3 => 32_768,
        _ => 1_048_576,
    }
}
