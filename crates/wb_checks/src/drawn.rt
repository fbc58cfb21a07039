//! Blocks that are drawn from those that are mapped and clean.

ghost use Rattle.std.specs.Prelude.{◌≡◌, ◌<◌, ◌≤◌, IfSome, IsSomeAnd};
ghost use Rattle.wb_checks.specs.Samples.{MapsClean};

use rand_core::Rng;
use rand_xoshiro::SplitMix64;
use wb_types::{CBlock, Entry, OBlock};

/// A cache block that is mapped and clean, and the origin block that it holds.
#[derive(Clone, Copy, PartialEq, Eq)]
pub struct CleanBlock {
    pub cache: CBlock,
    pub origin: OBlock,
}

impl CleanBlock {
    /// The clean block that an entry of a cache block says, where it is clean.
    pub(crate) fn of(cache: CBlock, entry: Option<Entry>) -> Option<CleanBlock>
        ensures cache { IfSome result (λ block. block.cache ≡ cache) }
        ensures maps { IfSome result (λ block. IsSomeAnd entry (λ has. MapsClean has block)) }
    {
        let entry = entry?;
        if entry.dirty {
            return None;
        }
        Some(CleanBlock {
            cache,
            origin: entry.origin,
        })
    }
}

/// A number below another, which is at least 1.
pub(crate) fn draw_below(dice: &mut SplitMix64, count: u32) -> u32
    requires { 1 ≤ count }
    ensures { result < count }
{
    (dice.next_u64() % u64::from(count)) as u32
}
