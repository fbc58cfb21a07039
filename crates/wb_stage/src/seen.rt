//! The dirty bits that a suspend sees, by cache block, as the seals of the mapped blocks tell them: whoever performs it keeps them, and
//! hands them to the desk with its commit.

ghost use Rattle.std.specs.Prelude.{◌≡◌};
ghost use Rattle.wb_stage.specs.Seen.{seen_with};

use wb_words::{is_dirty, place_in};

/// Notes a seal that was looked at: the bit of the cache block that it names is as it says. A seal of the origin has no bit, nor has one of
/// a cache block that is not there.
pub fn note(seen: &mut [bool], seal: u64)
    ensures { seen.new ≡ seen_with seal seen.old }
{
    if let Some(c) = place_in(seal) {
        let at = c.0 as usize;
        if at < seen.len() {
            seen[at] = is_dirty(seal);
        }
    }
}
