//! How the sectors of a task are cut into extents: rising, each of the longest length, the last of what is left.

ghost use Rattle.std.specs.Prelude.{◌≡◌, ◌<◌, ◌≤◌, ◌+◌, ◌^◌, ◌∷◌};
ghost use Rattle.wb_types.specs.Extents.{pieces};

use wb_types::Extent;

/// The first extent of these sectors, and the sectors after it.
pub(crate) fn split(sectors: Extent, longest: u64) -> (Extent, Extent)
    requires some { 0 < sectors.count }
    requires longest { 1 ≤ longest }
    requires in_range { sectors.first + sectors.count < 2 ^ 64 }
    ensures pieces { pieces longest sectors ≡ result.0 ∷ pieces longest result.1 }
    ensures in_range { result.1.first + result.1.count < 2 ^ 64 }
{
    let count = sectors.count.min(longest);
    let first = Extent {
        first: sectors.first,
        count,
    };
    let rest = Extent {
        first: sectors.first + count,
        count: sectors.count - count,
    };
    (first, rest)
}
