//! Which metadata serve where a geometry is asked for.

ghost use Rattle.std.specs.Bool.{OnTrue, OnFalse};
ghost use Rattle.wb_meta.specs.Sizes.{AreSameSizes};
ghost use Rattle.wb_devices.specs.Sizes.{IsServedBy};

use wb_types::{Geometry, Version};

/// Whether metadata of the first geometry serve where the second is asked for: their sizes are the same, and their version is the
/// one asked for or the second. Metadata of the second version stay of it, whichever is asked for; those of the first serve no
/// asking for the second.
pub(crate) fn is_served_by(found: Geometry, asked: Geometry) -> bool
    ensures serves { OnTrue result (IsServedBy found asked) }
    ensures not { OnFalse result (¬ IsServedBy found asked) }
{
    are_same_sizes(found, asked)
        && (found.version == asked.version || found.version == Version::Two)
}

/// Whether these sizes are the same.
pub fn are_same_sizes(one: Geometry, other: Geometry) -> bool
    ensures same { OnTrue result (AreSameSizes one other) }
    ensures not { OnFalse result (¬ AreSameSizes one other) }
{
    one.block == other.block
        && one.cache_blocks == other.cache_blocks
        && one.origin_blocks == other.origin_blocks
        && one.meta_sectors == other.meta_sectors
}
