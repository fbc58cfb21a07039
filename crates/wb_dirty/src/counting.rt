//! How many nodes store which cache blocks are dirty.

ghost use Rattle.std.specs.Prelude.{◌≡◌, ◌≤◌, ◌<◌, ◌*◌, ◌^◌, length};
ghost use Rattle.wb_types.specs.Limits.{dirty_node_count};
ghost use Rattle.wb_dirty.specs.Planning.{dirty_below, dirty_names};

use crate::planning::{depth, is_any_below};
use wb_bits::BitSet;

/// How many nodes this set of dirty blocks needs: those that `plan_dirty` plans of it, 0 where no block is dirty.
pub fn dirty_nodes_of(dirty: &BitSet) -> u32
    requires { length dirty.now ≤ 1048576 }
    ensures count { result ≡ length (dirty_names dirty.now) }
    ensures at_most { result ≤ dirty_node_count (length dirty.now) }
{
    count_below(dirty, depth(dirty.size()), 0)
}

/// How many nodes at and below this one have a dirty block below them.
fn count_below(dirty: &BitSet, level: u32, index: u32) -> u32
    requires few { length dirty.now ≤ 1048576 }
    requires level_from { 1 ≤ level }
    requires level_to { level ≤ 3 }
    requires index { index < 2 ^ 20 }
    ensures count { result ≡ length (dirty_below dirty.now level index) }
    ensures at_most { 31 * result < 32 ^ level }
{
    if !is_any_below(dirty, level, index) {
        return 0;
    }
    let mut count = 1;
    if level > 1 {
        for j in 0..32 {
            count += count_below(dirty, level - 1, 32 * index + j);
        }
    }
    count
}
