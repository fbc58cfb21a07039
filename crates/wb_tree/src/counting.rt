//! How many nodes changed.

ghost use Rattle.std.specs.Prelude.{◌≡◌, ◌≤◌, ◌<◌, ◌*◌, ◌-◌, ◌^◌, length};
ghost use Rattle.wb_tree.specs.Mapping.{IsSound};
ghost use Rattle.wb_tree.specs.Planning.{levels, changed_below};

use crate::Tree;
use std::alloc::Allocator;

/// How many nodes at and below this one changed.
pub(crate) fn count_changed<A: Allocator + Clone>(tree: &Tree<A>, level: u32, index: u32) -> u32
    requires sound { IsSound tree.now }
    requires few { length tree.now.entries ≤ 1048576 }
    requires level_from { 1 ≤ level }
    requires level_to { level ≤ levels tree.now }
    requires level_most { level ≤ 4 }
    requires index { index < 32 ^ (levels tree.now - level) }
    ensures count { result ≡ length (changed_below tree.now level index) }
    ensures at_most { 31 * result < 32 ^ level }
{
    let Some(place) = tree.look(level, index) else {
        return 0;
    };
    if place.is_some() {
        return 0;
    }
    if level == 1 {
        return 1;
    }
    let mut count = 1;
    for j in 0..32 {
        count += count_changed(tree, level - 1, 32 * index + j);
    }
    count
}
