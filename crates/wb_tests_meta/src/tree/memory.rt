//! Trees in regions of fixed size.

use super::*;
use linked_list_allocator::LocalHeap;
use std::alloc::AllocError;

/// How many of 40 cache blocks can be set in a region before memory is refused, and whether those and no others then have an
/// entry.
fn fill(heap: &LocalHeap) -> (u32, bool) {
    let mut tree = Tree::new(heap, 40);
    let mut count = 0;
    for block in 0..40 {
        if tree.set(CBlock(block), FIRST).is_err() {
            break;
        }
        count += 1;
    }
    for block in 0..40 {
        if tree.get(CBlock(block)).is_some() != (block < count) {
            return (count, false);
        }
    }
    (count, true)
}

/// Whether so many can be in a region of so many bytes, from the one number to the other, and all its memory comes back.
fn is_filled(alloc: Global, bytes: usize, range: (u32, u32)) -> Result<bool, AllocError> {
    let heap = LocalHeap::new(alloc, bytes)?;
    let (count, right) = fill(&heap);
    Ok(right && range.0 <= count && count <= range.1 && heap.used() == 0)
}

#[test]
fn a_refused_set_leaves_what_was_set_before(rt: HostRuntime) -> Result<(), Fail> {
    assert!(rt; is_filled(rt.alloc(), 64, (0, 0))?);
    assert!(rt; is_filled(rt.alloc(), 1 << 20, (40, 40))?);
    for step in 1..33 {
        assert!(rt; is_filled(rt.alloc(), 256 * step, (0, 40))?, "{step}");
    }
    Ok(())
}
