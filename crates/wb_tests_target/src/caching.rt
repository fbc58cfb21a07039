//! Blocks that are cached.

use crate::fixture::{Lent, begun_with, shows, worked, write_and_read};
use crate::questions::{Question, answered};
use std::sync::Wait;
use std::test::Fail;
use wb_disk::Disk;
use wb_policy::{Order, Policy, TinyLfu};
use wb_target::{Client, Flushed, Target};
use wb_types::{CBlock, OBlock, Sector};

/// Whether a block is cached at its second access, and then found there.
pub fn caches(rt: &impl Wait, target: &Target<TinyLfu>, client: &mut Lent<'_>) -> bool {
    write_and_read(rt, client, 70, 0x11)
        && worked(rt, client) == Some(Order::Promote(OBlock(1), CBlock(0)))
        && target.counts(rt).promotions == 1
        && shows(rt, client, 70, 0x11)
        && worked(rt, client).is_none()
}

#[test]
fn a_block_is_cached_at_its_second_access(rt: HostRuntime) -> Result<(), Fail> {
    assert!(rt; answered(&rt, rt.alloc(), Question::Caches)?);
    Ok(())
}

/// Whether a block is cached, written there, and flushed.
pub fn caches_and_flushes(rt: &impl Wait, client: &mut Lent<'_>) -> bool {
    write_and_read(rt, client, 70, 0x11)
        && worked(rt, client).is_some()
        && client.write(rt, Sector(70), &[begun_with(0x22)]).is_ok()
        && matches!(client.flush(rt), Ok(Flushed::Led))
}

/// Caches the first four blocks, which is as many as there is room for, and accesses the sixth three times, after which another is to leave for it.
pub fn order_replacement<D: Disk + Drop, P: Policy>(
    rt: &impl Wait,
    client: &mut Client<'_, D, P>,
) -> bool {
    let filled = (0..4).all(|block| {
        write_and_read(rt, client, 64 * block, 0x10) && worked(rt, client).is_some()
    });
    filled && (0..3).all(|_| write_and_read(rt, client, 320, 0x55))
}
