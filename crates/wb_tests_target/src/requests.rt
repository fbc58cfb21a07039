//! Accesses that are settled without waiting.

use crate::fixture::{Lent, begun_with, worked};
use crate::questions::{Question, answered};
use std::sync::Wait;
use std::test::Fail;
use wb_policy::Order;
use wb_types::{CBlock, OBlock, Sector};

/// Whether two accesses, settled without waiting, order that their block be cached.
pub fn settles_alone(rt: &impl Wait, client: &mut Lent<'_>) -> bool {
    let sector = [begun_with(0x11)];
    let written = (0..2).all(|_| client.port.try_write(Sector(0), &sector) == Ok(()));
    written
        && client.try_settle()
        && client.port.accesses.is_empty()
        && worked(rt, client) == Some(Order::Promote(OBlock(0), CBlock(0)))
}

#[test]
fn accesses_are_settled_without_waiting_where_nobody_is_at_the_desk(
    rt: HostRuntime,
) -> Result<(), Fail> {
    assert!(rt; answered(&rt, rt.alloc(), Question::SettlesAlone)?);
    Ok(())
}
