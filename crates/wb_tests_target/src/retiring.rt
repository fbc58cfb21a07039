//! Clients that come and go.

use crate::fixture::{Lent, Memory, begun_with, client_of, formatted, open, zeros};
use crate::questions::{Question, answered_of, done_by};
use std::alloc::Global;
use std::sync::Wait;
use std::test::Fail;
use wb_policy::{Order, TinyLfu};
use wb_target::{CLIENTS, Target};
use wb_types::{CBlock, OBlock, Refusal, Sector};

/// Whether the first sector is written twice, none of which is settled.
pub fn writes_twice(client: &mut Lent<'_>) -> bool {
    let sector = [begun_with(0x11)];
    (0..2).all(|_| client.port.try_write(Sector(0), &sector) == Ok(()))
}

/// Whether the next client finds the order that the accesses of one gave that has gone.
fn retiring_settles(rt: &impl Wait, alloc: Global) -> Result<bool, Refusal> {
    let (devices, target) = open(alloc, formatted(alloc)?)?;
    let (devices, written) = done_by(rt, &target, devices, Question::WritesTwice)?;
    let order = Order::Promote(OBlock(0), CBlock(0));
    Ok(written && answered_of(rt, &target, devices, Question::Finds(order))?)
}

#[test]
fn what_a_client_has_accessed_is_settled_as_it_goes(rt: HostRuntime) -> Result<(), Fail> {
    assert!(rt; retiring_settles(&rt, rt.alloc())?);
    Ok(())
}

/// Whether one client more than there may be at once can come and go, one after the other.
fn seats(rt: &impl Wait, target: &Target<TinyLfu>, devices: Memory) -> Result<bool, Refusal> {
    let mut devices = devices;
    for _ in 0..CLIENTS + 1 {
        let client = client_of(rt, target, devices)?;
        devices = target.retire(rt, client);
    }
    Ok(true)
}

fn seats_come_back(rt: &impl Wait, alloc: Global) -> Result<bool, Refusal> {
    let (devices, target) = open(alloc, formatted(alloc)?)?;
    seats(rt, &target, devices)
}

#[test]
fn a_client_leaves_its_place_to_another(rt: HostRuntime) -> Result<(), Fail> {
    assert!(rt; seats_come_back(&rt, rt.alloc())?);
    Ok(())
}

/// What a target over 4, 256 and 640 sectors answers a client whose devices have these sizes.
fn told(
    rt: &impl Wait,
    alloc: Global,
    metadata: u64,
    cache: u64,
    origin: u64,
) -> Result<Option<Refusal>, Refusal> {
    let (_, target) = open(alloc, formatted(alloc)?)?;
    let devices = zeros(alloc, metadata, cache, origin)?;
    Ok(refused(rt, &target, devices))
}

/// Why a client with these devices is refused, if it is.
fn refused(rt: &impl Wait, target: &Target<TinyLfu>, devices: Memory) -> Option<Refusal> {
    match target.client(rt, devices) {
        Ok(client) => {
            drop(target.retire(rt, client));
            None
        }
        Err((_, refusal)) => Some(refusal),
    }
}

#[test]
fn a_client_has_devices_of_the_sizes_of_its_target(rt: HostRuntime) -> Result<(), Fail> {
    let rows = [
        (4, 256, 640, None),
        (5, 256, 640, Some(Refusal::Geometry)),
        (4, 255, 640, Some(Refusal::Geometry)),
        (4, 256, 704, Some(Refusal::Geometry)),
    ];
    for (metadata, cache, origin, wanted) in rows {
        let alloc = rt.alloc();
        assert!(rt; told(&rt, alloc, metadata, cache, origin)? == wanted);
    }
    Ok(())
}
