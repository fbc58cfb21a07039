//! Want of memory: `rt try --test --fail-alloc N` refuses the N-th allocation, and the test passes for each.

use crate::fixture::{Lent, Memory, begun_with, formatted};
use std::alloc::Global;
use std::sync::Wait;
use std::test::Fail;
use wb_disk::MemDisk;
use wb_policy::TinyLfu;
use wb_target::{Client, Target};
use wb_types::{Mode, Refusal, SECTOR_BYTES, Sector};

/// Opens a target, once more where there was no memory.
fn opened(alloc: Global, devices: Memory) -> Result<(Memory, Target<TinyLfu>), Refusal> {
    let (devices, target) = Target::open(alloc, devices, 64, Mode::Writeback, &[], false);
    match target {
        Ok(target) => Ok((devices, target)),
        Err(Refusal::Memory) => {
            let (devices, target) = Target::open(alloc, devices, 64, Mode::Writeback, &[], false);
            Ok((devices, target?))
        }
        Err(refusal) => Err(refusal),
    }
}

/// A client, once more where there was no memory.
fn client<'t>(
    rt: &impl Wait,
    target: &'t Target<TinyLfu>,
    devices: Memory,
) -> Result<Client<'t, MemDisk, TinyLfu>, Refusal> {
    match target.client(rt, devices) {
        Ok(client) => Ok(client),
        Err((devices, Refusal::Memory)) => match target.client(rt, devices) {
            Ok(client) => Ok(client),
            Err((_, refusal)) => Err(refusal),
        },
        Err((_, refusal)) => Err(refusal),
    }
}

/// Four blocks cached and one more that replaces one, as far as there is memory, then a flush, once more where there was none.
fn cache_and_flush(rt: &impl Wait, client: &mut Lent<'_>) -> Result<(), Refusal> {
    for block in 0..5 {
        for _ in 0..3 {
            if let Err(stopped) = client.write(rt, Sector(64 * block), &[begun_with(0x22)]) {
                return Err(stopped.refusal);
            }
        }
        match client.work_one(rt) {
            Ok(_) | Err(Refusal::Memory) => {}
            Err(refusal) => return Err(refusal),
        }
    }
    match client.flush(rt) {
        Ok(_) => {}
        Err(Refusal::Memory) => {
            client.flush(rt)?;
        }
        Err(refusal) => return Err(refusal),
    }
    Ok(())
}

/// The devices of a target on which that was done.
fn cached_and_flushed(
    rt: &impl Wait,
    target: &Target<TinyLfu>,
    devices: Memory,
) -> Result<Memory, Refusal> {
    let mut client = client(rt, target, devices)?;
    let done = cache_and_flush(rt, &mut client);
    let devices = target.retire(rt, client);
    match done {
        Ok(()) => Ok(devices),
        Err(refusal) => Err(refusal),
    }
}

/// Whether a new target shows each block as it was written.
fn all_shown(rt: &impl Wait, alloc: Global, devices: Memory) -> Result<bool, Refusal> {
    let (devices, target) = opened(alloc, devices)?;
    shown_by(rt, &target, devices)
}

fn shown_by(rt: &impl Wait, target: &Target<TinyLfu>, devices: Memory) -> Result<bool, Refusal> {
    let mut client = client(rt, target, devices)?;
    let shown = shows_all(rt, &mut client);
    target.retire(rt, client);
    shown
}

fn shows_all(rt: &impl Wait, client: &mut Lent<'_>) -> Result<bool, Refusal> {
    let mut out = [[0; SECTOR_BYTES]];
    for block in 0..5 {
        if let Err(stopped) = client.read(rt, Sector(64 * block), &mut out) {
            return Err(stopped.refusal);
        }
        if out[0][0] != 0x22 {
            return Ok(false);
        }
    }
    Ok(true)
}

fn lived(rt: &impl Wait, alloc: Global) -> Result<bool, Refusal> {
    let (devices, target) = opened(alloc, formatted(alloc)?)?;
    let devices = cached_and_flushed(rt, &target, devices)?;
    all_shown(rt, alloc, devices)
}

/// A device in memory for which a write finds no memory has failed; then there is nothing to be shown.
#[test]
fn what_was_flushed_is_shown_whatever_lacked_memory(rt: HostRuntime) -> Result<(), Fail> {
    let shown = match lived(&rt, rt.alloc()) {
        Ok(shown) => shown,
        Err(Refusal::Memory) => lived(&rt, rt.alloc())?,
        Err(Refusal::Io(_)) => lived(&rt, rt.alloc())?,
        Err(_) => false,
    };
    assert!(rt; shown);
    Ok(())
}
