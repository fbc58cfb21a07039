//! Devices in memory of which a call fails, and what they hold then.

use crate::fixture::{Lent, Memory, begun_with, formatted};
use std::alloc::Global;
use std::sync::Wait;
use std::test::Fail;
use wb_devices::Devices;
use wb_disk::{CrashChoice, MemDisk};
use wb_faults::FaultDisk;
use wb_policy::{Order, TinyLfu};
use wb_target::{Client, Target};
use wb_types::{CBlock, Dev, Mode, OBlock, Refusal, Sector};

type Failing = Devices<FaultDisk<MemDisk>>;

/// Formatted devices, of which this one fails at its call of this number.
fn failing(alloc: Global, device: Dev, call: u64) -> Result<Failing, Refusal> {
    let memory = formatted(alloc)?;
    Ok(Devices {
        metadata: FaultDisk::new(memory.metadata, call_of(Dev::Metadata, device, call)),
        cache: FaultDisk::new(memory.cache, call_of(Dev::Cache, device, call)),
        origin: FaultDisk::new(memory.origin, call_of(Dev::Origin, device, call)),
    })
}

fn call_of(this: Dev, device: Dev, call: u64) -> Option<u64> {
    if this == device { Some(call) } else { None }
}

/// A target that is opened over these, and they.
fn opened(alloc: Global, devices: Failing) -> (Failing, Result<Target<TinyLfu>, Refusal>) {
    Target::open(alloc, devices, 64, Mode::Writeback, &[], false)
}

/// Crashes devices, each sector at its oldest or its newest content.
pub fn crashed(memory: &mut Memory, choice: &CrashChoice) -> bool {
    memory.metadata.stop(Dev::Metadata, choice)
        && memory.cache.stop(Dev::Cache, choice)
        && memory.origin.stop(Dev::Origin, choice)
}

/// What the order that waits longest came to, once block 0 was written thrice; nothing where that failed.
fn ordered_by(
    rt: &impl Wait,
    client: &mut Client<'_, FaultDisk<MemDisk>, TinyLfu>,
) -> Option<Result<Option<Order>, Refusal>> {
    for _ in 0..3 {
        client.write(rt, Sector(0), &[begun_with(0x11)]).ok()?;
    }
    Some(client.work_one(rt))
}

/// Whether a block whose promotion could not read the origin is promoted at its next order; nothing where no such read failed.
fn is_ordered_again(
    rt: &impl Wait,
    client: &mut Client<'_, FaultDisk<MemDisk>, TinyLfu>,
) -> Option<bool> {
    if ordered_by(rt, client)? != Err(Refusal::Io(Dev::Origin)) {
        return None;
    }
    let again = ordered_by(rt, client)?;
    Some(again == Ok(Some(Order::Promote(OBlock(0), CBlock(0)))))
}

fn ordered_again_over(rt: &impl Wait, target: &Target<TinyLfu>, devices: Failing) -> Option<bool> {
    match target.client(rt, devices) {
        Ok(mut client) => {
            let again = is_ordered_again(rt, &mut client);
            target.retire(rt, client);
            again
        }
        Err(_) => None,
    }
}

/// The same of a target whose origin fails at its call of this number.
fn ordered_again(rt: &impl Wait, alloc: Global, call: u64) -> Result<Option<bool>, Refusal> {
    let devices = failing(alloc, Dev::Origin, call)?;
    let (devices, target) = opened(alloc, devices);
    match target {
        Ok(target) => Ok(ordered_again_over(rt, &target, devices)),
        Err(_) => Ok(None),
    }
}

#[test]
fn an_order_that_failed_is_given_again(rt: HostRuntime) -> Result<(), Fail> {
    let mut failed = false;
    for call in 0..8 {
        match ordered_again(&rt, rt.alloc(), call)? {
            None => {}
            Some(again) => {
                assert!(rt; again && !failed);
                failed = true;
            }
        }
    }
    assert!(rt; failed);
    Ok(())
}
