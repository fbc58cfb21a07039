//! Syncs that fail, by each kind of choice.

use super::crash::choice_of;
use super::{got, put};
use std::alloc::Global;
use std::mem;
use std::test::Fail;
use wb_disk::{Base, CrashChoice, Disk, Faltering, MemDisk};
use wb_types::{Dev, Refusal};

/// A name of a sector of the cache device, and whether a failing sync has landed on it.
fn name(sector: u64, landed: u64) -> (Dev, u64, u64) {
    (Dev::Cache, sector, landed)
}

/// A sync of the disk fails as the choice says. Whether it was answered so.
fn fail_sync(alloc: Global, disk: &mut MemDisk, choice: &CrashChoice) -> Result<bool, Refusal> {
    let whole = mem::replace(disk, MemDisk::new(alloc, 0)?);
    let mut faltering = Faltering::new(whole, Dev::Cache, choice);
    let fails = faltering.sync().is_err();
    *disk = faltering.into_inner();
    Ok(fails)
}

/// Both sectors are written, a sync fails, and power is lost, so that what was not durable is gone. Whether all of it went so.
fn fails_and_crashes(alloc: Global, disk: &mut MemDisk, choice: &CrashChoice) -> bool {
    let lost = CrashChoice::new(Base::Durable, Vec::new(alloc));
    put(disk, 0, 7).is_ok()
        && put(disk, 1, 8).is_ok()
        && matches!(fail_sync(alloc, disk, choice), Ok(true))
        && disk.stop(Dev::Cache, &lost)
}

/// Whether the two sectors hold these.
fn holds(disk: &mut MemDisk, first: u8, second: u8) -> bool {
    matches!(got(disk, 0), Ok(found) if found == first)
        && matches!(got(disk, 1), Ok(found) if found == second)
}

/// Whether both sectors hold these after a sync that fails by a choice that names one sector, and a crash.
fn leaves(
    alloc: Global,
    base: Base,
    named: (Dev, u64, u64),
    first: u8,
    second: u8,
) -> Result<bool, Refusal> {
    let choice = choice_of(alloc, base, &[named])?;
    leaves_by(alloc, &choice, first, second)
}

fn leaves_by(alloc: Global, choice: &CrashChoice, first: u8, second: u8) -> Result<bool, Refusal> {
    let mut disk = MemDisk::new(alloc, 2)?;
    Ok(leaves_on(alloc, &mut disk, choice, first, second))
}

fn leaves_on(
    alloc: Global,
    disk: &mut MemDisk,
    choice: &CrashChoice,
    first: u8,
    second: u8,
) -> bool {
    fails_and_crashes(alloc, disk, choice) && holds(disk, first, second) && disk.faults() == 1
}

/// Whether a step on the cache device, of two sectors, may fail by a choice that names this.
fn may_fail(alloc: Global, named: (Dev, u64, u64)) -> Result<bool, Refusal> {
    let choice = choice_of(alloc, Base::Newest, &[named])?;
    Ok(choice.may_fail(Dev::Cache, 2))
}

#[test]
fn a_failed_sync_settles_what_has_landed(rt: HostRuntime) -> Result<(), Fail> {
    for (base, named, first, second) in [
        (Base::Durable, name(1, 0), 0, 0),
        (Base::Durable, name(1, 1), 0, 8),
        (Base::Newest, name(0, 1), 7, 8),
        (Base::Newest, name(0, 0), 0, 8),
    ] {
        assert!(rt; leaves(rt.alloc(), base, named, first, second)?);
    }
    Ok(())
}

#[test]
fn a_step_cannot_fail_as_no_step_does(rt: HostRuntime) -> Result<(), Fail> {
    for named in [name(2, 1), name(1, 2), (Dev::Origin, 1, 1)] {
        assert!(rt; !may_fail(rt.alloc(), named)?);
    }
    Ok(())
}
