//! Crashes by each kind of choice.

use super::{Step, are_done};
use std::alloc::{AllocError, Global};
use std::test::Fail;
use wb_disk::{Base, CrashChoice, MemDisk, NamedContent};
use wb_types::{Dev, Refusal};

/// A choice that names these sectors of devices, each by a position.
pub(super) fn choice_of(
    alloc: Global,
    base: Base,
    named: &[(Dev, u64, u64)],
) -> Result<CrashChoice, AllocError> {
    let mut names = Vec::new(alloc);
    for (device, sector, position) in named {
        names.push(NamedContent {
            device: *device,
            sector: *sector,
            position: *position,
        })?;
    }
    Ok(CrashChoice::new(base, names))
}

/// Sector 1 was synced with 2, and then written with 3 and with 4. Sector 0 was never written.
const WRITTEN: [Step; 6] = [
    Step::Put(1, 1),
    Step::Put(1, 2),
    Step::Synced,
    Step::Put(1, 3),
    Step::Put(1, 4),
    Step::Got(1, 4),
];

/// Whether what a crash left is durable, and nothing else is there any more.
fn stays(alloc: Global, disk: &mut MemDisk, kept: u8) -> bool {
    for base in [Base::Durable, Base::Newest] {
        let again = CrashChoice::new(base, Vec::new(alloc));
        if !disk.stop(Dev::Cache, &again) || !are_done(disk, &[Step::Got(1, kept)]) {
            return false;
        }
    }
    true
}

/// Whether a choice applies to a cache device or not, as is said, and what sector 1 holds after a crash by it is this, and lasts.
fn is_kept_by(
    alloc: Global,
    disk: &mut MemDisk,
    choice: &CrashChoice,
    applies: bool,
    kept: u8,
) -> bool {
    disk.applies(Dev::Cache, choice) == applies
        && disk.stop(Dev::Cache, choice) == applies
        && are_done(disk, &[Step::Got(0, 0), Step::Got(1, kept)])
        && (!applies || stays(alloc, disk, kept))
}

/// The same of a device that was written so.
fn leaves_by(
    alloc: Global,
    choice: &CrashChoice,
    applies: bool,
    kept: u8,
) -> Result<bool, Refusal> {
    let mut disk = MemDisk::new(alloc, 2)?;
    Ok(leaves_on(alloc, &mut disk, choice, applies, kept))
}

fn leaves_on(
    alloc: Global,
    disk: &mut MemDisk,
    choice: &CrashChoice,
    applies: bool,
    kept: u8,
) -> bool {
    are_done(disk, &WRITTEN) && is_kept_by(alloc, disk, choice, applies, kept)
}

/// The base of a choice, the sectors that it names, whether it applies, and what sector 1 then holds.
type Row = (Base, &'static [(Dev, u64, u64)], bool, u8);

const BY_NAMES: [&Row; 6] = [
    &(Base::Durable, &[], true, 2),
    &(Base::Newest, &[], true, 4),
    &(Base::Durable, &[(Dev::Cache, 1, 1)], true, 3),
    &(
        Base::Newest,
        &[(Dev::Cache, 0, 0), (Dev::Cache, 1, 0)],
        true,
        2,
    ),
    &(
        Base::Durable,
        &[(Dev::Cache, 1, 1), (Dev::Cache, 1, 2)],
        true,
        4,
    ),
    &(
        Base::Durable,
        &[(Dev::Cache, 1, 3), (Dev::Cache, 1, 1)],
        true,
        3,
    ),
];

/// Names of other devices are of no account to this one.
const BY_OTHER_NAMES: [&Row; 6] = [
    &(
        Base::Newest,
        &[(Dev::Cache, 1, 1), (Dev::Cache, 1, 3)],
        false,
        4,
    ),
    &(Base::Newest, &[(Dev::Cache, 0, 1)], false, 4),
    &(
        Base::Newest,
        &[(Dev::Cache, 2, 0), (Dev::Cache, 1, 1)],
        false,
        4,
    ),
    &(Base::Durable, &[(Dev::Origin, 1, 1)], true, 2),
    &(
        Base::Newest,
        &[(Dev::Cache, 1, 1), (Dev::Metadata, 1, 0)],
        true,
        3,
    ),
    &(
        Base::Newest,
        &[(Dev::Origin, 2, 0), (Dev::Metadata, 0, 9)],
        true,
        4,
    ),
];

/// Whether a choice leaves what its row says.
fn leaves(alloc: Global, (base, named, applies, kept): &Row) -> Result<bool, Refusal> {
    let choice = choice_of(alloc, *base, named)?;
    leaves_by(alloc, &choice, *applies, *kept)
}

fn leave(alloc: Global, rows: &[&Row]) -> Result<bool, Refusal> {
    for row in rows {
        if !leaves(alloc, row)? {
            return Ok(false);
        }
    }
    Ok(true)
}

#[test]
fn each_sector_keeps_its_chosen_content(rt: HostRuntime) -> Result<(), Fail> {
    assert!(rt; leave(rt.alloc(), &BY_NAMES)?);
    assert!(rt; leave(rt.alloc(), &BY_OTHER_NAMES)?);
    Ok(())
}

const NAMED: [(Dev, u64, u64); 3] = [
    (Dev::Metadata, 0, 0),
    (Dev::Cache, 0, 1),
    (Dev::Origin, 0, 2),
];

/// Whether a device of one sector that was written with 1 and with 2 keeps this byte.
fn keeps(disk: &mut MemDisk, device: Dev, choice: &CrashChoice, kept: u8) -> bool {
    are_done(disk, &[Step::Put(0, 1), Step::Put(0, 2)])
        && disk.stop(device, choice)
        && are_done(disk, &[Step::Got(0, kept)])
}

/// Whether each of three such devices keeps its byte by a choice, which does not name the origin alone.
fn serves(alloc: Global, choice: &CrashChoice) -> Result<bool, Refusal> {
    for (device, kept) in [(Dev::Metadata, 0), (Dev::Cache, 1), (Dev::Origin, 2)] {
        if !is_kept(alloc, device, choice, kept)? {
            return Ok(false);
        }
    }
    Ok(!choice.names_only(Dev::Origin))
}

fn is_kept(alloc: Global, device: Dev, choice: &CrashChoice, kept: u8) -> Result<bool, Refusal> {
    let mut disk = MemDisk::new(alloc, 1)?;
    Ok(keeps(&mut disk, device, choice, kept))
}

fn serves_each(alloc: Global, named: &[(Dev, u64, u64)]) -> Result<bool, Refusal> {
    let choice = choice_of(alloc, Base::Newest, named)?;
    serves(alloc, &choice)
}

#[test]
fn one_choice_serves_each_device_by_its_own_names(rt: HostRuntime) -> Result<(), Fail> {
    assert!(rt; serves_each(rt.alloc(), &NAMED)?);
    Ok(())
}
