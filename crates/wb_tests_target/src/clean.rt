//! Openings in passthrough: over clean metadata alone.

use crate::faults::crashed;
use crate::fixture::{Memory, formatted};
use crate::unclean::stored_as;
use std::alloc::Global;
use std::test::Fail;
use wb_disk::{Base, CrashChoice, Disk, MemDisk};
use wb_policy::TinyLfu;
use wb_target::Target;
use wb_types::{Content, Mode, Refusal, SECTOR_BYTES};

/// The newest root, whether its first entry is dirty, and why an opening in passthrough is refused, if it is.
struct Row {
    generation: u64,
    clean: bool,
    dirty: bool,
    refusal: Option<Refusal>,
}

const ROWS: [Row; 6] = [
    Row {
        generation: 1,
        clean: true,
        dirty: false,
        refusal: None,
    },
    Row {
        generation: 1,
        clean: false,
        dirty: false,
        refusal: Some(Refusal::NotClean),
    },
    Row {
        generation: 1,
        clean: true,
        dirty: true,
        refusal: Some(Refusal::NotClean),
    },
    Row {
        generation: u64::MAX,
        clean: true,
        dirty: false,
        refusal: Some(Refusal::GenerationEnd),
    },
    Row {
        generation: u64::MAX,
        clean: false,
        dirty: false,
        refusal: Some(Refusal::NotClean),
    },
    Row {
        generation: u64::MAX,
        clean: true,
        dirty: true,
        refusal: Some(Refusal::NotClean),
    },
];

/// Devices after an opening in passthrough, and why that was refused, if it was.
fn opened(alloc: Global, devices: Memory) -> (Memory, Option<Refusal>) {
    let (devices, target): (_, Result<Target<TinyLfu>, Refusal>) = Target::open(
        alloc,
        devices,
        64,
        Mode::Passthrough,
        &[],
        false,
    );
    match target {
        Ok(_) => (devices, None),
        Err(refusal) => (devices, Some(refusal)),
    }
}

/// The sectors of both roots; none where the device is too small, or fails.
fn roots(metadata: &mut MemDisk) -> Option<[Content; 2]> {
    let mut roots = [[0; SECTOR_BYTES]; 2];
    if metadata.sectors() < 2 || metadata.read_extent(0, &mut roots).is_err() {
        return None;
    }
    Some(roots)
}

/// Whether the roots after an opening and a crash that leaves what was durable alone are those from before it, and are there.
fn stays(devices: &mut Memory, before: Option<[Content; 2]>, alloc: Global) -> bool {
    let choice = CrashChoice::new(Base::Durable, Vec::new(alloc));
    crashed(devices, &choice) && before.is_some() && roots(&mut devices.metadata) == before
}

#[test]
fn passthrough_opens_over_clean_metadata_alone(rt: HostRuntime) -> Result<(), Fail> {
    for row in &ROWS {
        let devices = stored_as(rt.alloc(), row.generation, row.clean, row.dirty)?;
        let (_, refusal) = opened(rt.alloc(), devices);
        assert!(rt; refusal == row.refusal);
    }
    Ok(())
}

#[test]
fn a_refused_opening_leaves_the_roots_and_has_synced_them(rt: HostRuntime) -> Result<(), Fail> {
    for row in &ROWS {
        let mut devices = stored_as(rt.alloc(), row.generation, row.clean, row.dirty)?;
        let before = roots(&mut devices.metadata);
        let (mut devices, refusal) = opened(rt.alloc(), devices);
        assert!(rt; stays(&mut devices, before, rt.alloc()) == refusal.is_some());
    }
    Ok(())
}
