//! A device of which one step fails.

ghost use Rattle.std.specs.Prelude.{◌≡◌};
ghost use Rattle.wb_types.specs.declared.version.Version.TheVariants.{One};

use super::put;
use std::alloc::Global;
use std::process::Abort;
use std::test::Fail;
use wb_disk::MemDisk;
use wb_faults::FaultDisk;
use wb_meta::{format, read_state};
use wb_types::{Content, Dev, Geometry, Refusal};

/// A disk in memory of which one call fails.
type Failing = FaultDisk<MemDisk>;

/// A root of generation 1 of a device of 8 sectors: blocks of 64 sectors, 40 on the cache and 40 on the origin, top node at 4.
fn root_sector() -> Content {
    let mut content = [0; 512];
    content[..8].copy_from_slice(b"WBCROOT1");
    content[8] = 1;
    content[16] = 1;
    content[20] = 1;
    content[24] = 64;
    content[28] = 40;
    content[32] = 40;
    content[36] = 8;
    content[40] = 4;
    content
}

/// A node of generation 1 by its level, its index, the low bytes of its first two words and the origin block in
/// the second.
fn node_sector(level: u8, index: u8, words: [u8; 2], origin: u8) -> Content {
    let mut content = [0; 512];
    content[..8].copy_from_slice(b"WBCNODE1");
    content[8] = 1;
    content[16] = level;
    content[20] = index;
    content[32] = words[0];
    content[40] = words[1];
    content[42] = origin;
    content
}

/// The sectors of a device where cache block 0 holds origin block 0, and 33 holds 7: no root, a root of generation 1,
/// a leaf at 2, one at 3, the top at 4.
fn good_sector(at: u64) -> Content {
    match at {
        1 => root_sector(),
        2 => node_sector(1, 0, [1, 0], 0),
        3 => node_sector(1, 1, [0, 1], 7),
        4 => node_sector(2, 0, [2, 3], 0),
        _ => [0; 512],
    }
}

/// How many nodes are read of a good device of which one read fails, and how many reads there were.
fn read(alloc: Global, fails_at: u64) -> Result<(Result<usize, Refusal>, u64), Refusal> {
    let mut inside = MemDisk::new(alloc, 8)?;
    for at in 0..8 {
        put(&mut inside, at, &good_sector(at))?;
    }
    let mut disk = FaultDisk::new(inside, Some(fails_at));
    let answer = match read_state(alloc, alloc, &mut disk) {
        Ok(state) => Ok(state.used.len()),
        Err(refusal) => Err(refusal),
    };
    Ok((answer, disk.calls()))
}

#[test]
fn a_failed_read_is_the_last(rt: HostRuntime) -> Result<(), Fail> {
    for fails_at in 0..5 {
        let refused = Err(Refusal::Io(Dev::Metadata));
        assert!(rt; read(rt.alloc(), fails_at)? == (refused, fails_at + 1));
    }
    assert!(rt; read(rt.alloc(), 5)? == (Ok(3), 5));
    Ok(())
}

/// Whether a device is formatted: its mapping is empty and clean, of the first generation.
fn is_formatted(alloc: Global, disk: &mut Failing) -> bool {
    match read_state(alloc, alloc, disk) {
        Ok(state) => state.root.generation == 0 && state.root.clean && state.used.len() == 0,
        Err(_) => false,
    }
}

/// Whether a formatting ends at the step that fails, so many behind the first, and is done when it is repeated.
fn is_repeated(alloc: Global, disk: &mut Failing, geometry: &Geometry, fails_at: u64) -> bool
    requires { geometry.now.version ≡ One }
{
    format(disk, geometry) == Err(Refusal::Io(Dev::Metadata))
        && disk.calls().checked_sub(1) == Some(fails_at)
        && format(disk, geometry).is_ok()
        && is_formatted(alloc, disk)
}

/// Whether a formatting is so, of which one of five steps fails, or is done where none does.
fn is_so(alloc: Global, fails_at: u64) -> Result<bool, Refusal> {
    let geometry = Geometry::new(64, 4, 10, 4)?;
    let mut disk = FaultDisk::new(MemDisk::new(alloc, 4)?, Some(fails_at));
    Ok(goes(alloc, &mut disk, &geometry, fails_at))
}

fn goes(alloc: Global, disk: &mut Failing, geometry: &Geometry, fails_at: u64) -> bool
    requires { geometry.now.version ≡ One }
{
    if fails_at < 5 {
        is_repeated(alloc, disk, geometry, fails_at)
    } else {
        format(disk, geometry).is_ok() && disk.calls() == 5
    }
}

#[test]
fn a_formatting_that_failed_is_repeated(rt: HostRuntime) -> Result<(), Fail> {
    for fails_at in 0..6 {
        assert!(rt; is_so(rt.alloc(), fails_at)?);
    }
    Ok(())
}
