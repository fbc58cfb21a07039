//! Metadata that were left clean or not, with blocks that are cached.

use crate::fixture::{Memory, formatted};
use std::alloc::Global;
use wb_disk::{Disk, MemDisk};
use wb_format::Root;
use wb_types::{Content, Dev, Geometry, Place, Refusal, SECTOR_BYTES, Version};

/// Devices whose newest root, of this odd generation, with or without the clean flag, names a leaf of four blocks, the first of which is dirty or not.
pub fn stored_as(
    alloc: Global,
    generation: u64,
    clean: bool,
    dirty: bool,
) -> Result<Memory, Refusal> {
    let mut devices = formatted(alloc)?;
    let root = Root {
        generation,
        version: Version::One,
        clean,
        geometry: Geometry::new(64, 4, 10, 4)?,
        top: Some(Place(2)),
        top_dirty: None,
    };
    let mut leaf = leaf();
    if dirty {
        leaf[32] |= 2;
    }
    put(&mut devices.metadata, 2, &leaf)?;
    let mut content = [0; SECTOR_BYTES];
    root.write(&mut content);
    put(&mut devices.metadata, 1, &content)?;
    Ok(devices)
}

/// The front of a leaf whose first four cache blocks hold the origin blocks of their numbers: clean, with hints 5, 2, 5, 0. A word has a
/// bit for its entry, the hint from bit 4 on and the block from bit 16 on.
const LEAF: &[u8; 59] =
    b"WBCNODE1\x01\0\0\0\0\0\0\0\x01\0\0\0\0\0\0\0\0\0\0\0\0\0\0\0\x51\0\0\0\0\0\0\0\x21\0\x01\0\0\0\0\0\x51\0\x02\0\0\0\0\0\x01\0\x03";

fn leaf() -> Content {
    let mut content = [0; SECTOR_BYTES];
    content[..LEAF.len()].copy_from_slice(LEAF);
    content
}

fn put(disk: &mut MemDisk, at: u64, content: &Content) -> Result<(), Refusal> {
    if at >= disk.sectors() || disk.write(at, content).is_err() {
        return Err(Refusal::Io(Dev::Metadata));
    }
    Ok(())
}
