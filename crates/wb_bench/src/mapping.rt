//! A metadata device that holds a full mapping, and the reading of it, to be timed.
//!
//! The sectors are spelled here by hand, so that what is read was made by nothing of the code that reads it.

ghost use Rattle.std.specs.Prelude.{◌≤◌};

use std::alloc::Global;
use wb_disk::{Disk, FileDisk};
use wb_meta::read_state;
use wb_types::{Content, Dev, Geometry, Refusal, SECTOR_BYTES};

/// Words of a node.
const WORDS: u64 = 32;

/// Writes a mapping of so many cache blocks, each of which holds the origin block of its number: gives the number of
/// its nodes. `Geometry` where no cache has so many blocks, or not on so many sectors, and `Io` where the file fails.
pub fn write_mapping(disk: &mut FileDisk, cache_blocks: u32) -> Result<u64, Refusal> {
    let geometry = Geometry::new(64, u64::from(cache_blocks), 1_048_576, disk.sectors())?;
    let mut below = Row {
        level: 0,
        first: 0,
        count: cache_blocks,
    };
    for level in 1..geometry.depth() + 1 {
        let row = Row {
            level,
            first: if level == 1 { 2 } else { below.end() },
            count: below.count.div_ceil(32),
        };
        for index in 0..row.count {
            put(
                disk,
                row.first.saturating_add(u64::from(index)),
                &node_content(&below, u64::from(index)),
            )?;
        }
        below = row;
    }
    put(disk, 0, &[0; SECTOR_BYTES])?;
    put(disk, 1, &root_content(&geometry, below.first))?;
    disk.sync().map_err(|_| Refusal::Io(Dev::Metadata))?;
    Ok(below.end().saturating_sub(2))
}

/// Reads what a metadata device stands for, and gives the number of its nodes. The refusals are those of the reading.
pub fn read_mapping(alloc: Global, disk: &mut FileDisk) -> Result<u64, Refusal> {
    let state = read_state(alloc, alloc, disk)?;
    Ok(state.used.len() as u64)
}

/// The nodes of a level, which stand one behind another; the cache blocks are those of level 0.
#[derive(Clone, Copy)]
struct Row {
    level: u32,
    /// The place of the first of them.
    first: u64,
    count: u32,
}

impl Row {
    /// The place behind the last of them.
    fn end(&self) -> u64 {
        self.first.saturating_add(u64::from(self.count))
    }

    /// The word that names one of them.
    fn word(&self, number: u64) -> u64 {
        if number >= u64::from(self.count) {
            0
        } else if self.level == 0 {
            number.wrapping_mul(0x1_0000).wrapping_add(1)
        } else {
            self.first.saturating_add(number)
        }
    }
}

/// The node of this index above a row.
fn node_content(below: &Row, index: u64) -> Content {
    let mut content = [0; SECTOR_BYTES];
    put_number(&mut content, 0, u64::from_le_bytes(*b"WBCNODE1"));
    put_number(&mut content, 8, 1);
    let level = u64::from(below.level).wrapping_add(1);
    put_number(
        &mut content,
        16,
        level.wrapping_add(index.wrapping_mul(1 << 32)),
    );
    for j in 0..32 {
        let number = index.wrapping_mul(WORDS).wrapping_add(j as u64);
        put_number(&mut content, 32 + 8 * j, below.word(number));
    }
    content
}

/// The root of generation 1 in the second slot.
fn root_content(geometry: &Geometry, top: u64) -> Content {
    let mut content = [0; SECTOR_BYTES];
    put_number(&mut content, 0, u64::from_le_bytes(*b"WBCROOT1"));
    put_number(&mut content, 8, 1);
    put_number(&mut content, 16, 1);
    put_number(&mut content, 24, u64::from(geometry.block));
    put_number(&mut content, 28, u64::from(geometry.cache_blocks));
    put_number(&mut content, 32, u64::from(geometry.origin_blocks));
    put_number(&mut content, 36, u64::from(geometry.meta_sectors));
    put_number(&mut content, 40, top);
    content
}

/// Writes a number, the low byte first.
fn put_number(content: &mut Content, at: usize, number: u64)
    requires { at ≤ 504 }
{
    content[at..at + 8].copy_from_slice(&number.to_le_bytes());
}

fn put(disk: &mut FileDisk, at: u64, content: &Content) -> Result<(), Refusal> {
    if at >= disk.sectors() || disk.write(at, content).is_err() {
        return Err(Refusal::Io(Dev::Metadata));
    }
    Ok(())
}
