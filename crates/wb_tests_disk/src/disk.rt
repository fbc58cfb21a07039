//! What no contract says: that memory and files serve, and what a file that fails leaves.

mod crash;
mod failed_sync;
mod fake_file;
mod file;
mod memory;
mod sparing;

use wb_disk::{Disk, DiskFault};
use wb_types::Content;

/// Writes a sector full of one byte; a fault too where there is no such sector.
fn put(disk: &mut impl Disk, at: u64, byte: u8) -> Result<(), DiskFault> {
    if at >= disk.sectors() {
        return Err(DiskFault);
    }
    disk.write(at, &[byte; 512])
}

/// The byte that a sector is full of; a fault where it is not, or where there is no such sector.
fn got(disk: &mut impl Disk, at: u64) -> Result<u8, DiskFault> {
    let mut content = [0u8; 512];
    if at >= disk.sectors() {
        return Err(DiskFault);
    }
    disk.read(at, &mut content)?;
    if content == [content[0]; 512] {
        Ok(content[0])
    } else {
        Err(DiskFault)
    }
}

/// Writes an extent; a fault too where the disk has not all its sectors.
fn put_extent(disk: &mut impl Disk, first: u64, from: &[Content]) -> Result<(), DiskFault> {
    let Some(end) = first.checked_add(from.len() as u64) else {
        return Err(DiskFault);
    };
    if end > disk.sectors() {
        return Err(DiskFault);
    }
    disk.write_extent(first, from)
}

/// Reads an extent: a fault too where the disk has not all its sectors.
fn get_extent(disk: &mut impl Disk, first: u64, out: &mut [Content]) -> Result<(), DiskFault> {
    let Some(end) = first.checked_add(out.len() as u64) else {
        return Err(DiskFault);
    };
    if end > disk.sectors() {
        return Err(DiskFault);
    }
    disk.read_extent(first, out)
}

/// A step of a test: a sector is filled with a byte, is found full of one, or all sectors are synced.
#[derive(Clone, Copy)]
enum Step {
    Put(u64, u8),
    Got(u64, u8),
    Synced,
}

/// Whether each of these steps is done, and finds what it says.
fn are_done(disk: &mut impl Disk, steps: &[Step]) -> bool {
    for step in steps {
        let is_done = match *step {
            Step::Put(at, byte) => put(disk, at, byte).is_ok(),
            Step::Got(at, byte) => matches!(got(disk, at), Ok(found) if found == byte),
            Step::Synced => disk.sync().is_ok(),
        };
        if !is_done {
            return false;
        }
    }
    true
}
