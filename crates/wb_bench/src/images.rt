//! Images of metadata devices in a file, and what is read of each.
//!
//! They stand one behind the other: a sector whose first two bytes say how many sectors the device has, the lower first, and then those.

ghost use Rattle.std.specs.Prelude.{◌≡◌, length};

use std::alloc::Global;
use wb_disk::{Disk, FileDisk, MemDisk};
use wb_meta::{State, read_state};
use wb_types::{CBlock, Dev, Entry, Refusal, SECTOR_BYTES};

/// What an image stands for: its generation, whether it was left clean, its nodes, and a sum over its entries.
#[derive(Clone, Copy)]
pub struct Read {
    pub generation: u64,
    pub clean: bool,
    pub nodes: usize,
    pub sum: u64,
}

/// What the image that begins with this sector stands for, and the sector behind it. The refusals are those of the reading, and `Io` where the
/// file fails.
pub fn read_image(alloc: Global, file: &mut FileDisk, first: u64) -> (Result<Read, Refusal>, u64) {
    let mut content = [0; SECTOR_BYTES];
    if let Err(refusal) = take(file, first, &mut content) {
        return (Err(refusal), u64::MAX);
    }
    let many = u64::from(u16::from_le_bytes([content[0], content[1]]));
    let begin = first.saturating_add(1);
    (
        read_device(alloc, file, begin, many),
        begin.saturating_add(many),
    )
}

/// What a device stands for that has these sectors of the file.
fn read_device(alloc: Global, file: &mut FileDisk, begin: u64, many: u64) -> Result<Read, Refusal> {
    let mut content = [0; SECTOR_BYTES];
    let mut disk = MemDisk::new(alloc, many)?;
    for at in 0..many {
        take(file, begin.saturating_add(at), &mut content)?;
        if at >= disk.sectors() || disk.write(at, &content).is_err() {
            return Err(Refusal::Memory);
        }
    }
    let state = read_state(alloc, alloc, &mut disk)?;
    Ok(summed(&state))
}

fn take(file: &mut FileDisk, at: u64, content: &mut [u8; SECTOR_BYTES]) -> Result<(), Refusal> {
    if at >= file.sectors() || file.read(at, content).is_err() {
        return Err(Refusal::Io(Dev::Metadata));
    }
    Ok(())
}

/// What is told of a state. Its tree has the entries of its root's geometry.
fn summed(state: &State<Global>) -> Read
    requires { state.now.root.geometry.cache_blocks ≡ length state.now.tree.entries }
{
    let mut sum = 0u64;
    for block in 0..state.root.geometry.cache_blocks {
        let entry = state.tree.get(CBlock(block));
        let is_dirty = match &state.dirty {
            Some(dirty) => dirty.has(block as usize),
            None => matches!(entry, Some(Entry { dirty: true, .. })),
        };
        sum = sum
            .wrapping_mul(31)
            .wrapping_add(number_of(entry, is_dirty));
    }
    Read {
        generation: state.root.generation,
        clean: state.root.clean,
        nodes: state.nodes,
        sum,
    }
}

/// An entry as a leaf of the first version has it: 0 for none.
fn number_of(entry: Option<Entry>, is_dirty: bool) -> u64 {
    match entry {
        Some(entry) => {
            let dirty = if is_dirty { 2 } else { 0 };
            1 + dirty + 16 * u64::from(entry.hint) + 65_536 * u64::from(entry.origin.0)
        }
        None => 0,
    }
}
