//! A root that names a tree of dirty bits.

use wb_format::Root;
use wb_types::{Content, SECTOR_BYTES};

/// Puts bytes into a sector from here on, as far as it goes.
fn put(sector: &mut Content, at: usize, bytes: &[u8]) {
    let mut rest = at;
    for byte in bytes {
        if rest < SECTOR_BYTES {
            sector[rest] = *byte;
            rest += 1;
        }
    }
}

/// The clean root of generation 3 of so many cache blocks, 4,096 origin blocks, 8,000 metadata sectors and an empty mapping, whose dirty bits have
/// their top here, if anywhere.
pub fn root_of(cache_blocks: u32, top_dirty: u32) -> Option<Root> {
    let mut sector = [0; SECTOR_BYTES];
    put(&mut sector, 0, b"WBCROOT1");
    put(&mut sector, 8, &[3]);
    put(&mut sector, 16, &[2]);
    put(&mut sector, 20, &[1]);
    put(&mut sector, 24, &[64]);
    put(&mut sector, 28, &cache_blocks.to_le_bytes());
    put(&mut sector, 32, &4096u32.to_le_bytes());
    put(&mut sector, 36, &8000u32.to_le_bytes());
    put(&mut sector, 44, &top_dirty.to_le_bytes());
    Root::read(&sector)
}
