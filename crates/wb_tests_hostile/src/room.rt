//! Room for a write, which a disk in memory makes beforehand.

use std::test::Fail;
use wb_disk::{Disk, MemDisk};
use wb_types::{Dev, Refusal};

/// Writes a sector for which there is room.
fn write_with_room(disk: &mut MemDisk, at: u64, byte: u8) -> Result<(), Refusal> {
    if at >= disk.sectors() {
        return Err(Refusal::Range);
    }
    disk.room(at)?;
    match disk.write(at, &[byte; 512]) {
        Ok(()) => Ok(()),
        Err(_) => Err(Refusal::Io(Dev::Origin)),
    }
}

/// Whether each of two sectors is written four times so, without a fault.
fn is_written_with_room(disk: &mut MemDisk) -> Result<bool, Refusal> {
    for byte in 1..5_u8 {
        for at in 0..2_u64 {
            write_with_room(disk, at, byte)?;
        }
    }
    Ok(disk.faults() == 0)
}

fn answered(made: Result<MemDisk, Refusal>) -> Result<bool, Refusal> {
    let mut disk = made?;
    is_written_with_room(&mut disk)
}

#[test]
fn room_is_made_where_there_is_memory(rt: HostRuntime) -> Result<(), Fail> {
    assert!(rt; answered(MemDisk::new(rt.alloc(), 2))?);
    Ok(())
}
