//! Requests over a file by a client's port, of which nothing is cached.

ghost use Rattle.std.specs.Prelude.{◌≡◌, ◌≤◌};

use crate::asked::{Direction, Requests};
use std::alloc::Global;
use std::fs::File;
use std::rt::Files;
use wb_devices::Devices;
use wb_disk::{Disk, FileDisk};
use wb_port::{Port, Seat, Seats, UNSETTLED};
use wb_types::{Geometry, Mode, SECTOR_BYTES, Sector};

/// A block has a multiple of so many sectors.
const BLOCK_UNIT: u64 = 64;

/// The most blocks that a run goes over.
const MOST_BLOCKS: u64 = 1_048_576;

/// A port over the file, for blocks that hold a request each, and the seats that its own was taken from. The other two devices are
/// the same file, and are left alone.
pub fn port_over<R: Files<File = File> + AllocGlobal>(
    rt: &R,
    asked: &Requests<'_>,
) -> Result<(Seats, Port<FileDisk>), &'static str>
    requires { asked.now.sectors ≤ 2048 }
{
    let alloc = rt.alloc();
    let origin = opened(rt, asked)?;
    let size = block_size(asked.sectors);
    let blocks = (origin.sectors() / size).min(MOST_BLOCKS);
    let Ok(geometry) = Geometry::new(size, 1, blocks, 4) else {
        return Err("the file has no whole block");
    };
    let devices = Devices {
        metadata: opened(rt, asked)?,
        cache: opened(rt, asked)?,
        origin,
    };
    let Ok(seat) = Seat::new(alloc, geometry) else {
        return Err("out of memory");
    };
    let Ok(mut seats) = Seats::new(alloc, seat, 1) else {
        return Err("out of memory");
    };
    let Some(seat) = seats.take() else {
        return Err("no seat is left");
    };
    match Port::new(alloc, seat, Mode::Writeback, devices) {
        Ok(port) => Ok((seats, port)),
        Err((seat, _)) => {
            seats.give_back(seat);
            Err("out of memory")
        }
    }
}

fn opened<R: Files<File = File>>(rt: &R, asked: &Requests<'_>) -> Result<FileDisk, &'static str> {
    FileDisk::open(rt, asked.file).map_err(|_| "the file cannot be opened")
}

/// Sectors of the least block that holds a request of so many.
fn block_size(sectors: u64) -> u64
    requires { sectors ≤ 2048 }
    ensures holds { sectors ≤ result }
    ensures some { 64 ≤ result }
    ensures few { result ≤ 2048 }
{
    sectors.max(1).div_ceil(BLOCK_UNIT) * BLOCK_UNIT
}

/// Ends a port, and all seats with its own.
pub fn end(seats: Seats, port: Port<FileDisk>) {
    let mut seats = seats;
    let (seat, _) = port.leave();
    seats.give_back(seat);
}

/// Drives all requests, one block after the other; None where one is not answered done.
pub fn drive_all(alloc: Global, asked: &Requests<'_>, port: &mut Port<FileDisk>) -> Option<u64>
    requires { asked.now.sectors ≤ 2048 }
{
    let (size, blocks) = (port.geometry.block, port.geometry.origin_blocks);
    let mut contents = vec![in alloc; [0x5a; SECTOR_BYTES]; asked.sectors as usize].ok()?;
    for number in 0..asked.requests {
        let block = (number % u64::from(blocks)) as u32;
        let at = Sector(u64::from(block) * u64::from(size));
        match asked.direction {
            Direction::Read => port.try_read(at, contents.as_mut_slice()).ok()?,
            Direction::Write => port.try_write(at, contents.as_slice()).ok()?,
        }
        if port.accesses.len() >= UNSETTLED {
            port.accesses.clear();
        }
    }
    Some(asked.requests)
}
