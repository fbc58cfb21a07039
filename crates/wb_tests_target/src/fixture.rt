//! A target of four cache blocks over an origin of ten, of 64 sectors each, in memory.

use std::alloc::Global;
use std::sync::Wait;
use wb_devices::Devices;
use wb_disk::{Disk, MemDisk};
use wb_meta::format;
use wb_policy::{Order, Policy, TinyLfu};
use wb_target::{Client, Target};
use wb_types::{Content, Geometry, Mode, Refusal, SECTOR_BYTES, Sector};

pub type Memory = Devices<MemDisk>;

pub type Lent<'t> = Client<'t, MemDisk, TinyLfu>;

/// Devices of zeros, of so many sectors.
pub fn zeros(alloc: Global, metadata: u64, cache: u64, origin: u64) -> Result<Memory, Refusal> {
    Ok(Devices {
        metadata: MemDisk::new(alloc, metadata)?,
        cache: MemDisk::new(alloc, cache)?,
        origin: MemDisk::new(alloc, origin)?,
    })
}

/// Devices whose metadata are formatted.
pub fn formatted(alloc: Global) -> Result<Memory, Refusal> {
    let mut devices = zeros(alloc, 4, 256, 640)?;
    format(&mut devices.metadata, &Geometry::new(64, 4, 10, 4)?)?;
    Ok(devices)
}

/// A target that is opened over devices.
pub fn open(alloc: Global, devices: Memory) -> Result<(Memory, Target<TinyLfu>), Refusal> {
    let (devices, target) = Target::open(alloc, devices, 64, Mode::Writeback, &[], false);
    Ok((devices, target?))
}

/// A client of it.
pub fn client_of<'t>(
    rt: &impl Wait,
    target: &'t Target<TinyLfu>,
    devices: Memory,
) -> Result<Client<'t, MemDisk, TinyLfu>, Refusal> {
    match target.client(rt, devices) {
        Ok(client) => Ok(client),
        Err((_, refusal)) => Err(refusal),
    }
}

/// Whether this is a target's status line.
pub fn tells(rt: &impl Wait, alloc: Global, target: &Target<TinyLfu>, wanted: &str) -> bool {
    let mut text = String::new(alloc);
    target.status(rt, &mut text).is_ok() && text.as_str() == wanted
}

/// A sector that begins with this byte.
pub fn begun_with(byte: u8) -> Content {
    let mut content = [0; SECTOR_BYTES];
    content[0] = byte;
    content
}

/// Whether a sector begins with this byte.
pub fn shows<D: Disk + Drop, P: Policy>(
    rt: &impl Wait,
    client: &mut Client<'_, D, P>,
    at: u64,
    byte: u8,
) -> bool {
    let mut out = [[0; SECTOR_BYTES]];
    client.read(rt, Sector(at), &mut out).is_ok() && out[0][0] == byte
}

/// Writes a sector and reads it, by which its block has two accesses.
pub fn write_and_read<D: Disk + Drop, P: Policy>(
    rt: &impl Wait,
    client: &mut Client<'_, D, P>,
    at: u64,
    byte: u8,
) -> bool {
    client.write(rt, Sector(at), &[begun_with(byte)]).is_ok() && shows(rt, client, at, byte)
}

/// What the order that waits longest was, once it is carried out.
pub fn worked<D: Disk + Drop, P: Policy>(
    rt: &impl Wait,
    client: &mut Client<'_, D, P>,
) -> Option<Order> {
    client.work_one(rt).unwrap_or(None)
}
