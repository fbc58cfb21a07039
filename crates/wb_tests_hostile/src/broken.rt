//! Devices in memory, one of which stops or fails at a call.

use std::alloc::Global;
use wb_devices::Devices;
use wb_disk::{Disk, MemDisk};
use wb_faults::FaultDisk;
use wb_meta::format;
use wb_types::{Content, Dev, Geometry, Refusal, SECTOR_BYTES};

pub type Memory = Devices<MemDisk>;

/// Such devices, which may fail.
pub type Broken = Devices<FaultDisk<MemDisk>>;

/// A call of a device, by its number counted from 0, that fails alone or stops the device.
#[derive(Clone, Copy)]
pub struct Call {
    pub device: Dev,
    pub number: u64,
    pub stops: bool,
}

impl Call {
    fn over(self, device: Dev, inside: MemDisk) -> FaultDisk<MemDisk> {
        let number = (self.device == device).then_some(self.number);
        if self.stops {
            FaultDisk::stopping(inside, number)
        } else {
            FaultDisk::new(inside, number)
        }
    }
}

/// These devices, of which the one of this call fails there.
pub fn break_at(memory: Memory, call: Call) -> Broken {
    Devices {
        metadata: call.over(Dev::Metadata, memory.metadata),
        cache: call.over(Dev::Cache, memory.cache),
        origin: call.over(Dev::Origin, memory.origin),
    }
}

/// Whether one of them has failed.
pub fn has_failed(devices: &Broken) -> bool {
    devices.metadata.has_failed() || devices.cache.has_failed() || devices.origin.has_failed()
}

/// What they hold in memory.
pub fn mended(devices: Broken) -> Memory {
    Devices {
        metadata: devices.metadata.into_inner(),
        cache: devices.cache.into_inner(),
        origin: devices.origin.into_inner(),
    }
}

/// What a sector holds that begins with these.
pub fn begun_with(first: u8, second: u8) -> Content {
    let mut content = [0; SECTOR_BYTES];
    content[0] = first;
    content[1] = second;
    content
}

/// Devices of an empty cache of four blocks over an origin of ten, of 64 sectors each. Each sector of the origin tells its block, from 0x80
/// on, and where it lies there.
pub fn formatted(alloc: Global) -> Result<Memory, Refusal> {
    let geometry = Geometry::new(64, 4, 10, 4)?;
    let mut metadata = MemDisk::new(alloc, 4)?;
    format(&mut metadata, &geometry)?;
    Ok(Devices {
        metadata,
        cache: MemDisk::new(alloc, 256)?,
        origin: filled(MemDisk::new(alloc, 640)?)?,
    })
}

fn filled(disk: MemDisk) -> Result<MemDisk, Refusal> {
    let mut disk = disk;
    for block in 0..10_u8 {
        for k in 0..64_u8 {
            let at = 64 * u64::from(block) + u64::from(k);
            if at < disk.sectors() && disk.write(at, &begun_with(0x80 | block, k)).is_err() {
                return Err(Refusal::Io(Dev::Origin));
            }
        }
    }
    match disk.sync() {
        Ok(()) => Ok(disk),
        Err(_) => Err(Refusal::Io(Dev::Origin)),
    }
}
