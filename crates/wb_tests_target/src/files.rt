//! A target as that of the fixture, over files, which each client opens for itself.

use std::fs;
use std::sync::Wait;
use std::test::Fail;
use wb_devices::Devices;
use wb_disk::FileDisk;
use wb_meta::format;
use wb_policy::TinyLfu;
use wb_target::{Client, Target};
use wb_types::{Geometry, Mode, Refusal, SECTOR_BYTES};

pub type Images = Devices<FileDisk>;

/// The files of a metadata, a cache and an origin device.
pub type Names = [&'static str; 3];

/// Makes the files, of zeros, and formats the metadata.
pub fn make(rt: &HostRuntime, names: &Names) -> Result<(), Fail> {
    write_zeros(rt, names[0], 4)?;
    write_zeros(rt, names[1], 256)?;
    write_zeros(rt, names[2], 640)?;
    let mut metadata = FileDisk::open(rt, names[0])?;
    format(&mut metadata, &Geometry::new(64, 4, 10, 4)?)?;
    Ok(())
}

fn write_zeros(rt: &HostRuntime, name: &str, sectors: u16) -> Result<(), Fail> {
    let zeros = vec![in rt.alloc(); 0u8; usize::from(sectors) * SECTOR_BYTES]?;
    fs::write(rt, name, zeros.as_slice())?;
    Ok(())
}

/// Opens them once more.
pub fn images(rt: &HostRuntime, names: &Names) -> Result<Images, Fail> {
    Ok(Devices {
        metadata: FileDisk::open(rt, names[0])?,
        cache: FileDisk::open(rt, names[1])?,
        origin: FileDisk::open(rt, names[2])?,
    })
}

/// A target over files that are made for it.
pub fn target_over(rt: &HostRuntime, names: &Names) -> Result<Target<TinyLfu>, Fail> {
    make(rt, names)?;
    let (_, target) = Target::open(
        rt.alloc(),
        images(rt, names)?,
        64,
        Mode::Writeback,
        &[],
        false,
    );
    Ok(target?)
}

/// A client over these images.
pub fn client_over<'t>(
    rt: &impl Wait,
    target: &'t Target<TinyLfu>,
    images: Images,
) -> Result<Client<'t, FileDisk, TinyLfu>, Refusal> {
    match target.client(rt, images) {
        Ok(client) => Ok(client),
        Err((_, refusal)) => Err(refusal),
    }
}
