//! Disks of whose syncs somebody is told before they are made.

use wb_devices::Devices;
use wb_disk::{Disk, DiskFault};
use wb_types::{Content, Dev};

/// Who is told of each sync that comes, and may hold it.
pub trait Hook {
    /// A sync of this device comes.
    fn before_sync(&self, device: Dev);
}

/// A disk that does what the one inside does, and tells of each sync before it is made.
#[derive(Drop)]
pub struct Hooked<'h, D, H> {
    inside: D,
    device: Dev,
    hook: &'h H,
}

/// These devices, of whose syncs this hook is told.
pub fn with_hook<'h, D, H>(devices: Devices<D>, hook: &'h H) -> Devices<Hooked<'h, D, H>> {
    let Devices {
        metadata,
        cache,
        origin,
    } = devices;
    Devices {
        metadata: over(metadata, Dev::Metadata, hook),
        cache: over(cache, Dev::Cache, hook),
        origin: over(origin, Dev::Origin, hook),
    }
}

fn over<'h, D, H>(inside: D, device: Dev, hook: &'h H) -> Hooked<'h, D, H> {
    Hooked {
        inside,
        device,
        hook,
    }
}

impl<'h, D: Disk, H: Hook> Disk for Hooked<'h, D, H> {
    ghost tells = { D.tells };

    ghost size = { λ d. D.size d.inside };

    ghost contents = { λ d. D.contents d.inside };

    ghost faults = { λ d. D.faults d.inside };

    ghost falters = { λ d. D.falters d.inside };

    ghost fails = { λ d. D.fails d.inside };

    fn sectors(&self) -> u64 {
        self.inside.sectors()
    }

    fn read(&mut self, at: u64, out: &mut Content) -> Result<(), DiskFault> {
        self.inside.read(at, out)
    }

    fn write(&mut self, at: u64, from: &Content) -> Result<(), DiskFault> {
        self.inside.write(at, from)
    }

    fn read_extent(&mut self, first: u64, out: &mut [Content]) -> Result<(), DiskFault> {
        self.inside.read_extent(first, out)
    }

    fn write_extent(&mut self, first: u64, from: &[Content]) -> Result<(), DiskFault> {
        self.inside.write_extent(first, from)
    }

    fn sync(&mut self) -> Result<(), DiskFault> {
        self.hook.before_sync(self.device);
        self.inside.sync()
    }

    ghost whole = { λ d h. D.whole d.inside h };
}
