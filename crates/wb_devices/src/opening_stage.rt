//! Where openings are performed.

ghost use Rattle.std.specs.Prelude.{◌≡◌, ℕ};
ghost use Rattle.wb_devices.specs.Openings.{MayGoOn, HasNotBegun};

use crate::devices::Devices;
use crate::opening::Opening;
use std::alloc::Global;
use wb_disk::Disk;
use wb_types::{Geometry, Mode};

/// Where an opening is performed: three devices, and what was read of the metadata. When the opening is answered done, the
/// state that was read is in it, for a desk over it. An opening in passthrough is refused where the metadata are not clean.
#[derive(Drop)]
pub struct OpeningStage<D> {
    pub devices: Devices<D>,
    pub opening: Opening,
    pub mode: Mode,
}

impl<D: Disk> OpeningStage<D> {
    /// A stage over devices of which nothing was read, for openings in this mode. This geometry is asked for of the metadata.
    pub fn new(
        alloc: Global,
        devices: Devices<D>,
        geometry: Geometry,
        mode: Mode,
    ) -> OpeningStage<D>
        ensures devices { result.devices ≡ devices }
        ensures geometry { result.opening.geometry ≡ geometry }
        ensures mode { result.mode ≡ mode }
        ensures goes_on { (sectors : ℕ) → MayGoOn sectors result.opening }
        ensures begins { HasNotBegun result.opening }
    {
        OpeningStage {
            devices,
            opening: Opening::new(alloc, geometry),
            mode,
        }
    }
}
