//! What an opening reads of the metadata, and the root that it writes.

ghost use Rattle.std.specs.Prelude.{◌≡◌, ℕ};
ghost use Rattle.wb_devices.specs.Openings.{MayGoOn, HasNotBegun};

use crate::running::RunningCommit;
use std::alloc::Global;
use wb_meta::ReadSteps;
use wb_types::Geometry;

/// An opening where metadata of this geometry are asked for: a reading by `ReadSteps`, and then the commit of the next root, or of the image
/// by which metadata of the first version become those of the second.
#[derive(Drop)]
pub struct Opening {
    pub geometry: Geometry,
    pub alloc: Global,
    /// How far the reading is; none once it was refused or has failed.
    pub reading: Option<ReadSteps<Global>>,
    /// The root that is written, and a converted image before it, once all was read.
    pub commit: Option<RunningCommit>,
}

impl Opening {
    /// An opening that has read nothing.
    pub fn new(alloc: Global, geometry: Geometry) -> Opening
        ensures geometry { result.geometry ≡ geometry }
        ensures goes_on { (sectors : ℕ) → MayGoOn sectors result }
        ensures begins { HasNotBegun result }
    {
        Opening {
            geometry,
            alloc,
            reading: Some(ReadSteps::new(alloc, alloc)),
            commit: None,
        }
    }
}
