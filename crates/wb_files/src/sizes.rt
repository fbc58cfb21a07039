//! Which size of a target is outside its limits.

ghost use Rattle.std.specs.Prelude.{◌<◌};

use std::fmt;
use std::fmt::{Display, Formatter};
use wb_types::{Dev, Geometry, Version};

/// The most sectors of a metadata device.
const MOST_METADATA: u64 = 4_294_967_295;

/// A size outside the limits, and the limit.
#[derive(Clone, Copy)]
pub enum SizeFault {
    /// The sectors are no whole number of blocks of this many.
    PartOfABlock {
        device: Dev,
        sectors: u64,
        block: u64,
    },
    /// So many blocks, where 1 to `most` are taken.
    Blocks {
        device: Dev,
        blocks: u64,
        most: u64,
    },
    /// So many sectors of metadata, where these are the limits.
    Metadata {
        sectors: u64,
        least: u64,
    },
}

/// The first size of these, in sectors, for which a target is refused: the cache, the origin, the metadata.
pub fn find_size_fault(
    block: u64,
    metadata: u64,
    cache: u64,
    origin: u64,
    metadata2: bool,
) -> SizeFault
    requires { 0 < block }
{
    for (device, sectors, most) in [
        (Dev::Cache, cache, 1_048_575),
        (Dev::Origin, origin, 1_048_576),
    ] {
        if sectors % block != 0 {
            return SizeFault::PartOfABlock {
                device,
                sectors,
                block,
            };
        }
        let blocks = sectors / block;
        if blocks == 0 || blocks > most {
            return SizeFault::Blocks {
                device,
                blocks,
                most,
            };
        }
    }
    SizeFault::Metadata {
        sectors: metadata,
        least: least_metadata(block, cache / block, metadata2),
    }
}

/// The least sectors of metadata of this version for so many cache blocks.
fn least_metadata(block: u64, cache_blocks: u64, metadata2: bool) -> u64 {
    let version = Version::asked(metadata2).number();
    match Geometry::with_version(block, cache_blocks, 1, MOST_METADATA, version) {
        Ok(geometry) => 2 + u64::from(geometry.node_count()) + u64::from(geometry.most_nodes(true)),
        Err(_) => 4 + u64::from(metadata2),
    }
}

impl Display for SizeFault {
    fn fmt<W: fmt::Write>(&self, f: &mut Formatter<W>) -> fmt::Result {
        match self {
            SizeFault::PartOfABlock {
                device,
                sectors,
                block,
            } => write!(
                f,
                "{device}: {sectors} sectors are no whole number of blocks of {block}"
            ),
            SizeFault::Blocks {
                device,
                blocks,
                most,
            } => write!(
                f,
                "{device}: it has {blocks} whole blocks, and takes 1 to {most}"
            ),
            SizeFault::Metadata { sectors, least } => write!(
                f,
                "metadata: it has {sectors} sectors, and takes {least} to {MOST_METADATA} for this cache"
            ),
        }
    }
}
