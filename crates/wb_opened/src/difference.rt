//! In what the files of a table differ from those that its metadata were formatted for.

ghost use Rattle.std.specs.Prelude.{◌≡◌};

use std::fmt;
use std::fmt::{Display, Formatter};
use wb_devices::Devices;
use wb_disk::Disk;
use wb_format::Root;
use wb_types::{Content, SECTOR_BYTES};

/// A size that differs, in sectors: what it was when the metadata were formatted, and what it is.
#[derive(Clone, Copy)]
pub struct Difference {
    part: Part,
    formatted: u64,
    found: u64,
}

/// Which size it is.
#[derive(Clone, Copy)]
enum Part {
    Block,
    Cache,
    Origin,
    Metadata,
}

/// The first of these by which the newest root is none of the devices: the sizes of the block, the cache, the origin and the metadata. None
/// where there is no root, or it differs in none of them.
pub(crate) fn find_difference<D: Disk>(devices: &mut Devices<D>, block: u64) -> Option<Difference> {
    let root = newest_root(&mut devices.metadata)?;
    let formatted = root.geometry;
    let of_block = u64::from(formatted.block);
    let parts = [
        (Part::Block, of_block, block),
        (
            Part::Cache,
            of_block * u64::from(formatted.cache_blocks),
            devices.cache.sectors(),
        ),
        (
            Part::Origin,
            formatted.origin_sectors(),
            devices.origin.sectors(),
        ),
        (
            Part::Metadata,
            u64::from(formatted.meta_sectors),
            devices.metadata.sectors(),
        ),
    ];
    for (part, formatted, found) in parts {
        if formatted != found {
            return Some(Difference {
                part,
                formatted,
                found,
            });
        }
    }
    None
}

/// The root of the greatest generation that a metadata device has.
fn newest_root<D: Disk>(metadata: &mut D) -> Option<Root> {
    let (first, second) = (root_at(metadata, 0), root_at(metadata, 1));
    match (first, second) {
        (Some(first), Some(second)) if first.generation < second.generation => Some(second),
        (None, second) => second,
        (first, _) => first,
    }
}

fn root_at<D: Disk>(metadata: &mut D, slot: u64) -> Option<Root> {
    if slot >= metadata.sectors() {
        return None;
    }
    let mut content: Content = [0; SECTOR_BYTES];
    match metadata.read(slot, &mut content) {
        Ok(()) => Root::read(&content),
        Err(_) => None,
    }
}

impl Display for Difference {
    fn fmt<W: fmt::Write>(&self, f: &mut Formatter<W>) -> fmt::Result {
        let (formatted, found) = (self.formatted, self.found);
        match self.part {
            Part::Block => write!(
                f,
                "the metadata were formatted for blocks of {formatted} sectors, and not of {found}"
            ),
            Part::Cache => write!(
                f,
                "the metadata were formatted for a cache of {formatted} sectors, and it has {found}"
            ),
            Part::Origin => write!(
                f,
                "the metadata were formatted for an origin of {formatted} sectors, and it has {found}"
            ),
            Part::Metadata => write!(
                f,
                "the metadata were formatted on {formatted} sectors, and have {found}"
            ),
        }
    }
}
