//! Devices that the system itself uses, and devices that are one and the same.

use std::alloc::{AllocError, Global};
use std::fmt::{Display, Formatter};
use std::fs::{File, Metadata};
use std::os::unix::fs::{FileTypeExt, MetadataExt};
use std::rt::Files;
use std::{fmt, fs};
use wb_table::Table;
use wb_types::Dev;

/// Where Linux lists what is mounted: its `proc(5)`.
const MOUNTS: &str = "/proc/self/mountinfo";

/// Where it lists swap space: its `proc(5)`.
const SWAPS: &str = "/proc/swaps";

/// How many devices may lie below one another: a partition of a loop device over a partition, and so on.
const MOST_BELOW: usize = 8;

/// What a path leads to.
#[derive(Clone, Copy, PartialEq, Eq)]
enum Identity {
    /// A block device, by its number, whichever node leads there.
    Block { major: u64, minor: u64 },
    /// A file, by its file system and its number there.
    Plain { device: u64, inode: u64 },
}

/// By whom a device is used.
#[derive(Drop)]
enum Use {
    /// A file system on it is mounted here.
    Mounted(String),
    Swap,
    /// Another device stands on it, as the device mapper's do.
    Held(String),
}

impl Identity {
    fn of(metadata: &Metadata) -> Identity {
        if metadata.file_type().is_block_device() {
            let (major, minor) = numbers_of(metadata.rdev());
            Identity::Block { major, minor }
        } else {
            Identity::Plain {
                device: metadata.dev(),
                inode: metadata.ino(),
            }
        }
    }

    /// What a path leads to; none where it leads nowhere.
    fn at<R: Files>(rt: &R, path: &str) -> Option<Identity> {
        let metadata = fs::metadata(rt, path).ok()?;
        Some(Identity::of(&metadata))
    }
}

/// The two numbers of a device, as `makedev(3)` of the GNU C library packs them.
fn numbers_of(device: u64) -> (u64, u64) {
    let major = (device >> 8) & 0xfff | (device >> 32) & 0xffff_f000;
    let minor = device & 0xff | (device >> 12) & 0xffff_ff00;
    (major, minor)
}

/// Whether the data of two devices lie on one another: they are the same, or one is a partition of the other, or lies on it as a loop
/// device does on its file.
fn overlap<R: Files<File = File> + AllocGlobal>(
    rt: &R,
    one: Identity,
    other: Identity,
) -> Result<bool, AllocError> {
    Ok(lies_on(rt, one, other)? || lies_on(rt, other, one)?)
}

/// Whether a device is another, or its data lie on that.
fn lies_on<R: Files<File = File> + AllocGlobal>(
    rt: &R,
    upper: Identity,
    lower: Identity,
) -> Result<bool, AllocError> {
    let mut at = upper;
    for _ in 0..MOST_BELOW {
        if at == lower {
            return Ok(true);
        }
        match below(rt, at)? {
            Some(next) => at = next,
            None => return Ok(false),
        }
    }
    Ok(false)
}

/// What a block device lies on: a partition on its disk, and a loop device on its file.
fn below<R: Files<File = File> + AllocGlobal>(
    rt: &R,
    identity: Identity,
) -> Result<Option<Identity>, AllocError> {
    let Identity::Block { major, minor } = identity else {
        return Ok(None);
    };
    let backing = format!(in rt.alloc(); "/sys/dev/block/{major}:{minor}/loop/backing_file")?;
    if let Ok(path) = fs::read_to_string(rt, backing.as_str()) {
        return Ok(Identity::at(rt, path.as_str().trim_end_matches('\n')));
    }
    let partition = format!(in rt.alloc(); "/sys/dev/block/{major}:{minor}/partition")?;
    if fs::metadata(rt, partition.as_str()).is_err() {
        return Ok(None);
    }
    let disk = format!(in rt.alloc(); "/sys/dev/block/{major}:{minor}/../dev")?;
    match fs::read_to_string(rt, disk.as_str()) {
        Ok(numbers) => Ok(read_numbers(numbers.as_str().trim())),
        Err(_) => Ok(None),
    }
}

/// Reads `<major>:<minor>`.
fn read_numbers(text: &str) -> Option<Identity> {
    let (major, minor) = text.split_once(':')?;
    Some(Identity::Block {
        major: major.parse().ok()?,
        minor: minor.parse().ok()?,
    })
}

/// By whom the system uses a device or file: a file system on it or on a part of it is mounted, it is swap space, or another device stands on
/// it. What the system does not tell is not known; so in a container.
fn find_use<R: Files<File = File> + AllocGlobal + Clone + Drop>(
    rt: &R,
    identity: Identity,
) -> Result<Option<Use>, AllocError> {
    if let Ok(mounts) = fs::read_to_string(rt, MOUNTS) {
        for line in mounts.as_str().lines() {
            if let Some((mounted, place)) = read_mount(rt, line) {
                if overlap(rt, mounted, identity)? {
                    return Ok(Some(Use::Mounted(owned(rt.alloc(), place)?)));
                }
            }
        }
    }
    if let Ok(swaps) = fs::read_to_string(rt, SWAPS) {
        for line in swaps.as_str().lines().skip(1) {
            let path = line.split(' ').next().unwrap_or("");
            if let Some(swap) = Identity::at(rt, path) {
                if overlap(rt, swap, identity)? {
                    return Ok(Some(Use::Swap));
                }
            }
        }
    }
    find_holder(rt, identity)
}

/// A line of `mountinfo`: the device that is mounted, and where. None where it is no block device.
fn read_mount<'t, R: Files>(rt: &R, line: &'t str) -> Option<(Identity, &'t str)> {
    let mut words = line.split(' ');
    let numbers = words.nth(2)?;
    let place = words.nth(1)?;
    match read_numbers(numbers)? {
        // file systems over several devices have numbers of their own, and name a source
        Identity::Block { major: 0, .. } => {
            let (_, behind) = line.split_once(" - ")?;
            let source = behind.split(' ').nth(1)?;
            match Identity::at(rt, source)? {
                Identity::Plain { .. } => None,
                block => Some((block, place)),
            }
        }
        block => Some((block, place)),
    }
}

/// The first device that stands on a block device.
fn find_holder<R: Files<File = File> + AllocGlobal + Clone + Drop>(
    rt: &R,
    identity: Identity,
) -> Result<Option<Use>, AllocError> {
    let Identity::Block { major, minor } = identity else {
        return Ok(None);
    };
    let holders = format!(in rt.alloc(); "/sys/dev/block/{major}:{minor}/holders")?;
    let Ok(entries) = fs::read_dir(rt, holders.as_str()) else {
        return Ok(None);
    };
    for entry in entries {
        if let Ok(entry) = entry {
            return Ok(Some(Use::Held(owned(rt.alloc(), entry.file_name())?)));
        }
    }
    Ok(None)
}

fn owned(alloc: Global, text: &str) -> Result<String, AllocError> {
    format!(in alloc; "{text}")
}

/// Why a file of a table must not be written.
#[derive(Drop)]
pub struct Conflict<'a> {
    /// The device, in the table's order the first that has one.
    pub device: Dev,
    path: &'a str,
    cause: Cause,
}

/// What stands against it.
#[derive(Drop)]
enum Cause {
    Used(Use),
    /// Its data lie on those of another device of the table, or the other way round.
    Shared(Dev),
}

/// Whether a file of a table must not be written: the system uses it, or two of the table's devices lie on one another, by whatever nodes
/// they are named. None where nothing is known to stand against it; a path that leads nowhere is passed over.
pub fn find_conflict<'a, R: Files<File = File> + AllocGlobal + Clone + Drop>(
    rt: &R,
    table: &Table<'a>,
) -> Result<Option<Conflict<'a>>, AllocError> {
    let devices = [
        (Dev::Metadata, table.metadata),
        (Dev::Cache, table.cache),
        (Dev::Origin, table.origin),
    ];
    for (device, path) in devices {
        let Some(identity) = Identity::at(rt, path) else {
            continue;
        };
        if let Some(used) = find_use(rt, identity)? {
            return Ok(Some(Conflict {
                device,
                path,
                cause: Cause::Used(used),
            }));
        }
        for (other, other_path) in devices {
            if other == device {
                break;
            }
            if let Some(lower) = Identity::at(rt, other_path) {
                if overlap(rt, identity, lower)? {
                    return Ok(Some(Conflict {
                        device,
                        path,
                        cause: Cause::Shared(other),
                    }));
                }
            }
        }
    }
    Ok(None)
}

impl<'a> Display for Conflict<'a> {
    fn fmt<W: fmt::Write>(&self, f: &mut Formatter<W>) -> fmt::Result {
        let (device, path) = (self.device, self.path);
        match &self.cause {
            Cause::Used(used) => write!(f, "{device} file {path}: {used}"),
            Cause::Shared(other) => write!(
                f,
                "{device} file {path}: its data lie on those of the {other} file"
            ),
        }
    }
}

impl Display for Use {
    fn fmt<W: fmt::Write>(&self, f: &mut Formatter<W>) -> fmt::Result {
        match self {
            Use::Mounted(place) => write!(f, "in use: a file system on it is mounted on {place}"),
            Use::Swap => write!(f, "in use as swap space"),
            Use::Held(name) => write!(f, "in use: device {name} stands on it"),
        }
    }
}
