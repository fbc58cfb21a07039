//! Files with holes.

use std::fmt::{Display, Formatter};
use std::fs::Files;
use std::os::unix::fs::MetadataExt;
use std::{fmt, fs};
use wb_types::Dev;

/// The bytes of a block that a file system counts.
const COUNTED: u64 = 512;

/// A plain file of which not all bytes are allocated.
#[derive(Clone, Copy, PartialEq, Eq)]
pub struct SparseFile<'a> {
    pub device: Dev,
    pub path: &'a str,
    /// How many bytes it has, and how many of them have no place on the disk.
    pub bytes: u64,
    pub missing: u64,
}

/// The holes of the file of a device; none where it has none, is no plain file, or cannot be asked.
pub fn find_holes<'a, R: Files>(rt: &R, device: Dev, path: &'a str) -> Option<SparseFile<'a>> {
    let Ok(about) = fs::metadata(rt, path) else {
        return None;
    };
    let bytes = about.len();
    let missing = bytes.saturating_sub(about.blocks().saturating_mul(COUNTED));
    if !about.is_file() || missing == 0 {
        return None;
    }
    Some(SparseFile {
        device,
        path,
        bytes,
        missing,
    })
}

impl<'a> Display for SparseFile<'a> {
    fn fmt<W: fmt::Write>(&self, f: &mut Formatter<W>) -> fmt::Result {
        let (device, path, bytes, missing) = (self.device, self.path, self.bytes, self.missing);
        write!(
            f,
            "{device} file {path} is sparse: {missing} of {bytes} bytes are not allocated; on a full file system requests fail: fallocate -l {bytes} {path}"
        )
    }
}
