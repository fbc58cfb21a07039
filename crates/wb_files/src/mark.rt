//! The mark of a device that failed: a file beside the metadata.

ghost use Rattle.std.specs.Prelude.{◌≡◌};

use crate::watched::Step;
use std::alloc::{AllocError, Global};
use std::fmt::{Display, Formatter, Write as _};
use std::fs::{File, OpenOptions};
use std::io::{ErrorKind, Write};
use std::rt::Files;
use std::{fmt, fs, io};
use wb_table::read_table;
use wb_types::Dev;

/// Where Linux tells which boot this is: its `proc(5)`, `/proc/sys/kernel/random/boot_id`.
const BOOT: &str = "/proc/sys/kernel/random/boot_id";

/// The place of a mark, and the boot in which it is made.
///
/// Behind a write or a sync that failed Linux marks the pages of the file clean and keeps them: the next run reads data that the disk
/// does not have, and its syncs have nothing to do. So a program leaves a mark until the pages have been dropped.
#[derive(Drop)]
pub struct MarkPlace {
    path: String,
    boot: String,
}

impl MarkPlace {
    /// That of the cache of a table, also where the table cannot be read. `AllocError` where there is no memory.
    pub fn of_table<R: Files<File = File> + AllocGlobal>(
        rt: &R,
        table: &str,
    ) -> Result<MarkPlace, AllocError> {
        match read_table(table) {
            Ok(table) => MarkPlace::beside(rt, table.metadata),
            Err(_) => MarkPlace::beside(rt, ""),
        }
    }

    /// That of the cache with this metadata file: its name and `.failed`. `AllocError` where there is no memory.
    pub fn beside<R: Files<File = File> + AllocGlobal>(
        rt: &R,
        metadata: &str,
    ) -> Result<MarkPlace, AllocError> {
        let path = format!(in rt.alloc(); "{metadata}.failed")?;
        let boot = match fs::read_to_string(rt, BOOT) {
            Ok(text) => format!(in rt.alloc(); "{}", text.trim())?,
            Err(_) => String::new(rt.alloc()),
        };
        Ok(MarkPlace { path, boot })
    }

    /// The file.
    pub fn path(&self) -> &str {
        self.path.as_str()
    }

    /// Leaves a mark in the place of any other, durably: a line `<device> <boot> <what failed>: <reason>`.
    pub(crate) fn leave<R: Files<File = File>>(
        &self,
        rt: &R,
        device: Dev,
        step: Step,
        reason: &io::Error,
    ) -> io::Result<()> {
        let mut options = OpenOptions::new();
        options.write(true).create(true).truncate(true);
        let mut file = options.open(rt, self.path.as_str())?;
        let boot = self.boot.as_str();
        writeln!(file, "{device} {boot} {step}: {reason}")?;
        file.sync_all()
    }

    /// The mark that was left in this boot; none where there is no file, or it is of an earlier boot, whose pages are gone.
    ///
    /// The system's error where the file cannot be read.
    pub fn find<R: Files<File = File> + AllocGlobal>(&self, rt: &R) -> io::Result<Option<Mark>> {
        let text = match fs::read_to_string(rt, self.path.as_str()) {
            Ok(text) => text,
            Err(error) if error.kind() == ErrorKind::NotFound => return Ok(None),
            Err(error) => return Err(error),
        };
        Ok(read_mark(rt.alloc(), text.as_str(), self.boot.as_str())?)
    }

    /// Takes a mark away: whether there was one.
    pub fn clear<R: Files<File = File>>(&self, rt: &R) -> io::Result<bool> {
        match fs::remove_file(rt, self.path.as_str()) {
            Ok(()) => Ok(true),
            Err(error) if error.kind() == ErrorKind::NotFound => Ok(false),
            Err(error) => Err(error),
        }
    }
}

/// Who leaves the mark of a device that failed.
pub trait Marker {
    /// Leaves a mark in its place, durably. The error is the system's.
    fn leave(
        &self,
        place: &MarkPlace,
        device: Dev,
        step: Step,
        reason: &io::Error,
    ) -> io::Result<()>;
}

/// A write or a sync that failed in this boot.
#[derive(Drop)]
pub struct Mark {
    /// The device, where the mark names one.
    pub device: Option<Dev>,
    /// What failed, and why.
    pub reason: String,
}

/// Reads a mark; none is one of another boot. A text that is no mark counts as one of this boot.
fn read_mark(alloc: Global, text: &str, boot: &str) -> Result<Option<Mark>, AllocError> {
    let line = text.trim();
    let Some((device, rest)) = line.split_once(' ') else {
        return Ok(Some(unknown_mark(alloc, line)?));
    };
    let Some((left_in, reason)) = rest.split_once(' ') else {
        return Ok(Some(unknown_mark(alloc, line)?));
    };
    if left_in != boot && !boot.is_empty() && !left_in.is_empty() {
        return Ok(None);
    }
    let reason = format!(in alloc; "{reason}")?;
    Ok(Some(Mark {
        device: device_of(device),
        reason,
    }))
}

fn unknown_mark(alloc: Global, line: &str) -> Result<Mark, AllocError> {
    let reason = format!(in alloc; "{line}")?;
    Ok(Mark {
        device: None,
        reason,
    })
}

fn device_of(name: &str) -> Option<Dev> {
    match name {
        "metadata" => Some(Dev::Metadata),
        "cache" => Some(Dev::Cache),
        "origin" => Some(Dev::Origin),
        _ => None,
    }
}

impl Display for Mark {
    fn fmt<W: fmt::Write>(&self, f: &mut Formatter<W>) -> fmt::Result {
        match self.device {
            Some(device) => write!(f, "{device} file: {}", self.reason),
            None => write!(f, "{}", self.reason),
        }
    }
}
