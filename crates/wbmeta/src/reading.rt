//! What is told of files that are only read.

use crate::ending::status_of;
use crate::found::{Counted, Found, count, count_all, read_metadata, read_moving};
use crate::progress::Progress;
use crate::telling::{Teller, Untold, dump, summarize, tell, tell_verified};
use crate::verifying::{Unverified, Verified, verify};
use std::alloc::Global;
use std::io::Write;
use wb_checks::{look_at_roots, threshold_notice};
use wb_devices::Devices;
use wb_disk::Disk;
use wb_files::Disks;
use wb_table::Table;
use wb_types::{Geometry, Refusal};

/// What is told.
#[derive(Clone, Copy, PartialEq, Eq)]
pub enum Wanted {
    /// How the cache stands.
    Counts,
    /// The mapped blocks.
    List,
    /// Which clean blocks differ from the origin.
    Differences,
}

/// The exit status where blocks differ.
const DIFFERS: u8 = 1;

/// What is to be read, and told.
#[derive(Drop)]
pub struct Reading<'a, T> {
    pub alloc: Global,
    pub rt: &'a T,
    pub table: Table<'a>,
    pub geometry: Geometry,
    pub wanted: Wanted,
    /// Whether another program holds a file.
    pub is_held: bool,
    /// Whether somebody reads it on a terminal.
    pub is_read: bool,
    /// Whether somebody looks on at standard error.
    pub is_shown: bool,
}

impl<'a, T: Eprint> Reading<'a, T> {
    /// Tells of these files: the exit status.
    pub fn answer<D: Disk + Drop, W: Write>(
        &self,
        disks: Disks<D>,
        writer: &mut W,
    ) -> Result<u8, Untold> {
        let Disks {
            mut metadata,
            cache,
            origin,
        } = disks;
        let found = match self.read(&mut metadata) {
            Ok(found) => found,
            Err(refusal) => return self.refuse(refusal, writer),
        };
        let counted = match count(&found, self.table.mode, &self.table.keys) {
            Ok(counted) => counted,
            Err(refusal) => return self.refuse(refusal, writer),
        };
        match self.wanted {
            Wanted::Counts => {
                self.say_findings(&mut metadata);
                tell(self.alloc, Ok(counted), writer)?;
                Ok(0)
            }
            Wanted::List => self.list(&found, counted, writer),
            Wanted::Differences => {
                let devices = Devices {
                    metadata,
                    cache,
                    origin,
                };
                self.compare(&found, devices, writer)
            }
        }
    }

    /// Says where the newest root may be lost, and where the migration threshold stops something. Beside a program that commits no slot is
    /// looked at: what it writes may be met half written.
    fn say_findings<D: Disk>(&self, metadata: &mut D) {
        if !self.is_held
            && let Ok(slots) = look_at_roots(metadata)
            && slots.may_hide_newer()
        {
            let _ = eprintln!(self.rt; "wbmeta: {slots}");
        }
        let table = &self.table;
        let threshold = table.keys.migration_threshold;
        if let Some(notice) = threshold_notice(
            table.mode,
            table.policy,
            self.geometry.block,
            threshold,
        ) {
            let _ = eprintln!(self.rt; "wbmeta: {notice}");
        }
    }

    /// What is found, again where another program may have changed it meanwhile.
    fn read<D: Disk>(&self, metadata: &mut D) -> Result<Found, Refusal> {
        if self.is_held {
            read_moving(self.alloc, &self.geometry, metadata)
        } else {
            read_metadata(self.alloc, &self.geometry, metadata)
        }
    }

    fn list<W: Write>(
        &self,
        found: &Found,
        counted: Counted,
        writer: &mut W,
    ) -> Result<u8, Untold> {
        dump(self.alloc, found, writer)?;
        if self.is_read {
            summarize(self.alloc, found, writer)?;
            tell(self.alloc, Ok(counted), writer)?;
        }
        Ok(0)
    }

    /// Compares what is clean with the origin. Where another program holds the files, or the cache was not left clean, nothing is.
    fn compare<D: Disk + Drop, W: Write>(
        &self,
        found: &Found,
        devices: Devices<D>,
        writer: &mut W,
    ) -> Result<u8, Untold> {
        let counted = count_all(found);
        if self.is_held || !found.clean {
            self.say_why_not(counted);
            tell_verified(self.alloc, 0, writer)?;
            return Ok(0);
        }
        let mut devices = devices;
        let mut teller = Teller {
            alloc: self.alloc,
            writer: &mut *writer,
            progress: self.progress(),
            all: u32::try_from(counted.mapped.saturating_sub(counted.dirty)).unwrap_or(u32::MAX),
        };
        let block = self.geometry.block;
        let verified = verify(self.alloc, &mut devices, found, block, &mut teller);
        self.progress().end_line();
        self.conclude(verified, writer)
    }

    fn progress(&self) -> Progress<'a, T> {
        Progress {
            rt: self.rt,
            is_shown: self.is_shown,
        }
    }

    fn say_why_not(&self, counted: Counted) {
        let mapped = counted.mapped;
        if self.is_held {
            let _ = eprintln!(self.rt;
                "wbmeta: nothing was compared: while another program holds the cache its blocks may change"
            );
        } else {
            let _ = eprintln!(self.rt;
                "wbmeta: nothing was compared: the cache was not left clean, so each of its {mapped} mapped blocks counts as dirty"
            );
        }
    }

    /// Tells what a comparison came to: the exit status.
    fn conclude<W: Write>(
        &self,
        verified: Result<Verified, Unverified>,
        writer: &mut W,
    ) -> Result<u8, Untold> {
        match verified {
            Ok(verified) if verified.differing > 0 => Ok(DIFFERS),
            Ok(verified) => {
                tell_verified(self.alloc, verified.compared, writer)?;
                Ok(0)
            }
            Err(Unverified::Failed(refusal, at, home)) => {
                let _ = eprintln!(self.rt;
                    "wbmeta: cache block {at} and origin block {home} cannot be compared: {refusal}"
                );
                self.refuse(refusal, writer)
            }
            Err(Unverified::Memory) => Err(Untold::Memory),
            Err(Unverified::Untold) => Err(Untold::Writer),
        }
    }

    /// Prints a refusal, and gives the exit status.
    pub fn refuse<W: Write>(&self, refusal: Refusal, writer: &mut W) -> Result<u8, Untold> {
        tell(self.alloc, Err(refusal), writer)?;
        Ok(status_of(refusal))
    }
}
