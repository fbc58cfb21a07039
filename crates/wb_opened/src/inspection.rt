//! What the programs look at before they open a cache: what an operator may have done to its files meanwhile.

ghost use Rattle.std.specs.Prelude.{◌≡◌, OnOk};
ghost use Rattle.wb_checks.specs.Samples.{AreAsBefore, HaveSizes};

use crate::inspector::{Inspector, Uninspected};
use std::alloc::{AllocError, Global};
use std::fmt::{Display, Formatter};
use std::fs::File;
use std::rt::Files;
use std::time::{Clock, SystemTime, UNIX_EPOCH};
use std::{fmt, fs};
use wb_checks::{RootSlots, find_stale, look_at_roots, threshold_notice};
use wb_devices::Devices;
use wb_disk::Disk;
use wb_files::{MarkPlace, find_conflict};
use wb_table::Table;
use wb_types::{Dev, Place, Refusal, SECTOR_BYTES};

/// Nanoseconds in a second.
const NANOS_OF_A_SECOND: u64 = 1_000_000_000;

/// Which findings refuse an opening. The others are said on standard error.
#[derive(Clone, Copy)]
pub struct Rigor {
    /// A write or a sync failed in this boot, and nobody has dropped the pages since.
    pub refuses_failed: bool,
    /// A block of a clean cache and the origin differ.
    pub refuses_stale: bool,
    /// The newest root may have been lost.
    pub refuses_older: bool,
    /// Whether blocks are compared at all.
    pub verifies: bool,
}

/// What a program looks at before its opening writes anything: whether the system uses the files, whether a device failed before, whether
/// the origin ends within a sector, whether the migration threshold lets blocks move, whether the slots of the roots are as commits leave them,
/// and whether up to 64 blocks of a clean cache are equal to the origin's.
#[derive(Drop)]
pub struct Inspection<'a, R, E> {
    rt: &'a R,
    log: &'a E,
    program: &'static str,
    mark: &'a MarkPlace,
    rigor: Rigor,
}

impl<'a, R: Files<File = File> + AllocGlobal + Clock + Clone + Drop, E: Eprint> Inspection<
    'a,
    R,
    E,
> {
    /// Of a program of this name, with the place of the mark beside its metadata.
    pub fn new(
        rt: &'a R,
        log: &'a E,
        program: &'static str,
        mark: &'a MarkPlace,
        rigor: Rigor,
    ) -> Inspection<'a, R, E> {
        Inspection {
            rt,
            log,
            program,
            mark,
            rigor,
        }
    }

    fn say(&self, finding: &str) {
        let program = self.program;
        let _ = eprintln!(self.log; "{program}: {finding}");
    }

    /// Refuses the opening for a finding, or says it. Without memory for the finding in words it is refused, or passed over, all the same.
    fn judge(
        &self,
        refuses: bool,
        refusal: Refusal,
        finding: Result<String, AllocError>,
    ) -> Result<(), Uninspected> {
        match finding {
            Ok(reason) if refuses => Err(Uninspected::told(refusal, reason)),
            Ok(reason) => {
                self.say(reason.as_str());
                Ok(())
            }
            Err(_) if refuses => Err(Uninspected::refused(refusal)),
            Err(_) => Ok(()),
        }
    }

    /// Says a finding that refuses nothing.
    fn mention(&self, finding: Result<String, AllocError>) {
        if let Ok(finding) = finding {
            self.say(finding.as_str());
        }
    }

    /// Looks at the files by their paths. Files that the system uses are refused always.
    fn look_at_files(&self, table: &Table<'_>) -> Result<(), Uninspected> {
        match find_conflict(self.rt, table) {
            Ok(Some(conflict)) => {
                let finding = format!(in self.rt.alloc(); "{conflict}");
                return self.judge(true, Refusal::Io(conflict.device), finding);
            }
            Ok(None) => {}
            Err(_) => return Err(Uninspected::refused(Refusal::Memory)),
        }
        self.look_for_mark()?;
        self.look_at_sizes(table);
        Ok(())
    }

    /// Says where the origin ends within a sector, and where the migration threshold stops something.
    fn look_at_sizes(&self, table: &Table<'_>) {
        let path = table.origin;
        let tail = tail_of(self.rt, path);
        if tail > 0 {
            self.mention(format!(in self.rt.alloc();
                "origin file {path}: its last {tail} bytes are no whole sector, and are not served"
            ));
        }
        let threshold = table.keys.migration_threshold;
        if let Ok(block) = u32::try_from(table.block) {
            if let Some(notice) = threshold_notice(table.mode, table.policy, block, threshold) {
                self.mention(format!(in self.rt.alloc(); "{notice}"));
            }
        }
    }

    /// Looks for the mark of a write or a sync that failed.
    fn look_for_mark(&self) -> Result<(), Uninspected> {
        let refuses = self.rigor.refuses_failed;
        let (path, alloc) = (self.mark.path(), self.rt.alloc());
        match self.mark.find(self.rt) {
            Ok(Some(mark)) => {
                let device = mark.device.unwrap_or(Dev::Metadata);
                let finding = format!(in alloc;
                    "{path}: {mark}: the system may still show data that the disk does not have; drop it with 'dd if=FILE iflag=nocache count=0' for each of the three files, and then run 'wbmeta cleared' with the same table"
                );
                self.judge(refuses, Refusal::Io(device), finding)
            }
            Ok(None) => Ok(()),
            Err(error) => {
                let finding = format!(in alloc; "{path}: {error}");
                self.judge(refuses, Refusal::Io(Dev::Metadata), finding)
            }
        }
    }

    /// Looks at the slots of the roots. A device that fails is left to the opening.
    fn look_at_slots<D: Disk>(&self, devices: &mut Devices<D>) -> Result<(), Uninspected>
        ensures sizes { HaveSizes D.size devices.old devices.new }
        ensures kept { D.tells → AreAsBefore D.contents devices.old devices.new }
    {
        let refuses = self.rigor.refuses_older;
        match look_at_roots(&mut devices.metadata) {
            Ok(slots) if slots.may_hide_newer() => {
                let remedy = if refuses {
                    "; --accept-older opens it all the same"
                } else {
                    ""
                };
                let finding = format!(in self.rt.alloc(); "{slots}{remedy}");
                self.judge(refuses, Refusal::Damaged(place_of(slots)), finding)
            }
            _ => Ok(()),
        }
    }

    /// Compares blocks of a clean cache with the origin. A device that fails meanwhile is said.
    fn look_for_stale<D: Disk>(
        &self,
        alloc: Global,
        table: &Table<'_>,
        devices: &mut Devices<D>,
    ) -> Result<(), Uninspected>
        ensures sizes { HaveSizes D.size devices.old devices.new }
        ensures kept { D.tells → AreAsBefore D.contents devices.old devices.new }
    {
        let Ok(block) = u32::try_from(table.block) else {
            return Ok(());
        };
        match find_stale(alloc, devices, block, self.seed()) {
            Ok(Some(stale)) => {
                let finding = format!(in alloc; "{stale}");
                self.judge(self.rigor.refuses_stale, Refusal::Mismatch, finding)
            }
            Ok(None) => Ok(()),
            Err(refusal) => {
                self.mention(format!(in alloc;
                    "blocks of the cache and the origin could not be compared: {refusal}"
                ));
                Ok(())
            }
        }
    }

    /// A number that differs from opening to opening.
    fn seed(&self) -> u64 {
        match SystemTime::now(self.rt) {
            Ok(now) => match now.duration_since(UNIX_EPOCH) {
                Ok(since) => since
                    .as_secs()
                    .wrapping_mul(NANOS_OF_A_SECOND)
                    .wrapping_add(u64::from(since.subsec_nanos())),
                Err(_) => 0,
            },
            Err(_) => 0,
        }
    }
}

impl<'a, R: Files<File = File> + AllocGlobal + Clock + Clone + Drop, E: Eprint> Inspector
    for Inspection<'a, R, E> {
    #[tactic(auto, using(crate::proofs::Looks::sizes_twice, crate::proofs::Looks::kept_twice))]
    fn inspect<D: Disk>(
        &mut self,
        alloc: Global,
        table: &Table<'_>,
        devices: &mut Devices<D>,
    ) -> Result<(), Uninspected> {
        self.look_at_files(table)?;
        self.look_at_slots(devices)?;
        if self.rigor.verifies {
            return self.look_for_stale(alloc, table, devices);
        }
        Ok(())
    }
}

/// How many bytes at the end of a file are no whole sector; none where it cannot be asked.
fn tail_of<R: Files>(rt: &R, path: &str) -> u64 {
    match fs::metadata(rt, path) {
        Ok(metadata) => metadata.len() % SECTOR_BYTES as u64,
        Err(_) => 0,
    }
}

/// The slot of a root that may be lost.
fn place_of(slots: RootSlots) -> Place {
    match slots {
        RootSlots::Lost(slot, _) => Place(slot),
        _ => Place(0),
    }
}
