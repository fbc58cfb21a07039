//! Writing home, and detaching.

ghost use Rattle.std.specs.Prelude.{◌≡◌};

use crate::detaching::empty;
use crate::draining::drain;
use crate::ending::{Aim, confirm};
use crate::found::{Found, count_all, version_on};
use crate::lives::convert;
use crate::shadow::Shadow;
use crate::telling::name_dirty;
use std::alloc::Global;
use std::sync::Wait;
use std::thread::Threads;
use wb_devices::Devices;
use wb_disk::Disk;
use wb_files::Disks;
use wb_opened::{Inspector, Unserved};
use wb_table::Table;
use wb_types::{Geometry, Refusal, Version};

/// What is to be written home, and how the cache is to be left.
#[derive(Drop)]
pub struct Writing<'a, T, E> {
    pub alloc: Global,
    pub waits: &'a T,
    pub log: &'a E,
    pub table: Table<'a>,
    pub geometry: Geometry,
    pub aim: Aim,
    /// Whether somebody looks on at standard error.
    pub is_shown: bool,
}

impl<'a, T: Threads + Wait + Sync, E: Eprint + Sync> Writing<'a, T, E> {
    /// Has all dirty blocks written home and the cache left as it is to be: how many blocks were written.
    ///
    /// Standard error says which stayed dirty, and where the mapping is kept. The inspector looks at the devices before anything is written,
    /// and may refuse it.
    pub fn perform<D: Disk + Drop + Send, I: Inspector>(
        &self,
        disks: Disks<D>,
        inspector: &mut I,
    ) -> Result<u32, Refusal> {
        match self.try_all(disks, inspector) {
            Ok(answer) => answer,
            Err(unserved) => {
                let _ = eprintln!(self.log; "wbmeta: {unserved}");
                Err(unserved.refusal())
            }
        }
    }

    fn try_all<D: Disk + Drop + Send, I: Inspector>(
        &self,
        disks: Disks<D>,
        inspector: &mut I,
    ) -> Result<Result<u32, Refusal>, Unserved<'a>> {
        let mut devices = shadowed(disks);
        if let Err(uninspected) = inspector.inspect(self.alloc, &self.table, &mut devices) {
            return Err(Unserved::Uninspected(uninspected));
        }
        let devices = self.in_its_version(devices)?;
        let (mut devices, drained) = drain(
            self.waits,
            self.log,
            self.alloc,
            devices,
            &self.table,
            self.is_shown,
        )?;
        let drained = match drained {
            Ok(drained) => drained,
            Err(refusal) => return Ok(Err(refusal)),
        };
        let (homes, passed_over) = (drained.homes, drained.passed_over);
        let below = devices.metadata.below();
        let (found, told) = confirm(
            self.alloc,
            &self.geometry,
            below,
            Aim::AllHome,
            homes,
            passed_over,
        );
        if let Some(found) = &found {
            self.say(found);
        }
        if told.is_err() || self.aim == Aim::AllHome {
            return Ok(told);
        }
        let (mut devices, emptied) = empty(self.waits, self.alloc, devices, &self.table)?;
        if let Err(refusal) = emptied {
            return Ok(Err(refusal));
        }
        let below = devices.metadata.below();
        let (_, told) = confirm(self.alloc, &self.geometry, below, self.aim, homes, None);
        Ok(told)
    }

    /// The devices, once their metadata are of the version that the table asks for: an opening converts those of the first.
    fn in_its_version<D: Disk + Drop + Send>(
        &self,
        devices: Devices<Shadow<D>>,
    ) -> Result<Devices<Shadow<D>>, Unserved<'a>> {
        let mut devices = devices;
        let is_asked = self.table.metadata2 && self.aim == Aim::AllHome;
        if is_asked && version_on(self.alloc, &mut devices.metadata) == Some(Version::One) {
            return convert(self.waits, self.alloc, devices, &self.table);
        }
        Ok(devices)
    }

    /// Says which blocks stayed dirty; and of a cache in which some are mapped that the mapping is kept, where it is to be.
    fn say(&self, found: &Found) {
        let counted = count_all(found);
        if counted.dirty > 0 {
            name_dirty(self.log, found);
        } else if counted.mapped > 0 && self.aim == Aim::AllHome {
            let _ = eprintln!(self.log;
                "wbmeta: the mapping is kept: before the origin is used alone, detach the cache: wbmeta detach TABLE"
            );
        }
    }
}

/// The devices, of which no write is kept yet.
fn shadowed<D: Disk>(disks: Disks<D>) -> Devices<Shadow<D>> {
    let Disks {
        metadata,
        cache,
        origin,
    } = disks;
    Devices {
        metadata: Shadow::over(metadata),
        cache: Shadow::over(cache),
        origin: Shadow::over(origin),
    }
}
