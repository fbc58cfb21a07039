//! The devices of a target, as files that are opened and locked once, and lent to every client.

ghost use Rattle.std.specs.Prelude.{◌≡◌, IfOk};
ghost use Rattle.wb_types.specs.Versions.{version_asked};
ghost use Rattle.wb_table.specs.Table.{IsTable};
ghost use Rattle.wb_table.specs.Words.{words_of};

use crate::ledger::SyncLedger;
use crate::lent::{FileLedger, LentDisk, SharedDisk};
use crate::patience::Patience;
use crate::sizes::find_size_fault;
use crate::sparing::SparingDisk;
use crate::unopened::{Trouble, Unopened};
use crate::watched::{Watch, Watched};
use std::fs::{File, OpenOptions, TryLockError};
use std::io;
use std::io::{Seek, SeekFrom};
use std::rt::Files;
use std::sync::{Mutex, Wait};
use wb_disk::FileDisk;
use wb_table::{Table, find_table_fault, read_table};
use wb_types::{Dev, Geometry, SECTOR_BYTES};

/// The three devices of a target.
#[derive(Drop)]
pub struct Disks<D> {
    pub metadata: D,
    pub cache: D,
    pub origin: D,
}

/// The files of a table, each open once, and locked for as long as this lives.
#[derive(Drop)]
pub struct OpenFiles<'a> {
    metadata: HeldFile<'a>,
    cache: HeldFile<'a>,
    origin: HeldFile<'a>,
}

/// A file that is open and locked, its whole sectors as it was opened, and what is known of its writes and syncs.
#[derive(Drop)]
struct HeldFile<'a> {
    device: Dev,
    path: &'a str,
    file: File,
    sectors: u64,
    ledger: Mutex<SyncLedger>,
}

impl<'a> OpenFiles<'a> {
    /// Opens the files of a table, the metadata first and the origin last, and locks each. The reason is that of the first that cannot be
    /// opened for reading and writing, locked or measured: one that another program holds longer than it is waited for, or that the table
    /// named before, is locked already.
    pub fn open<R: Files<File = File>, P: Patience>(
        rt: &R,
        table: &Table<'a>,
        patience: &mut P,
    ) -> Result<OpenFiles<'a>, Unopened<'a>> {
        Ok(OpenFiles {
            metadata: HeldFile::open(rt, table.metadata, Dev::Metadata, patience)?,
            cache: HeldFile::open(rt, table.cache, Dev::Cache, patience)?,
            origin: HeldFile::open(rt, table.origin, Dev::Origin, patience)?,
        })
    }

    /// Disks over these files, for one more client: no file is opened again. Of steps on them that fail the watch is told. The reason is
    /// that of the first file that cannot be measured.
    pub fn disks<'f, T: Wait, N: Watch>(
        &'f self,
        waits: &'f T,
        watch: &'f N,
    ) -> Result<Disks<SharedDisk<'f, T, N>>, Unopened<'a>> {
        Ok(Disks {
            metadata: self.metadata.disk(waits, watch)?,
            cache: self.cache.disk(waits, watch)?,
            origin: self.origin.disk(waits, watch)?,
        })
    }
}

impl<'a> HeldFile<'a> {
    /// Opens a file, locks it and measures it.
    fn open<R: Files<File = File>, P: Patience>(
        rt: &R,
        path: &'a str,
        device: Dev,
        patience: &mut P,
    ) -> Result<HeldFile<'a>, Unopened<'a>> {
        match open_locked(rt, path, patience) {
            Ok((file, sectors)) => Ok(HeldFile {
                device,
                path,
                file,
                sectors,
                ledger: Mutex::new(SyncLedger::new()),
            }),
            Err(trouble) => Err(Unopened::File {
                device,
                path,
                trouble,
            }),
        }
    }

    /// A disk over it.
    fn disk<'f, T: Wait, N: Watch>(
        &'f self,
        waits: &'f T,
        watch: &'f N,
    ) -> Result<SharedDisk<'f, T, N>, Unopened<'a>> {
        match FileDisk::over(Watched::new(&self.file, self.device, watch)) {
            Ok(disk) => Ok(SparingDisk::new(LentDisk::new(disk, &self.ledger, waits), FileLedger)),
            Err(_) => Err(Unopened::File {
                device: self.device,
                path: self.path,
                trouble: Trouble::System(io::Error::from(io::ErrorKind::NotSeekable)),
            }),
        }
    }
}

/// Reads a table, opens its files and measures them: `BadTable`, `Io` for the first that cannot be opened, `Geometry`. What the table says,
/// the files, and the sizes, with metadata of the version that it asks for.
pub fn open_table<'a, R: Files<File = File>, P: Patience>(
    rt: &R,
    text: &'a str,
    patience: &mut P,
) -> Result<(Table<'a>, OpenFiles<'a>, Geometry), Unopened<'a>>
    ensures table { IfOk result (λ opened. IsTable (words_of text.now) opened.0) }
    ensures version { IfOk result (λ opened. opened.2.version ≡ version_asked opened.0.metadata2) }
{
    let Ok(table) = read_table(text) else {
        return Err(Unopened::Table(find_table_fault(text)));
    };
    let files = OpenFiles::open(rt, &table, patience)?;
    let (metadata, cache, origin) = (
        files.metadata.sectors,
        files.cache.sectors,
        files.origin.sectors,
    );
    match Geometry::of_devices(table.block, metadata, cache, origin, table.metadata2) {
        Ok(geometry) => Ok((table, files, geometry)),
        Err(_) => Err(Unopened::Size(find_size_fault(
            table.block,
            metadata,
            cache,
            origin,
            table.metadata2,
        ))),
    }
}

/// Opens a file for reading and writing, locks it, and measures it by its end in whole sectors.
fn open_locked<R: Files<File = File>, P: Patience>(
    rt: &R,
    path: &str,
    patience: &mut P,
) -> Result<(File, u64), Trouble> {
    let mut options = OpenOptions::new();
    options.read(true).write(true);
    let mut file = options
        .open(rt, path)
        .map_err(|error| Trouble::System(error))?;
    lock(&file, patience)?;
    match file.seek(SeekFrom::End(0)) {
        Ok(end) => Ok((file, end / SECTOR_BYTES as u64)),
        Err(_) => Err(Trouble::System(io::Error::from(io::ErrorKind::NotSeekable))),
    }
}

/// Locks a file, and waits for whoever holds it as long as there is patience.
fn lock<P: Patience>(file: &File, patience: &mut P) -> Result<(), Trouble> {
    for _ in 0..u64::MAX {
        match file.try_lock() {
            Ok(()) => return Ok(()),
            Err(TryLockError::WouldBlock) => {
                if !patience.rest() {
                    return Err(Trouble::Locked);
                }
            }
            Err(TryLockError::Error(error)) => return Err(Trouble::System(error)),
        }
    }
    Err(Trouble::Locked)
}
