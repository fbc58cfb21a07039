//! The files of a table, opened to be read alone.

ghost use Rattle.std.specs.Prelude.{◌≡◌, IfOk};
ghost use Rattle.wb_types.specs.Versions.{version_asked};
ghost use Rattle.wb_table.specs.Table.{IsTable};
ghost use Rattle.wb_table.specs.Words.{words_of};

use crate::devices::Disks;
use crate::sizes::find_size_fault;
use crate::unopened::{Trouble, Unopened};
use crate::watched::{Step, Watch};
use std::fs::{File, Metadata, OpenFile, OpenOptions, TryLockError};
use std::io;
use std::io::{ErrorKind, Seek, SeekFrom};
use std::os::unix::fs::{FileExt, MetadataExt};
use std::rt::Files;
use wb_disk::{Disk, FileDisk};
use wb_table::{Table, find_table_fault, read_table};
use wb_types::{Dev, Geometry};

/// The file of a device, opened for reading alone. A write or a sync of it fails and reaches no file. Of a read that failed a watch is told.
#[derive(Drop)]
pub struct ReadFile<'w, N> {
    file: File,
    device: Dev,
    watch: &'w N,
}

/// A disk that can be read alone: a write or a sync of it is a fault.
pub type ReadDisk<'w, N> = FileDisk<ReadFile<'w, N>>;

/// A file that was opened, with what is needed to tell it from others.
#[derive(Drop)]
struct OpenedFile {
    file: File,
    device_number: u64,
    inode: u64,
    is_held: bool,
}

/// Reads a table, opens its files for reading alone, and measures them. Each is locked together with other readers for as long as
/// its disk lives, or has no lock where another program holds it: `is_held` says whether that was so of any.
///
/// `BadTable`; `Io` for the first file that cannot be opened, that is the file of a device before it, or that cannot be measured;
/// `Geometry`. What the table says, the files, the sizes, with metadata of the version that it asks for, and `is_held`.
pub fn open_table_to_read<'a, 'w, R: Files<File = File>, N: Watch>(
    rt: &R,
    text: &'a str,
    watch: &'w N,
) -> Result<(Table<'a>, Disks<ReadDisk<'w, N>>, Geometry, bool), Unopened<'a>>
    ensures table { IfOk result (λ opened. IsTable (words_of text.now) opened.0) }
    ensures version { IfOk result (λ opened. opened.2.version ≡ version_asked opened.0.metadata2) }
{
    let Ok(table) = read_table(text) else {
        return Err(Unopened::Table(find_table_fault(text)));
    };
    let metadata = open_file(rt, table.metadata, Dev::Metadata, &[])?;
    let cache = open_file(rt, table.cache, Dev::Cache, &[&metadata])?;
    let origin = open_file(rt, table.origin, Dev::Origin, &[&metadata, &cache])?;
    let is_held = metadata.is_held || cache.is_held || origin.is_held;
    let disks = Disks {
        metadata: measured(metadata, table.metadata, Dev::Metadata, watch)?,
        cache: measured(cache, table.cache, Dev::Cache, watch)?,
        origin: measured(origin, table.origin, Dev::Origin, watch)?,
    };
    let (metadata, cache, origin) = (
        disks.metadata.sectors(),
        disks.cache.sectors(),
        disks.origin.sectors(),
    );
    match Geometry::of_devices(table.block, metadata, cache, origin, table.metadata2) {
        Ok(geometry) => Ok((table, disks, geometry, is_held)),
        Err(_) => Err(Unopened::Size(find_size_fault(
            table.block,
            metadata,
            cache,
            origin,
            table.metadata2,
        ))),
    }
}

/// Opens a file that is none of these, and locks it together with other readers where no program holds it.
fn open_file<'a, R: Files<File = File>>(
    rt: &R,
    path: &'a str,
    device: Dev,
    others: &[&OpenedFile],
) -> Result<OpenedFile, Unopened<'a>> {
    let opened = match open_plain(rt, path) {
        Ok(opened) if others.iter().any(|other| is_same(other, &opened)) => Err(Trouble::Locked),
        Ok(opened) => Ok(opened),
        Err(error) => Err(Trouble::System(error)),
    };
    opened.map_err(|trouble| Unopened::File {
        device,
        path,
        trouble,
    })
}

fn open_plain<R: Files<File = File>>(rt: &R, path: &str) -> io::Result<OpenedFile> {
    let mut options = OpenOptions::new();
    options.read(true);
    let file = options.open(rt, path)?;
    let known = file.metadata()?;
    let is_held = match file.try_lock_shared() {
        Ok(()) => false,
        Err(TryLockError::WouldBlock) => true,
        Err(TryLockError::Error(error)) => return Err(error),
    };
    Ok(OpenedFile {
        file,
        device_number: known.dev(),
        inode: known.ino(),
        is_held,
    })
}

fn is_same(one: &OpenedFile, other: &OpenedFile) -> bool {
    one.device_number == other.device_number && one.inode == other.inode
}

/// The disk over a file.
fn measured<'a, 'w, N: Watch>(
    opened: OpenedFile,
    path: &'a str,
    device: Dev,
    watch: &'w N,
) -> Result<ReadDisk<'w, N>, Unopened<'a>> {
    let OpenedFile { file, .. } = opened;
    FileDisk::over(ReadFile {
        file,
        device,
        watch,
    })
    .map_err(|_| Unopened::File {
        device,
        path,
        trouble: Trouble::System(io::Error::from(ErrorKind::NotSeekable)),
    })
}

/// What is answered to who asks for a change.
fn only_read() -> io::Error {
    io::Error::from(ErrorKind::PermissionDenied)
}

impl<'w, N: Watch> FileExt for ReadFile<'w, N> {
    fn read_at(&self, buf: &mut [u8], offset: u64) -> io::Result<usize> {
        let wanted = buf.len();
        let read = self.file.read_at(buf, offset);
        match &read {
            Ok(0) if wanted > 0 => {
                let reason = io::Error::from(ErrorKind::UnexpectedEof);
                self.watch
                    .failed(self.device, Step::read_at(offset), &reason);
            }
            Ok(_) => {}
            Err(reason) if reason.kind() == ErrorKind::Interrupted => {}
            Err(reason) => self
                .watch
                .failed(self.device, Step::read_at(offset), reason),
        }
        read
    }

    fn write_at(&self, _buf: &[u8], _offset: u64) -> io::Result<usize> {
        Err(only_read())
    }
}

impl<'w, N> OpenFile for ReadFile<'w, N> {
    fn metadata(&self) -> io::Result<Metadata> {
        self.file.metadata()
    }

    fn set_len(&self, _size: u64) -> io::Result<()> {
        Err(only_read())
    }

    fn sync_all(&self) -> io::Result<()> {
        Err(only_read())
    }

    fn sync_data(&self) -> io::Result<()> {
        Err(only_read())
    }
}

impl<'w, N> Seek for ReadFile<'w, N> {
    fn seek(&mut self, to: SeekFrom) -> io::Result<u64> {
        self.file.seek(to)
    }
}
