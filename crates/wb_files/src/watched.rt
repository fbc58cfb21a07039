//! Files of which somebody is told why a step on them failed.

ghost use Rattle.std.specs.Prelude.{◌≡◌};

use std::fmt::{Display, Formatter};
use std::fs::{File, Metadata, OpenFile};
use std::io::{ErrorKind, Seek, SeekFrom};
use std::os::unix::fs::FileExt;
use std::{fmt, io};
use wb_types::{Dev, SECTOR_BYTES};

/// A step on a file: a read or a write with the sector at which it began, the first of the file 0.
#[derive(Clone, Copy)]
pub enum Step {
    Read(u64),
    Write(u64),
    Sync,
}

impl Step {
    /// A read that began at this byte of the file.
    pub(crate) fn read_at(offset: u64) -> Step {
        Step::Read(offset / SECTOR_BYTES as u64)
    }

    /// A write that began at this byte of the file.
    fn write_at(offset: u64) -> Step {
        Step::Write(offset / SECTOR_BYTES as u64)
    }
}

/// Who is told of each step on a device that failed, before whoever asked for it is.
pub trait Watch {
    /// A step failed, for this reason.
    fn failed(&self, device: Dev, step: Step, reason: &io::Error);
}

/// Nobody is told.
#[derive(Clone, Copy)]
pub struct Unwatched;

impl Watch for Unwatched {
    fn failed(&self, _device: Dev, _step: Step, _reason: &io::Error) {}
}

/// The open file of a device, lent, of whose failures somebody is told: a disk answers a fault, and drops the reason. A step that is done
/// costs a test more.
#[derive(Clone, Copy)]
pub struct Watched<'f, N> {
    file: &'f File,
    device: Dev,
    watch: &'f N,
}

impl<'f, N> Watched<'f, N> {
    pub(crate) fn new(file: &'f File, device: Dev, watch: &'f N) -> Watched<'f, N> {
        Watched {
            file,
            device,
            watch,
        }
    }
}

impl<'f, N: Watch> Watched<'f, N> {
    /// Tells of a step that failed; one that was interrupted is made again.
    fn tell(&self, step: Step, reason: &io::Error) {
        if reason.kind() != ErrorKind::Interrupted {
            self.watch.failed(self.device, step, reason);
        }
    }
}

impl<'f, N: Watch> FileExt for Watched<'f, N> {
    fn read_at(&self, buf: &mut [u8], offset: u64) -> io::Result<usize> {
        let wanted = buf.len();
        let read = self.file.read_at(buf, offset);
        match &read {
            Ok(0) if wanted > 0 => {
                self.tell(
                    Step::read_at(offset),
                    &io::Error::from(ErrorKind::UnexpectedEof),
                );
            }
            Ok(_) => {}
            Err(reason) => self.tell(Step::read_at(offset), reason),
        }
        read
    }

    fn write_at(&self, buf: &[u8], offset: u64) -> io::Result<usize> {
        let written = self.file.write_at(buf, offset);
        match &written {
            Ok(0) if buf.len() > 0 => {
                self.tell(
                    Step::write_at(offset),
                    &io::Error::from(ErrorKind::WriteZero),
                );
            }
            Ok(_) => {}
            Err(reason) => self.tell(Step::write_at(offset), reason),
        }
        written
    }
}

impl<'f, N: Watch> OpenFile for Watched<'f, N> {
    fn metadata(&self) -> io::Result<Metadata> {
        self.file.metadata()
    }

    fn set_len(&self, size: u64) -> io::Result<()> {
        self.file.set_len(size)
    }

    fn sync_all(&self) -> io::Result<()> {
        let synced = self.file.sync_all();
        if let Err(reason) = &synced {
            self.tell(Step::Sync, reason);
        }
        synced
    }

    fn sync_data(&self) -> io::Result<()> {
        let synced = self.file.sync_data();
        if let Err(reason) = &synced {
            self.tell(Step::Sync, reason);
        }
        synced
    }
}

/// Where a file begins to be measured is told by who measures it.
impl<'f, N> Seek for Watched<'f, N> {
    fn seek(&mut self, to: SeekFrom) -> io::Result<u64> {
        let mut file = self.file;
        file.seek(to)
    }
}

/// That it failed, and where.
impl Display for Step {
    fn fmt<W: fmt::Write>(&self, f: &mut Formatter<W>) -> fmt::Result {
        match self {
            Step::Read(sector) => write!(f, "a read failed at sector {sector}"),
            Step::Write(sector) => write!(f, "a write failed at sector {sector}"),
            Step::Sync => f.write_str("a sync failed"),
        }
    }
}
