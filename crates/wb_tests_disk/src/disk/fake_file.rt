//! A file that reads and writes in pieces, and fails where it is told to.

use std::cell::Cell;
use std::fs::{Metadata, OpenFile};
use std::io;
use std::io::{Seek, SeekFrom};
use std::os::unix::fs::FileExt;

/// Two sectors, of which one call moves no more than a piece. The call of this number fails, counted from 1.
pub(super) struct FakeFile {
    pub(super) bytes: Cell<[u8; 1024]>,
    pub(super) piece: usize,
    pub(super) calls: Cell<u32>,
    pub(super) fails_at: u32,
    pub(super) error: io::ErrorKind,
}

impl FakeFile {
    fn count_call(&self) -> io::Result<()> {
        let call = self.calls.get().wrapping_add(1);
        self.calls.set(call);
        if call == self.fails_at {
            Err(io::Error::from(self.error))
        } else {
            Ok(())
        }
    }
}

impl FileExt for FakeFile {
    fn read_at(&self, buf: &mut [u8], offset: u64) -> io::Result<usize> {
        self.count_call()?;
        let bytes = self.bytes.get();
        let from = (offset as usize).min(1024);
        let count = buf.len().min(self.piece).min(1024 - from);
        buf[..count].copy_from_slice(&bytes[from..from + count]);
        Ok(count)
    }

    fn write_at(&self, buf: &[u8], offset: u64) -> io::Result<usize> {
        self.count_call()?;
        let mut bytes = self.bytes.get();
        let from = (offset as usize).min(1024);
        let count = buf.len().min(self.piece).min(1024 - from);
        bytes[from..from + count].copy_from_slice(&buf[..count]);
        self.bytes.set(bytes);
        Ok(count)
    }
}

impl OpenFile for FakeFile {
    // As a block device: its length is not told.
    fn metadata(&self) -> io::Result<Metadata> {
        Ok(Metadata::of_file(0))
    }

    fn set_len(&self, _size: u64) -> io::Result<()> {
        self.count_call()
    }

    fn sync_all(&self) -> io::Result<()> {
        self.count_call()
    }

    fn sync_data(&self) -> io::Result<()> {
        self.count_call()
    }
}

impl Seek for FakeFile {
    fn seek(&mut self, to: SeekFrom) -> io::Result<u64> {
        self.count_call()?;
        match to {
            SeekFrom::End(0) => Ok(1024 + 100),
            _ => Ok(0),
        }
    }
}

impl Drop for FakeFile {
    fn drop(self) {
        let FakeFile {
            bytes: _,
            piece: _,
            calls: _,
            fails_at: _,
            error: _,
        } = self;
    }
}
