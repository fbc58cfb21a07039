//! Streams that fail, or give and take a byte at a time.

use crate::memory::Memory;
use std::alloc::Global;
use std::io;
use std::io::{Error, ErrorKind, Read, Write};
use std::test::Fail;
use wb_nbd::{Broken, transmit};

/// Takes so many bytes, one at a time, and then fails.
#[derive(Drop)]
struct Narrow {
    left: u64,
}

impl Write for Narrow {
    fn write(&mut self, buf: &[u8]) -> io::Result<usize> {
        if buf.is_empty() {
            return Ok(0);
        }
        if self.left == 0 {
            return Err(Error::from(ErrorKind::BrokenPipe));
        }
        self.left -= 1;
        Ok(1)
    }

    fn flush(&mut self) -> io::Result<()> {
        Ok(())
    }
}

/// Two flushes, and the end.
const FLUSHES: &[u8] =
    b"\x25\x60\x95\x13\x00\x00\x00\x03\x00\x00\x00\x00\x00\x00\x00\x01\x00\x00\x00\x00\x00\x00\x00\x00\x00\x00\x00\x00\x25\x60\x95\x13\x00\x00\x00\x03\x00\x00\x00\x00\x00\x00\x00\x02\x00\x00\x00\x00\x00\x00\x00\x00\x00\x00\x00\x00\x25\x60\x95\x13\x00\x00\x00\x02\x00\x00\x00\x00\x00\x00\x00\x03\x00\x00\x00\x00\x00\x00\x00\x00\x00\x00\x00\x00";

#[test]
fn a_writer_that_fails_ends_it(rt: HostRuntime) -> Result<(), Fail> {
    for left in 0..32 {
        let mut memory = Memory::new(rt.alloc(), None)?;
        let mut reader = FLUSHES;
        let mut writer = Narrow { left };
        let ended = transmit(rt.alloc(), &mut memory, &mut reader, &mut writer);
        assert!(rt; ended == Err(Broken::Writer), "after {left} bytes");
        assert!(rt; memory.flushes == if left < 16 { 1 } else { 2 });
    }
    Ok(())
}

/// Gives one byte at a time, and fails once so many were given.
#[derive(Drop)]
struct Slow<'a> {
    bytes: &'a [u8],
    left: u64,
}

impl<'a> Read for Slow<'a> {
    fn read(&mut self, buf: &mut [u8]) -> io::Result<usize> {
        if self.left == 0 {
            return Err(Error::from(ErrorKind::ConnectionReset));
        }
        if buf.is_empty() || self.bytes.is_empty() {
            return Ok(0);
        }
        self.left -= 1;
        buf[0] = self.bytes[0];
        self.bytes = &self.bytes[1..];
        Ok(1)
    }
}

#[test]
fn a_reader_that_fails_ends_it(rt: HostRuntime) -> Result<(), Fail> {
    for left in 0..85 {
        let mut memory = Memory::new(rt.alloc(), None)?;
        let mut reader = Slow {
            bytes: FLUSHES,
            left,
        };
        let mut told = Vec::new(rt.alloc());
        let ended = transmit(rt.alloc(), &mut memory, &mut reader, &mut told);
        let wanted = if left < 84 {
            Err(Broken::Reader)
        } else {
            Ok(())
        };
        assert!(rt; ended == wanted, "after {left} bytes");
        assert!(rt; memory.flushes == left / 28 - left / 84);
    }
    Ok(())
}

/// Gives one byte at a time, so many in all, each after a read that a signal interrupts.
#[derive(Drop)]
struct Interrupted<'a> {
    bytes: &'a [u8],
    left: u64,
    gives: bool,
}

impl<'a> Read for Interrupted<'a> {
    fn read(&mut self, buf: &mut [u8]) -> io::Result<usize> {
        self.gives = !self.gives;
        if !self.gives {
            return Err(Error::from(ErrorKind::Interrupted));
        }
        if self.left == 0 || buf.is_empty() || self.bytes.is_empty() {
            return Ok(0);
        }
        self.left -= 1;
        buf[0] = self.bytes[0];
        self.bytes = &self.bytes[1..];
        Ok(1)
    }
}

/// How a connection ends of which so many bytes come, each read of which is interrupted once, and how many flushes it made.
fn ended_after(alloc: Global, left: u64) -> Result<(Result<(), Broken>, u64), Fail> {
    let mut memory = Memory::new(alloc, None)?;
    let mut reader = Interrupted {
        bytes: FLUSHES,
        left,
        gives: true,
    };
    let mut told = Vec::new(alloc);
    let ended = transmit(alloc, &mut memory, &mut reader, &mut told);
    Ok((ended, memory.flushes))
}

#[test]
fn a_read_that_is_interrupted_is_tried_again(rt: HostRuntime) -> Result<(), Fail> {
    let (whole, flushes) = ended_after(rt.alloc(), 84)?;
    assert!(rt; whole == Ok(()) && flushes == 2);
    let (gone, flushes) = ended_after(rt.alloc(), 56)?;
    assert!(rt; gone == Err(Broken::Gone) && flushes == 2);
    let (cut, flushes) = ended_after(rt.alloc(), 57)?;
    assert!(rt; cut == Err(Broken::Reader) && flushes == 2);
    Ok(())
}
