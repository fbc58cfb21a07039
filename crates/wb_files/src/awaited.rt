//! Streams whose other end does not wait.

ghost use Rattle.std.specs.Prelude.{◌≡◌};

use std::io::{ErrorKind, Read, Write};
use std::time::{Clock, Duration};
use std::{io, thread};

/// How long it is waited before a stream is asked again: ten milliseconds.
const REST: u64 = 10;

/// A stream that is asked again where it has nothing now: whoever started the program may have made its standard streams so that a call
/// on them does not wait.
#[derive(Drop)]
pub struct Awaited<'c, C, S> {
    pub clock: &'c C,
    pub stream: S,
}

impl<'c, C: Clock, S: Read> Read for Awaited<'c, C, S> {
    fn read(&mut self, buf: &mut [u8]) -> io::Result<usize> {
        for _ in 0..u64::MAX {
            match self.stream.read(&mut *buf) {
                Err(error) if error.kind() == ErrorKind::WouldBlock => rest(self.clock),
                told => return told,
            }
        }
        Err(io::Error::from(ErrorKind::WouldBlock))
    }
}

impl<'c, C: Clock, S: Write> Write for Awaited<'c, C, S> {
    fn write(&mut self, buf: &[u8]) -> io::Result<usize> {
        for _ in 0..u64::MAX {
            match self.stream.write(buf) {
                Err(error) if error.kind() == ErrorKind::WouldBlock => rest(self.clock),
                told => return told,
            }
        }
        Err(io::Error::from(ErrorKind::WouldBlock))
    }

    fn flush(&mut self) -> io::Result<()> {
        for _ in 0..u64::MAX {
            match self.stream.flush() {
                Err(error) if error.kind() == ErrorKind::WouldBlock => rest(self.clock),
                told => return told,
            }
        }
        Err(io::Error::from(ErrorKind::WouldBlock))
    }
}

fn rest<C: Clock>(clock: &C) {
    thread::sleep(clock, Duration::from_millis(REST));
}
