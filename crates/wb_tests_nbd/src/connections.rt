//! A connection that two serve beside one another.

ghost use Rattle.std.specs.Prelude.{◌≡◌};

use std::alloc::Global;
use std::io;
use std::io::{Error, ErrorKind, Write};
use std::sync::{Condvar, Mutex, Wait};
use std::test::Fail;
use std::thread::{Threads, join};
use wb_nbd::{Broken, Connection, Errno, Export, Terms};
use wb_types::{Content, SECTOR_BYTES, Sector};

/// Eight sectors of zeros, the first of which can be read only once something was replied, and which can be flushed only before that.
#[derive(Drop)]
struct Gated<'a, C> {
    rt: &'a C,
    replied: &'a Mutex<bool>,
    bell: &'a Condvar,
}

impl<'a, C: Wait> Export for Gated<'a, C> {
    ghost size = { λ gated. 8 };

    ghost acts = { λ old act new. Unit {0} };

    fn sectors(&self) -> u64 {
        8
    }

    fn read(&mut self, at: Sector, out: &mut [Content]) -> Result<(), Errno> {
        if at == Sector(0) {
            let mut replied = self.replied.lock(self.rt);
            for _ in self.rt.forever() {
                if *replied {
                    break;
                }
                replied = self.bell.wait(self.rt, replied);
            }
        }
        out.fill([0; SECTOR_BYTES]);
        Ok(())
    }

    fn write(&mut self, at: Sector, from: &[Content]) -> Result<(), Errno> {
        Ok(())
    }

    fn flush(&mut self) -> Result<(), Errno> {
        if *self.replied.lock(self.rt) {
            Err(Errno::Io)
        } else {
            Ok(())
        }
    }
}

/// Keeps what is written where others see it, up to so many bytes, and fails then. What is behind the greeting is a reply, and rings.
#[derive(Drop)]
struct Kept<'a, C> {
    rt: &'a C,
    bytes: &'a Mutex<Vec<u8>>,
    most: usize,
    replied: &'a Mutex<bool>,
    bell: &'a Condvar,
}

/// Whether there was room; whether they came behind the greeting.
fn keep(kept: &mut Vec<u8>, most: usize, bytes: &[u8]) -> (bool, bool) {
    let is_reply = kept.len() >= GREETING;
    if kept.len() >= most {
        return (false, is_reply);
    }
    (kept.extend_from_slice(bytes).is_ok(), is_reply)
}

impl<'a, C: Wait> Write for Kept<'a, C> {
    fn write(&mut self, buf: &[u8]) -> io::Result<usize> {
        let (is_kept, is_reply) = keep(&mut self.bytes.lock(self.rt), self.most, buf);
        if is_reply {
            *self.replied.lock(self.rt) = true;
            self.bell.notify_all();
        }
        if is_kept {
            Ok(buf.len())
        } else {
            Err(Error::from(ErrorKind::BrokenPipe))
        }
    }

    fn flush(&mut self) -> io::Result<()> {
        Ok(())
    }
}

/// A client that wants the export without zeros, reads its first sector under cookie 1, flushes under cookie 2, and ends.
const READS_AND_FLUSHES: &[u8] = b"\x00\x00\x00\x03IHAVEOPT\x00\x00\x00\x01\x00\x00\x00\x00\
    \x25\x60\x95\x13\x00\x00\x00\x00\x00\x00\x00\x00\x00\x00\x00\x01\x00\x00\x00\x00\x00\x00\x00\x00\x00\x00\x02\x00\
    \x25\x60\x95\x13\x00\x00\x00\x03\x00\x00\x00\x00\x00\x00\x00\x02\x00\x00\x00\x00\x00\x00\x00\x00\x00\x00\x00\x00\
    \x25\x60\x95\x13\x00\x00\x00\x02\x00\x00\x00\x00\x00\x00\x00\x03\x00\x00\x00\x00\x00\x00\x00\x00\x00\x00\x00\x00";

/// What is told before the first reply: the greeting, and what the client has to know of the export.
const GREETING: usize = 28;

/// The reply to the flush, and then that to the read but for its sector.
const REPLIES: &[u8] =
    b"\x67\x44\x66\x98\x00\x00\x00\x00\x00\x00\x00\x00\x00\x00\x00\x02\x67\x44\x66\x98\x00\x00\x00\x00\x00\x00\x00\x00\x00\x00\x00\x01";

const TERMS: Terms = Terms {
    size: 4096,
    preferred: 512,
};

/// Has two serve a client, whose writer takes so many bytes: how each found it to end, and what was told.
fn serve_by_two<R: Threads + Wait + Sync>(
    rt: &R,
    alloc: Global,
    most: usize,
) -> (Result<(), Broken>, Result<(), Broken>, Vec<u8>) {
    let (replied, bell) = (Mutex::new(false), Condvar::new());
    let bytes = Mutex::new(Vec::new(alloc));
    let writer = Kept {
        rt,
        bytes: &bytes,
        most,
        replied: &replied,
        bell: &bell,
    };
    let connection = Connection::new(READS_AND_FLUSHES, writer);
    let (one, other) = join(
        rt,
        || -> Result<(), Broken> { serve(rt, alloc, &connection, &replied, &bell) },
        || -> Result<(), Broken> { serve(rt, alloc, &connection, &replied, &bell) },
    );
    drop(connection);
    (one, other, bytes.into_inner())
}

fn serve<R: Wait>(
    rt: &R,
    alloc: Global,
    connection: &Connection<&[u8], Kept<'_, R>>,
    replied: &Mutex<bool>,
    bell: &Condvar,
) -> Result<(), Broken> {
    let mut export = Gated { rt, replied, bell };
    connection.serve(rt, alloc, &TERMS, &mut export)
}

/// The flush is made before it is answered, too.
#[test]
fn of_two_requests_in_flight_the_later_ends_first(rt: HostRuntime) -> Result<(), Fail> {
    let (one, other, told) = serve_by_two(&rt, rt.alloc(), usize::MAX);
    assert!(rt; one == Ok(()) && other == Ok(()));
    let told = told.as_slice();
    assert!(rt; told.len() == GREETING + REPLIES.len() + SECTOR_BYTES);
    let replies = &told[GREETING..];
    assert!(rt; replies.starts_with(REPLIES));
    Ok(())
}

#[test]
fn a_reply_that_cannot_be_written_ends_it_for_both(rt: HostRuntime) -> Result<(), Fail> {
    let (one, other, _) = serve_by_two(&rt, rt.alloc(), GREETING);
    assert!(rt; one == Err(Broken::Writer) || other == Err(Broken::Writer));
    Ok(())
}
