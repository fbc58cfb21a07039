//! Requests and replies.

use crate::memory::Memory;
use std::alloc::{AllocError, Global};
use std::test::Fail;
use wb_nbd::{Broken, Errno, transmit};
use wb_types::SECTOR_BYTES;

/// What a client sends, what it is told, how the connection ends, and how many flushes there were. What is sent and told is spelled in parts.
struct Row {
    sent: &'static str,
    told: &'static str,
    ended: Result<(), Broken>,
    flushes: u64,
}

/// The client ends it, and there was no flush.
const ENDED: Row = Row {
    sent: "end 1",
    told: "",
    ended: Ok(()),
    flushes: 0,
};

/// Eight sectors are served, each full of its number.
const ROWS: [&Row; 13] = [
    // a read gives the sectors that it names
    &Row {
        sent: "read 7 1024 1024, end 8",
        told: "reply 7, sector 2, sector 3",
        ..ENDED
    },
    // what was written is read
    &Row {
        sent: "write 1 1536 512, sector 170, read 2 1536 512, end 3",
        told: "reply 1, reply 2, sector 170",
        ..ENDED
    },
    // a flush is one, and a durable write has one
    &Row {
        sent: "flush 18446744073709551615, write 5 0 512 1, sector 9, end 6",
        told: "reply 18446744073709551615, reply 5",
        flushes: 2,
        ..ENDED
    },
    // an unknown command or flag is not served
    &Row {
        sent: "trim 1 0 512, 65535 2, read 3 0 512 4, flush 4 0 0 2, end 6",
        told: "reply 1 22, reply 2 22, reply 3 22, reply 4 22",
        ..ENDED
    },
    // a read of no whole sectors, of none, or past the end is not served
    &Row {
        sent: "read 1 1 512, read 2 0 511, read 3, read 4 4096 512, read 5 3584 1024, \
            read 6 18446744073709551104 512, read 7 0 4294966784, end 8",
        told: "reply 1 22, reply 2 22, reply 3 22, reply 4 22, reply 5 22, reply 6 22, reply 7 22",
        ..ENDED
    },
    // what a write carries that is not served is passed over
    &Row {
        sent: "write 1 4096 512, sector 1, write 2 0 3, bytes abc, write 3 0 512 2, sector 1, read 4 0 512, end 5",
        told: "reply 1 28, reply 2 22, reply 3 22, reply 4, sector 0",
        ..ENDED
    },
    // a write past the end finds no room, one of no whole sectors or of none is invalid
    &Row {
        sent: "write 1 3584 1024, sector 1, sector 1, write 2 4095 2 1, bytes ab, write 3 18446744073709551615 1, \
            bytes a, write 4 4095 1, bytes a, write 5, write 6 4096 1 2, bytes a, read 7 3584 512, end 8",
        told: "reply 1 28, reply 2 28, reply 3 28, reply 4 22, reply 5 22, reply 6 22, reply 7, sector 7",
        ..ENDED
    },
    // another first word ends it, and what was told stays
    &Row {
        sent: "read 1 0 512, other 2 0 512",
        told: "reply 1, sector 0",
        ended: Err(Broken::Magic),
        ..ENDED
    },
    // a client that goes between two requests is gone
    &Row {
        sent: "read 1 0 512",
        told: "reply 1, sector 0",
        ended: Err(Broken::Gone),
        ..ENDED
    },
    // a flush of a part is not served
    &Row {
        sent: "flush 1 512, flush 2 0 512, end 3",
        told: "reply 1 22, reply 2 22",
        ..ENDED
    },
    // zeros are written where they are asked for, also where they may leave no hole, and are durable where that is wanted
    &Row {
        sent: "zeros 1 1024 512, zeros 2 2048 1024 2, read 3 512 2560, zeros 4 0 512 3, zeros 5 3584 512 1, \
            read 6 3072 1024, end 7",
        told: "reply 1, reply 2, reply 3, sector 1, sector 0, sector 3, sector 0, sector 0, reply 4, reply 5, \
            reply 6, sector 6, sector 0",
        flushes: 2,
        ..ENDED
    },
    // zeros past the end find no room; those of no whole sectors or of none, and those that have to be written fast, are not served
    &Row {
        sent: "zeros 1 3584 1024, zeros 2 0 4294966784, zeros 3 0 4294967295, zeros 4 0 511, zeros 5, \
            zeros 6 0 512 4, zeros 7 0 512 16, read 8 0 512, end 9",
        told: "reply 1 28, reply 2 28, reply 3 28, reply 4 22, reply 5 22, reply 6 22, reply 7 22, reply 8, sector 0",
        ..ENDED
    },
    // the flag by which zeros leave no hole is served with them alone, and trimming is not
    &Row {
        sent: "read 1 512 512 2, write 2 512 512 2, sector 1, trim 3 512 512, read 4 512 512, end 5",
        told: "reply 1 22, reply 2 22, reply 3 22, reply 4, sector 1",
        ..ENDED
    },
];

/// The commands that have a name, each at its number.
const COMMANDS: [&str; 7] = ["read", "write", "end", "flush", "trim", "cache", "zeros"];

/// The numbers behind a word, and zeros for those that are not there.
fn numbers_of(words: &str) -> Result<[u64; 4], Fail> {
    let mut numbers = [0; 4];
    for (number, word) in numbers.iter_mut().zip(words.split(' ')) {
        *number = word.parse()?;
    }
    Ok(numbers)
}

/// Adds a request: this first word, flags, command, cookie, first byte, and how many.
fn add_request(
    bytes: &mut Vec<u8>,
    magic: &[u8],
    command: u16,
    numbers: [u64; 4],
) -> Result<(), Fail> {
    let [cookie, first, count, flags] = numbers;
    bytes.extend_from_slice(magic)?;
    bytes.extend_from_slice(&u16::try_from(flags)?.to_be_bytes())?;
    bytes.extend_from_slice(&command.to_be_bytes())?;
    bytes.extend_from_slice(&cookie.to_be_bytes())?;
    bytes.extend_from_slice(&first.to_be_bytes())?;
    bytes.extend_from_slice(&u32::try_from(count)?.to_be_bytes())?;
    Ok(())
}

/// Adds a part: some bytes, a sector full of one, a reply by its cookie and its error, or a request by its command, which may be another number, with
/// cookie, first byte, how many, and flags.
fn add_part(bytes: &mut Vec<u8>, part: &str) -> Result<(), Fail> {
    let (word, rest) = part.split_once(' ').unwrap_or((part, ""));
    match word {
        "bytes" => bytes.extend_from_slice(rest.as_bytes())?,
        "sector" => bytes.extend_from_slice(&[rest.parse()?; SECTOR_BYTES])?,
        "reply" => {
            let [cookie, error, _, _] = numbers_of(rest)?;
            bytes.extend_from_slice(b"\x67\x44\x66\x98")?;
            bytes.extend_from_slice(&u32::try_from(error)?.to_be_bytes())?;
            bytes.extend_from_slice(&cookie.to_be_bytes())?;
        }
        "other" => add_request(bytes, b"\x25\x60\x95\x14", 0, numbers_of(rest)?)?,
        _ => {
            let command = match COMMANDS.iter().position(|name| *name == word) {
                Some(number) => u16::try_from(number)?,
                None => word.parse()?,
            };
            add_request(bytes, b"\x25\x60\x95\x13", command, numbers_of(rest)?)?;
        }
    }
    Ok(())
}

/// The bytes of parts, one after the other.
fn bytes_of(alloc: Global, parts: &str) -> Result<Vec<u8>, Fail> {
    let mut bytes = Vec::new(alloc);
    for part in parts.split(", ") {
        add_part(&mut bytes, part)?;
    }
    Ok(bytes)
}

/// Serves what a client sends: what it is told, and how the connection ends.
fn play(
    alloc: Global,
    memory: &mut Memory,
    sent: &[u8],
) -> Result<(Vec<u8>, Result<(), Broken>), AllocError> {
    let mut reader = sent;
    let mut told = Vec::new(alloc);
    let ended = transmit(alloc, memory, &mut reader, &mut told);
    Ok((told, ended))
}

/// Whether a row is played as it says.
fn holds(alloc: Global, row: &Row) -> Result<bool, Fail> {
    let mut memory = Memory::new(alloc, None)?;
    let sent = bytes_of(alloc, row.sent)?;
    let (told, ended) = play(alloc, &mut memory, sent.as_slice())?;
    let wanted = bytes_of(alloc, row.told)?;
    Ok(told.as_slice() == wanted.as_slice() && ended == row.ended && memory.flushes == row.flushes)
}

#[test]
fn each_request_has_its_reply(rt: HostRuntime) -> Result<(), Fail> {
    for (number, row) in ROWS.iter().enumerate() {
        assert!(rt; holds(rt.alloc(), row)?, "row {number}");
    }
    Ok(())
}

/// Whether what a row's client sends, cut anywhere, is answered as far as it goes: what is told is the front of what the whole is told,
/// and the client is gone, between two requests or in the middle of one.
fn holds_cut(alloc: Global, row: &Row) -> Result<bool, Fail> {
    let sent = bytes_of(alloc, row.sent)?;
    let wanted = bytes_of(alloc, row.told)?;
    for cut in 0..sent.len() {
        let mut memory = Memory::new(alloc, None)?;
        let (told, ended) = play(alloc, &mut memory, &sent.as_slice()[..cut])?;
        let is_gone = ended == Err(Broken::Gone) || ended == Err(Broken::Reader);
        if !is_gone || !wanted.as_slice().starts_with(told.as_slice()) {
            return Ok(false);
        }
    }
    Ok(true)
}

#[test]
fn a_cut_connection_breaks(rt: HostRuntime) -> Result<(), Fail> {
    for (number, row) in ROWS.iter().enumerate() {
        assert!(rt; holds_cut(rt.alloc(), row)?, "row {number}");
    }
    Ok(())
}

/// A write, a durable write, a read and a flush, and the end.
const FOUR: &str =
    "write 1 0 512, sector 1, write 2 512 512 1, sector 2, read 3 1024 512, flush 4, end 5";

/// How the call of each number fails, and what is told then. The durable write has two calls.
const FAULTS: [(Errno, &str); 5] = [
    (Errno::Io, "reply 1 5, reply 2, reply 3, sector 2, reply 4"),
    (
        Errno::Memory,
        "reply 1, reply 2 12, reply 3, sector 2, reply 4",
    ),
    (
        Errno::Shutdown,
        "reply 1, reply 2 108, reply 3, sector 2, reply 4",
    ),
    (Errno::Invalid, "reply 1, reply 2, reply 3 22, reply 4"),
    (
        Errno::Space,
        "reply 1, reply 2, reply 3, sector 2, reply 4 28",
    ),
];

#[test]
fn a_call_that_fails_is_told_and_no_other(rt: HostRuntime) -> Result<(), Fail> {
    let alloc = rt.alloc();
    let sent = bytes_of(alloc, FOUR)?;
    for (call, (errno, told)) in (0..).zip(FAULTS) {
        let mut memory = Memory::new(alloc, Some((call, errno)))?;
        let (found, ended) = play(alloc, &mut memory, sent.as_slice())?;
        let wanted = bytes_of(alloc, told)?;
        assert!(rt; found.as_slice() == wanted.as_slice(), "call {call}");
        assert!(rt; ended == Ok(()));
    }
    Ok(())
}
