//! A list of events by `run`: a write, a flush, a write that no flush has made durable, a crash, an opening, and a read.

use super::line::{
    ARRIVE, Act, BOTH_SECTORS, CACHE, COUNT_READ, COUNT_WRITE, DONE, END, FINISH, FIRST_SECTOR,
    FLUSH, LOOK_FAIL, LOOK_LOCK, LOOK_NUMBER, LOOK_SEAL, METADATA, OPEN, OPENING, ORIGIN, OWN,
    OWN_NO_MORE, READ_FIRST, READ_SECOND, ROOT, SHARE, SHARE_NO_MORE, WRITE_FIRST, WRITE_SECOND,
    WRITING,
};
use super::{event_of, small};
use std::alloc::Global;
use wb_promise::{Event, Record, What};
use wb_tasks::{Got, Want};
use wb_types::{Dev, Refusal, SECTOR_BYTES};
use wb_world::run;

/// What happens, what it does, and the steps that actor 0 then does.
#[derive(Clone, Copy)]
struct Part {
    act: Act,
    does: What,
    steps: &'static [(Want, Got)],
}

/// A flush of no node.
const FLUSHING: [(Want, Got); 9] = [
    (LOOK_FAIL, Got::Word(0)),
    (ARRIVE, Got::Began(0)),
    (CACHE, Got::Done),
    (ORIGIN, Got::Done),
    (METADATA, Got::Done),
    (ROOT, Got::Done),
    (METADATA, Got::Done),
    (END, Got::Done),
    (DONE, Got::Done),
];

/// A write of two sectors of the block that was written before.
const WRITING_BOTH: [(Want, Got); 11] = [
    (LOOK_FAIL, Got::Word(0)),
    (LOOK_LOCK, Got::Word(0)),
    (OWN, Got::Done),
    (LOOK_SEAL, Got::Word(0)),
    (LOOK_NUMBER, Got::Word(1)),
    (WRITE_FIRST, Got::Done),
    (WRITE_SECOND, Got::Done),
    (FINISH, Got::Done),
    (COUNT_WRITE, Got::Done),
    (OWN_NO_MORE, Got::Done),
    (DONE, Got::Done),
];

/// A read of them over the words of a new target.
const READING_BOTH: [(Want, Got); 10] = [
    (LOOK_FAIL, Got::Word(0)),
    (LOOK_LOCK, Got::Word(0)),
    (SHARE, Got::Done),
    (LOOK_SEAL, Got::Word(0)),
    (LOOK_NUMBER, Got::Word(0)),
    (READ_FIRST, Got::Done),
    (READ_SECOND, Got::Done),
    (COUNT_READ, Got::Done),
    (SHARE_NO_MORE, Got::Done),
    (DONE, Got::Done),
];

/// The first sector keeps what the flush made durable, the second one what was written after it.
const PARTS: [Part; 7] = [
    Part {
        act: OPEN,
        does: What::Started,
        steps: &OPENING,
    },
    Part {
        act: Act::WriteOf(0, FIRST_SECTOR, 0x11),
        does: What::Started,
        steps: &WRITING,
    },
    Part {
        act: FLUSH,
        does: What::Started,
        steps: &FLUSHING,
    },
    Part {
        act: Act::WriteOf(0, BOTH_SECTORS, 0x22),
        does: What::Started,
        steps: &WRITING_BOTH,
    },
    Part {
        act: Act::CrashButOf(Dev::Origin, 1, 1),
        does: What::Stopped,
        steps: &[],
    },
    Part {
        act: OPEN,
        does: What::Started,
        steps: &OPENING,
    },
    Part {
        act: Act::Read(0, BOTH_SECTORS),
        does: What::Started,
        steps: &READING_BOTH,
    },
];

const GIVEN: [u8; 2] = [0x11, 0x22];

/// The events of these parts.
fn events_of(alloc: Global, parts: &[Part]) -> Result<Vec<Event>, Refusal> {
    let mut events = Vec::new(alloc);
    for part in parts {
        let event = event_of(alloc, part.act)?;
        events.reserve(1)?;
        events.push_reserved(event);
        for _ in part.steps {
            events.reserve(1)?;
            events.push_reserved(Event::Step(0));
        }
    }
    Ok(events)
}

/// Whether this is a record of an event that did this.
fn did(record: Option<&Record>, what: What) -> bool {
    match record {
        Some(record) => record.what == what,
        None => false,
    }
}

/// Whether these are records of these parts, one for each event.
fn are_of(records: &[Record], parts: &[Part]) -> bool {
    let mut left = records.iter();
    for part in parts {
        if !did(left.next(), part.does) {
            return false;
        }
        for (want, got) in part.steps {
            if !did(left.next(), What::Stepped(*want, *got)) {
                return false;
            }
        }
    }
    left.next().is_none()
}

/// Whether these records gave contents that are each full of one of these bytes, in this order.
fn give(records: &[Record], bytes: &[u8]) -> bool {
    let mut left = bytes.iter();
    for record in records {
        for content in &record.read {
            match left.next() {
                Some(byte) if *content == [*byte; SECTOR_BYTES] => {}
                _ => return false,
            }
        }
    }
    left.next().is_none()
}

/// Whether a task wanted memory.
fn lacked_memory(records: &[Record]) -> bool {
    for record in records {
        if let What::Stepped(_, Got::Refused(Refusal::Memory)) = &record.what {
            return true;
        }
    }
    false
}

/// Whether the run of all parts goes as they say, and its read is given what it says. `Memory` where the run, or a task in it, lacked it.
pub fn ran(alloc: Global) -> Result<bool, Refusal> {
    let events = events_of(alloc, &PARTS)?;
    let trace = run(alloc, small()?, events)?;
    let records = trace.records();
    if lacked_memory(records) {
        return Err(Refusal::Memory);
    }
    Ok(are_of(records, &PARTS) && give(records, &GIVEN))
}
