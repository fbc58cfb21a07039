//! Writes and invalidations of passthrough, what they meet, and what they want then.

use super::bench::BLOCK;
use super::requests::{
    DISOWN, FINISH, FREE, LOOK_FAIL, LOOK_LOCK, LOOK_NUMBER, LOOK_SEAL, OWN, PAST, SEAL_HOME,
    SET_FAILED, UNMAP, WRITE_BOTH, WRITE_HIT,
};
use super::row::Row;
use wb_tasks::*;
use wb_types::{Dev, Mode, Refusal};
use wb_words::Word;

/// A write of an unmapped block.
const WRITE: Row = Row {
    job: Work::Write,
    mode: Mode::Passthrough,
    longest: 2,
    wants: &PAST,
    holds: Some((3, 2)),
    ..FREE
};

/// One of a block that has a clean copy, and keeps it.
const KEPT: Row = Row {
    mapped: Some(false),
    holds: Some((1, 2)),
    is_mapped: true,
    ..WRITE
};

const DISPLACE: Row = Row {
    job: Work::Displace,
    ..WRITE
};

const INVALIDATE: Row = Row {
    job: Work::Invalidate,
    ..FREE
};

/// The words of a block that has left the cache, by a write and without one.
const DISPLACED: [(Word, u64); 3] = [
    (Word::Cell(BLOCK), 0),
    (Word::Seal(BLOCK), 0),
    (Word::Number(BLOCK), 1),
];

const INVALIDATED: [(Word, u64); 3] = [
    (Word::Cell(BLOCK), 0),
    (Word::Seal(BLOCK), 0),
    (Word::Number(BLOCK), 0),
];

pub const DEFERRED: [&Row; 3] = [
    &Row {
        name: "a write to a mapped block gives it back, and is deferred",
        answer: Answer::Refused(Refusal::Defer),
        from: 0,
        wants: &[LOOK_FAIL, LOOK_LOCK, OWN, LOOK_SEAL, LOOK_NUMBER, DISOWN],
        words: &[
            (Word::Cell(BLOCK), 0),
            (Word::Seal(BLOCK), 4),
            (Word::Number(BLOCK), 0),
        ],
        ..KEPT
    },
    &Row {
        name: "a write to a mapped block is worn before it is deferred",
        shows: Some((Word::Number(BLOCK), u64::MAX)),
        answer: Answer::Refused(Refusal::Worn),
        wants: &[DISOWN],
        ..KEPT
    },
    &Row {
        name: "a write to an unmapped block is done on the origin",
        ..WRITE
    },
];

pub const DISPLACING: [&Row; 4] = [
    &Row {
        name: "a mapped block is unmapped, sealed to the origin, and written there, a hit",
        mapped: Some(false),
        wants: &[UNMAP, SEAL_HOME, WRITE_BOTH, FINISH, WRITE_HIT, DISOWN],
        words: &DISPLACED,
        ..DISPLACE
    },
    &Row {
        name: "an unmapped block is written on the origin, a miss",
        ..DISPLACE
    },
    &Row {
        name: "a worn block stays mapped",
        job: Work::Displace,
        shows: Some((Word::Number(BLOCK), u64::MAX)),
        answer: Answer::Refused(Refusal::Worn),
        wants: &[DISOWN],
        words: &[(Word::Cell(BLOCK), 0), (Word::Seal(BLOCK), 4)],
        ..KEPT
    },
    &Row {
        name: "a fault on the origin sets the failed bit, and the block is kept",
        mapped: Some(false),
        fails: Some(0),
        answer: Answer::Refused(Refusal::Io(Dev::Origin)),
        wants: &[UNMAP, SEAL_HOME, WRITE_BOTH, SET_FAILED],
        words: &[
            (Word::Cell(BLOCK), 1),
            (Word::Seal(BLOCK), 0),
            (Word::Fail, 1),
        ],
        holds: Some((1, 2)),
        ..DISPLACE
    },
];

pub const INVALIDATIONS: [&Row; 3] = [
    &Row {
        name: "a mapped block is unmapped and sealed to the origin",
        mapped: Some(false),
        wants: &[UNMAP, SEAL_HOME, DISOWN],
        words: &INVALIDATED,
        ..INVALIDATE
    },
    &Row {
        name: "an unmapped block is given back",
        wants: &[DISOWN],
        ..INVALIDATE
    },
    &Row {
        name: "a block that another shares is busy",
        shows: Some((Word::Cell(BLOCK), 2)),
        mapped: Some(false),
        answer: Answer::Refused(Refusal::Busy),
        from: 1,
        wants: &[LOOK_LOCK],
        words: &[(Word::Seal(BLOCK), 4)],
        is_mapped: true,
        ..INVALIDATE
    },
];
