//! Migrations, what they meet, and what they want then.

use super::bench::BLOCK;
use super::requests::{
    DISOWN, LOOK_FAIL, LOOK_LOCK, LOOK_NUMBER, LOOK_SEAL, OWN, SEAL_HOME, UNMAP,
};
use super::row::Row;
use wb_tasks::*;
use wb_types::{CBlock, Dev, Extent, Mode, Refusal};
use wb_words::Word;

const TO: CBlock = CBlock(1);

const PROMOTE: Row = Row {
    name: "",
    job: Work::Migrate(Migration::Promote(TO)),
    mode: Mode::Writeback,
    longest: 64,
    mapped: None,
    fails: None,
    shows: None,
    is_raced: false,
    is_full: false,
    answer: Answer::Done,
    from: 5,
    wants: &[],
    more: 0,
    words: &[
        (Word::Cell(BLOCK), 0),
        (Word::Fail, 0),
        (Word::Seal(BLOCK), 4),
    ],
    holds: Some((1, 1)),
    is_mapped: true,
    has_order: false,
};

const DEMOTE: Row = Row {
    name: "",
    job: Work::Migrate(Migration::Demote),
    mode: Mode::Writeback,
    longest: 64,
    mapped: Some(true),
    fails: None,
    shows: None,
    is_raced: false,
    is_full: false,
    answer: Answer::Done,
    from: 5,
    wants: &[],
    more: 0,
    words: &[
        (Word::Cell(BLOCK), 0),
        (Word::Fail, 0),
        (Word::Seal(BLOCK), 0),
    ],
    holds: Some((2, 2)),
    is_mapped: false,
    has_order: false,
};

const CLEAN: Row = Row {
    name: "",
    job: Work::Migrate(Migration::Clean),
    mode: Mode::Writeback,
    longest: 64,
    mapped: Some(true),
    fails: None,
    shows: None,
    is_raced: false,
    is_full: false,
    answer: Answer::Done,
    from: 5,
    wants: &[],
    more: 0,
    words: &[
        (Word::Cell(BLOCK), 0),
        (Word::Fail, 0),
        (Word::Seal(BLOCK), 4),
    ],
    holds: Some((2, 2)),
    is_mapped: true,
    has_order: false,
};

/// The sectors of the block, on the origin and in cache block 1: all, and each half.
pub const HOME: Extent = Extent {
    first: 128,
    count: 64,
};

pub const CACHED: Extent = Extent {
    first: 64,
    count: 64,
};

const FIRST_HALF: Extent = Extent {
    first: 128,
    count: 32,
};

const SECOND_HALF: Extent = Extent {
    first: 160,
    count: 32,
};

const CACHED_FIRST_HALF: Extent = Extent {
    first: 64,
    count: 32,
};

const CACHED_SECOND_HALF: Extent = Extent {
    first: 96,
    count: 32,
};

const FIRST_SECTOR: Extent = Extent {
    first: 128,
    count: 1,
};

const CACHED_FIRST_SECTOR: Extent = Extent {
    first: 64,
    count: 1,
};

pub const GIVE_UP: Want = Want::Desk(DeskStep::ReleaseOrder(BLOCK));

const MAP: Want = Want::Desk(DeskStep::Map(BLOCK, TO));

const SEAL_CACHED: Want = Want::Cell(CellStep::Seal(BLOCK, Some(TO), false));

const READ_HOME: Want = Want::Device(DeviceStep::Read(Dev::Origin, HOME));

const WRITE_HOME: Want = Want::Device(DeviceStep::Write(Dev::Origin, HOME));

const READ_CACHED: Want = Want::Device(DeviceStep::Read(Dev::Cache, CACHED));

const WRITE_CACHED: Want = Want::Device(DeviceStep::Write(Dev::Cache, CACHED));

pub const PROMOTIONS: [&Row; 5] = [
    &Row {
        name: "a promotion takes its block, copies it, maps it and seals it",
        from: 0,
        wants: &[
            LOOK_FAIL,
            LOOK_LOCK,
            OWN,
            LOOK_SEAL,
            LOOK_NUMBER,
            READ_HOME,
            WRITE_CACHED,
            MAP,
            SEAL_CACHED,
            DISOWN,
        ],
        ..PROMOTE
    },
    &Row {
        name: "a promotion writes each extent before it reads the next",
        longest: 32,
        wants: &[
            Want::Device(DeviceStep::Read(Dev::Origin, FIRST_HALF)),
            Want::Device(DeviceStep::Write(Dev::Cache, CACHED_FIRST_HALF)),
            Want::Device(DeviceStep::Read(Dev::Origin, SECOND_HALF)),
            Want::Device(DeviceStep::Write(Dev::Cache, CACHED_SECOND_HALF)),
            MAP,
        ],
        more: 2,
        ..PROMOTE
    },
    &Row {
        name: "a promotion that finds no memory gives its order up",
        is_full: true,
        answer: Answer::Refused(Refusal::Memory),
        wants: &[READ_HOME, WRITE_CACHED, MAP, DISOWN, GIVE_UP],
        words: &[(Word::Cell(BLOCK), 0), (Word::Seal(BLOCK), 0)],
        is_mapped: false,
        ..PROMOTE
    },
    &Row {
        name: "a promotion wants no number",
        shows: Some((Word::Number(BLOCK), u64::MAX)),
        wants: &[READ_HOME, WRITE_CACHED, MAP, SEAL_CACHED, DISOWN],
        ..PROMOTE
    },
    &Row {
        name: "a promotion in single sectors takes 136 steps",
        longest: 1,
        wants: &[
            Want::Device(DeviceStep::Read(Dev::Origin, FIRST_SECTOR)),
            Want::Device(DeviceStep::Write(Dev::Cache, CACHED_FIRST_SECTOR)),
        ],
        more: 129,
        ..PROMOTE
    },
];

pub const RETURNS: [&Row; 6] = [
    &Row {
        name: "the seventh step of a demotion writes the first sector home",
        longest: 1,
        wants: &[
            Want::Device(DeviceStep::Read(Dev::Cache, CACHED_FIRST_SECTOR)),
            Want::Device(DeviceStep::Write(Dev::Origin, FIRST_SECTOR)),
        ],
        more: 129,
        ..DEMOTE
    },
    &Row {
        name: "a dirty block is copied home before it leaves the mapping",
        wants: &[READ_CACHED, WRITE_HOME, UNMAP, SEAL_HOME, DISOWN],
        ..DEMOTE
    },
    &Row {
        name: "a clean block leaves without a copy",
        mapped: Some(false),
        wants: &[UNMAP, SEAL_HOME, DISOWN],
        holds: Some((1, 2)),
        ..DEMOTE
    },
    &Row {
        name: "a dirty block is copied home and sealed clean where it stands",
        wants: &[READ_CACHED, WRITE_HOME, SEAL_CACHED, DISOWN, GIVE_UP],
        ..CLEAN
    },
    &Row {
        name: "a clean block is sealed clean again",
        mapped: Some(false),
        wants: &[SEAL_CACHED, DISOWN, GIVE_UP],
        holds: Some((1, 2)),
        ..CLEAN
    },
    &Row {
        name: "an unmapped block is sealed to the origin again",
        mapped: None,
        wants: &[SEAL_HOME, DISOWN, GIVE_UP],
        words: &[(Word::Cell(BLOCK), 0), (Word::Seal(BLOCK), 0)],
        holds: Some((1, 2)),
        is_mapped: false,
        ..CLEAN
    },
];

pub const REFUSED: [&Row; 4] = [
    &Row {
        name: "a shared block is busy by the look",
        shows: Some((Word::Cell(BLOCK), 2)),
        answer: Answer::Refused(Refusal::Busy),
        from: 0,
        wants: &[LOOK_FAIL, LOOK_LOCK],
        words: &[(Word::Fail, 0), (Word::Seal(BLOCK), 0)],
        holds: Some((1, 2)),
        is_mapped: false,
        has_order: true,
        ..PROMOTE
    },
    &Row {
        name: "an owned block is busy by the look",
        shows: Some((Word::Cell(BLOCK), 1)),
        answer: Answer::Refused(Refusal::Busy),
        from: 0,
        wants: &[LOOK_FAIL, LOOK_LOCK],
        words: &[(Word::Fail, 0), (Word::Seal(BLOCK), 5)],
        holds: Some((1, 2)),
        is_mapped: true,
        has_order: true,
        ..DEMOTE
    },
    &Row {
        name: "a lost exchange is busy, and keeps the order",
        is_raced: true,
        answer: Answer::Refused(Refusal::Busy),
        from: 2,
        wants: &[OWN],
        words: &[(Word::Cell(BLOCK), 2), (Word::Seal(BLOCK), 5)],
        holds: Some((1, 2)),
        has_order: true,
        ..CLEAN
    },
    &Row {
        name: "a failed target refuses, and the order is kept",
        shows: Some((Word::Fail, 1)),
        answer: Answer::Refused(Refusal::Failed),
        from: 0,
        wants: &[LOOK_FAIL],
        words: &[(Word::Cell(BLOCK), 0), (Word::Seal(BLOCK), 5)],
        holds: Some((1, 2)),
        is_mapped: true,
        has_order: true,
        ..DEMOTE
    },
];

/// What copies, and the devices that it copies from and to.
pub const COPIES: [(&Row, Dev, Dev); 3] = [
    (&PROMOTE, Dev::Origin, Dev::Cache),
    (&DEMOTE, Dev::Cache, Dev::Origin),
    (&CLEAN, Dev::Cache, Dev::Origin),
];
