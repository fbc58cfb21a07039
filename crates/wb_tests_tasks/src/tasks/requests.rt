//! Reads and writes, what they meet, and what they want then.

use super::bench::BLOCK;
use super::row::Row;
use wb_tasks::*;
use wb_types::{CBlock, Dev, Extent, Mode, Refusal};
use wb_words::{Access, Kind, Word};

/// Two sectors of the block, from its second on.
pub const SECTORS: Extent = BOTH;

pub const CACHED_SECTORS: Extent = CACHED_BOTH;

pub const FREE: Row = Row {
    name: "",
    job: Work::Read,
    mode: Mode::Writeback,
    longest: 1,
    mapped: None,
    fails: None,
    shows: None,
    is_raced: false,
    is_full: false,
    answer: Answer::Done,
    from: 5,
    wants: &[],
    more: 0,
    words: &[(Word::Cell(BLOCK), 0), (Word::Fail, 0)],
    holds: Some((1, 2)),
    is_mapped: false,
    has_order: false,
};

/// The block's second and third sector, on the origin and in cache block 1.
const SECOND: Extent = Extent {
    first: 129,
    count: 1,
};

const THIRD: Extent = Extent {
    first: 130,
    count: 1,
};

const BOTH: Extent = Extent {
    first: 129,
    count: 2,
};

const CACHED_SECOND: Extent = Extent {
    first: 65,
    count: 1,
};

const CACHED_THIRD: Extent = Extent {
    first: 66,
    count: 1,
};

const CACHED_BOTH: Extent = Extent {
    first: 65,
    count: 2,
};

const SHARE: Want = Want::Cell(CellStep::Take(Access::Shared, BLOCK, 0));

const LEAVE: Want = Want::Cell(CellStep::Release(Access::Shared, BLOCK));

pub const OWN: Want = Want::Cell(CellStep::Take(Access::Owned, BLOCK, 0));

pub const DISOWN: Want = Want::Cell(CellStep::Release(Access::Owned, BLOCK));

pub const LOOK_FAIL: Want = Want::Cell(CellStep::Look(Word::Fail));

pub const LOOK_LOCK: Want = Want::Cell(CellStep::Look(Word::Cell(BLOCK)));

pub const LOOK_SEAL: Want = Want::Cell(CellStep::Look(Word::Seal(BLOCK)));

pub const LOOK_NUMBER: Want = Want::Cell(CellStep::Look(Word::Number(BLOCK)));

pub const FINISH: Want = Want::Cell(CellStep::Finish(BLOCK));

pub const SET_FAILED: Want = Want::Cell(CellStep::SetFailed);

pub const UNMAP: Want = Want::Desk(DeskStep::Unmap(BLOCK));

pub const SEAL_HOME: Want = Want::Cell(CellStep::Seal(BLOCK, None, false));

const READ_HIT: Want = Want::Cell(CellStep::Count(Kind::ReadHit));

const READ_MISS: Want = Want::Cell(CellStep::Count(Kind::ReadMiss));

pub const WRITE_HIT: Want = Want::Cell(CellStep::Count(Kind::WriteHit));

pub const WRITE_MISS: Want = Want::Cell(CellStep::Count(Kind::WriteMiss));

const SEAL_DIRTY: Want = Want::Cell(CellStep::Seal(BLOCK, Some(CBlock(1)), true));

const READ_SECOND: Want = Want::Device(DeviceStep::Read(Dev::Origin, SECOND));

const READ_THIRD: Want = Want::Device(DeviceStep::Read(Dev::Origin, THIRD));

const READ_BOTH: Want = Want::Device(DeviceStep::Read(Dev::Origin, BOTH));

const READ_CACHED_SECOND: Want = Want::Device(DeviceStep::Read(Dev::Cache, CACHED_SECOND));

const READ_CACHED_THIRD: Want = Want::Device(DeviceStep::Read(Dev::Cache, CACHED_THIRD));

const READ_CACHED_BOTH: Want = Want::Device(DeviceStep::Read(Dev::Cache, CACHED_BOTH));

const WRITE_SECOND: Want = Want::Device(DeviceStep::Write(Dev::Origin, SECOND));

const WRITE_THIRD: Want = Want::Device(DeviceStep::Write(Dev::Origin, THIRD));

pub const WRITE_BOTH: Want = Want::Device(DeviceStep::Write(Dev::Origin, BOTH));

const WRITE_CACHED_SECOND: Want = Want::Device(DeviceStep::Write(Dev::Cache, CACHED_SECOND));

const WRITE_CACHED_THIRD: Want = Want::Device(DeviceStep::Write(Dev::Cache, CACHED_THIRD));

const WRITE_CACHED_BOTH: Want = Want::Device(DeviceStep::Write(Dev::Cache, CACHED_BOTH));

const WRITE: Row = Row {
    job: Work::Write,
    ..FREE
};

/// A write of a block that has a dirty copy.
const REWRITE: Row = Row {
    job: Work::Write,
    mapped: Some(true),
    holds: Some((1, 3)),
    is_mapped: true,
    ..FREE
};

/// What a write of an unmapped block wants where it goes to the origin by one step.
pub const PAST: [Want; 4] = [WRITE_BOTH, FINISH, WRITE_MISS, DISOWN];

const THROUGH: Row = Row {
    mode: Mode::Writethrough,
    longest: 2,
    mapped: Some(false),
    holds: Some((3, 3)),
    ..REWRITE
};

pub const READS: [&Row; 5] = [
    &Row {
        name: "an unmapped block is read from the origin",
        from: 0,
        wants: &[
            LOOK_FAIL,
            LOOK_LOCK,
            SHARE,
            LOOK_SEAL,
            LOOK_NUMBER,
            READ_SECOND,
            READ_THIRD,
            READ_MISS,
            LEAVE,
        ],
        ..FREE
    },
    &Row {
        name: "a mapped block is read from the cache",
        mapped: Some(false),
        wants: &[READ_CACHED_SECOND, READ_CACHED_THIRD, READ_HIT, LEAVE],
        is_mapped: true,
        ..FREE
    },
    &Row {
        name: "an owned block is busy by the look",
        shows: Some((Word::Cell(BLOCK), 1)),
        answer: Answer::Refused(Refusal::Busy),
        from: 1,
        wants: &[LOOK_LOCK],
        words: &[(Word::Fail, 0)],
        ..FREE
    },
    &Row {
        name: "a failed target refuses",
        shows: Some((Word::Fail, 1)),
        answer: Answer::Refused(Refusal::Failed),
        from: 0,
        wants: &[LOOK_FAIL],
        words: &[(Word::Cell(BLOCK), 0)],
        ..FREE
    },
    &Row {
        name: "a fault on a read gives the block back",
        fails: Some(0),
        answer: Answer::Refused(Refusal::Io(Dev::Origin)),
        wants: &[READ_SECOND, LEAVE],
        ..FREE
    },
];

pub const WRITES: [&Row; 6] = [
    &Row {
        name: "an unmapped block is written on the origin",
        from: 2,
        wants: &[
            OWN,
            LOOK_SEAL,
            LOOK_NUMBER,
            WRITE_SECOND,
            WRITE_THIRD,
            FINISH,
            WRITE_MISS,
            DISOWN,
        ],
        words: &[(Word::Cell(BLOCK), 0), (Word::Number(BLOCK), 1)],
        holds: Some((3, 2)),
        ..WRITE
    },
    &Row {
        name: "a clean copy is sealed dirty before its first write",
        mapped: Some(false),
        wants: &[
            SEAL_DIRTY,
            WRITE_CACHED_SECOND,
            WRITE_CACHED_THIRD,
            FINISH,
            WRITE_HIT,
            DISOWN,
        ],
        words: &[(Word::Seal(BLOCK), 5), (Word::Number(BLOCK), 1)],
        ..REWRITE
    },
    &Row {
        name: "a dirty copy is not sealed again",
        wants: &[
            WRITE_CACHED_SECOND,
            WRITE_CACHED_THIRD,
            FINISH,
            WRITE_HIT,
            DISOWN,
        ],
        ..REWRITE
    },
    &Row {
        name: "a lost exchange is busy",
        is_raced: true,
        answer: Answer::Refused(Refusal::Busy),
        from: 2,
        wants: &[OWN],
        words: &[(Word::Cell(BLOCK), 2)],
        ..WRITE
    },
    &Row {
        name: "a block without a number left is worn",
        shows: Some((Word::Number(BLOCK), u64::MAX)),
        answer: Answer::Refused(Refusal::Worn),
        from: 4,
        wants: &[LOOK_NUMBER, DISOWN],
        ..WRITE
    },
    &Row {
        name: "a fault on a write keeps the block",
        fails: Some(1),
        answer: Answer::Refused(Refusal::Io(Dev::Origin)),
        from: 6,
        wants: &[WRITE_THIRD, SET_FAILED],
        words: &[(Word::Cell(BLOCK), 1), (Word::Fail, 1)],
        holds: None,
        ..WRITE
    },
];

pub const IN_ONE_STEP: [&Row; 3] = [
    &Row {
        name: "both sectors are read by one step",
        longest: 2,
        wants: &[READ_BOTH, READ_MISS, LEAVE],
        ..FREE
    },
    &Row {
        name: "both sectors are written by one step",
        longest: 256,
        wants: &[WRITE_CACHED_BOTH, FINISH, WRITE_HIT, DISOWN],
        ..REWRITE
    },
    &Row {
        name: "a fault on one step for both keeps the block",
        longest: 2,
        fails: Some(0),
        answer: Answer::Refused(Refusal::Io(Dev::Origin)),
        wants: &[WRITE_BOTH, SET_FAILED],
        words: &[(Word::Cell(BLOCK), 1), (Word::Fail, 1)],
        ..WRITE
    },
];

pub const IN_OTHER_MODES: [&Row; 6] = [
    &Row {
        name: "write-through writes each extent on the origin, and then in the cache",
        longest: 1,
        wants: &[
            WRITE_SECOND,
            WRITE_CACHED_SECOND,
            WRITE_THIRD,
            WRITE_CACHED_THIRD,
            FINISH,
            WRITE_HIT,
            DISOWN,
        ],
        words: &[(Word::Seal(BLOCK), 4), (Word::Number(BLOCK), 1)],
        ..THROUGH
    },
    &Row {
        name: "a dirty copy stays dirty in write-through",
        mapped: Some(true),
        wants: &[WRITE_BOTH, WRITE_CACHED_BOTH, FINISH, WRITE_HIT, DISOWN],
        words: &[(Word::Seal(BLOCK), 5)],
        ..THROUGH
    },
    &Row {
        name: "write-through writes an unmapped block on the origin alone",
        mapped: None,
        wants: &PAST,
        holds: Some((3, 2)),
        is_mapped: false,
        ..THROUGH
    },
    &Row {
        name: "a fault on the second write of an extent keeps the block",
        fails: Some(1),
        answer: Answer::Refused(Refusal::Io(Dev::Cache)),
        wants: &[WRITE_BOTH, WRITE_CACHED_BOTH, SET_FAILED],
        words: &[(Word::Cell(BLOCK), 1), (Word::Fail, 1)],
        holds: Some((3, 2)),
        ..THROUGH
    },
    &Row {
        name: "a mapped block is read from the cache in write-through",
        mode: Mode::Writethrough,
        longest: 2,
        mapped: Some(false),
        wants: &[READ_CACHED_BOTH, READ_HIT, LEAVE],
        is_mapped: true,
        ..FREE
    },
    &Row {
        name: "a mapped block is read from the origin in passthrough, a miss",
        mode: Mode::Passthrough,
        longest: 2,
        mapped: Some(false),
        wants: &[READ_BOTH, READ_MISS, LEAVE],
        is_mapped: true,
        ..FREE
    },
];
