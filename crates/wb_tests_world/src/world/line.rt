//! What is to happen line by line, and what each line is to do.

use wb_disk::Base;
use wb_promise::What;
use wb_tasks::{Answer, CellStep, DeskStep, DeviceStep, Got, Want};
use wb_types::{CBlock, Dev, Extent, Mode, OBlock, Refusal};
use wb_words::{Access, Kind, Word};

/// What is to happen.
#[derive(Clone, Copy)]
pub enum Act {
    /// An actor is told to open a target.
    Open(usize, Mode),
    Read(usize, Extent),
    /// Each write is of sevens.
    Write(usize, Extent),
    /// This one is of another byte.
    WriteOf(usize, Extent, u8),
    Flush(usize),
    Suspend(usize),
    /// In passthrough a block leaves the cache.
    Invalidate(usize, OBlock),
    /// A block is promoted into a cache block.
    Promote(usize, OBlock, CBlock),
    Step(usize),
    /// The actor's next step fails; what it syncs has landed, or not.
    Fault(usize, Base),
    /// The same with a sector of a device named by a number.
    FaultOf(usize, Dev, u64, u64),
    /// Each sector keeps its newest content, but this one of a device the content at this position.
    CrashOf(Dev, u64, u64),
    /// Each sector keeps what was durable, but this one of a device the content at this position.
    CrashButOf(Dev, u64, u64),
}

/// A task whose steps are listed: an opening over what was formatted in write-back mode, and a read and a write of the first sector
/// over words that nobody has changed.
#[derive(Clone, Copy)]
pub enum Task {
    Open,
    Read,
    Write,
}

#[derive(Clone, Copy)]
pub enum Line {
    /// This happens, and does this.
    Does(Act, What),
    /// An actor is given this task, and its next steps are the first ones of it, so many.
    Begins(usize, Task, usize),
    /// Its next steps are those.
    Steps(usize, Task, usize),
    /// An actor's next steps look at words, and see these numbers.
    Sees(usize, &'static [(Want, u64)]),
    /// Its next steps are these, and each is done.
    Takes(usize, &'static [Want]),
    /// Its next steps own the first block, which is free, and see this seal and this number of it.
    Owns(usize, u64, u64),
    /// These start one after the other, and the steps of each lead to an answer that says done.
    Finishes(&'static [Act]),
    /// The target's newest root is of this generation, so many blocks are mapped, and so many of these are dirty.
    Opened(u64, u32, u32),
}

/// What the lines say together, and the lines.
pub type Row = (&'static str, &'static [Line]);

pub const FIRST_SECTOR: Extent = Extent { first: 0, count: 1 };

pub const SECOND_SECTOR: Extent = Extent { first: 1, count: 1 };

pub const BOTH_SECTORS: Extent = Extent { first: 0, count: 2 };

pub const BLOCK: OBlock = OBlock(0);

/// What actor 0 does, with the first block and the first cache block.
pub const OPEN: Act = Act::Open(0, Mode::Writeback);

pub const OPEN_THROUGH: Act = Act::Open(0, Mode::Writethrough);

pub const PASS: Act = Act::Open(0, Mode::Passthrough);

pub const PROMOTE: Act = Act::Promote(0, BLOCK, CBlock(0));

pub const FLUSH: Act = Act::Flush(0);

pub const SUSPEND: Act = Act::Suspend(0);

pub const METADATA: Want = Want::Device(DeviceStep::Sync(Dev::Metadata));

pub const CACHE: Want = Want::Device(DeviceStep::Sync(Dev::Cache));

pub const ORIGIN: Want = Want::Device(DeviceStep::Sync(Dev::Origin));

/// The least metadata have four sectors.
pub const FIRST_READ: Want = Want::Device(DeviceStep::ReadMetadata(4));

pub const SECOND_READ: Want = Want::Device(DeviceStep::ReadMetadata(3));

pub const ROOT: Want = Want::Device(DeviceStep::WriteRoot);

pub const DONE: Want = Want::End(Answer::Done);

pub const FAILED: Want = Want::End(Answer::Refused(Refusal::Failed));

pub const METADATA_FAILED: Want = Want::End(Answer::Refused(Refusal::Io(Dev::Metadata)));

pub const ORIGIN_FAILED: Want = Want::End(Answer::Refused(Refusal::Io(Dev::Origin)));

pub const SET_FAILED: Want = Want::Cell(CellStep::SetFailed);

pub const LOOK_FAIL: Want = Want::Cell(CellStep::Look(Word::Fail));

pub const LOOK_LOCK: Want = Want::Cell(CellStep::Look(Word::Cell(BLOCK)));

pub const LOOK_SEAL: Want = Want::Cell(CellStep::Look(Word::Seal(BLOCK)));

pub const LOOK_NUMBER: Want = Want::Cell(CellStep::Look(Word::Number(BLOCK)));

pub const SHARE: Want = Want::Cell(CellStep::Take(Access::Shared, BLOCK, 0));

pub const OWN: Want = Want::Cell(CellStep::Take(Access::Owned, BLOCK, 0));

pub const READ_FIRST: Want = Want::Device(DeviceStep::Read(Dev::Origin, FIRST_SECTOR));

pub const READ_SECOND: Want = Want::Device(DeviceStep::Read(Dev::Origin, SECOND_SECTOR));

pub const WRITE_FIRST: Want = Want::Device(DeviceStep::Write(Dev::Origin, FIRST_SECTOR));

pub const WRITE_SECOND: Want = Want::Device(DeviceStep::Write(Dev::Origin, SECOND_SECTOR));

pub const COUNT_READ: Want = Want::Cell(CellStep::Count(Kind::ReadMiss));

pub const COUNT_WRITE: Want = Want::Cell(CellStep::Count(Kind::WriteMiss));

pub const FINISH: Want = Want::Cell(CellStep::Finish(BLOCK));

/// The mapping of a cache of four blocks has one node at most.
pub const ARRIVE: Want = Want::Desk(DeskStep::Arrive(1));

pub const END: Want = Want::Desk(DeskStep::EndCommit);

pub const SHARE_NO_MORE: Want = Want::Cell(CellStep::Release(Access::Shared, BLOCK));

pub const OWN_NO_MORE: Want = Want::Cell(CellStep::Release(Access::Owned, BLOCK));

/// All steps of an opening.
pub const OPENING: [(Want, Got); 8] = [
    (METADATA, Got::Done),
    (CACHE, Got::Done),
    (ORIGIN, Got::Done),
    (FIRST_READ, Got::More),
    (SECOND_READ, Got::Done),
    (ROOT, Got::Done),
    (METADATA, Got::Done),
    (DONE, Got::Done),
];

/// A read up to its device step.
pub const READING: [(Want, Got); 6] = [
    (LOOK_FAIL, Got::Word(0)),
    (LOOK_LOCK, Got::Word(0)),
    (SHARE, Got::Done),
    (LOOK_SEAL, Got::Word(0)),
    (LOOK_NUMBER, Got::Word(0)),
    (READ_FIRST, Got::Done),
];

/// All steps of a write.
pub const WRITING: [(Want, Got); 10] = [
    (LOOK_FAIL, Got::Word(0)),
    (LOOK_LOCK, Got::Word(0)),
    (OWN, Got::Done),
    (LOOK_SEAL, Got::Word(0)),
    (LOOK_NUMBER, Got::Word(0)),
    (WRITE_FIRST, Got::Done),
    (FINISH, Got::Done),
    (COUNT_WRITE, Got::Done),
    (OWN_NO_MORE, Got::Done),
    (DONE, Got::Done),
];
