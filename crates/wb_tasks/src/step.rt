//! Single atomic steps, and what comes of them.

use wb_types::{CBlock, Dev, Extent, OBlock, Refusal};
use wb_words::{CellResult, CellStep};

/// A migration of a block.
#[derive(Clone, Copy, PartialEq, Eq)]
pub enum Migration {
    /// Brings the block into this cache block.
    Promote(CBlock),
    /// Takes the block out of the cache.
    Demote,
    /// Writes the block's dirty copy in the cache back, and keeps it there.
    Clean,
}

/// A step on one device. Sectors are counted from 0 on each device. What a read gives, and what a write writes, is
/// with the performer.
#[derive(Clone, Copy, PartialEq, Eq)]
pub enum DeviceStep {
    Read(Dev, Extent),
    Write(Dev, Extent),
    Sync(Dev),
    /// Reads the next sector that an opening wants of the metadata; it reads at most so many more, and as the nodes of an image writes
    /// at most what is left of them.
    ReadMetadata(u32),
    /// Writes the node of this number of the image of a commit or of an opening.
    WriteNode(u32),
    /// Writes the root of a commit or of an opening.
    WriteRoot,
}

/// A call on the desk, under its lock.
#[derive(Clone, Copy, PartialEq, Eq)]
pub enum DeskStep {
    /// Enters a block into the mapping.
    Map(OBlock, CBlock),
    /// Removes a block from the mapping.
    Unmap(OBlock),
    /// Gives up the order under which a migration of this block runs.
    ReleaseOrder(OBlock),
    /// Asks to lead a commit, whose image has at most so many nodes; where one runs, for a ticket of the next.
    Arrive(u32),
    /// Asks, with a ticket, whether a commit has ended that serves it, or else to lead one, whose image has at most so many nodes. It
    /// cannot be taken while a commit runs that began too early to serve the ticket.
    Ask(u32),
    /// Takes the image of a commit, of at most so many nodes, whose root is to be marked clean.
    BeginCommit(u32),
    EndCommit,
    /// After a fault in a commit: none begins any more.
    BreakCommit,
}

/// How a task ends.
#[derive(Clone, Copy, PartialEq, Eq)]
pub enum Answer {
    Done,
    Refused(Refusal),
}

/// What a task wants next: one atomic step, or to answer.
#[derive(Clone, Copy, PartialEq, Eq)]
pub enum Want {
    Cell(CellStep),
    Device(DeviceStep),
    Desk(DeskStep),
    End(Answer),
}

/// What came of a step.
#[derive(Clone, Copy, PartialEq, Eq)]
pub enum Got {
    /// Nothing yet: the task has just begun.
    Begin,
    /// It was done.
    Done,
    /// The word that was looked at.
    Word(u64),
    /// The exchange was lost to another.
    Lost,
    /// The device failed.
    Fault,
    /// The desk refused, or what was read of the metadata is no mapping.
    Refused(Refusal),
    /// A commit began, whose image has so many nodes; or all metadata were read, and an opening has such an image to write.
    Began(u32),
    /// A commit runs, and there is a ticket now of the one that comes after it.
    Ticket,
    /// A commit has ended that began after the ticket was given.
    Served,
    /// There is more of the metadata to read.
    More,
}

impl From<CellResult> for Got {
    ghost use Rattle.std.specs.Prelude.{◌≡◌};
    ghost use Rattle.wb_tasks.specs.Plan.{got_of};

    ghost from_gives = { λ outcome gives. gives ≡ got_of outcome };

    fn from(outcome: CellResult) -> Got {
        match outcome {
            CellResult::Done => Got::Done,
            CellResult::Word(word) => Got::Word(word),
            CellResult::Lost => Got::Lost,
        }
    }
}
