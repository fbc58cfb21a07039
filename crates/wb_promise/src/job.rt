//! What an actor can be told to do.

use wb_tasks::Migration;
use wb_types::{Content, Extent, Mode, OBlock};

/// A task with its arguments.
#[derive(Clone, Copy)]
pub enum Job {
    Read(Extent),
    /// Writes this content to each sector.
    Write(Extent, Content),
    /// Makes durable all that was finished when it started.
    Flush,
    /// Makes durable what a flush does, with a root that is marked clean and the dirty bits and hints of what is mapped, and leaves the target
    /// suspended. It is alone: its start is refused `Busy` where anybody has a task, and none starts before its answer.
    Suspend,
    /// Opens a target in this mode over what the devices hold, and asks for metadata of the second version or not: those of the first are
    /// written anew then, and those of the second stay so in any case. Its start is refused `Geometry` where the metadata device is too small
    /// for the second version. In passthrough it is refused `NotClean` where the devices do not tell that all copies in the cache are as the
    /// origin has them.
    Open(Mode, bool),
    /// In passthrough alone: takes this block out of the cache, if it is there, without a copy.
    Invalidate(OBlock),
    /// Moves this block between the origin and the cache, under an order of the desk. Its start gives the order, and is refused
    /// `Busy` where it may not be given; an actor that keeps this very order starts again under it.
    Migrate(Migration, OBlock),
    /// Demotes the first block, under an order by which the second one is to follow it in its cache block. Its start gives the order, and is
    /// refused `Busy` where it may not be given; an actor that keeps this very order starts again under it, until the block has left. Then
    /// a flush of this actor is to be done, and a promotion of the second block started, which is refused `Busy` until it is.
    Replace(OBlock, OBlock),
}
