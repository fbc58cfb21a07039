//! Why something was refused, for who reads standard error.

use std::fmt;
use std::fmt::{Display, Formatter};
use wb_dialogue::{StreamFailed, Tally};
use wb_opened::Unserved;

/// Why a run or a formatting did not end well, or what else is to be told at its end.
#[derive(Drop)]
pub enum Reason<'a> {
    Unserved(Unserved<'a>),
    /// Lines of a script were refused.
    Lines(Tally),
    /// So many writes of a script that ended well were not flushed.
    Unflushed(u64),
    Stream(StreamFailed),
}

impl<'a> Display for Reason<'a> {
    fn fmt<W: fmt::Write>(&self, f: &mut Formatter<W>) -> fmt::Result {
        match self {
            Reason::Unserved(unserved) => write!(f, "{unserved}"),
            Reason::Lines(tally) => write!(f, "{tally}"),
            Reason::Unflushed(1) => write!(f, "1 write was not flushed, and may be lost"),
            Reason::Unflushed(count) => write!(
                f,
                "{count} writes were not flushed, and may be lost"
            ),
            Reason::Stream(StreamFailed::Reader) => write!(f, "the script cannot be read further"),
            Reason::Stream(StreamFailed::Writer) => write!(f, "an answer cannot be written"),
        }
    }
}
