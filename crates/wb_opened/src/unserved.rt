//! Why a target of files was not served, for who reads standard error.

use crate::difference::Difference;
use crate::inspector::Uninspected;
use std::fmt;
use std::fmt::{Display, Formatter};
use wb_files::Unopened;
use wb_types::Refusal;

/// Why a target of files was not served.
#[derive(Drop)]
pub enum Unserved<'a> {
    /// The files of its table cannot serve.
    Unopened(Unopened<'a>),
    /// What was looked at before the opening refused it.
    Uninspected(Uninspected),
    /// There is no memory, or a step of an open device failed, or what the devices hold is no target of this table.
    Refused(Refusal),
    /// The metadata are those of other files, or of another block size.
    Differs(Difference),
}

impl<'a> Unserved<'a> {
    /// What is printed for it.
    pub fn refusal(&self) -> Refusal {
        match self {
            Unserved::Unopened(unopened) => unopened.refusal(),
            Unserved::Uninspected(uninspected) => uninspected.refusal(),
            Unserved::Refused(refusal) => *refusal,
            Unserved::Differs(_) => Refusal::Mismatch,
        }
    }
}

impl<'a> Display for Unserved<'a> {
    fn fmt<W: fmt::Write>(&self, f: &mut Formatter<W>) -> fmt::Result {
        match self {
            Unserved::Unopened(unopened) => write!(f, "{unopened}"),
            Unserved::Uninspected(uninspected) => write!(f, "{uninspected}"),
            Unserved::Refused(Refusal::Io(device)) => {
                write!(f, "{device} file: a read, a write or a sync failed")
            }
            Unserved::Refused(Refusal::NotFormatted) => write!(
                f,
                "10 NotFormatted: the metadata file has no valid root; if it was a cache's, look by 'wbmeta check' first: 'wbcache format' with the same table makes it that of an empty cache, and loses blocks that are not on the origin"
            ),
            Unserved::Refused(Refusal::NotClean) => write!(
                f,
                "13 NotClean: passthrough needs a cache that was left clean: 'wbmeta writeback' with the same table writes all that is dirty home, and leaves it so"
            ),
            Unserved::Differs(difference) => write!(f, "12 Mismatch: {difference}"),
            Unserved::Refused(refusal) => write!(f, "{refusal}"),
        }
    }
}
