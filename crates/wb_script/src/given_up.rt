//! What a formatting writes over, and who is asked.

ghost use Rattle.std.specs.Prelude.{◌≡◌, IfSome, IfNone, IsTrue, length, map};
ghost use Rattle.wb_disk.specs.Device.{newest};
ghost use Rattle.wb_script.specs.Formatting.{IsOfCache, IsOver, IsOverNothing, course_over, is_cache, may_be_dirty};

use crate::sparse::SparseFile;
use std::alloc::Global;
use std::fmt;
use std::fmt::{Display, Formatter};
use wb_checks::{Front, ThresholdNotice, look_at_front};
use wb_devices::stored_entry;
use wb_disk::Disk;
use wb_meta::{State, read_state};
use wb_types::CBlock;

/// The cache that a metadata device stands for: its blocks, how many of them are mapped, and how many may be newer than the origin's.
#[derive(Clone, Copy, PartialEq, Eq)]
pub struct GivenUp {
    pub cache_blocks: u32,
    pub mapped: u32,
    pub dirty: u32,
}

/// What a formatting writes over, where that is not nothing.
#[derive(Clone, Copy, PartialEq, Eq)]
pub enum Overwritten {
    /// A cache with blocks in it.
    Cache(GivenUp),
    /// A cache of which the newest root is valid, and the mapping cannot be read for these devices.
    Unread,
    /// First sectors that are neither zeros nor a root of a cache.
    SomethingElse,
    /// First sectors that cannot be read.
    Unreadable,
}

/// What its caller wants of a formatting.
#[derive(Clone, Copy, PartialEq, Eq)]
pub struct Wishes {
    /// Nothing is asked, and what is no cache's metadata is written over.
    pub force: bool,
    /// Nothing is asked on a terminal.
    pub yes: bool,
    /// Where nobody can be asked, a cache with a dirty block stays.
    pub careful: bool,
}

/// What a formatting does about what it writes over.
#[derive(Clone, Copy, PartialEq, Eq)]
pub enum Course {
    GoesOn,
    Asks,
    Refuses,
}

/// What a formatting does with these wishes, on a terminal or elsewhere.
///
/// On a terminal it asks, unless a wish answers. Elsewhere it goes on over a cache, unless that may have a dirty block and it is to be careful,
/// and over what is no cache's metadata only by force.
pub fn choose_course(over: Overwritten, wishes: Wishes, is_terminal: bool) -> Course
    ensures { result ≡ course_over over wishes is_terminal }
{
    if is_terminal {
        if wishes.force || wishes.yes {
            Course::GoesOn
        } else {
            Course::Asks
        }
    } else if over.is_cache() {
        if wishes.careful && over.may_be_dirty() {
            Course::Refuses
        } else {
            Course::GoesOn
        }
    } else if wishes.force {
        Course::GoesOn
    } else {
        Course::Refuses
    }
}

impl Overwritten {
    /// Whether it is a cache's metadata.
    fn is_cache(self) -> bool
        ensures { result ≡ is_cache self }
    {
        matches!(self, Overwritten::Cache(_) | Overwritten::Unread)
    }

    /// Whether a block of a cache may not be on the origin.
    fn may_be_dirty(self) -> bool
        ensures { result ≡ may_be_dirty self }
    {
        match self {
            Overwritten::Cache(given_up) => given_up.dirty > 0,
            _ => true,
        }
    }
}

/// What is told of a formatting that was done.
#[derive(Clone, Copy)]
pub enum Notice<'a> {
    Sparse(SparseFile<'a>),
    Threshold(ThresholdNotice),
}

/// Who is asked before a formatting writes over something, and is told of what was formatted.
pub trait Consent {
    ghost use Rattle.wb_script.specs.declared.given_up.Overwritten.{Overwritten as OverwrittenTerm};

    /// What may be written over.
    ghost allows: { Self → OverwrittenTerm → Type 0 };

    /// Whether a formatting of the metadata file of this name may write over this.
    fn may_format(&mut self, file: &str, over: Overwritten) -> bool
        ensures { IsTrue result → allows self.old over };

    /// Tells a notice.
    fn tell(&mut self, notice: Notice<'_>);
}

/// What a formatting of this device writes over; none where that is blank, or a cache in which nothing is mapped. It writes nothing.
pub fn find_overwritten<D: Disk>(alloc: Global, metadata: &mut D) -> Option<Overwritten>
    ensures size { D.size metadata.new ≡ D.size metadata.old }
    ensures same { D.tells → D.contents metadata.new ≡ D.contents metadata.old }
    ensures over { D.tells → IfSome result (IsOver (map newest (D.contents metadata.old))) }
    ensures nothing { D.tells → IfNone result (IsOverNothing (map newest (D.contents metadata.old))) }
{
    match look_at_front(metadata) {
        Front::Blank => None,
        Front::Formatted => find_given_up(alloc, metadata),
        Front::SomethingElse => Some(Overwritten::SomethingElse),
        Front::Unreadable => Some(Overwritten::Unreadable),
    }
}

/// What is given up of the cache that this device stands for; none where nothing is mapped.
fn find_given_up<D: Disk>(alloc: Global, metadata: &mut D) -> Option<Overwritten>
    ensures size { D.size metadata.new ≡ D.size metadata.old }
    ensures same { D.tells → D.contents metadata.new ≡ D.contents metadata.old }
    ensures over { IfSome result IsOfCache }
{
    match read_state(alloc, alloc, metadata) {
        Ok(state) => {
            let given_up = count_blocks(&state);
            drop(state);
            if given_up.mapped == 0 {
                None
            } else {
                Some(Overwritten::Cache(given_up))
            }
        }
        Err(_) => Some(Overwritten::Unread),
    }
}

/// Counts the blocks of a state that was read. Without the clean flag each that is mapped may be newer than the origin's.
fn count_blocks(state: &State<Global>) -> GivenUp
    requires { length state.now.tree.entries ≡ state.now.root.geometry.cache_blocks }
{
    let cache_blocks = state.root.geometry.cache_blocks;
    let (mut mapped, mut dirty) = (0u32, 0u32);
    for number in 0..cache_blocks {
        if let Some(entry) = stored_entry(state, CBlock(number)) {
            mapped = mapped.saturating_add(1);
            if entry.dirty || !state.root.clean {
                dirty = dirty.saturating_add(1);
            }
        }
    }
    GivenUp {
        cache_blocks,
        mapped,
        dirty,
    }
}

impl Display for GivenUp {
    fn fmt<W: fmt::Write>(&self, f: &mut Formatter<W>) -> fmt::Result {
        let (cache_blocks, mapped, dirty) = (self.cache_blocks, self.mapped, self.dirty);
        write!(
            f,
            "formatting gives up a cache: {mapped} of {cache_blocks} cache blocks mapped, {dirty} dirty"
        )
    }
}

/// What a formatting writes over, with the name of the metadata file.
#[derive(Clone, Copy)]
pub struct Overwriting<'a> {
    pub file: &'a str,
    pub over: Overwritten,
}

impl<'a> Display for Overwriting<'a> {
    fn fmt<W: fmt::Write>(&self, f: &mut Formatter<W>) -> fmt::Result {
        let file = self.file;
        match self.over {
            Overwritten::Cache(given_up) => write!(f, "{given_up}"),
            Overwritten::Unread => write!(
                f,
                "formatting gives up a cache, of which the mapping cannot be read: 'wbmeta check' says why"
            ),
            Overwritten::SomethingElse => write!(
                f,
                "{file}: its first sectors hold something else than a cache's metadata"
            ),
            Overwritten::Unreadable => write!(f, "{file}: its first sectors cannot be read"),
        }
    }
}

impl Overwritten {
    /// What is to be done where a formatting over it was refused.
    pub fn remedy(self) -> &'static str {
        match self {
            Overwritten::Cache(_) | Overwritten::Unread => {
                "--careful keeps it: 'wbmeta writeback' with the same table writes home what is dirty"
            }
            Overwritten::SomethingElse | Overwritten::Unreadable =>
                "--force formats it all the same",
        }
    }
}

impl<'a> Display for Notice<'a> {
    fn fmt<W: fmt::Write>(&self, f: &mut Formatter<W>) -> fmt::Result {
        match self {
            Notice::Sparse(file) => write!(f, "{file}"),
            Notice::Threshold(notice) => write!(f, "{notice}"),
        }
    }
}
