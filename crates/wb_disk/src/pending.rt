//! One sector of a disk in memory.

ghost use Rattle.std.specs.Prelude.{◌≡◌, ◌<◌, ◌↔◌, IsTrue, IsOk, OnOk, OnErr, IfErr};
ghost use Rattle.wb_types.specs.declared.refusal.Refusal.TheVariants.{Memory as OutOfMemory};
ghost use Rattle.wb_disk.specs.Device.{newest, added, only};
ghost use Rattle.wb_disk.specs.Memory.{blank, later_count};
ghost use Rattle.wb_disk.specs.Crash.{base_position};
ghost use Rattle.wb_disk.specs.Stored.{history, capacity_of, cut_at_mark, HasMark};

use crate::Base;
use std::alloc::Global;
use wb_types::{Content, Refusal};

/// The pending contents of a sector: what it held at the last sync, and the writes since.
///
/// The mark is the position of the content that a crash would keep. It is set before a crash is carried out
/// and means nothing otherwise.
#[derive(Drop)]
pub(crate) struct Pending {
    durable: Content,
    later: Vec<Content>,
    mark: u64,
}

impl Pending {
    /// A sector that was never written.
    pub(crate) fn blank(alloc: Global) -> Pending
        ensures contents { history result ≡ blank }
        ensures capacity { capacity_of result ≡ 0 }
    {
        Pending {
            durable: [0; 512],
            later: Vec::new(alloc),
            mark: 0,
        }
    }

    /// The newest content.
    pub(crate) fn newest(&self) -> &Content
        ensures { result.now ≡ newest (history self.now) }
    {
        match self.later.last() {
            Some(last) => last,
            None => &self.durable,
        }
    }

    /// Makes room for one content more.
    pub(crate) fn make_room(&mut self) -> Result<(), Refusal>
        ensures contents { history self.new ≡ history self.old }
        ensures room { OnOk result (later_count (history self.new) < capacity_of self.new) }
        ensures err { OnErr result (capacity_of self.new ≡ capacity_of self.old) }
        ensures had { later_count (history self.old) < capacity_of self.old → IsOk result }
        ensures stays { later_count (history self.old) < capacity_of self.old → capacity_of self.new ≡ capacity_of self.old }
        ensures refusal { IfErr result (λ refusal. refusal ≡ OutOfMemory) }
    {
        if self.later.len() == self.later.capacity() {
            self.later.reserve(1)?;
        }
        Ok(())
    }

    /// One content more, for which there is room.
    pub(crate) fn add(&mut self, content: &Content)
        requires { later_count (history self.old) < capacity_of self.old }
        ensures contents { history self.new ≡ added (history self.old) content.now }
        ensures capacity { capacity_of self.new ≡ capacity_of self.old }
    {
        self.later.push_reserved(*content);
    }

    /// Keeps the newest content alone.
    pub(crate) fn settle(&mut self)
        ensures contents { history self.new ≡ only (newest (history self.old)) }
        ensures capacity { capacity_of self.new ≡ capacity_of self.old }
    {
        self.durable = *self.newest();
        self.later.clear();
    }

    /// Marks the content of a base.
    pub(crate) fn mark_base(&mut self, base: Base)
        ensures contents { history self.new ≡ history self.old }
        ensures capacity { capacity_of self.new ≡ capacity_of self.old }
        ensures mark { self.new.mark ≡ base_position base (history self.old) }
    {
        self.mark = match base {
            Base::Durable => 0,
            Base::Newest => self.later.len() as u64,
        };
    }

    /// Marks the content at a position.
    pub(crate) fn mark_position(&mut self, position: u64)
        ensures contents { history self.new ≡ history self.old }
        ensures capacity { capacity_of self.new ≡ capacity_of self.old }
        ensures mark { self.new.mark ≡ position }
    {
        self.mark = position;
    }

    /// Whether there is a content at the mark.
    pub(crate) fn is_mark_there(&self) -> bool
        ensures { IsTrue result ↔ HasMark self.now }
    {
        self.mark <= self.later.len() as u64
    }

    /// Keeps the content at the mark alone.
    pub(crate) fn cut(&mut self)
        ensures contents { history self.new ≡ cut_at_mark self.old }
        ensures capacity { capacity_of self.new ≡ capacity_of self.old }
    {
        if self.mark > 0
            && let Some(content) = self.later.get((self.mark - 1) as usize)
        {
            self.durable = *content;
        }
        self.later.clear();
    }
}
