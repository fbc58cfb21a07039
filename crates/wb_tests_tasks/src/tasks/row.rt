//! A task, what it meets, and what it wants then.

use wb_tasks::*;
use wb_types::Mode;
use wb_words::Word;

#[derive(Clone, Copy)]
pub struct Row {
    pub name: &'static str,
    /// What is done with the block; a read or write is of two of its sectors.
    pub job: Work,
    /// The mode of a read or write.
    pub mode: Mode,
    /// How many sectors a step takes at most.
    pub longest: u64,
    /// Whether the block is mapped, to cache block 1, and dirty there.
    pub mapped: Option<bool>,
    /// The step on a device that fails, by its number.
    pub fails: Option<u32>,
    /// A word that another has left at this value.
    pub shows: Option<(Word, u64)>,
    /// Another shares the block before the exchange.
    pub is_raced: bool,
    /// The desk has no memory for an entry.
    pub is_full: bool,
    pub answer: Answer,
    /// The wants from this one on.
    pub from: usize,
    pub wants: &'static [Want],
    /// How many wants come after those.
    pub more: usize,
    /// What words are afterwards.
    pub words: &'static [(Word, u64)],
    /// What all of the task's sectors hold afterwards, on the origin and in the cache.
    pub holds: Option<(u8, u8)>,
    /// Whether the mapping has the block, and whether the migration has its order.
    pub is_mapped: bool,
    pub has_order: bool,
}
