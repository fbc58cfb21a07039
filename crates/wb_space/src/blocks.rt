//! The states of all cache blocks.

ghost use Rattle.std.specs.Prelude.{◌≡◌, ◌<◌, ◌^◌, ℕ, length, map, IfOk, slice_set, slice_get, Some, replicate};
ghost use Rattle.std.specs.List.{position};
ghost use Rattle.std.specs.Option.{IfSome};
ghost use Rattle.wb_space.specs.Blocks.{is_free, is_late, is_early, commit_begun, commit_ended, opened_block, state};

use crate::Block;
use std::alloc::{AllocError, Global};
use std::marker::Model;
use wb_bits::BitSet;

/// The state of each cache block, and beside them the sets of those that are looked for: the free ones, and
/// the quarantined ones whose removal came before or after the running commit began.
pub struct Blocks {
    states: Vec<Block>,
    free: BitSet,
    late: BitSet,
    early: BitSet,
}

impl Drop for Blocks {
    fn drop(self) {
        let Blocks {
            states,
            free,
            late,
            early,
        } = self;
        drop(states);
        drop(free);
        drop(late);
        drop(early);
    }
}

impl Model for Blocks {
    ghost use Rattle.std.specs.Prelude.{List};
    ghost use Rattle.wb_space.specs.declared.block.Block.{Block};
    ghost use Rattle.wb_space.specs.Indexes.{AreIndexed};

    ghost Value = { List Block };

    ghost view = { λ b. b.states.items };

    ghost invariant = { AreIndexed };
}

impl Blocks {
    /// At an opening: a block with an entry is mapped, any other is free.
    pub fn new(alloc: Global, mapped: &[bool]) -> Result<Blocks, AllocError>
        requires { length mapped.now < 2 ^ 32 }
        ensures { IfOk result (λ blocks. blocks ≡ map opened_block mapped.now) }
    {
        let mut blocks = Blocks::all_mapped(alloc, mapped.len())?;
        blocks.free_unmapped(mapped);
        Ok(blocks)
    }

    /// How many there are.
    pub fn count(&self) -> u32
        ensures { result ≡ length self.now }
    {
        self.states.len() as u32
    }

    /// The state of one.
    pub fn get(&self, c: usize) -> Block
        requires { c < length self.now }
        ensures { slice_get self.now c ≡ Some result }
    {
        self.states[c]
    }

    /// Gives one another state.
    pub fn put(&mut self, c: usize, block: Block)
        requires { c < length self.old }
        ensures { self.new ≡ slice_set self.old c block }
    {
        self.states[c] = block;
        self.free.set(c, block.is_free());
        self.late.set(c, block.is_late());
        self.early.set(c, block.is_early());
    }

    /// The least free one.
    pub fn least_free(&self) -> Option<usize>
        ensures value { result ≡ position is_free self.now }
        ensures small { IfSome result (λ c. c < 2 ^ 32) }
    {
        self.free.least()
    }

    /// A commit begins: a few words' work for each block removed since the last one began.
    pub fn begin(&mut self)
        ensures { self.new ≡ map commit_begun self.old }
    {
        while let Some(c) = self.least_late() {
            self.put(c, self.get(c).commit_begun());
        }
    }

    /// It ends: a few words' work for each block removed before it began.
    pub fn end(&mut self)
        ensures { self.new ≡ map commit_ended self.old }
    {
        while let Some(c) = self.least_early() {
            self.put(c, self.get(c).commit_ended());
        }
    }

    fn all_mapped(alloc: Global, count: usize) -> Result<Blocks, AllocError>
        requires { count < 2 ^ 32 }
        ensures { IfOk result (λ blocks. blocks ≡ replicate count Block.Mapped) }
    {
        Ok(Blocks {
            states: vec![in alloc; Block::Mapped; count]?,
            free: BitSet::new(alloc, count)?,
            late: BitSet::new(alloc, count)?,
            early: BitSet::new(alloc, count)?,
        })
    }

    fn free_unmapped(&mut self, mapped: &[bool])
        requires { self.old ≡ replicate (length mapped.now) Block.Mapped }
        ensures { self.new ≡ map opened_block mapped.now }
    {
        for c in 0..mapped.len() {
            self.put(c, opened(mapped[c]));
        }
    }

    fn least_late(&self) -> Option<usize>
        ensures { result ≡ position is_late self.now }
    {
        self.late.least()
    }

    fn least_early(&self) -> Option<usize>
        ensures { result ≡ position is_early self.now }
    {
        self.early.least()
    }
}

fn opened(mapped: bool) -> Block
    ensures { result ≡ opened_block mapped }
{
    if mapped { Block::Mapped } else { Block::Free }
}
