//! The mapped blocks in the order of their last use.

ghost use Rattle.std.specs.Prelude.{◌≡◌, [], IfOk, IfErr, OnOk, OnErr, is_some, map, nat_eq};
ghost use Rattle.std.specs.Map.{lookup};
ghost use Rattle.std.specs.Option.{option_map};
ghost use Rattle.wb_policy.specs.Recency.{used, mapped_in_order, newly_mapped, no_longer_mapped, least_recent, is_idle, is_dirty_and_idle};

use crate::Tick;
use crate::situation::{is_busy, is_dirty};
use lru::LruCache;
use std::alloc::Global;
use std::marker::Model;
use std::num::NonZeroUsize;
use wb_types::{CBlock, OBlock, Refusal};

/// The mapped origin blocks with their cache blocks, the most recently used first.
pub(crate) struct Recency {
    blocks: LruCache<u32, u32>,
}

impl Drop for Recency {
    fn drop(self) {
        let Recency { blocks } = self;
        drop(blocks);
    }
}

impl Model for Recency {
    ghost use Rattle.std.specs.Prelude.{◌≡◌, ◌^◌, ◌-◌, ℕ, List};

    ghost Value = { List (ℕ × ℕ) };

    ghost view = { λ r. r.blocks.entries };

    ghost invariant = { λ r. r.blocks.cap ≡ 2 ^ 64 - 1 };
}

impl Recency {
    /// No block is mapped. `Memory` where there is none.
    pub(crate) fn new(alloc: Global) -> Result<Recency, Refusal>
        ensures value { IfOk result (λ r. r ≡ []) }
        ensures refused { IfErr result (λ e. e ≡ Refusal.Memory) }
    {
        let blocks = LruCache::unbounded(alloc)?;
        Ok(Recency { blocks })
    }

    /// These blocks are mapped one after the other, each with its hint, which is of no account here, and its cache block. The table is made
    /// for them all at once, and grows with those that follow. `Memory` where there is none.
    pub(crate) fn of(alloc: Global, placed: &[(u8, (u32, u32))]) -> Result<Recency, Refusal>
        ensures value { IfOk result (λ r. r ≡ mapped_in_order [] (map (λ p. (p.1.1, p.1.0)) placed.now)) }
        ensures refused { IfErr result (λ e. e ≡ Refusal.Memory) }
    {
        let Some(room) = NonZeroUsize::new(placed.len()) else {
            return Recency::new(alloc);
        };
        let mut blocks = LruCache::new(alloc, room)?;
        for number in 0..placed.len() {
            let (_, (at, block)) = placed[number];
            match blocks.put(block, at) {
                Ok(_) => {}
                Err(_) => return Err(Refusal::Memory),
            }
        }
        let _fits = blocks.len();
        blocks.resize(NonZeroUsize::MAX);
        Ok(Recency { blocks })
    }

    /// A block is used: where it is mapped it becomes the most recent. Whether it is mapped.
    pub(crate) fn touch(&mut self, block: OBlock) -> bool
        ensures mapped { result ≡ is_some (lookup (nat_eq block.0) self.old) }
        ensures order { self.new ≡ used block.0 self.old }
    {
        let OBlock(number) = block;
        self.blocks.promote(&number)
    }

    /// A block is mapped, and is the most recent. `Memory` where there is none, and then nothing changed.
    pub(crate) fn insert(&mut self, block: OBlock, at: CBlock) -> Result<(), Refusal>
        ensures ok { OnOk result (self.new ≡ newly_mapped block.0 at.0 self.old) }
        ensures err { OnErr result (self.new ≡ self.old) }
        ensures refused { IfErr result (λ e. e ≡ Refusal.Memory) }
    {
        let (OBlock(number), CBlock(place)) = (block, at);
        let _fits = self.blocks.len();
        match self.blocks.put(number, place) {
            Ok(_) => Ok(()),
            Err(_) => Err(Refusal::Memory),
        }
    }

    /// A block is mapped no longer.
    pub(crate) fn remove(&mut self, block: OBlock)
        ensures { self.new ≡ no_longer_mapped block.0 self.old }
    {
        let OBlock(number) = block;
        let _place = self.blocks.pop(&number);
    }

    /// The least recently used block without a live order, with its cache block. One step, and one for each less
    /// recent block with a live order.
    pub(crate) fn least_idle(&self, busy: &[bool]) -> Option<(OBlock, CBlock)>
        ensures { option_map (λ e. (e.0.0, e.1.0)) result ≡ least_recent (is_idle busy.now) self.now }
    {
        for (block, at) in self.blocks.iter().rev() {
            let block = OBlock(*block);
            if !is_busy(busy, block) {
                return Some((block, CBlock(*at)));
            }
        }
        None
    }

    /// The least recently used block that was seen dirty and has no live order, with its cache block. One step for it
    /// and for each less recent block, none where no block was seen dirty.
    pub(crate) fn least_dirty(&self, tick: &Tick<'_>) -> Option<(OBlock, CBlock)>
        ensures { option_map (λ e. (e.0.0, e.1.0)) result ≡ least_recent (is_dirty_and_idle tick.now.busy.now tick.now.dirty.now) self.now }
    {
        if tick.dirty.is_empty() {
            return None;
        }
        for (number, place) in self.blocks.iter().rev() {
            let (block, at) = (OBlock(*number), CBlock(*place));
            if is_to_clean(tick, block, at) {
                return Some((block, at));
            }
        }
        None
    }
}

/// Whether a mapped block was seen dirty and has no live order.
fn is_to_clean(tick: &Tick<'_>, block: OBlock, at: CBlock) -> bool
    ensures { result ≡ is_dirty_and_idle tick.now.busy.now tick.now.dirty.now (block.0, at.0) }
{
    is_dirty(tick, at) && !is_busy(tick.busy, block)
}
