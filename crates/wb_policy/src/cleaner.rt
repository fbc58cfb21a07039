//! The policy that writes everything back.

ghost use Rattle.std.specs.Prelude.{◌≡◌, ◌≤◌, ℕ, Option, Some, None, IfSome};
ghost use Rattle.std.specs.List.{find};
ghost use Rattle.wb_policy.specs.Cleaner.{is_waiting, chosen, next_in_turn};

use crate::situation::is_busy;
use crate::{Order, Policy, Settled, Tick};
use std::alloc::Global;
use std::marker::Model;
use wb_types::{CBlock, Entry, Geometry, Key, Mode, OBlock, Refusal};

/// Promotes nothing and writes back every dirty block, for a cache that is to be taken away (the kernel's `cache.rst`,
/// "cleaner"). Its hints are 0.
#[derive(Drop)]
pub struct Cleaner {
    /// The cache block that it ordered last.
    last: Option<u32>,
    block_sectors: u32,
}

impl Model for Cleaner {
    ghost use Rattle.wb_policy.specs.Cleaner.{Progress};

    ghost Value = { Progress };

    ghost view = { λ c. record { last = c.last; block_sectors = c.block_sectors } };
}

impl Cleaner {
    /// The block that is written back next, if any may be.
    fn choose(&self, tick: &Tick<'_>) -> Option<(CBlock, OBlock)>
        ensures { result ≡ chosen self.now tick.now }
    {
        let passes_by = matches!(tick.mode, Mode::Passthrough);
        if passes_by || u64::from(self.block_sectors) > tick.room {
            return None;
        }
        self.next_in_turn(tick)
    }

    /// The next block in turn that has no live order. A search by halves, then one step for it and for each block with
    /// a live order that is passed.
    fn next_in_turn(&self, tick: &Tick<'_>) -> Option<(CBlock, OBlock)>
        ensures { result ≡ next_in_turn self.now tick.now }
    {
        match self.last {
            None => first_idle(tick.dirty, tick.busy),
            Some(last) => {
                let start = tick.dirty.partition_point(|(at, _)| at.0 <= last);
                let (before, behind) = tick.dirty.split_at(start);
                match first_idle(behind, tick.busy) {
                    Some(found) => Some(found),
                    None => first_idle(before, tick.busy),
                }
            }
        }
    }
}

/// The first block without a live order.
fn first_idle(dirty: &[(CBlock, OBlock)], busy: &[bool]) -> Option<(CBlock, OBlock)>
    ensures { result ≡ find (is_waiting busy.now) dirty.now }
{
    for number in 0..dirty.len() {
        let (at, block) = dirty[number];
        if !is_busy(busy, block) {
            return Some((at, block));
        }
    }
    None
}

impl Policy for Cleaner {
    ghost use Rattle.std.specs.Prelude.{None, codes};
    ghost use Rattle.wb_policy.specs.Cleaner.{BeginsWith, cleaned as cleans, ticked as moves_on};

    ghost knows = { λ _ _. Unit {0} };

    ghost begun = { BeginsWith };

    ghost ordered = { λ _ _. None };

    ghost settled = { λ p _. p };

    ghost cleaned = { cleans };

    ghost ticked = { moves_on };

    ghost with_entry = { λ p _ _. p };

    ghost without_entry = { λ p _. p };

    ghost hint_of = { λ _ _. 0 };

    ghost with_setting = { λ _ _ _. None };

    ghost name = { codes "cleaner" };

    ghost promote_min = { λ _. None };

    /// Begins at cache block 0.
    fn new(
        _alloc: Global,
        geometry: &Geometry,
        _mapping: &[Option<Entry>],
    ) -> Result<Cleaner, Refusal> {
        Ok(Cleaner {
            last: None,
            block_sectors: geometry.block,
        })
    }

    fn settle(&mut self, _access: &Settled<'_>) -> Option<Order> {
        None
    }

    fn tick(&mut self, tick: &Tick<'_>, _given: u32) -> Option<Order> {
        match self.choose(tick) {
            Some((CBlock(at), block)) => {
                self.last = Some(at);
                Some(Order::Clean(block))
            }
            None => None,
        }
    }

    fn mapped(&mut self, _b: OBlock, _c: CBlock) -> Result<(), Refusal> {
        Ok(())
    }

    fn unmapped(&mut self, _b: OBlock) {}

    fn hint(&self, _b: OBlock) -> u8 {
        0
    }

    fn set(&mut self, _key: Key, _value: u64) -> Result<(), Refusal> {
        Err(Refusal::BadMessage)
    }

    fn shown(&self) -> (&'static str, Option<u64>) {
        ("cleaner", None)
    }
}
