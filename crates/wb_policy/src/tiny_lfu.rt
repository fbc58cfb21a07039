//! The policy that caches what is accessed often.

ghost use Rattle.std.specs.Prelude.{◌≡◌, ◌≤◌, ◌<◌, ◌^◌, ℕ, Option, Some, None, false, IfOk, IfErr, OnOk, OnErr, IfSome, length, codes};
ghost use Rattle.wb_policy.specs.Law.{Holdings, AreMapped, IsLawful};
ghost use Rattle.wb_policy.specs.Recency.{AgreesWith, least_recent, is_idle};
ghost use Rattle.wb_policy.specs.Placing.{IsPlacedByHint, mapped_from};
ghost use Rattle.wb_policy.specs.TinyLfu.{decided, may_come_in, replacing_order, cleaned};
ghost use Rattle.wb_sketch.specs.Frequencies.{estimate_of};

use crate::recency::Recency;
use crate::situation::is_busy;
use crate::{Order, Policy, Settled, Tick};
use std::alloc::{AllocError, Global};
use std::marker::Model;
use wb_sketch::Sketch;
use wb_types::{CBlock, Entry, Geometry, Key, Mode, OBlock, Refusal};

/// Caches a block once its estimate is high enough, and replaces the least recently used block by one that is
/// accessed more often: TinyLFU's admission (Einziger, Friedman and Manes, ACM Transactions on Storage 2017) over a list
/// by recency. Its hints are the estimates.
pub struct TinyLfu {
    sketch: Sketch,
    recency: Recency,
    /// The least estimate at which a block is promoted, 1 to 17.
    promote_min: u8,
    block_sectors: u32,
}

impl Drop for TinyLfu {
    fn drop(self) {
        let TinyLfu {
            sketch,
            recency,
            promote_min: _,
            block_sectors: _,
        } = self;
        drop(sketch);
        drop(recency);
    }
}

impl Model for TinyLfu {
    ghost use Rattle.wb_policy.specs.TinyLfu.{Knowledge};

    ghost Value = { Knowledge };

    ghost view = { λ t. record { frequencies = t.sketch; recency = t.recency; promote_min = t.promote_min; block_sectors = t.block_sectors } };
}

impl TinyLfu {
    /// What is ordered for a block that is not mapped, once the access has counted.
    fn decide(&self, access: &Settled<'_>) -> Option<Order>
        ensures { result ≡ decided self.now access.now }
    {
        if !self.may_come_in(access) {
            return None;
        }
        match access.least_free {
            Some(free) => {
                if u64::from(self.block_sectors) <= access.room {
                    Some(Order::Promote(access.block, free))
                } else {
                    None
                }
            }
            None => self.replace(access),
        }
    }

    /// Whether a block that is not mapped may come in.
    fn may_come_in(&self, access: &Settled<'_>) -> bool
        ensures { result ≡ may_come_in self.now access.now }
    {
        let passes_by = matches!(access.mode, Mode::Passthrough);
        !passes_by
            && !is_busy(access.busy, access.block)
            && self.promote_min <= self.sketch.estimate(access.block)
    }

    /// The replacement of the least recently used block without a live order, where the accessed one is estimated
    /// higher and there is room.
    fn replace(&self, access: &Settled<'_>) -> Option<Order>
        ensures { result ≡ replacing_order self.now access.now (least_recent (is_idle access.now.busy.now) self.now.recency) }
    {
        match self.recency.least_idle(access.busy) {
            Some((victim, at)) => {
                let is_higher = self.sketch.estimate(victim) < self.sketch.estimate(access.block);
                if is_higher && 2 * u64::from(self.block_sectors) <= access.room {
                    Some(Order::Replace(victim, access.block, at))
                } else {
                    None
                }
            }
            None => None,
        }
    }

    /// The write-back of the least recently used block that was seen dirty and has no live order, where there is room.
    fn clean(&self, tick: &Tick<'_>, given: u32) -> Option<Order>
        ensures { result ≡ cleaned self.now tick.now given }
    {
        let passes_by = matches!(tick.mode, Mode::Passthrough);
        if passes_by || given != 0 {
            return None;
        }
        let (block, _) = self.recency.least_dirty(tick)?;
        if u64::from(self.block_sectors) <= tick.room {
            Some(Order::Clean(block))
        } else {
            None
        }
    }
}

impl Policy for TinyLfu {
    ghost use Rattle.std.specs.Prelude.{Some, codes};
    ghost use Rattle.wb_policy.specs.TinyLfu.{BeginsWith, after_access, cleaned as cleans, ordered as orders, with_setting as sets, WasTold};
    ghost use Rattle.wb_policy.specs.Recency.{newly_mapped, no_longer_mapped};
    ghost use Rattle.wb_sketch.specs.Frequencies.{estimate_of};

    ghost knows = { WasTold };

    ghost begun = { BeginsWith };

    ghost ordered = { orders };

    ghost settled = { λ k a. after_access k a.block.0 };

    ghost cleaned = { cleans };

    ghost ticked = { λ k _ _. k };

    ghost with_entry = { λ k b c. record k { recency = newly_mapped b c k.recency } };

    ghost without_entry = { λ k b. record k { recency = no_longer_mapped b k.recency } };

    ghost hint_of = { λ k b. estimate_of k.frequencies b };

    ghost with_setting = { sets };

    ghost name = { codes "tinylfu" };

    ghost promote_min = { λ k. Some k.promote_min };

    /// The mapped blocks by hint, then by cache block; no access so far; `promote_min` is 2.
    fn new(
        alloc: Global,
        geometry: &Geometry,
        mapping: &[Option<Entry>],
    ) -> Result<TinyLfu, Refusal> {
        let sketch = Sketch::new(alloc, geometry.cache_blocks)?;
        let recency = placed(alloc, mapping)?;
        Ok(TinyLfu {
            sketch,
            recency,
            promote_min: 2,
            block_sectors: geometry.block,
        })
    }

    fn settle(&mut self, access: &Settled<'_>) -> Option<Order> {
        self.sketch.add(access.block);
        if self.recency.touch(access.block) {
            return None;
        }
        self.decide(access)
    }

    fn tick(&mut self, tick: &Tick<'_>, given: u32) -> Option<Order> {
        self.clean(tick, given)
    }

    fn mapped(&mut self, b: OBlock, c: CBlock) -> Result<(), Refusal> {
        self.recency.insert(b, c)
    }

    fn unmapped(&mut self, b: OBlock) {
        self.recency.remove(b);
    }

    fn hint(&self, b: OBlock) -> u8 {
        self.sketch.estimate(b)
    }

    fn set(&mut self, key: Key, value: u64) -> Result<(), Refusal> {
        match key {
            Key::PromoteMin if (1..=17).contains(&value) => {
                self.promote_min = value as u8;
                Ok(())
            }
            Key::PromoteMin | Key::MigrationThreshold => Err(Refusal::BadMessage),
        }
    }

    fn shown(&self) -> (&'static str, Option<u64>) {
        ("tinylfu", Some(u64::from(self.promote_min)))
    }
}

/// The mapped blocks as they are placed at an opening.
fn placed(alloc: Global, mapping: &[Option<Entry>]) -> Result<Recency, Refusal>
    requires { length mapping.now < 2 ^ 32 }
    ensures value { IfOk result (λ r. IsPlacedByHint mapping.now r) }
    ensures refused { IfErr result (λ e. e ≡ Refusal.Memory) }
{
    let mut blocks = mapped_blocks(alloc, mapping)?;
    blocks.sort()?;
    let recency = Recency::of(alloc, blocks.as_slice())?;
    Ok(recency)
}

/// The mapped blocks by cache block: hint, cache block, origin block.
fn mapped_blocks(
    alloc: Global,
    mapping: &[Option<Entry>],
) -> Result<Vec<(u8, (u32, u32))>, AllocError>
    requires { length mapping.now < 2 ^ 32 }
    ensures { IfOk result (λ v. v.items ≡ mapped_from 0 mapping.now) }
{
    let mut blocks = Vec::new(alloc);
    for at in 0..mapping.len() {
        match mapping[at] {
            Some(entry) => {
                let OBlock(block) = entry.origin;
                blocks.push((entry.hint, (at as u32, block)))?;
            }
            None => {}
        }
    }
    Ok(blocks)
}
