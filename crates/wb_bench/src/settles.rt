//! Accesses to a cache that TinyLfu fills, to be timed.

use std::alloc::Global;
use wb_policy::{Order, Policy, Settled, Tick, TinyLfu};
use wb_types::{CBlock, Geometry, Mode, OBlock, Refusal};

/// Blocks of the origin.
const ORIGIN_BLOCKS: u32 = 1_048_576;

/// A cache without devices: the policy, whether each origin block is in it, and how many of its blocks are taken.
#[derive(Drop)]
struct Cache {
    policy: TinyLfu,
    holds: Vec<bool>,
    taken: u32,
    cache_blocks: u32,
}

impl Cache {
    fn new(alloc: Global, cache_blocks: u32) -> Result<Cache, Refusal> {
        let geometry = Geometry::new(
            64,
            u64::from(cache_blocks),
            u64::from(ORIGIN_BLOCKS),
            4_294_967_295,
        )?;
        let mapping = vec![in alloc; None; geometry.cache_blocks as usize]?;
        Ok(Cache {
            policy: TinyLfu::new(alloc, &geometry, mapping.as_slice())?,
            holds: vec![in alloc; false; ORIGIN_BLOCKS as usize]?,
            taken: 0,
            cache_blocks: geometry.cache_blocks,
        })
    }

    fn set(&mut self, block: OBlock, holds: bool) {
        let OBlock(number) = block;
        if let Some(bit) = self.holds.get_mut(number as usize) {
            *bit = holds;
        }
    }

    fn map(&mut self, block: OBlock, at: CBlock) -> Result<(), Refusal> {
        self.set(block, true);
        self.policy.mapped(block, at)
    }

    /// An access, and what it orders, carried out at once. Whether it was a hit.
    fn access(&mut self, block: OBlock) -> Result<bool, Refusal> {
        let OBlock(number) = block;
        let is_hit = match self.holds.get(number as usize) {
            Some(holds) => *holds,
            None => false,
        };
        let least_free = if self.taken < self.cache_blocks {
            Some(CBlock(self.taken))
        } else {
            None
        };
        let access = Settled {
            block,
            mode: Mode::Writeback,
            least_free,
            room: 2048,
            busy: &[],
        };
        match self.policy.settle(&access) {
            Some(Order::Promote(b, c)) => {
                self.taken = self.taken.saturating_add(1);
                self.map(b, c)?;
            }
            Some(Order::Replace(v, x, c)) => {
                self.set(v, false);
                self.policy.unmapped(v);
                self.map(x, c)?;
            }
            Some(Order::Demote(_)) | Some(Order::Clean(_)) | None => {}
        }
        Ok(is_hit)
    }
}

/// Blocks by Zipf's law with exponent 1, by powers of two: ranks from `2^k - 1` to `2^(k+1) - 2` are as likely together
/// for each k below 20.
#[derive(Drop)]
struct Zipf {
    state: u64,
}

impl Zipf {
    fn new() -> Zipf {
        Zipf { state: 1 }
    }

    fn number(&mut self) -> u64 {
        self.state = self
            .state
            .wrapping_mul(6_364_136_223_846_793_005)
            .wrapping_add(1_442_695_040_888_963_407);
        self.state >> 33
    }

    fn block(&mut self) -> OBlock {
        let power = ((self.number() & 0xffff) * 20) >> 16;
        let first = (1u64 << (power % 20)) - 1;
        let rank = first + (self.number() & first);
        OBlock((rank.wrapping_mul(0x9_e3b1) & 0xf_ffff) as u32)
    }
}

/// Settles so many accesses, and gives how many were hits. `Memory` where there is no room for the policy, and
/// `Geometry` where no cache has so many blocks.
pub fn settle_all(alloc: Global, cache_blocks: u32, accesses: u64) -> Result<u64, Refusal> {
    let mut cache = Cache::new(alloc, cache_blocks)?;
    let mut zipf = Zipf::new();
    let mut hits: u64 = 0;
    for _ in 0..accesses {
        if cache.access(zipf.block())? {
            hits = hits.saturating_add(1);
        }
    }
    Ok(hits)
}

/// Maps each cache block, and gives how many of so many ticks ordered something, the most recent block alone being dirty:
/// each looks at every mapped block. `Memory` and `Geometry` as above.
pub fn tick_all(alloc: Global, cache_blocks: u32, ticks: u64) -> Result<u64, Refusal> {
    let mut cache = Cache::new(alloc, cache_blocks)?;
    for number in 0..cache.cache_blocks {
        cache.map(OBlock(number), CBlock(number))?;
    }
    let last = cache.cache_blocks.saturating_sub(1);
    let dirty = [(CBlock(last), OBlock(last))];
    let mut orders: u64 = 0;
    for _ in 0..ticks {
        let tick = Tick {
            mode: Mode::Writeback,
            room: 2048,
            busy: &[],
            dirty: &dirty,
        };
        if cache.policy.tick(&tick, 0).is_some() {
            orders = orders.saturating_add(1);
        }
    }
    Ok(orders)
}
