//! The desk.

ghost use Rattle.std.specs.Prelude.{◌≡◌, ◌≢◌, ◌≤◌, ◌<◌, ◌+◌, ◌-◌, ◌^◌, ◌⊎◌, false, Some, None, length, slice_get, slice_set, OnOk, OnErr, IfOk, IfErr};
ghost use Rattle.std.specs.Bool.{OnTrue, OnFalse};
ghost use Rattle.std.specs.Option.{option_map, IfSome, IfNone};
ghost use Rattle.wb_space.specs.declared.block.Block.TheVariants as block;
ghost use Rattle.wb_space.specs.Blocks.{shown_holding as holding_of, state, released as block_released};
ghost use Rattle.wb_policy.specs.Law.{origins, IsMappedAt, IsUnmapped};
ghost use Rattle.wb_tree.specs.Mapping.{entry_at};
ghost use Rattle.wb_meta.specs.Reads.{FitsDevice};
ghost use Rattle.wb_orders.specs.Named.{first_of, second_of};
ghost use Rattle.wb_orders.specs.Orders.{next_of, cost_of, AreOrders};
ghost use Rattle.wb_desk.specs.Desks.{DeskInvariant, MayReserve, IsLive, IsGivenLawfully, IsFreeFor, Takes, holdings, mapped_now, sectors_asked};
ghost use Rattle.wb_desk.specs.Opening.{opened, threshold_of, last_value as value_of, IsSet, IsBad};
ghost use Rattle.wb_desk.specs.Messages.{MessageIsTold, IsRefused};
ghost use Rattle.wb_desk.specs.Calls.{blocks_reserved, reserved, released, next_order_taken};

mod beside;
mod commit;
mod imaging;
mod mapping;
mod settling;
mod sharing;

use crate::Counts;
use crate::invalidating::may_invalidate;
use crate::opening::{
    cached_blocks, count_mapped, last_value, left_places, mapped_blocks, set_policy,
};
pub use sharing::{Arrival, Asked, Receipt, Ticket};
use std::alloc::Global;
use std::marker::Model;
use wb_bits::BitSet;
use wb_meta::State;
use wb_orders::LiveOrders;
use wb_policy::{Order, Policy};
use wb_space::{Holding, Space};
use wb_tree::Tree;
use wb_types::{CBlock, Entry, Geometry, Key, Message, Mode, OBlock, Refusal};

/// What an opened cache decides by: which blocks are cached, what may be moved, and which commit runs.
///
/// All memory but the tree's, the policy's and an image's is taken at the opening: a place in each list by cache block and
/// by origin block.
pub struct Desk<P: Policy> {
    geometry: Geometry,
    mode: Mode,
    tree: Tree<Global>,
    /// Where each origin block is cached.
    cached: Vec<Option<CBlock>>,
    /// The places of the newest image at which no node of the tree is known to stand any more.
    left: BitSet,
    space: Space,
    orders: LiveOrders,
    policy: P,
    threshold: u64,
    generation: u64,
    nodes: u32,
    /// Of the image that the running commit writes.
    coming: u32,
    mapped: u32,
    at_opening: u32,
    promotions: u64,
    demotions: u64,
    /// The commits that ended since the opening.
    ended: u64,
    /// Whether a commit failed, so that no flush is covered any more but by those that ended.
    broken: bool,
}

impl<P: Policy> Drop for Desk<P> {
    fn drop(self) {
        let Desk {
            geometry: _,
            mode: _,
            tree,
            cached,
            left,
            space,
            orders,
            policy,
            threshold: _,
            generation: _,
            nodes: _,
            coming: _,
            mapped: _,
            at_opening: _,
            promotions: _,
            demotions: _,
            ended: _,
            broken: _,
        } = self;
        drop(tree);
        drop(cached);
        drop(left);
        drop(space);
        drop(orders);
        drop(policy);
    }
}

impl<P: Policy> Model for Desk<P> {
    ghost use Rattle.wb_desk.specs.Desks.{DeskState};
    ghost use Rattle.wb_desk.specs.Fields.{AreParts};

    ghost Value = { DeskState P };

    ghost view = { λ d. record {
      geometry = d.geometry;
      mode = d.mode;
      tree = d.tree;
      space = d.space;
      orders = d.orders;
      policy = d.policy;
      threshold = d.threshold;
      generation = d.generation;
      nodes = d.nodes;
      coming = d.coming;
      at_opening = d.at_opening;
      promotions = d.promotions;
      demotions = d.demotions;
      ended = d.ended;
      broken = d.broken;
    } };

    ghost invariant = { λ d. AreParts P.knows (record {
      geometry = d.geometry;
      mode = d.mode;
      tree = d.tree;
      space = d.space;
      orders = d.orders;
      policy = d.policy;
      threshold = d.threshold;
      generation = d.generation;
      nodes = d.nodes;
      coming = d.coming;
      at_opening = d.at_opening;
      promotions = d.promotions;
      demotions = d.demotions;
      ended = d.ended;
      broken = d.broken;
    }) d.cached.items d.left d.mapped };
}

impl<P: Policy> Desk<P> {
    /// A desk over what an opening read, whose tree uses these places, with the last value of each key. Until it is given
    /// another, the threshold is 2,048 sectors.
    ///
    /// `BadMessage` where a threshold is above 4,294,967,295, or the policy does not take its setting; `Memory` where there is
    /// none.
    pub fn new(
        alloc: Global,
        state: State<Global>,
        mode: Mode,
        policy: P,
        keys: &[(Key, u64)],
    ) -> Result<Desk<P>, Refusal>
        requires fits { FitsDevice state.root.geometry.meta_sectors state.root state.tree state.used.items }
        requires knows { P.knows policy (origins state.tree.entries) }
        ensures opened { IfOk result (λ d. d ≡ opened state.root.geometry state.root.generation state.tree state.used.items
            mode d.policy (threshold_of (value_of Key.MigrationThreshold keys.now)) (mapped_now d)) }
        ensures fits { IfOk result (λ d. d.threshold < 2 ^ 32) }
        ensures policy { IfOk result (λ d. IsSet P.with_setting policy (value_of Key.PromoteMin keys.now) d.policy) }
        ensures refused { IfErr result (λ e. (e ≡ Refusal.Memory) ⊎ ((e ≡ Refusal.BadMessage) ×
            ((2 ^ 32 ≤ threshold_of (value_of Key.MigrationThreshold keys.now))
            ⊎ IsBad P.with_setting policy (value_of Key.PromoteMin keys.now)))) }
    {
        let State {
            root,
            tree,
            used,
            ..
        } = state;
        let geometry = root.geometry;
        let threshold = last_value(keys, Key::MigrationThreshold).unwrap_or(2048);
        if threshold > 4_294_967_295 {
            return Err(Refusal::BadMessage);
        }
        let mut policy = policy;
        set_policy(&mut policy, last_value(keys, Key::PromoteMin))?;
        let mapped = mapped_blocks(alloc, &tree, &geometry)?;
        let cached = cached_blocks(alloc, &tree, &geometry)?;
        let count = count_mapped(&mapped);
        Ok(Desk {
            geometry,
            mode,
            space: Space::new(alloc, &geometry, &mapped, &used)?,
            orders: LiveOrders::new(alloc, geometry.cache_blocks, geometry.origin_blocks)?,
            left: left_places(alloc, &tree, &geometry, &used)?,
            tree,
            cached,
            policy,
            threshold,
            generation: root.generation,
            nodes: used.len() as u32,
            coming: 0,
            mapped: count,
            at_opening: count,
            promotions: 0,
            demotions: 0,
            ended: 0,
            broken: false,
        })
    }

    /// The sizes of the cache.
    pub fn geometry(&self) -> Geometry
        ensures { result ≡ self.now.geometry }
    {
        self.geometry
    }

    /// Where a client's writes go.
    pub fn mode(&self) -> Mode
        ensures { result ≡ self.now.mode }
    {
        self.mode
    }

    /// The policy's name, and the value of `promote_min` where it has one.
    pub fn shown(&self) -> (&'static str, Option<u64>)
        ensures name { result.0.now ≡ P.name }
        ensures value { result.1 ≡ P.promote_min self.now.policy }
    {
        self.policy.shown()
    }

    /// The entry of a cache block.
    pub fn entry(&self, c: CBlock) -> Option<Entry>
        requires { c.0 < self.now.geometry.cache_blocks }
        ensures { result ≡ entry_at self.now.tree c.0 }
    {
        self.tree.get(c)
    }

    /// What a cache block is held for.
    pub fn holding(&self, cache: CBlock) -> Holding
        requires { cache.0 < self.now.geometry.cache_blocks }
        ensures { option_map holding_of (slice_get self.now.space.blocks cache.0) ≡ Some result }
    {
        self.space.block(cache)
    }

    /// What the desk counts.
    pub fn counts(&self) -> Counts
        ensures generation { result.generation ≡ self.now.generation }
        ensures used { result.used ≡ self.now.nodes + 2 }
        ensures mapped { result.mapped ≡ mapped_now self.now }
        ensures promotions { result.promotions ≡ self.now.promotions }
        ensures demotions { result.demotions ≡ self.now.demotions }
        ensures threshold { result.threshold ≡ self.now.threshold }
        ensures desk { DeskInvariant P.knows self.now }
    {
        Counts {
            generation: self.generation,
            used: self.nodes + 2,
            mapped: self.mapped,
            promotions: self.promotions,
            demotions: self.demotions,
            threshold: self.threshold,
        }
    }

    /// The sectors that further orders may have.
    pub fn room(&self) -> u64
        ensures room { result ≡ self.now.threshold - cost_of self.now.orders.slots }
        ensures orders { AreOrders self.now.orders }
    {
        self.threshold.saturating_sub(self.orders.cost())
    }

    /// Takes the order that waits longest, if any: one of blocks of the origin.
    pub fn next_order(&mut self) -> Option<Order>
        ensures order { result ≡ option_map (λ o. o.order) (next_of self.old.orders.slots self.old.orders.waiting) }
        ensures there { IfSome result (λ order. ((first_of order).0 < self.old.geometry.origin_blocks) × ((second_of order).0 < self.old.geometry.origin_blocks)) }
        ensures state { self.new ≡ next_order_taken self.old }
    {
        self.orders.take()
    }

    /// Tells a message: a threshold or a setting of the policy is set; ranges of cache blocks may be invalidated.
    ///
    /// `BadMessage` for a threshold above 4,294,967,295, a setting that the policy does not take, and a range that is empty or
    /// goes past the last cache block; else `WrongMode` for ranges outside passthrough. Then nothing changed.
    pub fn message(&mut self, message: &Message) -> Result<(), Refusal>
        ensures ok { OnOk result (MessageIsTold P.with_setting self.old message.now self.new) }
        ensures err { OnErr result (self.new ≡ self.old) }
        ensures refused { IfErr result (IsRefused P.with_setting self.old message.now) }
    {
        match message {
            Message::Set(Key::MigrationThreshold, value) => self.set_threshold(*value),
            Message::Set(Key::PromoteMin, value) => self.policy.set(Key::PromoteMin, *value),
            Message::InvalidateCblocks(ranges) => {
                may_invalidate(ranges.as_slice(), self.geometry.cache_blocks, self.mode)
            }
        }
    }

    fn set_threshold(&mut self, value: u64) -> Result<(), Refusal>
        ensures ok { OnOk result ((value < 2 ^ 32) × (self.new ≡ record self.old { threshold = value })) }
        ensures err { OnErr result (self.new ≡ self.old) }
        ensures refused { IfErr result (λ e. (e ≡ Refusal.BadMessage) × (2 ^ 32 ≤ value)) }
    {
        if value > 4_294_967_295 {
            return Err(Refusal::BadMessage);
        }
        self.threshold = value;
        Ok(())
    }

    /// Gives an order that its caller carries out. `Busy` where it may not be given, and then nothing changed.
    pub fn reserve(&mut self, order: Order) -> Result<(), Refusal>
        ensures ok { OnOk result ((c : _) × MayReserve self.old c order × (self.new ≡ reserved self.old c order false)) }
        ensures busy { OnErr result ((c : _) → ¬ MayReserve self.old c order) }
        ensures err { OnErr result (self.new ≡ self.old) }
        ensures refused { IfErr result (λ e. e ≡ Refusal.Busy) }
    {
        match self.may_reserve(order) {
            Some(c) => {
                self.give(c, order, false);
                Ok(())
            }
            None => Err(Refusal::Busy),
        }
    }

    /// Whether an order lives, and somebody has taken it.
    pub fn is_live(&self, order: Order) -> bool
        ensures live { OnTrue result (IsLive self.now order) }
        ensures other { OnFalse result (¬ IsLive self.now order) }
    {
        let cache_blocks = self.geometry.cache_blocks;
        let Some(c) = self.cache_block(order) else {
            return false;
        };
        let CBlock(at) = c;
        if at >= cache_blocks {
            return false;
        }
        match self.orders.get(c) {
            Some(live) => is_same(live.order, order) && !live.waits,
            None => false,
        }
    }

    /// Gives up an order that somebody has taken: a cache block that it keeps is kept no longer.
    pub fn release(&mut self, order: Order)
        requires { IsLive self.old order }
        ensures { (live : IsLive self.old order) → self.new ≡ released self.old live.cache }
    {
        let Some(c) = self.cache_block(order) else {
            return;
        };
        release_block(&mut self.space, c);
        self.orders.end(c);
    }

    /// Gives an order that may be given.
    fn give(&mut self, c: CBlock, order: Order, waits: bool)
        requires { MayReserve self.old c order }
        ensures { self.new ≡ reserved self.old c order waits }
    {
        let sectors = self.sectors(order);
        reserve_block(&mut self.space, order);
        self.orders.give(c, order, sectors, self.threshold, waits);
    }

    /// The cache block of an order that may be given.
    fn may_reserve(&self, order: Order) -> Option<CBlock>
        ensures may { IfSome result (λ c. MayReserve self.now c order) }
        ensures other { IfNone result ((c : CBlock) → ¬ MayReserve self.now c order) }
        ensures desk { DeskInvariant P.knows self.now }
    {
        let passes_by = matches!(self.mode, Mode::Passthrough);
        let c = self.cache_block(order)?;
        let sectors = self.sectors(order);
        if passes_by {
            return None;
        }
        if !self.orders.may_give(c, order, sectors, self.threshold) {
            return None;
        }
        if !self.is_lawful(c, order) {
            return None;
        }
        Some(c)
    }

    /// The sectors that an order moves.
    fn sectors(&self, order: Order) -> u64
        ensures { result ≡ sectors_asked self.now.geometry order }
    {
        let block = u64::from(self.geometry.block);
        match order {
            Order::Replace(_, _, _) => 2 * block,
            Order::Promote(_, _) => block,
            Order::Demote(_) => block,
            Order::Clean(_) => block,
        }
    }

    /// The cache block that an order takes: the one that it names, or where its block stands.
    fn cache_block(&self, order: Order) -> Option<CBlock>
        ensures takes { IfSome result (λ c. Takes (holdings self.now) c order) }
        ensures none { IfNone result ((c : CBlock) → ¬ Takes (holdings self.now) c order) }
    {
        match order {
            Order::Promote(_, c) => Some(c),
            Order::Replace(_, _, c) => Some(c),
            Order::Demote(b) => self.place(b),
            Order::Clean(b) => self.place(b),
        }
    }

    /// Where an origin block is cached; none where it has no entry, or is outside.
    pub fn place(&self, b: OBlock) -> Option<CBlock>
        ensures mapped { IfSome result (λ c. IsMappedAt (holdings self.now) b.0 c.0) }
        ensures none { IfNone result (IsUnmapped (holdings self.now) b.0) }
    {
        let OBlock(at) = b;
        if at >= self.geometry.origin_blocks {
            return None;
        }
        self.cached[at as usize]
    }

    /// Whether an order that takes this cache block names what it may.
    fn is_lawful(&self, c: CBlock, order: Order) -> bool
        requires { Takes (holdings self.now) c order }
        ensures lawful { OnTrue result (IsGivenLawfully self.now c order) }
        ensures other { OnFalse result (¬ IsGivenLawfully self.now c order) }
    {
        match order {
            Order::Promote(b, _) => self.is_free(c) && self.is_unmapped(b),
            Order::Replace(victim, b, _) => self.stands_at(victim, c) && self.is_unmapped(b),
            Order::Demote(_) => true,
            Order::Clean(_) => true,
        }
    }

    /// Whether a cache block is there, and free.
    fn is_free(&self, c: CBlock) -> bool
        ensures free { OnTrue result (slice_get self.now.space.blocks c.0 ≡ Some block.Free) }
        ensures other { OnFalse result (slice_get self.now.space.blocks c.0 ≢ Some block.Free) }
    {
        let CBlock(at) = c;
        if at >= self.geometry.cache_blocks {
            return false;
        }
        match self.space.block(c) {
            Holding::Free => true,
            Holding::Mapped => false,
            Holding::Reserved => false,
            Holding::Quarantined => false,
        }
    }

    /// Whether an origin block is cached there.
    fn stands_at(&self, b: OBlock, c: CBlock) -> bool
        ensures there { OnTrue result (IsMappedAt (holdings self.now) b.0 c.0) }
        ensures other { OnFalse result (¬ IsMappedAt (holdings self.now) b.0 c.0) }
    {
        let _ = &self.geometry;
        match self.place(b) {
            Some(CBlock(place)) => {
                let CBlock(at) = c;
                place == at
            }
            None => false,
        }
    }

    /// Whether an origin block is not cached.
    fn is_unmapped(&self, b: OBlock) -> bool
        ensures unmapped { OnTrue result (IsUnmapped (holdings self.now) b.0) }
        ensures other { OnFalse result (¬ IsUnmapped (holdings self.now) b.0) }
    {
        match self.place(b) {
            Some(_) => false,
            None => true,
        }
    }
}

/// A promotion's cache block is reserved.
fn reserve_block(space: &mut Space, order: Order)
    requires { IsFreeFor space.old.blocks order }
    ensures { space.new ≡ record space.old { blocks = blocks_reserved space.old.blocks order } }
{
    match order {
        Order::Promote(_, c) => space.reserve(c),
        Order::Replace(_, _, _) => {}
        Order::Demote(_) => {}
        Order::Clean(_) => {}
    }
}

/// A cache block is kept no longer.
fn release_block(space: &mut Space, c: CBlock)
    requires { c.0 < length space.old.blocks }
    ensures { space.new ≡ record space.old {
      blocks = slice_set space.old.blocks c.0 (block_released (state space.old.blocks c.0));
    } }
{
    if space.is_kept(c) {
        space.give_back(c);
    }
}

fn is_same(a: Order, b: Order) -> bool
    ensures same { OnTrue result (a ≡ b) }
    ensures other { OnFalse result (a ≢ b) }
{
    a == b
}
