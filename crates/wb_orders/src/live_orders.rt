//! All orders that live.

ghost use Rattle.std.specs.Prelude.{◌≡◌, ◌≢◌, ◌≤◌, ◌<◌, ◌+◌, ◌^◌, Some, None, false, IfOk, IfErr, length, slice_get};
ghost use Rattle.std.specs.Bool.{OnTrue, OnFalse};
ghost use Rattle.std.specs.Option.{option_map};
ghost use Rattle.circular_buffer.specs.Buffer.{buffer};
ghost use Rattle.wb_orders.specs.Named.{first_of as the_first, second_of as the_second};
ghost use Rattle.wb_orders.specs.Orders.{no_orders, order_at, cost_of, with_order, next_of, next_taken, without_order, marked, queued, MayGive, IsTaken, AreOrders};

use crate::LiveOrder;
use crate::live_order::{first_of, second_of};
use circular_buffer::HeapCircularBuffer;
use std::alloc::Global;
use std::marker::Model;
use wb_policy::Order;
use wb_types::{CBlock, OBlock, Refusal};

/// All orders that live, each under a cache block of its own.
///
/// The memory is taken once: by cache block an order and a place in the queue, by origin block a Boolean.
pub struct LiveOrders {
    slots: Vec<Option<LiveOrder>>,
    busy: Vec<bool>,
    waiting: HeapCircularBuffer<CBlock>,
    cost: u64,
    given: u64,
}

impl Drop for LiveOrders {
    fn drop(self) {
        let LiveOrders {
            slots,
            busy,
            waiting,
            cost: _,
            given: _,
        } = self;
        drop(slots);
        drop(busy);
        drop(waiting);
    }
}

impl Model for LiveOrders {
    ghost use Rattle.wb_orders.specs.Orders.{Orders};
    ghost use Rattle.wb_orders.specs.Fields.{orders_inside, AreFields};

    ghost Value = { Orders };

    ghost view = { orders_inside };

    ghost invariant = { AreFields };
}

impl LiveOrders {
    /// No order, and room for one of each cache block. `Memory` where there is none.
    pub fn new(alloc: Global, cache_blocks: u32, origin_blocks: u32) -> Result<LiveOrders, Refusal>
        ensures ok { IfOk result (λ orders. orders ≡ no_orders cache_blocks origin_blocks) }
        ensures err { IfErr result (λ refusal. refusal ≡ Refusal.Memory) }
    {
        let count = cache_blocks as usize;
        Ok(LiveOrders {
            slots: vec![in alloc; None; count]?,
            busy: vec![in alloc; false; origin_blocks as usize]?,
            waiting: HeapCircularBuffer::with_capacity(alloc, count)?,
            cost: 0,
            given: 0,
        })
    }

    /// The sectors of all live orders.
    pub fn cost(&self) -> u64
        ensures cost { result ≡ cost_of self.now.slots }
        ensures orders { AreOrders self.now }
    {
        self.cost
    }

    /// How many orders were given.
    pub fn given(&self) -> u64
        ensures { result ≡ self.now.given }
    {
        self.given
    }

    /// The live order of a cache block.
    pub fn get(&self, c: CBlock) -> Option<LiveOrder>
        requires { c.0 < length self.now.slots }
        ensures { result ≡ order_at self.now.slots c.0 }
    {
        let CBlock(at) = c;
        self.slots[at as usize]
    }

    /// Whether this cache block has a live order that somebody has taken.
    pub fn is_taken(&self, c: CBlock) -> bool
        ensures taken { OnTrue result (IsTaken (order_at self.now.slots c.0)) }
        ensures other { OnFalse result (¬ IsTaken (order_at self.now.slots c.0)) }
    {
        let CBlock(at) = c;
        match self.slots.get(at as usize) {
            Some(Some(live)) => !live.waits,
            _ => false,
        }
    }

    /// Whether each origin block has a live order.
    pub fn busy(&self) -> &[bool]
        ensures { result.now ≡ self.now.busy }
    {
        self.busy.as_slice()
    }

    /// Whether an order of so many sectors that takes this cache block may be given under this threshold.
    pub fn may_give(&self, c: CBlock, order: Order, sectors: u64, threshold: u64) -> bool
        ensures may { OnTrue result (MayGive self.now c order sectors threshold) }
        ensures other { OnFalse result (¬ MayGive self.now c order sectors threshold) }
    {
        let fits = self.cost <= threshold && sectors <= threshold - self.cost;
        let is_counted = self.given < u64::MAX;
        is_vacant(&self.slots, c)
            && is_idle(&self.busy, first_of(order))
            && is_idle(&self.busy, second_of(order))
            && fits
            && is_counted
    }

    /// Gives an order that takes this cache block, and that waits to be taken or is taken at once.
    pub fn give(&mut self, c: CBlock, order: Order, sectors: u64, threshold: u64, waits: bool)
        requires { MayGive self.old c order sectors threshold }
        ensures { self.new ≡ with_order self.old c
            (record { order = order; sectors = sectors; threshold = threshold; number = self.old.given; waits = waits }) }
    {
        let CBlock(at) = c;
        enter(&mut self.waiting, c, waits);
        mark(&mut self.busy, order, true);
        self.slots[at as usize] = Some(LiveOrder {
            order,
            sectors,
            threshold,
            number: self.given,
            waits,
        });
        self.cost += sectors;
        self.given += 1;
    }

    /// Takes the order that waits longest, if any.
    pub fn take(&mut self) -> Option<Order>
        ensures order { result ≡ option_map (λ o. o.order) (next_of self.old.slots self.old.waiting) }
        ensures state { self.new ≡ next_taken self.old }
        ensures orders { AreOrders self.old }
    {
        let CBlock(at) = self.waiting.pop_front()?;
        let slot = at as usize;
        let mut live = self.slots[slot]?;
        live.waits = false;
        self.slots[slot] = Some(live);
        Some(live.order)
    }

    /// The order of this cache block, which somebody has taken, is over.
    pub fn end(&mut self, c: CBlock)
        requires { IsTaken (order_at self.old.slots c.0) }
        ensures state { self.new ≡ without_order self.old c }
        ensures orders { AreOrders self.old }
    {
        let CBlock(at) = c;
        let slot = at as usize;
        if let Some(live) = self.slots[slot] {
            mark(&mut self.busy, live.order, false);
            self.cost -= live.sectors;
            self.slots[slot] = None;
        }
    }
}

/// Whether a cache block is there, and no order has it.
fn is_vacant(slots: &[Option<LiveOrder>], c: CBlock) -> bool
    ensures vacant { OnTrue result (slice_get slots.now c.0 ≡ Some None) }
    ensures other { OnFalse result (slice_get slots.now c.0 ≢ Some None) }
{
    let CBlock(at) = c;
    match slots.get(at as usize) {
        Some(slot) => slot.is_none(),
        None => false,
    }
}

/// Whether an origin block is there, and no order names it.
fn is_idle(busy: &[bool], b: OBlock) -> bool
    ensures idle { OnTrue result (slice_get busy.now b.0 ≡ Some false) }
    ensures other { OnFalse result (slice_get busy.now b.0 ≢ Some false) }
{
    let OBlock(at) = b;
    match busy.get(at as usize) {
        Some(is) => !*is,
        None => false,
    }
}

/// A cache block comes last in the queue, where its order waits.
fn enter(waiting: &mut HeapCircularBuffer<CBlock>, c: CBlock, waits: bool)
    requires { length waiting.old.items < waiting.old.capacity }
    ensures { waiting.new ≡ buffer (queued waits c waiting.old.items) waiting.old.capacity }
{
    if waits {
        waiting.push_back(c);
    }
}

/// Both blocks of an order are kept for it, or are no longer.
fn mark(busy: &mut Vec<bool>, order: Order, is: bool)
    requires first { (the_first order).0 < length busy.old.items }
    requires second { (the_second order).0 < length busy.old.items }
    ensures { busy.new.items ≡ marked order is busy.old.items }
{
    let OBlock(first) = first_of(order);
    let OBlock(second) = second_of(order);
    busy[first as usize] = is;
    busy[second as usize] = is;
}
