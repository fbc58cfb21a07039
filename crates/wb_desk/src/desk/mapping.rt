//! Entries that come and go.

ghost use Rattle.std.specs.Prelude.{◌≡◌, ◌<◌, ◌+◌, ◌%◌, ◌^◌, Some, None, length, slice_get, OnOk, OnErr, IfErr};
ghost use Rattle.std.specs.Bool.{OnTrue, OnFalse};
ghost use Rattle.wb_policy.specs.Law.{origins, IsMappedAt, IsUnmapped};
ghost use Rattle.wb_orders.specs.Orders.{order_at};
ghost use Rattle.wb_desk.specs.Entries.{MayMap, MayUnmap, HasEntered, HasLeft, IsRemoved, Brings, Removes, entry_of, keeps, orders_left};
ghost use Rattle.wb_tree.specs.Edits.{IsChangedAt};

use super::Desk;
use std::alloc::Global;
use wb_orders::{LiveOrder, LiveOrders};
use wb_policy::{Order, Policy};
use wb_space::{Holding, note_left};
use wb_tree::Tree;
use wb_types::{CBlock, Entry, OBlock, Refusal};

impl<P: Policy> Desk<P> {
    /// Gives a block an entry, clean and without a hint, in the cache block that its order brought it into. The order is over.
    ///
    /// `Memory` where there is none, and then nothing changed.
    pub fn map(&mut self, b: OBlock, c: CBlock) -> Result<(), Refusal>
        requires { MayMap self.old b c }
        ensures ok { OnOk result (HasEntered P.with_entry self.old b c self.new) }
        ensures err { OnErr result (self.new ≡ self.old) }
        ensures refused { IfErr result (λ e. e ≡ Refusal.Memory) }
    {
        let above = self.tree.places_above(c);
        enter(&mut self.policy, &mut self.tree, b, c)?;
        note_left(&mut self.left, &above);
        self.orders.end(c);
        self.space.map(c);
        let OBlock(at) = b;
        self.cached[at as usize] = Some(c);
        self.mapped += 1;
        self.promotions = one_more(self.promotions);
        Ok(())
    }

    /// Takes the entry of a mapped block away. Its cache block is quarantined until a commit that begins after this has
    /// ended; a replacement of the block goes on and keeps the cache block, another order of it is over.
    pub fn unmap(&mut self, b: OBlock)
        requires { MayUnmap self.old b }
        ensures { (may : MayUnmap self.old b) → HasLeft P.without_entry self.old b may.cache self.new }
    {
        let Some(c) = self.place(b) else {
            return;
        };
        let above = self.tree.places_above(c);
        leave(&mut self.policy, &mut self.tree, b, c);
        note_left(&mut self.left, &above);
        let kept = end_removal(&mut self.orders, c);
        self.space.remove(c, kept);
        let OBlock(at) = b;
        self.cached[at as usize] = None;
        self.mapped -= 1;
        self.demotions = one_more(self.demotions);
    }

    /// Whether an order that somebody has taken brings this block into this cache block, which is reserved.
    pub fn may_map(&self, b: OBlock, c: CBlock) -> bool
        ensures may { OnTrue result (MayMap self.now b c) }
        ensures other { OnFalse result (¬ MayMap self.now b c) }
    {
        let CBlock(at) = c;
        if at >= self.geometry.cache_blocks {
            return false;
        }
        let is_reserved = matches!(self.space.block(c), Holding::Reserved);
        match self.orders.get(c) {
            Some(live) => is_reserved && !live.waits && brings(live.order, b),
            None => false,
        }
    }

    /// Whether this block is mapped, and under the order of its cache block, if any, its entry goes.
    pub fn may_unmap(&self, b: OBlock) -> bool
        ensures may { OnTrue result (MayUnmap self.now b) }
        ensures other { OnFalse result (¬ MayUnmap self.now b) }
    {
        let Some(c) = self.place(b) else {
            return false;
        };
        is_removed(self.orders.get(c))
    }
}

/// A counter that goes round at 2^64 has counted one more.
fn one_more(count: u64) -> u64
    ensures { result ≡ (count + 1) % 2 ^ 64 }
{
    count.wrapping_add(1)
}

/// Whether an order brings this block into its cache block.
fn brings(order: Order, b: OBlock) -> bool
    ensures brings { OnTrue result (Brings b order) }
    ensures other { OnFalse result (¬ Brings b order) }
{
    match order {
        Order::Promote(new, _) | Order::Replace(_, new, _) => new == b,
        Order::Demote(_) | Order::Clean(_) => false,
    }
}

/// Whether a cache block has no order, or one that somebody has taken and under which the entry goes.
fn is_removed(slot: Option<LiveOrder>) -> bool
    ensures removed { OnTrue result (IsRemoved slot) }
    ensures other { OnFalse result (¬ IsRemoved slot) }
{
    match slot {
        Some(live) => !live.waits && removes(live.order),
        None => true,
    }
}

/// Whether under an order the entry of its cache block goes.
fn removes(order: Order) -> bool
    ensures removes { OnTrue result (Removes order) }
    ensures other { OnFalse result (¬ Removes order) }
{
    match order {
        Order::Demote(_) | Order::Replace(_, _, _) => true,
        Order::Promote(_, _) | Order::Clean(_) => false,
    }
}

/// The policy and the tree get an entry. `Memory` where one of them has none for it, and then both are as they were.
fn enter<P: Policy>(
    policy: &mut P,
    tree: &mut Tree<Global>,
    b: OBlock,
    c: CBlock,
) -> Result<(), Refusal>
    requires knows { P.knows policy.old (origins tree.old.entries) }
    requires unmapped { IsUnmapped (origins tree.old.entries) b.0 }
    requires vacant { slice_get (origins tree.old.entries) c.0 ≡ Some None }
    ensures policy { OnOk result (policy.new ≡ P.with_entry policy.old b.0 c.0) }
    ensures knows { OnOk result (P.knows policy.new (origins tree.new.entries)) }
    ensures tree { OnOk result (IsChangedAt tree.old tree.new c.0 (Some (entry_of b))) }
    ensures policy_kept { OnErr result (policy.new ≡ policy.old) }
    ensures tree_kept { OnErr result (tree.new ≡ tree.old) }
    ensures refused { IfErr result (λ e. e ≡ Refusal.Memory) }
{
    policy.mapped(b, c)?;
    let entry = Entry {
        origin: b,
        dirty: false,
        hint: 0,
    };
    match tree.set(c, entry) {
        Ok(()) => Ok(()),
        Err(refusal) => {
            policy.unmapped(b);
            Err(refusal)
        }
    }
}

/// The policy and the tree lose an entry.
fn leave<P: Policy>(policy: &mut P, tree: &mut Tree<Global>, b: OBlock, c: CBlock)
    requires knows { P.knows policy.old (origins tree.old.entries) }
    requires mapped { IsMappedAt (origins tree.old.entries) b.0 c.0 }
    ensures policy { policy.new ≡ P.without_entry policy.old b.0 }
    ensures knows { P.knows policy.new (origins tree.new.entries) }
    ensures tree { IsChangedAt tree.old tree.new c.0 None }
{
    policy.unmapped(b);
    tree.clear(c);
}

/// The entry of a cache block goes: its order is over, but a replacement, which keeps the cache block.
fn end_removal(orders: &mut LiveOrders, c: CBlock) -> bool
    requires within { c.0 < length orders.old.slots }
    requires removed { IsRemoved (order_at orders.old.slots c.0) }
    ensures kept { result ≡ keeps (order_at orders.old.slots c.0) }
    ensures orders { orders.new ≡ orders_left orders.old c }
{
    match orders.get(c) {
        Some(live) => match live.order {
            Order::Replace(_, _, _) => true,
            Order::Promote(_, _) | Order::Demote(_) | Order::Clean(_) => {
                orders.end(c);
                false
            }
        },
        None => false,
    }
}
