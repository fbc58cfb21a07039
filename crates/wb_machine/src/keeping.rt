//! The orders that an actor has, the newest first, and what becomes of them.

ghost use Rattle.std.specs.Prelude.{◌≡◌, ◌≢◌, ◌&&◌, ◌++◌, ◌∷◌, Contains, Some, IfOk, IfErr, OnOk, OnErr, not, slice_get};
ghost use Rattle.std.specs.Bool.{OnTrue, OnFalse};
ghost use Rattle.wb_types.specs.declared.number.OBlock.{OBlock as Block};
ghost use Rattle.wb_types.specs.declared.refusal.Refusal.TheVariants.{Memory};
ghost use Rattle.wb_policy.specs.declared.order.Order.TheVariants.{Replace};
ghost use Rattle.wb_space.specs.declared.block.Block.TheVariants.{Reserved};
ghost use Rattle.wb_orders.specs.Named.{first_of};
ghost use Rattle.wb_desk.specs.Desks.{DeskInvariant};
ghost use Rattle.wb_desk.specs.Entries.{is_replacement};
ghost use Rattle.wb_stage.specs.Asking.{is_of};
ghost use Rattle.wb_tasks.specs.declared.step.Got.TheVariants.{Done};
ghost use Rattle.wb_promise.specs.Happenings.{KeepsMigration, KeepsReplacement, MayFollow, blocks_left};
ghost use Rattle.wb_promise.specs.Effects.{awaiting_then, dropped, orders_then, replacing};
ghost use Rattle.wb_machine.specs.Keeping.{IsLeft};

use std::alloc::Global;
use wb_desk::Desk;
use wb_orders::first_of;
use wb_policy::{Order, Policy, Quiet};
use wb_promise::Job;
use wb_space::Holding;
use wb_stage::asking::is_of;
use wb_tasks::{Answer, DeskStep, Migration, Want};
use wb_types::{CBlock, OBlock, Refusal};

/// Whether this order is one of them.
pub(crate) fn keeps(orders: &[Order], order: Order) -> bool
    ensures has { OnTrue result (Contains orders.now order) }
    ensures other { OnFalse result (¬ Contains orders.now order) }
{
    for kept in orders {
        if is_same(*kept, order) {
            return true;
        }
    }
    false
}

fn is_same(a: Order, b: Order) -> bool
    ensures same { OnTrue result (a ≡ b) }
    ensures other { OnFalse result (a ≢ b) }
{
    a == b
}

/// Whether a migration may start under one of these orders: its own, or for a promotion the replacement by which its block follows.
pub(crate) fn keeps_migration(
    desk: &Desk<Quiet>,
    orders: &[Order],
    migration: Migration,
    block: OBlock,
) -> bool
    ensures has { OnTrue result (KeepsMigration desk.now orders.now migration block) }
    ensures other { OnFalse result (¬ KeepsMigration desk.now orders.now migration block) }
{
    match migration {
        Migration::Promote(cache) => {
            keeps(orders, Order::Promote(block, cache)) || may_follow(desk, orders, block, cache)
        }
        Migration::Demote => keeps(orders, Order::Demote(block)),
        Migration::Clean => keeps(orders, Order::Clean(block)),
    }
}

/// Whether one of them is a replacement by which this block follows on a cache block, which is reserved.
fn may_follow(desk: &Desk<Quiet>, orders: &[Order], block: OBlock, cache: CBlock) -> bool
    ensures has { OnTrue result (MayFollow desk.now orders.now block cache) }
    ensures other { OnFalse result (¬ MayFollow desk.now orders.now block cache) }
{
    is_reserved(desk, cache) && brings(orders, block, cache)
}

/// Whether one of them is a replacement by which this block follows there.
fn brings(orders: &[Order], block: OBlock, cache: CBlock) -> bool
    ensures has { OnTrue result ((old : Block) × Contains orders.now (Replace old block cache)) }
    ensures other { OnFalse result ((old : Block) → ¬ Contains orders.now (Replace old block cache)) }
{
    for kept in orders {
        if is_bringing(*kept, block, cache) {
            return true;
        }
    }
    false
}

fn is_bringing(order: Order, block: OBlock, cache: CBlock) -> bool
    ensures has { OnTrue result ((old : Block) × (order ≡ Replace old block cache)) }
    ensures other { OnFalse result ((old : Block) → order ≢ Replace old block cache) }
{
    match order {
        Order::Replace(_, new, there) => new == block && there == cache,
        Order::Promote(_, _) | Order::Demote(_) | Order::Clean(_) => false,
    }
}

/// Whether a replacement of this block by that one is one of them, and may start again: the block stands still.
pub(crate) fn keeps_replacement(
    desk: &Desk<Quiet>,
    orders: &[Order],
    old: OBlock,
    new: OBlock,
) -> bool
    ensures has { OnTrue result (KeepsReplacement desk.now orders.now old new) }
    ensures other { OnFalse result (¬ KeepsReplacement desk.now orders.now old new) }
{
    see_desk(desk);
    let Some(cache) = desk.place(old) else {
        return false;
    };
    keeps(orders, Order::Replace(old, new, cache))
}

/// Whether a cache block is reserved for an order.
fn is_reserved(desk: &Desk<Quiet>, cache: CBlock) -> bool
    ensures has { OnTrue result (slice_get desk.now.space.blocks cache.0 ≡ Some Reserved) }
    ensures other { OnFalse result (¬ (slice_get desk.now.space.blocks cache.0 ≡ Some Reserved)) }
{
    see_desk(desk);
    cache.0 < desk.geometry().cache_blocks && matches!(desk.holding(cache), Holding::Reserved)
}

/// What holds of every desk. It does nothing.
pub(crate) fn see_desk<P: Policy>(desk: &Desk<P>)
    ensures { DeskInvariant P.knows desk.now }
{
    let _ = desk.counts();
}

/// One more. `Memory` where there is no room for it, and then nothing changed.
pub(crate) fn keep(orders: &mut Vec<Order>, order: Order) -> Result<(), Refusal>
    ensures ok { OnOk result (orders.new.items ≡ order ∷ orders.old.items) }
    ensures err { OnErr result (orders.new.items ≡ orders.old.items) }
    ensures refusal { IfErr result (λ refusal. refusal ≡ Memory) }
{
    match orders.insert(0, order) {
        Ok(()) => Ok(()),
        Err(_) => Err(Refusal::Memory),
    }
}

/// The blocks that have left under these orders. `Memory` where there is none for them.
pub(crate) fn blocks_left(alloc: Global, orders: &[Order]) -> Result<Vec<OBlock>, Refusal>
    ensures ok { IfOk result (λ blocks. blocks.items ≡ blocks_left orders.now) }
    ensures refusal { IfErr result (λ refusal. refusal ≡ Memory) }
{
    let mut blocks = Vec::new(alloc);
    for order in orders {
        if blocks.push(first_of(*order)).is_err() {
            return Err(Refusal::Memory);
        }
    }
    Ok(blocks)
}

/// What the orders of an actor, and those that wait for a flush of it, are after a step of its job that is done, where that changes
/// them. `Memory` where there is none for them.
pub(crate) fn orders_after(
    alloc: Global,
    orders: &[Order],
    awaiting: &[Order],
    job: &Job,
    want: Want,
) -> Result<(Option<Vec<Order>>, Option<Vec<Order>>), Refusal>
    ensures orders { IfOk result (λ left. IsLeft orders.now left.0 (orders_then orders.now awaiting.now job.now want Done)) }
    ensures awaiting { IfOk result (λ left. IsLeft awaiting.now left.1 (awaiting_then orders.now awaiting.now job.now want Done)) }
    ensures refusal { IfErr result (λ refusal. refusal ≡ Memory) }
{
    match want {
        Want::Desk(DeskStep::Map(block, _)) => Ok((Some(without(alloc, orders, block)?), None)),
        Want::Desk(DeskStep::Unmap(block)) => {
            let replaced = replacing(alloc, orders, block)?;
            let awaiting = joined(alloc, replaced.as_slice(), awaiting)?;
            Ok((Some(without(alloc, orders, block)?), Some(awaiting)))
        }
        Want::Desk(DeskStep::ReleaseOrder(block)) => match job {
            Job::Flush => Ok((None, Some(without(alloc, awaiting, block)?))),
            _ => Ok((Some(without(alloc, orders, block)?), None)),
        },
        Want::End(Answer::Done) => match job {
            Job::Flush => Ok((
                Some(joined(alloc, awaiting, orders)?),
                Some(Vec::new(alloc)),
            )),
            _ => Ok((None, None)),
        },
        _ => Ok((None, None)),
    }
}

/// All but those of a block. `Memory` where there is none for them.
fn without(alloc: Global, orders: &[Order], block: OBlock) -> Result<Vec<Order>, Refusal>
    ensures ok { IfOk result (λ left. left.items ≡ dropped block orders.now) }
    ensures refusal { IfErr result (λ refusal. refusal ≡ Memory) }
{
    let mut left = copied(alloc, orders)?;
    left.retain(
        |order|
            ensures { result ≡ not (is_of block order.now) }
        { !is_of(block, *order) },
    );
    Ok(left)
}

/// The replacements of a block. `Memory` where there is none for them.
fn replacing(alloc: Global, orders: &[Order], block: OBlock) -> Result<Vec<Order>, Refusal>
    ensures ok { IfOk result (λ left. left.items ≡ replacing block orders.now) }
    ensures refusal { IfErr result (λ refusal. refusal ≡ Memory) }
{
    let mut left = copied(alloc, orders)?;
    left.retain(
        |order|
            ensures { result ≡ (is_of block order.now && is_replacement order.now) }
        { is_of(block, *order) && is_replacement(*order) },
    );
    Ok(left)
}

/// Two lists, one behind the other. `Memory` where there is none for them.
fn joined(alloc: Global, orders: &[Order], behind: &[Order]) -> Result<Vec<Order>, Refusal>
    ensures ok { IfOk result (λ all. all.items ≡ orders.now ++ behind.now) }
    ensures refusal { IfErr result (λ refusal. refusal ≡ Memory) }
{
    let mut all = copied(alloc, orders)?;
    match all.extend_from_slice(behind) {
        Ok(()) => Ok(all),
        Err(_) => Err(Refusal::Memory),
    }
}

fn copied(alloc: Global, orders: &[Order]) -> Result<Vec<Order>, Refusal>
    ensures ok { IfOk result (λ copy. copy.items ≡ orders.now) }
    ensures refusal { IfErr result (λ refusal. refusal ≡ Memory) }
{
    let mut copy = Vec::new(alloc);
    match copy.extend_from_slice(orders) {
        Ok(()) => Ok(copy),
        Err(_) => Err(Refusal::Memory),
    }
}

fn is_replacement(order: Order) -> bool
    ensures { result ≡ is_replacement order }
{
    matches!(order, Order::Replace(_, _, _))
}
