//! What no contract says: that memory serves, and that orders come and go as they were worked by hand.

use std::alloc::Global;
use wb_orders::LiveOrders;
use wb_policy::Order;
use wb_types::{CBlock, OBlock, Refusal};

#[derive(Clone, Copy)]
enum Call {
    /// An order of 64 sectors under a threshold of 200, of a cache block; whether it waits.
    Give(u32, Order, bool),
    Take,
    End(u32),
}

/// Each call, the order that it answers, and the sectors of all live orders after it.
type Line = (Call, Option<Order>, u64);

const GIVEN: [Line; 8] = [
    (Call::Take, None, 0),
    (Call::Give(2, Order::Clean(OBlock(5)), true), None, 64),
    (
        Call::Give(0, Order::Promote(OBlock(7), CBlock(0)), true),
        None,
        128,
    ),
    // the block is busy, the cache block is taken, there is none such
    (Call::Give(1, Order::Demote(OBlock(5)), true), None, 128),
    (Call::Give(0, Order::Demote(OBlock(1)), true), None, 128),
    (
        Call::Give(1, Order::Replace(OBlock(1), OBlock(8), CBlock(1)), true),
        None,
        128,
    ),
    (Call::Give(3, Order::Demote(OBlock(1)), true), None, 128),
    (
        Call::Give(1, Order::Replace(OBlock(1), OBlock(4), CBlock(1)), false),
        None,
        192,
    ),
];

const TAKEN: [Line; 6] = [
    (Call::Take, Some(Order::Clean(OBlock(5))), 192),
    (Call::End(2), None, 128),
    (Call::End(1), None, 64),
    (Call::Give(2, Order::Demote(OBlock(4)), true), None, 128),
    (Call::Take, Some(Order::Promote(OBlock(7), CBlock(0))), 128),
    (Call::Take, Some(Order::Demote(OBlock(4))), 128),
];

fn answer(orders: &mut LiveOrders, call: Call) -> Option<Order> {
    match call {
        Call::Give(c, order, waits) => {
            if orders.may_give(CBlock(c), order, 64, 200) {
                orders.give(CBlock(c), order, 64, 200, waits);
            }
            None
        }
        Call::Take => orders.take(),
        Call::End(c) => {
            end(orders, CBlock(c));
            None
        }
    }
}

fn end(orders: &mut LiveOrders, c: CBlock) {
    if orders.is_taken(c) {
        orders.end(c);
    }
}

/// Whether each call is answered as its line says.
fn are_answered(orders: &mut LiveOrders, lines: &[Line]) -> bool {
    for (call, order, cost) in lines {
        if answer(orders, *call) != *order || orders.cost() != *cost {
            return false;
        }
    }
    true
}

fn come_and_go(orders: &mut LiveOrders) -> bool {
    are_answered(orders, &GIVEN)
        && are_answered(orders, &TAKEN)
        && orders.given() == 4
        && orders.busy() == [false, false, false, false, true, false, false, true].as_slice()
}

/// Whether orders of three cache blocks and eight origin blocks do.
fn orders_do(alloc: Global) -> Result<bool, Refusal> {
    let mut orders = LiveOrders::new(alloc, 3, 8)?;
    Ok(come_and_go(&mut orders))
}

#[test]
fn orders_come_and_go(rt: HostRuntime) -> Result<(), Refusal> {
    assert!(rt; orders_do(rt.alloc())?);
    Ok(())
}
