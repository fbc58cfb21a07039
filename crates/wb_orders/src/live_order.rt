//! An order that lives.

ghost use Rattle.std.specs.Prelude.{◌≡◌};
ghost use Rattle.wb_orders.specs.Named.{first_of as the_first, second_of as the_second};

use wb_policy::Order;
use wb_types::OBlock;

/// An order that was given and is not over.
#[derive(Clone, Copy)]
pub struct LiveOrder {
    pub order: Order,
    /// The sectors that it moves.
    pub sectors: u64,
    /// The greatest sum of sectors that was allowed when it was given.
    pub threshold: u64,
    /// How many orders had been given before it.
    pub number: u64,
    /// Nobody has taken it yet.
    pub waits: bool,
}

/// The origin block that an order names first.
pub fn first_of(order: Order) -> OBlock
    ensures { result ≡ the_first order }
{
    match order {
        Order::Promote(block, _) | Order::Replace(block, _, _) => block,
        Order::Demote(block) | Order::Clean(block) => block,
    }
}

/// The origin block that it names last: of a single one, that again.
pub(crate) fn second_of(order: Order) -> OBlock
    ensures { result ≡ the_second order }
{
    match order {
        Order::Promote(block, _) | Order::Replace(_, block, _) => block,
        Order::Demote(block) | Order::Clean(block) => block,
    }
}
