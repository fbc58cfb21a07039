//! The orders that were given and are not over: which cache block and which origin blocks each keeps, in which order they
//! were given, and who waits to be taken.
//!
//! The queue of those that wait is a ring of the kit's; the others are found by their cache block. Nothing is searched.
#![tactic(auto)]

mod live_order;
mod live_orders;

pub use live_order::{LiveOrder, first_of};
pub use live_orders::LiveOrders;
