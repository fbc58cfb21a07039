//! What a flush has of the commits that others lead.

use wb_desk::{Receipt, Ticket};

/// What a flush has of the commits that others lead: nothing, before it arrives and where it leads one itself; a ticket, with which it
/// waits; a receipt, once a commit has ended that covers it.
#[derive(Drop)]
pub enum Share {
    Nothing,
    Waiting(Ticket),
    Covered(Receipt),
}
