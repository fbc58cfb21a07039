//! A pass: the right to step on the words, and what its holder knows.

use crate::view::View;
use atomic_table::Seat;
use std::marker::Model;

/// The right to step. Contracts see which words it is for, its part of the whole, and its card.
///
/// A pass that is dropped leaves what it holds held.
#[derive(Drop)]
pub struct Pass {
    pub(crate) seat: Seat<u64, View>,
}

impl Model for Pass {
    ghost use Rattle.wb_cells.specs.Passes.{PassState, IsPass, pass_state};

    ghost Value = { PassState };

    ghost view = { λ p. pass_state p.seat.table_id p.seat.me };

    ghost invariant = { λ p. IsPass p.seat.table_id.words p.seat.me };
}
