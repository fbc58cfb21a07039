//! Where a client performs migrations and flushes: on the shared words by its pass, on its devices, and on the desk, for each
//! step of which it takes the lock.

use crate::gate::Gate;
use crate::target::Target;
use std::sync::Wait;
use wb_cells::Cells;
use wb_devices::RunningCommit;
use wb_policy::{Order, Policy};
use wb_port::Hand;
use wb_stage::Share;
use wb_types::Content;

/// The stage of a migration or a flush.
#[derive(Drop)]
pub struct WorkStage<'a, R: Wait, D, P: Policy, G: Gate> {
    pub rt: &'a R,
    pub target: &'a Target<P>,
    pub cells: &'a Cells,
    pub hand: &'a mut Hand<D>,
    /// What the last read gave, and what the next write writes, from the front.
    pub buffer: &'a mut [Content],
    /// The orders that the client has taken, each of other blocks.
    pub held: &'a [Order],
    /// The commit that it runs, if any.
    pub commit: &'a mut Option<RunningCommit>,
    /// What it has of the commits that others lead.
    pub share: &'a mut Share,
    /// It is asked before each step on a device.
    pub gate: &'a G,
}
