//! What a client reads and writes by: no lock, no memory, no waiting.

ghost use Rattle.std.specs.Prelude.{◌≡◌, ◌≤◌, ◌<◌, ◌+◌, ◌/◌, ◌++◌, [], ◌∷◌, ℕ, OnOk, OnErr, IfOk, IfErr, length, vec_capacity};
ghost use Rattle.std.specs.Bool.{OnTrue, OnFalse};
ghost use Rattle.wb_words.specs.declared.card.Hold.TheVariants.{Nothing};
ghost use Rattle.wb_port.specs.declared.port.TheConstants.{UNSETTLED as MostUnsettled};
ghost use Rattle.wb_port.specs.declared.moving.TheConstants.{LONGEST as LongestStep};
ghost use Rattle.wb_port.specs.Hands.{saw_fail_word};

use crate::hand::Hand;
use crate::seat::{Claim, Seat};
use std::alloc::Global;
use std::sync::Arc;
use wb_cells::{Cells, Word};
use wb_devices::{Devices, RunningCommit};
use wb_disk::Disk;
use wb_types::{Content, Geometry, Mode, OBlock};

/// How many accesses a client has unsettled at most.
pub const UNSETTLED: usize = 32;

/// A hand between two requests, the shared words that its pass is of, and the accesses that are to be settled, one block for
/// each part that was counted, in order. It is not `Drop`: it is left, by which its seat is given back.
pub struct Port<D> {
    pub geometry: Geometry,
    pub cells: Arc<Cells, Global>,
    pub hand: Hand<D>,
    pub accesses: Vec<OBlock>,
    /// What the steps of its migrations move, once it has carried out an order: there is room for the longest step then.
    pub buffer: Vec<Content>,
    /// The commit that it runs, if any.
    pub commit: Option<RunningCommit>,
    claim: Claim,
    ghost at: { hand.pass.table ≡ cells.value.table },
    ghost sized: { cells.value.blocks ≡ geometry.origin_blocks },
    ghost idle: { hand.pass.card.hold ≡ Nothing },
    ghost block: { hand.block_sectors ≡ geometry.block },
    ghost few: { length accesses.items ≤ MostUnsettled },
    ghost room: { MostUnsettled ≤ vec_capacity accesses },
    ghost holds: { 0 < length buffer.items → LongestStep ≤ length buffer.items },
}

impl<D: Disk + Drop> Port<D> {
    /// A port in this mode, with a seat and devices of its own; both are handed back where there is no memory.
    pub fn new(
        alloc: Global,
        seat: Seat,
        mode: Mode,
        devices: Devices<D>,
    ) -> Result<Port<D>, (Seat, Devices<D>)>
        ensures hand { IfOk result (λ port. port.hand ≡ record { pass = seat.pass; block_sectors = seat.geometry.block; mode = mode; devices = devices }) }
        ensures geometry { IfOk result (λ port. port.geometry ≡ seat.geometry) }
        ensures cells { IfOk result (λ port. port.cells ≡ seat.cells) }
        ensures unsettled { IfOk result (λ port. port.accesses.items ≡ []) }
        ensures back { IfErr result (λ back. (back.0 ≡ seat) × (back.1 ≡ devices)) }
    {
        let Ok(accesses) = Vec::with_capacity(alloc, UNSETTLED) else {
            return Err((seat, devices));
        };
        let (claim, geometry, cells, pass) = seat.apart();
        Ok(Port {
            geometry,
            cells,
            hand: Hand::new(geometry.block, mode, pass, devices),
            accesses,
            buffer: Vec::new(alloc),
            commit: None,
            claim,
        })
    }

    /// The seat and the devices.
    pub fn leave(self) -> (Seat, Devices<D>)
        ensures devices { result.1 ≡ self.hand.devices }
        ensures seat { (result.0.cells ≡ self.cells) × (result.0.geometry ≡ self.geometry) × (result.0.pass ≡ self.hand.pass) }
    {
        let Port {
            geometry,
            cells,
            hand,
            accesses: _,
            buffer: _,
            commit: _,
            claim,
        } = self;
        let (pass, devices) = hand.apart();
        (Seat::claimed(claim, geometry, cells, pass), devices)
    }

    /// Whether the fail word is set: one look at it.
    pub fn has_failed(&mut self) -> bool
        ensures clear { OnFalse result (self.new.hand ≡ saw_fail_word 0 self.old.hand) }
        ensures set { OnTrue result ((word : ℕ) × (0 < word) × (self.new.hand ≡ saw_fail_word word self.old.hand)) }
        ensures geometry { self.new.geometry ≡ self.old.geometry }
        ensures cells { self.new.cells ≡ self.old.cells }
        ensures accesses { self.new.accesses ≡ self.old.accesses }
        ensures buffer { self.new.buffer ≡ self.old.buffer }
        ensures commit { self.new.commit ≡ self.old.commit }
    {
        self.hand.look(&self.cells, Word::Fail) != 0
    }
}
