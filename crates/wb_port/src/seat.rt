//! The right to step on a target's words, for one client.

ghost use Rattle.std.specs.Prelude.{◌≡◌, IfOk, IfErr};
ghost use Rattle.wb_words.specs.declared.card.Hold.TheVariants.{Nothing};
ghost use Rattle.wb_words.specs.SharedWords.{IsWord};
ghost use Rattle.wb_words.specs.Cards.{blank_card, looked};
ghost use Rattle.wb_words.specs.Ready.{IsReady};
ghost use Rattle.wb_cells.specs.Fractions.{IsWhole};
ghost use Rattle.wb_cells.specs.Passes.{StepsBy};
ghost use Rattle.wb_port.specs.Kinds.{LeavesHolds};

use std::alloc::Global;
use std::sync::Arc;
use wb_cells::{Cells, Pass, Word};
use wb_types::{Geometry, Refusal};
use wb_words::{CellResult, CellStep};

/// A token that each seat has, and each port made of one. It is not `Drop`, and only this file can take it apart.
pub(crate) struct Claim {
    mark: (),
}

/// The shared words of a target of these sizes, and a pass of them that has no block. It is not `Drop`: it ends in `Seats` alone.
pub struct Seat {
    pub geometry: Geometry,
    pub cells: Arc<Cells, Global>,
    pub pass: Pass,
    claim: Claim,
    ghost at: { pass.table ≡ cells.value.table },
    ghost sized: { cells.value.blocks ≡ geometry.origin_blocks },
    ghost idle: { pass.card.hold ≡ Nothing },
}

impl Seat {
    /// The one seat of a cache of these sizes, of which no block is cached. `Memory` where there is no room for the words.
    pub fn new(alloc: Global, geometry: Geometry) -> Result<Seat, Refusal>
        ensures geometry { IfOk result (λ seat. seat.geometry ≡ geometry) }
        ensures card { IfOk result (λ seat. seat.pass.card ≡ blank_card) }
        ensures whole { IfOk result (λ seat. IsWhole seat.pass.fraction) }
    {
        let (cells, pass) = Cells::new(alloc, geometry.origin_blocks)?;
        let cells = Arc::new(alloc, cells).map_err(|_| Refusal::Memory)?;
        Ok(Seat::over(geometry, cells, pass))
    }

    /// A seat of these words, of a cache of these sizes.
    pub fn over(geometry: Geometry, cells: Arc<Cells, Global>, pass: Pass) -> Seat
        requires at { pass.table ≡ cells.value.table }
        requires sized { cells.value.blocks ≡ geometry.origin_blocks }
        requires idle { pass.card.hold ≡ Nothing }
        ensures { (result.geometry ≡ geometry) × (result.cells ≡ cells) × (result.pass ≡ pass) }
    {
        Seat {
            geometry,
            cells,
            pass,
            claim: Claim { mark: () },
        }
    }

    /// The seat of a claim, with its sizes, its words and its pass.
    pub(crate) fn claimed(
        claim: Claim,
        geometry: Geometry,
        cells: Arc<Cells, Global>,
        pass: Pass,
    ) -> Seat
        requires at { pass.table ≡ cells.value.table }
        requires sized { cells.value.blocks ≡ geometry.origin_blocks }
        requires idle { pass.card.hold ≡ Nothing }
        ensures { (result.geometry ≡ geometry) × (result.cells ≡ cells) × (result.pass ≡ pass) }
    {
        Seat {
            geometry,
            cells,
            pass,
            claim,
        }
    }

    /// Its claim, its sizes, its words and its pass.
    pub(crate) fn apart(self) -> (Claim, Geometry, Arc<Cells, Global>, Pass)
        ensures parts { (result.1 ≡ self.geometry) × (result.2 ≡ self.cells) × (result.3 ≡ self.pass) }
        ensures claim { result.0 ≡ self.claim }
    {
        let Seat {
            geometry,
            cells,
            pass,
            claim,
        } = self;
        (claim, geometry, cells, pass)
    }

    /// One look at a word.
    pub fn look(&mut self, word: Word) -> u64
        requires { IsWord self.old.geometry.origin_blocks word }
        ensures geometry { self.new.geometry ≡ self.old.geometry }
        ensures cells { self.new.cells ≡ self.old.cells }
        ensures pass { self.new.pass ≡ record self.old.pass { card = looked word result self.old.pass.card } }
    {
        self.cells.look(&mut self.pass, word)
    }

    /// One step of the pass by which no block is taken or let go.
    #[tactic(auto, using(crate::proofs::Passing::free_then))]
    pub fn step(&mut self, step: CellStep) -> CellResult
        requires free { LeavesHolds step }
        requires ready { IsReady self.old.geometry.origin_blocks self.old.pass.card step }
        ensures geometry { self.new.geometry ≡ self.old.geometry }
        ensures cells { self.new.cells ≡ self.old.cells }
        ensures step { StepsBy self.old.geometry.origin_blocks self.old.pass step result self.new.pass }
    {
        self.cells.step(&mut self.pass, step)
    }

    /// Two seats of one, the first of which keeps what it has done; where the words have as many owners as can be counted, `Memory`
    /// beside the seat.
    pub(crate) fn split(self) -> Result<(Seat, Seat), (Seat, Refusal)>
        ensures words { IfOk result (λ two. (two.0.cells.value.table ≡ self.cells.value.table) × (two.1.cells.value.table ≡ self.cells.value.table)) }
        ensures geometry { IfOk result (λ two. (two.0.geometry ≡ self.geometry) × (two.1.geometry ≡ self.geometry)) }
        ensures cards { IfOk result (λ two. (two.0.pass.card ≡ self.pass.card) × (two.1.pass.card ≡ blank_card)) }
        ensures back { IfErr result (λ back. back.0 ≡ self) }
        ensures refused { IfErr result (λ back. back.1 ≡ Refusal.Memory) }
    {
        let Ok(theirs) = Arc::try_clone(&self.cells) else {
            return Err((self, Refusal::Memory));
        };
        let (claim, geometry, cells, pass) = self.apart();
        let (one, other) = cells.split(pass);
        let other = Seat::over(geometry, theirs, other);
        Ok((Seat::claimed(claim, geometry, cells, one), other))
    }

    /// Ends it, as all seats of a target end, or of one that was not made.
    pub(crate) fn close(self) {
        let Seat {
            geometry: _,
            cells: _,
            pass: _,
            claim: Claim { mark: _ },
        } = self;
    }
}
