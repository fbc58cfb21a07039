//! The seats of a target.

ghost use Rattle.std.specs.Prelude.{◌≡◌, ◌<◌, ◌++◌, ◌∷◌, [], All, IfOk, IfErr, IfSome, IfNone, length, vec_capacity};
ghost use Rattle.wb_cells.specs.Fractions.{IsWhole};
ghost use Rattle.wb_port.specs.declared.seat.Seat.{Seat as SeatTerm};

use crate::seat::Seat;
use std::alloc::Global;
use wb_types::Refusal;

/// The seats of a target that no client has, and the one by which the target itself looks at the words. They end together. They are made
/// only of a seat that is known to have the whole of its words, which of a client's seat is not known.
pub struct Seats {
    spare: Vec<Seat>,
    pub watch: Seat,
}

impl Drop for Seats {
    fn drop(self) {
        let Seats { spare, watch } = self;
        close_all(spare);
        watch.close();
    }
}

impl Seats {
    /// So many seats, which have done nothing yet, and what is left of one, which keeps what it has done. `Memory` where there is none.
    pub fn new(alloc: Global, seat: Seat, count: usize) -> Result<Seats, Refusal>
        requires whole { IsWhole seat.pass.fraction }
        ensures many { IfOk result (λ seats. length seats.spare.items ≡ count) }
        ensures words { IfOk result (λ seats. All (λ (one : SeatTerm). one.cells.value.table ≡ seat.cells.value.table) seats.spare.items × (seats.watch.cells.value.table ≡ seat.cells.value.table)) }
        ensures geometry { IfOk result (λ seats. seats.watch.geometry ≡ seat.geometry) }
        ensures card { IfOk result (λ seats. seats.watch.pass.card ≡ seat.pass.card) }
        ensures refused { IfErr result (λ refusal. refusal ≡ Refusal.Memory) }
    {
        let Ok(mut spare) = Vec::with_capacity(alloc, count) else {
            seat.close();
            return Err(Refusal::Memory);
        };
        let mut left = seat;
        for _ in 0..count {
            if spare.reserve(1).is_err() {
                close_all(spare);
                left.close();
                return Err(Refusal::Memory);
            }
            match left.split() {
                Ok((rest, one)) => {
                    spare.push_reserved(one);
                    left = rest;
                }
                Err((left, refusal)) => {
                    close_all(spare);
                    left.close();
                    return Err(refusal);
                }
            }
        }
        Ok(Seats { spare, watch: left })
    }

    /// How many no client has.
    pub fn spare(&self) -> usize
        ensures { result ≡ length self.now.spare.items }
    {
        self.spare.len()
    }

    /// One of those that no client has, if there is any; the others stay.
    pub fn take(&mut self) -> Option<Seat>
        ensures taken { IfSome result (λ seat. self.old.spare.items ≡ self.new.spare.items ++ seat ∷ []) }
        ensures none { IfNone result (self.old.spare.items ≡ []) }
        ensures watch { self.new.watch ≡ self.old.watch }
    {
        self.spare.pop()
    }

    /// Puts a seat back that was taken. One for which there is no room ends: there is room for each that was taken, but no lock can say so.
    pub fn give_back(&mut self, seat: Seat)
        ensures back { length self.old.spare.items < vec_capacity self.old.spare → self.new.spare.items ≡ self.old.spare.items ++ seat ∷ [] }
        ensures watch { self.new.watch ≡ self.old.watch }
    {
        if self.spare.len() < self.spare.capacity() {
            self.spare.push_reserved(seat);
        } else {
            seat.close();
        }
    }
}

/// Ends all of these.
fn close_all(seats: Vec<Seat>) {
    let mut seats = seats;
    while let Some(seat) = seats.pop() {
        seat.close();
    }
    seats.destroy_empty();
}
