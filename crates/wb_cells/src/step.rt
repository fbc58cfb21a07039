//! A step of any kind by a pass.

ghost use Rattle.std.specs.Prelude.{◌≡◌};
ghost use Rattle.wb_words.specs.Ready.{IsReady};
ghost use Rattle.wb_cells.specs.Passes.{StepsBy};

use crate::cells::Cells;
use crate::pass::Pass;
use wb_words::{CellResult, CellStep, FailBit, seal_word};

impl Cells {
    /// One step of a pass, which is ready for it: a look, the exchange that takes a block at the lock word that was seen,
    /// giving a block back, a seal, a finished write, a count, or a bit of the fail word.
    #[inline(always)]
    pub fn step(&self, pass: &mut Pass, step: CellStep) -> CellResult
        requires at { pass.old.table ≡ self.now.table }
        requires ready { IsReady self.now.blocks pass.old.card step }
        ensures step { StepsBy self.now.blocks pass.old step result pass.new }
    {
        match step {
            CellStep::Look(word) => CellResult::Word(self.look(pass, word)),
            CellStep::Take(access, block, seen) => {
                if self.exchange(pass, access, block, seen) == seen {
                    CellResult::Done
                } else {
                    CellResult::Lost
                }
            }
            CellStep::Release(access, block) => {
                self.words.release(&mut pass.seat, 0, access, block);
                CellResult::Done
            }
            CellStep::Seal(block, place, dirty) => {
                let seal = seal_word(place, dirty);
                self.words.seal(&mut pass.seat, 0, block, seal);
                CellResult::Done
            }
            CellStep::Finish(block) => {
                self.words.finish(&mut pass.seat, 0, block);
                CellResult::Done
            }
            CellStep::Count(kind) => {
                self.words.count(&mut pass.seat, 0, kind);
                CellResult::Done
            }
            CellStep::SetFailed => {
                self.words.fail(&mut pass.seat, 0, FailBit::Failed);
                CellResult::Done
            }
            CellStep::SetSuspended => {
                self.words.fail(&mut pass.seat, 0, FailBit::Suspended);
                CellResult::Done
            }
        }
    }
}
