//! Taking a block, a step at a time.

ghost use Rattle.std.specs.Prelude.{◌≡◌, cond};
ghost use Rattle.wb_words.specs.declared.grip.GripStage.TheVariants.{LookFail};
ghost use Rattle.wb_words.specs.declared.grip.Gripped.TheVariants.{More, Refused};
ghost use Rattle.wb_words.specs.declared.word.Access.TheVariants.{Shared as SharedAccess, Owned as OwnedAccess};
ghost use Rattle.wb_words.specs.Grips.{step_at, told_at, told_held, stage_after};

use crate::held_block::{Own, Share};
use crate::step::CellStep;
use crate::{Access, Word, can_take, is_dirty, place_in};
use wb_types::{OBlock, Refusal};

/// Which of its five steps a grip makes next.
#[derive(Clone, Copy)]
pub enum GripStage {
    /// A look at the fail word.
    LookFail,
    /// A look at the block's lock word.
    LookLock,
    /// The exchange, at the lock word that was seen.
    Exchange(u64),
    /// A look at the seal.
    LookSeal,
    /// A look at the number, once the seal is known.
    LookNumber(u64),
}

/// A block that is being taken: a look at the fail word, a look at its lock word, the exchange that shares or owns it,
/// a look at its seal, a look at its number.
#[derive(Clone, Copy)]
pub struct Grip {
    pub access: Access,
    pub block: OBlock,
    pub stage: GripStage,
}

/// What a step of a grip tells.
#[derive(Drop)]
pub enum Gripped {
    /// The word that was found; the grip goes on.
    More(u64),
    Shared(Share),
    Owned(Own),
    /// `Busy` where the lock word allows no such hold or changed before the exchange, `Failed` where the
    /// fail word is not 0.
    Refused(Refusal),
}

impl Grip {
    /// A grip that will share the block.
    pub fn share(block: OBlock) -> Grip
        ensures { result ≡ record { access = SharedAccess; block = block; stage = LookFail } }
    {
        Grip {
            access: Access::Shared,
            block,
            stage: GripStage::LookFail,
        }
    }

    /// A grip that will own the block.
    pub fn own(block: OBlock) -> Grip
        ensures { result ≡ record { access = OwnedAccess; block = block; stage = LookFail } }
    {
        Grip {
            access: Access::Owned,
            block,
            stage: GripStage::LookFail,
        }
    }

    /// The next of its steps.
    pub fn step(&self) -> CellStep
        ensures { result ≡ step_at self.now.access self.now.block self.now.stage }
    {
        match self.stage {
            GripStage::LookFail => CellStep::Look(Word::Fail),
            GripStage::LookLock => CellStep::Look(Word::Cell(self.block)),
            GripStage::Exchange(seen) => CellStep::Take(self.access, self.block, seen),
            GripStage::LookSeal => CellStep::Look(Word::Seal(self.block)),
            GripStage::LookNumber(_) => CellStep::Look(Word::Number(self.block)),
        }
    }

    /// Goes on after a step that found this word; an exchange is won where it found the word that was seen. At its end,
    /// told of a block that is held or refused, it stands at its first step again.
    pub fn advance(&mut self, found: u64) -> Gripped
        ensures told { result ≡ told_at self.old.access self.old.block self.old.stage found }
        ensures next { self.new ≡ record self.old { stage = stage_after self.old.access self.old.stage found } }
    {
        match self.stage {
            GripStage::LookFail => {
                self.go_on(found == 0, GripStage::LookLock, found, Refusal::Failed)
            }
            GripStage::LookLock => {
                let free = can_take(self.access, found);
                self.go_on(free, GripStage::Exchange(found), found, Refusal::Busy)
            }
            GripStage::Exchange(seen) => {
                self.go_on(found == seen, GripStage::LookSeal, found, Refusal::Busy)
            }
            GripStage::LookSeal => {
                self.stage = GripStage::LookNumber(found);
                Gripped::More(found)
            }
            GripStage::LookNumber(seal) => {
                self.stage = GripStage::LookFail;
                told(self.access, self.block, seal, found)
            }
        }
    }

    // To the next stage, or to the end with a refusal.
    fn go_on(&mut self, may: bool, next: GripStage, found: u64, refusal: Refusal) -> Gripped
        ensures told { result ≡ cond may (More found) (Refused refusal) }
        ensures next { self.new ≡ record self.old { stage = cond may next LookFail } }
    {
        if may {
            self.stage = next;
            Gripped::More(found)
        } else {
            self.stage = GripStage::LookFail;
            Gripped::Refused(refusal)
        }
    }
}

/// What is told of a block that is held, by its seal and number words.
fn told(access: Access, block: OBlock, seal: u64, number: u64) -> Gripped
    ensures { result ≡ told_held access block seal number }
{
    let (place, dirty) = (place_in(seal), is_dirty(seal));
    match access {
        Access::Shared => Gripped::Shared(Share {
            block,
            place,
            dirty,
            number,
        }),
        Access::Owned => Gripped::Owned(Own {
            block,
            place,
            dirty,
            number,
        }),
    }
}
