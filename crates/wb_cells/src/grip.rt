//! Taking a block by a pass.

ghost use Rattle.std.specs.Prelude.{◌≡◌, ◌≢◌, ◌<◌, [], Err, IfOk, IfErr, MatchResult};
ghost use Rattle.wb_types.specs.declared.refusal.Refusal.TheVariants.{Failed};
ghost use Rattle.wb_words.specs.declared.word.Access.TheVariants.{Shared as SharedAccess, Owned as OwnedAccess};
ghost use Rattle.wb_words.specs.declared.card.Hold.TheVariants.{Nothing};
ghost use Rattle.wb_words.specs.declared.grip.GripStage.TheVariants.{LookFail};
ghost use Rattle.wb_words.specs.declared.grip.Gripped.TheVariants.{Refused};
ghost use Rattle.wb_words.specs.Grips.{IsReadyToGrip, GripStep, IsMore, TellsHeld, IsRefusal, EndsAs, EndsAlone};
ghost use Rattle.wb_cells.specs.Fractions.{IsWhole};

use crate::cells::Cells;
use crate::pass::Pass;
use wb_types::{OBlock, Refusal};
use wb_words::{Grip, GripStage, Gripped, Own, Share, Word};

impl Cells {
    /// The next of the five steps of a grip, the one that `Grip::step` names: a look at the fail word, a look at the
    /// block's lock word, the exchange that shares or owns it, a look at its seal, a look at its number. It finds the
    /// word of a moment at which the rule of all words held, and makes of the card what such a step makes. While it
    /// answers `More` the caller goes on; after a refusal nothing is different but looks and losses.
    pub fn grip_step(&self, pass: &mut Pass, grip: &mut Grip) -> Gripped
        requires at { pass.old.table ≡ self.now.table }
        requires block { grip.old.block.0 < self.now.blocks }
        requires fits { IsReadyToGrip grip.old pass.old.card }
        ensures step { GripStep self.now.blocks (IsWhole pass.old.fraction) grip.old pass.old.card result grip.new pass.new.card }
        ensures pass { pass.new ≡ record pass.old { card = pass.new.card } }
        ensures fits { IsMore result → IsReadyToGrip grip.new pass.new.card }
        ensures failed { grip.old.stage ≡ LookFail → pass.old.failed ≢ [] → result ≡ Refused Failed }
    {
        match grip.stage {
            GripStage::LookFail => grip.advance(self.look(pass, Word::Fail)),
            GripStage::LookLock => grip.advance(self.look(pass, Word::Cell(grip.block))),
            GripStage::Exchange(seen) => {
                let found = self.exchange(pass, grip.access, grip.block, seen);
                grip.advance(found)
            }
            GripStage::LookSeal => grip.advance(self.look(pass, Word::Seal(grip.block))),
            GripStage::LookNumber(_) => grip.advance(self.look(pass, Word::Number(grip.block))),
        }
    }

    /// Shares a block: the steps of a grip to their end.
    ///
    /// `Failed` where the fail word was not 0; `Busy` where the lock word was owned or full, or changed
    /// before the exchange. After either nothing is different but the looks and the loss of this call. A pass that has
    /// failed or been suspended, or came from one that had, is always answered `Failed`. A pass that has the whole is
    /// never answered `Busy`: it has the block, unless it set a bit of the fail word.
    pub fn try_share(&self, pass: &mut Pass, block: OBlock) -> Result<Share, Refusal>
        requires at { pass.old.table ≡ self.now.table }
        requires block { block.0 < self.now.blocks }
        requires idle { pass.old.card.hold ≡ Nothing }
        ensures pass { pass.new ≡ record pass.old { card = pass.new.card } }
        ensures block { IfOk result (λ share. share.block ≡ block) }
        ensures shares { IfOk result (λ share. TellsHeld SharedAccess block share.place share.dirty share.number pass.old.card pass.new.card) }
        ensures refused { IfErr result (λ refusal. IsRefusal SharedAccess block refusal pass.old.card pass.new.card) }
        ensures failed { pass.old.failed ≢ [] → result ≡ Err Failed }
        ensures alone { IsWhole pass.old.fraction → MatchResult result (λ _. pass.old.card.set ≡ []) (λ refusal. (refusal ≡ Failed) × (pass.old.card.set ≢ [])) }
    {
        match self.grip(pass, Grip::share(block)) {
            Gripped::Shared(share) => Ok(share),
            Gripped::Refused(refusal) => Err(refusal),
            Gripped::Owned(_) | Gripped::More(_) => Err(Refusal::Busy),
        }
    }

    /// Owns a block: the steps of a grip to their end.
    ///
    /// `Failed` where the fail word was not 0; `Busy` where the lock word was owned or shared, or changed
    /// before the exchange. After either nothing is different but the looks and the loss of this call. A pass that has
    /// failed or been suspended, or came from one that had, is always answered `Failed`. A pass that has the whole is
    /// never answered `Busy`: it has the block, unless it set a bit of the fail word.
    pub fn try_own(&self, pass: &mut Pass, block: OBlock) -> Result<Own, Refusal>
        requires at { pass.old.table ≡ self.now.table }
        requires block { block.0 < self.now.blocks }
        requires idle { pass.old.card.hold ≡ Nothing }
        ensures pass { pass.new ≡ record pass.old { card = pass.new.card } }
        ensures block { IfOk result (λ own. own.block ≡ block) }
        ensures owns { IfOk result (λ own. TellsHeld OwnedAccess block own.place own.dirty own.number pass.old.card pass.new.card) }
        ensures refused { IfErr result (λ refusal. IsRefusal OwnedAccess block refusal pass.old.card pass.new.card) }
        ensures failed { pass.old.failed ≢ [] → result ≡ Err Failed }
        ensures alone { IsWhole pass.old.fraction → MatchResult result (λ _. pass.old.card.set ≡ []) (λ refusal. (refusal ≡ Failed) × (pass.old.card.set ≢ [])) }
    {
        match self.grip(pass, Grip::own(block)) {
            Gripped::Owned(own) => Ok(own),
            Gripped::Refused(refusal) => Err(refusal),
            Gripped::Shared(_) | Gripped::More(_) => Err(Refusal::Busy),
        }
    }

    // The steps of a grip to their end.
    fn grip(&self, pass: &mut Pass, mut grip: Grip) -> Gripped
        requires at { pass.old.table ≡ self.now.table }
        requires block { grip.block.0 < self.now.blocks }
        requires idle { pass.old.card.hold ≡ Nothing }
        requires begins { grip.stage ≡ LookFail }
        ensures pass { pass.new ≡ record pass.old { card = pass.new.card } }
        ensures ends { EndsAs grip.access grip.block result pass.old.card pass.new.card }
        ensures failed { pass.old.failed ≢ [] → result ≡ Refused Failed }
        ensures alone { IsWhole pass.old.fraction → EndsAlone result pass.old.card }
    {
        loop {
            match self.grip_step(pass, &mut grip) {
                Gripped::More(_) => continue,
                ended => return ended,
            }
        }
    }
}
