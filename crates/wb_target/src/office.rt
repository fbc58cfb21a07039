//! What lies under a target's lock.

ghost use Rattle.std.specs.Prelude.{◌≡◌, ◌<◌, ◌+◌, ◌++◌, ◌∷◌, [], ℕ, List, IfOk, IfErr, IfSome, IfNone, OnOk, OnErr, if◌then◌else◌, is_some, length, map};
ghost use Rattle.wb_types.specs.declared.number.CBlock.{CBlock as CBlockValue};
ghost use Rattle.wb_types.specs.declared.number.OBlock.{OBlock as OBlockValue};
ghost use Rattle.wb_desk.specs.Desks.{DeskInvariant, holdings};
ghost use Rattle.wb_desk.specs.Messages.{MessageIsTold, IsRefused};
ghost use Rattle.wb_desk.specs.Settling.{AreSettled, IsTicked};
ghost use Rattle.wb_tasks.specs.Plan.{Fits};
ghost use Rattle.wb_tasks.specs.declared.step.Want.TheVariants.{Desk as AskDesk};
ghost use Rattle.wb_stage.specs.Asking.{DidUnmap, DidRelease};
ghost use Rattle.wb_stage.specs.Sharing.{MayAskNow, share_then};
ghost use Rattle.wb_stage.specs.Stages.{DidAsk, IsServed};
ghost use Rattle.wb_target.specs.Carried.{BlocksAreThere};
ghost use Rattle.wb_target.specs.Told.{WasNext};
ghost use Rattle.wb_target.specs.Shown.{AreShown, SawDirty, TellsFailed, WereLooked, seals_latest_first};
ghost use Rattle.wb_target.specs.Suspends.{mapped_block};
ghost use Rattle.wb_tree.specs.Mapping.{entry_at};
ghost use Rattle.wb_words.specs.Cards.{looked};
ghost use Rattle.wb_desk.proofs.Seen.{AreSeen};
ghost use Rattle.wb_policy.specs.Law.{IsMappedAt};

use std::alloc::{AllocError, Global};
use std::marker::Model;
use wb_desk::Desk;
use wb_devices::RunningCommit;
use wb_policy::{Order, Policy};
use wb_port::{Seat, Seats};
use wb_stage::{Share, asking};
use wb_table::Fields;
use wb_tasks::{DeskStep, Got};
use wb_types::{CBlock, Geometry, Key, Message, OBlock, Refusal, Version};
use wb_words::{Kind, Word, is_dirty};

/// The desk, and the seats: those that no client has, and the one by which the office itself looks at the words, which are of the desk's origin.
pub(crate) struct Office<P: Policy> {
    pub(crate) desk: Desk<P>,
    pub(crate) seats: Seats,
}

impl<P: Policy> Model for Office<P> {
    ghost use Rattle.std.specs.Prelude.{vec_capacity};
    ghost use Rattle.wb_target.specs.Offices.{AreOfOneOrigin, OfficeState};

    ghost Value = { OfficeState P };

    ghost view = { λ o. record { desk = o.desk; seats = o.seats.spare.items; room = vec_capacity o.seats.spare; watch = o.seats.watch } };

    ghost invariant = { λ o. AreOfOneOrigin o.desk o.seats.watch };
}

impl<P: Policy> Drop for Office<P> {
    fn drop(self) {
        let Office { desk, seats } = self;
        drop(desk);
        drop(seats);
    }
}

impl<P: Policy> Office<P> {
    /// A seat that a client gave back. There is room for each that was given out.
    pub(crate) fn give_back(&mut self, seat: Seat)
        ensures back { length self.old.seats < self.old.room → self.new.seats ≡ self.old.seats ++ seat ∷ [] }
        ensures desk { self.new.desk ≡ self.old.desk }
        ensures watch { self.new.watch ≡ self.old.watch }
    {
        self.seats.give_back(seat);
    }

    /// A place for one client more, if there is any; the others stay.
    pub(crate) fn take_seat(&mut self) -> Option<Seat>
        ensures taken { IfSome result (λ seat. self.old.seats ≡ self.new.seats ++ seat ∷ []) }
        ensures none { IfNone result (self.old.seats ≡ []) }
        ensures desk { self.new.desk ≡ self.old.desk }
        ensures watch { self.new.watch ≡ self.old.watch }
    {
        self.seats.take()
    }

    /// Performs a step on the desk, as `asking::ask`.
    pub(crate) fn ask(
        &mut self,
        alloc: Global,
        commit: &mut Option<RunningCommit>,
        share: &mut Share,
        held: &[Order],
        step: DeskStep,
    ) -> Got
        requires goes_on { MayAskNow self.old.desk share.old step }
        requires served { IsServed (AskDesk step) }
        ensures kind { Fits (AskDesk step) result }
        ensures did { DidAsk P.with_entry P.without_entry held.now step share.old result self.old.desk commit.old self.new.desk commit.new }
        ensures share { share.new ≡ share_then self.old.desk share.old step result }
    {
        asking::ask(alloc, &mut self.desk, commit, share, held, step)
    }

    /// Takes a block out of the mapping, where it has an entry.
    pub(crate) fn unmap(&mut self, block: OBlock)
        ensures { DidUnmap P.without_entry block self.old.desk self.new.desk }
    {
        asking::unmap(&mut self.desk, block);
    }

    /// Gives up the order of a block, which is one of these.
    pub(crate) fn release(&mut self, held: &[Order], block: OBlock)
        ensures { DidRelease held.now block self.old.desk self.new.desk }
    {
        asking::release(&mut self.desk, held, block);
    }

    /// Tells the policy of accesses, in order: its orders wait to be taken.
    pub(crate) fn settle(&mut self, accesses: &[OBlock])
        ensures { AreSettled P.ordered P.settled self.old.desk accesses.now self.new.desk }
    {
        self.desk.settle(accesses);
    }

    /// The order that waits longest, if any. A desk of an origin of another size has none for a client of this one; the desk under a target's
    /// lock has its clients' sizes, which the lock cannot say.
    pub(crate) fn take_order(&mut self, sizes: Geometry) -> Option<Order>
        ensures next { WasNext P result }
        ensures there { IfSome result (BlocksAreThere sizes) }
    {
        if self.desk.geometry().origin_blocks != sizes.origin_blocks {
            return None;
        }
        self.desk.next_order()
    }

    /// What the status line tells, as the words and the desk are now; whether the target has failed is looked at last.
    pub(crate) fn fields(&mut self) -> Fields<'static>
        ensures shown { AreShown P.name P.promote_min self.old.desk result }
        ensures looked { WereLooked self.old self.new.watch.pass.card result }
    {
        let counts = self.desk.counts();
        let geometry = self.desk.geometry();
        let mode = self.desk.mode();
        let (policy, promote_min) = self.desk.shown();
        Fields {
            used_metadata: counts.used,
            metadata: geometry.meta_sectors,
            block: geometry.block,
            mapped: counts.mapped,
            cache_blocks: geometry.cache_blocks,
            read_hits: self.count(Kind::ReadHit),
            read_misses: self.count(Kind::ReadMiss),
            write_hits: self.count(Kind::WriteHit),
            write_misses: self.count(Kind::WriteMiss),
            demotions: counts.demotions,
            promotions: counts.promotions,
            dirty: self.count_dirty(),
            mode,
            metadata2: matches!(geometry.version, Version::Two),
            threshold: counts.threshold,
            policy,
            promote_min,
            failed: self.has_failed(),
        }
    }

    /// Whether the target has failed: one that is suspended has not.
    fn has_failed(&mut self) -> bool
        ensures { (word : ℕ) × (self.new.watch.pass.card ≡ looked Word.Fail word self.old.watch.pass.card) × TellsFailed word result }
    {
        self.seats.watch.look(Word::Fail) % 2 != 0
    }

    /// The policy's tick, over the mapped blocks whose seals are dirty now. `Memory` where there is none for the list of them,
    /// and then the policy was told nothing.
    pub(crate) fn tick(&mut self, alloc: Global) -> Result<(), Refusal>
        ensures ticked { OnOk result ((dirty : List (CBlockValue × OBlockValue)) × IsTicked P.cleaned P.ticked dirty (self.old.desk.geometry.cache_blocks + 1) 0 self.old.desk self.new.desk) }
        ensures refused { IfErr result (λ refusal. refusal ≡ Refusal.Memory) }
    {
        let dirty = self.dirty_blocks(alloc)?;
        self.desk.tick(dirty.as_slice());
        Ok(())
    }

    /// Gives a setting a value. `BadMessage` for a value out of range or a key that the policy does not have, and then nothing changed.
    pub(crate) fn set(&mut self, key: Key, value: u64) -> Result<(), Refusal>
        ensures set { OnOk result (MessageIsTold P.with_setting self.old.desk (Message.Set key value) self.new.desk) }
        ensures refused { IfErr result (IsRefused P.with_setting self.old.desk (Message.Set key value)) }
        ensures unchanged { OnErr result (self.new.desk ≡ self.old.desk) }
    {
        self.desk.message(&Message::Set(key, value))
    }

    /// How many parts of requests counted as this kind.
    fn count(&mut self, kind: Kind) -> u64
        ensures desk { self.new.desk ≡ self.old.desk }
        ensures card { self.new.watch.pass.card ≡ looked (Word.Count kind) result self.old.watch.pass.card }
    {
        self.seats.watch.look(Word::Count(kind))
    }

    /// How many mapped blocks have a dirty seal.
    pub(crate) fn count_dirty(&mut self) -> u32
        ensures { SawDirty self.old.watch.pass.card self.new.watch.pass.card (seals_latest_first self.old.desk.tree self.old.desk.geometry.cache_blocks) result }
    {
        let mut dirty = 0;
        for c in 0..self.desk.geometry().cache_blocks {
            if self.dirty_at(CBlock(c)).is_some() {
                dirty += 1;
            }
        }
        dirty
    }

    /// The mapped blocks that have a dirty seal, by rising cache block.
    fn dirty_blocks(&mut self, alloc: Global) -> Result<Vec<(CBlock, OBlock)>, AllocError>
        ensures desk { self.new.desk ≡ self.old.desk }
        ensures seen { IfOk result (λ dirty. AreSeen (holdings self.old.desk) self.old.desk.geometry.cache_blocks dirty.items) }
    {
        let mut dirty = Vec::new(alloc);
        for c in 0..self.desk.geometry().cache_blocks {
            if let Some(block) = self.dirty_at(CBlock(c)) {
                dirty.push((CBlock(c), block))?;
            }
        }
        Ok(dirty)
    }

    /// The block in this cache block, if its seal is dirty.
    fn dirty_at(&mut self, place: CBlock) -> Option<OBlock>
        requires { place.0 < self.old.desk.geometry.cache_blocks }
        ensures desk { self.new.desk ≡ self.old.desk }
        ensures looked { SawDirty self.old.watch.pass.card self.new.watch.pass.card (map Word.Seal (mapped_block (entry_at self.old.desk.tree place.0))) (if is_some result then 1 else 0) }
        ensures mapped { IfSome result (λ block. IsMappedAt (holdings self.old.desk) block.0 place.0) }
    {
        see_desk(&self.desk);
        let entry = self.desk.entry(place)?;
        let block = entry.origin;
        if is_dirty(self.seats.watch.look(Word::Seal(block))) {
            Some(block)
        } else {
            None
        }
    }
}

/// What holds of every desk. It does nothing.
pub(crate) fn see_desk<P: Policy>(desk: &Desk<P>)
    ensures { DeskInvariant P.knows desk.now }
{
    let _ = desk.counts();
}
