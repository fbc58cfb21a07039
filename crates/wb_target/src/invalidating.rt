//! Invalidations: blocks leave the cache by a message in passthrough, where no copy in the cache is newer than the origin's.

ghost use Rattle.std.specs.Prelude.{◌≡◌, ◌≢◌, ◌≤◌, ◌<◌, Some, [], OnOk, IfErr, IfSome};
ghost use Rattle.wb_types.specs.declared.number.OBlock.{OBlock as OBlockValue};
ghost use Rattle.wb_words.specs.declared.card.Hold.TheVariants.{Nothing};
ghost use Rattle.wb_tasks.specs.Ready.{StaysReady};
ghost use Rattle.wb_port.specs.Hands.{saw_fail_word};
ghost use Rattle.wb_port.specs.Requests.{ComesTo};
ghost use Rattle.wb_target.specs.Invalidates.{block_within, invalidation, listed, IsReadyToInvalidate, InvalidateLed, WasInvalidated, InvalidationCame, WasFound, IsEmptied, range_places, HaveLeftCache, HaveFailed, LeavesTheRest, WereInvalidated, InvalidateRefused};
ghost use Rattle.wb_target.specs.Works.{WasAsked};

use crate::client::Client;
use crate::office::Office;
use crate::target::Target;
use std::sync::Wait;
use std::thread;
use wb_cells::Cells;
use wb_desk::may_invalidate;
use wb_disk::Disk;
use wb_policy::Policy;
use wb_port::{Hand, Port};
use wb_tasks::{Answer, BlockTask, DeskStep, Got, Stage, Want, drive};
use wb_types::{CBlock, CBlockRange, Entry, OBlock, Refusal};

/// The stage of an invalidation, which touches no device.
#[derive(Drop)]
pub(crate) struct InvalidateStage<'a, R: Wait, D, P: Policy> {
    pub(crate) rt: &'a R,
    pub(crate) target: &'a Target<P>,
    pub(crate) cells: &'a Cells,
    pub(crate) hand: &'a mut Hand<D>,
}

impl<'a, R: Wait, D: Disk, P: Policy> Stage for InvalidateStage<'a, R, D, P> {
    ghost ready = { IsReadyToInvalidate };

    ghost led = { InvalidateLed (WasAsked P.with_entry P.without_entry []) };

    fn perform(&mut self, want: &Want) -> Got {
        match want {
            Want::Cell(step) => Got::from(self.hand.step(self.cells, *step)),
            Want::Desk(DeskStep::Unmap(block)) => {
                self.target.unmap(self.rt, *block);
                Got::Done
            }
            Want::Device(_) | Want::Desk(_) | Want::End(_) => unreachable!(),
        }
    }
}

impl<'a, R: Wait, D: Disk, P: Policy> InvalidateStage<'a, R, D, P> {
    /// Takes this block out of the cache, where it is mapped.
    fn empty(&mut self, block_sectors: u32, block: OBlock) -> Answer
        requires some { 0 < block_sectors }
        requires block { block.0 < self.old.cells.now.blocks }
        requires at { self.old.hand.now.pass.table ≡ self.old.cells.now.table }
        requires idle { self.old.hand.now.pass.card.hold ≡ Nothing }
        ensures same_hand { self.new.hand.ghost_name ≡ self.old.hand.ghost_name }
        ensures invalidated { WasInvalidated (WasAsked P.with_entry P.without_entry []) self.old.cells.now.blocks block_sectors block self.old.hand.now result self.new.hand.now }
        ensures at { self.new.hand.now.pass.table ≡ self.old.hand.now.pass.table }
        ensures idle { self.new.hand.now.pass.card.hold ≡ Nothing }
        ensures size { self.new.hand.now.block_sectors ≡ self.old.hand.now.block_sectors }
        ensures mode { self.new.hand.now.mode ≡ self.old.hand.now.mode }
        ensures devices { self.new.hand.now.devices ≡ self.old.hand.now.devices }
    {
        invalidate_on(self, block_sectors, block)
    }
}

/// Performs an invalidation up to its answer, on a stage that is ready for each of its steps.
fn invalidate_on<S: Stage>(stage: &mut S, block_sectors: u32, block: OBlock) -> Answer
    requires some { 0 < block_sectors }
    requires stays { StaysReady S.ready S.led (invalidation block_sectors block) stage.old }
    ensures { ComesTo S.led (invalidation block_sectors block) stage.old result stage.new }
{
    let mut task = BlockTask::invalidate(block_sectors, block);
    drive(&mut task, stage)
}

/// Takes this block out of the cache once: `Busy` and `Failed` as a write.
fn invalidate_port<R: Wait, D: Disk, P: Policy>(
    rt: &R,
    target: &Target<P>,
    port: &mut Port<D>,
    block: OBlock,
) -> Result<(), Refusal>
    requires there { block.0 < port.old.geometry.origin_blocks }
    ensures done { OnOk result (WasInvalidated (WasAsked P.with_entry P.without_entry []) port.old.geometry.origin_blocks port.old.geometry.block block port.old.hand Answer.Done port.new.hand) }
    ensures refused { IfErr result (λ refusal. WasInvalidated (WasAsked P.with_entry P.without_entry []) port.old.geometry.origin_blocks port.old.geometry.block block port.old.hand (Answer.Refused refusal) port.new.hand) }
    ensures devices { port.new.hand.devices ≡ port.old.hand.devices }
    ensures accesses { port.new.accesses ≡ port.old.accesses }
    ensures geometry { port.new.geometry ≡ port.old.geometry }
{
    let mut stage = InvalidateStage {
        rt,
        target,
        cells: &port.cells,
        hand: &mut port.hand,
    };
    match stage.empty(port.geometry.block, block) {
        Answer::Done => Ok(()),
        Answer::Refused(refusal) => Err(refusal),
    }
}

impl<P: Policy> Office<P> {
    /// The block in this cache block, if any, of so many on the origin.
    fn block_in(&self, place: CBlock, blocks: u32) -> Option<OBlock>
        ensures found { WasFound P blocks place.0 result }
        ensures there { IfSome result (λ block. block.0 < blocks) }
    {
        // All are there; the lock cannot say that its desk is of the client's cache.
        if place.0 >= self.desk.geometry().cache_blocks {
            return None;
        }
        block_within(blocks, self.desk.entry(place))
    }
}

impl<P: Policy> Target<P> {
    /// The block that the desk has in this cache block now, if any, of so many on the origin.
    fn block_in<R: Wait>(&self, rt: &R, place: CBlock, blocks: u32) -> Option<OBlock>
        ensures found { WasFound P blocks place.0 result }
        ensures there { IfSome result (λ block. block.0 < blocks) }
    {
        self.office.lock(rt).block_in(place, blocks)
    }
}

impl<'t, D: Disk + Drop, P: Policy> Client<'t, D, P> {
    /// Takes the blocks in the cache blocks of these ranges out of the cache, range by range, rising; a cache block without one is passed
    /// over. Nothing is copied: in passthrough the origin has the newest copy of each block (the kernel's device-mapper/cache.rst, "Messages":
    /// `invalidate_cblocks`). A block that is busy is tried again. Accesses stay unsettled.
    ///
    /// `BadMessage` where some range is empty or goes past the cache's end, then `WrongMode` outside passthrough, then `Failed` where the target
    /// has failed, and then nothing was done; `Failed` too where a block met it, and then those before it have left the cache. No range in
    /// passthrough does nothing.
    pub fn invalidate<R: Wait>(&mut self, rt: &R, ranges: &[CBlockRange]) -> Result<(), Refusal>
        ensures invalidated { OnOk result (WereInvalidated P (WasAsked P.with_entry P.without_entry []) self.old.port.geometry ranges.now self.old.port.hand self.new.port.hand) }
        ensures refused { IfErr result (λ refusal. InvalidateRefused P (WasAsked P.with_entry P.without_entry []) self.old.port.geometry ranges.now refusal self.old.port.hand self.new.port.hand) }
        ensures devices { self.new.port.hand.devices ≡ self.old.port.hand.devices }
        ensures accesses { self.new.port.accesses ≡ self.old.port.accesses }
        ensures target { self.new.target ≡ self.old.target }
        ensures geometry { self.new.port.geometry ≡ self.old.port.geometry }
    {
        may_invalidate(
            ranges,
            self.port.geometry.cache_blocks,
            self.port.hand.mode(),
        )?;
        if self.port.has_failed() {
            return Err(Refusal::Failed);
        }
        for range in ranges {
            self.invalidate_range(rt, *range)?;
        }
        Ok(())
    }

    /// Takes the blocks in the cache blocks of a range out of the cache, rising.
    fn invalidate_range<R: Wait>(&mut self, rt: &R, range: CBlockRange) -> Result<(), Refusal>
        ensures left { OnOk result (HaveLeftCache P (WasAsked P.with_entry P.without_entry []) self.old.port.geometry (range_places range) self.old.port.hand self.new.port.hand) }
        ensures refused { IfErr result (λ refusal. (refusal ≡ Refusal.Failed) × HaveFailed P (WasAsked P.with_entry P.without_entry []) self.old.port.geometry (range_places range) self.old.port.hand self.new.port.hand) }
        ensures rest { LeavesTheRest self.old self.new }
    {
        let mut at = range.begin.0;
        while at < range.end.0 {
            self.invalidate_at(rt, CBlock(at))?;
            at += 1;
        }
        Ok(())
    }

    /// Takes the block that is in this cache block, if any, out of the cache.
    fn invalidate_at<R: Wait>(&mut self, rt: &R, place: CBlock) -> Result<(), Refusal>
        ensures emptied { OnOk result (IsEmptied (WasFound P self.old.port.geometry.origin_blocks) (InvalidationCame (WasAsked P.with_entry P.without_entry []) self.old.port.geometry Answer.Done) place.0 self.old.port.hand self.new.port.hand) }
        ensures refused { IfErr result (λ refusal. (refusal ≡ Refusal.Failed) × ((block : OBlockValue) × WasFound P self.old.port.geometry.origin_blocks place.0 (Some block) × InvalidationCame (WasAsked P.with_entry P.without_entry []) self.old.port.geometry (Answer.Refused Refusal.Failed) block self.old.port.hand self.new.port.hand)) }
        ensures rest { LeavesTheRest self.old self.new }
    {
        let blocks = self.port.geometry.origin_blocks;
        match self.target.block_in(rt, place, blocks) {
            Some(block) => self.invalidate_block(rt, block),
            None => Ok(()),
        }
    }

    /// Takes this block out of the cache, again while it is busy.
    fn invalidate_block<R: Wait>(&mut self, rt: &R, block: OBlock) -> Result<(), Refusal>
        requires there { block.0 < self.old.port.geometry.origin_blocks }
        ensures done { OnOk result (InvalidationCame (WasAsked P.with_entry P.without_entry []) self.old.port.geometry Answer.Done block self.old.port.hand self.new.port.hand) }
        ensures refused { IfErr result (λ refusal. (refusal ≡ Refusal.Failed) × InvalidationCame (WasAsked P.with_entry P.without_entry []) self.old.port.geometry (Answer.Refused Refusal.Failed) block self.old.port.hand self.new.port.hand) }
        ensures rest { LeavesTheRest self.old self.new }
    {
        for _ in rt.forever() {
            let target = self.target;
            match invalidate_port(rt, target, &mut self.port, block) {
                Ok(()) => return Ok(()),
                Err(refusal) => {
                    if refusal.is_busy() {
                        thread::yield_now();
                    } else {
                        return Err(refusal);
                    }
                }
            }
        }
        unreachable!()
    }
}

/// The block of an entry, where it is there.
fn block_within(count: u32, entry: Option<Entry>) -> Option<OBlock>
    ensures listed { listed result ≡ block_within count entry }
    ensures there { IfSome result (λ block. block.0 < count) }
{
    let block = entry?.origin;
    if block.0 < count { Some(block) } else { None }
}
