//! A job on one block: a read or write of sectors of it, its invalidation, or a migration of the whole. One task walks every table of
//! such a job:
//!
//! 1. acquire the block, a read to share it, all others to own it: fail word, lock word, exchange, seal, number;
//! 2. where a write finds no number left, give the block back and answer `Worn`; where it finds its block mapped in passthrough, give it
//!    back and answer `Defer`: then a write that may ask the desk has to take the block out of the cache;
//! 3. in write-back a write seals a clean copy in the cache dirty; such a write of passthrough, or an invalidation, removes the entry of a
//!    mapped block and seals it to the origin;
//! 4. move each extent: a read or write on the device that the seal names, but in passthrough on the origin, and in write-through a
//!    write of a mapped block on the origin and then in the cache; a migration reads it at one place of the block and writes it at the
//!    other, a demotion or write-back where the cache's copy is dirty alone;
//! 5. a write finishes: the block's number rises by one; a request counts a hit or a miss; a promotion enters the block into the
//!    mapping, a demotion removes it, each of which ends its order;
//! 6. a migration seals the place that the block has then, clean;
//! 7. give the block back, a write-back its order too, and answer done.
//!
//! After a fault on a read, or where the desk has no memory for an entry: give the block back, a migration then its order, and
//! answer. After a fault on a write: set the failed bit, keep block and order for good, and answer `Io`.

ghost use Rattle.std.specs.Prelude.{◌≡◌, ◌+◌, ◌*◌, ◌<◌, ◌≤◌, ◌^◌, Bool, [], ◌∷◌, if◌then◌else◌};
ghost use Rattle.wb_types.specs.Extents.{pieces};
ghost use Rattle.wb_types.specs.declared.mode.Mode.TheVariants.{Writeback, Passthrough};
ghost use Rattle.wb_tasks.specs.Tables.{BlockRange, OnBlock, Writing, Displacing, Invalidating, Migrating, places_written, access_of, is_write, whole_block};
ghost use Rattle.wb_tasks.specs.Plan.{Plan, table};
ghost use Rattle.wb_tasks.specs.Phases.{job_on_block, has_order, written_mode, left_in, after_seeing};

use crate::acquire::{self, Seen};
use crate::cut::split;
use crate::route::{device_at, is_deferred, is_due, place_read, route, written};
use crate::step::{Answer, DeskStep, DeviceStep, Got, Migration, Want};
use crate::task::Steps;
use std::marker::Model;
use wb_types::{CBlock, Dev, Extent, Mode, OBlock, Refusal};
use wb_words::{Access, CellStep, GripStage, Kind};

/// What a job does with its block.
#[derive(Clone, Copy)]
pub enum Work {
    /// It shares the block, reads where its seal says that the newest copy stands, in passthrough on the origin, and counts as a hit
    /// where that is the cache.
    Read,
    /// It owns the block, is finished, and counts as a hit where the block is mapped. In write-back it seals a clean copy in the cache
    /// dirty, and writes where the newest copy stands; in write-through it writes each extent on the origin, and then in the cache
    /// where the block is mapped; in passthrough on the origin alone, and where the block is mapped, it answers `Defer`.
    Write,
    /// A write of passthrough that may ask the desk: it takes a mapped block out of the cache, without a copy, and writes on the origin
    /// alone. It owns the block, is finished, and counts as a hit where the block was mapped. It does not look at the mode.
    Displace,
    /// It owns the block, and takes it out of the cache, without a copy, where it is mapped: see `BlockTask::invalidate`.
    Invalidate,
    /// It owns the block, and copies its sectors: see `BlockTask::migrate`.
    Migrate(Migration),
}

/// Where a job stands.
#[derive(Clone, Copy)]
enum Phase {
    Acquires(GripStage),
    /// The block stands in this cache block, whose copy is still sealed clean.
    Dirties(CBlock),
    /// The block stands in this cache block, and its entry is removed. Then it is sealed to the origin.
    Drops(CBlock),
    /// The block's entry, of this cache block, was removed.
    SealsHome(CBlock),
    /// The next extent is read at this place. When its sectors are read, it is counted.
    Reads(Option<CBlock>),
    /// The block stands at this place. When its sectors are written, the write is finished.
    Writes(Option<CBlock>),
    /// This extent was written on the origin, and is written at this place, where the block stands.
    Mirrors(Option<CBlock>, Extent),
    Counts(Option<CBlock>),
    /// The next extent is read at the first of these places, to be written at the other. With none left, the migration ends.
    Copies(Option<CBlock>, Option<CBlock>),
    /// This extent was read, and is written.
    Puts(Option<CBlock>, Option<CBlock>, Extent),
    /// The block has this place in the mapping now.
    Seals(Option<CBlock>),
    /// Gives the block back, and then, where the flag says so, the order.
    Releases(bool, Answer),
    GivesUp(Answer),
    /// A step on this device failed.
    SetsFailed(Dev),
    Ended(Answer),
}

/// A read or write of some sectors of a block, its invalidation, or a migration of the whole, extent by extent, rising.
#[derive(Drop)]
pub struct BlockTask {
    work: Work,
    phase: Phase,
    mode: Mode,
    block_sectors: u32,
    block: OBlock,
    sectors: Extent,
    /// The sectors that are still to be moved.
    left: Extent,
    /// How many sectors a step takes at most.
    longest: u64,
}

impl Model for BlockTask {
    ghost use Rattle.std.specs.Prelude.{◌+◌, ◌<◌, ◌≤◌, ◌^◌};
    ghost use Rattle.wb_tasks.specs.Plan.{Plan};

    ghost Value = { Plan };

    ghost use Rattle.wb_types.specs.Extents.{pieces};
    ghost use Rattle.wb_tasks.specs.Phases.{left_in};

    ghost view = { λ t. left_in t.work (record { mode = t.mode; block_sectors = t.block_sectors; block = t.block; extents = pieces t.longest t.sectors }) t.phase (pieces t.longest t.left) };

    ghost invariant = { λ t. (0 < t.block_sectors) × (1 ≤ t.longest) × (t.sectors.first + t.sectors.count < 2 ^ 64) × (t.left.first + t.left.count < 2 ^ 64) };
}

impl BlockTask {
    /// A task that does this with sectors that lie in that block of the origin, and has not begun. Each of its steps on a device takes at
    /// most `longest` sectors.
    pub fn new(
        work: Work,
        mode: Mode,
        block_sectors: u32,
        block: OBlock,
        sectors: Extent,
        longest: u64,
    ) -> BlockTask
        requires some { 0 < block_sectors }
        requires in_range { sectors.first + sectors.count < 2 ^ 64 }
        requires longest { 1 ≤ longest }
        ensures { result ≡ table (OnBlock (job_on_block work (record { mode = mode; block_sectors = block_sectors; block = block; extents = pieces longest sectors }))) }
    {
        BlockTask {
            work,
            phase: Phase::Acquires(GripStage::LookFail),
            mode,
            block_sectors,
            block,
            sectors,
            left: sectors,
            longest,
        }
    }

    /// A migration of a whole block, under an order for it: a promotion into the cache block that the order reserved, a demotion, or a
    /// write-back. It does not look at the mode. Each of its steps on a device takes at most `longest` sectors.
    pub fn migrate(
        migration: Migration,
        block_sectors: u32,
        block: OBlock,
        longest: u64,
    ) -> BlockTask
        requires some { 0 < block_sectors }
        requires longest { 1 ≤ longest }
        ensures { result ≡ table (OnBlock (Migrating migration (record { mode = Writeback; block_sectors = block_sectors; block = block; extents = pieces longest (whole_block block_sectors block) }))) }
    {
        let sectors = whole_block(block_sectors, block);
        BlockTask::new(
            Work::Migrate(migration),
            Mode::Writeback,
            block_sectors,
            block,
            sectors,
            longest,
        )
    }

    /// An invalidation of a block: where it is mapped it leaves the cache without a copy, so nothing of it may be dirty there, as in
    /// passthrough. It runs under no order.
    pub fn invalidate(block_sectors: u32, block: OBlock) -> BlockTask
        requires { 0 < block_sectors }
        ensures { result ≡ table (OnBlock (Invalidating (record { mode = Passthrough; block_sectors = block_sectors; block = block; extents = [] }))) }
    {
        let none = Extent { first: 0, count: 0 };
        BlockTask::new(
            Work::Invalidate,
            Mode::Passthrough,
            block_sectors,
            block,
            none,
            1,
        )
    }
}

impl Steps for BlockTask {
    ghost left = { λ t. t };

    fn want(&self) -> Want {
        match self.phase {
            Phase::Acquires(stage) => acquire::want(access_of(self.work), self.block, stage),
            Phase::Dirties(c) => Want::Cell(CellStep::Seal(self.block, Some(c), true)),
            Phase::Drops(_) => Want::Desk(DeskStep::Unmap(self.block)),
            Phase::SealsHome(_) => Want::Cell(CellStep::Seal(self.block, None, false)),
            Phase::Reads(place) if self.left.count > 0 => {
                let (first, _) = split(self.left, self.longest);
                let (device, extent) = route(self.block_sectors, place, first);
                Want::Device(DeviceStep::Read(device, extent))
            }
            Phase::Reads(None) => Want::Cell(CellStep::Count(Kind::ReadMiss)),
            Phase::Reads(Some(_)) => Want::Cell(CellStep::Count(Kind::ReadHit)),
            Phase::Writes(place) if self.left.count > 0 => {
                let (first, _) = split(self.left, self.longest);
                let (to, _) = written_by(self.work, self.mode, place);
                let (device, extent) = route(self.block_sectors, to, first);
                Want::Device(DeviceStep::Write(device, extent))
            }
            Phase::Writes(_) => Want::Cell(CellStep::Finish(self.block)),
            Phase::Counts(None) => Want::Cell(CellStep::Count(Kind::WriteMiss)),
            Phase::Counts(Some(_)) => Want::Cell(CellStep::Count(Kind::WriteHit)),
            Phase::Copies(from, _) if self.left.count > 0 => {
                let (first, _) = split(self.left, self.longest);
                let (device, extent) = route(self.block_sectors, from, first);
                Want::Device(DeviceStep::Read(device, extent))
            }
            Phase::Copies(from, _) => match self.work {
                Work::Migrate(Migration::Promote(c)) => Want::Desk(DeskStep::Map(self.block, c)),
                Work::Migrate(Migration::Demote) => Want::Desk(DeskStep::Unmap(self.block)),
                Work::Migrate(Migration::Clean) => {
                    Want::Cell(CellStep::Seal(self.block, from, false))
                }
                // No other job copies.
                Work::Read | Work::Write | Work::Displace | Work::Invalidate => {
                    Want::End(Answer::Done)
                }
            },
            Phase::Puts(_, to, extent) | Phase::Mirrors(to, extent) => {
                let (device, there) = route(self.block_sectors, to, extent);
                Want::Device(DeviceStep::Write(device, there))
            }
            Phase::Seals(place) => Want::Cell(CellStep::Seal(self.block, place, false)),
            Phase::Releases(_, _) => {
                Want::Cell(CellStep::Release(access_of(self.work), self.block))
            }
            Phase::GivesUp(_) => Want::Desk(DeskStep::ReleaseOrder(self.block)),
            Phase::SetsFailed(_) => Want::Cell(CellStep::SetFailed),
            Phase::Ended(answer) => Want::End(answer),
        }
    }

    fn after_look(&mut self, word: u64) {
        if let Phase::Acquires(stage) = self.phase {
            self.left = self.sectors;
            let access = access_of(self.work);
            match acquire::after_look(access, is_write(self.work), self.block, stage, word) {
                Seen::Next(next) => self.phase = Phase::Acquires(next),
                Seen::Holds(place, dirty) => match (self.work, place) {
                    (Work::Read, _) => self.phase = Phase::Reads(place_read(self.mode, place)),
                    (Work::Write, _) => self.phase = writing(self.mode, place, dirty),
                    (Work::Displace, _) => self.phase = displacing(place),
                    (Work::Invalidate, _) => self.phase = invalidating(place),
                    (Work::Migrate(Migration::Promote(c)), _) => {
                        self.phase = Phase::Copies(None, Some(c));
                    }
                    (Work::Migrate(_), Some(_)) if dirty => {
                        self.phase = Phase::Copies(place, None);
                    }
                    (Work::Migrate(_), _) => {
                        self.left.count = 0;
                        self.phase = Phase::Copies(place, None);
                    }
                },
                Seen::Refused(refusal) => self.phase = Phase::Ended(Answer::Refused(refusal)),
                Seen::Worn => self.phase = Phase::Releases(false, Answer::Refused(Refusal::Worn)),
            }
        }
    }

    fn after_done(&mut self) {
        match self.phase {
            // Only the exchange can have been done.
            Phase::Acquires(_) => self.phase = Phase::Acquires(GripStage::LookSeal),
            Phase::Dirties(c) => self.phase = Phase::Writes(Some(c)),
            Phase::Drops(c) => self.phase = Phase::SealsHome(c),
            Phase::SealsHome(c) => match self.work {
                Work::Displace => self.phase = Phase::Writes(Some(c)),
                Work::Invalidate => self.phase = Phase::Releases(false, Answer::Done),
                // No other job takes its block out of the cache without a copy.
                Work::Read | Work::Write | Work::Migrate(_) => {
                    self.phase = Phase::Ended(Answer::Done);
                }
            },
            Phase::Reads(_) if self.left.count > 0 => {
                let (_, left) = split(self.left, self.longest);
                self.left = left;
            }
            Phase::Writes(place) if self.left.count > 0 => {
                let (extent, left) = split(self.left, self.longest);
                self.left = left;
                let (_, again) = written_by(self.work, self.mode, place);
                if again {
                    self.phase = Phase::Mirrors(place, extent);
                }
            }
            Phase::Mirrors(place, _) => self.phase = Phase::Writes(place),
            Phase::Reads(_) | Phase::Counts(_) | Phase::Seals(_) => {
                self.phase = Phase::Releases(false, Answer::Done);
            }
            Phase::Writes(place) => self.phase = Phase::Counts(place),
            Phase::Copies(from, to) if self.left.count > 0 => {
                let (extent, left) = split(self.left, self.longest);
                self.left = left;
                self.phase = Phase::Puts(from, to, extent);
            }
            Phase::Copies(_, _) => match self.work {
                Work::Migrate(Migration::Clean) => {
                    self.phase = Phase::Releases(true, Answer::Done);
                }
                Work::Migrate(Migration::Promote(c)) => self.phase = Phase::Seals(Some(c)),
                Work::Migrate(Migration::Demote) => self.phase = Phase::Seals(None),
                Work::Read | Work::Write | Work::Displace | Work::Invalidate => {}
            },
            Phase::Puts(from, to, _) => self.phase = Phase::Copies(from, to),
            Phase::Releases(true, answer) => self.phase = Phase::GivesUp(answer),
            Phase::Releases(false, answer) => self.phase = Phase::Ended(answer),
            Phase::GivesUp(answer) => self.phase = Phase::Ended(answer),
            Phase::SetsFailed(device) => {
                self.phase = Phase::Ended(Answer::Refused(Refusal::Io(device)));
            }
            Phase::Ended(_) => {}
        }
    }

    fn after_fault(&mut self) {
        match self.phase {
            Phase::Reads(place) | Phase::Copies(place, _) => {
                let answer = Answer::Refused(Refusal::Io(device_at(place)));
                self.phase = Phase::Releases(has_order(self.work), answer);
            }
            Phase::Writes(place) => {
                let (to, _) = written_by(self.work, self.mode, place);
                self.phase = Phase::SetsFailed(device_at(to));
            }
            Phase::Puts(_, place, _) | Phase::Mirrors(place, _) => {
                self.phase = Phase::SetsFailed(device_at(place));
            }
            _ => {}
        }
    }

    fn after_refusal(&mut self, refusal: Refusal) {
        // A promotion alone can be refused, its entry.
        self.phase = Phase::Releases(has_order(self.work), Answer::Refused(refusal));
    }

    fn after_rare(&mut self, _got: Got) {
        // None of its steps begins a commit or reads metadata: its exchange was lost.
        self.phase = Phase::Ended(Answer::Refused(Refusal::Busy));
    }
}

/// A read shares its block, all others own it.
fn access_of(work: Work) -> Access
    ensures { (part : BlockRange) → result ≡ access_of (job_on_block work part) }
{
    match work {
        Work::Read => Access::Shared,
        Work::Write | Work::Displace | Work::Invalidate | Work::Migrate(_) => Access::Owned,
    }
}

/// Whether it wants a number for itself.
fn is_write(work: Work) -> bool
    ensures { (part : BlockRange) → result ≡ is_write (job_on_block work part) }
{
    matches!(work, Work::Write | Work::Displace)
}

/// Where a write, or one that displaces its block, puts an extent of a block at this place first, and whether it puts it at that place
/// then.
fn written_by(work: Work, mode: Mode, place: Option<CBlock>) -> (Option<CBlock>, bool)
    ensures { places_written (written_mode work mode) place ≡ result.0 ∷ (if result.1 then place ∷ [] else []) }
{
    match work {
        Work::Displace => written(Mode::Passthrough, place),
        Work::Read | Work::Write | Work::Invalidate | Work::Migrate(_) => { written(mode, place) }
    }
}

/// Where a write stands once it knows where its block stands, and whether that copy is dirty: in write-back alone a clean copy in the
/// cache is sealed dirty first, and in passthrough alone a mapped block keeps it from going on.
fn writing(mode: Mode, place: Option<CBlock>, dirty: bool) -> Phase
    ensures { (part : BlockRange) → part.mode ≡ mode → left_in Work.Write part result part.extents ≡ after_seeing (Writing part) (Seen.Holds place dirty) }
{
    if is_deferred(mode, place) {
        return Phase::Releases(false, Answer::Refused(Refusal::Defer));
    }
    match place {
        Some(c) if is_due(mode, dirty) => Phase::Dirties(c),
        _ => Phase::Writes(place),
    }
}

/// Where a write that displaces its block stands once it knows where that stands.
fn displacing(place: Option<CBlock>) -> Phase
    ensures { (part : BlockRange) (dirty : Bool) → left_in Work.Displace part result part.extents ≡ after_seeing (Displacing part) (Seen.Holds place dirty) }
{
    match place {
        Some(c) => Phase::Drops(c),
        None => Phase::Writes(None),
    }
}

/// Where an invalidation stands once it knows where its block stands.
fn invalidating(place: Option<CBlock>) -> Phase
    ensures { (part : BlockRange) (dirty : Bool) → left_in Work.Invalidate part result part.extents ≡ after_seeing (Invalidating part) (Seen.Holds place dirty) }
{
    match place {
        Some(c) => Phase::Drops(c),
        None => Phase::Releases(false, Answer::Done),
    }
}

/// Whether it runs under an order.
fn has_order(work: Work) -> bool
    ensures { result ≡ has_order work }
{
    matches!(work, Work::Migrate(_))
}

/// The sectors of a whole block.
fn whole_block(block_sectors: u32, block: OBlock) -> Extent
    ensures is { result ≡ whole_block block_sectors block }
    ensures in_range { result.first + result.count < 2 ^ 64 }
{
    Extent {
        first: u64::from(block.0) * u64::from(block_sectors),
        count: u64::from(block_sectors),
    }
}
