//! A read or a write whose sectors are one extent, step after step as its table has them in each mode.
//!
//! `drive` asks a task for each next step; here what comes next is where the code stands. So such a request
//! costs a fraction of the instructions.

ghost use Rattle.std.specs.Prelude.{◌≡◌, ◌<◌, [], ◌∷◌, ◌++◌, IfSome, IfNone};
ghost use Rattle.wb_types.specs.declared.refusal.Refusal.TheVariants.{Io};
ghost use Rattle.wb_words.specs.SharedWords.{place_in as place_of_seal, dirty_in};
ghost use Rattle.wb_words.specs.declared.word.Word.TheVariants.{Cell as LockWord, Seal as SealWord, Number};
ghost use Rattle.wb_words.specs.declared.step.CellStep.TheVariants.{Look, Count as Counting, SetFailed};
ghost use Rattle.wb_tasks.specs.Ready.{StaysReady};
ghost use Rattle.wb_tasks.specs.Tables.{OnBlock, Reading, Writing, taking, work, dirtying, places_written, read_step, read_count, write_count};
ghost use Rattle.wb_tasks.specs.Plan.{table, answer_at};
ghost use Rattle.wb_tasks.specs.declared.step.Answer.TheVariants.{Done as Finished, Refused as Refuses};
ghost use Rattle.wb_tasks.specs.declared.step.Want.TheVariants.{Cell};
ghost use Rattle.wb_port.specs.Requests.{ComesTo};
ghost use Rattle.wb_port.specs.Straight.{Continues, access_by, giving_back, job_by, left, range_in, straight_writing, straight_written};

use crate::stepping::{change, look, take, transfer};
use wb_tasks::route::{is_deferred, is_due, place_read, route, written};
use wb_tasks::{Answer, CellStep, DeviceStep, Stage};
use wb_types::{CBlock, Dev, Extent, Mode, OBlock, Refusal};
use wb_words::{Access, Kind, Word, can_take, is_dirty, place_in};

/// Sectors of one block of the origin, and the mode in which they are read or written.
#[derive(Clone, Copy)]
pub struct Part {
    pub mode: Mode,
    pub block_sectors: u32,
    pub block: OBlock,
    pub sectors: Extent,
}

/// Which way they are moved.
#[derive(Clone, Copy)]
pub(crate) enum Way {
    Reads,
    Writes,
}

/// Performs a read or a write of sectors that are moved as one extent up to its answer, on a stage that is ready for each of its steps.
#[inline(always)]
pub(crate) fn request<S: Stage>(stage: &mut S, way: Way, part: Part) -> Answer
    requires some { 0 < part.block_sectors }
    requires stays { StaysReady S.ready S.led (table (OnBlock (job_by way part))) stage.old }
    ensures { ComesTo S.led (table (OnBlock (job_by way part))) stage.old result stage.new }
{
    if look(stage, Word::Fail) != 0 {
        return Answer::Refused(Refusal::Failed);
    }
    lock(stage, way, part)
}

/// From the look at the lock word on.
#[inline(always)]
fn lock<S: Stage>(stage: &mut S, way: Way, part: Part) -> Answer
    requires some { 0 < part.block_sectors }
    requires stays { StaysReady S.ready S.led (left (job_by way part) (Cell (Look (LockWord part.block)) ∷ []) Finished) stage.old }
    ensures { ComesTo S.led (left (job_by way part) (Cell (Look (LockWord part.block)) ∷ []) Finished) stage.old result stage.new }
{
    let seen = look(stage, Word::Cell(part.block));
    if !can_take(access(way), seen) {
        return Answer::Refused(Refusal::Busy);
    }
    exchange(stage, way, part, seen)
}

/// From the exchange on.
#[inline(always)]
fn exchange<S: Stage>(stage: &mut S, way: Way, part: Part, seen: u64) -> Answer
    requires some { 0 < part.block_sectors }
    requires stays { StaysReady S.ready S.led (left (job_by way part) (taking (access_by way) part.block seen) Finished) stage.old }
    ensures { ComesTo S.led (left (job_by way part) (taking (access_by way) part.block seen) Finished) stage.old result stage.new }
{
    if !take(stage, access(way), part.block, seen) {
        return Answer::Refused(Refusal::Busy);
    }
    seal(stage, way, part)
}

/// From the look at the seal on.
#[inline(always)]
fn seal<S: Stage>(stage: &mut S, way: Way, part: Part) -> Answer
    requires some { 0 < part.block_sectors }
    requires stays { StaysReady S.ready S.led (left (job_by way part) (Cell (Look (SealWord part.block)) ∷ []) Finished) stage.old }
    ensures { ComesTo S.led (left (job_by way part) (Cell (Look (SealWord part.block)) ∷ []) Finished) stage.old result stage.new }
{
    let seal = look(stage, Word::Seal(part.block));
    number(stage, way, part, seal)
}

/// From the look at the number on: a block that is to be written needs one more, and a mapped one in passthrough the desk.
#[inline(always)]
fn number<S: Stage>(stage: &mut S, way: Way, part: Part, seal: u64) -> Answer
    requires some { 0 < part.block_sectors }
    requires stays { StaysReady S.ready S.led (left (job_by way part) (Cell (Look (Number part.block)) ∷ work (job_by way part) (place_of_seal seal) (dirty_in seal)) (answer_at (job_by way part) (place_of_seal seal) Finished)) stage.old }
    ensures { ComesTo S.led (left (job_by way part) (Cell (Look (Number part.block)) ∷ work (job_by way part) (place_of_seal seal) (dirty_in seal)) (answer_at (job_by way part) (place_of_seal seal) Finished)) stage.old result stage.new }
{
    let number = look(stage, Word::Number(part.block));
    let place = place_in(seal);
    match way {
        Way::Reads => read(stage, part, place_read(part.mode, place)),
        Way::Writes => {
            if number == u64::MAX {
                return give_back(stage, Way::Writes, part, Answer::Refused(Refusal::Worn));
            }
            if is_deferred(part.mode, place) {
                return give_back(stage, Way::Writes, part, Answer::Refused(Refusal::Defer));
            }
            dirty(stage, part, place, is_dirty(seal))
        }
    }
}

/// The reading of a block that is held, from where it stands at this place.
#[inline(always)]
fn read<S: Stage>(stage: &mut S, part: Part, place: Option<CBlock>) -> Answer
    requires some { 0 < part.block_sectors }
    requires stays { StaysReady S.ready S.led (left (Reading (range_in part)) (read_step (range_in part) place part.sectors ∷ read_count place ∷ giving_back Way.Reads part) Finished) stage.old }
    ensures { ComesTo S.led (left (Reading (range_in part)) (read_step (range_in part) place part.sectors ∷ read_count place ∷ giving_back Way.Reads part) Finished) stage.old result stage.new }
{
    let (device, extent) = route(part.block_sectors, place, part.sectors);
    if !transfer(stage, DeviceStep::Read(device, extent)) {
        return give_back(
            stage,
            Way::Reads,
            part,
            Answer::Refused(Refusal::Io(device)),
        );
    }
    let kind = read_kind(place);
    count(stage, Way::Reads, part, kind)
}

/// The writing of a block that is held.
#[inline(always)]
fn dirty<S: Stage>(stage: &mut S, part: Part, place: Option<CBlock>, dirty: bool) -> Answer
    requires some { 0 < part.block_sectors }
    requires stays { StaysReady S.ready S.led (left (Writing (range_in part)) (dirtying part.mode part.block place dirty ++ straight_writing part (places_written part.mode place) place) Finished) stage.old }
    ensures { ComesTo S.led (left (Writing (range_in part)) (dirtying part.mode part.block place dirty ++ straight_writing part (places_written part.mode place) place) Finished) stage.old result stage.new }
{
    mark(stage, part, place, dirty);
    write(stage, part, place)
}

/// In write-back a clean copy in the cache is sealed dirty before it is written.
#[inline(always)]
fn mark<S: Stage>(stage: &mut S, part: Part, place: Option<CBlock>, dirty: bool)
    requires stays { StaysReady S.ready S.led (left (Writing (range_in part)) (dirtying part.mode part.block place dirty ++ straight_writing part (places_written part.mode place) place) Finished) stage.old }
    ensures { Continues S.ready S.led (left (Writing (range_in part)) (dirtying part.mode part.block place dirty ++ straight_writing part (places_written part.mode place) place) Finished) stage.old (left (Writing (range_in part)) (straight_writing part (places_written part.mode place) place) Finished) stage.new }
{
    let Some(c) = place else {
        return;
    };
    if !is_due(part.mode, dirty) {
        return;
    }
    change(stage, CellStep::Seal(part.block, Some(c), true));
}

/// From the write on.
#[inline(always)]
fn write<S: Stage>(stage: &mut S, part: Part, place: Option<CBlock>) -> Answer
    requires some { 0 < part.block_sectors }
    requires stays { StaysReady S.ready S.led (left (Writing (range_in part)) (straight_writing part (places_written part.mode place) place) Finished) stage.old }
    ensures { ComesTo S.led (left (Writing (range_in part)) (straight_writing part (places_written part.mode place) place) Finished) stage.old result stage.new }
{
    match put(stage, part, place) {
        None => finish(stage, part, place),
        Some(device) => fail(stage, part, Answer::Refused(Refusal::Io(device))),
    }
}

/// The sectors are written wherever their mode has them: the device that failed, if one did.
#[inline(always)]
fn put<S: Stage>(stage: &mut S, part: Part, place: Option<CBlock>) -> Option<Dev>
    requires some { 0 < part.block_sectors }
    requires stays { StaysReady S.ready S.led (left (Writing (range_in part)) (straight_writing part (places_written part.mode place) place) Finished) stage.old }
    ensures done { IfNone result (Continues S.ready S.led (left (Writing (range_in part)) (straight_writing part (places_written part.mode place) place) Finished) stage.old (left (Writing (range_in part)) (straight_written part place) Finished) stage.new) }
    ensures failed { IfSome result (λ device. Continues S.ready S.led (left (Writing (range_in part)) (straight_writing part (places_written part.mode place) place) Finished) stage.old (left (Writing (range_in part)) (Cell SetFailed ∷ []) (Refuses (Io device))) stage.new) }
{
    let (first, again) = written(part.mode, place);
    let (device, extent) = route(part.block_sectors, first, part.sectors);
    if !transfer(stage, DeviceStep::Write(device, extent)) {
        return Some(device);
    }
    if !again {
        return None;
    }
    mirror(stage, part, place)
}

/// In write-through they are written once more, at the place where the block stands.
#[inline(always)]
fn mirror<S: Stage>(stage: &mut S, part: Part, place: Option<CBlock>) -> Option<Dev>
    requires some { 0 < part.block_sectors }
    requires stays { StaysReady S.ready S.led (left (Writing (range_in part)) (straight_writing part (place ∷ []) place) Finished) stage.old }
    ensures done { IfNone result (Continues S.ready S.led (left (Writing (range_in part)) (straight_writing part (place ∷ []) place) Finished) stage.old (left (Writing (range_in part)) (straight_written part place) Finished) stage.new) }
    ensures failed { IfSome result (λ device. Continues S.ready S.led (left (Writing (range_in part)) (straight_writing part (place ∷ []) place) Finished) stage.old (left (Writing (range_in part)) (Cell SetFailed ∷ []) (Refuses (Io device))) stage.new) }
{
    let (device, extent) = route(part.block_sectors, place, part.sectors);
    if !transfer(stage, DeviceStep::Write(device, extent)) {
        return Some(device);
    }
    None
}

/// After a write failed: the failed bit is set, and the block is kept.
#[inline(always)]
fn fail<S: Stage>(stage: &mut S, part: Part, answer: Answer) -> Answer
    requires stays { StaysReady S.ready S.led (left (Writing (range_in part)) (Cell SetFailed ∷ []) answer) stage.old }
    ensures { ComesTo S.led (left (Writing (range_in part)) (Cell SetFailed ∷ []) answer) stage.old result stage.new }
{
    let _part = part;
    change(stage, CellStep::SetFailed);
    answer
}

/// From the end of a write on.
#[inline(always)]
fn finish<S: Stage>(stage: &mut S, part: Part, place: Option<CBlock>) -> Answer
    requires stays { StaysReady S.ready S.led (left (Writing (range_in part)) (straight_written part place) Finished) stage.old }
    ensures { ComesTo S.led (left (Writing (range_in part)) (straight_written part place) Finished) stage.old result stage.new }
{
    change(stage, CellStep::Finish(part.block));
    let kind = write_kind(place);
    count(stage, Way::Writes, part, kind)
}

/// From the count on.
#[inline(always)]
fn count<S: Stage>(stage: &mut S, way: Way, part: Part, kind: Kind) -> Answer
    requires stays { StaysReady S.ready S.led (left (job_by way part) (Cell (Counting kind) ∷ giving_back way part) Finished) stage.old }
    ensures { ComesTo S.led (left (job_by way part) (Cell (Counting kind) ∷ giving_back way part) Finished) stage.old result stage.new }
{
    change(stage, CellStep::Count(kind));
    give_back(stage, way, part, Answer::Done)
}

/// Gives the block back, and answers.
#[inline(always)]
fn give_back<S: Stage>(stage: &mut S, way: Way, part: Part, answer: Answer) -> Answer
    requires stays { StaysReady S.ready S.led (left (job_by way part) (giving_back way part) answer) stage.old }
    ensures { ComesTo S.led (left (job_by way part) (giving_back way part) answer) stage.old result stage.new }
{
    change(stage, CellStep::Release(access(way), part.block));
    answer
}

/// How a block is held.
#[inline(always)]
fn access(way: Way) -> Access
    ensures { result ≡ access_by way }
{
    match way {
        Way::Reads => Access::Shared,
        Way::Writes => Access::Owned,
    }
}

/// What a read of a block at this place counts as.
#[inline(always)]
fn read_kind(place: Option<CBlock>) -> Kind
    ensures { Cell (Counting result) ≡ read_count place }
{
    match place {
        None => Kind::ReadMiss,
        Some(_) => Kind::ReadHit,
    }
}

/// What a write of a block at this place counts as.
#[inline(always)]
fn write_kind(place: Option<CBlock>) -> Kind
    ensures { Cell (Counting result) ≡ write_count place }
{
    match place {
        None => Kind::WriteMiss,
        Some(_) => Kind::WriteHit,
    }
}
