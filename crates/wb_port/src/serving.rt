//! A request over sectors of one block, driven to its answer.

ghost use Rattle.std.specs.Prelude.{◌≡◌, ◌≢◌, ◌≤◌, ◌<◌, ◌+◌, ◌/◌, ◌%◌, ◌^◌, OnOk, IfErr, length};
ghost use Rattle.wb_words.specs.declared.card.Hold.TheVariants.{Nothing};
ghost use Rattle.wb_tasks.specs.Ready.{StaysReady};
ghost use Rattle.wb_tasks.specs.Tables.{OnBlock};
ghost use Rattle.wb_tasks.specs.Phases.{job_on_block};
ghost use Rattle.wb_tasks.specs.Plan.{table};
ghost use Rattle.wb_port.specs.Straight.{part_at, work_by};
ghost use Rattle.wb_port.specs.Requests.{ComesTo, WasRead, WasWritten, ReadRefused, WriteRefused};

use crate::moving::{LONGEST, ReadStage, WriteStage};
use crate::straight::{Part, Way, request};
use wb_disk::Disk;
use wb_tasks::{Answer, BlockTask, Stage, Work, drive};
use wb_types::{Extent, Mode, OBlock, Refusal};

impl<'a, D: Disk> ReadStage<'a, D> {
    /// Reads sectors of this block into the slice, by steps of at most `LONGEST` sectors.
    pub(crate) fn serve(
        &mut self,
        block_sectors: u32,
        block: OBlock,
        sectors: Extent,
    ) -> Result<(), Refusal>
        requires some { 0 < block_sectors }
        requires range { sectors.first + sectors.count < 2 ^ 64 }
        requires inside { sectors.first % block_sectors + sectors.count ≤ block_sectors }
        requires block { block.0 < self.old.cells.now.blocks }
        requires of { sectors.first / block_sectors ≡ block.0 }
        requires size { self.old.hand.now.block_sectors ≡ block_sectors }
        requires at { self.old.hand.now.pass.table ≡ self.old.cells.now.table }
        requires idle { self.old.hand.now.pass.card.hold ≡ Nothing }
        requires unmoved { self.old.moved ≡ 0 }
        requires fits { length self.old.out.now ≡ sectors.count }
        ensures same_hand { self.new.hand.ghost_name ≡ self.old.hand.ghost_name }
        ensures same_slice { self.new.out.ghost_name ≡ self.old.out.ghost_name }
        ensures many { length self.new.out.now ≡ length self.old.out.now }
        ensures read { OnOk result (WasRead D.tells D.size D.contents D.faults self.old.cells.now.blocks block_sectors block sectors self.old.out.now self.new.out.now self.old.hand.now self.new.hand.now) }
        ensures refused { IfErr result (λ refusal. ReadRefused D.tells D.size D.contents D.faults self.old.cells.now.blocks block_sectors block sectors self.old.hand.now self.old.out.now refusal self.new.hand.now self.new.out.now) }
        ensures never_range { IfErr result (λ refusal. refusal ≢ Refusal.Range) }
        ensures at { self.new.hand.now.pass.table ≡ self.old.hand.now.pass.table }
        ensures idle { self.new.hand.now.pass.card.hold ≡ Nothing }
        ensures size { self.new.hand.now.block_sectors ≡ self.old.hand.now.block_sectors }
        ensures mode { self.new.hand.now.mode ≡ self.old.hand.now.mode }
    {
        let mode = self.hand.mode;
        answered(serve_part(self, Way::Reads, mode, block_sectors, block, sectors))
    }
}

impl<'a, D: Disk> WriteStage<'a, D> {
    /// Writes the slice to sectors of this block, by steps of at most `LONGEST` sectors.
    pub(crate) fn serve(
        &mut self,
        block_sectors: u32,
        block: OBlock,
        sectors: Extent,
    ) -> Result<(), Refusal>
        requires some { 0 < block_sectors }
        requires range { sectors.first + sectors.count < 2 ^ 64 }
        requires inside { sectors.first % block_sectors + sectors.count ≤ block_sectors }
        requires block { block.0 < self.old.cells.now.blocks }
        requires of { sectors.first / block_sectors ≡ block.0 }
        requires size { self.old.hand.now.block_sectors ≡ block_sectors }
        requires at { self.old.hand.now.pass.table ≡ self.old.cells.now.table }
        requires idle { self.old.hand.now.pass.card.hold ≡ Nothing }
        requires unmoved { self.old.moved ≡ 0 }
        requires fits { length self.old.from.now ≡ sectors.count }
        ensures same_hand { self.new.hand.ghost_name ≡ self.old.hand.ghost_name }
        ensures written { OnOk result (WasWritten D.tells D.size D.contents D.faults self.old.cells.now.blocks block_sectors block sectors self.old.from.now self.old.hand.now self.new.hand.now) }
        ensures refused { IfErr result (λ refusal. WriteRefused D.tells D.size D.contents D.faults self.old.cells.now.blocks block_sectors block sectors self.old.from.now self.old.hand.now refusal self.new.hand.now) }
        ensures never_range { IfErr result (λ refusal. refusal ≢ Refusal.Range) }
        ensures at { self.new.hand.now.pass.table ≡ self.old.hand.now.pass.table }
        ensures idle { self.new.hand.now.pass.card.hold ≡ Nothing }
        ensures size { self.new.hand.now.block_sectors ≡ self.old.hand.now.block_sectors }
        ensures mode { self.new.hand.now.mode ≡ self.old.hand.now.mode }
    {
        let mode = self.hand.mode;
        answered(serve_part(self, Way::Writes, mode, block_sectors, block, sectors))
    }
}

/// Performs a read or a write up to its answer, on a stage that is ready for each of its steps: where one step moves all sectors,
/// without asking a task for each step.
fn serve_part<S: Stage>(
    stage: &mut S,
    way: Way,
    mode: Mode,
    block_sectors: u32,
    block: OBlock,
    sectors: Extent,
) -> Answer
    requires some { 0 < block_sectors }
    requires range { sectors.first + sectors.count < 2 ^ 64 }
    requires stays { StaysReady S.ready S.led (table (OnBlock (job_on_block (work_by way) (part_at (record { mode = mode; block_sectors = block_sectors; block = block; sectors = sectors }))))) stage.old }
    ensures { ComesTo S.led (table (OnBlock (job_on_block (work_by way) (part_at (record { mode = mode; block_sectors = block_sectors; block = block; sectors = sectors }))))) stage.old result stage.new }
{
    let part = Part {
        mode,
        block_sectors,
        block,
        sectors,
    };
    if 1 <= sectors.count && sectors.count <= LONGEST {
        return request(stage, way, part);
    }
    perform_part(stage, work(way), part)
}

/// Performs a job on sectors of a block up to its answer, on a stage that is ready for each of its steps, by steps of at most `LONGEST` sectors.
pub fn perform_part<S: Stage>(stage: &mut S, work: Work, part: Part) -> Answer
    requires some { 0 < part.block_sectors }
    requires range { part.sectors.first + part.sectors.count < 2 ^ 64 }
    requires stays { StaysReady S.ready S.led (table (OnBlock (job_on_block work (part_at part)))) stage.old }
    ensures { ComesTo S.led (table (OnBlock (job_on_block work (part_at part)))) stage.old result stage.new }
{
    let Part {
        mode,
        block_sectors,
        block,
        sectors,
    } = part;
    let mut task = BlockTask::new(work, mode, block_sectors, block, sectors, LONGEST);
    drive(&mut task, stage)
}

/// What a task does that moves sectors this way.
fn work(way: Way) -> Work
    ensures { result ≡ work_by way }
{
    match way {
        Way::Reads => Work::Read,
        Way::Writes => Work::Write,
    }
}

/// A task's answer as a result.
fn answered(answer: Answer) -> Result<(), Refusal>
    ensures done { OnOk result (answer ≡ Answer.Done) }
    ensures refused { IfErr result (λ refusal. answer ≡ Answer.Refused refusal) }
{
    match answer {
        Answer::Done => Ok(()),
        Answer::Refused(refusal) => Err(refusal),
    }
}
