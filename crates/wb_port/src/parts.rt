//! A request over sectors of one block, from or into a slice.

ghost use Rattle.std.specs.Prelude.{◌≡◌, ◌≢◌, ◌≤◌, ◌<◌, ◌+◌, ◌/◌, ◌%◌, ◌^◌, OnOk, IfErr, length};
ghost use Rattle.wb_words.specs.declared.card.Hold.TheVariants.{Nothing};
ghost use Rattle.wb_port.specs.Requests.{WasRead, WasWritten, ReadRefused, WriteRefused};

use crate::hand::Hand;
use crate::moving::{ReadStage, WriteStage};
use wb_cells::Cells;
use wb_disk::Disk;
use wb_types::{Content, Extent, OBlock, Refusal};

/// Reads sectors of this block into a slice in the hand's mode, by steps of at most `LONGEST` sectors: a run of the table of a read, whose
/// answer this is. `Busy` where the block is owned, or the word changed; `Failed` where the fail word is set; `Io` where a step
/// failed. After a refusal the slice may hold any contents.
pub fn read_part<'a, D: Disk>(
    cells: &'a Cells,
    hand: &'a mut Hand<D>,
    block_sectors: u32,
    block: OBlock,
    sectors: Extent,
    out: &'a mut [Content],
) -> Result<(), Refusal>
    requires some { 0 < block_sectors }
    requires range { sectors.first + sectors.count < 2 ^ 64 }
    requires inside { sectors.first % block_sectors + sectors.count ≤ block_sectors }
    requires block { block.0 < cells.now.blocks }
    requires of { sectors.first / block_sectors ≡ block.0 }
    requires size { hand.old.block_sectors ≡ block_sectors }
    requires at { hand.old.pass.table ≡ cells.now.table }
    requires idle { hand.old.pass.card.hold ≡ Nothing }
    requires fits { length out.old ≡ sectors.count }
    ensures many { length out.new ≡ length out.old }
    ensures read { OnOk result (WasRead D.tells D.size D.contents D.faults cells.now.blocks block_sectors block sectors out.old out.new hand.old hand.new) }
    ensures refused { IfErr result (λ refusal. ReadRefused D.tells D.size D.contents D.faults cells.now.blocks block_sectors block sectors hand.old out.old refusal hand.new out.new) }
    ensures never_range { IfErr result (λ refusal. refusal ≢ Refusal.Range) }
    ensures at { hand.new.pass.table ≡ hand.old.pass.table }
    ensures idle { hand.new.pass.card.hold ≡ Nothing }
    ensures size { hand.new.block_sectors ≡ hand.old.block_sectors }
    ensures mode { hand.new.mode ≡ hand.old.mode }
{
    let mut stage = ReadStage {
        cells,
        hand,
        out,
        moved: 0,
    };
    stage.serve(block_sectors, block, sectors)
}

/// Writes a slice to sectors of this block in the hand's mode, by steps of at most `LONGEST` sectors: a run of the table of a write, whose answer
/// this is. `Busy` where the block is owned or shared, or the word changed; `Failed` where the fail word is set; `Worn` where the
/// block's number is used up; `Defer` in passthrough, where the block is mapped; `Io` where a step failed, and then the target has failed, and the block stays owned.
pub fn write_part<'a, D: Disk>(
    cells: &'a Cells,
    hand: &'a mut Hand<D>,
    block_sectors: u32,
    block: OBlock,
    sectors: Extent,
    from: &'a [Content],
) -> Result<(), Refusal>
    requires some { 0 < block_sectors }
    requires range { sectors.first + sectors.count < 2 ^ 64 }
    requires inside { sectors.first % block_sectors + sectors.count ≤ block_sectors }
    requires block { block.0 < cells.now.blocks }
    requires of { sectors.first / block_sectors ≡ block.0 }
    requires size { hand.old.block_sectors ≡ block_sectors }
    requires at { hand.old.pass.table ≡ cells.now.table }
    requires idle { hand.old.pass.card.hold ≡ Nothing }
    requires fits { length from.now ≡ sectors.count }
    ensures written { OnOk result (WasWritten D.tells D.size D.contents D.faults cells.now.blocks block_sectors block sectors from.now hand.old hand.new) }
    ensures refused { IfErr result (λ refusal. WriteRefused D.tells D.size D.contents D.faults cells.now.blocks block_sectors block sectors from.now hand.old refusal hand.new) }
    ensures never_range { IfErr result (λ refusal. refusal ≢ Refusal.Range) }
    ensures at { hand.new.pass.table ≡ hand.old.pass.table }
    ensures idle { hand.new.pass.card.hold ≡ Nothing }
    ensures size { hand.new.block_sectors ≡ hand.old.block_sectors }
    ensures mode { hand.new.mode ≡ hand.old.mode }
{
    let mut stage = WriteStage {
        cells,
        hand,
        from,
        moved: 0,
    };
    stage.serve(block_sectors, block, sectors)
}
