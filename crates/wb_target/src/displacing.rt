//! Writes in passthrough of mapped blocks: the desk takes the block out of the cache, and then it is written on the origin.

ghost use Rattle.std.specs.Prelude.{◌≡◌, ◌≢◌, ◌≤◌, ◌<◌, ◌+◌, ◌*◌, ◌/◌, ◌%◌, ◌^◌, [], Some, None, OnOk, OnErr, IfErr, length};
ghost use Rattle.std.specs.Bool.{OnTrue};
ghost use Rattle.wb_types.specs.declared.mode.Mode.TheVariants.{Passthrough};
ghost use Rattle.wb_words.specs.declared.card.Hold.TheVariants.{Nothing};
ghost use Rattle.wb_tasks.specs.Plan.{table};
ghost use Rattle.wb_tasks.specs.Ready.{StaysReady};
ghost use Rattle.wb_tasks.specs.Tables.{OnBlock, Displacing};
ghost use Rattle.wb_port.specs.Ports.{block_at};
ghost use Rattle.wb_port.specs.Requests.{part_of};
ghost use Rattle.wb_target.specs.Blocking.{IsInsideOrigin, WriteCame};
ghost use Rattle.wb_target.specs.Displaces.{IsReadyToDisplace, DisplaceLed, WasDisplaced};
ghost use Rattle.wb_target.specs.Works.{WasAsked};

use crate::client::Client;
use crate::target::Target;
use std::sync::Wait;
use wb_cells::Cells;
use wb_disk::Disk;
use wb_policy::Policy;
use wb_port::{Hand, Part, Port, WriteStage, perform_part};
use wb_tasks::{Answer, DeskStep, Got, Stage, Want, Work};
use wb_types::{Content, Extent, Geometry, Mode, OBlock, Refusal, Sector};

/// The stage of such a write.
#[derive(Drop)]
pub(crate) struct DisplaceStage<'a, R: Wait, D, P: Policy> {
    pub(crate) rt: &'a R,
    pub(crate) target: &'a Target<P>,
    pub(crate) write: WriteStage<'a, D>,
}

impl<'a, R: Wait, D: Disk, P: Policy> DisplaceStage<'a, R, D, P> {
    /// Writes the slice to sectors of this block.
    fn serve(&mut self, block_sectors: u32, block: OBlock, sectors: Extent) -> Answer
        requires some { 0 < block_sectors }
        requires range { sectors.first + sectors.count < 2 ^ 64 }
        requires inside { sectors.first % block_sectors + sectors.count ≤ block_sectors }
        requires block { block.0 < self.old.write.cells.now.blocks }
        requires of { sectors.first / block_sectors ≡ block.0 }
        requires size { self.old.write.hand.now.block_sectors ≡ block_sectors }
        requires at { self.old.write.hand.now.pass.table ≡ self.old.write.cells.now.table }
        requires idle { self.old.write.hand.now.pass.card.hold ≡ Nothing }
        requires passes { self.old.write.hand.now.mode ≡ Passthrough }
        requires unmoved { self.old.write.moved ≡ 0 }
        ensures same_hand { self.new.write.hand.ghost_name ≡ self.old.write.hand.ghost_name }
        ensures displaced { WasDisplaced D.tells D.size D.contents D.faults (WasAsked P.with_entry P.without_entry []) self.old.write.cells.now.blocks block_sectors block sectors self.old.write.from.now self.old.write.hand.now result self.new.write.hand.now }
        ensures at { self.new.write.hand.now.pass.table ≡ self.old.write.hand.now.pass.table }
        ensures idle { self.new.write.hand.now.pass.card.hold ≡ Nothing }
        ensures size { self.new.write.hand.now.block_sectors ≡ self.old.write.hand.now.block_sectors }
    {
        let part = Part {
            mode: Mode::Passthrough,
            block_sectors,
            block,
            sectors,
        };
        perform_part(self, Work::Displace, part)
    }
}

impl<'a, R: Wait, D: Disk, P: Policy> Stage for DisplaceStage<'a, R, D, P> {
    ghost ready = { IsReadyToDisplace };

    ghost led = { DisplaceLed D.tells D.size D.contents D.faults (WasAsked P.with_entry P.without_entry []) };

    fn perform(&mut self, want: &Want) -> Got {
        match want {
            Want::Cell(_) => self.write.perform(want),
            Want::Device(_) => self.write.perform(want),
            Want::Desk(DeskStep::Unmap(block)) => {
                self.target.unmap(self.rt, *block);
                Got::Done
            }
            Want::Desk(_) | Want::End(_) => unreachable!(),
        }
    }
}

/// Whether a write that was refused so in this mode is to be done by the desk.
fn is_deferred(refusal: Refusal, mode: Mode) -> bool
    ensures { OnTrue result ((refusal ≡ Refusal.Defer) × (mode ≡ Passthrough)) }
{
    match (refusal, mode) {
        (Refusal::Defer, Mode::Passthrough) => true,
        _ => false,
    }
}

/// The block of a sector that is there.
fn block_of(geometry: &Geometry, first: u64) -> OBlock
    requires { first < geometry.now.block * geometry.now.origin_blocks }
    ensures block { result ≡ block_at geometry.now first }
    ensures there { result.0 < geometry.now.origin_blocks }
{
    OBlock((first / u64::from(geometry.block)) as u32)
}

/// Writes the slice to the sectors from `at` on, of one block, in passthrough: `Busy`, `Failed`, `Worn` and `Io` as a write; a mapped block
/// leaves the cache first.
fn displace<'a, R: Wait, D: Disk, P: Policy>(
    rt: &'a R,
    target: &'a Target<P>,
    cells: &'a Cells,
    hand: &'a mut Hand<D>,
    geometry: &Geometry,
    at: Sector,
    from: &'a [Content],
) -> Answer
    requires inside { IsInsideOrigin geometry.now at.0 (length from.now) }
    requires fits { at.0 % geometry.now.block + length from.now ≤ geometry.now.block }
    requires blocks { cells.now.blocks ≡ geometry.now.origin_blocks }
    requires size { hand.old.block_sectors ≡ geometry.now.block }
    requires passes { hand.old.mode ≡ Passthrough }
    requires words { hand.old.pass.table ≡ cells.now.table }
    requires idle { hand.old.pass.card.hold ≡ Nothing }
    ensures displaced { WasDisplaced D.tells D.size D.contents D.faults (WasAsked P.with_entry P.without_entry []) geometry.now.origin_blocks geometry.now.block (block_at geometry.now at.0) (record { first = at.0; count = length from.now }) from.now hand.old result hand.new }
    ensures size { hand.new.block_sectors ≡ hand.old.block_sectors }
    ensures words { hand.new.pass.table ≡ hand.old.pass.table }
    ensures idle { hand.new.pass.card.hold ≡ Nothing }
{
    let Sector(first) = at;
    let sectors = Extent {
        first,
        count: from.len() as u64,
    };
    let write = WriteStage {
        cells,
        hand,
        from,
        moved: 0,
    };
    let mut stage = DisplaceStage { rt, target, write };
    stage.serve(geometry.block, block_of(geometry, first), sectors)
}

/// Writes sectors of one block by the desk, on a port.
fn displace_port<R: Wait, D: Disk, P: Policy>(
    rt: &R,
    target: &Target<P>,
    port: &mut Port<D>,
    at: Sector,
    from: &[Content],
) -> Result<(), Refusal>
    requires inside { IsInsideOrigin port.old.geometry at.0 (length from.now) }
    requires fits { at.0 % port.old.geometry.block + length from.now ≤ port.old.geometry.block }
    requires passes { port.old.hand.mode ≡ Passthrough }
    requires settled { port.old.accesses.items ≡ [] }
    ensures done { OnOk result (WasDisplaced D.tells D.size D.contents D.faults (WasAsked P.with_entry P.without_entry []) port.old.geometry.origin_blocks port.old.geometry.block (block_at port.old.geometry at.0) (record { first = at.0; count = length from.now }) from.now port.old.hand Answer.Done port.new.hand) }
    ensures refused { IfErr result (λ refusal. WasDisplaced D.tells D.size D.contents D.faults (WasAsked P.with_entry P.without_entry []) port.old.geometry.origin_blocks port.old.geometry.block (block_at port.old.geometry at.0) (record { first = at.0; count = length from.now }) from.now port.old.hand (Answer.Refused refusal) port.new.hand) }
    ensures kept { OnErr result (port.new.accesses ≡ port.old.accesses) }
    ensures geometry { port.new.geometry ≡ port.old.geometry }
{
    let answer = displace(
        rt,
        target,
        &port.cells,
        &mut port.hand,
        &port.geometry,
        at,
        from,
    );
    match answer {
        Answer::Done => {
            port.accesses.push_reserved(block_of(&port.geometry, at.0));
            Ok(())
        }
        Answer::Refused(refusal) => Err(refusal),
    }
}

impl<'t, D: Disk + Drop, P: Policy> Client<'t, D, P> {
    /// Writes sectors of one block once, with no access unsettled; where that is deferred in passthrough, by the desk.
    pub(crate) fn write_once<R: Wait>(
        &mut self,
        rt: &R,
        at: Sector,
        from: &[Content],
    ) -> Result<(), Refusal>
        requires inside { IsInsideOrigin self.old.port.geometry at.0 (length from.now) }
        requires fits { at.0 % self.old.port.geometry.block + length from.now ≤ self.old.port.geometry.block }
        requires settled { self.old.port.accesses.items ≡ [] }
        ensures written { OnOk result (WriteCame D.tells D.size D.contents D.faults (WasAsked P.with_entry P.without_entry []) self.old.port.geometry None (record { first = at.0; count = length from.now }) (self.old.port.hand, from.now) (self.new.port.hand, from.now)) }
        ensures refused { IfErr result (λ refusal. (refusal ≢ Refusal.Range) × WriteCame D.tells D.size D.contents D.faults (WasAsked P.with_entry P.without_entry []) self.old.port.geometry (Some refusal) (record { first = at.0; count = length from.now }) (self.old.port.hand, from.now) (self.new.port.hand, from.now)) }
        ensures kept { OnErr result (self.new.port.accesses.items ≡ self.old.port.accesses.items) }
        ensures target { self.new.target ≡ self.old.target }
        ensures geometry { self.new.port.geometry ≡ self.old.port.geometry }
    {
        match self.port.try_write(at, from) {
            Ok(()) => Ok(()),
            Err(refusal) => {
                if !is_deferred(refusal, self.port.hand.mode()) {
                    return Err(refusal);
                }
                let target = self.target;
                displace_port(rt, target, &mut self.port, at, from)
            }
        }
    }
}
