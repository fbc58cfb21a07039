//! A step of a request by its kind, and what came of it.

ghost use Rattle.std.specs.Prelude.{◌≡◌};
ghost use Rattle.std.specs.Bool.{OnTrue, OnFalse};
ghost use Rattle.wb_tasks.specs.declared.step.Want.TheVariants.{Cell, Device};
ghost use Rattle.wb_port.specs.Kinds.{IsCertain, IsTransfer};
ghost use Rattle.wb_words.specs.declared.step.CellStep.TheVariants.{Look, Take};

use wb_tasks::{CellStep, DeviceStep, Got, Stage, Want};
use wb_types::OBlock;
use wb_words::{Access, Word};

/// A look at a word: what it found.
#[inline(always)]
pub(crate) fn look<S: Stage>(stage: &mut S, word: Word) -> u64
    requires { S.ready stage.old (Cell (Look word)) }
    ensures { S.led stage.old (Cell (Look word)) (Got.Word result) stage.new }
{
    match stage.perform(&Want::Cell(CellStep::Look(word))) {
        Got::Word(found) => found,
        _ => unreachable!(),
    }
}

/// The exchange that takes a block: whether it was won.
#[inline(always)]
pub(crate) fn take<S: Stage>(stage: &mut S, access: Access, block: OBlock, seen: u64) -> bool
    requires { S.ready stage.old (Cell (Take access block seen)) }
    ensures won { OnTrue result (S.led stage.old (Cell (Take access block seen)) Got.Done stage.new) }
    ensures lost { OnFalse result (S.led stage.old (Cell (Take access block seen)) Got.Lost stage.new) }
{
    match stage.perform(&Want::Cell(CellStep::Take(access, block, seen))) {
        Got::Done => true,
        Got::Lost => false,
        _ => unreachable!(),
    }
}

/// A step on a word that can but be done.
#[inline(always)]
pub(crate) fn change<S: Stage>(stage: &mut S, step: CellStep)
    requires certain { IsCertain step }
    requires ready { S.ready stage.old (Cell step) }
    ensures { S.led stage.old (Cell step) Got.Done stage.new }
{
    let _step = step;
    match stage.perform(&Want::Cell(step)) {
        Got::Done => {}
        _ => unreachable!(),
    }
}

/// A read or a write of an extent: whether it was done, or failed.
#[inline(always)]
pub(crate) fn transfer<S: Stage>(stage: &mut S, step: DeviceStep) -> bool
    requires moves { IsTransfer step }
    requires ready { S.ready stage.old (Device step) }
    ensures done { OnTrue result (S.led stage.old (Device step) Got.Done stage.new) }
    ensures failed { OnFalse result (S.led stage.old (Device step) Got.Fault stage.new) }
{
    match stage.perform(&Want::Device(step)) {
        Got::Done => true,
        Got::Fault => false,
        _ => unreachable!(),
    }
}
