//! Passes on one thread.

ghost use Rattle.std.specs.Prelude.{◌≡◌, ◌<◌};
ghost use Rattle.wb_words.specs.declared.card.Hold.TheVariants.{Nothing};

use std::alloc::Global;
use std::test::Fail;
use wb_cells::{Cells, Grip, Gripped, Pass};
use wb_types::{CBlock, OBlock, Refusal};
use wb_words::{Kind, Word};

/// What is asked of passes of the words of ten blocks, none of which holds a block.
// Letting cells and passes go at each of many exits is dear to prove: `answered` alone does, at one.
#[derive(Clone, Copy)]
enum Question {
    SharersKeepOut,
    FindsWhatWasLeft,
    GripsByFive,
    IsSuspended,
}

fn answered(alloc: Global, question: Question) -> Result<bool, Refusal> {
    let (cells, pass) = Cells::new(alloc, 10)?;
    let (pass, mut third) = cells.split(pass);
    let (mut first, mut second) = cells.split(pass);
    Ok(answer(&cells, &mut first, &mut second, &mut third, question))
}

fn answer(cells: &Cells, p: &mut Pass, q: &mut Pass, r: &mut Pass, question: Question) -> bool
    requires blocks { cells.now.blocks ≡ 10 }
    requires at { (p.old.table ≡ cells.now.table) × (q.old.table ≡ cells.now.table) × (r.old.table ≡ cells.now.table) }
    requires idle { (p.old.card.hold ≡ Nothing) × (q.old.card.hold ≡ Nothing) × (r.old.card.hold ≡ Nothing) }
{
    match question {
        Question::SharersKeepOut => sharers_keep_out(cells, p, q, r),
        Question::FindsWhatWasLeft => finds_what_was_left(cells, p, r),
        Question::GripsByFive => grips_by_five(cells, p),
        Question::IsSuspended => is_suspended(cells, p),
    }
}

/// Whether a grip shares in five steps.
fn grips_by_five(cells: &Cells, p: &mut Pass) -> bool
    requires blocks { cells.now.blocks ≡ 10 }
    requires at { p.old.table ≡ cells.now.table }
    requires idle { p.old.card.hold ≡ Nothing }
{
    let mut grip = Grip::share(OBlock(1));
    matches!(cells.grip_step(p, &mut grip), Gripped::More(0))
        && matches!(cells.grip_step(p, &mut grip), Gripped::More(0))
        && matches!(cells.grip_step(p, &mut grip), Gripped::More(0))
        && matches!(cells.grip_step(p, &mut grip), Gripped::More(0))
        && matches!(cells.grip_step(p, &mut grip), Gripped::Shared(_))
}

#[test]
fn a_grip_shares_in_five_steps(rt: HostRuntime) -> Result<(), Fail> {
    assert!(rt; answered(rt.alloc(), Question::GripsByFive)?);
    Ok(())
}

/// Whether two sharers keep a third pass from owning their block until they leave it.
fn sharers_keep_out(cells: &Cells, p: &mut Pass, q: &mut Pass, r: &mut Pass) -> bool
    requires blocks { cells.now.blocks ≡ 10 }
    requires at { (p.old.table ≡ cells.now.table) × (q.old.table ≡ cells.now.table) × (r.old.table ≡ cells.now.table) }
    requires idle { (p.old.card.hold ≡ Nothing) × (q.old.card.hold ≡ Nothing) × (r.old.card.hold ≡ Nothing) }
{
    let four = OBlock(4);
    let Ok(a) = cells.try_share(p, four) else {
        return false;
    };
    let Ok(b) = cells.try_share(q, four) else {
        return false;
    };
    if !matches!(cells.try_own(r, four), Err(Refusal::Busy)) {
        return false;
    }
    let found = (a.place, a.dirty, a.number) == (None, false, 0)
        && (b.place, b.dirty, b.number) == (None, false, 0);
    cells.leave(p, a);
    cells.leave(q, b);
    found && cells.try_own(r, four).is_ok()
}

#[test]
fn two_sharers_keep_a_third_pass_from_owning(rt: HostRuntime) -> Result<(), Fail> {
    assert!(rt; answered(rt.alloc(), Question::SharersKeepOut)?);
    Ok(())
}

/// Whether a sharer finds what an owner sealed and counted, once that has left, and nobody finds a block after a failure.
fn finds_what_was_left(cells: &Cells, p: &mut Pass, r: &mut Pass) -> bool
    requires blocks { cells.now.blocks ≡ 10 }
    requires at { (p.old.table ≡ cells.now.table) × (r.old.table ≡ cells.now.table) }
    requires idle { (p.old.card.hold ≡ Nothing) × (r.old.card.hold ≡ Nothing) }
{
    let four = OBlock(4);
    let Ok(mut own) = cells.try_own(r, four) else {
        return false;
    };
    cells.seal(r, &mut own, Some(CBlock(2)), true);
    if own.number < u64::MAX {
        cells.finish_write(r, &mut own);
    }
    if !matches!(cells.try_share(p, four), Err(Refusal::Busy)) {
        return false;
    }
    cells.disown(r, own);
    let Ok(a) = cells.try_share(p, four) else {
        return false;
    };
    let found = (a.place, a.dirty, a.number) == (Some(CBlock(2)), true, 1);
    cells.leave(p, a);
    cells.fail(r);
    found && matches!(cells.try_share(p, OBlock(0)), Err(Refusal::Failed))
}

#[test]
fn a_sharer_finds_what_an_owner_left(rt: HostRuntime) -> Result<(), Fail> {
    assert!(rt; answered(rt.alloc(), Question::FindsWhatWasLeft)?);
    Ok(())
}

/// Whether a suspension refuses blocks as a failure does, each by its bit.
fn is_suspended(cells: &Cells, p: &mut Pass) -> bool
    requires blocks { cells.now.blocks ≡ 10 }
    requires at { p.old.table ≡ cells.now.table }
    requires idle { p.old.card.hold ≡ Nothing }
{
    cells.suspended(p);
    if !matches!(cells.try_own(p, OBlock(0)), Err(Refusal::Failed)) {
        return false;
    }
    if cells.look(p, Word::Fail) != 2 {
        return false;
    }
    cells.fail(p);
    cells.look(p, Word::Fail) == 3
}

#[test]
fn a_suspension_refuses_as_a_failure_does(rt: HostRuntime) -> Result<(), Fail> {
    assert!(rt; answered(rt.alloc(), Question::IsSuspended)?);
    Ok(())
}

#[test]
fn joined_passes_know_the_statistics(rt: HostRuntime) -> Result<(), Fail> {
    let (cells, pass) = Cells::new(rt.alloc(), 1)?;
    let (mut p, mut q) = cells.split(pass);
    cells.count(&mut p, Kind::ReadHit);
    cells.count(&mut q, Kind::ReadHit);
    cells.count(&mut q, Kind::WriteMiss);
    let mut all = cells.join(p, q);
    let counts = [
        cells.look(&mut all, Word::Count(Kind::ReadHit)),
        cells.look(&mut all, Word::Count(Kind::ReadMiss)),
        cells.look(&mut all, Word::Count(Kind::WriteHit)),
        cells.look(&mut all, Word::Count(Kind::WriteMiss)),
    ];
    assert!(rt; counts == [2, 0, 0, 1]);
    Ok(())
}

#[test]
fn who_fails_keeps_what_it_owns(rt: HostRuntime) -> Result<(), Fail> {
    let (cells, pass) = Cells::new(rt.alloc(), 1)?;
    let (mut p, q) = cells.split(pass);
    let _own = cells.try_own(&mut p, OBlock(0))?;
    cells.fail(&mut p);
    let mut all = cells.join(p, q);
    assert_eq!(rt; cells.look(&mut all, Word::Cell(OBlock(0))), 1);
    Ok(())
}

#[test]
fn two_passes_are_told_that_they_exclude_each_other(rt: HostRuntime) -> Result<(), Fail> {
    let (cells, pass) = Cells::new(rt.alloc(), 2)?;
    let (mut p, mut q) = cells.split(pass);
    let own = cells.try_own(&mut p, OBlock(1))?;
    let share = cells.try_share(&mut q, OBlock(0))?;
    let (mut p, mut q) = cells.apart(p, q);
    cells.disown(&mut p, own);
    cells.leave(&mut q, share);
    let mut all = cells.join(p, q);
    assert!(rt; cells.try_own(&mut all, OBlock(0)).is_ok());
    Ok(())
}

/// Shares block 0 by so many passes that are split off and dropped: whether each could.
fn crowd(cells: &Cells, mut pass: Pass, many: u32) -> (Pass, bool)
    requires at { pass.table ≡ cells.now.table }
    requires block { 0 < cells.now.blocks }
    requires idle { pass.card.hold ≡ Nothing }
    ensures at { result.0.table ≡ cells.now.table }
    ensures idle { result.0.card.hold ≡ Nothing }
{
    for _ in 0..many {
        let (left, mut right) = cells.split(pass);
        pass = left;
        if cells.try_share(&mut right, OBlock(0)).is_err() {
            return (pass, false);
        }
    }
    (pass, true)
}

#[test]
fn a_block_has_fewer_sharers_than_2_to_the_20(rt: HostRuntime) -> Result<(), Fail> {
    let (cells, pass) = Cells::new(rt.alloc(), 1)?;
    let (mut pass, shared) = crowd(&cells, pass, (1 << 20) - 1);
    assert!(rt; shared);
    assert!(rt; cells.look(&mut pass, Word::Cell(OBlock(0))) == (1 << 21) - 2);
    assert!(rt; matches!(cells.try_share(&mut pass, OBlock(0)), Err(Refusal::Busy)));
    Ok(())
}
