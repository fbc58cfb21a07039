//! Writes of several threads to one block.

ghost use Rattle.std.specs.Prelude.{◌≡◌, ◌+◌, ◌*◌, ◌<◌, if◌then◌else◌};
ghost use Rattle.wb_words.specs.declared.card.Hold.TheVariants.{Nothing};
ghost use Rattle.wb_words.specs.Cards.{blank_card, writes_on};
ghost use Rattle.wb_cells.specs.Fractions.{IsWhole, the_whole, together};

use std::sync::Wait;
use std::test::Fail;
use std::thread::{Threads, join};
use wb_cells::{Cells, Pass};
use wb_types::OBlock;
use wb_words::Word;

/// Finishes a write on block 0, or finds it busy.
fn attempt(cells: &Cells, pass: &mut Pass) -> bool
    requires at { pass.old.table ≡ cells.now.table }
    requires block { 0 < cells.now.blocks }
    requires idle { pass.old.card.hold ≡ Nothing }
    ensures pass { pass.new ≡ record pass.old { card = pass.new.card } }
    ensures idle { pass.new.card.hold ≡ Nothing }
    ensures writes { writes_on 0 pass.new.card ≡ writes_on 0 pass.old.card + (if result then 1 else 0) }
{
    let Ok(mut own) = cells.try_own(pass, OBlock(0)) else {
        return false;
    };
    let room = own.number < u64::MAX;
    if room {
        cells.finish_write(pass, &mut own);
    }
    cells.disown(pass, own);
    room
}

/// Finishes so many writes, trying again where the block is busy.
fn rounds<R: Wait>(rt: &R, cells: &Cells, mut pass: Pass, many: u64) -> Pass
    requires at { pass.table ≡ cells.now.table }
    requires block { 0 < cells.now.blocks }
    requires idle { pass.card.hold ≡ Nothing }
    ensures pass { result ≡ record pass { card = result.card } }
    ensures idle { result.card.hold ≡ Nothing }
    ensures writes { writes_on 0 result.card ≡ writes_on 0 pass.card + many }
{
    let mut done: u64 = 0;
    for _ in rt.forever() {
        if done >= many {
            break;
        }
        if attempt(cells, &mut pass) {
            done += 1;
        }
    }
    pass
}

/// Two passes are one, with the writes of both.
fn both(cells: &Cells, a: Pass, b: Pass) -> Pass
    requires at { (a.table ≡ cells.now.table) × (b.table ≡ cells.now.table) }
    requires idle { (a.card.hold ≡ Nothing) × (b.card.hold ≡ Nothing) }
    ensures at { result.table ≡ a.table }
    ensures part { result.fraction ≡ together a.fraction b.fraction }
    ensures idle { result.card.hold ≡ Nothing }
    ensures writes { writes_on 0 result.card ≡ writes_on 0 a.card + writes_on 0 b.card }
{
    cells.join(a, b)
}

/// Two threads finish so many writes each.
fn pair<R: Threads + Wait + Sync>(rt: &R, cells: &Cells, a: Pass, b: Pass, many: u64) -> Pass
    requires at { (a.table ≡ cells.now.table) × (b.table ≡ cells.now.table) }
    requires block { 0 < cells.now.blocks }
    requires idle { (a.card.hold ≡ Nothing) × (b.card.hold ≡ Nothing) }
    ensures at { result.table ≡ a.table }
    ensures part { result.fraction ≡ together a.fraction b.fraction }
    ensures idle { result.card.hold ≡ Nothing }
    ensures writes { writes_on 0 result.card ≡ writes_on 0 a.card + writes_on 0 b.card + 2 * many }
{
    let (a, b) = join(
        rt,
        || rounds(rt, cells, a, many),
        || rounds(rt, cells, b, many),
    );
    both(cells, a, b)
}

/// Four threads finish a thousand writes each.
fn four<R: Threads + Wait + Sync>(rt: &R, cells: &Cells, pass: Pass) -> Pass
    requires at { pass.table ≡ cells.now.table }
    requires block { 0 < cells.now.blocks }
    requires new { (pass.fraction ≡ the_whole) × (pass.card ≡ blank_card) }
    ensures at { result.table ≡ cells.now.table }
    ensures whole { IsWhole result.fraction }
    ensures writes { writes_on 0 result.card ≡ 4000 }
{
    let (a, b) = cells.split(pass);
    let (a, c) = cells.split(a);
    let (b, d) = cells.split(b);
    let (first, second) = join(
        rt,
        ||
            requires at { (a.table ≡ cells.now.table) × (c.table ≡ cells.now.table) × (0 < cells.now.blocks) }
            requires idle { (a.card.hold ≡ Nothing) × (c.card.hold ≡ Nothing) }
        { pair(rt, cells, a, c, 1000) },
        ||
            requires at { (b.table ≡ cells.now.table) × (d.table ≡ cells.now.table) × (0 < cells.now.blocks) }
            requires idle { (b.card.hold ≡ Nothing) × (d.card.hold ≡ Nothing) }
        { pair(rt, cells, b, d, 1000) },
    );
    both(cells, first, second)
}

/// What the whole finds at the number of block 0.
fn number_of(cells: &Cells, pass: &mut Pass) -> u64
    requires at { pass.old.table ≡ cells.now.table }
    requires block { 0 < cells.now.blocks }
    requires whole { IsWhole pass.old.fraction }
    ensures { result ≡ writes_on 0 pass.old.card }
{
    cells.look(pass, Word::Number(OBlock(0)))
}

#[test]
fn four_threads_finish_a_thousand_writes_each(rt: HostRuntime) -> Result<(), Fail> {
    let (cells, pass) = Cells::new(rt.alloc(), 1)?;
    let mut all = four(&rt, &cells, pass);
    assert_eq!(rt; number_of(&cells, &mut all), 4000);
    Ok(())
}
