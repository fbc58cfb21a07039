//! Tasks driven over words, two small devices and a desk of one owner: which steps they want, and what is left.

mod bench;
mod migrations;
mod passthrough;
mod requests;
mod row;

use self::bench::{BLOCK, BLOCK_SECTORS, Bench};
use self::migrations::{CACHED, COPIES, GIVE_UP, HOME, PROMOTIONS, REFUSED, RETURNS};
use self::passthrough::{DEFERRED, DISPLACING, INVALIDATIONS};
use self::requests::{
    CACHED_SECTORS, DISOWN, IN_ONE_STEP, IN_OTHER_MODES, READS, SECTORS, SET_FAILED, WRITES,
};
use self::row::Row;
use std::alloc::Global;
use std::test::Fail;
use wb_tasks::*;
use wb_types::{Dev, Extent, Refusal};
use wb_words::Word;

/// Drives a row's task.
fn play(bench: &mut Bench, row: &Row) -> Answer {
    let longest = row.longest.max(1);
    let mut task = match row.job {
        Work::Invalidate => BlockTask::invalidate(BLOCK_SECTORS, BLOCK),
        Work::Migrate(migration) => BlockTask::migrate(migration, BLOCK_SECTORS, BLOCK, longest),
        work => BlockTask::new(work, row.mode, BLOCK_SECTORS, BLOCK, SECTORS, longest),
    };
    drive(&mut task, bench)
}

/// Whether the words are these.
fn has(bench: &Bench, words: &[(Word, u64)]) -> bool {
    words.iter().all(|pair| bench.look(pair.0) == pair.1)
}

/// Whether these sectors of a device hold one content, and all others another.
fn holds(device: &[u8], sectors: Extent, inside: u8, outside: u8) -> bool {
    device.iter().enumerate().all(|pair| {
        let at = pair.0 as u64;
        let is_inside = at >= sectors.first && at - sectors.first < sectors.count;
        *pair.1 == if is_inside { inside } else { outside }
    })
}

/// Whether both devices hold what a row says.
fn is_left(bench: &Bench, row: &Row) -> bool {
    let Some((origin, cache)) = row.holds else {
        return true;
    };
    let (there, cached) = match row.job {
        Work::Migrate(_) => (HOME, CACHED),
        _ => (SECTORS, CACHED_SECTORS),
    };
    holds(&bench.origin, there, origin, 1) && holds(&bench.cache, cached, cache, 2)
}

/// Whether the wants are what a row says.
fn has_wanted(wants: &[Want], row: &Row) -> bool {
    let end = row.from.saturating_add(row.wants.len());
    wants.get(row.from..end) == Some(row.wants) && wants.len() == end.saturating_add(row.more)
}

/// Whether a row's task goes as the row says.
fn goes_so(bench: &mut Bench, row: &Row) -> bool {
    play(bench, row) == row.answer
        && has_wanted(&bench.wants, row)
        && has(bench, row.words)
        && is_left(bench, row)
        && bench.is_mapped == row.is_mapped
        && bench.has_order == row.has_order
}

/// Whether a copy ends at the step that fails, of this device: after a fault on a read the block and the order are given up, after
/// one on a write the target has failed.
fn ends_at(bench: &mut Bench, row: &Row, fails: u32, device: Dev) -> bool {
    let is_read = fails % 2 == 0;
    let parting: &[Want] = if is_read {
        &[DISOWN, GIVE_UP]
    } else {
        &[SET_FAILED]
    };
    let next = (fails as usize).saturating_add(6);
    let kept = if is_read { 0 } else { 1 };
    play(bench, row) == Answer::Refused(Refusal::Io(device))
        && bench.wants.as_slice().get(next..) == Some(parting)
        && bench.has_order == !is_read
        && has(bench, &[(Word::Cell(BLOCK), kept), (Word::Fail, kept)])
}

/// Whether a row's task goes as the row says, or a copy ends at the step that fails, where that and its device are given.
fn is_so(alloc: Global, row: &Row, ends: Option<(u32, Dev)>) -> Result<bool, Refusal> {
    let mut bench = Bench::new(alloc, row)?;
    Ok(is_done(&mut bench, row, ends))
}

fn is_done(bench: &mut Bench, row: &Row, ends: Option<(u32, Dev)>) -> bool {
    match ends {
        Some((fails, device)) => ends_at(bench, row, fails, device),
        None => goes_so(bench, row),
    }
}

/// Drives each row's task, and compares.
fn compare(alloc: Global, rows: &[&Row]) -> Result<(), Fail> {
    for row in rows {
        if !is_so(alloc, row, None)? {
            return Err(Fail::from(row.name));
        }
    }
    Ok(())
}

#[test]
fn reads_take_the_steps_of_their_table(rt: HostRuntime) -> Result<(), Fail> {
    compare(rt.alloc(), &READS)
}

#[test]
fn writes_take_the_steps_of_their_table(rt: HostRuntime) -> Result<(), Fail> {
    compare(rt.alloc(), &WRITES)
}

#[test]
fn requests_take_an_extent_in_one_step(rt: HostRuntime) -> Result<(), Fail> {
    compare(rt.alloc(), &IN_ONE_STEP)
}

#[test]
fn requests_take_the_steps_of_their_mode(rt: HostRuntime) -> Result<(), Fail> {
    compare(rt.alloc(), &IN_OTHER_MODES)
}

#[test]
fn deferred_writes_take_the_steps_of_their_table(rt: HostRuntime) -> Result<(), Fail> {
    compare(rt.alloc(), &DEFERRED)
}

#[test]
fn displacing_writes_take_the_steps_of_their_table(rt: HostRuntime) -> Result<(), Fail> {
    compare(rt.alloc(), &DISPLACING)
}

#[test]
fn invalidations_take_the_steps_of_their_table(rt: HostRuntime) -> Result<(), Fail> {
    compare(rt.alloc(), &INVALIDATIONS)
}

#[test]
fn promotions_take_the_steps_of_their_table(rt: HostRuntime) -> Result<(), Fail> {
    compare(rt.alloc(), &PROMOTIONS)
}

#[test]
fn demotions_and_cleans_take_the_steps_of_their_tables(rt: HostRuntime) -> Result<(), Fail> {
    compare(rt.alloc(), &RETURNS)
}

#[test]
fn refused_migrations_take_the_steps_of_their_tables(rt: HostRuntime) -> Result<(), Fail> {
    compare(rt.alloc(), &REFUSED)
}

#[test]
fn each_fault_of_a_copy_ends_it(rt: HostRuntime) -> Result<(), Fail> {
    for (row, from, to) in &COPIES {
        for fails in 0..4 {
            let row = Row {
                longest: 32,
                fails: Some(fails),
                ..**row
            };
            let device = if fails % 2 == 0 { *from } else { *to };
            assert!(rt; is_so(rt.alloc(), &row, Some((fails, device)))?, "{fails}");
        }
    }
    Ok(())
}
