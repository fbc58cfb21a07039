//! Flushes, suspends and openings driven over a stage that notes what they want.

mod rows;
mod stage;

use self::rows::{BREAK, ROWS, Row, SUSPENDS, TICKETS, UNWRITTEN};
use self::stage::{Noted, Task};
use std::alloc::{AllocError, Global};
use std::test::Fail;
use wb_flow::*;
use wb_tasks::{Answer, drive};
use wb_types::{OBlock, Refusal};

/// The blocks whose orders a row's flush serves, or that are mapped at its suspend.
fn serves_of(alloc: Global, row: &Row) -> Result<Vec<OBlock>, AllocError> {
    let mut serves = Vec::with_capacity(alloc, row.serves.len())?;
    for block in row.serves {
        serves.push(*block)?;
    }
    Ok(serves)
}

/// Drives a row's task.
fn play(alloc: Global, noted: &mut Noted, row: &Row) -> Result<Answer, AllocError> {
    match row.task {
        Task::Flush => {
            let serves = serves_of(alloc, row)?;
            Ok(drive(&mut CommitTask::flush(serves, 3), noted))
        }
        Task::Suspend => {
            let mapped = serves_of(alloc, row)?;
            Ok(drive(&mut CommitTask::suspend(mapped, 3), noted))
        }
        Task::Open => Ok(drive(&mut OpenTask::new(5), noted)),
    }
}

/// Whether a row's task goes as the row says.
fn goes_so(alloc: Global, noted: &mut Noted, row: &Row) -> Result<bool, AllocError> {
    let answer = play(alloc, noted, row)?;
    Ok(answer == row.answer && has_noted(noted, row))
}

/// Whether what was noted is what a row says.
fn has_noted(noted: &Noted, row: &Row) -> bool {
    let wants = noted.wants.as_slice();
    let commit = row.from.saturating_add(row.wants.len());
    let last = commit.saturating_add(row.commit.len());
    noted.fail == row.fail
        && wants.get(row.from..commit) == Some(row.wants)
        && wants.get(commit..last) == Some(row.commit)
        && wants.get(last..) == Some(row.last)
}

/// Whether a row's task ends at the step that fails; a flush or suspend that does fails the target, and then breaks its commit.
fn ends_at(alloc: Global, noted: &mut Noted, row: &Row, fails: u32) -> Result<bool, AllocError> {
    let answer = play(alloc, noted, row)?;
    let sets = matches!(row.task, Task::Flush | Task::Suspend);
    Ok(
        matches!(answer, Answer::Refused(Refusal::Io(_)))
            && noted.moved == fails.saturating_add(1)
            && noted.fail == u64::from(sets)
            && (noted.wants.as_slice().last() == Some(&BREAK)) == sets,
    )
}

/// Whether a row's task goes as the row says, or ends at the step that fails.
fn is_so(alloc: Global, row: &Row) -> Result<bool, Refusal> {
    let mut noted = Noted::new(alloc, row)?;
    Ok(is_noted(alloc, &mut noted, row)?)
}

fn is_noted(alloc: Global, noted: &mut Noted, row: &Row) -> Result<bool, AllocError> {
    match row.fails {
        Some(fails) => ends_at(alloc, noted, row, fails),
        None => goes_so(alloc, noted, row),
    }
}

/// Plays each row, and compares.
fn compare(alloc: Global, rows: &[&Row]) -> Result<(), Fail> {
    for row in rows {
        if !is_so(alloc, row)? {
            return Err(Fail::from(row.name));
        }
    }
    Ok(())
}

/// Plays each row once for each of its steps on a device, which fails.
fn compare_faults(alloc: Global, rows: &[&Row]) -> Result<(), Fail> {
    for row in rows {
        for fails in 0..row.device_steps {
            let row = Row {
                fails: Some(fails),
                ..**row
            };
            if !is_so(alloc, &row)? {
                return Err(Fail::from(row.name));
            }
        }
    }
    Ok(())
}

#[test]
fn flushes_and_openings_take_the_steps_of_their_tables(rt: HostRuntime) -> Result<(), Fail> {
    compare(rt.alloc(), &ROWS)
}

#[test]
fn flushes_that_meet_a_commit_take_the_steps_of_their_table(rt: HostRuntime) -> Result<(), Fail> {
    compare(rt.alloc(), &TICKETS)
}

#[test]
fn suspends_take_the_steps_of_their_table(rt: HostRuntime) -> Result<(), Fail> {
    compare(rt.alloc(), &SUSPENDS)
}

#[test]
fn each_fault_ends_a_flush_or_an_opening(rt: HostRuntime) -> Result<(), Fail> {
    compare_faults(rt.alloc(), &ROWS)
}

#[test]
fn each_fault_ends_a_flush_that_met_a_commit(rt: HostRuntime) -> Result<(), Fail> {
    compare_faults(rt.alloc(), &TICKETS)
}

#[test]
fn an_opening_that_cannot_write_a_node_writes_no_root(rt: HostRuntime) -> Result<(), Fail> {
    let mut noted = Noted::new(rt.alloc(), &UNWRITTEN)?;
    if !goes_so(rt.alloc(), &mut noted, &UNWRITTEN)? {
        return Err(Fail::from(UNWRITTEN.name));
    }
    Ok(())
}

#[test]
fn each_fault_ends_a_suspend(rt: HostRuntime) -> Result<(), Fail> {
    compare_faults(rt.alloc(), &SUSPENDS)
}
