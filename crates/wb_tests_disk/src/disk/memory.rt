//! A disk in memory, with memory and without.

use super::{Step, are_done, get_extent, got, put, put_extent};
use std::test::Fail;
use wb_disk::{Disk, MemDisk};
use wb_types::Refusal;

/// What is asked of a disk in memory.
#[derive(Clone, Copy)]
enum Question<'a> {
    /// Whether it does these steps, has three sectors, and counts no fault.
    Does(&'a [Step]),
    Lands,
    Serves,
}

/// The answer of such a disk.
// Letting one go is dear to prove: this function alone does.
fn answered(made: Result<MemDisk, Refusal>, question: Question<'_>) -> Result<bool, Refusal> {
    let mut disk = made?;
    Ok(answer(&mut disk, question))
}

fn answer(disk: &mut MemDisk, question: Question<'_>) -> bool {
    match question {
        Question::Does(steps) => {
            are_done(disk, steps) && disk.sectors() == 3 && disk.faults() == 0
        }
        Question::Lands => lands(disk),
        Question::Serves => has_room(disk) && counts(disk),
    }
}

#[test]
fn a_read_gives_the_latest_write(rt: HostRuntime) -> Result<(), Fail> {
    let steps = [
        Step::Got(1, 0),
        Step::Put(1, 5),
        Step::Got(1, 5),
        Step::Put(1, 6),
        Step::Got(1, 6),
        Step::Synced,
        Step::Got(0, 0),
        Step::Got(1, 6),
    ];
    assert!(rt; answered(MemDisk::new(rt.alloc(), 3), Question::Does(&steps))?);
    Ok(())
}

/// Whether an extent lands from the front: the sectors before the one that found no memory are written.
fn lands(disk: &mut MemDisk) -> bool {
    let wrote = put_extent(disk, 1, &[[5; 512], [6; 512]]).is_ok();
    let mut out = [[9; 512]; 4];
    if get_extent(disk, 0, &mut out).is_err() || out[0][0] != 0 || out[3][511] != 0 {
        return false;
    }
    let (first, second) = (out[1][0], out[2][511]);
    if wrote {
        first == 5 && second == 6 && disk.faults() == 0
    } else {
        (first == 0 || first == 5) && second == 0 && disk.faults() == 1
    }
}

// With each allocation failing in turn.
#[test]
fn an_extent_lands_from_the_front(rt: HostRuntime) {
    let lands = answered(MemDisk::new(rt.alloc(), 4), Question::Lands);
    assert!(rt; lands != Ok(false));
}

/// Whether room for a sector is there, and it is then written, or memory is refused; either way without a fault.
fn has_room(disk: &mut MemDisk) -> bool {
    if disk.sectors() < 1 {
        return false;
    }
    let is_told = match disk.room(0) {
        Ok(()) => put(disk, 0, 7).is_ok(),
        Err(refusal) => refusal == Refusal::Memory,
    };
    is_told && disk.faults() == 0
}

/// Whether a sector is written, or a fault is counted.
fn counts(disk: &mut MemDisk) -> bool {
    if put(disk, 1, 8).is_ok() {
        disk.faults() == 0 && got(disk, 1) == Ok(8)
    } else {
        disk.faults() == 1 && got(disk, 1) == Ok(0)
    }
}

// Run with each allocation failing in turn: one that is refused at `room` leaves the disk as it was, and one
// that is refused at a write is a fault that counts. With ample memory, room takes the place of the allocation.
#[test]
fn refused_memory_is_a_counted_fault(rt: HostRuntime) {
    let serves = answered(MemDisk::new(rt.alloc(), 2), Question::Serves);
    assert!(rt; serves != Ok(false));
}
