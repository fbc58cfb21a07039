//! Disks over files, real and fake.

use super::fake_file::FakeFile;
use super::{Step, are_done, get_extent, got, put, put_extent};
use std::cell::Cell;
use std::fs::File;
use std::rt::Files;
use std::test::Fail;
use std::{fs, io};
use wb_disk::{Disk, DiskFault, FileDisk};
use wb_types::Content;

/// Whether a file of three sectors keeps what is written to it.
fn keeps(disk: &mut impl Disk) -> bool {
    disk.sectors() == 3
        && are_done(
            disk,
            &[
                Step::Put(2, 7),
                Step::Synced,
                Step::Got(2, 7),
                Step::Got(1, 0),
            ],
        )
}

/// Whether a file that was cut short while it is open no longer has its last sector.
fn is_cut_short(disk: &mut impl Disk) -> bool {
    got(disk, 1) == Ok(0)
        && got(disk, 2) == Err(DiskFault)
        && get_extent(disk, 1, &mut [[0; 512]; 2]) == Err(DiskFault)
}

/// Whether a file is a disk that keeps what is written.
fn keeps_in<R: Files<File = File>>(rt: &R, name: &str) -> Result<bool, DiskFault> {
    let mut disk = FileDisk::open(rt, name)?;
    Ok(keeps(&mut disk))
}

/// Whether it is there when the file is opened again, and is gone once that is cut short.
fn loses<R: Files<File = File>>(rt: &R, name: &str, short: &[u8]) -> Result<bool, DiskFault> {
    let mut disk = FileDisk::open(rt, name)?;
    let is_there = got(&mut disk, 2) == Ok(7);
    fs::write(rt, name, short).map_err(|_| DiskFault)?;
    Ok(is_there && is_cut_short(&mut disk))
}

#[test]
fn a_file_keeps_what_was_written(rt: HostRuntime) -> Result<(), Fail> {
    let name = "wb_disk_test.img";
    let zeros = [0u8; 512 * 3 + 100];
    fs::write(&rt, name, &zeros)?;
    assert!(rt; keeps_in(&rt, name)?);
    assert!(rt; loses(&rt, name, &zeros[..1100])?);
    fs::remove_file(&rt, name)?;
    assert!(rt; keeps_in(&rt, name).is_err());
    assert!(rt; keeps_in(&rt, ".").is_err());
    Ok(())
}

fn fake(piece: usize, fails_at: u32, error: io::ErrorKind) -> FakeFile {
    FakeFile {
        bytes: Cell::new([0; 1024]),
        piece,
        calls: Cell::new(0),
        fails_at,
        error,
    }
}

/// A disk over a fake file that does not fail.
fn sound(piece: usize) -> Result<FileDisk<FakeFile>, DiskFault> {
    FileDisk::over(fake(piece, 0, io::ErrorKind::Other))
}

/// What is asked of a disk over a fake file.
#[derive(Clone, Copy)]
enum Question<'a> {
    /// Whether it has two sectors, and does these steps.
    Does(&'a [Step]),
    KeepsExtents,
    /// Whether a write of both sectors fails, and else their reading.
    FailsSo(bool, bool),
    /// Whether the step fails that this call is of.
    EndsAt(u32),
    MovesNothing,
}

/// The answer of such a disk.
// Letting one go is dear to prove: this function alone does.
fn answered(
    made: Result<FileDisk<FakeFile>, DiskFault>,
    question: Question<'_>,
) -> Result<bool, DiskFault> {
    let mut disk = made?;
    Ok(answer(&mut disk, question))
}

fn answer(disk: &mut impl Disk, question: Question<'_>) -> bool {
    match question {
        Question::Does(steps) => disk.sectors() == 2 && are_done(disk, steps),
        Question::KeepsExtents => keeps_extents(disk),
        Question::FailsSo(writes, reads) => fails_so(disk, writes, reads),
        Question::EndsAt(call) => ends_at(disk, call),
        Question::MovesNothing => {
            put(disk, 0, 9) == Err(DiskFault) && got(disk, 0) == Err(DiskFault)
        }
    }
}

#[test]
fn pieces_are_put_together(rt: HostRuntime) -> Result<(), Fail> {
    let steps = [Step::Put(1, 9), Step::Got(0, 0), Step::Got(1, 9)];
    for piece in [1, 100, 512] {
        assert!(rt; answered(sound(piece), Question::Does(&steps))?);
    }
    Ok(())
}

/// Whether both sectors of a disk are read by one extent as they are said.
fn has_both(disk: &mut impl Disk, wanted: &[Content; 2]) -> bool {
    let mut out = [[0; 512]; 2];
    get_extent(disk, 0, &mut out) == Ok(()) && out == *wanted
}

/// Whether extents of two sectors, of one and of none are written and read in order.
fn keeps_extents(disk: &mut impl Disk) -> bool {
    put_extent(disk, 0, &[[5; 512], [6; 512]]) == Ok(())
        && are_done(disk, &[Step::Got(0, 5), Step::Got(1, 6)])
        && put_extent(disk, 1, &[[7; 512]]) == Ok(())
        && has_both(disk, &[[5; 512], [7; 512]])
        && put_extent(disk, 2, &[]) == Ok(())
        && get_extent(disk, 2, &mut []) == Ok(())
}

#[test]
fn an_extent_is_its_sectors_in_order(rt: HostRuntime) -> Result<(), Fail> {
    for piece in [1, 100, 512, 700, 1024] {
        assert!(rt; answered(sound(piece), Question::KeepsExtents)?);
    }
    Ok(())
}

/// Whether a write of both sectors fails where it is said, and else their reading where that is.
fn fails_so(disk: &mut impl Disk, writes: bool, reads: bool) -> bool {
    let wrote = put_extent(disk, 0, &[[5; 512], [6; 512]]);
    if wrote.is_err() {
        return writes;
    }
    let mut out = [[0; 512]; 2];
    !writes && get_extent(disk, 0, &mut out).is_err() == reads
}

// Call 1 measures. One call moves both sectors, or in pieces of 512 bytes two calls, and as many read them.
#[test]
fn an_extent_that_fails_midway_is_a_fault(rt: HostRuntime) -> Result<(), Fail> {
    for (piece, calls) in [(1024, 1), (512, 2)] {
        for fails_at in 2..7 {
            let disk = FileDisk::over(fake(piece, fails_at, io::ErrorKind::StorageFull));
            let (writes, reads) = (fails_at < 2 + calls, fails_at < 2 + 2 * calls);
            assert!(rt; answered(disk, Question::FailsSo(writes, reads))?);
        }
    }
    Ok(())
}

/// Whether a write, a read and a sync fail where call 1 measures, calls 2 to 7 write a sector, 8 to 13 read it, and call 14
/// syncs: in pieces of 100 bytes.
fn ends_at(disk: &mut impl Disk, fails_at: u32) -> bool {
    if put(disk, 1, 9).is_err() {
        return 2 <= fails_at && fails_at < 8;
    }
    let is_read = got(disk, 1).is_ok();
    let is_synced = disk.sync().is_ok();
    let (reads, syncs) = (8 <= fails_at && fails_at < 14, fails_at == 14);
    !(2 <= fails_at && fails_at < 8) && is_read == !reads && is_synced == !syncs
}

#[test]
fn a_step_that_fails_midway_is_a_fault(rt: HostRuntime) -> Result<(), Fail> {
    assert!(rt; FileDisk::over(fake(100, 1, io::ErrorKind::StorageFull)).is_err());
    for fails_at in 2..16 {
        let disk = FileDisk::over(fake(100, fails_at, io::ErrorKind::StorageFull));
        assert!(rt; answered(disk, Question::EndsAt(fails_at))?);
    }
    Ok(())
}

#[test]
fn a_file_that_moves_nothing_is_a_fault(rt: HostRuntime) -> Result<(), Fail> {
    assert!(rt; answered(sound(0), Question::MovesNothing)?);
    Ok(())
}

#[test]
fn an_interrupted_step_is_tried_again(rt: HostRuntime) -> Result<(), Fail> {
    let steps = [Step::Put(0, 9), Step::Got(0, 9)];
    for fails_at in [2, 4] {
        let disk = FileDisk::over(fake(300, fails_at, io::ErrorKind::Interrupted));
        assert!(rt; answered(disk, Question::Does(&steps))?);
    }
    Ok(())
}
