//! What is read of good sectors, and of roots that do not count.

use super::{LEAF, Question, answered, one_node_fits, put, sector_of};
use std::alloc::Global;
use std::test::Fail;
use wb_disk::MemDisk;
use wb_format::Root;
use wb_meta::{Image, ReadSteps, commit, read_state};
use wb_types::{Content, Place, Refusal};

/// The generation of what a device stands for, and the number of its nodes.
fn read(alloc: Global, disk: &mut MemDisk) -> Result<(u64, usize), Refusal> {
    let state = read_state(alloc, alloc, disk)?;
    Ok((state.root.generation, state.used.len()))
}

/// A root of a device of 4 sectors, with the place of its top node, 0 for none.
fn root_sector(generation: u8, top: u8) -> Content {
    let mut content = [0; 512];
    content[..8].copy_from_slice(b"WBCROOT1");
    content[8] = generation;
    content[16] = 1;
    content[24] = 64;
    content[28] = 4;
    content[32] = 10;
    content[36] = 4;
    content[40] = top;
    content
}

/// The leaf of the first commit, of another generation.
fn leaf_sector(generation: u8) -> Content {
    let mut content = sector_of(&LEAF);
    content[8] = generation;
    content
}

/// Whether a reading has this sector next, and whether its root is known.
fn is_at(steps: &ReadSteps<Global>, sector: u64, is_known: bool) -> bool {
    steps.coming() == Some(sector) && steps.root().is_some() == is_known && !steps.is_done()
}

/// Whether the sectors of a device are read in this order, each beside whether the root is known before it, and this root is
/// found.
fn is_read_by(
    alloc: Global,
    disk: &mut MemDisk,
    sectors: &[(u64, bool)],
    root: &Root,
) -> Result<bool, Refusal> {
    let mut steps = ReadSteps::new(alloc, alloc);
    for (sector, is_known) in sectors {
        if !is_at(&steps, *sector, *is_known) {
            return Ok(false);
        }
        steps = steps.next(disk)?;
    }
    if steps.coming().is_some() || !steps.is_done() {
        return Ok(false);
    }
    match steps.next(disk)? {
        ReadSteps::Done(state) => Ok(state.root == *root),
        _ => Ok(false),
    }
}

/// Whether a device is read so once an image is committed.
pub(super) fn is_read_then(
    alloc: Global,
    disk: &mut MemDisk,
    image: &Image,
    sectors: &[(u64, bool)],
) -> Result<bool, Refusal> {
    if !one_node_fits(disk, image) {
        return Ok(false);
    }
    commit(disk, image)?;
    is_read_by(alloc, disk, sectors, &image.root)
}

#[test]
fn a_device_of_one_node_is_read_in_three_steps(rt: HostRuntime) -> Result<(), Fail> {
    let sectors = [(0, false), (1, false), (2, true)];
    assert!(rt; answered(rt.alloc(), Question::ReadBy(&sectors))?);
    Ok(())
}

/// What is read of a device of so many sectors with these roots in its slots.
fn read_roots(
    alloc: Global,
    sectors: u64,
    first: Option<u8>,
    second: Option<u8>,
) -> Result<(u64, usize), Refusal> {
    let mut disk = MemDisk::new(alloc, sectors)?;
    if let Some(generation) = first {
        put(&mut disk, 0, &root_sector(generation, 0))?;
    }
    if let Some(generation) = second {
        put(&mut disk, 1, &root_sector(generation, 0))?;
    }
    read(alloc, &mut disk)
}

/// The generations of the roots in both slots, and what is then read.
type Row = (Option<u8>, Option<u8>, Result<(u64, usize), Refusal>);

const OF_ITS_SIZE: [Row; 8] = [
    (Some(0), None, Ok((0, 0))),
    (None, Some(1), Ok((1, 0))),
    (Some(0), Some(1), Ok((1, 0))),
    (Some(2), Some(1), Ok((2, 0))),
    (Some(2), Some(3), Ok((3, 0))),
    (Some(8), Some(3), Ok((8, 0))),
    (Some(9), Some(3), Ok((3, 0))),
    (Some(2), Some(8), Ok((2, 0))),
];

const WITHOUT_A_ROOT: [Row; 4] = [
    (Some(1), Some(2), Err(Refusal::NotFormatted)),
    (Some(1), None, Err(Refusal::NotFormatted)),
    (None, Some(0), Err(Refusal::NotFormatted)),
    (None, None, Err(Refusal::NotFormatted)),
];

const OF_ANOTHER_SIZE: [(u64, Row); 7] = [
    (5, (Some(0), Some(1), Err(Refusal::Mismatch))),
    (3, (Some(0), Some(1), Err(Refusal::Mismatch))),
    (2, (None, Some(1), Err(Refusal::Mismatch))),
    (1, (Some(0), None, Err(Refusal::Mismatch))),
    (1, (Some(1), None, Err(Refusal::NotFormatted))),
    (5, (None, None, Err(Refusal::NotFormatted))),
    (0, (None, None, Err(Refusal::NotFormatted))),
];

fn are_read(alloc: Global, rows: &[Row]) -> bool {
    for (first, second, newest) in rows {
        if read_roots(alloc, 4, *first, *second) != *newest {
            return false;
        }
    }
    true
}

#[test]
fn the_newest_root_in_its_slot_counts_where_it_has_the_size(rt: HostRuntime) {
    assert!(rt; are_read(rt.alloc(), &OF_ITS_SIZE));
    assert!(rt; are_read(rt.alloc(), &WITHOUT_A_ROOT));
    for (sectors, (first, second, newest)) in OF_ANOTHER_SIZE {
        assert!(rt; read_roots(rt.alloc(), sectors, first, second) == newest);
    }
}

/// What is read of a device with two generations, each with a leaf of its own, where one byte is another.
fn read_two(alloc: Global, damaged: u64, offset: usize) -> Result<(u64, usize), Refusal> {
    let mut disk = MemDisk::new(alloc, 4)?;
    let mut sectors = [
        root_sector(2, 3),
        root_sector(1, 2),
        leaf_sector(1),
        leaf_sector(2),
    ];
    for at in 0..4 {
        if at as u64 == damaged && offset < 512 {
            sectors[at][offset] = 0xff;
        }
        put(&mut disk, at as u64, &sectors[at])?;
    }
    read(alloc, &mut disk)
}

#[test]
fn the_older_root_is_not_taken_for_a_newer_one_with_a_damaged_tree(rt: HostRuntime) {
    for (damaged, offset, answer) in [
        (4, 0, Ok((2, 1))),
        (3, 0, Err(Refusal::Damaged(Place(3)))),
        (3, 32, Err(Refusal::Damaged(Place(3)))),
        (2, 0, Ok((2, 1))),
        (1, 0, Ok((2, 1))),
        (0, 0, Ok((1, 1))),
        (0, 44, Ok((1, 1))),
    ] {
        assert!(rt;
            read_two(rt.alloc(), damaged, offset) == answer,
            "{damaged} {offset}"
        );
    }
}
