//! Runs and places that were worked by hand, and the rules once more as a plain program.

mod plain;

use plain::Plain;
use std::alloc::Global;
use std::test::Fail;
use wb_sketch::place::{DOOR1, DOOR2, ROW1, ROW2, ROW3, ROW4, place};
use wb_sketch::{Sketch, halve};
use wb_types::{OBlock, Refusal};

type Run = (u32, u32, u8, u32, u64);

/// What a sketch says of block 7 after so many accesses to it alone: estimate, sample and, for a sketch of
/// four cache blocks, the one word of row 1.
const RUNS: [Run; 12] = [
    (4, 0, 0, 0, 0),
    (4, 1, 1, 1, 0),
    (4, 2, 2, 2, 0x10_0000),
    (4, 15, 15, 15, 0xe0_0000),
    (4, 16, 16, 16, 0xf0_0000),
    (4, 17, 16, 17, 0xf0_0000),
    (4, 63, 16, 63, 0xf0_0000),
    (4, 64, 7, 32, 0x70_0000),
    (4, 65, 8, 33, 0x70_0000),
    (9, 71, 16, 71, 0xf0_0000),
    (9, 72, 7, 36, 0x70_0000),
    (9, 73, 8, 37, 0x70_0000),
];

fn add(sketch: &mut Sketch, times: u32) {
    for _ in 0..times {
        sketch.add(OBlock(7));
    }
}

fn shows(sketch: &Sketch, estimate: u8, sample: u32, word: u64) -> bool {
    let seen = sketch.estimate(OBlock(7)) == estimate && sketch.sample() == sample;
    seen && sketch.row(1) == [word].as_slice()
}

/// The number of the first run that comes out otherwise.
fn first_wrong(alloc: Global, runs: &[Run]) -> Result<Option<usize>, Refusal> {
    for (number, (cache_blocks, times, estimate, sample, word)) in runs.iter().enumerate() {
        let mut sketch = Sketch::new(alloc, (*cache_blocks).min(64))?;
        add(&mut sketch, *times);
        if !shows(&sketch, *estimate, *sample, *word) {
            return Ok(Some(number));
        }
    }
    Ok(None)
}

#[test]
fn a_block_accessed_past_the_reset(rt: HostRuntime) -> Result<(), Fail> {
    let wrong = first_wrong(rt.alloc(), &RUNS)?;
    assert!(rt; wrong.is_none(), "run {wrong:?}");
    Ok(())
}

#[test]
fn words_are_halved_counter_by_counter(rt: HostRuntime) {
    let table = [
        (0x01ef, 0x0077),
        (0, 0),
        (u64::MAX, 0x7777_7777_7777_7777),
        (0x1111_1111_1111_1111, 0),
        (0xf0f0_0000_0000_0001, 0x7070_0000_0000_0000),
    ];
    for (word, half) in table {
        assert!(rt; halve(word) == half, "of {word}");
    }
}

#[test]
fn places_of_the_smallest_sketch(rt: HostRuntime) {
    let table = [
        (0, 0, 0, 0),
        (1, 9, 127, 98),
        (2, 3, 127, 68),
        (3, 13, 126, 39),
        (4, 7, 126, 9),
        (5, 1, 126, 108),
        (6, 11, 125, 78),
        (7, 5, 125, 48),
        (8, 15, 125, 19),
        (9, 8, 124, 117),
    ];
    for (x, row1, door1, door2) in table {
        let found = (
            place(OBlock(x), ROW1, 4),
            place(OBlock(x), DOOR1, 7),
            place(OBlock(x), DOOR2, 7),
        );
        assert!(rt; found == (row1, door1, door2), "of block {x}");
    }
    for (x, row2, row3, row4) in [(1, 12, 1, 13), (2, 8, 2, 10), (3, 4, 4, 8)] {
        let found = (
            place(OBlock(x), ROW2, 4),
            place(OBlock(x), ROW3, 4),
            place(OBlock(x), ROW4, 4),
        );
        assert!(rt; found == (row2, row3, row4), "of block {x}");
    }
}

fn has_rows(sketch: &Sketch, plain: &Plain) -> bool {
    for number in 1..5usize {
        if sketch.row(number) != plain.words(number).as_slice() {
            return false;
        }
    }
    true
}

fn estimates(sketch: &Sketch, plain: &Plain, block: u32) -> bool {
    sketch.estimate(OBlock(block)) == plain.estimate(block)
}

/// Adds an access to both: whether they agree then, of its block and of another one.
fn agree(sketch: &mut Sketch, plain: &mut Plain, x: u32, other: u32) -> bool {
    sketch.add(OBlock(x));
    plain.add(x);
    let counted = estimates(sketch, plain, x) && estimates(sketch, plain, other);
    counted && sketch.sample() == plain.sample && has_rows(sketch, plain)
}

/// Whether both agree after each of so many pseudo-random accesses.
fn agree_throughout(sketch: &mut Sketch, plain: &mut Plain, accesses: u32) -> bool {
    let mut state = 1u64;
    for _ in 0..accesses {
        state = state
            .wrapping_mul(6_364_136_223_846_793_005)
            .wrapping_add(1_442_695_040_888_963_407);
        let x = ((state >> 33) & (state >> 45) & 127) as u32;
        let other = ((state >> 52) & 127) as u32;
        if !agree(sketch, plain, x, other) {
            return false;
        }
    }
    true
}

/// The same of a sketch for 20 cache blocks.
fn count_alike(alloc: Global, accesses: u32) -> Result<bool, Refusal> {
    let mut sketch = Sketch::new(alloc, 20)?;
    let mut plain = Plain::new(alloc)?;
    Ok(agree_throughout(&mut sketch, &mut plain, accesses))
}

/// Over 4,000 accesses, 49 resets among them, the sketch and the plain program agree, also in each of the
/// four rows' counters.
#[test]
fn random_accesses_as_the_plain_program_counts_them(rt: HostRuntime) -> Result<(), Fail> {
    assert!(rt; count_alike(rt.alloc(), 4000)?);
    Ok(())
}
