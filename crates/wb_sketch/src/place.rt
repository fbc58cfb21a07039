//! Where a block stands in a row or in the doorkeeper.

ghost use Rattle.std.specs.Prelude.{◌≡◌, ◌≤◌, ◌<◌, ◌^◌};
ghost use Rattle.wb_sketch.specs.Places.{place_of};

use wb_types::OBlock;

/// The constants of the four rows, by which blocks are spread over their counters.
pub const ROW1: u64 = 0x9E37_79B9_7F4A_7C15;

pub const ROW2: u64 = 0xC2B2_AE3D_27D4_EB4F;

pub const ROW3: u64 = 0x1656_67B1_9E37_79F9;

pub const ROW4: u64 = 0xD6E8_FEB8_6659_FD93;

/// The constants of the two places in the doorkeeper.
pub const DOOR1: u64 = 0xFF51_AFD7_ED55_8CCD;

pub const DOOR2: u64 = 0xC4CE_B9FE_1A85_EC53;

/// Where a block has its counters, one in each row.
#[derive(Clone, Copy)]
pub(crate) struct Places {
    pub(crate) row1: usize,
    pub(crate) row2: usize,
    pub(crate) row3: usize,
    pub(crate) row4: usize,
}

/// The place of a block among `2^bits`: the highest bits of its product with a constant, modulo 2^64.
pub fn place(block: OBlock, constant: u64, bits: u32) -> usize
    requires from { 1 ≤ bits }
    requires to { bits ≤ 32 }
    ensures value { result ≡ place_of constant bits block.0 }
    ensures within { result < 2 ^ bits }
{
    let OBlock(number) = block;
    (u64::from(number).wrapping_mul(constant) >> (64 - bits)) as usize
}
