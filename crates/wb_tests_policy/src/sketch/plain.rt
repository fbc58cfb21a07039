//! The rules of a sketch for 20 cache blocks, said a second time: tables, and loops over them.

use std::alloc::{AllocError, Global};

const ROW_CONSTANTS: [u128; 4] = [
    0x9E37_79B9_7F4A_7C15,
    0xC2B2_AE3D_27D4_EB4F,
    0x1656_67B1_9E37_79F9,
    0xD6E8_FEB8_6659_FD93,
];

const DOOR_CONSTANTS: [u128; 2] = [0xFF51_AFD7_ED55_8CCD, 0xC4CE_B9FE_1A85_EC53];

/// 2^64.
const MODULUS: u128 = 0x1_0000_0000_0000_0000;

/// A row has 32 places: the highest 5 of 64 bits.
const ROW_UNIT: u128 = 0x0800_0000_0000_0000;

/// The doorkeeper has 256 places: the highest 8 of 64 bits.
const DOOR_UNIT: u128 = 0x0100_0000_0000_0000;

/// At this sample all is halved.
const LIMIT: u32 = 160;

/// Four rows of 32 counters one after the other, and 256 bits.
#[derive(Drop)]
pub(crate) struct Plain {
    counters: Vec<u8>,
    bits: Vec<bool>,
    pub(crate) sample: u32,
}

impl Plain {
    pub(crate) fn new(alloc: Global) -> Result<Plain, AllocError> {
        Ok(Plain {
            counters: vec![in alloc; 0; 128]?,
            bits: vec![in alloc; false; 256]?,
            sample: 0,
        })
    }

    pub(crate) fn add(&mut self, x: u32) {
        if self.knows(x) {
            let least = self.least(x);
            for (row, constant) in ROW_CONSTANTS.iter().enumerate() {
                if let Some(counter) = self.counters.get_mut(row_place(row, *constant, x))
                    && *counter == least
                    && *counter < 15
                {
                    *counter += 1;
                }
            }
        } else {
            for constant in DOOR_CONSTANTS {
                if let Some(bit) = self.bits.get_mut(door_place(constant, x)) {
                    *bit = true;
                }
            }
        }
        self.sample = self.sample.wrapping_add(1);
        if self.sample == LIMIT {
            self.reset();
        }
    }

    pub(crate) fn estimate(&self, x: u32) -> u8 {
        let least = self.least(x);
        if self.knows(x) {
            least.wrapping_add(1)
        } else {
            least
        }
    }

    /// The counters of row 1, 2, 3 or 4, sixteen to a word: the first is a word's last hexadecimal digit.
    pub(crate) fn words(&self, number: usize) -> [u64; 2] {
        let mut words = [0u64; 2];
        for place in 0..32usize {
            let first = number.wrapping_sub(1).wrapping_mul(32);
            let counter = self.counters.get(first.wrapping_add(31 - place));
            let word = &mut words[(31 - place) / 16];
            *word = word
                .wrapping_mul(16)
                .wrapping_add(counter.map_or(0, |counter| u64::from(*counter)));
        }
        words
    }

    fn knows(&self, x: u32) -> bool {
        let mut known = true;
        for constant in DOOR_CONSTANTS {
            if self.bits.get(door_place(constant, x)) != Some(&true) {
                known = false;
            }
        }
        known
    }

    fn least(&self, x: u32) -> u8 {
        let mut least = 255;
        for (row, constant) in ROW_CONSTANTS.iter().enumerate() {
            if let Some(counter) = self.counters.get(row_place(row, *constant, x))
                && *counter < least
            {
                least = *counter;
            }
        }
        least
    }

    fn reset(&mut self) {
        for counter in self.counters.iter_mut() {
            *counter /= 2;
        }
        for bit in self.bits.iter_mut() {
            *bit = false;
        }
        self.sample /= 2;
    }
}

fn row_place(row: usize, constant: u128, x: u32) -> usize {
    let highest = constant.wrapping_mul(u128::from(x)) % MODULUS / ROW_UNIT;
    row.wrapping_mul(32).wrapping_add(highest as usize)
}

fn door_place(constant: u128, x: u32) -> usize {
    (constant.wrapping_mul(u128::from(x)) % MODULUS / DOOR_UNIT) as usize
}
