//! How long it is waited for files that another program holds.

use std::thread;
use std::time::{Clock, Duration};

/// How long a rest is, in milliseconds, and how many there are in a second.
const REST: u64 = 20;

const RESTS_OF_A_SECOND: u32 = 50;

/// Whether it is waited for a lock.
pub trait Patience {
    /// Rests a while, where there is any left: whether the lock is to be tried again.
    fn rest(&mut self) -> bool;
}

/// None: a lock is tried once.
#[derive(Drop)]
pub struct Hurry;

impl Patience for Hurry {
    fn rest(&mut self) -> bool {
        false
    }
}

/// Some seconds, for all files of a table together.
#[derive(Drop)]
pub struct Patient<'c, C> {
    clock: &'c C,
    rests: u32,
}

impl<'c, C: Clock> Patient<'c, C> {
    /// So many seconds.
    pub fn new(clock: &'c C, seconds: u32) -> Patient<'c, C> {
        Patient {
            clock,
            rests: seconds.saturating_mul(RESTS_OF_A_SECOND),
        }
    }
}

impl<'c, C: Clock> Patience for Patient<'c, C> {
    fn rest(&mut self) -> bool {
        if self.rests == 0 {
            return false;
        }
        self.rests -= 1;
        thread::sleep(self.clock, Duration::from_millis(REST));
        true
    }
}
