//! How long something took.

use std::time::{Clock, Instant};

/// The nanoseconds since then; 0 where the clock cannot be read.
pub fn passed<C: Clock>(clock: &C, start: &Instant) -> u64 {
    match start.elapsed(clock) {
        Ok(took) => took
            .as_secs()
            .wrapping_mul(1_000_000_000)
            .wrapping_add(u64::from(took.subsec_nanos())),
        Err(_) => 0,
    }
}
