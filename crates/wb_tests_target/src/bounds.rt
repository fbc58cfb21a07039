//! A bound for tests whose clients may wait for one another.

use std::process::Abort;
use std::sync::atomic::{AtomicU64, Ordering};
use std::thread;
use std::time::{Clock, Duration};

/// Waits until so many have come, at most 20,000 turns of one millisecond: whether they did.
fn have_come(clock: &impl Clock, come: &AtomicU64, wanted: u64) -> bool {
    for _ in 0..20_000 {
        if come.load(Ordering::SeqCst) >= wanted {
            return true;
        }
        thread::sleep(clock, Duration::from_millis(1));
    }
    false
}

/// Waits until so many have ended, and ends the test if they do not: nothing else would end one in which a client sleeps for ever.
pub fn end_with<R: Clock + Abort>(rt: &R, ended: &AtomicU64, wanted: u64) {
    if !have_come(rt, ended, wanted) {
        panic!(rt; "a client waits that nobody wakes");
    }
}
