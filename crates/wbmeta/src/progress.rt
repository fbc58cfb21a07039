//! How far a long task has come, for who looks on at a terminal.

/// How many marks a whole bar has.
const MARKS: u64 = 40;

/// A bar on standard error that is drawn over itself; none where nobody looks on.
#[derive(Drop)]
pub struct Progress<'a, T> {
    pub rt: &'a T,
    /// Whether somebody looks on.
    pub is_shown: bool,
}

impl<'a, T: Eprint> Progress<'a, T> {
    /// Shows how many blocks of all are done.
    pub fn show(&self, done: u32, all: u32) {
        if !self.is_shown || all == 0 {
            return;
        }
        let full = u64::from(done) * MARKS / u64::from(all);
        let _ = eprint!(self.rt; "\r[");
        for mark in 0..MARKS {
            let _ = eprint!(self.rt; "{}", if mark < full { '#' } else { '.' });
        }
        let _ = eprint!(self.rt; "] {done} of {all} blocks");
    }

    /// Ends the line of the bar.
    pub fn end_line(&self) {
        if self.is_shown {
            let _ = eprintln!(self.rt; "");
        }
    }
}
