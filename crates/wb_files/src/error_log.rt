//! Standard error, for a program that does not wait for whoever reads it.

use crate::mark::{MarkPlace, Marker};
use crate::watched::Step;
use std::alloc::Global;
use std::fmt::{Display, Formatter, Write as _};
use std::fs::File;
use std::rt::Files;
use std::sync::{Arc, Condvar, Mutex, Wait};
use std::thread::Threads;
use std::time::{Clock, Duration};
use std::{fmt, io, mem, thread};
use wb_types::Dev;

/// Bytes that are kept for a reader that does not read, at most: 64 KiB. Messages past that are lost, and counted.
const MOST_HELD: usize = 65_536;

/// How long a program waits at its end for its messages to be read: a second, in steps of a millisecond.
const RESTS_AT_END: u32 = 1000;

/// Messages that are not written yet.
#[derive(Drop)]
struct Held {
    text: String,
    lost: u64,
    /// Whether the thread writes those that it took.
    is_writing: bool,
}

/// The messages, and the condition that some have come.
#[derive(Drop)]
struct Shared {
    held: Mutex<Held>,
    came: Condvar,
}

/// A log on standard error. A message is handed to a thread of the log's own, which is never joined: so a reader that does not read
/// delays neither replies nor the end of the program. Where there is no memory or no thread for that, messages are written at once.
///
/// Control characters of a message are written as `\x1b` is, so that a path or a word of a table cannot act on a terminal.
#[derive(Drop)]
pub struct ErrorLog<T> {
    rt: T,
    alloc: Global,
    shared: Option<Arc<Shared>>,
}

impl<T: Threads + Wait + Eprint + Copy + Send + 'static> ErrorLog<T> {
    /// A log in which there is no message, with its thread.
    pub fn new(rt: T, alloc: Global) -> ErrorLog<T> {
        let shared = Shared {
            held: Mutex::new(Held {
                text: String::new(alloc),
                lost: 0,
                is_writing: false,
            }),
            came: Condvar::new(),
        };
        ErrorLog {
            rt,
            alloc,
            shared: start(rt, alloc, shared),
        }
    }
}

/// Starts the thread that writes messages; none where there is no memory, or no thread can be made.
fn start<T: Threads + Wait + Eprint + Copy + Send + 'static>(
    rt: T,
    alloc: Global,
    shared: Shared,
) -> Option<Arc<Shared>> {
    let shared = Arc::new(alloc, shared).ok()?;
    let theirs = Arc::try_clone(&shared).ok()?;
    match thread::spawn(&rt, move || theirs.write_all(&rt, alloc)) {
        Ok(_) => Some(shared),
        Err(_) => None,
    }
}

impl<T: Wait + Clock> ErrorLog<T> {
    /// Waits until all messages are written, a second at most.
    pub fn finish(&self) {
        let Some(shared) = &self.shared else {
            return;
        };
        for _ in 0..RESTS_AT_END {
            if shared.is_written(&self.rt) {
                return;
            }
            thread::sleep(&self.rt, Duration::from_millis(1));
        }
    }
}

impl<T: Wait + Eprint> ErrorLog<T> {
    fn write<D: Display>(&self, value: &D, end: &str) -> io::Result<()> {
        let Some(shared) = &self.shared else {
            return self.rt.eprint(format_args!("{}{end}", Printable(value)));
        };
        let mut message = String::new(self.alloc);
        match write!(message, "{}{end}", Printable(value)) {
            Ok(()) => shared.add(&self.rt, message.as_str()),
            Err(_) => shared.lose(&self.rt),
        }
        Ok(())
    }
}

impl<T: Wait + Eprint> Eprint for ErrorLog<T> {
    fn eprint<D: Display + Drop>(&self, value: D) -> io::Result<()> {
        self.write(&value, "")
    }

    fn eprintln<D: Display + Drop>(&self, value: D) -> io::Result<()> {
        self.write(&value, "\n")
    }
}

impl<T: Files<File = File>> Marker for ErrorLog<T> {
    fn leave(
        &self,
        place: &MarkPlace,
        device: Dev,
        step: Step,
        reason: &io::Error,
    ) -> io::Result<()> {
        place.leave(&self.rt, device, step, reason)
    }
}

impl<T: Clock> Clock for ErrorLog<T> {
    fn monotonic(&self) -> io::Result<Duration> {
        self.rt.monotonic()
    }

    fn since_1970(&self) -> io::Result<Duration> {
        self.rt.since_1970()
    }

    fn sleep(&self, duration: Duration) {
        self.rt.sleep(duration)
    }
}

impl Shared {
    /// Adds a message where there is room, or counts it as lost.
    fn add<R: Wait>(&self, rt: &R, message: &str) {
        let mut guard = self.held.lock(rt);
        let held = &mut *guard;
        let fits = message.len() <= MOST_HELD.saturating_sub(held.text.len());
        if !fits || held.text.push_str(message).is_err() {
            held.lost = held.lost.saturating_add(1);
        }
        drop(guard);
        self.came.notify_all();
    }

    /// Counts a message as lost.
    fn lose<R: Wait>(&self, rt: &R) {
        let mut held = self.held.lock(rt);
        held.lost = held.lost.saturating_add(1);
    }

    /// Whether all messages are written.
    fn is_written<R: Wait>(&self, rt: &R) -> bool {
        let held = self.held.lock(rt);
        !held.is_writing && held.text.is_empty()
    }

    /// Writes messages as they come.
    fn write_all<R: Wait + Eprint>(&self, rt: &R, alloc: Global) {
        for _ in rt.forever() {
            let (text, lost) = self.next(rt, alloc);
            let _ = rt.eprint(text.as_str());
            if lost > 0 {
                let _ = rt.eprintln(format_args!("{lost} messages were lost"));
            }
        }
    }

    /// Waits for messages, and takes them.
    fn next<R: Wait>(&self, rt: &R, alloc: Global) -> (String, u64) {
        let mut guard = self.held.lock(rt);
        guard.is_writing = false;
        for _ in rt.forever() {
            if !guard.text.is_empty() {
                break;
            }
            guard = self.came.wait(rt, guard);
        }
        let held = &mut *guard;
        held.is_writing = true;
        let lost = held.lost;
        held.lost = 0;
        (mem::replace(&mut held.text, String::new(alloc)), lost)
    }
}

/// A value as it is printed, with its control characters escaped: `\x1b`. A return to the begin of the line stays, for a bar of progress.
#[derive(Drop)]
pub struct Printable<'a, D>(pub &'a D);

impl<'a, D: Display> Display for Printable<'a, D> {
    fn fmt<W: fmt::Write>(&self, f: &mut Formatter<W>) -> fmt::Result {
        let mut escaping = Escaping { to: f };
        write!(escaping, "{}", self.0)
    }
}

/// A writer that escapes control characters.
#[derive(Drop)]
struct Escaping<'f, F> {
    to: &'f mut F,
}

impl<'f, F: fmt::Write> fmt::Write for Escaping<'f, F> {
    fn write_str(&mut self, s: &str) -> fmt::Result {
        for c in s.chars() {
            if c.is_control() && c != '\r' {
                write!(self.to, "\\x{:02x}", u32::from(c))?;
            } else {
                self.to.write_char(c)?;
            }
        }
        Ok(())
    }
}
