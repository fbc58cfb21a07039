//! What is told while it serves, for who reads standard error.

ghost use Rattle.std.specs.Prelude.{◌≡◌};

use std::io;
use std::sync::atomic::{AtomicU64, Ordering};
use wb_files::{Alarm, MarkPlace};
use wb_types::{Geometry, Refusal};

/// The program's name, as its messages have it.
pub const PROGRAM: &str = "wbnbd";

/// Tells what was opened, the first failure of each device, and how the cache stands at the end. Whoever tells writes a line at once.
#[derive(Drop)]
pub struct Teller<'a, T, E> {
    pub rt: &'a T,
    log: &'a E,
    /// Whether only what went wrong is told.
    quiet: bool,
    /// How often it was told what was opened.
    opened: AtomicU64,
    /// Of devices that fail.
    pub alarm: Alarm<'a, E>,
}

impl<'a, T, E: Eprint> Teller<'a, T, E> {
    pub fn new(rt: &'a T, log: &'a E, quiet: bool, mark: &'a MarkPlace) -> Teller<'a, T, E> {
        Teller {
            rt,
            log,
            quiet,
            opened: AtomicU64::new(0),
            alarm: Alarm::new(log, PROGRAM, Some(mark)),
        }
    }

    /// Whether everything is told.
    pub fn is_asked(&self) -> bool {
        !self.quiet
    }

    /// Whether nobody has told yet what was opened; from now on somebody has.
    pub fn begins(&self) -> bool {
        !self.quiet && self.opened.fetch_add(1, Ordering::SeqCst) == 0
    }

    /// The cache is open, with so many blocks mapped and so many of them dirty.
    pub fn opened(&self, geometry: &Geometry, mapped: u32, dirty: u32) {
        let (sectors, cache_blocks) = (geometry.origin_sectors(), geometry.cache_blocks);
        let _ = eprintln!(self.log;
            "wbnbd: opened {sectors} sectors; {mapped} of {cache_blocks} cache blocks mapped, {dirty} dirty"
        );
    }

    /// The status line of the cache at the end, or what a line of the control file was answered.
    pub fn say(&self, text: &str) {
        let _ = eprintln!(self.log; "wbnbd: {text}");
    }

    /// What a line of the control file was refused for.
    pub fn refused(&self, refusal: Refusal) {
        let _ = eprintln!(self.log; "wbnbd: refused {refusal}");
    }

    /// The control file cannot be read, and is read no more.
    pub fn unread(&self, error: &io::Error) {
        let _ = eprintln!(self.log; "wbnbd: control file: {error}");
    }
}
