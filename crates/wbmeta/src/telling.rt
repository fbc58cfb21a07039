//! What is printed of metadata.

use crate::found::{Counted, Found, is_dirty};
use crate::progress::Progress;
use crate::verifying::Hearer;
use std::alloc::{AllocError, Global};
use std::fmt;
use std::fmt::{Display, Formatter, Write as _};
use std::io::Write;
use wb_types::{CBlock, Entry, OBlock, Refusal};

/// The greatest hint.
const MOST: u8 = 16;

/// How many blocks that stayed dirty are named, at most.
const MOST_NAMED: u64 = 64;

/// Lines are held up to so many bytes before they are written: 64 KiB.
pub const MOST_HELD: usize = 65_536;

/// What could not be told: the text lacks memory, or it cannot be written.
#[derive(Clone, Copy)]
pub enum Untold {
    Memory,
    Writer,
}

impl From<AllocError> for Untold {
    fn from(_: AllocError) -> Untold {
        Untold::Memory
    }
}

impl Display for Counted {
    /// `ok <generation> <clean|unclean> <mapped> <dirty>`.
    fn fmt<W: fmt::Write>(&self, f: &mut Formatter<W>) -> fmt::Result {
        let (generation, mapped, dirty) = (self.generation, self.mapped, self.dirty);
        let clean = if self.clean { "clean" } else { "unclean" };
        write!(f, "ok {generation} {clean} {mapped} {dirty}")
    }
}

/// Writes `ok ..` or `refused ..` on a line.
pub fn tell<W: Write>(
    alloc: Global,
    counted: Result<Counted, Refusal>,
    writer: &mut W,
) -> Result<(), Untold> {
    let mut text = String::new(alloc);
    match counted {
        Ok(counted) => writeln!(text, "{counted}")?,
        Err(refusal) => writeln!(text, "refused {refusal}")?,
    }
    send(&text, writer)
}

/// Writes `ok <blocks>` on a line.
pub fn tell_verified<W: Write>(alloc: Global, blocks: u32, writer: &mut W) -> Result<(), Untold> {
    let mut text = String::new(alloc);
    writeln!(text, "ok {blocks}")?;
    send(&text, writer)
}

/// Writes a line for each mapped block, `<cache block> <origin block> <clean|dirty> <hint>`, as an opening takes it: without the clean flag dirty,
/// and without a hint.
pub fn dump<W: Write>(alloc: Global, found: &Found, writer: &mut W) -> Result<(), Untold> {
    let mut text = String::with_capacity(alloc, 64)?;
    for (c, entry) in found.entries.iter().enumerate() {
        if let Some(entry) = entry {
            text.clear();
            write_entry(&mut text, found.clean, c, entry)?;
            send(&text, writer)?;
        }
    }
    Ok(())
}

fn write_entry(text: &mut String, clean: bool, c: usize, entry: &Entry) -> Result<(), AllocError> {
    let OBlock(b) = entry.origin;
    let hint = hint_of(clean, entry);
    let word = if is_dirty(clean, Some(*entry)) {
        "dirty"
    } else {
        "clean"
    };
    writeln!(text, "{c} {b} {word} {hint}")
}

/// The hint that an opening takes.
fn hint_of(clean: bool, entry: &Entry) -> u8 {
    if clean { entry.hint } else { 0 }
}

/// Writes how many mapped blocks have each hint, for who reads a terminal: `hint <hint> <blocks>`, where there are such.
pub fn summarize<W: Write>(alloc: Global, found: &Found, writer: &mut W) -> Result<(), Untold> {
    let mut text = String::with_capacity(alloc, 64)?;
    for hint in 0..=MOST {
        let count = count_hints(found, hint);
        if count > 0 {
            text.clear();
            writeln!(text, "hint {hint} {count}")?;
            send(&text, writer)?;
        }
    }
    Ok(())
}

/// How many mapped blocks have this hint.
fn count_hints(found: &Found, hint: u8) -> usize {
    let clean = found.clean;
    found
        .entries
        .iter()
        .filter(|entry| has_hint(clean, **entry, hint))
        .count()
}

/// Whether a mapped block has this hint.
fn has_hint(clean: bool, entry: Option<Entry>, hint: u8) -> bool {
    match entry {
        Some(entry) => hint_of(clean, &entry) == hint,
        None => false,
    }
}

/// Tells of a comparison: on a writer what differs, and how far it has come.
#[derive(Drop)]
pub struct Teller<'a, T, W> {
    pub alloc: Global,
    pub writer: &'a mut W,
    pub progress: Progress<'a, T>,
    /// How many blocks are to be compared.
    pub all: u32,
}

impl<'a, T: Eprint, W: Write> Hearer for Teller<'a, T, W> {
    /// Writes `<cache block> <origin block> differs` on a line.
    fn differs(&mut self, at: CBlock, home: OBlock) -> bool {
        let mut text = String::new(self.alloc);
        writeln!(text, "{at} {home} differs").is_ok() && send(&text, self.writer).is_ok()
    }

    fn compared(&mut self, done: u32) {
        if done % 64 == 0 || done == self.all {
            self.progress.show(done, self.all);
        }
    }
}

/// Names on standard error the blocks that count as dirty, or the first of them.
pub fn name_dirty<R: Eprint>(rt: &R, found: &Found) {
    let mut named: u64 = 0;
    for (c, entry) in found.entries.iter().enumerate() {
        let (Some(entry), true) = (entry, is_dirty(found.clean, *entry)) else {
            continue;
        };
        if named == MOST_NAMED {
            let _ = eprintln!(rt;
                "wbmeta: and more: 'wbmeta dump' with the same table lists what is dirty"
            );
            return;
        }
        let home = entry.origin;
        let _ = eprintln!(rt;
            "wbmeta: cache block {c}, of origin block {home}, was not written home: it stays dirty"
        );
        named = named.saturating_add(1);
    }
}

fn send<W: Write>(text: &String, writer: &mut W) -> Result<(), Untold> {
    writer
        .write_all(text.as_bytes())
        .map_err(|_| Untold::Writer)
}
