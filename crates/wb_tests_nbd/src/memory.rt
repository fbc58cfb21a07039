//! An export in memory, one call of which may fail.

ghost use Rattle.std.specs.Prelude.{◌≡◌, length};

use std::alloc::{AllocError, Global};
use wb_nbd::{Errno, Export};
use wb_types::{Content, SECTOR_BYTES, Sector};

/// Sectors in memory.
#[derive(Drop)]
pub struct Memory {
    pub content: Vec<Content>,
    /// The calls so far, and how many flushes were among them.
    pub calls: u64,
    pub flushes: u64,
    /// The call that fails, counted from 0, and how.
    pub fault: Option<(u64, Errno)>,
}

impl Memory {
    /// Eight sectors, each full of its number.
    pub fn new(alloc: Global, fault: Option<(u64, Errno)>) -> Result<Memory, AllocError> {
        let mut content = Vec::new(alloc);
        for number in 0..8u8 {
            content.push([number; SECTOR_BYTES])?;
        }
        Ok(Memory {
            content,
            calls: 0,
            flushes: 0,
            fault,
        })
    }

    /// Counts a call, and gives the error of one that fails.
    fn call(&mut self) -> Result<(), Errno>
        ensures { length self.new.content.items ≡ length self.old.content.items }
    {
        let number = self.calls;
        self.calls = number.saturating_add(1);
        match self.fault {
            Some((at, errno)) if at == number => Err(errno),
            _ => Ok(()),
        }
    }
}

impl Export for Memory {
    ghost size = { λ memory. length memory.content.items };

    ghost acts = { λ old act new. Unit {0} };

    fn sectors(&self) -> u64 {
        self.content.len() as u64
    }

    fn read(&mut self, at: Sector, out: &mut [Content]) -> Result<(), Errno> {
        self.call()?;
        let Sector(first) = at;
        for i in 0..out.len() {
            out[i] = self.content[first as usize + i];
        }
        Ok(())
    }

    fn write(&mut self, at: Sector, from: &[Content]) -> Result<(), Errno> {
        self.call()?;
        let Sector(first) = at;
        for i in 0..from.len() {
            self.content[first as usize + i] = from[i];
        }
        Ok(())
    }

    fn flush(&mut self) -> Result<(), Errno> {
        self.call()?;
        self.flushes = self.flushes.saturating_add(1);
        Ok(())
    }
}
