//! Room for the sectors of a part of a request.

ghost use Rattle.std.specs.Prelude.{◌≡◌, IfErr, OnOk, length, replicate};

use crate::shown::LINES;
use std::alloc::Global;
use wb_types::{Content, Refusal, SECTOR_BYTES};

/// Room for so many sectors is kept from one line to the next: 128 KiB.
const MOST_KEPT: usize = 256;

/// The sectors of a part, on their way to a client or from it, and where their lines are laid.
#[derive(Drop)]
pub struct Room {
    alloc: Global,
    pub contents: Vec<Content>,
    pub lines: [u8; LINES],
}

impl Room {
    /// None yet.
    pub fn new(alloc: Global) -> Room {
        Room {
            alloc,
            contents: Vec::new(alloc),
            lines: [0; LINES],
        }
    }

    /// Makes it so many sectors, whatever they hold.
    pub fn make(&mut self, count: u64) -> Result<(), Refusal>
        ensures many { OnOk result (length self.new.contents.items ≡ count) }
        ensures refused { IfErr result (λ refusal. refusal ≡ Refusal.Memory) }
    {
        if self.contents.len() as u64 != count {
            self.contents.resize(count as usize, [0; SECTOR_BYTES])?;
        }
        Ok(())
    }

    /// Makes it so many sectors that are filled with this byte.
    pub fn fill(&mut self, count: u64, fill: u8) -> Result<(), Refusal>
        ensures filled { OnOk result (self.new.contents.items ≡ replicate count (replicate 512 fill)) }
        ensures many { OnOk result (length self.new.contents.items ≡ count) }
        ensures refused { IfErr result (λ refusal. refusal ≡ Refusal.Memory) }
    {
        self.make(count)?;
        fill_each(self.contents.as_mut_slice(), fill);
        Ok(())
    }

    /// Gives back the memory of a large part.
    pub fn trim(&mut self) {
        if self.contents.capacity() > MOST_KEPT {
            self.contents = Vec::new(self.alloc);
        }
    }
}

/// Fills each of these sectors with a byte.
fn fill_each(contents: &mut [Content], fill: u8)
    ensures { contents.new ≡ replicate (length contents.old) (replicate 512 fill) }
{
    for content in contents.iter_mut() {
        *content = [fill; SECTOR_BYTES];
    }
}
