//! Words, two small devices and a desk of one owner.

ghost use Rattle.wb_tasks.specs.Plan.{Fits};
ghost use Rattle.wb_tasks.specs.declared.step.Want.TheVariants.{Cell, Device, Desk};

use super::row::Row;
use std::alloc::Global;
use wb_tasks::*;
use wb_types::{CBlock, Dev, Extent, OBlock, Refusal};
use wb_words::{Access, Word, seal_word};

/// The block that the tests are on. It has the origin's sectors 128 to 191.
pub const BLOCK: OBlock = OBlock(2);

/// The sectors of a block.
pub const BLOCK_SECTORS: u32 = 64;

/// The words of the one block that the requests are on, by their names, and the statistics.
#[derive(Clone, Copy)]
pub struct BlockWords {
    pub cell: u64,
    pub seal: u64,
    pub number: u64,
    pub counted: u64,
    pub fail: u64,
}

/// Performs steps, and notes which were wanted.
#[derive(Drop)]
pub struct Bench {
    pub words: BlockWords,
    /// What all bytes of each sector are.
    pub origin: [u8; 192],
    pub cache: [u8; 192],
    /// What was read last; the next write writes it.
    pub gave: u8,
    /// Whether the mapping has the block, and whether the migration has its order.
    pub is_mapped: bool,
    pub has_order: bool,
    pub wants: Vec<Want>,
    /// How many steps on a device there were, and the one that fails.
    moved: u32,
    fails: Option<u32>,
    /// A word that another has left at this value.
    shows: Option<(Word, u64)>,
    /// Another shares the block before this one's exchange.
    is_raced: bool,
    /// The desk has no memory for an entry.
    is_full: bool,
}

impl Bench {
    pub fn new(alloc: Global, row: &Row) -> Result<Bench, Refusal> {
        // A mapped block stands in cache block 1, which has the cache's sectors 64 to 127.
        let seal = match row.mapped {
            Some(dirty) => seal_word(Some(CBlock(1)), dirty),
            None => 0,
        };
        Ok(Bench {
            words: BlockWords {
                cell: 0,
                seal,
                number: 0,
                counted: 0,
                fail: 0,
            },
            origin: [1; 192],
            cache: [2; 192],
            gave: 3,
            is_mapped: row.mapped.is_some(),
            has_order: matches!(row.job, Work::Migrate(_)),
            wants: Vec::with_capacity(alloc, 160)?,
            moved: 0,
            fails: row.fails,
            shows: row.shows,
            is_raced: row.is_raced,
            is_full: row.is_full,
        })
    }

    /// The value of a word, as somebody may have left it.
    pub fn look(&self, word: Word) -> u64 {
        if let Some((shown, value)) = self.shows {
            if shown == word {
                return value;
            }
        }
        match word {
            Word::Cell(_) => self.words.cell,
            Word::Seal(_) => self.words.seal,
            Word::Number(_) => self.words.number,
            Word::Count(_) => self.words.counted,
            Word::Fail => self.words.fail,
        }
    }

    fn device(&mut self, step: DeviceStep) -> Got
        ensures { Fits (Device step) result }
    {
        let number = self.moved;
        self.moved = number.saturating_add(1);
        if self.fails == Some(number) {
            return Got::Fault;
        }
        match step {
            DeviceStep::Read(device, extent) => self.read(device, extent),
            DeviceStep::Write(device, extent) => self.write(device, extent),
            _ => {}
        }
        Got::Done
    }

    fn read(&mut self, device: Dev, extent: Extent) {
        for at in extent.first..extent.first.saturating_add(extent.count) {
            self.gave = match self.sectors(device).get(at as usize) {
                Some(sector) => *sector,
                None => 0,
            };
        }
    }

    fn write(&mut self, device: Dev, extent: Extent) {
        let gave = self.gave;
        for at in extent.first..extent.first.saturating_add(extent.count) {
            if let Some(sector) = self.sectors(device).get_mut(at as usize) {
                *sector = gave;
            }
        }
    }

    fn sectors(&mut self, device: Dev) -> &mut [u8] {
        match device {
            Dev::Cache => &mut self.cache,
            _ => &mut self.origin,
        }
    }

    fn cell(&mut self, step: CellStep) -> Got
        ensures { Fits (Cell step) result }
    {
        match step {
            CellStep::Look(word) => return Got::Word(self.look(word)),
            CellStep::Take(access, _, seen) => {
                if self.is_raced {
                    self.words.cell = self.words.cell.wrapping_add(2);
                }
                if self.words.cell != seen {
                    return Got::Lost;
                }
                let more = if access == Access::Shared { 2 } else { 1 };
                self.words.cell = seen.wrapping_add(more);
            }
            CellStep::Release(access, _) => {
                let less = if access == Access::Shared { 2 } else { 1 };
                self.words.cell = self.words.cell.wrapping_sub(less);
            }
            CellStep::Seal(_, place, dirty) => self.words.seal = seal_word(place, dirty),
            CellStep::Finish(_) => self.words.number = self.words.number.wrapping_add(1),
            CellStep::Count(_) => self.words.counted = self.words.counted.wrapping_add(1),
            CellStep::SetFailed => self.words.fail |= 1,
            CellStep::SetSuspended => self.words.fail |= 2,
        }
        Got::Done
    }
}

impl Bench {
    fn desk(&mut self, step: DeskStep) -> Got
        ensures { Fits (Desk step) result }
    {
        match step {
            DeskStep::Map(_, _) if self.is_full => return Got::Refused(Refusal::Memory),
            DeskStep::Map(_, _) => {
                self.is_mapped = true;
                self.has_order = false;
            }
            DeskStep::Unmap(_) => {
                self.is_mapped = false;
                self.has_order = false;
            }
            DeskStep::ReleaseOrder(_) => self.has_order = false,
            DeskStep::Arrive(_) | DeskStep::Ask(_) | DeskStep::BeginCommit(_) => {
                return Got::Began(0);
            }
            DeskStep::EndCommit | DeskStep::BreakCommit => {}
        }
        Got::Done
    }
}

impl Stage for Bench {
    ghost ready = { λ _ _. Unit {0} };

    ghost led = { λ _ _ _ _. Unit {0} };

    fn perform(&mut self, want: &Want) -> Got {
        let _ = self.wants.push(*want);
        match *want {
            Want::Cell(step) => self.cell(step),
            Want::Device(step) => self.device(step),
            Want::Desk(step) => self.desk(step),
            Want::End(_) => unreachable!(),
        }
    }
}
