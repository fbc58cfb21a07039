//! Sectors as words, and what they are filled with.

ghost use Rattle.std.specs.Prelude.{ℕ, IfSome, IfNone};
ghost use Rattle.wb_table.specs.Sectors.{SpellsSectors, SpellsFill};
ghost use Rattle.wb_table.specs.Words.{words_of};

use crate::number::{read_byte, read_number};
use crate::words::SplitSpaces;
use wb_types::Sector;

/// Reads a sector and a number of sectors, and nothing behind them.
pub fn read_sectors(mut words: SplitSpaces<'_>) -> Option<(Sector, u64)>
    ensures found { IfSome result (λ read. SpellsSectors (words_of words.entry.0.now) read.0.0 read.1) }
    ensures none { IfNone result ((at count : ℕ) → ¬ SpellsSectors (words_of words.entry.0.now) at count) }
{
    let at = Sector(read_number(words.next()?)?);
    let count = read_number(words.next()?)?;
    words.expect_end()?;
    Some((at, count))
}

/// Reads a sector, a number of sectors and a byte, and nothing behind them.
pub fn read_fill(mut words: SplitSpaces<'_>) -> Option<(Sector, u64, u8)>
    ensures found { IfSome result (λ read. SpellsFill (words_of words.entry.0.now) read.0.0 read.1 read.2) }
    ensures none { IfNone result ((at count fill : ℕ) → ¬ SpellsFill (words_of words.entry.0.now) at count fill) }
{
    let at = Sector(read_number(words.next()?)?);
    let count = read_number(words.next()?)?;
    let fill = read_byte(words.next()?)?;
    words.expect_end()?;
    Some((at, count, fill))
}
