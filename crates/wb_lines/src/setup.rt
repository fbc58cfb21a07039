//! The first line of a replay.

ghost use Rattle.std.specs.Prelude.{◌≡◌, Bool, IfSome, IfNone};
ghost use Rattle.wb_table.specs.Words.{words_of};
ghost use Rattle.wb_lines.specs.Lines.{SetsUp, version_words};
ghost use Rattle.wb_lines.specs.declared.setup.Setup.{Setup as Sizes};

use wb_table::{SplitSpaces, read_mode, read_number};
use wb_types::Mode;

/// The mode in which a replay opens its cache first, and the sizes of what it runs: a block in sectors, cache and origin in blocks, the metadata
/// in sectors; and whether these are of the second version.
#[derive(Clone, Copy)]
pub struct Setup {
    pub mode: Mode,
    pub block: u64,
    pub cache_blocks: u64,
    pub origin_blocks: u64,
    pub metadata_sectors: u64,
    pub metadata2: bool,
}

/// Reads `setup <mode> <block> <cache blocks> <origin blocks> <metadata sectors> [metadata2]`. None is any other line.
pub fn read_setup(line: &str) -> Option<Setup>
    ensures found { IfSome result (SetsUp (words_of line.now)) }
    ensures none { IfNone result ((setup : Sizes) → ¬ SetsUp (words_of line.now) setup) }
{
    let mut words = SplitSpaces(line);
    words.expect("setup")?;
    let mode = read_mode(words.next()?)?;
    let block = read_number(words.next()?)?;
    let cache_blocks = read_number(words.next()?)?;
    let origin_blocks = read_number(words.next()?)?;
    let metadata_sectors = read_number(words.next()?)?;
    let metadata2 = read_version(&mut words)?;
    Some(Setup {
        mode,
        block,
        cache_blocks,
        origin_blocks,
        metadata_sectors,
        metadata2,
    })
}

/// Whether what is left asks for metadata of the second version; none where it says something else.
pub(crate) fn read_version(words: &mut SplitSpaces<'_>) -> Option<bool>
    ensures found { IfSome result (λ second. words_of words.old.0.now ≡ version_words second) }
    ensures none { IfNone result ((second : Bool) → ¬ (words_of words.old.0.now ≡ version_words second)) }
{
    let Some(word) = words.next() else {
        return Some(false);
    };
    if word != "metadata2" {
        return None;
    }
    words.expect_end()?;
    Some(true)
}
