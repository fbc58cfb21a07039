//! Messages to a target.

ghost use Rattle.std.specs.Prelude.{◌≡◌, ◌⊎◌, ℕ, List, IfOk, IfErr, IfSome, IfNone};
ghost use Rattle.wb_types.specs.declared.message.CBlockRange.{CBlockRange as Range};
ghost use Rattle.wb_types.specs.declared.message.Key.{Key as KeyName};
ghost use Rattle.wb_types.specs.declared.message.Message.{Message as Told};
ghost use Rattle.wb_table.specs.Messages.{IsMessage, IsSetting, NameRanges, NamesCBlocks, NamesOne, NamesSpan, SpellsCBlock};
ghost use Rattle.wb_table.specs.Words.{words_of};

use crate::number::read_number;
use crate::table::read_key;
use crate::words::SplitSpaces;
use std::alloc::Global;
use wb_types::{CBlock, CBlockRange, CBlockRanges, Key, Message, Refusal};

/// Reads a message (the kernel's `cache.rst`, "Messages"): `migration_threshold <n>`, `promote_min <n>`, or
/// `invalidate_cblocks [<cblock>|<begin>-<end>]*` with each begin below its end, which is one past the last block: words parted by spaces,
/// values below 2^64, ends of blocks below 2^32. Whether a value is one of its key, the policy has the key, and the cache the blocks, is not looked at.
///
/// `BadMessage` where the text is no message, `Memory` where there is none for its ranges.
pub fn read_message(alloc: Global, text: &str) -> Result<Message, Refusal>
    ensures found { IfOk result (IsMessage (words_of text.now)) }
    ensures refused { IfErr result (λ refusal. (refusal ≡ Refusal.Memory) ⊎ ((refusal ≡ Refusal.BadMessage) × ((message : Told) → ¬ IsMessage (words_of text.now) message))) }
{
    let mut words = SplitSpaces(text);
    match words.expect("invalidate_cblocks") {
        Some(()) => match read_ranges(alloc, words) {
            Ok(ranges) => Ok(Message::InvalidateCblocks(ranges)),
            Err(refusal) => Err(refusal),
        },
        None => match read_setting(SplitSpaces(text)) {
            Some((key, value)) => Ok(Message::Set(key, value)),
            None => Err(Refusal::BadMessage),
        },
    }
}

/// Reads a key and its value, and nothing behind them.
fn read_setting(mut words: SplitSpaces<'_>) -> Option<(Key, u64)>
    ensures found { IfSome result (λ set. IsSetting (words_of words.entry.0.now) set.0 set.1) }
    ensures none { IfNone result ((key : KeyName) (value : ℕ) → ¬ IsSetting (words_of words.entry.0.now) key value) }
{
    let key = read_key(words.next()?)?;
    let value = read_number(words.next()?)?;
    words.expect_end()?;
    Some((key, value))
}

/// Reads ranges of cache blocks up to the end.
fn read_ranges(alloc: Global, mut words: SplitSpaces<'_>) -> Result<CBlockRanges, Refusal>
    ensures found { IfOk result (NameRanges (words_of words.entry.0.now)) }
    ensures refused { IfErr result (λ refusal. (refusal ≡ Refusal.Memory) ⊎ ((refusal ≡ Refusal.BadMessage) × ((ranges : List Range) → ¬ NameRanges (words_of words.entry.0.now) ranges))) }
{
    let mut ranges = Vec::new(alloc);
    while let Some(word) = words.next() {
        let Some(range) = read_range(word) else {
            return Err(Refusal::BadMessage);
        };
        if ranges.push(range).is_err() {
            return Err(Refusal::Memory);
        }
    }
    Ok(CBlockRanges::new(ranges))
}

/// Reads a range of cache blocks.
fn read_range(word: &str) -> Option<CBlockRange>
    ensures found { IfSome result (NamesCBlocks word.now) }
    ensures none { IfNone result ((range : Range) → ¬ NamesCBlocks word.now range) }
{
    match word.split_once('-') {
        Some((begin, end)) => read_span(begin, end),
        None => read_one(word),
    }
}

/// Reads the blocks from one up to, and without, another.
fn read_span(begin: &str, end: &str) -> Option<CBlockRange>
    ensures found { IfSome result (NamesSpan begin.now end.now) }
    ensures none { IfNone result ((range : Range) → ¬ NamesSpan begin.now end.now range) }
{
    let (begin, end) = (read_cblock(begin)?, read_cblock(end)?);
    if begin.0 < end.0 {
        Some(CBlockRange { begin, end })
    } else {
        None
    }
}

/// Reads one block.
fn read_one(word: &str) -> Option<CBlockRange>
    ensures found { IfSome result (NamesOne word.now) }
    ensures none { IfNone result ((range : Range) → ¬ NamesOne word.now range) }
{
    let begin = read_cblock(word)?;
    let end = CBlock(begin.0.checked_add(1)?);
    Some(CBlockRange { begin, end })
}

/// Reads the number of a cache block.
fn read_cblock(word: &str) -> Option<CBlock>
    ensures found { IfSome result (λ block. SpellsCBlock word.now block.0) }
    ensures only { IfSome result (λ block. (number : ℕ) → SpellsCBlock word.now number → number ≡ block.0) }
    ensures none { IfNone result ((number : ℕ) → ¬ SpellsCBlock word.now number) }
{
    u32::try_from(read_number(word)?).ok().map(CBlock)
}
