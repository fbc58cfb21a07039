//! The contents that a line names.

ghost use Rattle.std.specs.Prelude.{◌≡◌, ◌≢◌, [], ◌∷◌, ℕ, IfSome, IfNone, IfOk, IfErr};
ghost use Rattle.wb_types.specs.declared.mode.Dev.{Dev as Device};
ghost use Rattle.wb_types.specs.declared.refusal.Refusal.TheVariants.{Memory};
ghost use Rattle.wb_disk.specs.declared.crash_choice.Base.{Base as Kept};
ghost use Rattle.wb_disk.specs.declared.crash_choice.NamedContent.{NamedContent as Named};
ghost use Rattle.wb_table.specs.Words.{words_of};
ghost use Rattle.wb_lines.specs.Lines.{parts_of, IsPosition, IsLastPart, SpellsBase, SpellsDevice, SpellsNamed, SpellsAllNamed};

use std::alloc::Global;
use wb_disk::{Base, NamedContent};
use wb_table::{SplitSpaces, read_number};
use wb_types::{Dev, Refusal};

/// Reads `old` or `new`.
pub fn read_base(word: &str) -> Option<Base>
    ensures found { IfSome result (SpellsBase word.now) }
    ensures none { IfNone result ((base : Kept) → ¬ SpellsBase word.now base) }
{
    match word {
        "old" => Some(Base::Durable),
        "new" => Some(Base::Newest),
        _ => None,
    }
}

/// Reads `m`, `c` or `o`.
fn read_device(word: &str) -> Option<Dev>
    ensures found { IfSome result (SpellsDevice word.now) }
    ensures none { IfNone result ((device : Device) → ¬ SpellsDevice word.now device) }
{
    match word {
        "m" => Some(Dev::Metadata),
        "c" => Some(Dev::Cache),
        "o" => Some(Dev::Origin),
        _ => None,
    }
}

/// Reads `<device>:<sector>:<position>`.
fn read_named(word: &str) -> Option<NamedContent>
    ensures found { IfSome result (SpellsNamed word.now) }
    ensures none { IfNone result ((named : Named) → ¬ SpellsNamed word.now named) }
{
    let (device, rest) = split_colon(word)?;
    let device = read_device(device)?;
    let (sector, position) = read_place(rest)?;
    Some(NamedContent {
        device,
        sector,
        position,
    })
}

/// Reads `<sector>:<position>`.
fn read_place(word: &str) -> Option<(u64, u64)>
    ensures found { IfSome result (λ read. IsPosition (parts_of word.now) read.0 read.1) }
    ensures none { IfNone result ((sector position : ℕ) → ¬ IsPosition (parts_of word.now) sector position) }
{
    let (sector, position) = split_colon(word)?;
    Some((read_number(sector)?, read_last(position)?))
}

/// Reads a number with no colon behind it.
fn read_last(word: &str) -> Option<u64>
    ensures found { IfSome result (IsLastPart (parts_of word.now)) }
    ensures none { IfNone result ((number : ℕ) → ¬ IsLastPart (parts_of word.now) number) }
{
    match split_colon(word) {
        Some(_) => None,
        None => read_number(word),
    }
}

/// The part before the first colon, and what is behind it. None where there is no colon.
fn split_colon(word: &str) -> Option<(&str, &str)>
    ensures cut { IfSome result (λ parts. parts_of word.now ≡ parts.0.now ∷ parts_of parts.1.now) }
    ensures more { IfSome result (λ parts. parts_of parts.1.now ≢ []) }
    ensures whole { IfNone result (parts_of word.now ≡ word.now ∷ []) }
{
    match word.split_once(':') {
        Some((first, rest)) => Some((first, rest)),
        None => None,
    }
}

/// Reads the contents that the rest of a line names. None where a word is no such name; `Memory` where there is none for them.
pub fn read_all_named(
    alloc: Global,
    mut words: SplitSpaces<'_>,
) -> Result<Option<Vec<NamedContent>>, Refusal>
    ensures found { IfOk result (λ read. IfSome read (λ named. SpellsAllNamed (words_of words.entry.0.now) named.items)) }
    ensures none { IfOk result (λ read. IfNone read ((named : _) → ¬ SpellsAllNamed (words_of words.entry.0.now) named)) }
    ensures refusal { IfErr result (λ refusal. refusal ≡ Memory) }
{
    let mut all = Vec::new(alloc);
    while let Some(word) = words.next() {
        let Some(named) = read_named(word) else {
            return Ok(None);
        };
        if all.push(named).is_err() {
            return Err(Refusal::Memory);
        }
    }
    Ok(Some(all))
}
