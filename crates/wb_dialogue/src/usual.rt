//! Lines as most of a script are, read byte by byte.

ghost use Rattle.std.specs.Prelude.{◌≡◌, ◌∷◌, ◌++◌, ◌<◌, ℕ, List, IfSome, codes, length};
ghost use Rattle.std.specs.Str.{IsUtf8};
ghost use Rattle.wb_table.specs.Words.{words_of};
ghost use Rattle.wb_table.specs.Comments.{IsComment};
ghost use Rattle.wb_table.specs.Numbers.{SpellsNumber};
ghost use Rattle.wb_table.specs.Sectors.{SpellsSectors};

use wb_types::Sector;

/// A number below this one fits with one more digit.
const MOST: u64 = 1_000_000_000_000_000_000;

/// Reads `r S N` where one space stands between two words, and numbers have at most 19 digits behind their zeros: what is read, and how much of it. None is
/// a line that is to be read word by word, whatever it says.
#[inline(always)]
pub fn read_usual(line: &[u8]) -> Option<(Sector, u64)>
    ensures words { IfSome result (λ read. (words : List (List ℕ)) × (words_of line.now ≡ codes "r" ∷ words) × SpellsSectors words read.0.0 read.1) }
    ensures text { IfSome result (λ _. IsUtf8 line.now × ¬ IsComment line.now) }
{
    let numbers = behind(behind(line, b'r')?, b' ')?;
    let (at, rest) = leading_number(numbers)?;
    let (count, rest) = leading_number(behind(rest, b' ')?)?;
    if rest.is_empty() {
        Some((Sector(at), count))
    } else {
        None
    }
}

/// What is behind this byte, where a text begins with it.
#[inline(always)]
fn behind(text: &[u8], byte: u8) -> Option<&[u8]>
    ensures { IfSome result (λ rest. text.now ≡ byte ∷ rest.now) }
{
    let (first, rest) = text.split_first()?;
    if *first == byte { Some(rest) } else { None }
}

/// The number that the first digits of a text spell, at most 19 behind zeros, and what is behind them. None where there is no digit.
#[inline(always)]
fn leading_number(text: &[u8]) -> Option<(u64, &[u8])>
    ensures { IfSome result (λ read. (word : List ℕ) × (text.now ≡ word ++ read.1.now) × SpellsNumber word read.0) }
{
    let mut value = 0;
    let mut count = 0;
    while count < text.len() && value < MOST && text[count].is_ascii_digit() {
        value = value * 10 + u64::from(text[count] - b'0');
        count += 1;
    }
    if count == 0 {
        return None;
    }
    Some((value, &text[count..]))
}
