//! Sectors as a user is shown them.

ghost use Rattle.std.specs.Prelude.{◌≡◌, ◌<◌, ◌≤◌, ◌+◌, ◌*◌, ◌^◌, ◌++◌, ℕ, List, ◌∷◌, [], length, drop, codes, decimal, string_bytes, OnOk};
ghost use Rattle.std.specs.Char.{digit_char};
ghost use Rattle.std.specs.Str.{IsAscii};
ghost use Rattle.wb_dialogue.specs.Shown.{AreLinesOf, IsLineOf, NamesFill};

use crate::fill::Fill;
use itoa::write_digits;
use std::alloc::AllocError;
use std::str;
use wb_types::Content;

/// How many lines are made at a time.
const GROUP: usize = 64;

/// Room for them: a line takes 20 digits, a space, five letters and a break at most.
pub const LINES: usize = 27 * GROUP;

/// The hexadecimal digits, lower case.
const DIGITS: [u8; 16] = *b"0123456789abcdef";

/// Adds a line `<sector> <fill>` for each of these sectors, from `first` on, that are laid where there is room for some at a time. An error
/// where there is no memory; then some of the lines may have been added.
pub fn show(
    first: u64,
    contents: &[Content],
    room: &mut [u8; LINES],
    text: &mut String,
) -> Result<(), AllocError>
    requires numbered { first + length contents.now < 2 ^ 64 }
    ensures shown { OnOk result ((lines : List ℕ) × AreLinesOf lines first contents.now × (string_bytes text.new ≡ string_bytes text.old ++ lines)) }
{
    let mut sector = first;
    let mut rest = contents;
    while !rest.is_empty() {
        let (group, after) = rest.split_at(rest.len().min(GROUP));
        let start = lay(sector, group, room);
        text.push_str(text_of(&room[start..]))?;
        sector += group.len() as u64;
        rest = after;
    }
    Ok(())
}

/// ASCII as a text.
#[inline(always)]
fn text_of(bytes: &[u8]) -> &str
    requires { IsAscii bytes.now }
    ensures { result.now ≡ bytes.now }
{
    // Its requirement is proved here, so that nothing has to be looked at.
    unsafe { str::from_utf8_unchecked(bytes) }
}

/// Lays the lines of so many sectors, so that they end with the bytes, and says where they begin.
fn lay(first: u64, contents: &[Content], lines: &mut [u8]) -> usize
    requires room { 27 * length contents.now ≤ length lines.old }
    requires numbered { first + length contents.now < 2 ^ 64 }
    ensures start { result ≤ length lines.new }
    ensures laid { AreLinesOf (drop result lines.new) first contents.now }
    ensures ascii { IsAscii (drop result lines.new) }
{
    let mut at = lines.len();
    let mut left = contents;
    while let Some((content, before)) = left.split_last() {
        at = lay_line(first + before.len() as u64, content, lines, at);
        left = before;
    }
    at
}

/// Lays the line of a sector in front of what begins here, and says where it begins.
#[inline(always)]
fn lay_line(sector: u64, content: &Content, lines: &mut [u8], end: usize) -> usize
    requires room { 27 ≤ end }
    requires within { end ≤ length lines.old }
    ensures start { end ≤ result + 27 }
    ensures before { result ≤ end }
    ensures laid { (line : List ℕ) × IsLineOf line sector content.now × IsAscii line × (drop result lines.new ≡ line ++ drop end lines.old) }
{
    let end = lay_byte(b'\n', lines, end);
    let end = lay_name(Fill::of(content), lines, end);
    let end = lay_byte(b' ', lines, end);
    write_digits(sector, lines, end)
}

/// Lays the word of what fills a sector.
#[inline(always)]
fn lay_name(fill: Fill, lines: &mut [u8], end: usize) -> usize
    requires room { 5 ≤ end }
    requires within { end ≤ length lines.old }
    ensures start { end ≤ result + 5 }
    ensures before { result ≤ end }
    ensures laid { (word : List ℕ) × NamesFill word fill × IsAscii word × (drop result lines.new ≡ word ++ drop end lines.old) }
{
    match fill {
        Fill::Uniform(byte) => {
            let end = lay_byte(digit_of(byte % 16), lines, end);
            lay_byte(digit_of(byte / 16), lines, end)
        }
        Fill::Mixed => {
            let end = lay_byte(b'd', lines, end);
            let end = lay_byte(b'e', lines, end);
            let end = lay_byte(b'x', lines, end);
            let end = lay_byte(b'i', lines, end);
            lay_byte(b'm', lines, end)
        }
    }
}

/// Lays a byte.
#[inline(always)]
fn lay_byte(byte: u8, lines: &mut [u8], end: usize) -> usize
    requires room { 0 < end }
    requires within { end ≤ length lines.old }
    ensures start { result + 1 ≡ end }
    ensures laid { drop result lines.new ≡ byte ∷ drop end lines.old }
{
    lines[end - 1] = byte;
    end - 1
}

/// A hexadecimal digit, lower case.
#[inline(always)]
fn digit_of(digit: u8) -> u8
    requires { digit < 16 }
    ensures value { result ≡ digit_char digit }
    ensures ascii { result < 128 }
{
    DIGITS[digit as usize]
}
