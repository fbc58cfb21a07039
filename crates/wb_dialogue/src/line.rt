//! The lines of a script.

ghost use Rattle.std.specs.Prelude.{◌≡◌, ◌≢◌, ◌∷◌, ℕ, IfSome, IfNone, codes};
ghost use Rattle.std.specs.Str.{IsUtf8};
ghost use Rattle.wb_dialogue.specs.Line.{WordsAsk, NamesClient, WordsSay, IsLine, HasBreakOrNone};
ghost use Rattle.wb_table.specs.Words.{words_of};
ghost use Rattle.wb_dialogue.specs.declared.line.Call.{Call as Asked};
ghost use Rattle.wb_dialogue.specs.declared.line.Line.{Line as Said};

use crate::usual::read_usual;
use std::str;
use wb_table::{SplitSpaces, is_comment, read_fill, read_sectors};
use wb_types::Sector;

/// What a client is asked, the first one or one beside it.
#[derive(Clone, Copy)]
pub enum Call {
    /// `r S N`: reads so many sectors from a sector on.
    Read { at: Sector, count: u64 },
    /// `w S N hh`: fills so many sectors, from a sector on, with a byte.
    Write { at: Sector, count: u64, fill: u8 },
    /// `wf S N hh`: the same, and then makes durable what was finished.
    WriteDurably { at: Sector, count: u64, fill: u8 },
    /// `tr S N`: reads sectors of one block, without waiting.
    TryRead { at: Sector, count: u64 },
    /// `tw S N hh`: fills sectors of one block with a byte, without waiting.
    TryWrite { at: Sector, count: u64, fill: u8 },
    /// `flush`: makes durable what was finished.
    Flush,
    /// `settle`: settles the client's accesses.
    Settle,
}

/// What a line says.
#[derive(Clone, Copy)]
pub enum Line {
    /// An empty line, or a comment.
    Nothing,
    /// What the first client is asked.
    Asks(Call),
    /// `@k ..`: what client k is asked, 1 to 8, on a thread of its own.
    Beside { client: u8, call: Call },
    /// `work`: carries out the order that waits longest.
    Work,
    /// `tick`: the policy's tick, and a flush.
    Tick,
    /// `status`: tells how the cache is.
    Status,
    /// `message TEXT`: gives the target a message, by the first client.
    Message,
    /// `suspend`: makes all durable, with what is dirty and how often blocks were asked for, and leaves the cache clean.
    Suspend,
    /// `join`: waits for the clients beside the first, and prints what they answered.
    Join,
}

/// Reads a line, without its line break. None is a line that says nothing that a script can say.
pub fn read_line(line: &[u8]) -> Option<Line>
    ensures found { IfSome result (IsLine line.now) }
    ensures none { IfNone result ((said : Said) → ¬ IsLine line.now said) }
{
    if let Some((at, count)) = read_usual(line) {
        return Some(Line::Asks(Call::Read { at, count }));
    }
    if is_comment(line) {
        return Some(Line::Nothing);
    }
    read_words(SplitSpaces(str::from_utf8(line).ok()?))
}

/// The text of the message that a line gives, without its line break: what stands behind its first word. None is a line that gives none.
pub fn message_text(line: &[u8]) -> Option<&str>
    ensures found { IfSome result (λ text. IsUtf8 line.now × (words_of line.now ≡ codes "message" ∷ words_of text.now)) }
{
    let mut words = SplitSpaces(str::from_utf8(line).ok()?);
    words.expect("message")?;
    Some(words.0)
}

/// A line without its line break, which the last line of a script may lack.
pub fn without_break(line: &[u8]) -> &[u8]
    ensures { HasBreakOrNone line.now result.now }
{
    match line {
        [before @ .., b'\n'] => before,
        _ => line,
    }
}

fn read_words(mut words: SplitSpaces<'_>) -> Option<Line>
    ensures found { IfSome result (WordsSay (words_of words.entry.0.now)) }
    ensures none { IfNone result ((said : Said) → ¬ WordsSay (words_of words.entry.0.now) said) }
{
    let Some(name) = words.next() else {
        return Some(Line::Nothing);
    };
    match read_client(name) {
        Some(client) => {
            let call = read_call(words.next()?, words)?;
            Some(Line::Beside { client, call })
        }
        None => read_first(name, words),
    }
}

/// The client that a word names.
fn read_client(word: &str) -> Option<u8>
    ensures found { IfSome result (NamesClient word.now) }
    ensures none { IfNone result ((client : ℕ) → ¬ NamesClient word.now client) }
{
    match word.as_bytes() {
        [b'@', digit @ b'1'..=b'8'] => Some(*digit - b'0'),
        _ => None,
    }
}

/// Reads a line that names no client, from its first word on.
fn read_first(name: &str, words: SplitSpaces<'_>) -> Option<Line>
    requires unnamed { (client : ℕ) → ¬ NamesClient name.now client }
    ensures found { IfSome result (WordsSay (name.now ∷ words_of words.entry.0.now)) }
    ensures none { IfNone result ((said : Said) → ¬ WordsSay (name.now ∷ words_of words.entry.0.now) said) }
{
    match read_call(name, SplitSpaces(words.0)) {
        Some(call) => Some(Line::Asks(call)),
        None if name == "message" => Some(Line::Message),
        None => read_word(name, words),
    }
}

/// Reads a line of one word that neither names a client nor asks something of one.
fn read_word(name: &str, mut words: SplitSpaces<'_>) -> Option<Line>
    requires unnamed { (client : ℕ) → ¬ NamesClient name.now client }
    requires other { name.now ≢ codes "message" }
    requires unasked { (asked : Asked) → ¬ WordsAsk (name.now ∷ words_of words.0.now) asked }
    ensures found { IfSome result (WordsSay (name.now ∷ words_of words.entry.0.now)) }
    ensures none { IfNone result ((said : Said) → ¬ WordsSay (name.now ∷ words_of words.entry.0.now) said) }
{
    words.expect_end()?;
    match name {
        "work" => Some(Line::Work),
        "tick" => Some(Line::Tick),
        "status" => Some(Line::Status),
        "suspend" => Some(Line::Suspend),
        "join" => Some(Line::Join),
        _ => None,
    }
}

/// Reads what a client is asked, from the word that names it on.
fn read_call(name: &str, mut words: SplitSpaces<'_>) -> Option<Call>
    ensures found { IfSome result (WordsAsk (name.now ∷ words_of words.entry.0.now)) }
    ensures none { IfNone result ((asked : Asked) → ¬ WordsAsk (name.now ∷ words_of words.entry.0.now) asked) }
{
    let call = match name {
        "r" => {
            let (at, count) = read_sectors(words)?;
            Call::Read { at, count }
        }
        "tr" => {
            let (at, count) = read_sectors(words)?;
            Call::TryRead { at, count }
        }
        "w" => {
            let (at, count, fill) = read_fill(words)?;
            Call::Write { at, count, fill }
        }
        "wf" => {
            let (at, count, fill) = read_fill(words)?;
            Call::WriteDurably { at, count, fill }
        }
        "tw" => {
            let (at, count, fill) = read_fill(words)?;
            Call::TryWrite { at, count, fill }
        }
        "flush" => {
            words.expect_end()?;
            Call::Flush
        }
        "settle" => {
            words.expect_end()?;
            Call::Settle
        }
        _ => return None,
    };
    Some(call)
}
