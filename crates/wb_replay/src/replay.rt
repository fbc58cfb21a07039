//! A replay: a line in, what it does out.

use crate::player::Player;
use std::alloc::Global;
use std::fmt::Write as _;
use std::io::{BufRead, ErrorKind, Read, Write};
use std::str;
use wb_lines::{Line, read_line, read_setup};
use wb_table::is_comment;
use wb_types::Refusal;

/// So many bytes without a line break are no line of a replay: 1 MiB.
const MOST_OF_A_LINE: u64 = 1_048_576;

/// What is printed where the text of a refusal has no room.
const OUT_OF_MEMORY: &[u8] = b"refused 7 Memory\n";

/// How a replay ended.
#[derive(Clone, Copy)]
pub enum Ended {
    /// Each line was played.
    Played,
    /// The setup was refused, there was no memory outside a task, or a line was none of a replay.
    Refused,
    /// The reader or the writer failed.
    StreamFailed,
}

impl Ended {
    /// The exit status of a program: 0, 1 or 4.
    pub fn code(self) -> u8 {
        match self {
            Ended::Played => 0,
            Ended::Refused => 1,
            Ended::StreamFailed => 4,
        }
    }
}

/// Why a replay goes no further.
#[derive(Clone, Copy)]
enum Halt {
    /// For this reason, outside a task.
    Refused(Refusal),
    /// The line of this number, counted from 1, is none of a replay.
    BadLine(u64),
    StreamFailed,
}

/// Plays a replay: the first line sets up a cache over three devices in memory, formatted and opened in its mode, and each line after it is events
/// of that cache, one atomic step at a time. What a line tells is out before the next one is read. Empty lines, and those that begin
/// with `#`, do nothing, and count; without any line nothing is printed.
///
/// `refused <number> <Name>` is printed for sizes that are outside the limits, and for want of memory outside a task; `bad line <number>`
/// for a line that is none of a replay. Either ends it, as a reader or writer that fails does.
pub fn run<I: BufRead, W: Write>(alloc: Global, reader: &mut I, writer: &mut W) -> Ended {
    let mut text = String::new(alloc);
    match play(alloc, reader, writer, &mut text) {
        Ok(()) => Ended::Played,
        Err(halt) => tell(halt, &mut text, writer),
    }
}

/// Says why a replay goes no further.
fn tell<W: Write>(halt: Halt, text: &mut String, writer: &mut W) -> Ended {
    text.clear();
    let written = match halt {
        Halt::Refused(refusal) => writeln!(text, "refused {refusal}"),
        Halt::BadLine(number) => writeln!(text, "bad line {number}"),
        Halt::StreamFailed => return Ended::StreamFailed,
    };
    let bytes = if written.is_ok() {
        text.as_bytes()
    } else {
        OUT_OF_MEMORY
    };
    match send(bytes, writer) {
        Ok(()) => Ended::Refused,
        Err(_) => Ended::StreamFailed,
    }
}

/// Plays all lines, the setup first.
fn play<I: BufRead, W: Write>(
    alloc: Global,
    reader: &mut I,
    writer: &mut W,
    text: &mut String,
) -> Result<(), Halt> {
    let mut line = Vec::new(alloc);
    let mut player = None;
    for number in 1..u64::MAX {
        if !next_line(reader, &mut line)? {
            return Ok(());
        }
        let Some(words) = words_of(line.as_slice()) else {
            return Err(Halt::BadLine(number));
        };
        text.clear();
        play_line(alloc, &mut player, words, number, text)?;
        if !text.is_empty() {
            send(text.as_bytes(), writer)?;
        }
    }
    Ok(())
}

/// Plays a line: the first that is not empty is the setup.
fn play_line(
    alloc: Global,
    player: &mut Option<Player>,
    words: &str,
    number: u64,
    text: &mut String,
) -> Result<(), Halt> {
    let line = match read_line(alloc, words) {
        Ok(read) => read,
        Err(refusal) => return Err(Halt::Refused(refusal)),
    };
    if let Some(Line::Nothing) = line {
        return Ok(());
    }
    match player {
        Some(player) => match line {
            Some(line) => player
                .play(line, text)
                .map_err(|refusal| Halt::Refused(refusal)),
            None => Err(Halt::BadLine(number)),
        },
        None => {
            *player = Some(set_up(alloc, words, number, text)?);
            Ok(())
        }
    }
}

/// A cache as the first line says, opened as it was formatted: only that the opening is skipped is told. One that is refused ends the replay.
fn set_up(alloc: Global, words: &str, number: u64, text: &mut String) -> Result<Player, Halt> {
    let Some(setup) = read_setup(words) else {
        return Err(Halt::BadLine(number));
    };
    let mut player = Player::new(alloc, setup).map_err(|refusal| Halt::Refused(refusal))?;
    let opened = player
        .open(setup.mode, setup.metadata2, text)
        .map_err(|refusal| Halt::Refused(refusal))?;
    if opened {
        if let Some(refusal) = player.refused() {
            return Err(Halt::Refused(refusal));
        }
        text.clear();
    }
    Ok(player)
}

/// Reads the next line, with its line break where it has one: whether there was one.
fn next_line<I: BufRead>(reader: &mut I, line: &mut Vec<u8>) -> Result<bool, Halt> {
    line.clear();
    match reader.take(MOST_OF_A_LINE).read_until(b'\n', line) {
        Ok(read) => Ok(read != 0),
        Err(error) if error.kind() == ErrorKind::OutOfMemory => {
            Err(Halt::Refused(Refusal::Memory))
        }
        Err(_) => Err(Halt::StreamFailed),
    }
}

/// The text of a line, without its line break; nothing of one that begins with `#`. None where it is too long, or no text.
fn words_of(line: &[u8]) -> Option<&str> {
    if line.len() as u64 >= MOST_OF_A_LINE && !line.ends_with(b"\n") {
        return None;
    }
    let bytes = line.strip_suffix(b"\n").unwrap_or(line);
    if is_comment(bytes) {
        return Some("");
    }
    str::from_utf8(bytes).ok()
}

/// Writes all of it at once, and sees that it is out.
fn send<W: Write>(bytes: &[u8], writer: &mut W) -> Result<(), Halt> {
    writer.write_all(bytes).map_err(|_| Halt::StreamFailed)?;
    writer.flush().map_err(|_| Halt::StreamFailed)
}
