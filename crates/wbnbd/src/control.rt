//! Lines that ask something of the target while it is served.

ghost use Rattle.std.specs.Prelude.{◌≡◌, IfSome, IfNone, OnOk};
ghost use Rattle.wb_table.specs.Words.{words_of};
ghost use Rattle.wbnbd.specs.Controls.{DidSay, IsControlLine, ControlSays};
ghost use Rattle.wbnbd.specs.declared.control.Line.{Line as Said};

use crate::pace::Pace;
use crate::teller::Teller;
use std::alloc::Global;
use std::fs::{File, OpenOptions};
use std::os::unix::fs::FileExt;
use std::rt::Files;
use std::sync::Wait;
use std::time::{Clock, Duration};
use std::{fs, io, str, thread};
use wb_opened::Served;
use wb_table::{SplitSpaces, is_comment, read_message};
use wb_types::Refusal;

/// Bytes of a line, at most: 64 KiB.
const MOST_OF_A_LINE: usize = 65_536;

/// A file to which lines are added, and how far they were read. It is asked again and again, since a file tells nobody that it has grown: a FIFO, whose
/// end would have to be waited for, is none.
#[derive(Drop)]
pub struct Lines {
    file: File,
    at: u64,
}

impl Lines {
    /// Lines that come from now on: those that the file has are passed over. It is made where there is none.
    ///
    /// An error of the kind `InvalidInput` where it is no plain file, and else the system's.
    pub fn open<R: Files<File = File>>(rt: &R, path: &str) -> io::Result<Lines> {
        if let Ok(there) = fs::metadata(rt, path)
            && !there.is_file()
        {
            return Err(io::Error::from(io::ErrorKind::InvalidInput));
        }
        let file = OpenOptions::new()
            .read(true)
            .append(true)
            .create(true)
            .open(rt, path)?;
        let at = file.metadata()?.len();
        Ok(Lines { file, at })
    }

    /// The bytes that have come, as many as have room: none where there are none. One that was cut short since is read from its start.
    fn read(&mut self, bytes: &mut [u8]) -> io::Result<usize> {
        let count = self.file.read_at(bytes, self.at)?;
        if count == 0 && self.file.metadata()?.len() < self.at {
            self.at = 0;
        }
        self.at = self.at.saturating_add(count as u64);
        Ok(count)
    }
}

/// Where lines come from, and who is to know of their answers.
#[derive(Drop)]
pub struct Control<'a, T, E> {
    pub alloc: Global,
    pub lines: Lines,
    pub pace: &'a Pace,
    pub teller: &'a Teller<'a, T, E>,
}

/// A line.
#[derive(Clone, Copy)]
enum Line<'a> {
    /// An empty one, or a comment.
    Nothing,
    Status,
    Flush,
    Tick,
    /// What stands behind the word.
    Message(&'a str),
}

/// Answers lines as they come, on standard error, until the connection is over or the file cannot be read.
pub fn answer_lines<R: Wait, S: Served, T: Clock, E: Eprint>(
    rt: &R,
    client: &mut S,
    control: Control<'_, T, E>,
) {
    let Control {
        alloc,
        mut lines,
        pace,
        teller,
    } = control;
    let mut coming = Coming::new(alloc);
    let mut bytes = [0; 512];
    for _ in rt.forever() {
        if pace.has_ended() {
            return;
        }
        match lines.read(&mut bytes) {
            Ok(0) => rest(teller.rt),
            Ok(count) => {
                for byte in bytes.iter().take(count) {
                    if *byte == b'\n' {
                        tell_answer(rt, client, alloc, &coming, teller);
                        coming.begin();
                    } else {
                        coming.add(*byte);
                    }
                }
            }
            Err(error) => {
                teller.unread(&error);
                return;
            }
        }
    }
}

/// How long it is waited before the file is asked again, in milliseconds.
const REST: u64 = 50;

fn rest<T: Clock>(clock: &T) {
    thread::sleep(clock, Duration::from_millis(REST));
}

/// A line as it comes, byte by byte.
#[derive(Drop)]
struct Coming {
    bytes: Vec<u8>,
    /// Whether it is too long, or there was no memory for it.
    cut: bool,
}

impl Coming {
    fn new(alloc: Global) -> Coming {
        Coming {
            bytes: Vec::new(alloc),
            cut: false,
        }
    }

    fn begin(&mut self) {
        self.bytes.clear();
        self.cut = false;
    }

    fn add(&mut self, byte: u8) {
        if self.bytes.len() >= MOST_OF_A_LINE || self.bytes.push(byte).is_err() {
            self.cut = true;
        }
    }

    /// What it asks; None where it is no line of a control file.
    fn read(&self) -> Option<Line<'_>> {
        if self.cut {
            return None;
        }
        read_line(self.bytes.as_slice())
    }
}

/// Reads a line, without its line break. None is a line that says nothing that can be asked here.
fn read_line(line: &[u8]) -> Option<Line<'_>>
    ensures found { IfSome result (IsControlLine line.now) }
    ensures none { IfNone result ((said : Said) → ¬ IsControlLine line.now said) }
{
    if is_comment(line) {
        return Some(Line::Nothing);
    }
    read_words(SplitSpaces(str::from_utf8(line).ok()?))
}

fn read_words(mut words: SplitSpaces<'_>) -> Option<Line<'_>>
    ensures found { IfSome result (ControlSays (words_of words.entry.0.now)) }
    ensures none { IfNone result ((said : Said) → ¬ ControlSays (words_of words.entry.0.now) said) }
{
    let line = match words.next() {
        None => return Some(Line::Nothing),
        Some("message") => return Some(Line::Message(words.0)),
        Some("status") => Line::Status,
        Some("flush") => Line::Flush,
        Some("tick") => Line::Tick,
        Some(_) => return None,
    };
    words.expect_end()?;
    Some(line)
}

/// Does what a line asks, and tells its answer.
fn tell_answer<R: Wait, S: Served, T, E: Eprint>(
    rt: &R,
    client: &mut S,
    alloc: Global,
    coming: &Coming,
    teller: &Teller<'_, T, E>,
) {
    let Some(line) = coming.read() else {
        teller.say("bad line");
        return;
    };
    let mut text = String::new(alloc);
    match answer(rt, client, alloc, line, &mut text) {
        Ok(()) if text.is_empty() => {}
        Ok(()) => teller.say(text.as_str()),
        Err(refusal) => teller.refused(refusal),
    }
}

/// Does what a line asks, and adds its answer to the text. Refused as the call that it is, `BadMessage` where a text is no message, and `Memory`.
fn answer<R: Wait, S: Served>(
    rt: &R,
    client: &mut S,
    alloc: Global,
    line: Line<'_>,
    text: &mut String,
) -> Result<(), Refusal>
    ensures did { OnOk result (DidSay S.did client.old line.entry client.new) }
{
    match line {
        Line::Nothing => return Ok(()),
        Line::Status => return client.status(rt, text),
        Line::Flush => client.flush(rt)?,
        Line::Tick => client.tick(rt)?,
        Line::Message(words) => client.message(rt, &read_message(alloc, words)?)?,
    }
    text.push_str("ok")?;
    Ok(())
}
