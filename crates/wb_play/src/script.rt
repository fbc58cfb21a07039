//! Scripts: a line in, its answer out.

ghost use Rattle.std.specs.Prelude.{◌≡◌, ◌<◌, ◌≤◌, ◌*◌, ◌++◌, ℕ, List, OnOk, IfErr, string_bytes};
ghost use Rattle.std.specs.Io.KnownBytes.{Appends};
ghost use Rattle.wb_opened.specs.Inside.{IsInside};
ghost use Rattle.wb_play.specs.Played.{WasPlayed};
ghost use Rattle.wb_play.specs.Stopped.{PlayWasRefused};

use crate::answers::{answer, done, follow_line, most_lines, status, work};
use crate::lane::Beside;
use std::alloc::{AllocError, Global};
use std::io::{BufRead, ErrorKind, Read, Write};
use std::sync::Wait;
use std::time::Clock;
use wb_dialogue::{
    Ahead, Asked, Call, Line, Paced, Progress, Room, Said, Status, StreamFailed, Tally, Told,
    Unseen, print, print_all, print_bad_line, print_refusal, read_line, see_out, without_break,
};
use wb_opened::{LANES, Next, Play, Served, Shown};
use wb_types::{Extent, Geometry, Refusal, Sector};

/// Room for an answer of one line, made before the first line is read.
const ONE_LINE: usize = 64;

/// So many sectors of a read are answered at once, or those of one block: 8 MiB.
const AT_ONCE: u64 = 16_384;

/// So many bytes without a line break are no line of a script: 1 MiB.
const MOST_OF_A_LINE: u64 = 1_048_576;

/// A script that is played: its lines so far, how they were answered, and those of them that were refused.
#[derive(Drop)]
pub struct Script<'s, I, W, E> {
    alloc: Global,
    beside: &'s Beside,
    reader: &'s mut I,
    writer: &'s mut W,
    progress: Progress<'s, E>,
    /// The line that was read last, where it was waited for or is a message; and what the last one is answered.
    line: Vec<u8>,
    text: String,
    room: Room,
    /// What clients have told at a join.
    told: Vec<Told>,
    /// Of each client beside the first whether it has begun.
    has_begun: [bool; LANES],
    /// What comes behind the join that is due, if one is.
    behind_join: Option<Behind>,
    number: u64,
    status: Status,
    tally: Tally,
    failed: Option<StreamFailed>,
}

/// What comes behind a join.
#[derive(Clone, Copy)]
enum Behind {
    Lines,
    Suspend,
    End,
}

/// How a script was played, and the lines of it that were refused.
#[derive(Clone, Copy)]
pub struct Played {
    pub status: Result<Status, StreamFailed>,
    pub tally: Tally,
}

impl<'s, I: Ahead, W: Write, E: Clock + Eprint> Script<'s, I, W, E> {
    /// None of its lines is read.
    pub fn new(
        alloc: Global,
        beside: &'s Beside,
        reader: &'s mut I,
        writer: &'s mut W,
        progress: Progress<'s, E>,
    ) -> Result<Script<'s, I, W, E>, AllocError> {
        let text = String::with_capacity(alloc, ONE_LINE)?;
        let told = Vec::with_capacity(alloc, LANES)?;
        Ok(Script {
            alloc,
            beside,
            reader,
            writer,
            progress,
            line: Vec::new(alloc),
            text,
            room: Room::new(alloc),
            told,
            has_begun: [false; LANES],
            behind_join: None,
            number: 0,
            status: Status::Done,
            tally: Tally::new(),
            failed: None,
        })
    }

    /// A join is due, and then this.
    fn join_before(&mut self, behind: Behind) -> Next {
        self.behind_join = Some(behind);
        Next::CatchUp
    }

    /// Sees that what was answered is out, where the writer has not failed.
    fn see_out(&mut self) -> Result<(), StreamFailed> {
        match self.failed {
            Some(StreamFailed::Writer) => Ok(()),
            _ => see_out(self.writer),
        }
    }

    /// The reader or the writer failed: only the others are to be joined.
    fn fail(&mut self, failed: StreamFailed) -> Next {
        self.failed = Some(failed);
        self.join_before(Behind::End)
    }
}

impl<'s, I: Ahead, W: Write, E: Clock + Eprint> Play for Script<'s, I, W, E> {
    type Told = Played;

    fn serve<R: Wait, C: Served>(&mut self, rt: &R, client: &mut C) -> Next {
        if self.number == 0 {
            tell_opened(rt, client, &mut self.progress);
        }
        match self.behind_join.take() {
            None => {}
            Some(behind) => match (join(rt, self), behind) {
                (Ok(()), Behind::Lines) => {}
                (Ok(()), Behind::Suspend) => return Next::Suspend,
                (_, _) => return Next::End,
            },
        }
        match play(rt, client, self) {
            Ok(next) => next,
            Err(failed) => self.fail(failed),
        }
    }

    fn refused<R: Wait>(&mut self, rt: &R, lane: usize, refusal: Refusal) {
        if let Some(has_begun) = self.has_begun.get_mut(lane) {
            *has_begun = false;
        }
        if let Some(lane) = self.beside.lane_at(lane) {
            lane.refuse(rt, refusal);
        }
    }

    fn go_on<R: Wait, T: Shown>(&mut self, rt: &R, suspended: Result<(), Refusal>, target: &T) {
        if let Err(failed) = play_behind(rt, target, self, suspended) {
            self.failed = Some(failed);
            let _ = join(rt, self);
        }
    }

    fn told(self) -> Played {
        let Script {
            status,
            tally,
            failed,
            ..
        } = self;
        let status = match failed {
            Some(failed) => Err(failed),
            None => Ok(status),
        };
        Played { status, tally }
    }
}

/// Tells what was opened, where that was asked for: which blocks are dirty is a look at each of them.
fn tell_opened<R: Wait, C: Served, E: Clock + Eprint>(
    rt: &R,
    client: &C,
    progress: &mut Progress<'_, E>,
) {
    if progress.is_asked() {
        progress.opened(&client.geometry(), client.mapped(rt), client.dirty(rt));
    }
}

/// Plays lines with the first client, up to one that wants more than a client, or the end.
fn play<R: Wait, C: Served, I: Ahead, W: Write, E: Clock + Eprint>(
    rt: &R,
    client: &mut C,
    script: &mut Script<'_, I, W, E>,
) -> Result<Next, StreamFailed> {
    for _ in 0..u64::MAX {
        let Some(line) = next_line(script)? else {
            return Ok(script.join_before(Behind::End));
        };
        match line {
            Line::Join => return Ok(script.join_before(Behind::Lines)),
            Line::Suspend => return Ok(script.join_before(Behind::Suspend)),
            Line::Beside {
                client: other,
                call,
            } => {
                let most = most_lines(&client.geometry(), call);
                if let Some(lane) = ask_beside(rt, script, other, call, most) {
                    return Ok(Next::Begin(lane));
                }
            }
            Line::Asks(Call::Read { at, count }) => read(rt, client, script, at, count)?,
            _ => {
                let answered = answer_line(rt, client, script, line);
                tell(script, answered)?;
            }
        }
    }
    Ok(script.join_before(Behind::End))
}

/// Reads sectors and prints their lines, some blocks at a time: behind a block that is refused nothing is read, and lines before it may have
/// been printed.
fn read<R: Wait, C: Served, I: Ahead, W: Write, E: Clock + Eprint>(
    rt: &R,
    client: &mut C,
    script: &mut Script<'_, I, W, E>,
    at: Sector,
    count: u64,
) -> Result<(), StreamFailed> {
    let geometry = client.geometry();
    let Sector(first) = at;
    let mut rest = Extent { first, count };
    script.progress.begin();
    for _ in 0..u64::MAX {
        let piece = first_piece(&geometry, rest);
        let call = Call::Read {
            at: Sector(piece.first),
            count: piece.count,
        };
        let answered = answer(
            rt,
            client,
            call,
            &mut script.room,
            &mut script.text,
            &mut Unseen,
        );
        script.room.trim();
        let is_last = answered.is_err() || piece.count >= rest.count;
        tell(script, answered)?;
        if is_last {
            break;
        }
        script.text.clear();
        rest.first = rest.first.saturating_add(piece.count);
        rest.count -= piece.count;
        script
            .progress
            .reach(count.saturating_sub(rest.count), count);
    }
    Ok(())
}

/// The sectors of a read that are answered first: they end where a block does. A read outside the origin is refused as a whole.
fn first_piece(geometry: &Geometry, rest: Extent) -> Extent
    ensures first { result.first ≡ rest.first }
    ensures within { result.count ≤ rest.count }
    ensures whole { ¬ IsInside rest.first rest.count (geometry.now.block * geometry.now.origin_blocks) → result.count ≡ rest.count }
{
    if !rest.is_some_within(geometry.origin_sectors()) {
        return rest;
    }
    let size = u64::from(geometry.block);
    let to_end = size - rest.first % size;
    let others = (AT_ONCE / size).saturating_sub(1) * size;
    Extent {
        first: rest.first,
        count: rest.count.min(to_end + others),
    }
}

/// Does what a line asks the first client or the target for, and adds what is answered to the text.
fn answer_line<R: Wait, C: Served, I: Ahead, W: Write, E: Clock + Eprint>(
    rt: &R,
    client: &mut C,
    script: &mut Script<'_, I, W, E>,
    line: Line,
) -> Result<(), Refusal>
    ensures answered { OnOk result ((printed : List ℕ) × WasPlayed C.did script.old.line.items line client.old printed client.new × (string_bytes script.new.text ≡ string_bytes script.old.text ++ printed)) }
    ensures refused { IfErr result (λ refusal. PlayWasRefused C.did C.met script.old.line.items line client.old refusal client.new) }
{
    match line {
        Line::Asks(call) => {
            let answered = answer(
                rt,
                client,
                call,
                &mut script.room,
                &mut script.text,
                &mut script.progress,
            );
            script.room.trim();
            if answered.is_ok() {
                script.tally.done(call);
            }
            answered
        }
        Line::Tick => {
            client.tick(rt)?;
            script.tally.flushed();
            done(&mut script.text)
        }
        Line::Message => {
            follow_line(rt, script.alloc, client, script.line.as_slice())?;
            done(&mut script.text)
        }
        Line::Work => work(rt, client, &mut script.text),
        Line::Status => status(rt, client, &mut script.text),
        _ => Ok(()),
    }
}

/// Asks a client beside the first for what a line says, whose answer may have so many lines: the lane that has to begin for it, if it has
/// not.
fn ask_beside<R: Wait, I: Ahead, W: Write, E: Clock + Eprint>(
    rt: &R,
    script: &mut Script<'_, I, W, E>,
    client: u8,
    call: Call,
    most: u64,
) -> Option<usize>
    requires some { 0 < most }
{
    let asked = Asked {
        number: script.number,
        call,
    };
    script.beside.lane(client)?.put(rt, asked, most);
    let lane = usize::from(client).checked_sub(1)?;
    let has_begun = script.has_begun.get_mut(lane)?;
    if *has_begun {
        return None;
    }
    *has_begun = true;
    Some(lane)
}

/// Waits for all clients beside the first, once what was answered before is out, and prints what they answered, where the writer has not
/// failed.
fn join<R: Wait, I: Ahead, W: Write, E: Clock + Eprint>(
    rt: &R,
    script: &mut Script<'_, I, W, E>,
) -> Result<(), StreamFailed> {
    let before = script.see_out();
    script.told.clear();
    if script.beside.join(rt, &mut script.told).is_err() {
        let printed = print_refusal(Refusal::Memory, &mut script.text, script.writer)?;
        script.status = script.status.max(printed);
    }
    for told in &script.told {
        script.status = script.status.max(told.status);
        script.tally.join(&told.tally);
    }
    if let Some(StreamFailed::Writer) = script.failed {
        return Ok(());
    }
    let printed = match before {
        Ok(()) => print_told(script),
        Err(failed) => Err(failed),
    };
    if let Err(failed) = printed {
        script.failed = Some(failed);
    }
    printed
}

/// Prints what was told at a join, and sees that it is out.
fn print_told<I, W: Write, E>(script: &mut Script<'_, I, W, E>) -> Result<(), StreamFailed> {
    print_all(script.told.as_slice(), script.writer)?;
    see_out(script.writer)
}

/// Prints what a suspend was answered, and goes on with the lines behind it: the target tells how it is, and refuses all else.
fn play_behind<R: Wait, T: Shown, I: Ahead, W: Write, E: Clock + Eprint>(
    rt: &R,
    target: &T,
    script: &mut Script<'_, I, W, E>,
    suspended: Result<(), Refusal>,
) -> Result<(), StreamFailed> {
    script.text.clear();
    let answered = match suspended {
        Ok(()) => {
            script.tally.flushed();
            done(&mut script.text)
        }
        Err(refusal) => Err(refusal),
    };
    tell(script, answered)?;
    for _ in 0..u64::MAX {
        let Some(line) = next_line(script)? else {
            break;
        };
        match line {
            Line::Join => join(rt, script)?,
            Line::Beside { client, call } => {
                ask_beside(rt, script, client, call, 1);
                if let Some(lane) = script.beside.lane(client) {
                    lane.refuse(rt, Refusal::Failed);
                }
            }
            _ => {
                let answered = answer_behind(rt, target, line, &mut script.text);
                tell(script, answered)?;
            }
        }
    }
    join(rt, script)
}

/// What a line is answered behind a suspend.
fn answer_behind<R: Wait, T: Shown>(
    rt: &R,
    target: &T,
    line: Line,
    text: &mut String,
) -> Result<(), Refusal> {
    match line {
        Line::Nothing => Ok(()),
        Line::Status => {
            target.status(rt, text)?;
            text.push_str("\n")?;
            Ok(())
        }
        _ => Err(Refusal::Failed),
    }
}

/// Prints what the last line was answered, and counts it where it was refused.
fn tell<I, W: Write, E>(
    script: &mut Script<'_, I, W, E>,
    answered: Result<(), Refusal>,
) -> Result<(), StreamFailed>
    ensures printed { OnOk result (OnOk answered (Appends (W.contents script.old.writer.now) (W.contents script.new.writer.now) (string_bytes script.old.text))) }
{
    let printed = match answered {
        Ok(()) => print(&script.text, script.writer)?,
        Err(refusal) => {
            script.tally.note(script.number, Said::Refused(refusal));
            print_refusal(refusal, &mut script.text, script.writer)?
        }
    };
    script.status = script.status.max(printed);
    Ok(())
}

/// Reads the next line, once all answers are out where it may have to wait for it. None at the end of the script, and behind a line that is none of a script's, which is told.
fn next_line<I: Ahead, W: Write, E>(
    script: &mut Script<'_, I, W, E>,
) -> Result<Option<Line>, StreamFailed> {
    script.number = script.number.saturating_add(1);
    script.text.clear();
    let input = match input_ahead(script.reader, &mut script.line) {
        Some(input) => input,
        None => {
            see_out(script.writer)?;
            next_input(script.reader, &mut script.line)?
        }
    };
    match input {
        Input::Says(line) => Ok(Some(line)),
        Input::TooLong => {
            tell(script, Err(Refusal::Memory))?;
            // It is told; an empty line is answered by the text as it stands.
            script.text.clear();
            Ok(Some(Line::Nothing))
        }
        Input::Bad => {
            script.tally.note(script.number, Said::BadLine);
            let printed = print_bad_line(script.number, &mut script.text, script.writer)?;
            script.status = script.status.max(printed);
            Ok(None)
        }
        Input::End => Ok(None),
    }
}

/// What comes next in a script.
enum Input {
    Says(Line),
    /// A line outside the table of lines, or one that is too long to be read.
    Bad,
    /// A line that has no room; it was passed over.
    TooLong,
    End,
}

/// Reads the next line where it was read ahead: a message alone is copied, since its text is needed later.
fn input_ahead<I: Ahead>(reader: &mut I, copy: &mut Vec<u8>) -> Option<Input> {
    let line = reader.line_ahead()?;
    let count = line.len();
    if count as u64 >= MOST_OF_A_LINE {
        return None;
    }
    let input = match read_line(line) {
        Some(Line::Message) => {
            copy.clear();
            match copy.extend_from_slice(line) {
                Ok(()) => Input::Says(Line::Message),
                Err(_) => Input::TooLong,
            }
        }
        Some(said) => Input::Says(said),
        None => Input::Bad,
    };
    reader.consume(count + 1);
    Some(input)
}

/// Reads the next line, which may have to be waited for.
fn next_input<I: Ahead>(reader: &mut I, line: &mut Vec<u8>) -> Result<Input, StreamFailed> {
    line.clear();
    match reader.take(MOST_OF_A_LINE).read_until(b'\n', line) {
        Ok(0) => Ok(Input::End),
        Ok(_) => Ok(read_input(line.as_slice())),
        Err(error) if error.kind() == ErrorKind::OutOfMemory => {
            reader.skip_until(b'\n').map_err(|_| StreamFailed::Reader)?;
            Ok(Input::TooLong)
        }
        Err(_) => Err(StreamFailed::Reader),
    }
}

/// What the bytes of a line are, with its line break where it has one.
fn read_input(line: &[u8]) -> Input {
    if line.len() as u64 >= MOST_OF_A_LINE && !line.ends_with(b"\n") {
        return Input::Bad;
    }
    match read_line(without_break(line)) {
        Some(said) => Input::Says(said),
        None => Input::Bad,
    }
}
