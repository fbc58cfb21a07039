//! A write-back block cache over three files: it formats them, and serves a script.
#![tactic(auto)]

mod arguments;
mod help;

use crate::arguments::{Asked, Task, USAGE, read_arguments};
use crate::help::texts;
use std::io;
use std::io::{BufReader, BufWriter, IsTerminal, Read};
use std::process::ExitCode;
use std::sync::Wait;
use std::thread::Threads;
use std::time::Clock;
use wb_arguments::{NoTask, STREAM_FAILED, command_words};
use wb_dialogue::Progress;
use wb_files::{Alarm, Awaited, ErrorLog, MarkPlace, Marker, Patient, hold_streams};
use wb_opened::{Inspection, Rigor, Unserved};
use wb_script::{
    Consent, Course, Ended, Notice, Overwriting, Overwritten, Reason, Wishes, choose_course,
    format_files, refused, run,
};
use wb_types::Refusal;

/// So many bytes of answers are held at most while further lines of a script are at hand: 64 KiB.
const MOST_HELD: usize = 65_536;

/// The program's name, as its messages have it.
const PROGRAM: &str = "wbcache";

fn main(rt: HostRuntime) -> ExitCode {
    // Before any file is opened.
    match hold_streams(&rt) {
        Ok(_held) => {
            let log = ErrorLog::new(rt, rt.alloc());
            let code = serve(&rt, &rt, &log);
            log.finish();
            ExitCode::from(code)
        }
        Err(error) => {
            let _ = eprintln!(rt; "wbcache: standard streams: {error}");
            ExitCode::from(STREAM_FAILED)
        }
    }
}

/// Does what the arguments ask, and gives the exit status. Who waits or starts threads does so by the second handle.
fn serve<T: Threads + Wait + Clock + Sync, E: Clock + Eprint + Marker + Sync>(
    rt: &HostRuntime,
    waits: &T,
    log: &E,
) -> u8 {
    let words = match command_words(rt, USAGE) {
        Ok(words) => words,
        Err(why) => return no_task(rt, why),
    };
    let Ok(texts) = texts(rt.alloc()) else {
        return no_memory(rt);
    };
    let asked = match read_arguments(rt, words.as_slice(), texts.as_str()) {
        Ok(asked) => asked,
        Err(why) => return no_task(rt, why),
    };
    let mut patience = Patient::new(waits, asked.wait);
    match asked.task {
        Task::Format(table, wishes) => format(rt, waits, log, table, wishes, &mut patience),
        Task::Run(table, verifies) => {
            play(
                rt,
                waits,
                log,
                table,
                verifies,
                asked.verbose,
                &mut patience,
            )
        }
        Task::Replay => replay(rt),
    }
}

/// Formats the metadata over the files of a table, and gives the exit status.
fn format<T: Wait + Clock, E: Eprint + Marker>(
    rt: &HostRuntime,
    waits: &T,
    log: &E,
    table: &str,
    wishes: Wishes,
    patience: &mut Patient<'_, T>,
) -> u8 {
    let alarm = Alarm::new(log, PROGRAM, None);
    let mut terminal = Terminal {
        rt,
        log,
        wishes,
        is_there: rt.stdin().is_terminal(),
    };
    let ended = format_files(
        rt,
        waits,
        rt.alloc(),
        table,
        patience,
        &alarm,
        &mut terminal,
        &mut io::writer(rt),
    );
    tell(log, &alarm, &ended)
}

/// Runs a script over the files of a table, and gives the exit status. What an inspection finds is said, and refuses nothing but files that
/// the system uses.
fn play<T: Threads + Wait + Clock + Sync, E: Clock + Eprint + Marker + Sync>(
    rt: &HostRuntime,
    waits: &T,
    log: &E,
    table: &str,
    verifies: bool,
    verbose: bool,
    patience: &mut Patient<'_, T>,
) -> u8 {
    let alloc = rt.alloc();
    let reader = BufReader::new(alloc, awaited(rt, rt.reader()));
    let writer = BufWriter::with_capacity(alloc, MOST_HELD, awaited(rt, rt.stdout()));
    let (Ok(mut reader), Ok(mut writer), Ok(mark)) = (
        reader,
        writer,
        MarkPlace::of_table(rt, table),
    ) else {
        return no_memory(rt);
    };
    let rigor = Rigor {
        refuses_failed: false,
        refuses_stale: false,
        refuses_older: false,
        verifies,
    };
    let alarm = Alarm::new(log, PROGRAM, Some(&mark));
    let ended = run(
        rt,
        waits,
        alloc,
        table,
        patience,
        &alarm,
        &mut Inspection::new(rt, log, PROGRAM, &mark, rigor),
        &mut reader,
        &mut writer,
        Progress::new(log, verbose),
    );
    tell(log, &alarm, &ended)
}

/// Who formats, with these wishes, on a terminal or not.
#[derive(Drop)]
struct Terminal<'a, E> {
    rt: &'a HostRuntime,
    log: &'a E,
    wishes: Wishes,
    is_there: bool,
}

impl<'a, E: Eprint> Consent for Terminal<'a, E> {
    ghost use Rattle.wbcache.specs.Consents.{MayGoOn};

    ghost allows = { λ terminal over. MayGoOn over terminal.wishes terminal.is_there };

    /// Says what is written over, and asks on a terminal, where no wish answers.
    fn may_format(&mut self, file: &str, over: Overwritten) -> bool {
        let overwriting = Overwriting { file, over };
        match choose_course(over, self.wishes, self.is_there) {
            Course::GoesOn => {
                let _ = eprintln!(self.log; "wbcache: {overwriting}");
                true
            }
            Course::Asks => {
                let _ = eprintln!(self.rt; "wbcache: {overwriting}");
                self.is_agreed()
            }
            Course::Refuses => {
                let remedy = over.remedy();
                let _ = eprintln!(self.log; "wbcache: {overwriting}; {remedy}");
                false
            }
        }
    }

    fn tell(&mut self, notice: Notice<'_>) {
        let _ = eprintln!(self.log; "wbcache: {notice}");
    }
}

impl<'a, E> Terminal<'a, E> {
    /// Asks, and reads the answer.
    fn is_agreed(&self) -> bool {
        let _ = eprint!(self.rt; "wbcache: format? [y/N] ");
        let mut answer = [0; 1];
        match self.rt.stdin().read(&mut answer) {
            Ok(1) => answer == [b'y'],
            _ => false,
        }
    }
}

/// Plays a replay, and gives the exit status.
fn replay(rt: &HostRuntime) -> u8 {
    match BufReader::new(rt.alloc(), awaited(rt, rt.reader())) {
        Ok(mut reader) => {
            wb_replay::run(rt.alloc(), &mut reader, &mut awaited(rt, rt.stdout())).code()
        }
        Err(_) => no_memory(rt),
    }
}

/// A standard stream that is asked again where it has nothing now.
fn awaited<S>(rt: &HostRuntime, stream: S) -> Awaited<'_, HostRuntime, S> {
    Awaited { clock: rt, stream }
}

/// Says why a run ended as it did, and gives the exit status. The failure of a device that was told when it came is not told again.
fn tell<E: Eprint>(log: &E, alarm: &Alarm<'_, E>, ended: &Ended<'_>) -> u8 {
    match &ended.reason {
        Some(Reason::Unserved(Unserved::Refused(Refusal::Io(device)))) => alarm.note(*device),
        Some(reason) => {
            let _ = eprintln!(log; "wbcache: {reason}");
        }
        None => {}
    }
    ended.code
}

/// Gives the exit status where there is no task.
fn no_task(rt: &HostRuntime, why: NoTask) -> u8 {
    match why {
        NoTask::Told(code) => code,
        NoTask::Memory => no_memory(rt),
    }
}

/// Says that not even a script can be begun.
fn no_memory<R: AllocGlobal + Print>(rt: &R) -> u8 {
    let unserved = Unserved::Refused(Refusal::Memory);
    refused(rt.alloc(), unserved, &mut io::writer(rt)).code
}
