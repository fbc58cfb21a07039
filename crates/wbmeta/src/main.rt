//! What lies on a cache's metadata: whether it can be opened, which blocks are cached, and whether those that are clean are the origin's; having
//! what is dirty written home; and detaching the cache.
#![tactic(auto)]

mod arguments;
mod detaching;
mod draining;
mod ending;
mod found;
mod lives;
mod progress;
mod reading;
mod shadow;
mod telling;
mod verifying;
mod writing;

use crate::arguments::{Asked, Task, USAGE, read_arguments};
use crate::ending::{Aim, status_of};
use crate::reading::{Reading, Wanted};
use crate::telling::{MOST_HELD, Untold, tell};
use crate::writing::Writing;
use std::io::{BufWriter, IsTerminal, Write};
use std::process::ExitCode;
use std::sync::Wait;
use std::thread::Threads;
use std::time::Clock;
use wb_arguments::{NoTask, STREAM_FAILED, command_words};
use wb_files::{
    Alarm, ErrorLog, MarkPlace, Marker, Patient, Unopened, hold_streams, open_table,
    open_table_to_read,
};
use wb_opened::{Inspection, Rigor};
use wb_table::{find_table_fault, read_table};
use wb_types::{Dev, Refusal};

/// The program's name, as its messages have it.
const PROGRAM: &str = "wbmeta";

fn main(rt: HostRuntime) -> ExitCode {
    // Before any file is opened.
    match hold_streams(&rt) {
        Ok(_held) => {
            let log = ErrorLog::new(rt, rt.alloc());
            let code = serve(&rt, &rt, &log);
            log.finish();
            ExitCode::from(code)
        }
        Err(error) => {
            let _ = eprintln!(rt; "wbmeta: standard streams: {error}");
            ExitCode::from(STREAM_FAILED)
        }
    }
}

/// Does what the arguments ask, and gives the exit status. Who waits or starts threads does so by the second handle.
fn serve<T: Threads + Wait + Clock + Sync, E: Eprint + Marker + Sync>(
    rt: &HostRuntime,
    waits: &T,
    log: &E,
) -> u8 {
    let words = match command_words(rt, USAGE) {
        Ok(words) => words,
        Err(why) => return no_task(log, why),
    };
    let asked = match read_arguments(rt, words.as_slice()) {
        Ok(asked) => asked,
        Err(why) => return no_task(log, why),
    };
    match asked.task {
        Task::Check => read(rt, log, asked.table, Wanted::Counts),
        Task::Dump => read(rt, log, asked.table, Wanted::List),
        Task::Verify => read(rt, log, asked.table, Wanted::Differences),
        Task::Writeback => write(rt, waits, log, asked, Aim::AllHome),
        Task::Detach => write(rt, waits, log, asked, Aim::Empty),
        Task::Cleared => clear(rt, log, asked.table),
    }
}

/// Reads the files of a table, tells of them, and gives the exit status.
fn read<'a, E: Eprint + Marker>(rt: &HostRuntime, log: &'a E, text: &'a str, wanted: Wanted) -> u8 {
    let Ok(mut writer) = BufWriter::with_capacity(rt.alloc(), MOST_HELD, rt.stdout()) else {
        return no_memory(log);
    };
    let alarm = Alarm::new(log, PROGRAM, None);
    let told = match open_table_to_read(rt, text, &alarm) {
        Ok((table, disks, geometry, is_held)) => {
            if is_held {
                let _ = eprintln!(log;
                    "wbmeta: a server holds the cache: this is the state last committed"
                );
            }
            let asked = Reading {
                alloc: rt.alloc(),
                rt: log,
                table,
                geometry,
                wanted,
                is_held,
                is_read: rt.stdout().is_terminal(),
                is_shown: rt.stderr().is_terminal(),
            };
            asked.answer(disks, &mut writer)
        }
        Err(unopened) => refuse(rt, log, &unopened, &mut writer),
    };
    let flushed = writer.flush();
    match (told, flushed) {
        (Ok(code), Ok(())) => code,
        (Err(Untold::Memory), _) => no_memory(log),
        _ => STREAM_FAILED,
    }
}

/// Says why the files of a table cannot serve, prints the refusal, and gives the exit status.
fn refuse<E: Eprint, W: Write>(
    rt: &HostRuntime,
    log: &E,
    unopened: &Unopened<'_>,
    writer: &mut W,
) -> Result<u8, Untold> {
    let _ = eprintln!(log; "wbmeta: {unopened}");
    let refusal = unopened.refusal();
    tell(rt.alloc(), Err(refusal), writer).map(|_| status_of(refusal))
}

/// Has all dirty blocks over the files of a table written home and the cache left so, tells how many, and gives the exit status.
fn write<T: Threads + Wait + Clock + Sync, E: Eprint + Marker + Sync>(
    rt: &HostRuntime,
    waits: &T,
    log: &E,
    asked: Asked<'_>,
    aim: Aim,
) -> u8 {
    let mut writer = rt.stdout();
    let printed = match write_home(rt, waits, log, asked, aim) {
        Ok(blocks) => {
            let said = writeln!(writer, "ok {blocks}");
            said.map(|_| 0)
        }
        Err(refusal) => {
            let said = writeln!(writer, "refused {refusal}");
            said.map(|_| status_of(refusal))
        }
    };
    match printed {
        Ok(code) => code,
        Err(_) => STREAM_FAILED,
    }
}

/// Has all dirty blocks over the files of a table written home and the cache left so: how many blocks that was.
fn write_home<'a, T: Threads + Wait + Clock + Sync, E: Eprint + Marker + Sync>(
    rt: &HostRuntime,
    waits: &'a T,
    log: &'a E,
    asked: Asked<'a>,
    aim: Aim,
) -> Result<u32, Refusal> {
    let Ok(mark) = MarkPlace::of_table(rt, asked.table) else {
        return Err(Refusal::Memory);
    };
    let alarm = Alarm::new(log, PROGRAM, Some(&mark));
    let opened = match open_table(rt, asked.table, &mut Patient::new(waits, asked.wait)) {
        Ok((table, files, geometry)) => match files.disks(waits, &alarm) {
            Ok(disks) => {
                let writing = Writing {
                    alloc: rt.alloc(),
                    waits,
                    log,
                    table,
                    geometry,
                    aim,
                    is_shown: rt.stderr().is_terminal(),
                };
                let rigor = Rigor {
                    refuses_failed: true,
                    refuses_stale: true,
                    refuses_older: !asked.accepts_older,
                    verifies: asked.verifies,
                };
                let mut inspection = Inspection::new(rt, log, PROGRAM, &mark, rigor);
                return writing.perform(disks, &mut inspection);
            }
            Err(unopened) => unopened,
        },
        Err(unopened) => unopened,
    };
    let _ = eprintln!(log; "wbmeta: {opened}");
    Err(opened.refusal())
}

/// Takes away the mark of a device that failed beside the metadata of a table, and gives the exit status.
fn clear<E: Eprint>(rt: &HostRuntime, log: &E, text: &str) -> u8 {
    let printed = match clear_mark(rt, log, text) {
        Ok(()) => writeln!(rt.stdout(), "ok").map(|_| 0),
        Err(refusal) => {
            let said = writeln!(rt.stdout(), "refused {refusal}");
            said.map(|_| status_of(refusal))
        }
    };
    match printed {
        Ok(code) => code,
        Err(_) => STREAM_FAILED,
    }
}

/// Takes the mark away where there is one: `BadTable`, `Memory`, and `Io` of the metadata where the system refuses it.
fn clear_mark<E: Eprint>(rt: &HostRuntime, log: &E, text: &str) -> Result<(), Refusal> {
    let table = match read_table(text) {
        Ok(table) => table,
        Err(refusal) => {
            let fault = find_table_fault(text);
            let _ = eprintln!(log; "wbmeta: {fault}");
            return Err(refusal);
        }
    };
    let place = MarkPlace::beside(rt, table.metadata)?;
    match place.clear(rt) {
        Ok(_) => Ok(()),
        Err(error) => {
            let path = place.path();
            let _ = eprintln!(log; "wbmeta: {path}: {error}");
            Err(Refusal::Io(Dev::Metadata))
        }
    }
}

/// Gives the exit status where there is no task.
fn no_task<E: Eprint>(log: &E, why: NoTask) -> u8 {
    match why {
        NoTask::Told(code) => code,
        NoTask::Memory => no_memory(log),
    }
}

/// Says that there is no memory.
fn no_memory<E: Eprint>(log: &E) -> u8 {
    let _ = eprintln!(log; "wbmeta: 7 Memory");
    status_of(Refusal::Memory)
}
