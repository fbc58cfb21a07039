//! A network block device over a write-back cache: it serves one client, on standard input and output.
#![tactic(auto)]

mod arguments;
mod beside;
mod control;
mod ended;
mod lent;
mod pace;
mod server;
mod teller;

use crate::arguments::{USAGE, read_arguments};
use crate::ended::Ended;
use std::io::{BufReader, BufWriter};
use std::process::ExitCode;
use std::sync::Wait;
use std::thread::Threads;
use std::time::Clock;
use wb_arguments::{NoTask, STREAM_FAILED, command_words};
use wb_files::{Awaited, ErrorLog, Marker, hold_streams};
use wb_types::Refusal;

/// Bytes of what the client sends, and of what it is told, that are kept for one call of the system: 256 KiB.
const BUFFER: usize = 262_144;

fn main(rt: HostRuntime) -> ExitCode {
    // Before any file is opened.
    match hold_streams(&rt) {
        Ok(_held) => {
            let log = ErrorLog::new(rt, rt.alloc());
            let code = serve(&rt, &rt, &log);
            log.finish();
            ExitCode::from(code)
        }
        Err(error) => {
            let _ = eprintln!(rt; "wbnbd: standard streams: {error}");
            ExitCode::from(STREAM_FAILED)
        }
    }
}

/// Does what the arguments ask, and gives the exit status. Who waits or starts threads does so by the second handle.
fn serve<T: Threads + Wait + Clock + Sync, E: Eprint + Marker + Sync>(
    rt: &HostRuntime,
    waits: &T,
    log: &E,
) -> u8 {
    let alloc = rt.alloc();
    let words = match command_words(rt, USAGE) {
        Ok(words) => words,
        Err(why) => return no_task(log, why),
    };
    let asked = match read_arguments(rt, words.as_slice()) {
        Ok(asked) => asked,
        Err(why) => return no_task(log, why),
    };
    let input = Awaited {
        clock: waits,
        stream: rt.stdin(),
    };
    let output = Awaited {
        clock: waits,
        stream: rt.stdout(),
    };
    let reader = BufReader::with_capacity(alloc, BUFFER, input);
    let writer = BufWriter::with_capacity(alloc, BUFFER, output);
    match (reader, writer) {
        (Ok(reader), Ok(writer)) => {
            tell(
                log,
                &server::run(rt, waits, log, alloc, asked, reader, writer),
            )
        }
        _ => tell(log, &Ended::refused(Refusal::Memory)),
    }
}

/// Says why a run did not end well, and gives the exit status.
fn tell<E: Eprint>(log: &E, ended: &Ended<'_>) -> u8 {
    if let Some(reason) = &ended.reason {
        let _ = eprintln!(log; "wbnbd: {reason}");
    }
    ended.code
}

/// Gives the exit status where there is no task.
fn no_task<E: Eprint>(log: &E, why: NoTask) -> u8 {
    match why {
        NoTask::Told(code) => code,
        NoTask::Memory => tell(log, &Ended::refused(Refusal::Memory)),
    }
}
