//! Scripts over the files of a table.

use crate::ended::{Ended, end_of, refused};
use std::alloc::Global;
use std::fs::File;
use std::io::Write;
use std::rt::Files;
use std::sync::Wait;
use std::thread::Threads;
use std::time::Clock;
use wb_dialogue::{Ahead, Progress};
use wb_files::{Patience, Watch};
use wb_lanes::serve_lanes;
use wb_opened::{Inspector, Unserved};
use wb_play::{Beside, Script};
use wb_types::Refusal;

/// Runs a script over the files of a table, and gives the exit status with the reason of what was refused: the cache is opened,
/// in the table's mode and with its policy, and a first client plays the script. A line that another client is asked is done on a thread of
/// that client, which has files of its own, and what it answered is printed at a join. Each other line's answer is written before the next
/// line is read, and all answers are out before the reader is asked for a line that it has not read ahead, before a join waits, and at
/// the end. What was opened and how far a long request of the first client has come is told where that was asked for. All three
/// files are locked until the script ends, which leaves the cache without the clean flag.
///
/// 0 where each line was answered, 1 where the opening or a line was refused or one was no line of a script, 3 where a device
/// failed, 4 where the reader or the writer did.
pub fn run<
    'a,
    R: Files<File = File>,
    T: Threads + Wait + Sync,
    P: Patience,
    N: Watch + Sync,
    K: Inspector,
    I: Ahead,
    W: Write,
    E: Clock + Eprint,
>(
    rt: &R,
    waits: &T,
    alloc: Global,
    table: &'a str,
    patience: &mut P,
    watch: &N,
    inspector: &mut K,
    reader: &mut I,
    writer: &mut W,
    progress: Progress<'_, E>,
) -> Ended<'a> {
    let Ok(beside) = Beside::new(alloc) else {
        return refused(alloc, Unserved::Refused(Refusal::Memory), writer);
    };
    let Ok(script) = Script::new(alloc, &beside, reader, &mut *writer, progress) else {
        return refused(alloc, Unserved::Refused(Refusal::Memory), writer);
    };
    match serve_lanes(
        rt, waits, alloc, table, patience, watch, inspector, &beside, script,
    ) {
        Ok(played) => end_of(played),
        Err(unserved) => refused(alloc, unserved, writer),
    }
}
