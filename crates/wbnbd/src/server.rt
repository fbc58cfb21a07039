//! Opening a target, and serving it.

ghost use Rattle.std.specs.Prelude.{◌≡◌, All, IfErr, IfNone};
ghost use Rattle.std.specs.Bool.{OnTrue};
ghost use Rattle.wbnbd.specs.Endings.{DidFlush, DidServe, EndedWell};

use crate::arguments::Asked;
use crate::beside::{Beside, Peer, Told};
use crate::control::{Control, Lines};
use crate::ended::Ended;
use crate::pace::{Pace, Place};
use crate::teller::{PROGRAM, Teller};
use std::alloc::{AllocError, Global};
use std::fs::File;
use std::io::{Read, Write};
use std::rt::Files;
use std::sync::Wait;
use std::thread::Threads;
use std::time::Clock;
use wb_files::{MarkPlace, Marker, Patient};
use wb_nbd::{Broken, Connection};
use wb_opened::{Inspection, Rigor};
use wb_services::serve_all;
use wb_types::Refusal;

/// How many requests are served at once, at most.
const SERVERS: u64 = 16;

/// Opens the cache over the files of a table, in its mode and with its policy, and serves the origin to the client whose bytes are
/// read and written here, up to 16 requests at once, with a worker beside. Once the connection has ended or broken, accesses are
/// settled and all is flushed, and the target is suspended, so that the next opening finds the cache clean. All three files are locked as long; where another program
/// holds one, it is waited for.
///
/// 0 where the client ended the connection or went between two requests and all was flushed and suspended, 1 where the files cannot serve or there is no memory, 3 where
/// a device failed, 4 where the connection broke.
pub fn run<
    'a,
    R: Files<File = File> + AllocGlobal + Clock + Clone + Drop,
    T: Threads + Wait + Clock + Sync,
    E: Eprint + Marker + Sync,
    I: Read + Drop + Send,
    O: Write + Drop + Send,
>(rt: &R, waits: &T, log: &E, alloc: Global, asked: Asked<'a>, reader: I, writer: O) -> Ended<'a> {
    let pace = Pace::new(SERVERS);
    let Ok(mark) = MarkPlace::of_table(rt, asked.table) else {
        return Ended::refused(Refusal::Memory);
    };
    let mut inspection = Inspection::new(rt, log, PROGRAM, &mark, rigor_of(&asked));
    let teller = Teller::new(waits, log, asked.quiet, &mark);
    let connection = Connection::new(reader, writer);
    let lines = match asked.control {
        Some(path) => match Lines::open(rt, path) {
            Ok(lines) => Some(lines),
            Err(error) => return Ended::uncontrolled(path, error),
        },
        None => None,
    };
    let Ok(services) = services_of(alloc, lines, &teller, &pace, &connection) else {
        return Ended::refused(Refusal::Memory);
    };
    let mut patience = Patient::new(waits, asked.wait);
    match serve_all(
        rt,
        waits,
        alloc,
        asked.table,
        &mut patience,
        &teller.alarm,
        &mut inspection,
        services,
    ) {
        Ok((told, suspended)) => ended_of(told.as_slice(), suspended),
        Err(unserved) => Ended::unserved(unserved),
    }
}

/// What refuses an opening by the server: all that is found, but what the arguments let pass.
fn rigor_of(asked: &Asked<'_>) -> Rigor {
    Rigor {
        refuses_failed: true,
        refuses_stale: true,
        refuses_older: !asked.accepts_older,
        verifies: asked.verifies,
    }
}

/// One who works, one who answers control lines where there are such, and behind them those who serve: where no thread can be made the last of them are done first, and nobody waits for one behind
/// itself. So with too few threads they serve one after the other, and who works finds the connection over.
fn services_of<'a, T, E, I, O>(
    alloc: Global,
    lines: Option<Lines>,
    teller: &'a Teller<'a, T, E>,
    pace: &'a Pace,
    connection: &'a Connection<I, O>,
) -> Result<Vec<Beside<'a, T, E, I, O>>, AllocError> {
    let mut services = Vec::new(alloc);
    services
        .push(Beside::Work(teller, pace))
        .map_err(|_| AllocError)?;
    if let Some(lines) = lines {
        let control = Control {
            alloc,
            lines,
            pace,
            teller,
        };
        services
            .push(Beside::Answer(control))
            .map_err(|_| AllocError)?;
    }
    for _ in 0..SERVERS {
        let peer = Peer {
            alloc,
            connection,
            place: Place { pace },
            teller,
        };
        services.push(Beside::Serve(peer)).map_err(|_| AllocError)?;
    }
    Ok(services)
}

/// How a run ended, by what each server and the suspend behind them came to. A refused flush counts before all else: then acknowledged data
/// may be lost. A connection that broke for one server broke, and one that was served by one was served. A client that went between two
/// requests has not broken it.
fn ended_of<'a>(told: &[Result<Told, Refusal>], suspended: Result<(), Refusal>) -> Ended<'a>
    ensures well { result.code ≡ 0 → All EndedWell told.now × DidServe told.now × IfErr suspended (λ refusal. ⊥) }
    ensures lost { ¬ All DidFlush told.now → result.code ≡ 3 }
{
    if !told.iter().all(|one| has_flushed(one)) {
        return Ended::lost();
    }
    let mut refused = None;
    let mut unserved = Some(Refusal::Memory);
    for one in told {
        match one {
            Ok(how) => match how {
                Told::Served {
                    connection,
                    flushed,
                } => {
                    if let Some(broken) = break_of(connection) {
                        return Ended::broken(broken);
                    }
                    unserved = None;
                    if let Err(refusal) = flushed {
                        refused = Some(*refusal);
                    }
                }
                Told::Worked => {}
            },
            Err(refusal) => {
                if unserved.is_some() {
                    unserved = Some(*refusal);
                }
            }
        }
    }
    match refused.or(unserved).or(suspended.err()) {
        Some(refusal) => Ended::refused(refusal),
        None => Ended::well(),
    }
}

/// Whether a server's flush at its end was not refused, if it made one.
fn has_flushed(told: &Result<Told, Refusal>) -> bool
    ensures { OnTrue result (DidFlush told.now) }
{
    match told {
        Ok(Told::Served { flushed, .. }) => flushed.is_ok(),
        _ => true,
    }
}

/// Why a connection broke, if it did; where its client went between two requests it has not.
fn break_of(connection: &Result<(), Broken>) -> Option<Broken>
    ensures { IfNone result (IfErr connection.now (λ broken. broken ≡ Broken.Gone)) }
{
    match connection {
        Ok(()) => None,
        Err(broken) => {
            if *broken == Broken::Gone {
                None
            } else {
                Some(*broken)
            }
        }
    }
}
