//! What is done beside one another: a connection is served by several, and orders are carried out.

ghost use Rattle.std.specs.Prelude.{◌≡◌, ◌<◌, ◌*◌, OnOk, IfErr};
ghost use Rattle.wb_opened.specs.Deeds.{Flushed as HasFlushed};
ghost use Rattle.wb_opened.specs.Refused.{Flushes};

use crate::control::{Control, answer_lines};
use crate::lent::Lent;
use crate::pace::{Pace, Place, UntilTick};
use crate::teller::Teller;
use std::alloc::Global;
use std::io::{Read, Write};
use std::sync::Wait;
use std::time::Clock;
use wb_nbd::{Broken, Connection, MOST_BYTES, Terms};
use wb_opened::{Served, Service};
use wb_types::{Geometry, Refusal, SECTOR_BYTES};

/// What a client of the target does.
#[derive(Drop)]
pub enum Beside<'a, T, E, I, O> {
    /// To serve the one connection.
    Serve(Peer<'a, T, E, I, O>),
    /// To carry out orders until it is over.
    Work(&'a Teller<'a, T, E>, &'a Pace),
    /// To answer the lines of a control file until it is over.
    Answer(Control<'a, T, E>),
}

/// The other end of a connection that is to be served.
#[derive(Drop)]
pub struct Peer<'a, T, E, I, O> {
    pub alloc: Global,
    pub connection: &'a Connection<I, O>,
    pub place: Place<'a>,
    pub teller: &'a Teller<'a, T, E>,
}

/// How it went.
#[derive(Clone, Copy)]
pub enum Told {
    Served {
        connection: Result<(), Broken>,
        /// The flush at its end, by who ends last.
        flushed: Result<(), Refusal>,
    },
    Worked,
}

impl<'a, T: Clock, E: Eprint, I: Read, O: Write> Service for Beside<'a, T, E, I, O> {
    type Told = Told;

    fn serve<R: Wait, S: Served>(self, rt: &R, client: &mut S) -> Told {
        match self {
            Beside::Serve(peer) => serve(rt, client, peer),
            Beside::Work(teller, pace) => {
                work(rt, client, teller, pace);
                Told::Worked
            }
            Beside::Answer(control) => {
                answer_lines(rt, client, control);
                Told::Worked
            }
        }
    }
}

/// Serves a connection beside others; who ends last makes durable what was written. Who comes after that has nothing to do.
fn serve<R: Wait, S: Served, T, E: Eprint, I: Read, O: Write>(
    rt: &R,
    client: &mut S,
    peer: Peer<'_, T, E, I, O>,
) -> Told {
    let Peer {
        alloc,
        connection,
        place,
        teller,
    } = peer;
    let pace = place.pace;
    let is_late = pace.enter();
    if teller.begins() {
        teller.opened(&client.geometry(), client.mapped(rt), client.dirty(rt));
    }
    let connection = talk(rt, client, pace, alloc, connection, teller);
    pace.end();
    let flushed = if !is_late && pace.leave() {
        finish(rt, client, alloc, teller)
    } else {
        Ok(())
    };
    drop(place);
    Told::Served {
        connection,
        flushed,
    }
}

/// Makes durable what was written, and tells how the cache stands.
fn finish<R: Wait, S: Served, T, E: Eprint>(
    rt: &R,
    client: &mut S,
    alloc: Global,
    teller: &Teller<'_, T, E>,
) -> Result<(), Refusal>
    ensures flushed { OnOk result (S.did client.old HasFlushed client.new) }
    ensures refused { IfErr result (λ refusal. S.met client.old Flushes refusal client.new) }
{
    let flushed = client.flush(rt);
    if let Err(refusal) = flushed {
        note(teller, refusal);
    }
    let mut status = String::new(alloc);
    if teller.is_asked() && client.status(rt, &mut status).is_ok() {
        teller.say(status.as_str());
    }
    flushed
}

/// Serves requests until the connection ends or breaks.
fn talk<R: Wait, S: Served, T, E: Eprint, I: Read, O: Write>(
    rt: &R,
    client: &mut S,
    pace: &Pace,
    alloc: Global,
    connection: &Connection<I, O>,
    teller: &Teller<'_, T, E>,
) -> Result<(), Broken> {
    let terms = terms_of(&client.geometry());
    let size = client.geometry().origin_sectors();
    let mut lent = Lent {
        rt,
        client,
        pace,
        teller,
        size,
    };
    let ended = connection.serve(rt, alloc, &terms, &mut lent);
    let Lent {
        rt: _,
        client: _,
        pace: _,
        teller: _,
        size: _,
    } = lent;
    ended
}

/// Carries out orders until the connection is over or the target has failed. A tick that there is no memory or no generation for
/// is left out, and so is one for which nothing is dirty, where no request asks for it.
fn work<R: Wait, S: Served, T: Clock, E: Eprint>(
    rt: &R,
    client: &mut S,
    teller: &Teller<'_, T, E>,
    pace: &Pace,
) {
    let gate = UntilTick {
        clock: teller.rt,
        pace,
    };
    for _ in rt.forever() {
        if let Err(refusal) = client.worker(rt, &gate) {
            note(teller, refusal);
            return;
        }
        if pace.has_ended() {
            return;
        }
        let is_busy = pace.is_busy();
        pace.begin_anew();
        pace.look();
        if is_busy || client.dirty(rt) > 0 {
            pace.found_dirty();
            if let Err(refusal) = client.tick(rt) {
                note(teller, refusal);
            }
        }
    }
}

/// Tells of a device that failed.
fn note<T, E: Eprint>(teller: &Teller<'_, T, E>, refusal: Refusal) {
    if let Refusal::Io(device) = refusal {
        teller.alarm.note(device);
    }
}

/// What a client is told of the origin: a request is best of one block, where its size is a power of two, and else of the greatest
/// power of two that divides it.
fn terms_of(geometry: &Geometry) -> Terms
    ensures size { result.size ≡ geometry.now.block * geometry.now.origin_blocks * 512 }
    ensures preferred { 0 < result.preferred }
{
    let block = u64::from(geometry.block) * SECTOR_BYTES as u64;
    let mut preferred = u64::from(MOST_BYTES);
    while preferred > 512 && block % preferred != 0 {
        preferred /= 2;
    }
    Terms {
        size: geometry.origin_sectors() * SECTOR_BYTES as u64,
        preferred: preferred as u32,
    }
}
