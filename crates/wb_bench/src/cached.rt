//! Requests of a target's clients on blocks that are cached, to be timed.

use crate::clock::passed;
use crate::crowd::Crowd;
use std::alloc::Global;
use std::sync::Wait;
use std::thread::Threads;
use std::time::{Clock, Instant};
use wb_opened::{Served, Service, Unserved};
use wb_services::serve_each;
use wb_table::Table;
use wb_types::{Content, Refusal, SECTOR_BYTES, Sector};

/// Sectors of a block: 32 KiB.
pub const BLOCK: u64 = 64;

/// How many accesses are settled at once, at most.
const UNSETTLED: u64 = 32;

/// After so many a client settles them if nobody else is at the desk.
const SETTLED_EARLY: u64 = 8;

/// How many places a client asks for, at most: they lie all over its blocks, so that a larger cache means no more memory.
const PLACES: u64 = 1_024;

/// How many blocks all clients ask for together, where they do.
const HOT_BLOCKS: u64 = 16;

/// Clients that are timed by the clock look at it each so many requests.
const BETWEEN_LOOKS: u64 = 16;

const NANOSECONDS_OF_A_MILLISECOND: u64 = 1_000_000;

/// Which call is timed.
#[derive(Clone, Copy, PartialEq, Eq)]
pub enum Call {
    TryRead,
    TryWrite,
    Read,
    Write,
    /// A write, and then a flush.
    Flush,
    /// A tick, where one block alone was written.
    Tick,
    /// What carries a block home that was written and that a tick ordered to be cleaned.
    Home,
    /// Reads of blocks that all clients ask for, which the first of them writes.
    Hot,
}

/// The table of a formatted cache, and the requests over it.
#[derive(Clone, Copy)]
pub struct Cached<'a> {
    /// Its blocks are of `BLOCK` sectors.
    pub table: Table<'a>,
    pub call: Call,
    /// Sectors of a request, 1 to `BLOCK`; a read or a write may have up to `MOST_SECTORS`.
    pub sectors: u64,
    /// Requests of each client; of those that ask for hot blocks, milliseconds.
    pub requests: u64,
    /// How many clients there are, each on a thread and with blocks of its own.
    pub crowd: Crowd,
}

/// How long it took, in nanoseconds.
#[derive(Clone, Copy)]
pub struct Took {
    pub promotions: u64,
    pub promoting: u64,
    pub requests: u64,
    pub serving: u64,
    /// The requests of all clients but the first, and the fewest of one of them.
    pub others: u64,
    pub fewest: u64,
}

/// What one client asks, over an equal part of the cached blocks.
#[derive(Drop)]
struct Load<'c, C> {
    clock: &'c C,
    alloc: Global,
    call: Call,
    sectors: u64,
    requests: u64,
    /// Which of the clients it is, and how many there are.
    number: u64,
    clients: u64,
}

/// The requests that were answered, and the nanoseconds that they took.
#[derive(Clone, Copy)]
struct Answered {
    requests: u64,
    serving: u64,
}

impl<'c, C: Clock> Service for Load<'c, C> {
    type Told = Option<Answered>;

    fn serve<R: Wait, S: Served>(self, rt: &R, client: &mut S) -> Option<Answered> {
        match self.call {
            Call::Hot => ask_for_hot(rt, client, &self),
            Call::Home => carry_home(rt, client, &self),
            _ => ask_alone(rt, client, &self),
        }
    }
}

/// Makes the requests of a load over blocks of its own.
fn ask_alone<R: Wait, S: Served, C: Clock>(
    rt: &R,
    client: &mut S,
    load: &Load<'_, C>,
) -> Option<Answered> {
    let step = load.sectors.div_ceil(BLOCK).max(1);
    let cached = u64::from(client.geometry().cache_blocks);
    let share = (cached / load.clients.max(1) / step).max(1);
    let places = share.min(PLACES);
    let first = load.number.wrapping_mul(share);
    let mut contents = vec![in load.alloc; [0x5a; SECTOR_BYTES]; load.sectors as usize].ok()?;
    if load.call == Call::Tick {
        client.write(rt, Sector(0), contents.as_slice()).ok()?;
    }
    let start = Instant::now(load.clock).ok()?;
    for number in 0..load.requests {
        let place = (number % places).wrapping_mul(share / places);
        let block = first.wrapping_add(place).wrapping_mul(step);
        let at = Sector(block.wrapping_mul(BLOCK));
        ask(rt, client, load.call, at, contents.as_mut_slice())?;
        settle_at(rt, client, number);
    }
    Some(Answered {
        requests: load.requests,
        serving: passed(load.clock, &start),
    })
}

/// Asks for the same few blocks as all others do for so many milliseconds: the first client writes, the others read.
fn ask_for_hot<R: Wait, S: Served, C: Clock>(
    rt: &R,
    client: &mut S,
    load: &Load<'_, C>,
) -> Option<Answered> {
    let hot = HOT_BLOCKS
        .min(u64::from(client.geometry().cache_blocks))
        .max(1);
    let call = if load.number == 0 {
        Call::Write
    } else {
        Call::Read
    };
    let time = load.requests.wrapping_mul(NANOSECONDS_OF_A_MILLISECOND);
    let mut contents = vec![in load.alloc; [0x5a; SECTOR_BYTES]; load.sectors as usize].ok()?;
    let start = Instant::now(load.clock).ok()?;
    for number in 0..u64::MAX {
        if number % BETWEEN_LOOKS == 0 && passed(load.clock, &start) >= time {
            return Some(Answered {
                requests: number,
                serving: time,
            });
        }
        let block = load.number.wrapping_add(number) % hot;
        let at = Sector(block.wrapping_mul(BLOCK));
        ask(rt, client, call, at, contents.as_mut_slice())?;
        settle_at(rt, client, number);
    }
    None
}

/// Writes blocks, has each ordered to be cleaned by a tick, and carries it home: how long the last takes.
fn carry_home<R: Wait, S: Served, C: Clock>(
    rt: &R,
    client: &mut S,
    load: &Load<'_, C>,
) -> Option<Answered> {
    let cached = u64::from(client.geometry().cache_blocks).max(1);
    let mut serving: u64 = 0;
    for number in 0..load.requests {
        let at = Sector((number % cached).wrapping_mul(BLOCK));
        client.write(rt, at, &[[0x5a; SECTOR_BYTES]]).ok()?;
        client.tick(rt).ok()?;
        let start = Instant::now(load.clock).ok()?;
        client.work_one(rt).ok()??;
        serving = serving.wrapping_add(passed(load.clock, &start));
    }
    Some(Answered {
        requests: load.requests,
        serving,
    })
}

/// Settles accesses after the request of this number: early where that needs no waiting, and before there are too many.
fn settle_at<R: Wait, S: Served>(rt: &R, client: &mut S, number: u64) {
    if number % SETTLED_EARLY == SETTLED_EARLY - 1
        && !client.try_settle()
        && number % UNSETTLED == UNSETTLED - 1
    {
        client.settle(rt);
    }
}

/// Makes one request; None where it is not answered done.
fn ask<R: Wait, S: Served>(
    rt: &R,
    client: &mut S,
    call: Call,
    at: Sector,
    contents: &mut [Content],
) -> Option<()> {
    match call {
        Call::TryRead => client.try_read(at, contents).ok(),
        Call::TryWrite => client.try_write(at, contents).ok(),
        Call::Read => client.read(rt, at, contents).ok(),
        Call::Write => client.write(rt, at, contents).ok(),
        Call::Flush => {
            client.write(rt, at, contents).ok()?;
            client.flush(rt).ok()
        }
        Call::Tick => client.tick(rt).ok(),
        Call::Home | Call::Hot => None,
    }
}

/// What promotes a block of the origin for each block of the cache.
#[derive(Drop)]
struct Fill<'c, C> {
    clock: &'c C,
}

impl<'c, C: Clock> Service for Fill<'c, C> {
    type Told = Result<(u64, u64), &'static str>;

    /// Reads so many blocks twice each, and carries out the orders: how many there were, and how long they took.
    fn serve<R: Wait, S: Served>(self, rt: &R, client: &mut S) -> Result<(u64, u64), &'static str> {
        let mut sector = [[0; SECTOR_BYTES]];
        let (mut promotions, mut promoting): (u64, u64) = (0, 0);
        for block in 0..u64::from(client.geometry().cache_blocks) {
            let at = Sector(block.wrapping_mul(BLOCK));
            for _ in 0..2 {
                if client.read(rt, at, &mut sector).is_err() {
                    return Err("a block cannot be read");
                }
            }
            let Ok(start) = Instant::now(self.clock) else {
                return Err("no clock");
            };
            match client.work_one(rt) {
                Ok(Some(_)) => promotions = promotions.wrapping_add(1),
                Ok(None) => {}
                Err(_) => return Err("an order failed"),
            }
            promoting = promoting.wrapping_add(passed(self.clock, &start));
        }
        client.settle(rt);
        Ok((promotions, promoting))
    }
}

/// Promotes a block of the origin for each block of the cache, and then makes the requests: how long each took, or why nothing did.
/// The requests took as long as the client that was slowest.
pub fn time_cached<R: Threads + Wait + Clock + Sync>(
    rt: &HostRuntime,
    threads: &R,
    asked: &Cached<'_>,
) -> Result<Took, &'static str> {
    let alloc = rt.alloc();
    let loads = loads_of(threads, alloc, asked)?;
    let fill = Fill { clock: threads };
    match serve_each(rt, threads, alloc, &asked.table, fill, loads) {
        Ok((filled, answered)) => sum_up(filled?, answered.as_slice()),
        Err(Unserved::Unopened(_)) => Err("a file cannot be opened"),
        Err(Unserved::Refused(_) | Unserved::Differs(_) | Unserved::Uninspected(_)) => Err(
            "the cache cannot be opened",
        ),
    }
}

/// How long all took.
fn sum_up(
    filled: (u64, u64),
    answered: &[Result<Option<Answered>, Refusal>],
) -> Result<Took, &'static str> {
    let (promotions, promoting) = filled;
    let (mut requests, mut serving): (u64, u64) = (0, 0);
    let (mut others, mut fewest): (u64, u64) = (0, u64::MAX);
    for (number, one) in answered.iter().enumerate() {
        match one {
            Ok(Some(done)) => {
                requests = requests.wrapping_add(done.requests);
                serving = serving.max(done.serving);
                if number > 0 {
                    others = others.wrapping_add(done.requests);
                    fewest = fewest.min(done.requests);
                }
            }
            _ => return Err("a request failed"),
        }
    }
    Ok(Took {
        promotions,
        promoting,
        requests,
        serving,
        others,
        fewest: if others == 0 { 0 } else { fewest },
    })
}

/// The load of each client.
fn loads_of<'c, C>(
    clock: &'c C,
    alloc: Global,
    asked: &Cached<'_>,
) -> Result<Vec<Load<'c, C>>, &'static str> {
    let clients = asked.crowd.count();
    let mut loads = Vec::new(alloc);
    for number in 0..clients {
        let load = Load {
            clock,
            alloc,
            call: asked.call,
            sectors: asked.sectors,
            requests: asked.requests,
            number,
            clients,
        };
        if loads.push(load).is_err() {
            return Err("out of memory");
        }
    }
    Ok(loads)
}
