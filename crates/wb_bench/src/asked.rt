//! What a run is asked to do.

ghost use Rattle.std.specs.Prelude.{◌≤◌};

use crate::cached::{BLOCK, Cached, Call};
use crate::crowd::Crowd;
use wb_table::read_table;

/// The most sectors of a request: 1 MiB.
pub const MOST_SECTORS: u64 = 2_048;

/// Which way the sectors go.
#[derive(Clone, Copy)]
pub enum Direction {
    Read,
    Write,
}

/// A file, and the requests to drive over it.
#[derive(Clone, Copy)]
pub struct Requests<'a> {
    pub file: &'a str,
    pub direction: Direction,
    /// Sectors of a request, 1 to `MOST_SECTORS`.
    pub sectors: u64,
    pub requests: u64,
    pub ghost few: { sectors ≤ 2048 },
}

/// What is to be timed.
#[derive(Clone, Copy)]
pub enum Asked<'a> {
    Requests(Requests<'a>),
    /// Settle so many accesses, or tick so often, over a cache of so many blocks.
    Settles { cache_blocks: u32, accesses: u64 },
    Ticks { cache_blocks: u32, ticks: u64 },
    /// Requests of a target's clients on cached blocks.
    Cached(Cached<'a>),
    /// Write a full mapping of so many cache blocks to a file.
    Mapping { file: &'a str, cache_blocks: u32 },
    /// Read what the metadata device in a file stands for.
    State { file: &'a str },
    /// Read what each of the metadata devices in a file stands for.
    Images { file: &'a str },
}

/// Reads the words of the command line, the program's name first.
pub fn read_asked(words: &[String]) -> Option<Asked<'_>> {
    match words {
        [_, file, state] => read_state(file.as_str(), state.as_str()),
        [_, first, second, third] => { read_three(first.as_str(), second.as_str(), third.as_str()) }
        [_, file, direction, sectors, requests] => read_requests(
            file.as_str(),
            direction.as_str(),
            sectors.as_str(),
            requests.as_str(),
        ),
        _ => read_cached(words),
    }
}

fn read_cached(words: &[String]) -> Option<Asked<'_>> {
    let [_, table, call, sectors, requests, clients] = words else {
        return None;
    };
    let table = read_table(table.as_str()).ok()?;
    let call = read_call(call.as_str())?;
    let sectors = read_u64(sectors.as_str())?;
    if table.block != BLOCK || sectors == 0 || sectors > most_sectors(call) {
        return None;
    }
    Some(Asked::Cached(Cached {
        table,
        call,
        sectors,
        requests: read_u64(requests.as_str())?,
        crowd: read_crowd(clients.as_str())?,
    }))
}

/// The most sectors of a request: one that goes on from block to block may have more than a block has.
fn most_sectors(call: Call) -> u64
    ensures { result ≤ 2048 }
{
    match call {
        Call::Read | Call::Write => MOST_SECTORS,
        _ => BLOCK,
    }
}

fn read_call(word: &str) -> Option<Call> {
    match word {
        "try_read" => Some(Call::TryRead),
        "try_write" => Some(Call::TryWrite),
        "read" => Some(Call::Read),
        "write" => Some(Call::Write),
        "flush" => Some(Call::Flush),
        "tick" => Some(Call::Tick),
        "home" => Some(Call::Home),
        "hot" => Some(Call::Hot),
        _ => None,
    }
}

fn read_state<'a>(file: &'a str, word: &str) -> Option<Asked<'a>> {
    match word {
        "state" => Some(Asked::State { file }),
        "images" => Some(Asked::Images { file }),
        _ => None,
    }
}

fn read_three<'a>(first: &'a str, second: &str, third: &str) -> Option<Asked<'a>> {
    if second == "mapping" {
        return Some(Asked::Mapping {
            file: first,
            cache_blocks: read_u32(third)?,
        });
    }
    let cache_blocks = read_u32(second)?;
    read_counted(first, cache_blocks, read_u64(third)?)
}

/// What is done so many times over so many cache blocks.
fn read_counted<'a>(word: &str, cache_blocks: u32, times: u64) -> Option<Asked<'a>> {
    match word {
        "settles" => Some(Asked::Settles {
            cache_blocks,
            accesses: times,
        }),
        "ticks" => Some(Asked::Ticks {
            cache_blocks,
            ticks: times,
        }),
        _ => None,
    }
}

fn read_requests<'a>(
    file: &'a str,
    direction: &str,
    sectors: &str,
    requests: &str,
) -> Option<Asked<'a>> {
    let direction = read_direction(direction)?;
    let sectors = read_u64(sectors)?;
    let requests = read_u64(requests)?;
    if sectors == 0 || sectors > MOST_SECTORS {
        return None;
    }
    Some(Asked::Requests(Requests {
        file,
        direction,
        sectors,
        requests,
    }))
}

fn read_u32(word: &str) -> Option<u32> {
    word.parse::<u32>().ok()
}

fn read_u64(word: &str) -> Option<u64> {
    word.parse::<u64>().ok()
}

fn read_direction(word: &str) -> Option<Direction> {
    match word {
        "read" => Some(Direction::Read),
        "write" => Some(Direction::Write),
        _ => None,
    }
}

fn read_crowd(word: &str) -> Option<Crowd> {
    match word.parse::<u32>().ok()? {
        1 => Some(Crowd::One),
        2 => Some(Crowd::Two),
        4 => Some(Crowd::Four),
        16 => Some(Crowd::Sixteen),
        _ => None,
    }
}
