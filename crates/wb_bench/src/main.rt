//! Drives requests over a file, to be timed from outside.
//!
//! `wb_bench FILE read|write SECTORS REQUESTS` drives so many requests of so many sectors each, up to 2,048 (1 MiB),
//! one after another over all blocks of the file, and prints how many were done. A block is as small as it may be to hold
//! such a request: a multiple of 64 sectors.
//! `wb_bench settles CACHE_BLOCKS ACCESSES` settles accesses by Zipf's law over a cache that TinyLfu fills, and prints
//! how many were hits; `wb_bench ticks CACHE_BLOCKS TICKS` ticks over a full cache, and prints how often one was ordered.
//! `wb_bench TABLE try_read|try_write|read|write|flush|tick|home|hot SECTORS REQUESTS 1|2|4|16` opens a formatted cache with blocks of 64 sectors by its
//! table, promotes a block of the origin for each of its own, where the mode promotes any, and makes so many requests by each of so
//! many clients, on threads and blocks of their own, a flush behind each write where `flush` is asked for; it prints how many promotions there were and their nanoseconds, and so of the
//! requests, by the client that took longest. `tick` writes one block and then ticks; `home` times what carries blocks home that were written and that ticks ordered to be
//! cleaned; `hot` has all clients ask for the same blocks for REQUESTS milliseconds, the first writing and the others reading, and the last line is the requests of
//! these and the fewest of one of them.
//! `wb_bench FILE mapping CACHE_BLOCKS` makes the file a metadata device that holds a full mapping of so many cache
//! blocks, and `wb_bench FILE state` reads what it stands for; both print the number of nodes. `wb_bench FILE images` prints of each
//! of the images of metadata devices in the file what it stands for (see `images`), or the refusal.
#![tactic(auto)]

ghost use Rattle.std.specs.Prelude.{◌≡◌, ◌<◌, ◌≤◌};

mod asked;
mod cached;
mod clock;
mod crowd;
mod images;
mod mapping;
mod requests;
mod settles;

use crate::asked::{Asked, Direction, Requests, read_asked};
use crate::cached::{Took, time_cached};
use crate::images::{Read, read_image};
use crate::mapping::{read_mapping, write_mapping};
use crate::requests::{drive_all, end, port_over};
use crate::settles::{settle_all, tick_all};
use std::env;
use std::process::ExitCode;
use wb_disk::{Disk, FileDisk};
use wb_files::hold_streams;
use wb_types::Refusal;

/// The exit status where the standard streams cannot be held, or the output failed.
const STREAM_FAILED: u8 = 4;

/// What it can be asked.
const USAGE: &str = "usage: wb_bench FILE read|write SECTORS REQUESTS
       wb_bench settles CACHE_BLOCKS ACCESSES
       wb_bench ticks CACHE_BLOCKS TICKS
       wb_bench TABLE try_read|try_write|read|write|flush|tick|home|hot SECTORS REQUESTS 1|2|4|16
       wb_bench FILE mapping CACHE_BLOCKS
       wb_bench FILE state
       wb_bench FILE images";

fn main(rt: HostRuntime) -> ExitCode {
    // Before any file is opened.
    let Ok(_held) = hold_streams(&rt) else {
        return ExitCode::from(STREAM_FAILED);
    };
    let alloc = rt.alloc();
    let Ok(words) = env::args(&rt) else {
        return usage(&rt);
    };
    let Ok(words) = words.collect::<Vec<String>>(alloc) else {
        return usage(&rt);
    };
    let Some(asked) = read_asked(words.as_slice()) else {
        return usage(&rt);
    };
    match asked {
        Asked::Requests(requests) => serve(&rt, &requests),
        Asked::Cached(cached) => match time_cached(&rt, &rt, &cached) {
            Ok(took) => tell_took(&rt, &took),
            Err(why) => failed(&rt, why),
        },
        Asked::Settles {
            cache_blocks,
            accesses,
        } => tell_sum(&rt, settle_all(alloc, cache_blocks, accesses)),
        Asked::Ticks {
            cache_blocks,
            ticks,
        } => tell_sum(&rt, tick_all(alloc, cache_blocks, ticks)),
        Asked::Mapping { file, cache_blocks } => match FileDisk::open(&rt, file) {
            Ok(mut disk) => tell(&rt, write_mapping(&mut disk, cache_blocks)),
            Err(_) => failed(&rt, "the file cannot be opened"),
        },
        Asked::State { file } => match FileDisk::open(&rt, file) {
            Ok(mut disk) => tell(&rt, read_mapping(alloc, &mut disk)),
            Err(_) => failed(&rt, "the file cannot be opened"),
        },
        Asked::Images { file } => match FileDisk::open(&rt, file) {
            Ok(mut disk) => tell_images(&rt, &mut disk),
            Err(_) => failed(&rt, "the file cannot be opened"),
        },
    }
}

/// Prints what was counted over a cache, or why nothing was.
fn tell_sum(rt: &HostRuntime, sum: Result<u64, Refusal>) -> ExitCode {
    match sum {
        Ok(sum) => print(rt, sum),
        Err(Refusal::Geometry) => failed(rt, "no cache has so many blocks"),
        Err(_) => failed(rt, "out of memory"),
    }
}

/// Prints the promotions and the requests of clients, with their nanoseconds.
fn tell_took(rt: &HostRuntime, took: &Took) -> ExitCode {
    let Took {
        promotions,
        promoting,
        requests,
        serving,
        others,
        fewest,
    } = *took;
    match println!(rt;
        "promotions {promotions} {promoting}\nrequests {requests} {serving}\nothers {others} {fewest}"
    ) {
        Ok(()) => ExitCode::SUCCESS,
        Err(_) => {
            failed(rt, "the output failed");
            ExitCode::from(STREAM_FAILED)
        }
    }
}

/// Prints the number of nodes of a mapping, or why there is none.
fn tell(rt: &HostRuntime, nodes: Result<u64, Refusal>) -> ExitCode {
    match nodes {
        Ok(nodes) => print(rt, nodes),
        Err(refusal) => {
            let _ = eprintln!(rt; "wb_bench: {refusal}");
            ExitCode::FAILURE
        }
    }
}

/// Prints of each image what it stands for, or the refusal.
fn tell_images(rt: &HostRuntime, file: &mut FileDisk) -> ExitCode {
    let mut first = 0;
    // Each image has one sector at the least.
    for _ in 0..file.sectors() {
        if first >= file.sectors() {
            break;
        }
        let (read, behind) = read_image(rt.alloc(), file, first);
        first = behind;
        let said = match read {
            Ok(read) => {
                let Read {
                    generation,
                    clean,
                    nodes,
                    sum,
                } = read;
                println!(rt; "{generation} {clean} {nodes} {sum}")
            }
            Err(refusal) => println!(rt; "refused {refusal}"),
        };
        if said.is_err() {
            failed(rt, "the output failed");
            return ExitCode::from(STREAM_FAILED);
        }
    }
    ExitCode::SUCCESS
}

/// Drives requests over their file, and prints how many were done.
fn serve(rt: &HostRuntime, requests: &Requests<'_>) -> ExitCode {
    let (seats, mut port) = match port_over(rt, requests) {
        Ok(both) => both,
        Err(why) => return failed(rt, why),
    };
    let driven = drive_all(rt.alloc(), requests, &mut port);
    end(seats, port);
    match driven {
        Some(done) => print(rt, done),
        None => failed(rt, "a request failed"),
    }
}

fn print(rt: &HostRuntime, number: u64) -> ExitCode {
    match println!(rt; "{number}") {
        Ok(()) => ExitCode::SUCCESS,
        Err(_) => {
            failed(rt, "the output failed");
            ExitCode::from(STREAM_FAILED)
        }
    }
}

fn usage(rt: &HostRuntime) -> ExitCode {
    let _ = eprintln!(rt; "{USAGE}");
    ExitCode::from(2)
}

fn failed(rt: &HostRuntime, why: &str) -> ExitCode {
    let _ = eprintln!(rt; "wb_bench: {why}");
    ExitCode::FAILURE
}
