//! Taking all blocks out of a cache that is clean.

use crate::lives::{live, table_in};
use crate::shadow::Shadow;
use std::alloc::Global;
use std::sync::Wait;
use std::thread::Threads;
use wb_devices::Devices;
use wb_disk::Disk;
use wb_opened::{Served, Unserved};
use wb_policy::Policy;
use wb_table::Table;
use wb_target::{Client, Errand};
use wb_types::{CBlock, CBlockRange, CBlockRanges, Message, Mode, Refusal};

/// Takes all blocks out of the cache.
#[derive(Drop)]
struct TakeOut {
    alloc: Global,
}

impl Errand for TakeOut {
    type Told = Result<(), Refusal>;

    ghost tells = { λ errand told. Unit {0} };

    fn run<R: Wait, D: Disk + Drop, P: Policy>(
        self,
        rt: &R,
        client: &mut Client<'_, D, P>,
    ) -> Result<(), Refusal> {
        take_out(self.alloc, rt, client)
    }
}

/// Takes all blocks out of the cache: `Busy` where one is mapped still.
fn take_out<R: Wait, C: Served>(alloc: Global, rt: &R, client: &mut C) -> Result<(), Refusal> {
    let mut ranges = Vec::new(alloc);
    ranges.reserve(1)?;
    ranges.push_reserved(CBlockRange {
        begin: CBlock(0),
        end: CBlock(client.geometry().cache_blocks),
    });
    let all = Message::InvalidateCblocks(CBlockRanges::new(ranges));
    client.message(rt, &all)?;
    if client.mapped(rt) == 0 {
        Ok(())
    } else {
        Err(Refusal::Busy)
    }
}

/// Takes all blocks out of the cache of a table, which is clean: it is opened in passthrough, all cache blocks are invalidated, and it is
/// suspended, over shadowed metadata, so that a stop at any moment leaves all blocks mapped and clean, or none.
///
/// Refused as an opening in passthrough, as a message, as a suspend, and where the metadata cannot be stored.
pub fn empty<'a, T: Threads + Wait + Sync, D: Disk + Drop + Send>(
    waits: &T,
    alloc: Global,
    devices: Devices<Shadow<D>>,
    table: &Table<'a>,
) -> Result<(Devices<Shadow<D>>, Result<(), Refusal>), Unserved<'a>> {
    let table = table_in(table, Mode::Passthrough);
    let mut devices = devices;
    devices.metadata.keep(alloc);
    let lived = live(waits, alloc, devices, &table, TakeOut { alloc })?;
    let done = match lived.told {
        Ok(Ok(())) => lived.ended,
        Ok(Err(refusal)) | Err(refusal) => Err(refusal),
    };
    Ok((lived.devices, done))
}
