//! Serving the target of a table in lanes.

ghost use Rattle.std.specs.Prelude.{◌≡◌};
ghost use Rattle.wb_table.specs.Policies.{policy_name};

use crate::hall::{Hall, Lender};
use std::alloc::Global;
use std::fs::File;
use std::rt::Files;
use std::sync::Wait;
use std::thread::Threads;
use wb_devices::Devices;
use wb_files::{Patience, SharedDisk, Watch};
use wb_opened::{Inspector, Lanes, Play, Unserved, lend_devices, open_files, open_inspected};
use wb_policy::Policy;
use wb_table::{Table, by_policy};

/// Opens the cache over the files of a table, in its mode and with its policy, and has a first client play, and others in lanes beside
/// it: what it told. The files are opened once, locked, and lent to every client; the clients of the lanes have a thread of their own, and
/// where none can be made, what waits for a lane is done as the first client asks for it. Who watches is told of each step on the files
/// that fails. Files that another program holds are waited for as long as there is patience. The inspector looks at the files before the opening of the cache writes anything, and may refuse it. Without a suspend nothing is
/// flushed at the end, which leaves the cache without the clean flag.
///
/// An error where the files cannot serve, the opening is refused or there is no memory for a client.
pub fn serve_lanes<
    'a,
    R: Files<File = File>,
    T: Threads + Wait + Sync,
    P: Patience,
    N: Watch + Sync,
    I: Inspector,
    L: Lanes + Sync,
    V: Play + Drop,
>(
    rt: &R,
    waits: &T,
    alloc: Global,
    table: &'a str,
    patience: &mut P,
    watch: &N,
    inspector: &mut I,
    lanes: &L,
    play: V,
) -> Result<V::Told, Unserved<'a>> {
    let (table, files) = open_files(rt, table, patience)?;
    let devices = lend_devices(&files, waits, watch)?;
    let lender = Lender {
        waits,
        files: &files,
        watch,
    };
    by_policy!(table.policy, serve_played[T, N, I, L, V](alloc, devices, &table, &lender, inspector, lanes, play))
}

/// Opens the cache of a table on these devices, with a policy of the name that it has, once an inspector has looked at them, and has a client play,
/// and others in lanes beside it.
fn serve_played<
    'a,
    'f,
    P: Policy + Send,
    T: Threads + Wait + Sync,
    N: Watch + Sync,
    I: Inspector,
    L: Lanes + Sync,
    V: Play + Drop,
>(
    alloc: Global,
    devices: Devices<SharedDisk<'f, T, N>>,
    table: &Table<'a>,
    lender: &Lender<'f, 'a, T, N>,
    inspector: &mut I,
    lanes: &L,
    play: V,
) -> Result<V::Told, Unserved<'a>>
    requires policy { P.name ≡ policy_name table.now.policy }
{
    let (devices, opened) = open_inspected::<P, _, I>(alloc, devices, table, inspector);
    let target = opened?;
    let mut play = play;
    let hall = Hall {
        waits: lender.waits,
        target: &target,
        lender,
        lanes,
    };
    match hall.play(alloc, devices, &mut play) {
        Ok(()) => Ok(play.told()),
        Err(refusal) => Err(Unserved::Refused(refusal)),
    }
}
