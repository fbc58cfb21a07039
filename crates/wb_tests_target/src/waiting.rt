//! Flushes beside a commit that runs: they wait for it, and where it fails who led it is told why, and all who wait are woken and told that
//! the target has failed.

use crate::bounds::end_with;
use crate::caching::order_replacement;
use crate::errands::Beside;
use crate::files::{Images, Names, client_over, images, target_over};
use crate::threads::all_tell;
use crate::workers::{Signals, await_signal};
use std::process::Abort;
use std::sync::Wait;
use std::sync::atomic::{AtomicU64, Ordering};
use std::test::Fail;
use std::thread;
use std::time::{Clock, Duration};
use wb_devices::Devices;
use wb_disk::{Disk, FileDisk};
use wb_faults::FaultDisk;
use wb_policy::{Policy, TinyLfu};
use wb_target::{Client, Sent, Target};
use wb_types::{Dev, Refusal};

/// Flushes once the commit that is held runs, and tells that it is answered.
pub fn flush_in_it<D: Disk + Drop, P: Policy>(
    rt: &impl Wait,
    client: &mut Client<'_, D, P>,
    clock: &impl Clock,
    signals: &Signals,
    answered: &AtomicU64,
) -> Result<(), Refusal> {
    let stands = await_signal(clock, &signals.stands);
    let flushed = client.flush(rt);
    answered.fetch_add(1, Ordering::SeqCst);
    match flushed {
        Ok(_) if stands => Ok(()),
        Ok(_) => Err(Refusal::Busy),
        Err(refusal) => Err(refusal),
    }
}

/// Lets the commit go on after a while, and ends the test if so many flushes are not answered then. `Busy` where one was answered before.
pub fn let_go<C: Clock + Abort>(
    clock: &C,
    signals: &Signals,
    answered: &AtomicU64,
    wanted: u64,
) -> Result<(), Refusal> {
    let stands = await_signal(clock, &signals.stands);
    thread::sleep(clock, Duration::from_millis(200));
    let waits = answered.load(Ordering::SeqCst) == 0;
    signals.goes.store(1, Ordering::SeqCst);
    end_with(clock, answered, wanted);
    if stands && waits {
        Ok(())
    } else {
        Err(Refusal::Busy)
    }
}

type Failing = FaultDisk<FileDisk>;

/// These files, of which this device fails at its call of this number.
fn failing(
    rt: &HostRuntime,
    names: &Names,
    fails: Option<(Dev, u64)>,
) -> Result<Devices<Failing>, Fail> {
    let Devices {
        metadata,
        cache,
        origin,
    } = images(rt, names)?;
    Ok(Devices {
        metadata: FaultDisk::new(metadata, call_of(Dev::Metadata, fails)),
        cache: FaultDisk::new(cache, call_of(Dev::Cache, fails)),
        origin: FaultDisk::new(origin, call_of(Dev::Origin, fails)),
    })
}

fn call_of(device: Dev, fails: Option<(Dev, u64)>) -> Option<u64> {
    match fails {
        Some((failing, call)) if failing == device => Some(call),
        _ => None,
    }
}

/// Has a replacement ordered by a client that then goes.
fn order(rt: &impl Wait, target: &Target<TinyLfu>, images: Images) -> Result<bool, Refusal> {
    let mut client = client_over(rt, target, images)?;
    let ordered = order_replacement(rt, &mut client);
    target.retire(rt, client);
    Ok(ordered)
}

/// The worker, a call of whose devices may fail, those who flush, and who lets the commit go on.
fn all_of_them<'a>(
    rt: &'a HostRuntime,
    fails: Option<(Dev, u64)>,
    flushes: u64,
    signals: &'a Signals,
    answered: &'a AtomicU64,
) -> Result<Vec<Sent<Failing, Beside<'a, HostRuntime>>>, Fail> {
    let mut sent = Vec::new(rt.alloc());
    sent.push(Sent {
        devices: failing(rt, &WAITED, fails)?,
        errand: Beside::Replaces(rt, signals),
    })?;
    for _ in 0..flushes {
        sent.push(Sent {
            devices: failing(rt, &WAITED, None)?,
            errand: Beside::Flushes(rt, signals, answered),
        })?;
    }
    sent.push(Sent {
        devices: failing(rt, &WAITED, None)?,
        errand: Beside::LetsGo(rt, signals, answered, flushes),
    })?;
    Ok(sent)
}

/// How they end.
fn wanted(
    rt: &HostRuntime,
    fails: Option<(Dev, u64)>,
    flushes: u64,
) -> Result<Vec<Result<(), Refusal>>, Fail> {
    let (leads, waits) = match fails {
        Some((device, _)) => (Err(Refusal::Io(device)), Err(Refusal::Failed)),
        None => (Ok(()), Ok(())),
    };
    let mut all = Vec::new(rt.alloc());
    all.push(leads)?;
    for _ in 0..flushes {
        all.push(waits)?;
    }
    all.push(Ok(()))?;
    Ok(all)
}

const WAITED: Names = ["waited_m.img", "waited_c.img", "waited_o.img"];

/// The call of the worker's devices that fails, if any: its commit syncs the cache and the origin, and writes and syncs first a node of the
/// metadata and then the root; and how many flush meanwhile.
const ROWS: [(Option<(Dev, u64)>, u64); 7] = [
    (None, 1),
    (Some((Dev::Cache, 0)), 15),
    (Some((Dev::Origin, 0)), 15),
    (Some((Dev::Metadata, 0)), 15),
    (Some((Dev::Metadata, 1)), 15),
    (Some((Dev::Metadata, 2)), 15),
    (Some((Dev::Metadata, 3)), 15),
];

#[test]
fn a_flush_waits_for_the_commit_that_runs(rt: HostRuntime) -> Result<(), Fail> {
    for (fails, flushes) in ROWS {
        let target = target_over(&rt, &WAITED)?;
        let signals = Signals::new();
        let answered = AtomicU64::new(0);
        let ordered = order(&rt, &target, images(&rt, &WAITED)?);
        let errands = all_of_them(&rt, fails, flushes, &signals, &answered)?;
        let wanted = wanted(&rt, fails, flushes)?;
        let ended = all_tell(&rt, &target, errands, wanted.as_slice());
        drop(target);
        assert!(rt; ordered? && ended?, "{fails:?}");
    }
    Ok(())
}
