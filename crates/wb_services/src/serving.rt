//! Services done by several clients of the target of a table.

ghost use Rattle.std.specs.Prelude.{◌≡◌, IfOk, map, vec_len};
ghost use Rattle.wb_table.specs.Policies.{policy_name};

use std::alloc::{AllocError, Global};
use std::fs::File;
use std::rt::Files;
use std::sync::Wait;
use std::thread::Threads;
use wb_devices::Devices;
use wb_disk::Disk;
use wb_files::{OpenFiles, Patience, SharedDisk, Unwatched, Watch};
use wb_opened::{
    Inspector, Service, Unserved, lend_devices, open_files, open_inspected, open_named, open_target,
};
use wb_policy::Policy;
use wb_table::{Table, by_policy};
use wb_target::{Client, Errand, Returned, Sent, Target};
use wb_types::Refusal;

/// Opens the cache over the files of a table, in its mode and with its policy, and has several do their services beside one another, each by
/// a client of its own on a thread of its own; where no thread can be made, one is done after the other, the last of them first. What each
/// told, in order, or why it had no client, as many as there are services; then the target is suspended, which leaves the cache clean, or
/// that is refused.
///
/// The files are opened once, locked, and lent to every client; files that another program holds are waited for as long as there is
/// patience. The inspector looks at them before the opening of the cache writes anything, and may refuse it.
pub fn serve_all<
    'a,
    R: Files<File = File>,
    T: Threads + Wait + Sync,
    P: Patience,
    N: Watch + Sync,
    I: Inspector,
    S: Service + Send + Drop,
>(
    rt: &R,
    waits: &T,
    alloc: Global,
    table: &'a str,
    patience: &mut P,
    watch: &N,
    inspector: &mut I,
    services: Vec<S>,
) -> Result<(Vec<Result<S::Told, Refusal>>, Result<(), Refusal>), Unserved<'a>>
    ensures many { IfOk result (λ both. vec_len both.0 ≡ vec_len services) }
{
    let (table, files) = open_files(rt, table, patience)?;
    let devices = lend_devices(&files, waits, watch)?;
    let errands = errands_of(waits, alloc, &files, watch, services)?;
    by_policy!(table.policy, serve_several[T, _, I, S](waits, alloc, devices, &table, inspector, errands))
}

/// Opens the cache over the files of a table that was read, has one client do a service, and then several theirs beside one another: what
/// the first told, and each of the others in order, or why it had no client.
pub fn serve_each<
    'a,
    R: Files<File = File>,
    T: Threads + Wait + Sync,
    F: Service + Drop,
    S: Service + Send + Drop,
>(
    rt: &R,
    waits: &T,
    alloc: Global,
    table: &Table<'a>,
    first: F,
    services: Vec<S>,
) -> Result<(F::Told, Vec<Result<S::Told, Refusal>>), Unserved<'a>>
    ensures many { IfOk result (λ both. vec_len both.1 ≡ vec_len services) }
{
    let files = open_named(rt, table)?;
    let devices = lend_devices(&files, waits, &Unwatched)?;
    let errands = errands_of(waits, alloc, &files, &Unwatched, services)?;
    by_policy!(table.policy, serve_one_and_several[T, _, F, S](waits, alloc, devices, table, first, errands))
}

/// Has a client of a target do a service.
fn serve_by<T: Wait, D: Disk + Drop, P: Policy, S: Service + Drop>(
    waits: &T,
    target: &Target<P>,
    devices: Devices<D>,
    service: S,
) -> Result<S::Told, Refusal> {
    match target.client(waits, devices) {
        Ok(mut client) => {
            let told = service.serve(waits, &mut client);
            drop(target.retire(waits, client));
            Ok(told)
        }
        Err((_, refusal)) => Err(refusal),
    }
}

/// Opens the cache of a table so on these devices, once an inspector has looked at them, has clients do services beside one another, and
/// suspends the target once all are back.
fn serve_several<
    'a,
    P: Policy + Send,
    T: Threads + Wait + Sync,
    D: Disk + Drop + Send,
    I: Inspector,
    S: Service + Send + Drop,
>(
    waits: &T,
    alloc: Global,
    devices: Devices<D>,
    table: &Table<'a>,
    inspector: &mut I,
    errands: Vec<Sent<D, Doing<S>>>,
) -> Result<(Vec<Result<S::Told, Refusal>>, Result<(), Refusal>), Unserved<'a>>
    requires policy { P.name ≡ policy_name table.now.policy }
    ensures many { IfOk result (λ both. vec_len both.0 ≡ vec_len errands) }
{
    let (devices, opened) = open_inspected::<P, D, I>(alloc, devices, table, inspector);
    let target = opened?;
    let told = beside_one_another(waits, alloc, &target, errands);
    let (devices, suspended) = target.suspend(waits, devices);
    drop(devices);
    match told {
        Ok(told) => Ok((told, suspended)),
        Err(_) => Err(Unserved::Refused(Refusal::Memory)),
    }
}

/// Opens the cache of a table so on these devices, has one client do the first service, and the others theirs beside one another.
fn serve_one_and_several<
    'a,
    P: Policy + Send,
    T: Threads + Wait + Sync,
    D: Disk + Drop + Send,
    F: Service + Drop,
    S: Service + Send + Drop,
>(
    waits: &T,
    alloc: Global,
    devices: Devices<D>,
    table: &Table<'a>,
    first: F,
    errands: Vec<Sent<D, Doing<S>>>,
) -> Result<(F::Told, Vec<Result<S::Told, Refusal>>), Unserved<'a>>
    requires policy { P.name ≡ policy_name table.now.policy }
    ensures many { IfOk result (λ both. vec_len both.1 ≡ vec_len errands) }
{
    let (devices, opened) = open_target::<P, D>(alloc, devices, table);
    let target = opened?;
    let told = serve_by(waits, &target, devices, first).map_err(|refusal| Unserved::Refused(
        refusal,
    ))?;
    match beside_one_another(waits, alloc, &target, errands) {
        Ok(others) => Ok((told, others)),
        Err(_) => Err(Unserved::Refused(Refusal::Memory)),
    }
}

/// Has clients of a target do services beside one another.
fn beside_one_another<
    T: Threads + Wait + Sync,
    D: Disk + Drop + Send,
    S: Service + Send + Drop,
    P: Policy + Send,
>(
    waits: &T,
    alloc: Global,
    target: &Target<P>,
    errands: Vec<Sent<D, Doing<S>>>,
) -> Result<Vec<Result<S::Told, Refusal>>, AllocError>
    ensures many { IfOk result (λ told. vec_len told ≡ vec_len errands) }
{
    all_told(alloc, target.together(waits, errands)?)
}

/// A service, to be done as an errand.
#[derive(Drop)]
struct Doing<S> {
    service: S,
}

impl<S: Service> Errand for Doing<S> {
    type Told = S::Told;

    ghost tells = { λ doing told. Unit {0} };

    fn run<R: Wait, D: Disk + Drop, P: Policy>(
        self,
        rt: &R,
        client: &mut Client<'_, D, P>,
    ) -> S::Told {
        let Doing { service } = self;
        service.serve(rt, client)
    }
}

fn sent<D, S>(devices: Devices<D>, service: S) -> Sent<D, Doing<S>> {
    Sent {
        devices,
        errand: Doing { service },
    }
}

/// An errand for each service, with devices over the files that are open.
fn errands_of<'f, 'a, T: Wait, N: Watch, S: Service + Drop>(
    waits: &'f T,
    alloc: Global,
    files: &'f OpenFiles<'a>,
    watch: &'f N,
    services: Vec<S>,
) -> Result<Vec<Sent<SharedDisk<'f, T, N>, Doing<S>>>, Unserved<'a>>
    ensures many { IfOk result (λ errands. vec_len errands ≡ vec_len services) }
{
    let mut errands = Vec::new(alloc);
    for service in services {
        if errands.reserve(1).is_err() {
            return Err(Unserved::Refused(Refusal::Memory));
        }
        let devices = lend_devices(files, waits, watch)?;
        errands.push_reserved(sent(devices, service));
    }
    Ok(errands)
}

/// What each errand told, in order.
fn all_told<D: Drop, X: Drop>(
    alloc: Global,
    returned: Vec<Returned<D, X>>,
) -> Result<Vec<Result<X, Refusal>>, AllocError>
    ensures told { IfOk result (λ all. all.items ≡ map (λ one. one.told) returned.items) }
{
    let mut all = Vec::new(alloc);
    for one in returned {
        all.reserve(1)?;
        let Returned { told, .. } = one;
        all.push_reserved(told);
    }
    Ok(all)
}
