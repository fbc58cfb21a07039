//! Clients of a target that begin as they are asked for, each with devices of its own and on a thread of its own.

ghost use Rattle.std.specs.Thread.{IsSend, IsSync};

use std::alloc::{AllocError, Global};
use std::sync::{Mutex, Wait};
use std::thread::{Scope, Threads};
use std::{mem, thread};
use wb_devices::Devices;
use wb_disk::Disk;
use wb_files::{OpenFiles, SharedDisk, Watch};
use wb_opened::{LANES, Lanes, Next, Play, lend_devices};
use wb_policy::Policy;
use wb_target::{Client, Target};
use wb_types::Refusal;

/// The open files of a table, lent to each client.
#[derive(Drop)]
pub(crate) struct Lender<'f, 'a, T, N> {
    pub waits: &'f T,
    pub files: &'f OpenFiles<'a>,
    pub watch: &'f N,
}

impl<'f, 'a, T: Wait, N: Watch> Lender<'f, 'a, T, N> {
    /// Devices over them, for one more client, or why they cannot be had.
    fn lend(&self) -> Result<Devices<SharedDisk<'f, T, N>>, Refusal> {
        match lend_devices(self.files, self.waits, self.watch) {
            Ok(devices) => Ok(devices),
            Err(unserved) => Err(unserved.refusal()),
        }
    }
}

/// Where the client of a lane is, once it has begun: lent to its thread.
type Slot<'t, D, P> = Mutex<Option<Client<'t, D, P>>>;

/// What all clients of a target play by: the first, and those of the lanes.
#[derive(Drop)]
pub(crate) struct Hall<'t, 'f, 'a, T, P: Policy, N, L> {
    pub waits: &'t T,
    pub target: &'t Target<P>,
    pub lender: &'t Lender<'f, 'a, T, N>,
    pub lanes: &'t L,
}

impl<'t, 'f, 'a, T: Threads + Wait + Sync, P: Policy + Send, N: Watch + Sync, L: Lanes + Sync> Hall<
    't,
    'f,
    'a,
    T,
    P,
    N,
    L,
> {
    /// Has a client play, and others in lanes beside it; then all are taken back, and where a suspend is to come the target is suspended.
    pub(crate) fn play<V: Play>(
        &self,
        alloc: Global,
        devices: Devices<SharedDisk<'f, T, N>>,
        play: &mut V,
    ) -> Result<(), Refusal> {
        let (waits, target) = (self.waits, self.target);
        let slots = slots_of(waits, target, alloc).map_err(|_| Refusal::Memory)?;
        match target.client(waits, devices) {
            Ok(mut client) => {
                let is_suspend = self.play_in_scope(&mut client, slots.as_slice(), play);
                let devices = target.retire(waits, client);
                retire_all(waits, target, slots);
                if is_suspend {
                    let (devices, suspended) = target.suspend(waits, devices);
                    play.go_on(waits, suspended, target);
                    drop(devices);
                }
                Ok(())
            }
            Err((_, refusal)) => {
                retire_all(waits, target, slots);
                Err(refusal)
            }
        }
    }

    /// Plays; all threads of lanes have ended then. Whether a suspend is to come.
    fn play_in_scope<V: Play>(
        &self,
        client: &mut Client<'t, SharedDisk<'f, T, N>, P>,
        slots: &[Slot<'t, SharedDisk<'f, T, N>, P>],
        play: &mut V,
    ) -> bool {
        thread::scope(
            thread::scope_env(),
            self.waits,
            |scope| -> bool
                requires { IsSend P.row × IsSync T.row × IsSync N.row × IsSync L.row }
            {
                let is_suspend = self.play_beside(scope, client, slots, play);
                self.lanes.close(self.waits);
                is_suspend
            },
        )
    }

    /// Plays, and begins lanes as they are asked for. Whether a suspend is to come.
    fn play_beside<'s, E, V: Play>(
        &self,
        scope: &Scope<'s, E>,
        client: &mut Client<'t, SharedDisk<'f, T, N>, P>,
        slots: &'s [Slot<'t, SharedDisk<'f, T, N>, P>],
        play: &mut V,
    ) -> bool
    where
        't: 's,
    {
        let waits = self.waits;
        let mut has_thread = [true; LANES];
        for _ in waits.forever() {
            match play.serve(waits, client) {
                Next::Begin(lane) => match self.begin(scope, slots, lane) {
                    Ok(began) => {
                        if let Some(has) = has_thread.get_mut(lane) {
                            *has = began;
                        }
                    }
                    Err(refusal) => play.refused(waits, lane, refusal),
                },
                Next::CatchUp => catch_up(waits, &has_thread, slots, self.lanes),
                Next::Suspend => return true,
                Next::End => return false,
            }
        }
        false
    }

    /// Makes the client of a lane, with devices of its own, and has it serve on a thread of its own: whether one could be made.
    fn begin<'s, E>(
        &self,
        scope: &Scope<'s, E>,
        slots: &'s [Slot<'t, SharedDisk<'f, T, N>, P>],
        lane: usize,
    ) -> Result<bool, Refusal>
    where
        't: 's,
    {
        let Some(slot) = slots.get(lane) else {
            return Err(Refusal::Busy);
        };
        let (waits, target) = (self.waits, self.target);
        let devices = self.lender.lend()?;
        match target.client(waits, devices) {
            Ok(client) => {
                let before = mem::replace(&mut *slot.lock(waits), Some(client));
                retire_one(waits, target, before);
                Ok(start(scope, waits, slot, self.lanes, lane))
            }
            Err((_, refusal)) => Err(refusal),
        }
    }
}

/// A slot for each lane, in which there is no client yet.
fn slots_of<'t, T: Wait, D: Disk + Drop, P: Policy>(
    waits: &T,
    target: &'t Target<P>,
    alloc: Global,
) -> Result<Vec<Slot<'t, D, P>>, AllocError> {
    let mut slots = Vec::new(alloc);
    for _ in 0..LANES {
        if add_slot(&mut slots).is_err() {
            retire_all(waits, target, slots);
            return Err(AllocError);
        }
    }
    Ok(slots)
}

/// One slot more, in which there is no client yet.
fn add_slot<'t, D: Disk + Drop, P: Policy>(
    slots: &mut Vec<Slot<'t, D, P>>,
) -> Result<(), AllocError> {
    slots.reserve(1)?;
    slots.push_reserved(Mutex::new(None));
    Ok(())
}

/// Takes the clients of all lanes back, the last lane's first.
fn retire_all<'t, T: Wait, D: Disk + Drop, P: Policy>(
    waits: &T,
    target: &'t Target<P>,
    slots: Vec<Slot<'t, D, P>>,
) {
    let mut slots = slots;
    while let Some(slot) = slots.pop() {
        retire_one(waits, target, slot.into_inner());
    }
    slots.destroy_empty();
}

/// Takes the client of a lane back, if there is one.
fn retire_one<'t, T: Wait, D: Disk + Drop, P: Policy>(
    waits: &T,
    target: &'t Target<P>,
    client: Option<Client<'t, D, P>>,
) {
    if let Some(client) = client {
        drop(target.retire(waits, client));
    }
}

/// Starts the thread of a lane: whether it could be made.
fn start<
    's,
    't,
    E,
    T: Threads + Wait + Sync,
    D: Disk + Drop + Send,
    P: Policy + Send,
    L: Lanes + Sync,
>(scope: &Scope<'s, E>, waits: &'s T, slot: &'s Slot<'t, D, P>, lanes: &'s L, lane: usize) -> bool
where
    't: 's,
{
    scope
        .spawn(move || take_turn(waits, slot, lanes, lane, Turn::Serve))
        .is_ok()
}

/// What the client of a lane does: all that comes on its thread, or without one what waits.
#[derive(Clone, Copy)]
enum Turn {
    Serve,
    CatchUp,
}

/// Has the client of a lane do that, if it has begun.
fn take_turn<'t, T: Wait, D: Disk + Drop, P: Policy, L: Lanes>(
    waits: &T,
    slot: &Slot<'t, D, P>,
    lanes: &L,
    lane: usize,
    turn: Turn,
) {
    let mut held = slot.lock(waits);
    if let Some(client) = held.as_mut() {
        match turn {
            Turn::Serve => lanes.serve(waits, lane, client),
            Turn::CatchUp => lanes.catch_up(waits, lane, client),
        }
    }
}

/// Does what waits for the lanes that have no thread, in order.
fn catch_up<'t, T: Wait, D: Disk + Drop, P: Policy, L: Lanes>(
    waits: &T,
    has_thread: &[bool; LANES],
    slots: &[Slot<'t, D, P>],
    lanes: &L,
) {
    for (lane, slot) in slots.iter().enumerate() {
        if has_thread.get(lane) == Some(&false) {
            take_turn(waits, slot, lanes, lane, Turn::CatchUp);
        }
    }
}
