//! A target: what its clients share.

ghost use Rattle.std.specs.Prelude.{◌≡◌, ◌<◌, ◌+◌, ◌++◌, ◌⊎◌, [], Err, OnOk, OnErr, IfOk, IfErr, IfSome, length, string_bytes};
ghost use Rattle.std.specs.Bool.{OnTrue, OnFalse};
ghost use Rattle.wb_table.specs.Status.{status_line};
ghost use Rattle.wb_table.specs.declared.status.Fields.{Fields as Told};
ghost use Rattle.wb_desk.specs.Desks.{DeskState, mapped_now};
ghost use Rattle.wb_meta.specs.Sizes.{AreSameSizes};
ghost use Rattle.wb_target.specs.Carried.{AreSynced, BlocksAreThere};
ghost use Rattle.wb_target.specs.Clients.{HaveSizes, IsNoClientFor};
ghost use Rattle.wb_target.specs.Suspends.{WasSuspended, SuspendRefused};
ghost use Rattle.wb_target.specs.Told.{WereSettled, HadTick, WasNext, WasSet, WasNotSet};
ghost use Rattle.wb_target.specs.Shown.{AreShown, SawDirty, WereLooked, seals_latest_first};
ghost use Rattle.wb_target.specs.Offices.{OfficeState as OfficeValue};
ghost use Rattle.wb_target.specs.declared.target.TheConstants.{CLIENTS as MostClients};

use crate::client::Client;
use crate::office::Office;
use std::alloc::Global;
use std::sync::{Condvar, Mutex, Wait};
use wb_desk::Counts;
use wb_devices::{Devices, are_same_sizes};
use wb_disk::Disk;
use wb_policy::{Order, Policy};
use wb_port::{Port, Seat};
use wb_table::status_text;
use wb_tasks::Answer;
use wb_types::{Geometry, Key, Mode, OBlock, Refusal};

/// How many clients a target has at most.
pub const CLIENTS: usize = 64;

/// An opened cache: its desk behind a lock, and a bell that rings when a commit has ended, or was broken.
pub struct Target<P: Policy> {
    pub(crate) alloc: Global,
    /// In which mode its clients read and write.
    pub(crate) mode: Mode,
    /// The sizes of its devices, as it was opened.
    pub(crate) sizes: Geometry,
    pub(crate) office: Mutex<Office<P>>,
    pub(crate) bell: Condvar,
}

impl<P: Policy> Drop for Target<P> {
    fn drop(self) {
        let Target {
            alloc: _,
            mode: _,
            sizes: _,
            office,
            bell,
        } = self;
        drop(office);
        drop(bell);
    }
}

impl<P: Policy> Target<P> {
    /// A target in this mode, over devices of these sizes and what is to lie under its lock.
    pub(crate) fn new(alloc: Global, mode: Mode, sizes: Geometry, office: Office<P>) -> Target<P>
        ensures { (result.mode ≡ mode) × (result.sizes ≡ sizes) }
    {
        Target {
            alloc,
            mode,
            sizes,
            office: Mutex::new(office),
            bell: Condvar::new(),
        }
    }

    /// A client with these devices, which are the target's, in its mode. `Geometry` where they have other sizes than the target was opened
    /// with, `Busy` where 64 clients are out, `Failed` where the target has failed, `Memory` where there is none; then the devices are handed back.
    pub fn client<R: Wait, D: Disk + Drop>(
        &self,
        rt: &R,
        devices: Devices<D>,
    ) -> Result<Client<'_, D, P>, (Devices<D>, Refusal)>
        ensures devices { IfOk result (λ client. client.port.hand.devices ≡ devices) }
        ensures unsettled { IfOk result (λ client. client.port.accesses.items ≡ []) }
        ensures mode { IfOk result (λ client. client.port.hand.mode ≡ self.now.mode) }
        ensures sizes { IfOk result (λ client. AreSameSizes client.port.geometry self.now.sizes) }
        ensures sized { IfOk result (λ client. HaveSizes D.size self.now.sizes devices) }
        ensures back { IfErr result (λ back. back.0 ≡ devices) }
        ensures refused { IfErr result (λ back. IsNoClientFor D.size self.now.sizes devices back.1) }
    {
        if !have_sizes(&devices, self.sizes) {
            return Err((devices, Refusal::Geometry));
        }
        let Some(seat) = self.take_seat(rt) else {
            return Err((devices, Refusal::Busy));
        };
        match Port::new(self.alloc, seat, self.mode, devices) {
            Ok(mut port) => {
                if port.has_failed() {
                    return Err((self.take_back(rt, port), Refusal::Failed));
                }
                Ok(Client::new(self, port))
            }
            Err((seat, devices)) => {
                self.office.lock(rt).give_back(seat);
                Err((devices, Refusal::Memory))
            }
        }
    }

    /// A place for one client more, if there is any.
    fn take_seat<R: Wait>(&self, rt: &R) -> Option<Seat>
        ensures { IfSome result (λ seat. AreSameSizes seat.geometry self.now.sizes) }
    {
        let seat = self.office.lock(rt).take_seat()?;
        // All have these sizes; the lock cannot say of which cache the office under it is.
        if are_same_sizes(seat.geometry, self.sizes) {
            Some(seat)
        } else {
            self.office.lock(rt).give_back(seat);
            None
        }
    }

    /// Takes a client back, its accesses settled: its devices.
    pub fn retire<R: Wait, D: Disk + Drop>(&self, rt: &R, client: Client<'_, D, P>) -> Devices<D>
        ensures devices { result ≡ client.entry.port.hand.devices }
        ensures told { 0 < length client.entry.port.accesses.items → WereSettled P.ordered P.settled client.entry.port.accesses.items }
    {
        let mut client = client;
        client.settle(rt);
        let target = client.target;
        target.take_back(rt, client.into_port())
    }

    /// Suspends the target over these devices, which are the target's and are handed back: each mapped block's dirty bit and the policy's hints
    /// are stored, and the metadata are marked clean, so that an opening finds the cache as it is. Afterwards a target is used again by opening it
    /// alone: its calls answer `Failed`, but for those that show its counts and its status line.
    ///
    /// `Busy` while a client is out, and `Memory` where there is none for the list of its blocks, and then nothing was done; `Failed` where the
    /// target has failed or is suspended; `Memory` and `GenerationEnd` as the commit; `Io` where a step failed, and then the target has failed.
    pub fn suspend<R: Wait, D: Disk + Drop>(
        &self,
        rt: &R,
        devices: Devices<D>,
    ) -> (Devices<D>, Result<(), Refusal>)
        ensures suspended { (office : OfficeValue P) × OnOk result.1 (WasSuspended office.watch.pass office.desk D.tells D.size D.contents D.faults P.hint_of P.with_entry P.without_entry devices Answer.Done result.0) }
        ensures synced { OnOk result.1 (D.tells → AreSynced D.contents result.0) }
        ensures clients { (office : OfficeValue P) × (length office.seats < MostClients → (result.1 ≡ Err Refusal.Busy) × (result.0 ≡ devices)) }
        ensures refused { (office : OfficeValue P) × IfErr result.1 (λ refusal. SuspendRefused office.watch.pass office.desk (length office.seats < MostClients) D.tells D.size D.contents D.faults P.hint_of P.with_entry P.without_entry devices refusal result.0) }
    {
        self.office.lock(rt).suspend(self.alloc, devices)
    }

    /// What the desk counts.
    pub fn counts<R: Wait>(&self, rt: &R) -> Counts
        ensures counted { (d : DeskState P) × (result.generation ≡ d.generation) × (result.used ≡ d.nodes + 2) × (result.mapped ≡ mapped_now d) × (result.promotions ≡ d.promotions) × (result.demotions ≡ d.demotions) × (result.threshold ≡ d.threshold) }
    {
        self.office.lock(rt).desk.counts()
    }

    /// How many mapped blocks are dirty now: a look at each cache block, under the lock.
    pub fn dirty<R: Wait>(&self, rt: &R) -> u32
        ensures counted { (office : OfficeValue P) × ((after : OfficeValue P) × SawDirty office.watch.pass.card after.watch.pass.card (seals_latest_first office.desk.tree office.desk.geometry.cache_blocks) result) }
    {
        self.office.lock(rt).count_dirty()
    }

    /// Adds the status line, with no end of line (the kernel's device-mapper/cache.rst, "Status"): what the desk counts, what the
    /// words count of requests, and how many mapped blocks are dirty, or `Fail` alone once the target has failed. A look at each
    /// cache block, under the lock. `Memory` where there is none, and then nothing is added.
    pub fn status<R: Wait>(&self, rt: &R, text: &mut String) -> Result<(), Refusal>
        ensures line { OnOk result ((told : Told) × ((office : OfficeValue P) × ((after : OfficeValue P) × AreShown P.name P.promote_min office.desk told × WereLooked office after.watch.pass.card told × (string_bytes text.new ≡ string_bytes text.old ++ status_line told)))) }
        ensures refused { IfErr result (λ refusal. refusal ≡ Refusal.Memory) }
        ensures unchanged { OnErr result (string_bytes text.new ≡ string_bytes text.old) }
    {
        let fields = self.office.lock(rt).fields();
        status_text(&fields, text)
    }

    /// The policy's tick. `Memory` where there is none, and then no order was given.
    pub(crate) fn tick<R: Wait>(&self, rt: &R) -> Result<(), Refusal>
        ensures ticked { OnOk result (HadTick P.cleaned P.ticked) }
        ensures refused { IfErr result (λ refusal. refusal ≡ Refusal.Memory) }
    {
        self.office.lock(rt).tick(self.alloc)?;
        Ok(())
    }

    /// Gives a setting a value. `BadMessage` for a value out of range or a key that the policy does not have, and then nothing changed.
    pub(crate) fn set<R: Wait>(&self, rt: &R, key: Key, value: u64) -> Result<(), Refusal>
        ensures set { OnOk result (WasSet P.with_setting key value) }
        ensures refused { IfErr result (WasNotSet P.with_setting key value) }
    {
        self.office.lock(rt).set(key, value)
    }

    /// Tells the policy of accesses, in order.
    pub(crate) fn settle<R: Wait>(&self, rt: &R, accesses: &[OBlock])
        ensures { WereSettled P.ordered P.settled accesses.now }
    {
        self.office.lock(rt).settle(accesses);
    }

    /// Tells the policy of accesses, in order, if nobody else has the lock now: whether it did.
    pub(crate) fn try_settle(&self, accesses: &[OBlock]) -> bool
        ensures { OnTrue result (WereSettled P.ordered P.settled accesses.now) }
    {
        let Some(mut office) = self.office.try_lock() else {
            return false;
        };
        office.settle(accesses);
        true
    }

    /// The order that waits longest, if any: one of blocks that are there in a cache of these sizes, which are the target's own.
    pub(crate) fn take_order<R: Wait>(&self, rt: &R, sizes: Geometry) -> Option<Order>
        ensures next { WasNext P result }
        ensures there { IfSome result (BlocksAreThere sizes) }
    {
        self.office.lock(rt).take_order(sizes)
    }

    /// A port's seat goes back to the office.
    fn take_back<R: Wait, D: Disk + Drop>(&self, rt: &R, port: Port<D>) -> Devices<D>
        ensures { result ≡ port.hand.devices }
    {
        let (seat, devices) = port.leave();
        self.office.lock(rt).give_back(seat);
        devices
    }
}

/// Whether devices have these sizes.
fn have_sizes<D: Disk>(devices: &Devices<D>, sizes: Geometry) -> bool
    ensures there { OnTrue result (HaveSizes D.size sizes devices.now) }
    ensures not { OnFalse result (¬ HaveSizes D.size sizes devices.now) }
{
    devices.metadata.sectors() == u64::from(sizes.meta_sectors)
        && devices.cache.sectors() == sizes.cache_sectors()
        && devices.origin.sectors() == sizes.origin_sectors()
}
