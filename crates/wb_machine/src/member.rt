//! What an actor is at over a target that stands, and its steps.

ghost use Rattle.std.specs.Prelude.{◌≡◌, ◌<◌, if◌then◌else◌, List, [], length, true, is_some, IfOk, IfErr, OnOk, OnErr};
ghost use Rattle.wb_types.specs.declared.number.OBlock.{OBlock as OBlockValue};
ghost use Rattle.wb_types.specs.declared.refusal.Refusal.TheVariants.{Memory};
ghost use Rattle.wb_words.specs.SharedWords.{flag};
ghost use Rattle.wb_cells.specs.Crews.{card_of};
ghost use Rattle.wb_runs.specs.Holding.{TaskSuits};
ghost use Rattle.wb_machine.specs.declared.machine.TheConstants.{ACTORS};
ghost use Rattle.wb_machine.specs.Life.{contents_of, shape_of, starts_beside};
ghost use Rattle.wb_machine.specs.Members.{free, suspends};
ghost use Rattle.wb_promise.specs.declared.job.Job.TheVariants.{Suspend};
ghost use Rattle.wb_promise.specs.Happenings.{AreMapped, Looks};
ghost use Rattle.wb_promise.specs.Effects.{job_of, seen_then, task_then};
ghost use Rattle.wb_stage.specs.Seen.{seen_after};
ghost use Rattle.wb_machine.specs.Keeping.{IsLeftBy};
ghost use Rattle.wb_machine.specs.Serving.{CanStep, ResultComes, FailsOrRests, GetsOrder, Starts, Steps, TakesOrder, may_give_up, is_copied, is_ordered, member_given};
ghost use Rattle.wb_machine.specs.Standing.{IsRoomy};

use crate::asking::awaits;
use crate::keeping::{keep, keeps_migration, keeps_replacement, orders_after, see_desk};
use crate::limits::most_for;
use crate::moving::fail_step;
use crate::outcome::Outcome;
use crate::requests::{begun_as, is_ordered, order_for, refusal_of, task_of};
use crate::suspending::{mapped_blocks, no_bits};
use crate::target::Target;
use crate::work::Work;
use std::alloc::Global;
use std::marker::Model;
use wb_desk::Desk;
use wb_devices::{Devices, RunningCommit};
use wb_disk::{CrashChoice, MemDisk};
use wb_flow::CommitTask;
use wb_policy::{Order, Quiet};
use wb_promise::{Job, What};
use wb_stage::{Share, seen};
use wb_tasks::{CellStep, DeviceStep, Got, Task, Want};
use wb_types::{Content, Geometry, Refusal};
use wb_words::Word;

/// What an actor is at: its job and what is left of its task, if it has one; the orders that it has, the newest first, and those of
/// replacements whose block has left, which wait for a flush of it; what its migration has read last, which it writes next; and for each
/// cache block whether its suspend has seen its copy dirty; and what its flush has of the commits that others lead. What it knows of the
/// shared words is on its card in the crew.
pub struct Member {
    task: Option<(Job, Work)>,
    orders: Vec<Order>,
    awaiting: Vec<Order>,
    buffer: Vec<Content>,
    seen: Vec<bool>,
    share: Share,
}

impl Drop for Member {
    fn drop(self) {
        let Member {
            task,
            orders,
            awaiting,
            buffer,
            seen,
            share,
        } = self;
        drop(task);
        drop(orders);
        drop(awaiting);
        drop(buffer);
        drop(seen);
        drop(share);
    }
}

impl Model for Member {
    ghost use Rattle.wb_machine.specs.Members.{Member as MemberValue};

    ghost Value = { MemberValue };

    ghost view = { λ m. record { task = m.task; orders = m.orders.items; awaiting = m.awaiting.items; buffer = m.buffer.items; seen = m.seen.items; share = m.share } };
}

impl Member {
    /// With nothing to do.
    pub(crate) fn resting(alloc: Global) -> Member
        ensures { result ≡ free }
    {
        Member {
            task: None,
            orders: Vec::new(alloc),
            awaiting: Vec::new(alloc),
            buffer: Vec::new(alloc),
            seen: Vec::new(alloc),
            share: Share::Nothing,
        }
    }

    /// Whether it is at something.
    pub(crate) fn is_busy(&self) -> bool
        ensures { result ≡ is_some self.now.task }
    {
        self.task.is_some()
    }

    /// Whether it suspends the target.
    pub(crate) fn is_suspending(&self) -> bool
        ensures { result ≡ suspends self.now }
    {
        matches!(self.task, Some((Job::Suspend, _)))
    }

    /// Gets a job other than a suspend, if it has none and the job may be started. Each of its steps on a device takes one
    /// sector. A migration or replacement starts under an order that it has, or under one that the desk gives; it is refused
    /// as busy where it gives none. A flush serves the replacements that wait for it. `Memory` where there is none for the
    /// order, or for the list of what is served; then nothing has changed.
    pub(crate) fn start(
        &mut self,
        alloc: Global,
        geometry: &Geometry,
        desk: &mut Desk<Quiet>,
        job: &Job,
    ) -> Result<What, Refusal>
        requires { starts_beside job.now ≡ true }
        ensures ok { IfOk result (λ what. Starts (shape_of geometry.now ACTORS) desk.old self.old job.now what desk.new self.new) }
        ensures err { OnErr result ((desk.new ≡ desk.old) × (self.new ≡ self.old)) }
        ensures refusal { IfErr result (λ refusal. refusal ≡ Memory) }
    {
        if self.task.is_some() {
            return Ok(What::Skipped);
        }
        if let Some(refusal) = refusal_of(geometry, job) {
            return Ok(What::Refused(refusal));
        }
        let mode = desk.mode();
        let task = task_of(alloc, geometry, mode, self.awaiting.as_slice(), job)?;
        if is_ordered(job) {
            let has_order = self.take_order(desk, job)?;
            if !has_order {
                return Ok(What::Refused(Refusal::Busy));
            }
        }
        self.task = Some((begun_as(job), task));
        Ok(What::Started)
    }

    /// Begins to suspend the target over this desk: it is to look at what is mapped, and has seen nothing. `Memory` where there is none for the
    /// list of that, or for what it is to see; then nothing has changed.
    pub(crate) fn suspend(
        &mut self,
        alloc: Global,
        geometry: &Geometry,
        desk: &Desk<Quiet>,
    ) -> Result<(), Refusal>
        ensures ok { OnOk result ((looks : List OBlockValue) × AreMapped desk.now looks × (self.new ≡ member_given (shape_of geometry.now ACTORS) desk.now.mode self.old Suspend (Looks looks))) }
        ensures err { OnErr result (self.new ≡ self.old) }
        ensures refusal { IfErr result (λ refusal. refusal ≡ Memory) }
    {
        let looks = mapped_blocks(alloc, desk)?;
        let bits = no_bits(alloc, geometry.cache_blocks)?;
        let task = CommitTask::suspend(looks, most_for(geometry, true));
        self.task = Some((Job::Suspend, Work::commits(task)));
        self.seen = bits;
        Ok(())
    }

    /// Whether it has an order under which the job may start, given now where it had none. `Memory` where there is no room for it; then
    /// nothing has changed.
    fn take_order(&mut self, desk: &mut Desk<Quiet>, job: &Job) -> Result<bool, Refusal>
        requires ordered { is_ordered job.now ≡ true }
        ensures ok { IfOk result (λ has. TakesOrder desk.old self.old job.now has desk.new self.new) }
        ensures err { OnErr result ((desk.new ≡ desk.old) × (self.new ≡ self.old)) }
        ensures refusal { IfErr result (λ refusal. refusal ≡ Memory) }
    {
        match job {
            Job::Migrate(migration, block) => {
                if keeps_migration(desk, self.orders.as_slice(), *migration, *block) {
                    return Ok(true);
                }
                self.get_order(desk, order_for(*migration, *block))
            }
            Job::Replace(old, new) => {
                if keeps_replacement(desk, self.orders.as_slice(), *old, *new) {
                    return Ok(true);
                }
                see_desk(desk);
                let Some(cache) = desk.place(*old) else {
                    return Ok(false);
                };
                self.get_order(desk, Order::Replace(*old, *new, cache))
            }
            _ => unreachable!(),
        }
    }

    /// Whether it is given this order. `Memory` where there is no room for it; then nothing has changed.
    fn get_order(&mut self, desk: &mut Desk<Quiet>, order: Order) -> Result<bool, Refusal>
        ensures ok { IfOk result (λ has. GetsOrder desk.old self.old order has desk.new self.new) }
        ensures err { OnErr result ((desk.new ≡ desk.old) × (self.new ≡ self.old)) }
        ensures refusal { IfErr result (λ refusal. refusal ≡ Memory) }
    {
        keep(&mut self.orders, order)?;
        if desk.reserve(order).is_err() {
            self.orders.remove(0);
            return Ok(false);
        }
        Ok(true)
    }

    /// The next step of its task, as the actor of this number; it is skipped where it has to wait for a commit that another leads.
    /// `Memory` where what is read, or what a write adds, wants more than there is; then no content has changed.
    pub(crate) fn step(
        &mut self,
        number: usize,
        alloc: Global,
        target: &mut Target,
        devices: &mut Devices<MemDisk>,
    ) -> Result<Outcome, Refusal>
        requires there { number < length target.old.crew.cards }
        requires failed { target.old.failed ≡ flag target.old.crew.words.fail }
        requires suits { TaskSuits target.old.crew.blocks (card_of target.old.crew number) self.old.task }
        requires can { CanStep (contents_of devices.old) target.old.commit self.old.task }
        requires roomy { IsRoomy target.old.desk.geometry self.old }
        ensures ok { IfOk result (λ done. Steps (contents_of devices.old) target.old number self.old done.what done.read.items (contents_of devices.new) target.new self.new) }
        ensures size { length devices.new.metadata.contents ≡ length devices.old.metadata.contents }
        ensures err { OnErr result ((contents_of devices.new ≡ contents_of devices.old) × (target.new ≡ target.old) × (self.new ≡ self.old)) }
        ensures refusal { IfErr result (λ refusal. refusal ≡ Memory) }
    {
        let Some((job, task)) = &self.task else {
            return Ok(Outcome::skipped(alloc));
        };
        let want = task.want();
        if awaits(&target.desk, &self.share, want) {
            return Ok(Outcome::skipped(alloc));
        }
        let copies = is_copied(job, want);
        let orders = self.orders.as_slice();
        let awaiting = self.awaiting.as_slice();
        let (orders_then, awaiting_then) = orders_after(alloc, orders, awaiting, job, want)?;
        let held = held_for(job, orders, awaiting);
        let seen = self.seen.as_slice();
        let buffer = self.buffer.as_slice();
        let share = &mut self.share;
        let (got, read) = target.perform(
            number, alloc, devices, job, held, seen, share, buffer, want,
        )?;
        self.see(want, got);
        self.go_on(want, got);
        self.change_orders(got, orders_then, awaiting_then);
        let noted = self.keep_read(alloc, copies, read);
        let what = What::Stepped(want, got);
        Ok(Outcome { what, read: noted })
    }

    /// What a step of a suspend shows of a seal is noted.
    fn see(&mut self, want: Want, got: Got)
        ensures task { self.new.task ≡ self.old.task }
        ensures orders { self.new.orders ≡ self.old.orders }
        ensures awaiting { self.new.awaiting ≡ self.old.awaiting }
        ensures buffer { self.new.buffer ≡ self.old.buffer }
        ensures seen { self.new.seen ≡ seen_then self.old.seen want got (job_of self.old.task) }
        ensures share { self.new.share ≡ self.old.share }
    {
        let Some((Job::Suspend, _)) = &self.task else {
            return;
        };
        note(self.seen.as_mut_slice(), want, got);
    }

    /// Its task goes on after a step with this result, or has ended.
    fn go_on(&mut self, want: Want, got: Got)
        requires { ResultComes self.old.task want got }
        ensures task { self.new.task ≡ task_then self.old.task want got }
        ensures orders { self.new.orders ≡ self.old.orders }
        ensures awaiting { self.new.awaiting ≡ self.old.awaiting }
        ensures buffer { self.new.buffer ≡ self.old.buffer }
        ensures seen { self.new.seen ≡ self.old.seen }
        ensures share { self.new.share ≡ self.old.share }
    {
        let Some((_, task)) = &mut self.task else {
            return;
        };
        if let Want::End(_) = want {
            self.task = None;
        } else {
            task.next(got);
        }
    }

    /// It has these orders from now on, and these wait for a flush, where a step was done that leaves them so.
    fn change_orders(&mut self, got: Got, orders: Option<Vec<Order>>, awaiting: Option<Vec<Order>>)
        ensures task { self.new.task ≡ self.old.task }
        ensures orders { IsLeftBy got self.old.orders orders self.new.orders }
        ensures awaiting { IsLeftBy got self.old.awaiting awaiting self.new.awaiting }
        ensures buffer { self.new.buffer ≡ self.old.buffer }
        ensures seen { self.new.seen ≡ self.old.seen }
        ensures share { self.new.share ≡ self.old.share }
    {
        if got != Got::Done {
            return;
        }
        if let Some(left) = orders {
            self.orders = left;
        }
        if let Some(left) = awaiting {
            self.awaiting = left;
        }
    }

    /// What was read is kept where it is written next, and is told else.
    fn keep_read(&mut self, alloc: Global, copies: bool, read: Vec<Content>) -> Vec<Content>
        ensures told { result.items ≡ (if copies then [] else read.items) }
        ensures task { self.new.task ≡ self.old.task }
        ensures orders { self.new.orders ≡ self.old.orders }
        ensures awaiting { self.new.awaiting ≡ self.old.awaiting }
        ensures buffer { self.new.buffer ≡ (if copies then read.items else self.old.buffer) }
        ensures seen { self.new.seen ≡ self.old.seen }
        ensures share { self.new.share ≡ self.old.share }
    {
        if !copies {
            return read;
        }
        self.buffer = read;
        Vec::new(alloc)
    }

    /// The next step of its task, a step on a device, which fails as the choice says. `Memory` where what lands wants more than
    /// there is; then no content has changed.
    pub(crate) fn falter(
        &mut self,
        alloc: Global,
        devices: &mut Devices<MemDisk>,
        commit: &mut Option<RunningCommit>,
        choice: &CrashChoice,
    ) -> Result<What, Refusal>
        requires { CanStep (contents_of devices.old) commit.old self.old.task }
        ensures ok { IfOk result (λ what. FailsOrRests choice.now (contents_of devices.old) commit.old self.old what (contents_of devices.new) commit.new self.new) }
        ensures size { length devices.new.metadata.contents ≡ length devices.old.metadata.contents }
        ensures err { OnErr result ((contents_of devices.new ≡ contents_of devices.old) × (commit.new ≡ commit.old) × (self.new ≡ self.old)) }
        ensures refusal { IfErr result (λ refusal. refusal ≡ Memory) }
    {
        let Some((job, task)) = &mut self.task else {
            return Ok(What::Skipped);
        };
        let want = task.want();
        let Want::Device(step) = want else {
            return Ok(What::Skipped);
        };
        let buffer = self.buffer.as_slice();
        let fails = fail_step(alloc, devices, commit, job, buffer, step, choice)?;
        if !fails {
            return Ok(What::Skipped);
        }
        task.next(Got::Fault);
        Ok(What::Stepped(want, Got::Fault))
    }
}

/// Whether a step reads what a migration writes next.
fn is_copied(job: &Job, want: Want) -> bool
    ensures { result ≡ is_copied job.now want }
{
    matches!(
        (job, want),
        (Job::Migrate(_, _), Want::Device(DeviceStep::Read(_, _)))
    )
}

/// Notes what a step showed of a seal.
fn note(bits: &mut [bool], want: Want, got: Got)
    ensures { bits.new ≡ seen_after want got bits.old }
{
    match (want, got) {
        (Want::Cell(CellStep::Look(Word::Seal(_))), Got::Word(seal)) => seen::note(bits, seal),
        _ => {}
    }
}

/// The orders of which a step of a job may give one up.
fn held_for<'a>(job: &Job, orders: &'a [Order], awaiting: &'a [Order]) -> &'a [Order]
    ensures { result.now ≡ may_give_up job.now orders.now awaiting.now }
{
    match job {
        Job::Flush => awaiting,
        _ => orders,
    }
}
