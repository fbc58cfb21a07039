//! Workers that a gate holds or ends.

use crate::files::{Images, Names, client_over, images, target_over};
use crate::fixture::{Lent, shows, tells, worked, write_and_read};
use crate::questions::{Question, answered};
use crate::threads::all_tell;
use std::sync::Wait;
use std::sync::atomic::{AtomicU64, Ordering};
use std::test::Fail;
use std::thread;
use std::time::{Clock, Duration};
use wb_disk::{Disk, FileDisk};
use wb_policy::{Order, Policy, TinyLfu};
use wb_target::{Client, Errand, Gate, Point, Sent, Target};
use wb_types::{CBlock, OBlock, Refusal, SECTOR_BYTES, Sector};

/// Says no where no order waits, and before an order once it let so many pass; counts what it is asked.
#[derive(Drop)]
struct Counting {
    orders: u64,
    asked: [AtomicU64; 3],
}

impl Counting {
    fn new(orders: u64) -> Counting {
        Counting {
            orders,
            asked: [AtomicU64::new(0), AtomicU64::new(0), AtomicU64::new(0)],
        }
    }

    /// How often it was asked at each point.
    fn told(&self) -> (u64, u64, u64) {
        let [order, device, idle] = &self.asked;
        (
            order.load(Ordering::SeqCst),
            device.load(Ordering::SeqCst),
            idle.load(Ordering::SeqCst),
        )
    }
}

impl Gate for Counting {
    ghost answers = { λ gate at go. Unit {0} };

    fn go_on(&self, at: Point) -> bool {
        let [order, device, idle] = &self.asked;
        match at {
            Point::Order => order.fetch_add(1, Ordering::SeqCst) < self.orders,
            Point::Device => {
                device.fetch_add(1, Ordering::SeqCst);
                true
            }
            Point::Idle => {
                idle.fetch_add(1, Ordering::SeqCst);
                false
            }
        }
    }
}

/// Has two orders given, of blocks 1 and 2.
fn order_two(rt: &impl Wait, client: &mut Lent<'_>) -> bool {
    write_and_read(rt, client, 64, 0x11) && write_and_read(rt, client, 128, 0x22)
}

/// Whether a worker takes no order after a no.
pub fn takes_no_more(rt: &impl Wait, client: &mut Lent<'_>) -> bool {
    let gate = Counting::new(1);
    order_two(rt, client)
        && client.worker(rt, &gate) == Ok(())
        && gate.told() == (2, 2, 0)
        && worked(rt, client) == Some(Order::Promote(OBlock(2), CBlock(1)))
}

#[test]
fn a_worker_takes_no_order_after_a_no(rt: HostRuntime) -> Result<(), Fail> {
    assert!(rt; answered(&rt, rt.alloc(), Question::TakesNoMore)?);
    Ok(())
}

/// Whether one carries out all orders, and asks where none waits.
pub fn carries_out_all(rt: &impl Wait, target: &Target<TinyLfu>, client: &mut Lent<'_>) -> bool {
    let gate = Counting::new(9);
    order_two(rt, client)
        && client.worker(rt, &gate) == Ok(())
        && gate.told() == (3, 4, 1)
        && target.counts(rt).promotions == 2
        && shows(rt, client, 64, 0x11)
        && shows(rt, client, 128, 0x22)
}

#[test]
fn a_worker_carries_out_all_orders_and_asks_where_none_waits(rt: HostRuntime) -> Result<(), Fail> {
    assert!(rt; answered(&rt, rt.alloc(), Question::CarriesOutAll)?);
    Ok(())
}

/// How far a worker and a client beside it have come: the worker stands before its first step on a device, and it may go on.
#[derive(Drop)]
pub struct Signals {
    pub stands: AtomicU64,
    pub goes: AtomicU64,
}

impl Signals {
    pub fn new() -> Signals {
        Signals {
            stands: AtomicU64::new(0),
            goes: AtomicU64::new(0),
        }
    }
}

/// Waits for a signal, at most 10,000 turns of one millisecond.
pub fn await_signal(rt: &impl Clock, signal: &AtomicU64) -> bool {
    for _ in 0..10_000 {
        if signal.load(Ordering::SeqCst) != 0 {
            return true;
        }
        thread::sleep(rt, Duration::from_millis(1));
    }
    false
}

/// Holds a worker before its steps on devices until it is told that it may go on, and ends it where no order waits.
#[derive(Drop)]
pub struct Holding<'a, C> {
    pub clock: &'a C,
    pub signals: &'a Signals,
}

impl<'a, C: Clock> Gate for Holding<'a, C> {
    ghost answers = { λ gate at go. Unit {0} };

    fn go_on(&self, at: Point) -> bool {
        match at {
            Point::Order => true,
            Point::Device => {
                self.signals.stands.store(1, Ordering::SeqCst);
                await_signal(self.clock, &self.signals.goes)
            }
            Point::Idle => false,
        }
    }
}

/// What is done beside one another: orders, held by a gate, or requests while the worker stands.
#[derive(Drop)]
enum Beside<'a, C> {
    Works(&'a C, &'a Signals),
    Asks(&'a C, &'a Signals),
}

impl<'a, C: Clock> Errand for Beside<'a, C> {
    type Told = bool;

    ghost tells = { λ beside told. Unit {0} };

    fn run<R: Wait, D: Disk + Drop, P: Policy>(
        self,
        rt: &R,
        client: &mut Client<'_, D, P>,
    ) -> bool {
        match self {
            Beside::Works(clock, signals) => {
                let gate = Holding { clock, signals };
                client.worker(rt, &gate).is_ok()
            }
            Beside::Asks(clock, signals) => {
                let stands = await_signal(clock, &signals.stands);
                let others = reads_others(rt, client);
                signals.goes.store(1, Ordering::SeqCst);
                stands && others
            }
        }
    }
}

/// Whether block 4 reads as zeros while block 3 is busy.
fn reads_others<R: Wait, D: Disk + Drop, P: Policy>(rt: &R, client: &mut Client<'_, D, P>) -> bool {
    let mut out = [[1; SECTOR_BYTES]];
    let read = client.read(rt, Sector(256), &mut out).is_ok() && out[0][0] == 0;
    read && client.port.try_read(Sector(192), &mut out) == Err(Refusal::Busy)
}

const HELD: Names = ["held_m.img", "held_c.img", "held_o.img"];

/// Has block 3 ordered by a client that then goes.
fn order_third(rt: &impl Wait, target: &Target<TinyLfu>, images: Images) -> Result<bool, Refusal> {
    let mut client = client_over(rt, target, images)?;
    let ordered = write_and_read(rt, &mut client, 192, 0x44);
    target.retire(rt, client);
    Ok(ordered)
}

/// A worker on a thread, and a client that asks beside it.
fn both<'a>(
    rt: &'a HostRuntime,
    signals: &'a Signals,
) -> Result<Vec<Sent<FileDisk, Beside<'a, HostRuntime>>>, Fail> {
    let mut both = Vec::with_capacity(rt.alloc(), 2)?;
    both.push(Sent {
        devices: images(rt, &HELD)?,
        errand: Beside::Works(rt, signals),
    })?;
    both.push(Sent {
        devices: images(rt, &HELD)?,
        errand: Beside::Asks(rt, signals),
    })?;
    Ok(both)
}

/// Whether a client shows block 3 as it was written.
fn shows_third(rt: &impl Wait, target: &Target<TinyLfu>, images: Images) -> Result<bool, Refusal> {
    let mut client = client_over(rt, target, images)?;
    let shown = shows(rt, &mut client, 192, 0x44);
    target.retire(rt, client);
    Ok(shown)
}

/// The status line after that.
const HELD_LINE: &str =
    "1 2/4 64 1/4 1 2 0 1 0 1 0 1 writeback 2 migration_threshold 2048 tinylfu 2 promote_min 2 rw -";

#[test]
fn a_worker_that_a_gate_holds_keeps_its_block_alone(rt: HostRuntime) -> Result<(), Fail> {
    let target = target_over(&rt, &HELD)?;
    let signals = Signals::new();
    let ordered = order_third(&rt, &target, images(&rt, &HELD)?);
    let ended = all_tell(&rt, &target, both(&rt, &signals)?, &[true, true]);
    let shown = shows_third(&rt, &target, images(&rt, &HELD)?);
    let told = tells(&rt, rt.alloc(), &target, HELD_LINE);
    drop(target);
    assert!(rt; told && ordered? && ended? && shown?);
    Ok(())
}
