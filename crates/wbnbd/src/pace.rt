//! How a worker and who serves go beside one another.

ghost use Rattle.std.specs.Prelude.{Bool};

use std::sync::atomic::{AtomicU64, Ordering};
use std::thread;
use std::time::{Clock, Duration};
use wb_target::{Gate, Point};

/// How many requests there are to one tick of the policy.
const TICK: u64 = 4096;

/// More than ever serve.
const CLOSED: u64 = 1 << 32;

/// How long a worker rests at most where no order waits, in milliseconds. It rests as long as nothing has come by then, from one on.
const MOST_REST: u64 = 50;

/// How long nothing has come, in milliseconds, where the policy is asked for write-backs without a request.
const IDLE: u64 = 1000;

/// What a worker and those who serve know of one another.
#[derive(Drop)]
pub struct Pace {
    /// How many requests there were since the last tick.
    requests: AtomicU64,
    /// How many who are to serve have not ended.
    left: AtomicU64,
    /// How many serve now; `CLOSED` and above once the last of them has ended.
    serving: AtomicU64,
    /// Whether the connection is over: 1 where it is.
    over: AtomicU64,
    /// How long the worker has rested since the last request or tick.
    rested: AtomicU64,
    /// Whether a look has found no dirty block, and no request has come since: 1 where that is so.
    clean: AtomicU64,
}

impl Pace {
    /// So many are to serve.
    pub fn new(servers: u64) -> Pace {
        Pace {
            requests: AtomicU64::new(0),
            left: AtomicU64::new(servers),
            serving: AtomicU64::new(0),
            over: AtomicU64::new(0),
            rested: AtomicU64::new(0),
            clean: AtomicU64::new(0),
        }
    }

    /// A request came.
    pub fn count(&self) {
        self.requests.fetch_add(1, Ordering::SeqCst);
        self.rested.store(0, Ordering::SeqCst);
        self.clean.store(0, Ordering::SeqCst);
    }

    /// One begins to serve: whether that is too late, since all who did have ended.
    pub fn enter(&self) -> bool {
        self.serving.fetch_add(1, Ordering::SeqCst) >= CLOSED
    }

    /// Nothing more comes from the client.
    pub fn end(&self) {
        self.over.store(1, Ordering::SeqCst);
    }

    fn is_over(&self) -> bool {
        self.over.load(Ordering::SeqCst) != 0
    }

    /// One has served who was not too late, and the connection is over: whether it is the last. Who comes from then on is too late.
    pub fn leave(&self) -> bool {
        self.serving.fetch_sub(1, Ordering::SeqCst) == 1
            && self
                .serving
                .compare_exchange(0, CLOSED, Ordering::SeqCst, Ordering::SeqCst)
                .is_ok()
    }

    /// Whether the connection is over, or all who were to serve it have ended.
    pub fn has_ended(&self) -> bool {
        self.is_over() || self.left.load(Ordering::SeqCst) == 0
    }

    /// Whether a tick is due: for requests, or since there were none for a second while something may be dirty.
    pub fn is_due(&self) -> bool {
        self.is_busy()
            || self.rested.load(Ordering::SeqCst) >= IDLE && self.clean.load(Ordering::SeqCst) == 0
    }

    /// Whether there were requests enough for a tick.
    pub fn is_busy(&self) -> bool {
        self.requests.load(Ordering::SeqCst) >= TICK
    }

    /// There is a tick now.
    pub fn begin_anew(&self) {
        self.requests.store(0, Ordering::SeqCst);
        self.rested.store(0, Ordering::SeqCst);
    }

    /// It is looked whether a block is dirty; a request that comes from now on may make one so.
    pub fn look(&self) {
        self.clean.store(1, Ordering::SeqCst);
    }

    /// A block is dirty.
    pub fn found_dirty(&self) {
        self.clean.store(0, Ordering::SeqCst);
    }

    /// How long the worker is to rest now: a millisecond, and longer while nothing comes.
    fn rest(&self) -> u64 {
        let rested = self.rested.load(Ordering::SeqCst);
        let rest = rested.max(1).min(MOST_REST);
        self.rested.fetch_add(rest, Ordering::SeqCst);
        rest
    }
}

/// The place of one who is to serve: once it is let go its holder has ended, and perhaps never served.
pub struct Place<'a> {
    pub pace: &'a Pace,
}

impl<'a> Drop for Place<'a> {
    fn drop(self) {
        self.pace.left.fetch_sub(1, Ordering::SeqCst);
        let Place { pace: _ } = self;
    }
}

/// Lets a worker go on until a tick is due or the connection is over, and has it rest where no order waits.
#[derive(Drop)]
pub struct UntilTick<'a, C> {
    pub clock: &'a C,
    pub pace: &'a Pace,
}

impl<'a, C: Clock> Gate for UntilTick<'a, C> {
    ghost answers = { λ gate at go. Unit {0} };

    fn go_on(&self, at: Point) -> bool {
        if at == Point::Device {
            return true;
        }
        let goes_on = !self.pace.has_ended() && !self.pace.is_due();
        if goes_on && at == Point::Idle {
            thread::sleep(self.clock, Duration::from_millis(self.pace.rest()));
        }
        goes_on
    }
}
