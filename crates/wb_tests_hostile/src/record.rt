//! What was answered while a device failed: whether it may be so, and what an opening may show then.

use wb_policy::Order;
use wb_types::{Dev, Refusal};

/// Whether the target has failed.
#[derive(Clone, Copy)]
enum Failed {
    No,
    /// The next answer tells.
    Perhaps,
    Yes,
}

impl Failed {
    /// Whether it may have failed.
    fn may_be(self) -> bool {
        match self {
            Failed::No => false,
            Failed::Perhaps | Failed::Yes => true,
        }
    }

    /// Whether it may still go on.
    fn may_go_on(self) -> bool {
        match self {
            Failed::No | Failed::Perhaps => true,
            Failed::Yes => false,
        }
    }
}

/// What a line does on the device that may fail in it.
#[derive(Clone, Copy)]
pub enum Kind {
    /// It reads: the target goes on.
    Reads,
    /// It writes or syncs: the target has failed.
    Changes,
    /// It does both: the answer does not tell.
    Both,
}

/// What was answered, from the first line on, while this device failed.
#[derive(Drop)]
pub struct Record {
    device: Dev,
    /// Whether one call fails alone.
    once: bool,
    failed: Failed,
    /// How many answers told that the device failed.
    met: u64,
    /// How many orders were carried out.
    worked: u64,
    /// Whether the write was begun, and whether it was flushed.
    begun: bool,
    flushed: bool,
    /// Whether all was as it may be.
    right: bool,
}

impl Record {
    pub fn new(device: Dev, once: bool) -> Record {
        Record {
            device,
            once,
            failed: Failed::No,
            met: 0,
            worked: 0,
            begun: false,
            flushed: false,
            right: true,
        }
    }

    /// Whether all was as it may be.
    pub fn is_right(&self) -> bool {
        self.right
    }

    /// How many answers told that the device failed.
    pub fn met(&self) -> u64 {
        self.met
    }

    /// Whether the write was flushed.
    pub fn is_flushed(&self) -> bool {
        self.flushed
    }

    /// This has to hold.
    pub fn expect(&mut self, holds: bool) {
        self.right = self.right && holds;
    }

    /// A line was done, which no target does that has failed.
    fn done(&mut self) {
        let goes_on = self.failed.may_go_on();
        self.expect(goes_on);
        self.failed = Failed::No;
    }

    /// A line was refused: by a target that has failed, since it has; by another one, since the device failed.
    pub fn refused(&mut self, kind: Kind, refusal: Refusal) {
        match refusal {
            Refusal::Failed => {
                let may_have_failed = self.failed.may_be();
                self.expect(may_have_failed);
                self.failed = Failed::Yes;
            }
            Refusal::Io(device) => {
                let goes_on = self.failed.may_go_on();
                let is_new = !self.once || self.met == 0;
                let is_it = device == self.device;
                self.expect(goes_on && is_new && is_it);
                self.met = self.met.wrapping_add(1);
                self.failed = match kind {
                    Kind::Reads => Failed::No,
                    Kind::Changes => Failed::Yes,
                    Kind::Both => Failed::Perhaps,
                };
            }
            _ => self.expect(false),
        }
    }

    /// A sector was read, and began with this byte; it had to begin with that one.
    pub fn read(&mut self, byte: u8, wanted: u8) {
        self.done();
        self.expect(byte == wanted);
    }

    /// An order was carried out, or there was none. As long as nothing failed it is the one that was wanted.
    pub fn worked(&mut self, order: Option<Order>, wanted: Option<Order>) {
        self.done();
        let is_right = self.met != 0 || order == wanted;
        self.expect(is_right);
        if order.is_some() {
            self.worked = self.worked.wrapping_add(1);
        }
    }

    /// A migration of an order was refused: a promotion fails at a read of the origin or a write of the cache, and what a replacement syncs
    /// before is the origin, too.
    pub fn refused_work(&mut self, wanted: Option<Order>, refusal: Refusal) {
        let kind = match (self.device, wanted) {
            (Dev::Origin, Some(Order::Replace(_, _, _))) => Kind::Both,
            (Dev::Origin, _) => Kind::Reads,
            _ => Kind::Changes,
        };
        self.refused(kind, refusal);
    }

    /// The write is begun.
    pub fn begin(&mut self) {
        self.begun = true;
    }

    /// The write is done.
    pub fn written(&mut self) {
        self.done();
    }

    /// A flush is done.
    pub fn flush(&mut self) {
        self.done();
        self.flushed = self.begun;
    }

    /// As many orders as this were carried out to the end, by the target's own count.
    pub fn counted(&mut self, promotions: u64) {
        let is_right = promotions == self.worked;
        self.expect(is_right);
    }

    /// What an opening shows of a sector of the origin, which began with that before; one was written with this byte.
    pub fn shown(&mut self, at: u64, byte: u8, before: u8) {
        if at == WRITTEN.0 {
            let is_old = byte == before && !self.flushed;
            let is_new = byte == WRITTEN.1 && self.begun;
            self.expect(is_old || is_new);
        } else {
            self.expect(byte == before);
        }
    }
}

/// The sector that is written, and with what.
pub const WRITTEN: (u64, u8) = (256, 0x44);
