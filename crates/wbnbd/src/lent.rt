//! The origin of a target, as an export.

ghost use Rattle.wbnbd.specs.Lending.{DoneBy, IsToldAs};

use crate::pace::Pace;
use crate::teller::Teller;
use std::sync::Wait;
use wb_files::Alarm;
use wb_nbd::{Errno, Export};
use wb_opened::Served;
use wb_types::{Content, Refusal, Sector};

/// A client of a target, that requests are done by.
#[derive(Drop)]
pub struct Lent<'r, 'c, 'p, R, C, T, E> {
    pub rt: &'r R,
    pub client: &'c mut C,
    pub pace: &'p Pace,
    pub teller: &'p Teller<'p, T, E>,
    /// The sectors of the origin.
    pub size: u64,
}

impl<'r, 'c, 'p, R: Wait, C: Served, T, E: Eprint> Export for Lent<'r, 'c, 'p, R, C, T, E> {
    ghost size = { λ lent. lent.size };

    ghost acts = { λ old act new. DoneBy C.did C.met old.client.now act new.client.now };

    fn sectors(&self) -> u64 {
        self.size
    }

    fn read(&mut self, at: Sector, out: &mut [Content]) -> Result<(), Errno> {
        self.pace.count();
        match self.client.read(self.rt, at, out) {
            Ok(()) => Ok(()),
            Err(refusal) => Err(errno_of(&self.teller.alarm, refusal)),
        }
    }

    fn write(&mut self, at: Sector, from: &[Content]) -> Result<(), Errno> {
        self.pace.count();
        match self.client.write(self.rt, at, from) {
            Ok(()) => Ok(()),
            Err(refusal) => Err(errno_of(&self.teller.alarm, refusal)),
        }
    }

    fn flush(&mut self) -> Result<(), Errno> {
        match self.client.flush(self.rt) {
            Ok(()) => Ok(()),
            Err(refusal) => Err(errno_of(&self.teller.alarm, refusal)),
        }
    }
}

/// What a client is told of a refusal; a device that failed is told of on standard error, too.
fn errno_of<E: Eprint>(alarm: &Alarm<'_, E>, refusal: Refusal) -> Errno
    ensures { IsToldAs refusal result }
{
    match refusal {
        Refusal::Range => Errno::Invalid,
        Refusal::Failed => Errno::Shutdown,
        Refusal::Memory => Errno::Memory,
        Refusal::Io(device) => {
            alarm.note(device);
            if alarm.is_full(device) {
                Errno::Space
            } else {
                Errno::Io
            }
        }
        _ => Errno::Io,
    }
}
