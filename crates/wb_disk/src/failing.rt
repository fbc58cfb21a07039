//! How a failing step leaves the sectors that it writes or syncs.

ghost use Rattle.std.specs.Prelude.{◌≡◌, ◌<◌, ◌≤◌, ◌↔◌, IsTrue, All};
ghost use Rattle.wb_disk.specs.declared.crash_choice.NamedContent.{NamedContent as Named};
ghost use Rattle.wb_disk.specs.Crash.{named_position};
ghost use Rattle.wb_disk.specs.Failing.{MayFail, lands};
ghost use Rattle.wb_disk.specs.Stored.{lands_at};

use crate::{Base, CrashChoice, NamedContent};
use wb_types::Dev;

/// On which sectors a sync lands: on all, or where a choice for a device says so.
#[derive(Clone, Copy)]
pub(crate) enum Landing<'a> {
    Everywhere,
    As(Dev, &'a CrashChoice),
}

impl Landing<'_> {
    pub(crate) fn is_at(self, at: u64) -> bool
        ensures { result ≡ lands_at self.entry at }
    {
        match self {
            Landing::Everywhere => true,
            Landing::As(device, choice) => choice.has_landed(device, at),
        }
    }
}

impl CrashChoice {
    /// Whether a step on this device, of so many sectors, may fail so: each name is of one of its sectors, and the
    /// number that counts for each is 0, for a sector that has not landed, or 1, for one that has.
    pub fn may_fail(&self, device: Dev, sectors: u64) -> bool
        ensures { IsTrue result ↔ MayFail device self.now sectors }
    {
        self.names_only(device)
            && are_inside(self.named(), sectors)
            && are_two(self.named(), device)
    }

    /// Whether a failing step has landed on this sector of the device.
    pub fn has_landed(&self, device: Dev, at: u64) -> bool
        ensures { result ≡ lands device self.now at }
    {
        let base = match self.base() {
            Base::Durable => 0,
            Base::Newest => 1,
        };
        position_in(self.named(), device, at, base) == 1
    }
}

fn are_inside(named: &[NamedContent], sectors: u64) -> bool
    ensures { IsTrue result ↔ All (λ (name : Named). name.sector < sectors) named.now }
{
    named.iter().all(|name| name.sector < sectors)
}

fn are_two(named: &[NamedContent], device: Dev) -> bool
    ensures { IsTrue result ↔ All (λ (name : Named). named_position device named.now name.sector 0 ≤ 1) named.now }
{
    named
        .iter()
        .all(|name| position_in(named, device, name.sector, 0) <= 1)
}

/// The number that was named last for a sector of the device, or this one where none was.
fn position_in(named: &[NamedContent], device: Dev, at: u64, otherwise: u64) -> u64
    ensures { result ≡ named_position device named.now at otherwise }
{
    let mut position = otherwise;
    for name in named {
        if name.is_on(device) && name.sector == at {
            position = name.position;
        }
    }
    position
}
