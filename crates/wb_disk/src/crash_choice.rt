//! Which content each sector keeps.

ghost use Rattle.std.specs.Prelude.{◌≡◌, ◌↔◌, IsTrue};
ghost use Rattle.wb_disk.specs.Crash.{is_device, NamesOnly};

use std::marker::Model;
use wb_types::Dev;

/// What is kept of a sector that is not named.
#[derive(Clone, Copy)]
pub enum Base {
    /// What it held at the last sync.
    Durable,
    /// What was written last.
    Newest,
}

/// A content of a sector of a device, by its position in the sector's list: 0 is the durable one, and each write
/// since has the next.
#[derive(Clone, Copy)]
pub struct NamedContent {
    pub device: Dev,
    pub sector: u64,
    pub position: u64,
}

impl NamedContent {
    /// Whether it is of a sector of this device.
    pub fn is_on(&self, device: Dev) -> bool
        ensures is_on { result ≡ is_device self.now.device device }
        ensures same { IsTrue result ↔ self.now.device ≡ device }
    {
        self.device == device
    }
}

/// A content for each sector of the devices. Of two names for one sector the later counts.
#[derive(Drop)]
pub struct CrashChoice {
    base: Base,
    named: Vec<NamedContent>,
}

impl Model for CrashChoice {
    ghost use Rattle.wb_disk.specs.Crash.{Choice};

    ghost Value = { Choice };

    ghost view = { λ c. record { base = c.base; named = c.named.items } };
}

impl CrashChoice {
    pub fn new(base: Base, named: Vec<NamedContent>) -> CrashChoice
        ensures base { result.base ≡ base }
        ensures named { result.named ≡ named.items }
    {
        CrashChoice { base, named }
    }

    /// What is kept of a sector that is not named.
    pub fn base(&self) -> Base
        ensures { result ≡ self.now.base }
    {
        self.base
    }

    /// The names, in the order in which they were given.
    pub fn named(&self) -> &[NamedContent]
        ensures { result.now ≡ self.now.named }
    {
        self.named.as_slice()
    }

    /// Whether no other device than this one is named.
    pub fn names_only(&self, device: Dev) -> bool
        ensures { IsTrue result ↔ NamesOnly device self.now }
    {
        self.named.iter().all(|name| name.is_on(device))
    }
}
