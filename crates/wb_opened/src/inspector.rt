//! What is looked at before the opening of a target writes anything.

ghost use Rattle.std.specs.Prelude.{◌≡◌};
ghost use Rattle.wb_checks.specs.Samples.{AreAsBefore, HaveSizes};

use std::alloc::Global;
use std::fmt;
use std::fmt::{Display, Formatter};
use wb_devices::Devices;
use wb_disk::Disk;
use wb_table::Table;
use wb_types::Refusal;

/// What is looked at once the files of a table are open and locked, before the opening of its cache writes anything.
pub trait Inspector {
    /// Looks at the devices, and leaves what they hold as it is; an error refuses the opening.
    fn inspect<D: Disk>(
        &mut self,
        alloc: Global,
        table: &Table<'_>,
        devices: &mut Devices<D>,
    ) -> Result<(), Uninspected>
        ensures sizes { HaveSizes D.size devices.old devices.new }
        ensures kept { D.tells → AreAsBefore D.contents devices.old devices.new };
}

/// An inspector that looks at nothing.
#[derive(Clone, Copy)]
pub struct Uninspecting;

impl Inspector for Uninspecting {
    fn inspect<D: Disk>(
        &mut self,
        _alloc: Global,
        _table: &Table<'_>,
        _devices: &mut Devices<D>,
    ) -> Result<(), Uninspected> {
        Ok(())
    }
}

/// Why an inspector refused an opening: what is printed for it, and in words, where there are some.
#[derive(Drop)]
pub struct Uninspected {
    refusal: Refusal,
    reason: Option<String>,
}

impl Uninspected {
    /// Refused so, for a reason that the refusal tells.
    pub fn refused(refusal: Refusal) -> Uninspected
        ensures { result.refusal ≡ refusal }
    {
        Uninspected {
            refusal,
            reason: None,
        }
    }

    /// Refused so, for this reason.
    pub fn told(refusal: Refusal, reason: String) -> Uninspected
        ensures { result.refusal ≡ refusal }
    {
        Uninspected {
            refusal,
            reason: Some(reason),
        }
    }

    /// What is printed for it.
    pub fn refusal(&self) -> Refusal
        ensures { result ≡ self.now.refusal }
    {
        self.refusal
    }
}

/// The reason in words, or the refusal where there is none.
impl Display for Uninspected {
    fn fmt<W: fmt::Write>(&self, f: &mut Formatter<W>) -> fmt::Result {
        match &self.reason {
            Some(reason) => f.write_str(reason.as_str()),
            None => {
                let refusal = self.refusal;
                write!(f, "{refusal}")
            }
        }
    }
}
