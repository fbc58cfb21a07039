//! A disk of which one call fails, or each from one on.

ghost use Rattle.std.specs.Prelude.{◌≡◌, OnErr, OnOk};
ghost use Rattle.wb_disk.specs.Device.{OneMore};
ghost use Rattle.wb_faults.specs.Counts.{faults_with};

use wb_disk::{Disk, DiskFault};
use wb_types::Content;

/// A disk whose reads, writes and syncs are counted from 0, of which the one of this number fails, and where it stops each behind it: that is a
/// fault that counts, and the disk inside is not asked. It tells what that disk tells.
#[derive(Drop)]
pub struct FaultDisk<D> {
    inside: D,
    calls: u64,
    fails: Option<u64>,
    stops: bool,
    faults: u64,
}

impl<D: Disk> FaultDisk<D> {
    /// A disk over this one, of which this call fails, if any.
    pub fn new(inside: D, fails: Option<u64>) -> FaultDisk<D>
        ensures { result.inside ≡ inside }
    {
        FaultDisk {
            inside,
            calls: 0,
            fails,
            stops: false,
            faults: 0,
        }
    }

    /// One that stops there.
    pub fn stopping(inside: D, fails: Option<u64>) -> FaultDisk<D>
        ensures { result.inside ≡ inside }
    {
        let mut disk = FaultDisk::new(inside, fails);
        disk.stops = true;
        disk
    }

    /// How many calls have come.
    pub fn calls(&self) -> u64
        ensures { result ≡ self.now.calls }
    {
        self.calls
    }

    /// The disk inside.
    pub fn into_inner(self) -> D
        ensures { result ≡ self.inside }
    {
        self.inside
    }

    /// Whether a call has failed.
    pub fn has_failed(&self) -> bool {
        self.faults != 0
    }

    /// Counts a call, which may be the one that fails.
    fn count(&mut self) -> Result<(), DiskFault>
        ensures inside { self.new.inside ≡ self.old.inside }
        ensures well { OnOk result (self.new.faults ≡ self.old.faults) }
        ensures failed { OnErr result (OneMore self.old.faults self.new.faults) }
    {
        let number = self.calls;
        self.calls = number.wrapping_add(1);
        if self.fails == Some(number) || self.stops && self.faults != 0 {
            self.faults = self.faults.wrapping_add(1);
            return Err(DiskFault);
        }
        Ok(())
    }
}

impl<D: Disk> Disk for FaultDisk<D> {
    ghost tells = { D.tells };

    ghost size = { λ d. D.size d.inside };

    ghost contents = { λ d. D.contents d.inside };

    ghost faults = { λ d. faults_with (D.faults d.inside) d.faults };

    ghost falters = { λ _ _ _. Unit {0} };

    ghost fails = { λ _. ⊥ };

    fn sectors(&self) -> u64 {
        self.inside.sectors()
    }

    #[tactic(auto, using(crate::proofs::Counting::one_more_own, crate::proofs::Counting::one_more_inside, crate::proofs::Nowhere::reads_nothing))]
    fn read(&mut self, at: u64, out: &mut Content) -> Result<(), DiskFault> {
        self.count()?;
        self.inside.read(at, out)
    }

    #[tactic(auto, using(crate::proofs::Counting::one_more_own, crate::proofs::Counting::one_more_inside, crate::proofs::Nowhere::writes_nothing))]
    fn write(&mut self, at: u64, from: &Content) -> Result<(), DiskFault> {
        self.count()?;
        self.inside.write(at, from)
    }

    #[tactic(auto, using(crate::proofs::Counting::one_more_own, crate::proofs::Counting::one_more_inside, crate::proofs::Nowhere::reads_nothing))]
    fn read_extent(&mut self, first: u64, out: &mut [Content]) -> Result<(), DiskFault> {
        self.count()?;
        self.inside.read_extent(first, out)
    }

    #[tactic(auto, using(crate::proofs::Counting::one_more_own, crate::proofs::Counting::one_more_inside, crate::proofs::Nowhere::writes_nothing))]
    fn write_extent(&mut self, first: u64, from: &[Content]) -> Result<(), DiskFault> {
        self.count()?;
        self.inside.write_extent(first, from)
    }

    #[tactic(auto, using(crate::proofs::Counting::one_more_own, crate::proofs::Counting::one_more_inside, crate::proofs::Nowhere::syncs_nothing))]
    fn sync(&mut self) -> Result<(), DiskFault> {
        self.count()?;
        self.inside.sync()
    }

    ghost whole = { λ d h. D.whole d.inside h };
}
