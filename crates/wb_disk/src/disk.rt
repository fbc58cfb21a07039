//! What a disk is.

ghost use Rattle.std.specs.Prelude.{◌≡◌, ◌<◌, ◌≤◌, ◌+◌, ℕ, Bool, [], ◌∷◌, List, OnOk, OnErr, IsErr, length};
ghost use Rattle.wb_disk.specs.Device.{History, ReadGives, written, synced, OneMore};
ghost use Rattle.wb_disk.specs.Extents.{Call, Reading, Writing, Syncing, MayLand, GivesEach, written_each, WrittenSo};
ghost use Rattle.wb_disk.specs.Failing.{SyncedSo};

use wb_types::Content;

/// A step of the device failed.
#[derive(Clone, Copy, Debug, PartialEq, Eq)]
pub struct DiskFault;

/// A disk, by the list of contents of each of its sectors.
///
/// Sectors are atomic. A fault is answered only where the disk's count of faults rose. After a failed read the
/// disk holds what it held, and `out` holds anything; a failed write has added its content or not, that of an
/// extent for each sector by itself; a failed sync has settled each sector or left it.
pub trait Disk {
    /// Whether a disk of this type tells what it holds. The clauses on contents and faults are under it.
    ghost tells: { Type 0 };

    /// The number of sectors.
    ghost size: { Self → ℕ };

    /// Of each sector what it held at the last sync, and the writes to it since.
    ghost contents: { Self → List History };

    /// How often the disk has failed, modulo 2^64.
    ghost faults: { Self → ℕ };

    /// How a call may fail: on which sectors it may land then. There is no such way where it cannot fail.
    ghost falters: { Self → Call → (ℕ → Bool) → Type 0 };

    /// Whether each call fails.
    ghost fails: { Self → Type 0 };

    /// The number of sectors.
    fn sectors(&self) -> u64
        ensures { result ≡ size self.now };

    /// Reads the newest content of a sector, which is below `sectors()`.
    fn read(&mut self, at: u64, out: &mut Content) -> Result<(), DiskFault>
        requires { at < size self.old }
        ensures size { size self.new ≡ size self.old }
        ensures given { tells → OnOk result (ReadGives (contents self.old) at out.new) }
        ensures kept { tells → contents self.new ≡ contents self.old }
        ensures no_fault { tells → OnOk result (faults self.new ≡ faults self.old) }
        ensures cause { tells → OnErr result (OneMore (faults self.old) (faults self.new)) }
        ensures how { tells → OnErr result (MayLand (falters self.old Reading)) }
        ensures fails { fails self.old → IsErr result };

    /// Writes a sector, which is below `sectors()`. Until the next sync, a crash may leave an older content of it.
    fn write(&mut self, at: u64, from: &Content) -> Result<(), DiskFault>
        requires { at < size self.old }
        ensures size { size self.new ≡ size self.old }
        ensures ok { tells → OnOk result (contents self.new ≡ written (contents self.old) at from.now) }
        ensures how { tells → OnErr result (WrittenSo (falters self.old (Writing at 1)) (contents self.old) at (from.now ∷ []) (contents self.new)) }
        ensures no_fault { tells → OnOk result (faults self.new ≡ faults self.old) }
        ensures cause { tells → OnErr result (OneMore (faults self.old) (faults self.new)) }
        ensures fails { fails self.old → IsErr result };

    /// Reads the newest contents of the sectors from `first` on, as many as `out` has; all are below `sectors()`.
    fn read_extent(&mut self, first: u64, out: &mut [Content]) -> Result<(), DiskFault>
        requires { first + length out.old ≤ size self.old }
        ensures size { size self.new ≡ size self.old }
        ensures many { length out.new ≡ length out.old }
        ensures given { tells → OnOk result (GivesEach (contents self.old) first out.new) }
        ensures kept { tells → contents self.new ≡ contents self.old }
        ensures no_fault { tells → OnOk result (faults self.new ≡ faults self.old) }
        ensures cause { tells → OnErr result (OneMore (faults self.old) (faults self.new)) }
        ensures how { tells → OnErr result (MayLand (falters self.old Reading)) }
        ensures fails { fails self.old → IsErr result };

    /// Writes the sectors from `first` on, as many as `from` has; all are below `sectors()`. The extent is not
    /// atomic: until the next sync, a crash may leave an older content of each sector by itself, and after a
    /// fault, which counts once, each has its content added or not.
    fn write_extent(&mut self, first: u64, from: &[Content]) -> Result<(), DiskFault>
        requires { first + length from.now ≤ size self.old }
        ensures size { size self.new ≡ size self.old }
        ensures ok { tells → OnOk result (contents self.new ≡ written_each (contents self.old) first from.now) }
        ensures how { tells → OnErr result (WrittenSo (falters self.old (Writing first (length from.now))) (contents self.old) first from.now (contents self.new)) }
        ensures no_fault { tells → OnOk result (faults self.new ≡ faults self.old) }
        ensures cause { tells → OnErr result (OneMore (faults self.old) (faults self.new)) }
        ensures fails { fails self.old → IsErr result };

    /// Makes the newest content of every sector durable.
    fn sync(&mut self) -> Result<(), DiskFault>
        ensures size { size self.new ≡ size self.old }
        ensures ok { tells → OnOk result (contents self.new ≡ synced (contents self.old)) }
        ensures how { tells → OnErr result (SyncedSo (falters self.old Syncing) (contents self.old) (contents self.new)) }
        ensures no_fault { tells → OnOk result (faults self.new ≡ faults self.old) }
        ensures cause { tells → OnErr result (OneMore (faults self.old) (faults self.new)) }
        ensures fails { fails self.old → IsErr result };

    /// A disk that tells what it holds has a list for each sector.
    ghost whole: { (disk : Self) → tells → length (contents disk) ≡ size disk };
}
