//! What is served.

ghost use Rattle.std.specs.Prelude.{◌≡◌, ◌≤◌, ◌+◌, ℕ, OnOk, IfErr, length};
ghost use Rattle.wb_nbd.specs.Acts.{ExportCall, Read as ReadAct, Wrote, Flushed, Refused};

use crate::errno::Errno;
use wb_types::{Content, Sector};

/// A range of sectors that can be read, written and flushed.
pub trait Export {
    /// Its sectors.
    ghost size: { Self → ℕ };

    /// Whether a call that was this may lead from one export to another.
    ghost acts: { Self → ExportCall → Self → Type 0 };

    /// How many sectors it has, always as many.
    fn sectors(&self) -> u64
        ensures { result ≡ size self.now };

    /// Reads the sectors from `at` on.
    fn read(&mut self, at: Sector, out: &mut [Content]) -> Result<(), Errno>
        requires { at.0 + length out.old ≤ size self.old }
        ensures done { OnOk result (acts self.old (ReadAct at.0 out.new) self.new) }
        ensures refused { IfErr result (λ errno. acts self.old (Refused errno) self.new) }
        ensures size { size self.new ≡ size self.old };

    /// Writes the sectors from `at` on.
    fn write(&mut self, at: Sector, from: &[Content]) -> Result<(), Errno>
        requires { at.0 + length from.now ≤ size self.old }
        ensures done { OnOk result (acts self.old (Wrote at.0 from.now) self.new) }
        ensures refused { IfErr result (λ errno. acts self.old (Refused errno) self.new) }
        ensures size { size self.new ≡ size self.old };

    /// Makes durable all that was written before.
    fn flush(&mut self) -> Result<(), Errno>
        ensures done { OnOk result (acts self.old Flushed self.new) }
        ensures refused { IfErr result (λ errno. acts self.old (Refused errno) self.new) }
        ensures size { size self.new ≡ size self.old };
}
