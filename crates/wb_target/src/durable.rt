//! Writes that are durable when they are answered.

ghost use Rattle.std.specs.Prelude.{◌≡◌, [], None, IfOk, OnOk, IfErr, length};
ghost use Rattle.wb_target.specs.Blocking.{WriteCame, IsInsideOrigin};
ghost use Rattle.wb_target.specs.Carried.{client_state, Runs, WasDoneWith, AreSynced, flush_of, share_of};
ghost use Rattle.wb_target.specs.Durable.{WroteDurably, StoppedDurably};
ghost use Rattle.wb_target.specs.Workers.{FlushRefused};
ghost use Rattle.wb_target.specs.Works.{AskedSharing, WasAsked};

use crate::blocking::Stopped;
use crate::carrying::Flushed;
use crate::client::Client;
use std::sync::Wait;
use wb_disk::Disk;
use wb_policy::Policy;
use wb_types::{Content, Sector};

impl<'t, D: Disk + Drop, P: Policy> Client<'t, D, P> {
    /// Writes the sectors from `at` on as `write` does, and then makes durable all that was finished, as `flush` does: a write with the flag
    /// FUA (the kernel's block/writeback_cache_control.rst), which commits the metadata too.
    ///
    /// `Stopped` as `write`, and then nothing is flushed; or with all its blocks done and why the flush was refused.
    pub fn write_fua<R: Wait>(
        &mut self,
        rt: &R,
        at: Sector,
        from: &[Content],
    ) -> Result<Flushed, Stopped>
        ensures inside { OnOk result (IsInsideOrigin self.old.port.geometry at.0 (length from.now)) }
        ensures written { IfOk result (λ flushed. WroteDurably (WriteCame D.tells D.size D.contents D.faults (WasAsked P.with_entry P.without_entry []) self.old.port.geometry) (WasDoneWith D.tells D.size D.contents D.faults (AskedSharing P.with_entry P.without_entry) self.old.port.geometry.origin_blocks [] (flush_of self.old.port.geometry None) (share_of flushed)) self.old.port.geometry at.0 from.now self.old.port.hand (client_state self.new.port)) }
        ensures synced { IfOk result (λ flushed. flushed ≡ Flushed.Led → D.tells → AreSynced D.contents self.new.port.hand.devices) }
        ensures stopped { IfErr result (λ stopped. StoppedDurably (WriteCame D.tells D.size D.contents D.faults (WasAsked P.with_entry P.without_entry []) self.old.port.geometry) (FlushRefused (Runs D.tells D.size D.contents D.faults (AskedSharing P.with_entry P.without_entry) self.old.port.geometry.origin_blocks) self.old.port.geometry) self.old.port.geometry at.0 stopped self.old.port.hand from.now (client_state self.new.port)) }
        ensures target { self.new.target ≡ self.old.target }
        ensures geometry { self.new.port.geometry ≡ self.old.port.geometry }
    {
        match self.write(rt, at, from) {
            Ok(done) => match self.flush(rt) {
                Ok(flushed) => Ok(flushed),
                Err(refusal) => Err(Stopped { done, refusal }),
            },
            Err(stopped) => Err(stopped),
        }
    }
}
