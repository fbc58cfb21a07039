//! Messages to a target, by one of its clients (the kernel's device-mapper/cache.rst, "Messages").

ghost use Rattle.std.specs.Prelude.{◌≡◌, [], OnOk, IfErr};
ghost use Rattle.wb_target.specs.Works.{WasAsked};
ghost use Rattle.wb_target.specs.Messages.{SettingDid, SettingRefused, MessageDid, MessageRefused};

use crate::client::Client;
use std::sync::Wait;
use wb_disk::Disk;
use wb_policy::Policy;
use wb_types::{Key, Message, Refusal};

impl<'t, D: Disk + Drop, P: Policy> Client<'t, D, P> {
    /// Does what a message asks for: gives a setting a value, `migration_threshold` 0 to 4,294,967,295 or the policy's `promote_min` in its range;
    /// or takes the blocks in ranges of cache blocks out of the cache, as `invalidate`. Accesses stay unsettled.
    ///
    /// For a setting `Failed` where the target has failed, then `BadMessage` for a value out of range or a key that the policy does not have; then
    /// nothing changed. For ranges as `invalidate`.
    pub fn message<R: Wait>(&mut self, rt: &R, message: &Message) -> Result<(), Refusal>
        ensures did { OnOk result (MessageDid P.with_setting (WasAsked P.with_entry P.without_entry []) self.old.port.geometry message.now self.old.port.hand self.new.port.hand) }
        ensures refused { IfErr result (λ refusal. MessageRefused P.with_setting (WasAsked P.with_entry P.without_entry []) self.old.port.geometry message.now refusal self.old.port.hand self.new.port.hand) }
        ensures devices { self.new.port.hand.devices ≡ self.old.port.hand.devices }
        ensures accesses { self.new.port.accesses ≡ self.old.port.accesses }
        ensures target { self.new.target ≡ self.old.target }
        ensures geometry { self.new.port.geometry ≡ self.old.port.geometry }
    {
        match message {
            Message::Set(key, value) => self.set(rt, *key, *value),
            Message::InvalidateCblocks(ranges) => self.invalidate(rt, ranges.as_slice()),
        }
    }

    /// Gives a setting a value.
    fn set<R: Wait>(&mut self, rt: &R, key: Key, value: u64) -> Result<(), Refusal>
        ensures did { OnOk result (SettingDid P.with_setting key value self.old.port.hand self.new.port.hand) }
        ensures refused { IfErr result (λ refusal. SettingRefused P.with_setting key value refusal self.old.port.hand self.new.port.hand) }
        ensures devices { self.new.port.hand.devices ≡ self.old.port.hand.devices }
        ensures accesses { self.new.port.accesses ≡ self.old.port.accesses }
        ensures target { self.new.target ≡ self.old.target }
        ensures geometry { self.new.port.geometry ≡ self.old.port.geometry }
    {
        if self.port.has_failed() {
            return Err(Refusal::Failed);
        }
        self.target.set(rt, key, value)
    }
}
