//! What every policy is, and the law that it keeps.

ghost use Rattle.std.specs.Prelude.{◌≡◌, ◌≤◌, ℕ, List, Option, Some, None, IfOk, IfErr, OnOk, OnErr, IfSome, slice_get, slice_set, length};
ghost use Rattle.wb_types.specs.declared.message.Key.{Key as Setting};
ghost use Rattle.wb_types.specs.declared.entry.Entry.{Entry as AnEntry};
ghost use Rattle.wb_types.specs.declared.geometry.Geometry.{Geometry as Sizes};
ghost use Rattle.wb_policy.specs.declared.order.Order.{Order as AnOrder};
ghost use Rattle.wb_policy.specs.declared.situation.Settled.{Settled as Access};
ghost use Rattle.wb_policy.specs.declared.situation.Tick.{Tick as Ticking};
ghost use Rattle.wb_policy.specs.Law.{Holdings, origins, IsMapping, IsMappedAt, IsUnmapped, AreMapped, IsLawful};

use crate::{Order, Settled, Tick};
use std::alloc::Global;
use wb_types::{CBlock, Entry, Geometry, Key, OBlock, Refusal};

/// Decides which blocks are cached, replaced and written back.
///
/// Each policy says what it begins with by the definition `begun`, and what it decides by `ordered` and `cleaned`; the
/// clauses named `law` hold of every policy. Only `new` and `mapped` take memory.
pub trait Policy: Drop {
    /// Whether what it was told of the mapping is this.
    ghost knows: { Self → Holdings → Type 0 };

    /// What it is where it was made for a cache of these sizes with these entries, by cache block.
    ghost begun: { Sizes → List (Option AnEntry) → Self → Type 0 };

    /// The order that it gives at an access.
    ghost ordered: { Self → Access → Option AnOrder };

    /// What it is after an access.
    ghost settled: { Self → Access → Self };

    /// The order that it gives at a tick that has given so many orders.
    ghost cleaned: { Self → Ticking → ℕ → Option AnOrder };

    /// What it is after a tick that had given so many orders.
    ghost ticked: { Self → Ticking → ℕ → Self };

    /// What it is after it was told of an entry that came or went.
    ghost with_entry: { Self → ℕ → ℕ → Self };

    ghost without_entry: { Self → ℕ → Self };

    /// The hint of an origin block.
    ghost hint_of: { Self → ℕ → ℕ };

    /// What it is with a setting; none where the key is not its own, or the value is out of the key's range.
    ghost with_setting: { Self → Setting → ℕ → Option Self };

    /// The policy's name.
    ghost name: { List ℕ };

    /// The value of `promote_min` where there is one.
    ghost promote_min: { Self → Option ℕ };

    /// A policy for a cache with these entries, by cache block; `Memory` where there is none.
    fn new(alloc: Global, geometry: &Geometry, mapping: &[Option<Entry>]) -> Result<Self, Refusal>
        requires { length mapping.now ≡ geometry.now.cache_blocks }
        ensures begun { IfOk result (begun geometry.now mapping.now) }
        ensures knows { IfOk result (λ policy. IsMapping (origins mapping.now) → knows policy (origins mapping.now)) }
        ensures refused { IfErr result (λ e. e ≡ Refusal.Memory) };

    /// Tells of an access, and gives the order that follows from it, if any.
    fn settle(&mut self, access: &Settled<'_>) -> Option<Order>
        ensures order { result ≡ ordered self.old access.now }
        ensures state { self.new ≡ settled self.old access.now }
        ensures law { (m : Holdings) → knows self.old m → IfSome result (IsLawful access.now.mode m access.now.least_free access.now.busy.now) }
        ensures knows { (m : Holdings) → knows self.old m → knows self.new m };

    /// Gives the next order of a tick that has given so many, if any.
    fn tick(&mut self, tick: &Tick<'_>, given: u32) -> Option<Order>
        ensures order { result ≡ cleaned self.old tick.now given }
        ensures state { self.new ≡ ticked self.old tick.now given }
        ensures law { (m : Holdings) → knows self.old m → AreMapped m tick.now.dirty.now → IfSome result (IsLawful tick.now.mode m None tick.now.busy.now) }
        ensures knows { (m : Holdings) → knows self.old m → knows self.new m };

    /// Tells that a block has an entry now; `Memory` where there is none, and then nothing changed. `unmapped` undoes it.
    fn mapped(&mut self, b: OBlock, c: CBlock) -> Result<(), Refusal>
        ensures ok { OnOk result (self.new ≡ with_entry self.old b.0 c.0) }
        ensures knows { (m : Holdings) → knows self.old m → IsUnmapped m b.0 → slice_get m c.0 ≡ Some None → OnOk result (knows self.new (slice_set m c.0 (Some b.0))) }
        ensures undone { (m : Holdings) → knows self.old m → IsUnmapped m b.0 → OnOk result (without_entry self.new b.0 ≡ self.old) }
        ensures err { OnErr result (self.new ≡ self.old) }
        ensures refused { IfErr result (λ e. e ≡ Refusal.Memory) };

    /// Tells that a block has no entry any more.
    fn unmapped(&mut self, b: OBlock)
        ensures state { self.new ≡ without_entry self.old b.0 }
        ensures knows { (m : Holdings) (c : ℕ) → knows self.old m → IsMappedAt m b.0 c → knows self.new (slice_set m c None) };

    /// What is to be stored of a block for the next opening, 0 to 16.
    fn hint(&self, b: OBlock) -> u8
        ensures value { result ≡ hint_of self.now b.0 }
        ensures at_most { result ≤ 16 };

    /// Gives a setting a value; `BadMessage` where the key is not the policy's or the value is out of its range, and
    /// then nothing changed.
    fn set(&mut self, key: Key, value: u64) -> Result<(), Refusal>
        ensures ok { OnOk result (with_setting self.old key value ≡ Some self.new) }
        ensures bad { OnErr result (with_setting self.old key value ≡ None) }
        ensures err { OnErr result (self.new ≡ self.old) }
        ensures refused { IfErr result (λ e. e ≡ Refusal.BadMessage) }
        ensures knows { (m : Holdings) → knows self.old m → knows self.new m };

    /// The policy's name, and the value of `promote_min` where there is one.
    fn shown(&self) -> (&'static str, Option<u64>)
        ensures name { result.0.now ≡ name }
        ensures value { result.1 ≡ promote_min self.now };
}
