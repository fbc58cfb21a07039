//! What a target is to who stands above it: what its clients can be asked, and what is done by one of them.

ghost use Rattle.std.specs.Prelude.{Bool, ◌≡◌, ◌≢◌, ◌*◌, ◌++◌, Option, Some, None, OnOk, OnErr, IfOk, IfErr, length, string_bytes};
ghost use Rattle.std.specs.Bool.{OnTrue};
ghost use Rattle.wb_types.specs.declared.geometry.Geometry.{Geometry as Sizes};
ghost use Rattle.wb_target.specs.declared.gate.Point.{Point as WorkPoint};
ghost use Rattle.wb_target.specs.Workers.{IsFailure};
ghost use Rattle.wb_opened.specs.Deeds.{Deed, Read, Wrote, WroteDurably, TriedRead, TriedWrite, Settled, Flushed, Ticked, Worked, Messaged, MayRefuseMessage};
ghost use Rattle.wb_table.specs.Status.{status_line};
ghost use Rattle.wb_table.specs.declared.status.Fields.{Fields};
ghost use Rattle.wb_opened.specs.Inside.{IsInside};
ghost use Rattle.wb_opened.specs.Refused.{Demand, Reads, Writes, WritesDurably, TriesRead, TriesWrite, Flushes, Ticks, Works, Follows};
ghost use Rattle.wb_types.specs.declared.refusal.Refusal.{Refusal as RefusalValue};

use std::sync::Wait;
use wb_policy::Order;
use wb_target::Gate;
use wb_types::{Content, Geometry, Message, Refusal, Sector};

/// An opened target, by one of its clients.
pub trait Served {
    /// Its sizes.
    ghost sizes: { Self → Sizes };

    /// Whether a call that was answered done, and was this, may lead from one client to another.
    ghost did: { Self → Deed → Self → Type 0 };

    /// Whether a call that was refused for this, and had asked for that, may lead from one client to another.
    ghost met: { Self → Demand → RefusalValue → Self → Type 0 };

    /// Whether who carries out orders may come from one to another until a gate that answers so ends it, or until it is refused for this.
    ghost worked: { {G : Type 0} → (G → WorkPoint → Bool → Type 0) → G → Option RefusalValue → Self → Self → Type 0 };

    /// Its sizes.
    fn geometry(&self) -> Geometry
        ensures { result ≡ sizes self.now };

    /// Reads sectors, block by block; a block that is busy is tried again. After a refusal the slice may hold any contents.
    ///
    /// `Range` for no sector, or one outside the origin, before any block; `Failed`, `Io` and `Memory` where a block met them.
    fn read<R: Wait>(&mut self, rt: &R, at: Sector, out: &mut [Content]) -> Result<(), Refusal>
        ensures done { OnOk result (did self.old (Read at.0 out.new) self.new) }
        ensures refused { IfErr result (λ refusal. met self.old (Reads at.0 out.old out.new) refusal self.new) }
        ensures range { IfErr result (λ refusal. refusal ≡ Refusal.Range → ¬ IsInside at.0 (length out.old) ((sizes self.old).block * (sizes self.old).origin_blocks)) }
        ensures sizes { sizes self.new ≡ sizes self.old };

    /// Writes sectors, block by block; a block that is busy is tried again. Finished blocks stay where a later one is refused.
    ///
    /// `Range` as `read`; `Failed`, `Worn` and `Io` where a block met them.
    fn write<R: Wait>(&mut self, rt: &R, at: Sector, from: &[Content]) -> Result<(), Refusal>
        ensures done { OnOk result (did self.old (Wrote at.0 from.now) self.new) }
        ensures refused { IfErr result (λ refusal. met self.old (Writes at.0 from.now) refusal self.new) }
        ensures range { IfErr result (λ refusal. refusal ≡ Refusal.Range → ¬ IsInside at.0 (length from.now) ((sizes self.old).block * (sizes self.old).origin_blocks)) }
        ensures sizes { sizes self.new ≡ sizes self.old };

    /// Writes sectors as `write`, and then makes durable all that was finished, as `flush`; refused as these. Finished blocks stay.
    fn write_fua<R: Wait>(&mut self, rt: &R, at: Sector, from: &[Content]) -> Result<(), Refusal>
        ensures done { OnOk result (did self.old (WroteDurably at.0 from.now) self.new) }
        ensures refused { IfErr result (λ refusal. met self.old (WritesDurably at.0 from.now) refusal self.new) }
        ensures range { IfErr result (λ refusal. refusal ≡ Refusal.Range → ¬ IsInside at.0 (length from.now) ((sizes self.old).block * (sizes self.old).origin_blocks)) }
        ensures sizes { sizes self.new ≡ sizes self.old };

    /// Reads sectors of one block without waiting: `Range`, `Crosses`, `Defer` where 32 accesses are unsettled, `Busy`, `Failed`
    /// and `Io`.
    fn try_read(&mut self, at: Sector, out: &mut [Content]) -> Result<(), Refusal>
        ensures done { OnOk result (did self.old (TriedRead at.0 out.new) self.new) }
        ensures refused { IfErr result (λ refusal. met self.old (TriesRead at.0 out.old out.new) refusal self.new) }
        ensures range { IfErr result (λ refusal. refusal ≡ Refusal.Range → ¬ IsInside at.0 (length out.old) ((sizes self.old).block * (sizes self.old).origin_blocks)) };

    /// Writes sectors of one block without waiting, refused as `try_read`, and `Worn`.
    fn try_write(&mut self, at: Sector, from: &[Content]) -> Result<(), Refusal>
        ensures done { OnOk result (did self.old (TriedWrite at.0 from.now) self.new) }
        ensures refused { IfErr result (λ refusal. met self.old (TriesWrite at.0 from.now) refusal self.new) }
        ensures range { IfErr result (λ refusal. refusal ≡ Refusal.Range → ¬ IsInside at.0 (length from.now) ((sizes self.old).block * (sizes self.old).origin_blocks)) };

    /// Tells the policy of each access so far, in order.
    fn settle<R: Wait>(&mut self, rt: &R)
        ensures { did self.old Settled self.new };

    /// The same if nobody else is at the desk now, and waits for nobody: whether none is unsettled.
    fn try_settle(&mut self) -> bool
        ensures { OnTrue result (did self.old Settled self.new) };

    /// Makes durable all that was finished before it: `Failed`, `Io`, `Memory`, and `GenerationEnd`.
    fn flush<R: Wait>(&mut self, rt: &R) -> Result<(), Refusal>
        ensures done { OnOk result (did self.old Flushed self.new) }
        ensures refused { IfErr result (λ refusal. met self.old Flushes refusal self.new) }
        ensures sizes { sizes self.new ≡ sizes self.old };

    /// The policy's tick, and then a flush, refused as that.
    fn tick<R: Wait>(&mut self, rt: &R) -> Result<(), Refusal>
        ensures done { OnOk result (did self.old Ticked self.new) }
        ensures refused { IfErr result (λ refusal. met self.old Ticks refusal self.new) };

    /// Does what a message asks for, and settles nothing: a setting gets a value, or the blocks in ranges of cache blocks leave the cache.
    ///
    /// `BadMessage` for a value out of range, a key that the policy does not have, or ranges that are empty or go past the cache's end;
    /// `WrongMode` for ranges outside passthrough; `Failed`. Nothing changed then, but that blocks before one that met the failure have left.
    fn message<R: Wait>(&mut self, rt: &R, message: &Message) -> Result<(), Refusal>
        ensures done { OnOk result (did self.old (Messaged message.now) self.new) }
        ensures refused { IfErr result (MayRefuseMessage (sizes self.old) message.now) }
        ensures met { IfErr result (λ refusal. met self.old (Follows message.now) refusal self.new) }
        ensures sizes { sizes self.new ≡ sizes self.old };

    /// Carries out the order that waits longest, if any, and says which: `Failed`, `Io`, `Memory`, and `GenerationEnd`.
    fn work_one<R: Wait>(&mut self, rt: &R) -> Result<Option<Order>, Refusal>
        ensures done { IfOk result (λ order. did self.old (Worked order) self.new) }
        ensures refused { IfErr result (λ refusal. met self.old Works refusal self.new) };

    /// Carries out orders until the gate ends it: `Failed` and `Io`.
    fn worker<R: Wait, G: Gate>(&mut self, rt: &R, gate: &G) -> Result<(), Refusal>
        ensures ended { OnOk result (worked G.answers gate.now None self.old self.new) }
        ensures refused { IfErr result IsFailure }
        ensures failed { IfErr result (λ refusal. worked G.answers gate.now (Some refusal) self.old self.new) };

    /// Adds the status line, with no end of line: `Memory`.
    fn status<R: Wait>(&self, rt: &R, text: &mut String) -> Result<(), Refusal>
        ensures line { OnOk result ((told : Fields) × (string_bytes text.new ≡ string_bytes text.old ++ status_line told)) }
        ensures refused { IfErr result (λ refusal. refusal ≡ Refusal.Memory) }
        ensures unchanged { OnErr result (string_bytes text.new ≡ string_bytes text.old) };

    /// How many cache blocks are mapped.
    fn mapped<R: Wait>(&self, rt: &R) -> u32;

    /// How many of them are dirty: a look at each cache block, under the lock.
    fn dirty<R: Wait>(&self, rt: &R) -> u32;
}

/// What a target shows without a client.
pub trait Shown {
    /// Adds the status line, with no end of line: `Memory`.
    fn status<R: Wait>(&self, rt: &R, text: &mut String) -> Result<(), Refusal>
        ensures line { OnOk result ((told : Fields) × (string_bytes text.new ≡ string_bytes text.old ++ status_line told)) }
        ensures refused { IfErr result (λ refusal. refusal ≡ Refusal.Memory) }
        ensures unchanged { OnErr result (string_bytes text.new ≡ string_bytes text.old) };
}

/// What is done by a client of an opened target.
pub trait Service {
    /// What it tells at its end.
    type Told: Send + Drop;

    /// Does it.
    fn serve<R: Wait, C: Served>(self, rt: &R, client: &mut C) -> Self::Told;
}
