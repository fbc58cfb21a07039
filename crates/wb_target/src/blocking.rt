//! Requests that wait, over any number of blocks.

ghost use Rattle.std.specs.Prelude.{◌≡◌, ◌≢◌, ◌≤◌, ◌<◌, ◌+◌, ◌-◌, ◌*◌, ◌%◌, ℕ, min, Some, None, [], OnOk, IfOk, IfErr, length};
ghost use Rattle.wb_port.specs.Requests.{IsOutside};
ghost use Rattle.wb_target.specs.Works.{WasAsked};
ghost use Rattle.wb_target.specs.Blocking.{ReadCame, WriteCame, CameTo, InParts, IsInsideOrigin, IsStopped};

use crate::client::Client;
use std::sync::Wait;
use std::thread;
use wb_disk::Disk;
use wb_policy::Policy;
use wb_types::{Content, Extent, Refusal, Sector};

/// Why a request ended early, and how many of its blocks were finished.
#[derive(Clone, Copy)]
pub struct Stopped {
    pub done: u64,
    pub refusal: Refusal,
}

impl<'t, D: Disk + Drop, P: Policy> Client<'t, D, P> {
    /// Reads the sectors from `at` on, block by block, rising; a block that is busy is tried again.
    ///
    /// `Range` for no sector, or one outside the origin, before any block; `Failed`, `Io` and `Memory` where a block met them.
    pub fn read<R: Wait>(&mut self, rt: &R, at: Sector, out: &mut [Content]) -> Result<(), Stopped>
        ensures inside { OnOk result (IsInsideOrigin self.old.port.geometry at.0 (length out.old)) }
        ensures read { OnOk result ((parts : ℕ) × InParts (ReadCame D.tells D.size D.contents D.faults self.old.port.geometry) self.old.port.geometry.block None parts at.0 self.old.port.hand out.old self.new.port.hand out.new) }
        ensures waits { IfErr result (λ stopped. stopped.refusal ≢ Refusal.Busy) }
        ensures stopped { IfErr result (λ stopped. IsStopped (ReadCame D.tells D.size D.contents D.faults self.old.port.geometry) self.old.port.geometry at.0 stopped self.old.port.hand out.old self.new.port.hand out.new) }
        ensures target { self.new.target ≡ self.old.target }
        ensures geometry { self.new.port.geometry ≡ self.old.port.geometry }
        ensures many { length out.new ≡ length out.old }
    {
        let count = out.len() as u64;
        self.in_range(at, count)?;
        let Sector(first) = at;
        let size = u64::from(self.port.geometry.block);
        let mut done = 0;
        let mut from = 0;
        while from < out.len() {
            let start = first + from as u64;
            let end = part_end(size, start, from, out.len());
            match self.read_block(rt, Sector(start), &mut out[from..end]) {
                Ok(()) => {
                    done += 1;
                    from = end;
                }
                Err(refusal) => return Err(Stopped { done, refusal }),
            }
        }
        Ok(())
    }

    /// Writes the sectors from `at` on, block by block, rising: how many blocks. A block that is busy is tried again. In write-through a mapped
    /// block is written on the origin and in the cache.
    ///
    /// In passthrough a mapped block leaves the cache first.
    ///
    /// `Range` as `read`; `Failed`, `Worn` and `Io` where a block met them.
    pub fn write<R: Wait>(&mut self, rt: &R, at: Sector, from: &[Content]) -> Result<u64, Stopped>
        ensures inside { OnOk result (IsInsideOrigin self.old.port.geometry at.0 (length from.now)) }
        ensures written { IfOk result (λ parts. InParts (WriteCame D.tells D.size D.contents D.faults (WasAsked P.with_entry P.without_entry []) self.old.port.geometry) self.old.port.geometry.block None parts at.0 self.old.port.hand from.now self.new.port.hand from.now) }
        ensures waits { IfErr result (λ stopped. stopped.refusal ≢ Refusal.Busy) }
        ensures stopped { IfErr result (λ stopped. IsStopped (WriteCame D.tells D.size D.contents D.faults (WasAsked P.with_entry P.without_entry []) self.old.port.geometry) self.old.port.geometry at.0 stopped self.old.port.hand from.now self.new.port.hand from.now) }
        ensures target { self.new.target ≡ self.old.target }
        ensures geometry { self.new.port.geometry ≡ self.old.port.geometry }
    {
        let count = from.len() as u64;
        self.in_range(at, count)?;
        let Sector(first) = at;
        let size = u64::from(self.port.geometry.block);
        let mut done = 0;
        let mut sent = 0;
        while sent < from.len() {
            let start = first + sent as u64;
            let end = part_end(size, start, sent, from.len());
            match self.write_block(rt, Sector(start), &from[sent..end]) {
                Ok(()) => {
                    done += 1;
                    sent = end;
                }
                Err(refusal) => return Err(Stopped { done, refusal }),
            }
        }
        Ok(done)
    }

    /// Whether so many sectors, and at least one, lie in the origin.
    fn in_range(&self, at: Sector, count: u64) -> Result<(), Stopped>
        ensures inside { OnOk result (IsInsideOrigin self.now.port.geometry at.0 count) }
        ensures refused { IfErr result (λ stopped. (stopped.done ≡ 0) × (stopped.refusal ≡ Refusal.Range) × IsOutside self.now.port.geometry at.0 count) }
    {
        let Sector(first) = at;
        let asked = Extent { first, count };
        if !asked.is_some_within(self.port.geometry.origin_sectors()) {
            return Err(Stopped {
                done: 0,
                refusal: Refusal::Range,
            });
        }
        Ok(())
    }

    /// Reads sectors of one block, again while it is busy, with its accesses settled before and after.
    fn read_block<R: Wait>(
        &mut self,
        rt: &R,
        at: Sector,
        out: &mut [Content],
    ) -> Result<(), Refusal>
        requires inside { IsInsideOrigin self.old.port.geometry at.0 (length out.old) }
        requires fits { at.0 % self.old.port.geometry.block + length out.old ≤ self.old.port.geometry.block }
        ensures read { OnOk result (CameTo (ReadCame D.tells D.size D.contents D.faults self.old.port.geometry) None (record { first = at.0; count = length out.old }) (self.old.port.hand, out.old) (self.new.port.hand, out.new)) }
        ensures waits { IfErr result (λ refusal. refusal ≢ Refusal.Busy) }
        ensures refused { IfErr result (λ refusal. (refusal ≢ Refusal.Range) × CameTo (ReadCame D.tells D.size D.contents D.faults self.old.port.geometry) (Some refusal) (record { first = at.0; count = length out.old }) (self.old.port.hand, out.old) (self.new.port.hand, out.new)) }
        ensures target { self.new.target ≡ self.old.target }
        ensures geometry { self.new.port.geometry ≡ self.old.port.geometry }
        ensures many { length out.new ≡ length out.old }
    {
        self.settle(rt);
        for _ in rt.forever() {
            match self.port.try_read(at, out) {
                Ok(()) => {
                    self.settle(rt);
                    return Ok(());
                }
                Err(refusal) => {
                    if refusal.is_busy() {
                        thread::yield_now();
                        continue;
                    }
                    return Err(refusal);
                }
            }
        }
        unreachable!()
    }

    /// Writes sectors of one block, as `read_block` reads them.
    fn write_block<R: Wait>(&mut self, rt: &R, at: Sector, from: &[Content]) -> Result<(), Refusal>
        requires inside { IsInsideOrigin self.old.port.geometry at.0 (length from.now) }
        requires fits { at.0 % self.old.port.geometry.block + length from.now ≤ self.old.port.geometry.block }
        ensures written { OnOk result (CameTo (WriteCame D.tells D.size D.contents D.faults (WasAsked P.with_entry P.without_entry []) self.old.port.geometry) None (record { first = at.0; count = length from.now }) (self.old.port.hand, from.now) (self.new.port.hand, from.now)) }
        ensures waits { IfErr result (λ refusal. refusal ≢ Refusal.Busy) }
        ensures refused { IfErr result (λ refusal. (refusal ≢ Refusal.Range) × CameTo (WriteCame D.tells D.size D.contents D.faults (WasAsked P.with_entry P.without_entry []) self.old.port.geometry) (Some refusal) (record { first = at.0; count = length from.now }) (self.old.port.hand, from.now) (self.new.port.hand, from.now)) }
        ensures target { self.new.target ≡ self.old.target }
        ensures geometry { self.new.port.geometry ≡ self.old.port.geometry }
    {
        self.settle(rt);
        for _ in rt.forever() {
            match self.write_once(rt, at, from) {
                Ok(()) => {
                    self.settle(rt);
                    return Ok(());
                }
                Err(refusal) => {
                    if refusal.is_busy() {
                        thread::yield_now();
                        continue;
                    }
                    return Err(refusal);
                }
            }
        }
        unreachable!()
    }
}

/// Where the part of a request ends, in its slice, that begins there at this sector: with its block, or with the slice.
fn part_end(block: u64, start: u64, from: usize, count: usize) -> usize
    requires some { 0 < block }
    requires left { from < count }
    ensures end { result ≡ from + min (block - start % block) (count - from) }
    ensures later { from < result }
    ensures within { result ≤ count }
    ensures fits { start % block + (result - from) ≤ block }
{
    from + (block - start % block).min((count - from) as u64) as usize
}
