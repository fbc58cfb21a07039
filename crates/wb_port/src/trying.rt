//! Requests over one block that neither wait nor take memory.

ghost use Rattle.std.specs.Prelude.{◌≡◌, ◌≤◌, ◌<◌, ◌+◌, ◌*◌, ◌/◌, ◌%◌, ◌^◌, ◌++◌, [], ◌∷◌, ◌⊎◌, OnOk, OnErr, IfOk, IfErr, length};
ghost use Rattle.wb_port.specs.declared.port.TheConstants.{UNSETTLED as MostUnsettled};
ghost use Rattle.wb_port.specs.Requests.{IsOutside, Crosses, WasRead, WasWritten};
ghost use Rattle.wb_port.specs.Ports.{block_at, IsTryRefused, TryReadRefused, TryWriteRefused};

use crate::parts::{read_part, write_part};
use crate::port::{Port, UNSETTLED};
use wb_disk::Disk;
use wb_types::{Content, Extent, OBlock, Refusal, Sector};

impl<D: Disk> Port<D> {
    /// Reads neighbouring sectors, from `at` on, into a slice.
    ///
    /// `Range` where there is none, or one outside the origin; `Crosses` where they are of more than one block; `Defer` where 32
    /// accesses are unsettled; and what `read_part` refuses. After a refusal the slice may hold any contents.
    pub fn try_read(&mut self, at: Sector, out: &mut [Content]) -> Result<(), Refusal>
        ensures many { length out.new ≡ length out.old }
        ensures read { OnOk result (WasRead D.tells D.size D.contents D.faults self.old.cells.value.blocks self.old.geometry.block (block_at self.old.geometry at.0) (record { first = at.0; count = length out.old }) out.old out.new self.old.hand self.new.hand) }
        ensures noted { OnOk result (self.new.accesses.items ≡ self.old.accesses.items ++ block_at self.old.geometry at.0 ∷ []) }
        ensures refused { IfErr result (λ refusal. TryReadRefused D.tells D.size D.contents D.faults self.old at.0 out.old refusal self.new out.new) }
        ensures range { IfErr result (λ refusal. refusal ≡ Refusal.Range → IsOutside self.old.geometry at.0 (length out.old)) }
        ensures kept { OnErr result (self.new.accesses ≡ self.old.accesses) }
        ensures geometry { self.new.geometry ≡ self.old.geometry }
        ensures cells { self.new.cells ≡ self.old.cells }
    {
        let Sector(first) = at;
        let sectors = Extent {
            first,
            count: out.len() as u64,
        };
        let block = self.block_of(sectors)?;
        read_part(
            &self.cells,
            &mut self.hand,
            self.geometry.block,
            block,
            sectors,
            out,
        )?;
        self.accesses.push_reserved(block);
        Ok(())
    }

    /// Writes a slice to neighbouring sectors, from `at` on.
    ///
    /// `Range`, `Crosses` and `Defer` as `try_read`; and what `write_part` refuses.
    pub fn try_write(&mut self, at: Sector, from: &[Content]) -> Result<(), Refusal>
        ensures written { OnOk result (WasWritten D.tells D.size D.contents D.faults self.old.cells.value.blocks self.old.geometry.block (block_at self.old.geometry at.0) (record { first = at.0; count = length from.now }) from.now self.old.hand self.new.hand) }
        ensures noted { OnOk result (self.new.accesses.items ≡ self.old.accesses.items ++ block_at self.old.geometry at.0 ∷ []) }
        ensures refused { IfErr result (λ refusal. TryWriteRefused D.tells D.size D.contents D.faults self.old at.0 from.now refusal self.new) }
        ensures range { IfErr result (λ refusal. refusal ≡ Refusal.Range → IsOutside self.old.geometry at.0 (length from.now)) }
        ensures kept { OnErr result (self.new.accesses ≡ self.old.accesses) }
        ensures geometry { self.new.geometry ≡ self.old.geometry }
        ensures cells { self.new.cells ≡ self.old.cells }
    {
        let Sector(first) = at;
        let sectors = Extent {
            first,
            count: from.len() as u64,
        };
        let block = self.block_of(sectors)?;
        write_part(
            &self.cells,
            &mut self.hand,
            self.geometry.block,
            block,
            sectors,
            from,
        )?;
        self.accesses.push_reserved(block);
        Ok(())
    }

    /// The one block of these sectors, for an access that there is room to note.
    fn block_of(&self, sectors: Extent) -> Result<OBlock, Refusal>
        ensures block { IfOk result (λ block. block ≡ block_at self.now.geometry sectors.first) }
        ensures there { IfOk result (λ block. block.0 < self.now.geometry.origin_blocks) }
        ensures inside { OnOk result (sectors.first % self.now.geometry.block + sectors.count ≤ self.now.geometry.block) }
        ensures range { OnOk result (sectors.first + sectors.count < 2 ^ 64) }
        ensures few { OnOk result (length self.now.accesses.items < MostUnsettled) }
        ensures refused { IfErr result (λ refusal. IsTryRefused self.now.geometry (length self.now.accesses.items) sectors.first sectors.count refusal) }
    {
        let Extent { first, count } = sectors;
        if !sectors.is_some_within(self.geometry.origin_sectors()) {
            return Err(Refusal::Range);
        }
        let size = u64::from(self.geometry.block);
        // Both by one division.
        let (block, inside) = (first / size, first % size);
        let in_block = Extent {
            first: inside,
            count,
        };
        if !in_block.is_within(size) {
            return Err(Refusal::Crosses);
        }
        if self.accesses.len() >= UNSETTLED {
            return Err(Refusal::Defer);
        }
        Ok(OBlock(block as u32))
    }
}
