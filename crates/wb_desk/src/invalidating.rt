//! Which ranges of cache blocks may be invalidated.

ghost use Rattle.std.specs.Prelude.{◌≡◌, ◌≢◌, ◌⊎◌, OnOk, IfErr};
ghost use Rattle.std.specs.Bool.{OnTrue, OnFalse};
ghost use Rattle.wb_desk.specs.Messages.{AreRanges};

use wb_types::{CBlockRange, Mode, Refusal};

/// Whether these ranges may be invalidated, of a cache of so many blocks in this mode. `BadMessage` for a range that is empty or goes
/// past the last cache block; else `WrongMode` outside passthrough.
pub fn may_invalidate(ranges: &[CBlockRange], cache_blocks: u32, mode: Mode) -> Result<(), Refusal>
    ensures ok { OnOk result (AreRanges cache_blocks ranges.now × (mode ≡ Mode.Passthrough)) }
    ensures refused { IfErr result (λ e.
        ((e ≡ Refusal.BadMessage) × (AreRanges cache_blocks ranges.now → ⊥))
        ⊎ ((e ≡ Refusal.WrongMode) × AreRanges cache_blocks ranges.now × (mode ≢ Mode.Passthrough))) }
{
    if !are_ranges(ranges, cache_blocks) {
        return Err(Refusal::BadMessage);
    }
    match mode {
        Mode::Passthrough => Ok(()),
        _ => Err(Refusal::WrongMode),
    }
}

/// Whether each range has a cache block, and none past the last.
fn are_ranges(ranges: &[CBlockRange], cache_blocks: u32) -> bool
    ensures are { OnTrue result (AreRanges cache_blocks ranges.now) }
    ensures other { OnFalse result (¬ AreRanges cache_blocks ranges.now) }
{
    ranges
        .iter()
        .all(|r| r.begin.0 < r.end.0 && r.end.0 <= cache_blocks)
}
