//! What the desk lends a policy when it asks.

ghost use Rattle.std.specs.Prelude.{◌≡◌};
ghost use Rattle.std.specs.List.Sorted.{IsNonDecreasingBy};
ghost use Rattle.wb_policy.specs.Situations.{is_busy as has_live_order};
ghost use Rattle.wb_policy.specs.Recency.{is_dirty as is_seen_dirty};

use wb_types::{CBlock, Mode, OBlock};

/// An access that is settled, and what the desk knows then. All of it is lent; nothing is copied for it.
#[derive(Clone, Copy)]
pub struct Settled<'a> {
    /// The block of which a part was accessed.
    pub block: OBlock,
    pub mode: Mode,
    /// The least free cache block.
    pub least_free: Option<CBlock>,
    /// How many sectors further orders may have.
    pub room: u64,
    /// Whether each origin block has a live order; a block past the end has none.
    pub busy: &'a [bool],
}

/// A tick, and what the desk knows then.
#[derive(Clone, Copy)]
pub struct Tick<'a> {
    pub mode: Mode,
    /// How many sectors further orders may have.
    pub room: u64,
    /// Whether each origin block has a live order; a block past the end has none.
    pub busy: &'a [bool],
    /// The mapped blocks that were seen dirty, by cache block.
    pub dirty: &'a [(CBlock, OBlock)],
    pub ghost rising: { IsNonDecreasingBy (λ e. e.0.0) dirty.now },
}

/// Whether an origin block has a live order.
pub(crate) fn is_busy(busy: &[bool], block: OBlock) -> bool
    ensures { result ≡ has_live_order busy.now block.0 }
{
    let OBlock(at) = block;
    match busy.get(at as usize) {
        Some(has) => *has,
        None => false,
    }
}

/// Whether a cache block was seen dirty. `log2` steps.
pub(crate) fn is_dirty(tick: &Tick<'_>, c: CBlock) -> bool
    ensures { result ≡ is_seen_dirty tick.now.dirty.now c.0 }
{
    let CBlock(wanted) = c;
    let at = tick.dirty.partition_point(|(at, _)| at.0 < wanted);
    if at >= tick.dirty.len() {
        return false;
    }
    let (found, _) = tick.dirty[at];
    found.0 == wanted
}
