//! What a target can be told while it runs.

ghost use Rattle.std.specs.Prelude.{◌≡◌, ◌<◌};

use crate::CBlock;
use std::marker::Model;

/// A setting with a number.
#[derive(Clone, Copy)]
pub enum Key {
    /// The greatest sum of sectors that live orders may have.
    MigrationThreshold,
    /// The least estimate at which a block is promoted.
    PromoteMin,
}

/// Cache blocks from one up to, and without, another.
#[derive(Clone, Copy, PartialEq, Eq)]
pub struct CBlockRange {
    pub begin: CBlock,
    pub end: CBlock,
}

/// Ranges of cache blocks, in the order in which they were named.
#[derive(Drop)]
pub struct CBlockRanges {
    ranges: Vec<CBlockRange>,
}

impl Model for CBlockRanges {
    ghost use Rattle.std.specs.Prelude.{List};
    ghost use Rattle.wb_types.specs.declared.message.CBlockRange.{CBlockRange as Range};

    ghost Value = { List Range };

    ghost view = { λ r. r.ranges.items };
}

impl CBlockRanges {
    pub fn new(ranges: Vec<CBlockRange>) -> CBlockRanges
        ensures { result ≡ ranges.items }
    {
        CBlockRanges { ranges }
    }

    pub fn as_slice(&self) -> &[CBlockRange]
        ensures { result.now ≡ self.now }
    {
        self.ranges.as_slice()
    }

    pub fn into_vec(self) -> Vec<CBlockRange>
        ensures { result.items ≡ self }
    {
        let CBlockRanges { ranges } = self;
        ranges
    }
}

/// A message to a target (the kernel's `cache.rst`, "Messages").
#[derive(Drop)]
pub enum Message {
    /// Gives a setting a value.
    Set(Key, u64),
    /// Removes the entries of these cache blocks.
    InvalidateCblocks(CBlockRanges),
}
