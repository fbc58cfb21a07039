//! The shared words of a cache, by name, and what a lock word and a seal tell.

ghost use Rattle.std.specs.Prelude.{◌≡◌};
ghost use Rattle.wb_words.specs.SharedWords.{can_take as may_take, place_in as place_of_seal, dirty_in, seal_word as seal_of};

use wb_types::{CBlock, OBlock};

/// What a part of a request counts as when its device steps have ended.
#[derive(Clone, Copy, PartialEq, Eq)]
pub enum Kind {
    ReadHit,
    ReadMiss,
    WriteHit,
    WriteMiss,
}

/// How a block is held: many may share it, one alone may own it.
#[derive(Clone, Copy, PartialEq, Eq)]
pub enum Access {
    Shared,
    Owned,
}

/// A bit of the fail word.
#[derive(Clone, Copy)]
pub enum FailBit {
    /// Bit 0: a device has failed.
    Failed,
    /// Bit 1: the cache is suspended.
    Suspended,
}

/// A shared word: three for each origin block, four statistics, and one that tells of failure.
#[derive(Clone, Copy, PartialEq, Eq)]
pub enum Word {
    /// The lock word of a block: twice the number of its sharers, and one where it is owned.
    Cell(OBlock),
    /// Where the block's newest copy stands: twice the place (0 the origin, `c + 1` cache block c), and
    /// one where it is dirty.
    Seal(OBlock),
    /// How many writes have finished on the block since the opening.
    Number(OBlock),
    /// How many parts of requests counted as this kind since the opening, modulo 2^64.
    Count(Kind),
    /// Bit 0 failed, bit 1 suspended.
    Fail,
}

/// Whether a block with this lock word can be taken: shared where nobody owns it and it has fewer than `2^20 - 1`
/// sharers, owned where nobody has it.
pub fn can_take(access: Access, word: u64) -> bool
    ensures { result ≡ may_take access word }
{
    match access {
        Access::Shared => word % 2 == 0 && word < (1 << 21) - 2,
        Access::Owned => word == 0,
    }
}

/// The seal of a block that stands at this place, none being the origin alone.
pub fn seal_word(place: Option<CBlock>, dirty: bool) -> u64
    ensures { result ≡ seal_of place dirty }
{
    let place = match place {
        None => 0,
        Some(CBlock(c)) => u64::from(c) + 1,
    };
    2 * place + u64::from(dirty)
}

/// The place in a seal; none where it names the origin, or no cache block that there can be.
pub fn place_in(seal: u64) -> Option<CBlock>
    ensures { result ≡ place_of_seal seal }
{
    let place = seal / 2;
    if place == 0 || place > 1 << 32 {
        return None;
    }
    Some(CBlock((place - 1) as u32))
}

/// Whether a seal says that the copy on the cache is dirty.
pub fn is_dirty(seal: u64) -> bool
    ensures { result ≡ dirty_in seal }
{
    seal % 2 == 1
}
