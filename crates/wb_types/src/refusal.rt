//! Why a call is refused.

ghost use Rattle.std.specs.Prelude.{◌≡◌, ◌≢◌};
ghost use Rattle.std.specs.Bool.{OnTrue, OnFalse};
ghost use Rattle.wb_types.specs.Refusals.{number_of};
ghost use Rattle.wb_types.specs.declared.refusal.Refusal.TheVariants.{Busy};

use crate::{Dev, Place};
use std::alloc::AllocError;
use thiserror::Error;

/// Why a call is refused: seventeen reasons, each with a number. Shown, it is its number, its name, and
/// the device or place that it speaks of, as in `5 Io cache` and `11 Damaged 3`.
#[derive(Clone, Copy, Debug, PartialEq, Eq, Error)]
pub enum Refusal {
    /// No sector, or one outside the origin.
    #[error("1 Range")]
    Range,
    /// A `try_` call over more than one block.
    #[error("2 Crosses")]
    Crosses,
    /// The word or the desk was held by another.
    #[error("3 Busy")]
    Busy,
    /// The desk is needed first.
    #[error("4 Defer")]
    Defer,
    /// A step of that device failed in this call.
    #[error("5 Io {0}")]
    Io(Dev),
    /// The target is failed or suspended.
    #[error("6 Failed")]
    Failed,
    /// A growth was really refused in this call.
    #[error("7 Memory")]
    Memory,
    /// The block's write number is 2^64 - 1.
    #[error("8 Worn")]
    Worn,
    /// Sizes outside the limits.
    #[error("9 Geometry")]
    Geometry,
    /// No valid root in its slot.
    #[error("10 NotFormatted")]
    NotFormatted,
    /// A tree that spells no mapping.
    #[error("11 Damaged {0}")]
    Damaged(Place),
    /// Root and devices differ.
    #[error("12 Mismatch")]
    Mismatch,
    /// Passthrough over unclean or dirty metadata.
    #[error("13 NotClean")]
    NotClean,
    /// A message outside its grammar or ranges.
    #[error("14 BadMessage")]
    BadMessage,
    /// `invalidate_cblocks` outside passthrough.
    #[error("15 WrongMode")]
    WrongMode,
    /// A constructor line outside its grammar.
    #[error("16 BadTable")]
    BadTable,
    /// The newest generation is 2^64 - 1.
    #[error("17 GenerationEnd")]
    GenerationEnd,
}

impl Refusal {
    /// The number that a user reads, 1 to 17.
    pub fn number(&self) -> u8
        ensures { result ≡ number_of self.now }
    {
        match self {
            Refusal::Range => 1,
            Refusal::Crosses => 2,
            Refusal::Busy => 3,
            Refusal::Defer => 4,
            Refusal::Io(_) => 5,
            Refusal::Failed => 6,
            Refusal::Memory => 7,
            Refusal::Worn => 8,
            Refusal::Geometry => 9,
            Refusal::NotFormatted => 10,
            Refusal::Damaged(_) => 11,
            Refusal::Mismatch => 12,
            Refusal::NotClean => 13,
            Refusal::BadMessage => 14,
            Refusal::WrongMode => 15,
            Refusal::BadTable => 16,
            Refusal::GenerationEnd => 17,
        }
    }

    /// Whether another held what the call asks for, so that the same call may be answered later.
    pub fn is_busy(&self) -> bool
        ensures busy { OnTrue result (self.now ≡ Busy) }
        ensures other { OnFalse result (self.now ≢ Busy) }
    {
        matches!(self, Refusal::Busy)
    }
}

/// A refused allocation is want of memory.
impl From<AllocError> for Refusal {
    ghost use Rattle.std.specs.Prelude.{◌≡◌};
    ghost use Rattle.wb_types.specs.declared.refusal.Refusal.TheVariants.{Memory};

    ghost from_gives = { λ error gives. gives ≡ Memory };

    fn from(_error: AllocError) -> Refusal {
        Refusal::Memory
    }
}
