//! The state of one cache block.

ghost use Rattle.std.specs.Prelude.{◌≡◌};
ghost use Rattle.wb_space.specs.Blocks.{shown_holding, released, commit_begun, commit_ended, is_free, is_late, is_early, IsClaimed};
ghost use Rattle.std.specs.Bool.{OnTrue, OnFalse};

use crate::Holding;

/// The state of one cache block.
#[derive(Clone, Copy)]
pub enum Block {
    /// An order may take it.
    Free,
    /// It has an entry in the mapping.
    Mapped,
    /// A live order is to fill it.
    Reserved,
    /// Its entry was removed. `claimed` where a live replacement is to fill it, `early` where the removal came
    /// before the running commit began.
    Quarantined { claimed: bool, early: bool },
}

impl Block {
    /// What it is held for.
    pub fn shown(self) -> Holding
        ensures { result ≡ shown_holding self }
    {
        match self {
            Block::Free => Holding::Free,
            Block::Mapped => Holding::Mapped,
            Block::Reserved => Holding::Reserved,
            Block::Quarantined {
                claimed: _,
                early: _,
            } => Holding::Quarantined,
        }
    }

    /// Its order is over.
    pub fn released(self) -> Block
        ensures { result ≡ released self }
    {
        match self {
            Block::Reserved => Block::Free,
            Block::Quarantined { claimed: _, early } => Block::Quarantined {
                claimed: false,
                early,
            },
            Block::Free => Block::Free,
            Block::Mapped => Block::Mapped,
        }
    }

    /// A commit begins.
    pub fn commit_begun(self) -> Block
        ensures { result ≡ commit_begun self }
    {
        match self {
            Block::Quarantined { claimed, early: _ } => Block::Quarantined {
                claimed,
                early: true,
            },
            other => other,
        }
    }

    /// The running commit ends.
    pub fn commit_ended(self) -> Block
        ensures { result ≡ commit_ended self }
    {
        match self {
            Block::Quarantined {
                claimed: true,
                early: true,
            } => Block::Reserved,
            Block::Quarantined {
                claimed: false,
                early: true,
            } => Block::Free,
            other => other,
        }
    }

    /// An order keeps it: it is reserved, or will be at the end of its quarantine.
    pub fn is_kept(self) -> bool
        ensures claimed { OnTrue result (IsClaimed self) }
        ensures other { OnFalse result (¬ IsClaimed self) }
    {
        match self {
            Block::Reserved => true,
            Block::Quarantined { claimed, early: _ } => claimed,
            Block::Free | Block::Mapped => false,
        }
    }

    pub fn is_free(self) -> bool
        ensures { result ≡ is_free self }
    {
        matches!(self, Block::Free)
    }

    /// Quarantined, since the running commit began.
    pub fn is_late(self) -> bool
        ensures { result ≡ is_late self }
    {
        match self {
            Block::Quarantined { claimed: _, early } => !early,
            Block::Free | Block::Mapped | Block::Reserved => false,
        }
    }

    /// Quarantined, since before the running commit began.
    pub fn is_early(self) -> bool
        ensures { result ≡ is_early self }
    {
        match self {
            Block::Quarantined { claimed: _, early } => early,
            Block::Free | Block::Mapped | Block::Reserved => false,
        }
    }
}
