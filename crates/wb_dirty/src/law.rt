//! That what was planned is read back.

ghost use Rattle.wb_dirty.specs.ReadBack.{PlanIsReadBack, TakenPlacesMayBeRead};

/// A plan of dirty blocks that was stored is read back: those blocks are dirty, and no others, and just the places of its nodes
/// are reached. Its places may be reached where it took them from free places that may.
pub fn read_back_law()
    ensures read { PlanIsReadBack }
    ensures places { TakenPlacesMayBeRead }
{}
