//! How neighbouring sectors are cut.

ghost use Rattle.std.specs.Prelude.{◌≡◌, ◌≤◌, ℕ, List, length};
ghost use Rattle.wb_types.specs.declared.extent.Extent.{Extent as Sectors};
ghost use Rattle.wb_types.specs.Extents.{IsCutInto, pieces, sectors_in, sectors_of};

/// However sectors are cut into extents, there are no more extents than sectors; and they can be cut into pieces of
/// any length, rising, which are then taken in the order of their numbers.
pub fn cutting_law()
    ensures few { (whole : Sectors) (extents : List Sectors) → IsCutInto whole extents → length extents ≤ whole.count }
    ensures pieces { (piece : ℕ) (whole : Sectors) → 1 ≤ piece → IsCutInto whole (pieces piece whole) }
    ensures rising { (piece : ℕ) (whole : Sectors) → 1 ≤ piece → sectors_of (pieces piece whole) ≡ sectors_in whole }
{}
