//! What the policies decide is given.

ghost use Rattle.wb_desk.specs.Decisions.{DecisionsAreGiven, TicksEndWithoutOrder, CleanerEndsWithoutOrder};

/// For a policy that was made for the desk's geometry, while an order more can be counted: what `TinyLfu` decides at an access
/// of a block of the origin is given, and a tick of `TinyLfu` or `Cleaner` ends only where it has no order more. `Quiet` decides
/// on none.
pub fn decisions_law()
    ensures accesses { DecisionsAreGiven }
    ensures ticks { TicksEndWithoutOrder }
    ensures cleaner { CleanerEndsWithoutOrder }
{}
