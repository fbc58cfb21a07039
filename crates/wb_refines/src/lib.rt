//! The tasks of the real steps as tasks of the abstract world (wb_link): definitions and laws, no code.
#![tactic(auto)]

ghost use Rattle.wb_refines.specs.Roles.{RequestCellsFollowed};
ghost use Rattle.wb_refines.specs.Laws.{TablesAgree, HasNoMore};
ghost use Rattle.wb_refines.specs.Migrations.{MigrationTablesAgree};
ghost use Rattle.wb_refines.specs.Carrying.{CarryingFollowed};
ghost use Rattle.wb_refines.specs.Carried.{MigrationCellsFollowed};
ghost use Rattle.wb_refines.specs.Data.{ExtentsFollowed};
ghost use Rattle.wb_refines.specs.Commits.{CommitStepsRefined};

/// A read, a write, a flush or a suspend begins in the abstract world as its table does here.
pub fn tables_agree()
    ensures { TablesAgree }
{}

/// Each step of a read, a write or a migration on the shared words, in any state of these that keeps their rule, is some steps of an
/// abstract actor, each of which may come where it does: where words, card and task agree with the abstract world before it,
/// they agree after it; and the abstract actor has no block that the card does not count. A demotion or a write-back is to find its block
/// where its order says.
pub fn cell_steps_are_followed()
    ensures requests { RequestCellsFollowed }
    ensures migrations { MigrationCellsFollowed }
    ensures has_no_more { HasNoMore }
{}

/// And so is each step of a task on an extent of a device, where that is a list of sectors, done or failing; of a write that fails
/// each sector has landed or not.
pub fn extents_are_followed()
    ensures { ExtentsFollowed }
{}

/// So is each step of a suspend, and of a flush, by one that serves nobody there, done, refused or failing; but not that an order is given up.
pub fn commit_steps_are_followed()
    ensures { CommitStepsRefined }
{}

/// The table of a migration goes on as the abstract one: from its start, from where it has seen its block where its order says, and where it gives everything back or has failed.
pub fn migration_tables_agree()
    ensures { MigrationTablesAgree }
{}

/// Each of its calls on the desk is followed, also without memory, and where it gives up its order.
pub fn migrations_are_followed()
    ensures { CarryingFollowed }
{}
