//! Tasks of a client, driven to their answers: migrations under their orders, and flushes.

ghost use Rattle.std.specs.Prelude.{◌≡◌};
ghost use Rattle.wb_words.specs.declared.card.Hold.TheVariants.{Nothing};
ghost use Rattle.wb_tasks.specs.Tables.{TaskJob};
ghost use Rattle.wb_tasks.specs.Plan.{table};
ghost use Rattle.wb_stage.specs.Jobs.{MayRun};
ghost use Rattle.wb_target.specs.Works.{AskedSharing, PerformedWith, MayMigrate};

use crate::gate::Gate;
use crate::target::Target;
use crate::working::WorkStage;
use std::sync::Wait;
use wb_cells::Cells;
use wb_devices::RunningCommit;
use wb_disk::Disk;
use wb_policy::{Order, Policy};
use wb_port::Hand;
use wb_stage::Share;
use wb_tasks::{Answer, Task, drive};
use wb_types::Content;

impl<'a, R: Wait, D: Disk, P: Policy, G: Gate> WorkStage<'a, R, D, P, G> {
    /// Performs a task that has not begun, up to its answer: a run of its table.
    fn run<T: Task>(&mut self, task: &mut T) -> Answer
        requires begun { (job : TaskJob) × (T.plan task.old ≡ table job) × MayRun self.old.cells.now.blocks job × MayMigrate self.old.hand.now.block_sectors self.old.held.now job }
        requires at { self.old.hand.now.pass.table ≡ self.old.cells.now.table }
        requires idle { self.old.hand.now.pass.card.hold ≡ Nothing }
        requires unshared { self.old.share.now ≡ Share.Nothing }
        ensures performed { PerformedWith D.tells D.size D.contents D.faults (AskedSharing P.with_entry P.without_entry self.old.held.now) self.old.cells.now.blocks (T.plan task.old) (record { hand = self.old.hand.now; buffer = self.old.buffer.now; commit = self.old.commit.now }) result (record { hand = self.new.hand.now; buffer = self.new.buffer.now; commit = self.new.commit.now }) self.new.share.now }
        ensures same_hand { self.new.hand.ghost_name ≡ self.old.hand.ghost_name }
        ensures same_buffer { self.new.buffer.ghost_name ≡ self.old.buffer.ghost_name }
        ensures same_commit { self.new.commit.ghost_name ≡ self.old.commit.ghost_name }
        ensures same_share { self.new.share.ghost_name ≡ self.old.share.ghost_name }
        ensures at { self.new.hand.now.pass.table ≡ self.old.hand.now.pass.table }
        ensures idle { self.new.hand.now.pass.card.hold ≡ Nothing }
        ensures block { self.new.hand.now.block_sectors ≡ self.old.hand.now.block_sectors }
    {
        drive(task, self)
    }
}

/// Performs a task on a client's hand, under the orders that it has taken.
pub(crate) fn perform_task<'a, R: Wait, D: Disk, P: Policy, G: Gate, T: Task>(
    rt: &'a R,
    target: &'a Target<P>,
    gate: &'a G,
    cells: &'a Cells,
    hand: &'a mut Hand<D>,
    buffer: &'a mut [Content],
    held: &'a [Order],
    commit: &'a mut Option<RunningCommit>,
    share: &'a mut Share,
    task: &mut T,
) -> Answer
    requires begun { (job : TaskJob) × (T.plan task.old ≡ table job) × MayRun cells.now.blocks job × MayMigrate hand.old.block_sectors held.now job }
    requires at { hand.old.pass.table ≡ cells.now.table }
    requires idle { hand.old.pass.card.hold ≡ Nothing }
    requires unshared { share.old ≡ Share.Nothing }
    ensures performed { PerformedWith D.tells D.size D.contents D.faults (AskedSharing P.with_entry P.without_entry held.now) cells.now.blocks (T.plan task.old) (record { hand = hand.old; buffer = buffer.old; commit = commit.old }) result (record { hand = hand.new; buffer = buffer.new; commit = commit.new }) share.new }
    ensures at { hand.new.pass.table ≡ hand.old.pass.table }
    ensures idle { hand.new.pass.card.hold ≡ Nothing }
    ensures block { hand.new.block_sectors ≡ hand.old.block_sectors }
{
    let mut stage = WorkStage {
        rt,
        target,
        cells,
        hand,
        buffer,
        held,
        commit,
        share,
        gate,
    };
    stage.run(task)
}
