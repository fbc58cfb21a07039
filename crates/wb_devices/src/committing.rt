//! Steps of a table on the metadata device, as a running commit takes them.

ghost use Rattle.std.specs.Prelude.{◌≡◌};
ghost use Rattle.wb_types.specs.declared.mode.Dev.TheVariants.{Metadata};
ghost use Rattle.wb_tasks.specs.declared.step.DeviceStep.TheVariants.{Sync};
ghost use Rattle.wb_tasks.specs.declared.step.Got.TheVariants.{Fault};
ghost use Rattle.wb_devices.specs.Moving.{IsOutcome, DidSync, SyncFails};
ghost use Rattle.wb_devices.specs.Stepping.{Goes, DidPut, PutFails};

use crate::moving::sync;
use crate::running::RunningCommit;
use wb_disk::Disk;
use wb_tasks::{DeviceStep, Got};
use wb_types::Dev;

/// Writes the node or root of this step, where it comes next of the running commit. A fault, and nothing is written, where it
/// does not; else a fault where the device failed.
#[tactic(auto, using(crate::proofs::Going::stays, crate::proofs::Going::goes))]
pub fn put<D: Disk>(commit: &mut Option<RunningCommit>, disk: &mut D, step: DeviceStep) -> Got
    ensures kind { IsOutcome result }
    ensures size { D.size disk.new ≡ D.size disk.old }
    ensures goes { Goes (D.size disk.old) commit.old step result commit.new }
    ensures did { D.tells → DidPut (D.size disk.old) commit.old step result (D.contents disk.old) (D.faults disk.old) (D.contents disk.new) (D.faults disk.new) }
    ensures fails { D.fails disk.old → result ≡ Fault }
    ensures how { D.tells → PutFails (D.falters disk.old) (D.size disk.old) commit.old step result (D.contents disk.old) (D.contents disk.new) }
{
    let Some(running) = commit else {
        return Got::Fault;
    };
    if !running.goes_on(disk.sectors(), step) {
        return Got::Fault;
    }
    running.next(disk, step)
}

/// Syncs the metadata device, which may be the running commit's next step; a fault where the device failed.
#[tactic(auto, using(crate::proofs::Going::stays, crate::proofs::Going::goes))]
pub fn sync_metadata<D: Disk>(commit: &mut Option<RunningCommit>, disk: &mut D) -> Got
    ensures kind { IsOutcome result }
    ensures size { D.size disk.new ≡ D.size disk.old }
    ensures goes { Goes (D.size disk.old) commit.old (Sync Metadata) result commit.new }
    ensures did { D.tells → DidSync result (D.contents disk.old) (D.faults disk.old) (D.contents disk.new) (D.faults disk.new) }
    ensures fails { D.fails disk.old → result ≡ Fault }
    ensures how { D.tells → SyncFails (D.falters disk.old) result (D.contents disk.old) (D.contents disk.new) }
{
    let step = DeviceStep::Sync(Dev::Metadata);
    let Some(running) = commit else {
        return sync(disk);
    };
    if !running.goes_on(disk.sectors(), step) {
        return sync(disk);
    }
    running.next(disk, step)
}
