//! Crashes of the three devices.

ghost use Rattle.std.specs.Prelude.{◌≡◌, []};
ghost use Rattle.wb_promise.specs.declared.event.Event.TheVariants.{Stop};
ghost use Rattle.wb_promise.specs.States.{Shape};
ghost use Rattle.wb_machine.specs.declared.machine.TheConstants.{ACTORS};
ghost use Rattle.wb_machine.specs.Life.{Happens, IsThere, state_of};
ghost use Rattle.wb_machine.specs.Standing.{IsSoundPhase};
ghost use Rattle.wb_types.specs.declared.geometry.Geometry.{Geometry};

use crate::phase::{Phase, put};
use wb_devices::Devices;
use wb_disk::{CrashChoice, MemDisk};
use wb_promise::What;
use wb_types::Dev;

/// Each sector of the three devices keeps its chosen content, and nothing stands over them. The event is skipped where the choice does not
/// apply to one of them.
pub(crate) fn stop(devices: &mut Devices<MemDisk>, phase: &mut Phase, choice: &CrashChoice) -> What
    requires { IsThere ACTORS phase.old }
    ensures sound { (geometry : Geometry) → IsSoundPhase geometry ACTORS devices.old phase.old → IsSoundPhase geometry ACTORS devices.new phase.new }
    ensures does { (shape : Shape) → Happens shape (state_of ACTORS devices.old phase.old) (Stop choice.now) result [] (state_of ACTORS devices.new phase.new) }
{
    if !devices.metadata.applies(Dev::Metadata, choice)
        || !devices.cache.applies(Dev::Cache, choice)
        || !devices.origin.applies(Dev::Origin, choice)
    {
        return What::Skipped;
    }
    let _ = devices.metadata.stop(Dev::Metadata, choice);
    let _ = devices.cache.stop(Dev::Cache, choice);
    let _ = devices.origin.stop(Dev::Origin, choice);
    put(phase, Phase::Closed);
    What::Stopped
}
