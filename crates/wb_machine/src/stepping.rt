//! Steps of an opening, done and failed.

ghost use Rattle.std.specs.Prelude.{◌≡◌, [], false, IfOk, IfErr, OnErr};
ghost use Rattle.wb_types.specs.declared.refusal.Refusal.TheVariants.{Memory};
ghost use Rattle.wb_promise.specs.declared.event.Event.TheVariants.{Step, FaultStep};
ghost use Rattle.wb_machine.specs.declared.machine.TheConstants.{ACTORS};
ghost use Rattle.wb_machine.specs.Life.{Happens, answered, contents_of, device_step_of, shape_of, stands, stands_by, state_of};
ghost use Rattle.wb_machine.specs.Serving.{IsPhaseServed};
ghost use Rattle.wb_machine.specs.Standing.{IsSoundPhase};

use crate::making::Made;
use crate::opener::{Opener, fail_step};
use crate::phase::{Phase, let_go, put};
use std::alloc::Global;
use std::mem;
use wb_devices::Devices;
use wb_disk::{CrashChoice, MemDisk};
use wb_promise::What;
use wb_tasks::{Answer, DeviceStep, Got, Steps, Want};
use wb_types::{Geometry, Refusal};

/// The next step of an actor's opening, if it opens. No target stands.
pub(crate) fn step_opening(
    geometry: &Geometry,
    devices: &mut Devices<MemDisk>,
    phase: &mut Phase,
    actor: usize,
) -> Result<What, Refusal>
    requires sound { IsSoundPhase geometry.now ACTORS devices.old phase.old }
    requires served { IsPhaseServed geometry.now devices.old phase.old }
    requires no_target { stands phase.old ≡ false }
    ensures sound { IsSoundPhase geometry.now ACTORS devices.new phase.new }
    ensures ok { IfOk result (λ what. Happens (shape_of geometry.now ACTORS) (state_of ACTORS devices.old phase.old) (Step actor) what [] (state_of ACTORS devices.new phase.new)) }
    ensures err { OnErr result ((contents_of devices.new ≡ contents_of devices.old) × (phase.new ≡ phase.old)) }
    ensures refusal { IfErr result (λ refusal. refusal ≡ Memory) }
{
    let Phase::Underway(opener) = phase else {
        return Ok(What::Skipped);
    };
    if opener.asked.actor != actor {
        return Ok(What::Skipped);
    }
    let want = opener.task.want();
    if let Some(step) = device_step_of(&want) {
        let got = opener.perform(geometry, devices, step)?;
        return Ok(What::Stepped(want, got));
    }
    answer(phase);
    Ok(What::Stepped(want, Got::Done))
}

/// An opening is answered: done, and its target stands; or it is refused.
fn answer(phase: &mut Phase)
    ensures { phase.new ≡ answered phase.old }
{
    let was = mem::replace(phase, Phase::Closed);
    put(phase, answered(was));
}

/// What stands after the answer of what stood.
fn answered(phase: Phase) -> Phase
    ensures { result ≡ answered phase }
{
    match phase {
        Phase::Underway(Opener { task, made, .. }) => stands_by(task.want(), made),
        other => {
            let_go(other);
            Phase::Closed
        }
    }
}

/// What stands after this answer of an opening that has made this.
fn stands_by(want: Want, made: Option<Made>) -> Phase
    ensures { result ≡ stands_by want made }
{
    match (want, made) {
        (Want::End(Answer::Done), Some(made)) => Phase::Standing(made.target, made.members),
        _ => Phase::Closed,
    }
}

/// The next step of an actor's opening, which is on a device, fails as the choice says. No target stands.
pub(crate) fn fail_opening(
    geometry: &Geometry,
    alloc: Global,
    devices: &mut Devices<MemDisk>,
    phase: &mut Phase,
    actor: usize,
    choice: &CrashChoice,
) -> Result<What, Refusal>
    requires sound { IsSoundPhase geometry.now ACTORS devices.old phase.old }
    requires no_target { stands phase.old ≡ false }
    ensures sound { IsSoundPhase geometry.now ACTORS devices.new phase.new }
    ensures ok { IfOk result (λ what. Happens (shape_of geometry.now ACTORS) (state_of ACTORS devices.old phase.old) (FaultStep actor choice.now) what [] (state_of ACTORS devices.new phase.new)) }
    ensures err { OnErr result ((contents_of devices.new ≡ contents_of devices.old) × (phase.new ≡ phase.old)) }
    ensures refusal { IfErr result (λ refusal. refusal ≡ Memory) }
{
    let _two_slots = geometry.node_count();
    let Phase::Underway(opener) = phase else {
        return Ok(What::Skipped);
    };
    if opener.asked.actor != actor {
        return Ok(What::Skipped);
    }
    let want = opener.task.want();
    let Some(step) = device_step_of(&want) else {
        return Ok(What::Skipped);
    };
    let fails = fail_step(alloc, devices, &mut opener.opening.commit, step, choice)?;
    if !fails {
        return Ok(What::Skipped);
    }
    opener.fail(step);
    Ok(What::Stepped(want, Got::Fault))
}

/// The step, if it is one of an opening on a device.
fn device_step_of(want: &Want) -> Option<DeviceStep>
    ensures { result ≡ device_step_of want.now }
{
    match want {
        Want::Device(DeviceStep::Sync(device)) => Some(DeviceStep::Sync(*device)),
        Want::Device(DeviceStep::ReadMetadata(left)) => Some(DeviceStep::ReadMetadata(*left)),
        Want::Device(DeviceStep::WriteNode(number)) => Some(DeviceStep::WriteNode(*number)),
        Want::Device(DeviceStep::WriteRoot) => Some(DeviceStep::WriteRoot),
        _ => None,
    }
}
