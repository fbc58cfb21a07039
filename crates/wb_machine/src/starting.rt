//! Starts of openings.

ghost use Rattle.std.specs.Prelude.{◌≡◌, ◌<◌, [], false, length};
ghost use Rattle.wb_promise.specs.declared.event.Event.TheVariants.{Start};
ghost use Rattle.wb_machine.specs.declared.machine.TheConstants.{ACTORS};
ghost use Rattle.wb_machine.specs.Life.{Happens, IsThere, asked_by, has_task, is_sound, shape_of, state_of, wants_target};
ghost use Rattle.wb_machine.specs.Members.{works_there};
ghost use Rattle.wb_machine.specs.Standing.{IsSoundPhase};

use crate::asked::Asked;
use crate::limits::geometry_asked;
use crate::machine::ACTORS;
use crate::member::Member;
use crate::opener::Opener;
use crate::phase::{Phase, put};
use crate::suspending::is_suspending;
use std::alloc::Global;
use wb_devices::{Devices, Opening};
use wb_disk::MemDisk;
use wb_flow::OpenTask;
use wb_promise::{Job, What};
use wb_types::{Geometry, Refusal};

/// An actor gets an opening, if it has no task, and what another actor was opening is given up; over a target that stands it
/// starts once that has failed and while nobody suspends it, and ends it and what everybody was at. It is refused where the metadata have
/// no room for the version that it asks for.
pub(crate) fn open(
    geometry: &Geometry,
    alloc: Global,
    devices: &Devices<MemDisk>,
    phase: &mut Phase,
    actor: usize,
    job: &Job,
) -> What
    requires sound { IsSoundPhase geometry.now ACTORS devices.now phase.old }
    requires opening { wants_target job.now ≡ false }
    ensures sound { IsSoundPhase geometry.now ACTORS devices.now phase.new }
    ensures does { Happens (shape_of geometry.now ACTORS) (state_of ACTORS devices.now phase.old) (Start actor job.now) result [] (state_of ACTORS devices.now phase.new) }
{
    if actor >= ACTORS || is_busy(phase, actor) {
        return What::Skipped;
    }
    if is_suspending(phase) {
        return What::Skipped;
    }
    let Some(asked) = asked_by(actor, job) else {
        return What::Skipped;
    };
    if is_sound(phase) {
        return What::Skipped;
    }
    let Some(wanted) = geometry_asked(geometry, asked.second) else {
        return What::Refused(Refusal::Geometry);
    };
    let opener = Opener {
        asked,
        task: OpenTask::reading(geometry.meta_sectors),
        opening: Opening {
            geometry: wanted,
            alloc,
            reading: None,
            commit: None,
        },
        made: None,
    };
    put(phase, Phase::Underway(opener));
    What::Started
}

/// What this actor asks for, if the job is an opening.
fn asked_by(actor: usize, job: &Job) -> Option<Asked>
    ensures { result ≡ asked_by actor job.now }
{
    match job {
        Job::Open(mode, second) => Some(Asked {
            actor,
            mode: *mode,
            second: *second,
        }),
        _ => None,
    }
}

/// Whether this actor has a task.
fn is_busy(phase: &Phase, actor: usize) -> bool
    requires there { IsThere ACTORS phase.now }
    requires inside { actor < ACTORS }
    ensures { result ≡ has_task actor phase.now }
{
    match phase {
        Phase::Closed => false,
        Phase::Underway(opener) => opener.asked.actor == actor,
        Phase::Standing(_, members) => works(members, actor),
    }
}

/// Whether this member is at something.
fn works(members: &Vec<Member>, actor: usize) -> bool
    requires { actor < length members.now.items }
    ensures { result ≡ works_there members.now.items actor }
{
    members[actor].is_busy()
}

/// Whether one stands that has not failed.
fn is_sound(phase: &Phase) -> bool
    ensures { result ≡ is_sound phase.now }
{
    match phase {
        Phase::Standing(target, _) => !target.failed,
        Phase::Closed | Phase::Underway(_) => false,
    }
}
