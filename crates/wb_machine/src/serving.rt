//! Starts and steps, over a target that stands and where none does.

ghost use Rattle.std.specs.Prelude.{◌≡◌, [], IfOk, IfErr, OnErr, true};
ghost use Rattle.wb_types.specs.declared.refusal.Refusal.TheVariants.{Memory};
ghost use Rattle.wb_promise.specs.declared.event.Event.TheVariants.{Start, Step, FaultStep};
ghost use Rattle.wb_machine.specs.declared.machine.TheConstants.{ACTORS};
ghost use Rattle.wb_machine.specs.declared.phase.Phase.TheVariants.{Standing};
ghost use Rattle.wb_machine.specs.Life.{Happens, contents_of, shape_of, starts_beside, state_of, suits_mode, wants_target};
ghost use Rattle.wb_machine.specs.Serving.{IsPhaseServed};
ghost use Rattle.wb_machine.specs.Standing.{IsSoundPhase};

use crate::member::Member;
use crate::outcome::Outcome;
use crate::phase::Phase;
use crate::starting::open;
use crate::stepping::{fail_opening, step_opening};
use crate::suspending::{is_somebody_suspending, suspend};
use crate::target::Target;
use std::alloc::Global;
use wb_devices::Devices;
use wb_disk::{CrashChoice, MemDisk};
use wb_promise::{Job, What};
use wb_types::{Geometry, Mode, Refusal};

/// An actor gets a job, if it has none and the job may be started; where no target stands, one that wants a target is skipped. `Memory`
/// where there is no room for an order; then nothing has changed.
pub(crate) fn start(
    geometry: &Geometry,
    alloc: Global,
    devices: &Devices<MemDisk>,
    phase: &mut Phase,
    actor: usize,
    job: &Job,
) -> Result<What, Refusal>
    requires sound { IsSoundPhase geometry.now ACTORS devices.now phase.old }
    ensures sound { IsSoundPhase geometry.now ACTORS devices.now phase.new }
    ensures ok { IfOk result (λ what. Happens (shape_of geometry.now ACTORS) (state_of ACTORS devices.now phase.old) (Start actor job.now) what [] (state_of ACTORS devices.now phase.new)) }
    ensures err { OnErr result (state_of ACTORS devices.now phase.new ≡ state_of ACTORS devices.now phase.old) }
    ensures refusal { IfErr result (λ refusal. refusal ≡ Memory) }
{
    if !wants_target(job) {
        return Ok(open(geometry, alloc, devices, phase, actor, job));
    }
    let Phase::Standing(target, members) = phase else {
        return Ok(What::Skipped);
    };
    start_over(geometry, alloc, devices, target, members, actor, job)
}

/// The same over a target that stands: while somebody suspends it nothing starts, and an invalidation starts in passthrough alone.
fn start_over(
    geometry: &Geometry,
    alloc: Global,
    devices: &Devices<MemDisk>,
    target: &mut Target,
    members: &mut Vec<Member>,
    actor: usize,
    job: &Job,
) -> Result<What, Refusal>
    requires sound { IsSoundPhase geometry.now ACTORS devices.now (Standing target.old members.old) }
    requires over { wants_target job.now ≡ true }
    ensures sound { IsSoundPhase geometry.now ACTORS devices.now (Standing target.new members.new) }
    ensures ok { IfOk result (λ what. Happens (shape_of geometry.now ACTORS) (state_of ACTORS devices.now (Standing target.old members.old)) (Start actor job.now) what [] (state_of ACTORS devices.now (Standing target.new members.new))) }
    ensures err { OnErr result ((target.new ≡ target.old) × (members.new.items ≡ members.old.items)) }
    ensures refusal { IfErr result (λ refusal. refusal ≡ Memory) }
{
    let _ = devices;
    if actor >= members.len() {
        return Ok(What::Skipped);
    }
    if is_somebody_suspending(members.as_slice()) {
        return Ok(What::Skipped);
    }
    if !suits_mode(job, target.desk.mode()) {
        return Ok(What::Skipped);
    }
    if !starts_beside(job) {
        return suspend(geometry, alloc, &target.desk, members, actor);
    }
    let member = &mut members[actor];
    let what = member.start(alloc, geometry, &mut target.desk, job)?;
    Ok(what)
}

/// Whether the job starts whatever the others are at: of those over a target a suspend alone does not.
fn starts_beside(job: &Job) -> bool
    ensures { result ≡ starts_beside job.now }
{
    !matches!(job, Job::Suspend | Job::Open(_, _))
}

/// Whether a target of this mode has such a job: an invalidation is of passthrough alone.
fn suits_mode(job: &Job, mode: Mode) -> bool
    ensures { result ≡ suits_mode job.now mode }
{
    match job {
        Job::Invalidate(_) => matches!(mode, Mode::Passthrough),
        _ => true,
    }
}

/// Whether the job is one of a target that stands.
fn wants_target(job: &Job) -> bool
    ensures { result ≡ wants_target job.now }
{
    !matches!(job, Job::Open(_, _))
}

/// The next step of an actor's task, if it has one.
pub(crate) fn step(
    geometry: &Geometry,
    alloc: Global,
    devices: &mut Devices<MemDisk>,
    phase: &mut Phase,
    actor: usize,
) -> Result<Outcome, Refusal>
    requires sound { IsSoundPhase geometry.now ACTORS devices.old phase.old }
    requires served { IsPhaseServed geometry.now devices.old phase.old }
    ensures sound { IsSoundPhase geometry.now ACTORS devices.new phase.new }
    ensures ok { IfOk result (λ done. Happens (shape_of geometry.now ACTORS) (state_of ACTORS devices.old phase.old) (Step actor) done.what done.read.items (state_of ACTORS devices.new phase.new)) }
    ensures err { OnErr result (state_of ACTORS devices.new phase.new ≡ state_of ACTORS devices.old phase.old) }
    ensures refusal { IfErr result (λ refusal. refusal ≡ Memory) }
{
    if let Phase::Standing(target, members) = phase {
        return step_over(geometry, alloc, devices, target, members, actor);
    }
    let what = step_opening(geometry, devices, phase, actor)?;
    Ok(Outcome::told(alloc, what))
}

/// The same over a target that stands.
fn step_over(
    geometry: &Geometry,
    alloc: Global,
    devices: &mut Devices<MemDisk>,
    target: &mut Target,
    members: &mut Vec<Member>,
    actor: usize,
) -> Result<Outcome, Refusal>
    requires sound { IsSoundPhase geometry.now ACTORS devices.old (Standing target.old members.old) }
    requires served { IsPhaseServed geometry.now devices.old (Standing target.old members.old) }
    ensures sound { IsSoundPhase geometry.now ACTORS devices.new (Standing target.new members.new) }
    ensures ok { IfOk result (λ done. Happens (shape_of geometry.now ACTORS) (state_of ACTORS devices.old (Standing target.old members.old)) (Step actor) done.what done.read.items (state_of ACTORS devices.new (Standing target.new members.new))) }
    ensures err { OnErr result ((contents_of devices.new ≡ contents_of devices.old) × (target.new ≡ target.old) × (members.new.items ≡ members.old.items)) }
    ensures refusal { IfErr result (λ refusal. refusal ≡ Memory) }
{
    if actor >= members.len() {
        return Ok(Outcome::skipped(alloc));
    }
    let member = &mut members[actor];
    let done = member.step(actor, alloc, target, devices)?;
    Ok(done)
}

/// The next step of an actor's task, which is on a device, fails as the choice says.
pub(crate) fn falter(
    geometry: &Geometry,
    alloc: Global,
    devices: &mut Devices<MemDisk>,
    phase: &mut Phase,
    actor: usize,
    choice: &CrashChoice,
) -> Result<What, Refusal>
    requires sound { IsSoundPhase geometry.now ACTORS devices.old phase.old }
    requires served { IsPhaseServed geometry.now devices.old phase.old }
    ensures sound { IsSoundPhase geometry.now ACTORS devices.new phase.new }
    ensures ok { IfOk result (λ what. Happens (shape_of geometry.now ACTORS) (state_of ACTORS devices.old phase.old) (FaultStep actor choice.now) what [] (state_of ACTORS devices.new phase.new)) }
    ensures err { OnErr result (state_of ACTORS devices.new phase.new ≡ state_of ACTORS devices.old phase.old) }
    ensures refusal { IfErr result (λ refusal. refusal ≡ Memory) }
{
    if let Phase::Standing(target, members) = phase {
        return fail_over(geometry, alloc, devices, target, members, actor, choice);
    }
    fail_opening(geometry, alloc, devices, phase, actor, choice)
}

/// The same over a target that stands.
fn fail_over(
    geometry: &Geometry,
    alloc: Global,
    devices: &mut Devices<MemDisk>,
    target: &mut Target,
    members: &mut Vec<Member>,
    actor: usize,
    choice: &CrashChoice,
) -> Result<What, Refusal>
    requires sound { IsSoundPhase geometry.now ACTORS devices.old (Standing target.old members.old) }
    requires served { IsPhaseServed geometry.now devices.old (Standing target.old members.old) }
    ensures sound { IsSoundPhase geometry.now ACTORS devices.new (Standing target.new members.new) }
    ensures ok { IfOk result (λ what. Happens (shape_of geometry.now ACTORS) (state_of ACTORS devices.old (Standing target.old members.old)) (FaultStep actor choice.now) what [] (state_of ACTORS devices.new (Standing target.new members.new))) }
    ensures err { OnErr result ((contents_of devices.new ≡ contents_of devices.old) × (target.new ≡ target.old) × (members.new.items ≡ members.old.items)) }
    ensures refusal { IfErr result (λ refusal. refusal ≡ Memory) }
{
    if actor >= members.len() {
        return Ok(What::Skipped);
    }
    let member = &mut members[actor];
    let what = member.falter(alloc, devices, &mut target.commit, choice)?;
    Ok(what)
}
