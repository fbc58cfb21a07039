//! What happens to a small world by hand, and what it does. What a replay can play stands in scripts/cases/replays.txt.

ghost use Rattle.std.specs.Prelude.{◌≡◌, IfOk};
ghost use Rattle.wb_types.specs.declared.version.Version.TheVariants.{One};

mod faults;
mod invalidations;
mod line;
mod runs;

use self::faults::{OPENINGS, REQUESTS};
use self::invalidations::INVALIDATIONS;
use self::line::{
    Act, FIRST_SECTOR, LOOK_FAIL, LOOK_LOCK, LOOK_NUMBER, LOOK_SEAL, Line, OPENING, OWN, READING,
    Row, Task, WRITING,
};
use self::runs::ran;
use std::alloc::Global;
use std::test::Fail;
use wb_disk::{Base, CrashChoice, NamedContent};
use wb_promise::{Event, Job, What};
use wb_tasks::{Answer, Got, Migration, Want};
use wb_types::{Dev, Extent, Geometry, Mode, Refusal, SECTOR_BYTES};
use wb_world::World;

/// Ten blocks of 64 sectors, and a cache of four.
fn small() -> Result<Geometry, Refusal>
    ensures { IfOk result (λ geometry. geometry.version ≡ One) }
{
    Geometry::new(64, 4, 10, 4)
}

fn small_world(alloc: Global) -> Result<World, Refusal> {
    World::new(alloc, small()?)
}

/// A choice that names no sector.
fn unnamed(alloc: Global, base: Base) -> CrashChoice {
    CrashChoice::new(base, Vec::new(alloc))
}

/// One that names a sector of a device by this number.
fn named(
    alloc: Global,
    base: Base,
    device: Dev,
    sector: u64,
    position: u64,
) -> Result<CrashChoice, Refusal> {
    let mut names = Vec::new(alloc);
    names
        .push(NamedContent {
            device,
            sector,
            position,
        })
        .map_err(|_| Refusal::Memory)?;
    Ok(CrashChoice::new(base, names))
}

/// What is to happen, as an event.
fn event_of(alloc: Global, act: Act) -> Result<Event, Refusal> {
    match act {
        Act::Open(actor, mode) => Ok(Event::Start(actor, Job::Open(mode, false))),
        Act::Read(actor, sectors) => Ok(Event::Start(actor, Job::Read(sectors))),
        Act::Write(actor, sectors) => Ok(Event::Start(actor, write(sectors, 7))),
        Act::WriteOf(actor, sectors, byte) => Ok(Event::Start(actor, write(sectors, byte))),
        Act::Flush(actor) => Ok(Event::Start(actor, Job::Flush)),
        Act::Suspend(actor) => Ok(Event::Start(actor, Job::Suspend)),
        Act::Invalidate(actor, block) => Ok(Event::Start(actor, Job::Invalidate(block))),
        Act::Promote(actor, block, cache) => Ok(Event::Start(
            actor,
            Job::Migrate(Migration::Promote(cache), block),
        )),
        Act::Step(actor) => Ok(Event::Step(actor)),
        Act::Fault(actor, base) => Ok(Event::FaultStep(actor, unnamed(alloc, base))),
        Act::FaultOf(actor, device, sector, position) => Ok(Event::FaultStep(
            actor,
            named(alloc, Base::Newest, device, sector, position)?,
        )),
        Act::CrashOf(device, sector, position) => {
            let choice = named(alloc, Base::Newest, device, sector, position)?;
            Ok(Event::Stop(choice))
        }
        Act::CrashButOf(device, sector, position) => {
            let choice = named(alloc, Base::Durable, device, sector, position)?;
            Ok(Event::Stop(choice))
        }
    }
}

/// What the last event did.
fn last(world: &World) -> What {
    match world.trace().records().last() {
        Some(record) => record.what,
        None => What::Skipped,
    }
}

/// Whether the world can do this event, and does so.
fn does(world: &mut World, event: Event, what: What) -> bool {
    world.event(event).is_ok() && last(world) == what
}

/// Whether an actor's next step is this, with this result.
fn stepped(world: &mut World, actor: usize, want: Want, got: Got) -> bool {
    does(world, Event::Step(actor), What::Stepped(want, got))
}

/// Whether its next steps are these, with these results.
fn steps(world: &mut World, actor: usize, wants: &[(Want, Got)]) -> bool {
    for (want, got) in wants {
        if !stepped(world, actor, *want, *got) {
            return false;
        }
    }
    true
}

/// Whether its next steps look at words, and see these numbers.
fn sees(world: &mut World, actor: usize, words: &[(Want, u64)]) -> bool {
    words.iter().all(|(want, number)| stepped(world, actor, *want, Got::Word(*number)))
}

/// Whether its next steps are these, and each is done.
fn takes(world: &mut World, actor: usize, wants: &[Want]) -> bool {
    wants
        .iter()
        .all(|want| stepped(world, actor, *want, Got::Done))
}

/// Whether its next steps own the first block, which is free, and see this seal and this number of it.
fn owns(world: &mut World, actor: usize, seal: u64, number: u64) -> bool {
    sees(world, actor, &[(LOOK_FAIL, 0), (LOOK_LOCK, 0)])
        && takes(world, actor, &[OWN])
        && sees(world, actor, &[(LOOK_SEAL, seal), (LOOK_NUMBER, number)])
}

/// A write of this byte.
fn write(sectors: Extent, byte: u8) -> Job {
    Job::Write(sectors, [byte; SECTOR_BYTES])
}

fn job_of(task: Task) -> Job {
    match task {
        Task::Open => Job::Open(Mode::Writeback, false),
        Task::Read => Job::Read(FIRST_SECTOR),
        Task::Write => write(FIRST_SECTOR, 7),
    }
}

/// The steps of a task.
fn steps_of(task: Task) -> &'static [(Want, Got)] {
    match task {
        Task::Open => &OPENING,
        Task::Read => &READING,
        Task::Write => &WRITING,
    }
}

/// Whether an actor's next steps are the first ones of a task, so many.
fn steps_as(world: &mut World, actor: usize, task: Task, count: usize) -> bool {
    match steps_of(task).get(..count) {
        Some(wants) => steps(world, actor, wants),
        None => false,
    }
}

/// Whether an actor is given a task, and its next steps are the first ones of it, so many.
fn begins(world: &mut World, actor: usize, task: Task, count: usize) -> bool {
    let start = Event::Start(actor, job_of(task));
    does(world, start, What::Started) && steps_as(world, actor, task, count)
}

/// More steps than any task of a small world has.
const MOST_STEPS: usize = 200;

/// Whether a task starts, and its actor's steps lead to an answer that says done.
fn finishes(world: &mut World, event: Event) -> bool {
    let Event::Start(actor, _) = event else {
        return false;
    };
    if !does(world, event, What::Started) {
        return false;
    }
    for _ in 0..MOST_STEPS {
        if world.event(Event::Step(actor)).is_err() {
            return false;
        }
        if let What::Stepped(Want::End(answer), _) = last(world) {
            return answer == Answer::Done;
        }
    }
    false
}

/// Whether these do, one after the other.
fn all_finish(world: &mut World, alloc: Global, acts: &[Act]) -> Result<bool, Refusal> {
    for act in acts {
        let event = event_of(alloc, *act)?;
        if !finishes(world, event) {
            return Ok(false);
        }
    }
    Ok(true)
}

/// Whether a line goes as it says.
fn goes(world: &mut World, alloc: Global, line: &Line) -> Result<bool, Refusal> {
    match line {
        Line::Does(act, what) => {
            let event = event_of(alloc, *act)?;
            Ok(does(world, event, *what))
        }
        Line::Begins(actor, task, count) => Ok(begins(world, *actor, *task, *count)),
        Line::Steps(actor, task, count) => Ok(steps_as(world, *actor, *task, *count)),
        Line::Sees(actor, words) => Ok(sees(world, *actor, words)),
        Line::Takes(actor, wants) => Ok(takes(world, *actor, wants)),
        Line::Owns(actor, seal, number) => Ok(owns(world, *actor, *seal, *number)),
        Line::Finishes(acts) => all_finish(world, alloc, acts),
        Line::Opened(generation, mapped, dirty) => {
            Ok(world.opened() == Some((*generation, *mapped, *dirty)))
        }
    }
}

/// The number of the first line that does not go as it says, if there is one.
fn first_other(world: &mut World, alloc: Global, lines: &[Line]) -> Result<Option<usize>, Refusal> {
    for (number, line) in lines.iter().enumerate() {
        if !goes(world, alloc, line)? {
            return Ok(Some(number));
        }
    }
    Ok(None)
}

/// The same of a small world.
fn play(alloc: Global, lines: &[Line]) -> Result<Option<usize>, Refusal> {
    let mut world = small_world(alloc)?;
    first_other(&mut world, alloc, lines)
}

/// Plays each row, and fails by the name of one that does not go as it says.
fn compare(alloc: Global, rows: &[&Row]) -> Result<(), Fail> {
    for row in rows {
        let (name, lines) = **row;
        if play(alloc, lines)? != None {
            return Err(Fail::from(name));
        }
    }
    Ok(())
}

#[test]
fn openings_that_fail_go_as_their_rows_say(rt: HostRuntime) -> Result<(), Fail> {
    compare(rt.alloc(), &OPENINGS)
}

#[test]
fn requests_that_fail_go_as_their_rows_say(rt: HostRuntime) -> Result<(), Fail> {
    compare(rt.alloc(), &REQUESTS)
}

#[test]
fn invalidations_go_as_their_rows_say(rt: HostRuntime) -> Result<(), Fail> {
    compare(rt.alloc(), &INVALIDATIONS)
}

/// A list of events that is run goes to its end, and its trace tells what each of them did and what its reads were given.
#[test]
fn a_list_of_events_is_run_to_its_end(rt: HostRuntime) -> Result<(), Fail> {
    assert!(rt; ran(rt.alloc())?);
    Ok(())
}

/// Want of memory: `rt try --test --fail-alloc N` refuses the N-th allocation, and the test passes for each. The run is refused, or a
/// task in it, and the same events run again as where none is.
#[test]
fn a_run_that_wanted_memory_can_be_made_again(rt: HostRuntime) -> Result<(), Fail> {
    let went = match ran(rt.alloc()) {
        Err(Refusal::Memory) => ran(rt.alloc())?,
        answer => answer?,
    };
    assert!(rt; went);
    Ok(())
}
