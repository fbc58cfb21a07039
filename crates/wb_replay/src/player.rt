//! Playing lines: each is events of a world in memory, and what they tell.

use crate::actor::{Actor, Fill, Given, actors_of};
use std::alloc::Global;
use std::fmt::Write;
use wb_disk::{Base, CrashChoice};
use wb_lines::{ACTORS, Line, Setup, Task};
use wb_promise::{Event, Job, What};
use wb_tasks::{Answer, DeviceStep, Migration, Want};
use wb_types::{CBlock, Extent, Geometry, Mode, OBlock, Refusal, SECTOR_BYTES, Sector, Version};
use wb_world::World;

/// A world that is played, and what its actors were told.
#[derive(Drop)]
pub(crate) struct Player {
    alloc: Global,
    geometry: Geometry,
    actors: Vec<Actor>,
    world: World,
}

impl Player {
    /// A new world of these sizes, formatted and not yet opened: `Geometry` where they are outside the limits, `Memory` where
    /// there is none for it.
    pub(crate) fn new(alloc: Global, setup: Setup) -> Result<Player, Refusal> {
        let geometry = Geometry::with_version(
            setup.block,
            setup.cache_blocks,
            setup.origin_blocks,
            setup.metadata_sectors,
            Version::asked(setup.metadata2).number(),
        )?;
        let actors = actors_of(alloc, ACTORS)?;
        let world = World::new(alloc, geometry)?;
        Ok(Player {
            alloc,
            geometry,
            actors,
            world,
        })
    }

    /// Plays a line, and adds what it tells to the text. `Memory` where there is none outside a task.
    pub(crate) fn play(&mut self, line: Line, text: &mut String) -> Result<(), Refusal> {
        match line {
            Line::Nothing => Ok(()),
            Line::Start { actor, task } => self.start(actor, task, text),
            Line::Step { actor, steps } => self.steps(actor, steps, text),
            Line::End { actor } => self.steps(actor, u64::MAX, text),
            Line::Fault { actor, base } => self.fault(actor, base, text),
            Line::Stop { base, named } => {
                self.unless_skipped(Event::Stop(CrashChoice::new(base, named)), text)
            }
            Line::Open { mode, metadata2 } => {
                self.open(mode, metadata2, text)?;
                Ok(())
            }
            Line::View { at, count } => self.view(at, count, text),
        }
    }

    /// An opening in this mode by the first actor, which asks for metadata of the second version or not, from its start to its answer. False, and
    /// only that it is skipped or refused is told, where it does not start.
    pub(crate) fn open(
        &mut self,
        mode: Mode,
        metadata2: bool,
        text: &mut String,
    ) -> Result<bool, Refusal> {
        match self.happen(Event::Start(0, Job::Open(mode, metadata2)))? {
            What::Started => {
                self.begin(0, Given::Open, 0);
                self.steps(0, u64::MAX, text)?;
                Ok(true)
            }
            What::Refused(refusal) => {
                tell_refused(0, refusal, text)?;
                Ok(false)
            }
            _ => {
                tell_skipped(text)?;
                Ok(false)
            }
        }
    }

    /// How the last event was refused, where it was the end of a task that was.
    pub(crate) fn refused(&self) -> Option<Refusal> {
        match last_of(&self.world) {
            What::Stepped(Want::End(Answer::Refused(refusal)), _) => Some(refusal),
            _ => None,
        }
    }

    /// An event, and what it did.
    fn happen(&mut self, event: Event) -> Result<What, Refusal> {
        self.world.event(event)?;
        Ok(last_of(&self.world))
    }

    /// An event of which only is told that it does not apply.
    fn unless_skipped(&mut self, event: Event, text: &mut String) -> Result<(), Refusal> {
        match self.happen(event)? {
            What::Skipped => tell_skipped(text),
            _ => Ok(()),
        }
    }

    fn begin(&mut self, actor: u64, given: Given, block: u64) {
        if let Some(actor) = self.actors.get_mut(actor as usize) {
            actor.begin(given, block);
        }
    }

    /// Gives an actor a task.
    fn start(&mut self, actor: u64, task: Task, text: &mut String) -> Result<(), Refusal> {
        let (given, at, job) = job_of(task);
        match self.happen(Event::Start(actor as usize, job))? {
            What::Started => {
                let size = u64::from(self.geometry.block).max(1);
                self.begin(actor, given, at - at % size);
                Ok(())
            }
            What::Refused(refusal) => tell_refused(actor, refusal, text),
            _ => tell_skipped(text),
        }
    }

    /// So many steps of an actor, fewer where it answers, has none, or has to wait for a commit that another leads.
    fn steps(&mut self, actor: u64, steps: u64, text: &mut String) -> Result<(), Refusal> {
        for _ in 0..steps {
            if !self.step(actor, text)? {
                return Ok(());
            }
        }
        Ok(())
    }

    /// One step of an actor: whether it may have another.
    fn step(&mut self, actor: u64, text: &mut String) -> Result<bool, Refusal> {
        match self.happen(Event::Step(actor as usize))? {
            What::Stepped(Want::End(answer), _) => {
                self.tell_answer(actor, answer, text)?;
                Ok(false)
            }
            What::Stepped(Want::Device(DeviceStep::Read(_, extent)), _) => {
                self.note(actor, extent)?;
                Ok(true)
            }
            What::Stepped(_, _) => Ok(true),
            _ => {
                tell_skipped(text)?;
                Ok(false)
            }
        }
    }

    /// The next step of an actor fails, and what it writes or syncs is lost or lands.
    fn fault(&mut self, actor: u64, base: Base, text: &mut String) -> Result<(), Refusal> {
        let choice = CrashChoice::new(base, Vec::new(self.alloc));
        self.unless_skipped(Event::FaultStep(actor as usize, choice), text)
    }

    /// Notes what the last step gave of a sector that stands at this extent of a device.
    fn note(&mut self, actor: u64, extent: Extent) -> Result<(), Refusal> {
        let Some(fill) = last_fill(&self.world) else {
            return Ok(());
        };
        let size = u64::from(self.geometry.block).max(1);
        if let Some(actor) = self.actors.get_mut(actor as usize) {
            let sector = actor.block.saturating_add(extent.first % size);
            actor
                .read
                .push((sector, fill))
                .map_err(|_| Refusal::Memory)?;
        }
        Ok(())
    }

    /// Tells an answer: of a read with what it was given, of an opening with what was opened.
    fn tell_answer(&self, actor: u64, answer: Answer, text: &mut String) -> Result<(), Refusal> {
        if let Answer::Refused(refusal) = answer {
            return tell_refused(actor, refusal, text);
        }
        let Some(told) = self.actors.get(actor as usize) else {
            return Ok(());
        };
        match told.given {
            Given::Open => return self.tell_opened(text),
            Given::Read => tell_read(actor, told.read.as_slice(), text)?,
            Given::Other => {}
        }
        writeln!(text, "{actor} done").map_err(|_| Refusal::Memory)
    }

    /// Tells the generation of the root that an opening has written, and how many blocks are mapped and dirty.
    fn tell_opened(&self, text: &mut String) -> Result<(), Refusal> {
        match self.world.opened() {
            Some((generation, mapped, dirty)) => {
                writeln!(text, "open {generation} {mapped} {dirty}").map_err(|_| Refusal::Memory)
            }
            None => Ok(()),
        }
    }

    /// Tells what the target shows of sectors of the origin.
    fn view(&mut self, at: Sector, count: u64, text: &mut String) -> Result<(), Refusal> {
        let Sector(first) = at;
        let all = self.geometry.origin_sectors();
        let asked = Extent { first, count };
        if self.world.opened().is_none() || first >= all || !asked.is_within(all) {
            return tell_skipped(text);
        }
        for sector in first..first + count {
            if let Some(content) = self.world.view(sector) {
                write!(text, "{sector} ").map_err(|_| Refusal::Memory)?;
                tell_fill(Fill::of(&content), text)?;
            }
        }
        Ok(())
    }
}

/// A task as a job of the world, the first sector that it names, and what it is for its answer.
fn job_of(task: Task) -> (Given, u64, Job) {
    match task {
        Task::Read {
            at: Sector(first),
            count,
        } => (Given::Read, first, Job::Read(Extent { first, count })),
        Task::Write {
            at: Sector(first),
            count,
            fill,
        } => (
            Given::Other,
            first,
            Job::Write(Extent { first, count }, [fill; SECTOR_BYTES]),
        ),
        Task::Flush => (Given::Other, 0, Job::Flush),
        Task::Suspend => (Given::Other, 0, Job::Suspend),
        Task::Promote { block, cache } => (
            Given::Other,
            0,
            Job::Migrate(Migration::Promote(CBlock(cache)), OBlock(block)),
        ),
        Task::Demote { block } => (
            Given::Other,
            0,
            Job::Migrate(Migration::Demote, OBlock(block)),
        ),
        Task::Clean { block } => (
            Given::Other,
            0,
            Job::Migrate(Migration::Clean, OBlock(block)),
        ),
        Task::Replace { old, new } => (Given::Other, 0, Job::Replace(OBlock(old), OBlock(new))),
        Task::Open { mode, metadata2 } => (Given::Open, 0, Job::Open(mode, metadata2)),
    }
}

/// What the last event did.
fn last_of(world: &World) -> What {
    match world.trace().records().last() {
        Some(record) => record.what,
        None => What::Skipped,
    }
}

/// What fills the sector that the last event read, if it read one.
fn last_fill(world: &World) -> Option<Fill> {
    let record = world.trace().records().last()?;
    let content = record.read.first()?;
    Some(Fill::of(content))
}

fn tell_skipped(text: &mut String) -> Result<(), Refusal> {
    text.push_str("skipped\n")?;
    Ok(())
}

fn tell_refused(actor: u64, refusal: Refusal, text: &mut String) -> Result<(), Refusal> {
    writeln!(text, "{actor} refused {refusal}").map_err(|_| Refusal::Memory)
}

/// Tells what a read was given.
fn tell_read(actor: u64, read: &[(u64, Fill)], text: &mut String) -> Result<(), Refusal> {
    for (sector, fill) in read {
        write!(text, "{actor} {sector} ").map_err(|_| Refusal::Memory)?;
        tell_fill(*fill, text)?;
    }
    Ok(())
}

/// Tells what fills a sector, and ends the line.
fn tell_fill(fill: Fill, text: &mut String) -> Result<(), Refusal> {
    match fill {
        Fill::Uniform(byte) => writeln!(text, "{byte:02x}").map_err(|_| Refusal::Memory),
        Fill::Mixed => {
            text.push_str("mixed\n")?;
            Ok(())
        }
    }
}
