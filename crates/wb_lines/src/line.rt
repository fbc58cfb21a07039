//! The lines of a replay.

ghost use Rattle.std.specs.Prelude.{◌≡◌, ◌≢◌, ◌∷◌, ℕ, Bool, [], IfSome, OnSome, IfNone, IfOk, IfErr, codes};
ghost use Rattle.wb_types.specs.declared.refusal.Refusal.TheVariants.{Memory};
ghost use Rattle.wb_types.specs.declared.mode.Mode.{Mode as ModeTerm};
ghost use Rattle.wb_table.specs.Words.{words_of};
ghost use Rattle.wb_disk.specs.declared.crash_choice.Base.{Base as Kept};
ghost use Rattle.wb_lines.specs.Lines.{Asks, SpellsActor, SpellsBlock, SpellsBlocks, SpellsEnd, SpellsFault, SpellsOpening, SpellsOnlyBlock, SpellsStart, SpellsStep, SpellsSteps, SpellsTask};
ghost use Rattle.wb_lines.specs.declared.line.Line.{Line as Asked};
ghost use Rattle.wb_lines.specs.declared.line.Task.{Task as Told};

use crate::named::{read_all_named, read_base};
use crate::setup::read_version;
use std::alloc::Global;
use wb_disk::{Base, NamedContent};
use wb_table::{SplitSpaces, read_fill, read_mode, read_number, read_sectors};
use wb_types::{Mode, Refusal, Sector};

/// How many actors there are; they are counted from 0.
pub const ACTORS: u64 = 64;

/// A task that an actor is given.
#[derive(Clone, Copy)]
pub enum Task {
    /// `r S N`: reads so many sectors from a sector on.
    Read { at: Sector, count: u64 },
    /// `w S N hh`: fills so many sectors, from a sector on, with a byte.
    Write { at: Sector, count: u64, fill: u8 },
    /// `flush`: makes durable what was finished.
    Flush,
    /// `suspend`: makes durable what was finished, with the dirty bits of what is mapped, and leaves the cache suspended.
    Suspend,
    /// `promote b c`: copies this block of the origin into this cache block, and maps it.
    Promote { block: u32, cache: u32 },
    /// `demote b`: copies this block home where it is dirty, and unmaps it.
    Demote { block: u32 },
    /// `clean b`: copies this block home where it is dirty.
    Clean { block: u32 },
    /// `replace v x`: demotes the first block, under an order by which the second one follows it in its cache block.
    Replace { old: u32, new: u32 },
    /// `open <mode> [metadata2]`: opens the cache, and asks for metadata of the second version or not.
    Open { mode: Mode, metadata2: bool },
}

/// What a line asks.
#[derive(Drop)]
pub enum Line {
    /// An empty line.
    Nothing,
    /// `start <actor> <task>`.
    Start {
        actor: u64,
        task: Task,
    },
    /// `step <actor> [number]`: so many steps of the actor, one where no number stands.
    Step {
        actor: u64,
        steps: u64,
    },
    /// `end <actor>`: steps up to its answer.
    End {
        actor: u64,
    },
    /// `fault <actor> old|new`: its next step, one on a device, fails, and what it writes or syncs is lost or lands.
    Fault {
        actor: u64,
        base: Base,
    },
    /// `stop old|new [<device>:<sector>:<position>]*`: a crash.
    Stop {
        base: Base,
        named: Vec<NamedContent>,
    },
    /// `open <mode> [metadata2]`: an opening, from its start to its answer.
    Open {
        mode: Mode,
        metadata2: bool,
    },
    /// `view S N`: what the opened target holds.
    View {
        at: Sector,
        count: u64,
    },
}

/// Reads a line, without its line break. None is a line that asks nothing that a replay can ask; `Memory` where there is none
/// for the contents that a crash names.
pub fn read_line(alloc: Global, line: &str) -> Result<Option<Line>, Refusal>
    ensures found { IfOk result (λ read. IfSome read (Asks (words_of line.now))) }
    ensures none { IfOk result (λ read. IfNone read ((asked : Asked) → ¬ Asks (words_of line.now) asked)) }
    ensures refusal { IfErr result (λ refusal. refusal ≡ Memory) }
{
    let mut words = SplitSpaces(line);
    match words.next() {
        None => Ok(Some(Line::Nothing)),
        Some("stop") => read_stop(alloc, words),
        Some(name) => Ok(read_other(name, words)),
    }
}

/// Reads what stands behind `stop`.
fn read_stop(alloc: Global, mut words: SplitSpaces<'_>) -> Result<Option<Line>, Refusal>
    ensures found { IfOk result (λ read. IfSome read (Asks (codes "stop" ∷ words_of words.entry.0.now))) }
    ensures none { IfOk result (λ read. IfNone read ((asked : Asked) → ¬ Asks (codes "stop" ∷ words_of words.entry.0.now) asked)) }
    ensures refusal { IfErr result (λ refusal. refusal ≡ Memory) }
{
    let Some(word) = words.next() else {
        return Ok(None);
    };
    let Some(base) = read_base(word) else {
        return Ok(None);
    };
    match read_all_named(alloc, words)? {
        Some(named) => Ok(Some(Line::Stop { base, named })),
        None => Ok(None),
    }
}

/// Reads a line that begins with this word.
fn read_other(name: &str, words: SplitSpaces<'_>) -> Option<Line>
    requires { name.now ≢ codes "stop" }
    ensures found { IfSome result (Asks (name.now ∷ words_of words.entry.0.now)) }
    ensures none { IfNone result ((asked : Asked) → ¬ Asks (name.now ∷ words_of words.entry.0.now) asked) }
{
    match name {
        "open" => {
            let (mode, metadata2) = read_opening(words)?;
            Some(Line::Open { mode, metadata2 })
        }
        "view" => {
            let (at, count) = read_sectors(words)?;
            Some(Line::View { at, count })
        }
        _ => read_acting(name, words),
    }
}

/// Reads a mode, and whether metadata of the second version are asked for.
fn read_opening(mut words: SplitSpaces<'_>) -> Option<(Mode, bool)>
    ensures found { IfSome result (λ read. SpellsOpening (words_of words.entry.0.now) read.0 read.1) }
    ensures none { IfNone result ((mode : ModeTerm) (second : Bool) → ¬ SpellsOpening (words_of words.entry.0.now) mode second) }
{
    let mode = read_mode(words.next()?)?;
    let metadata2 = read_version(&mut words)?;
    Some((mode, metadata2))
}

/// Reads a line of an actor.
fn read_acting(name: &str, words: SplitSpaces<'_>) -> Option<Line>
    requires stops { name.now ≢ codes "stop" }
    requires others { (name.now ≢ codes "open") × (name.now ≢ codes "view") }
    ensures found { IfSome result (Asks (name.now ∷ words_of words.entry.0.now)) }
    ensures none { IfNone result ((asked : Asked) → ¬ Asks (name.now ∷ words_of words.entry.0.now) asked) }
{
    match name {
        "start" => {
            let (actor, task) = read_start(words)?;
            Some(Line::Start { actor, task })
        }
        "step" => {
            let (actor, steps) = read_step(words)?;
            Some(Line::Step { actor, steps })
        }
        "end" => {
            let actor = read_end(words)?;
            Some(Line::End { actor })
        }
        "fault" => {
            let (actor, base) = read_fault(words)?;
            Some(Line::Fault { actor, base })
        }
        _ => None,
    }
}

/// Reads an actor and its task.
fn read_start(mut words: SplitSpaces<'_>) -> Option<(u64, Task)>
    ensures found { IfSome result (λ read. SpellsStart (words_of words.entry.0.now) read.0 read.1) }
    ensures none { IfNone result ((actor : ℕ) (task : Told) → ¬ SpellsStart (words_of words.entry.0.now) actor task) }
{
    let actor = read_actor(words.next()?)?;
    Some((actor, read_task(words)?))
}

/// Reads an actor and its steps.
fn read_step(mut words: SplitSpaces<'_>) -> Option<(u64, u64)>
    ensures found { IfSome result (λ read. SpellsStep (words_of words.entry.0.now) read.0 read.1) }
    ensures none { IfNone result ((actor steps : ℕ) → ¬ SpellsStep (words_of words.entry.0.now) actor steps) }
{
    let actor = read_actor(words.next()?)?;
    Some((actor, read_steps(words)?))
}

/// Reads an actor, and nothing behind it.
fn read_end(mut words: SplitSpaces<'_>) -> Option<u64>
    ensures found { IfSome result (SpellsEnd (words_of words.entry.0.now)) }
    ensures none { IfNone result ((actor : ℕ) → ¬ SpellsEnd (words_of words.entry.0.now) actor) }
{
    let actor = read_actor(words.next()?)?;
    words.expect_end()?;
    Some(actor)
}

/// Reads an actor, and what becomes of its step that fails.
fn read_fault(mut words: SplitSpaces<'_>) -> Option<(u64, Base)>
    ensures found { IfSome result (λ read. SpellsFault (words_of words.entry.0.now) read.0 read.1) }
    ensures none { IfNone result ((actor : ℕ) (base : Kept) → ¬ SpellsFault (words_of words.entry.0.now) actor base) }
{
    let (actor, base) = (read_actor(words.next()?)?, read_base(words.next()?)?);
    words.expect_end()?;
    Some((actor, base))
}

/// Reads an actor's number.
fn read_actor(word: &str) -> Option<u64>
    ensures found { IfSome result (SpellsActor word.now) }
    ensures none { IfNone result ((actor : ℕ) → ¬ SpellsActor word.now actor) }
{
    let actor = read_number(word)?;
    if actor < ACTORS { Some(actor) } else { None }
}

/// Reads a task.
fn read_task(mut words: SplitSpaces<'_>) -> Option<Task>
    ensures found { IfSome result (SpellsTask (words_of words.entry.0.now)) }
    ensures none { IfNone result ((task : Told) → ¬ SpellsTask (words_of words.entry.0.now) task) }
{
    match words.next()? {
        "r" => {
            let (at, count) = read_sectors(words)?;
            Some(Task::Read { at, count })
        }
        "w" => {
            let (at, count, fill) = read_fill(words)?;
            Some(Task::Write { at, count, fill })
        }
        "flush" => {
            words.expect_end()?;
            Some(Task::Flush)
        }
        "suspend" => {
            words.expect_end()?;
            Some(Task::Suspend)
        }
        "open" => {
            let (mode, metadata2) = read_opening(words)?;
            Some(Task::Open { mode, metadata2 })
        }
        name => read_migration(name, words),
    }
}

/// Reads a migration, whose name stands before these words.
fn read_migration(name: &str, words: SplitSpaces<'_>) -> Option<Task>
    requires requests { (name.now ≢ codes "r") × (name.now ≢ codes "w") }
    requires others { (name.now ≢ codes "flush") × (name.now ≢ codes "suspend") × (name.now ≢ codes "open") }
    ensures found { IfSome result (SpellsTask (name.now ∷ words_of words.entry.0.now)) }
    ensures none { IfNone result ((task : Told) → ¬ SpellsTask (name.now ∷ words_of words.entry.0.now) task) }
{
    match name {
        "promote" => {
            let (block, cache) = read_blocks(words)?;
            Some(Task::Promote { block, cache })
        }
        "demote" => {
            let block = read_last_block(words)?;
            Some(Task::Demote { block })
        }
        "clean" => {
            let block = read_last_block(words)?;
            Some(Task::Clean { block })
        }
        "replace" => {
            let (old, new) = read_blocks(words)?;
            Some(Task::Replace { old, new })
        }
        _ => None,
    }
}

/// Reads two blocks, and nothing behind them.
fn read_blocks(mut words: SplitSpaces<'_>) -> Option<(u32, u32)>
    ensures found { IfSome result (λ read. SpellsBlocks (words_of words.entry.0.now) read.0 read.1) }
    ensures none { IfNone result ((one other : ℕ) → ¬ SpellsBlocks (words_of words.entry.0.now) one other) }
{
    let one = read_block(words.next()?)?;
    let other = read_block(words.next()?)?;
    words.expect_end()?;
    Some((one, other))
}

/// Reads a block of the origin, and nothing behind it.
fn read_last_block(mut words: SplitSpaces<'_>) -> Option<u32>
    ensures found { IfSome result (λ read. SpellsOnlyBlock (words_of words.entry.0.now) read) }
    ensures none { IfNone result ((block : ℕ) → ¬ SpellsOnlyBlock (words_of words.entry.0.now) block) }
{
    let block = read_block(words.next()?)?;
    words.expect_end()?;
    Some(block)
}

/// Reads the number of a block.
fn read_block(word: &str) -> Option<u32>
    ensures found { IfSome result (SpellsBlock word.now) }
    ensures none { IfNone result ((block : ℕ) → ¬ SpellsBlock word.now block) }
{
    let number = read_number(word)?;
    u32::try_from(number).ok()
}

/// Reads how many steps, one where no number stands.
fn read_steps(mut words: SplitSpaces<'_>) -> Option<u64>
    ensures found { IfSome result (SpellsSteps (words_of words.entry.0.now)) }
    ensures none { IfNone result ((steps : ℕ) → ¬ SpellsSteps (words_of words.entry.0.now) steps) }
{
    let Some(word) = words.next() else {
        return Some(1);
    };
    let steps = read_number(word)?;
    words.expect_end()?;
    Some(steps)
}
