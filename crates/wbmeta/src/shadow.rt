//! Metadata whose changes are kept in memory for a while, and then stored at once.

ghost use Rattle.std.specs.Prelude.{◌≡◌, []};

use std::alloc::Global;
use std::collections::BTreeMap;
use wb_disk::{Disk, DiskFault};
use wb_meta::read_state;
use wb_types::{Content, Dev, Place, Refusal};

/// The first place of a node: before it stand the two root slots.
const FIRST_NODE: u64 = 2;

/// A step that was kept in place of being done.
#[derive(Clone, Copy)]
enum Kept {
    Write(u64, Content),
    Sync,
}

/// The steps that were kept, in order, and of each sector the last write.
#[derive(Drop)]
struct Log {
    steps: Vec<Kept>,
    last: BTreeMap<u64, usize>,
}

/// A disk whose writes can be kept in memory until they are stored. Meanwhile a read gives what was written, and the disk below holds what
/// it held, whatever ends the program.
///
/// So what runs over shadowed metadata leaves them as it found them, or as they are at its end.
#[derive(Drop)]
pub struct Shadow<D> {
    inside: D,
    kept: Option<Log>,
}

impl<D: Disk> Shadow<D> {
    /// A disk whose writes go through.
    pub fn over(inside: D) -> Shadow<D>
        ensures { result.inside ≡ inside }
    {
        Shadow { inside, kept: None }
    }

    /// Keeps the writes from now on. What was kept before is dropped.
    pub fn keep(&mut self, alloc: Global)
        ensures { self.new.inside ≡ self.old.inside }
    {
        self.kept = Some(Log {
            steps: Vec::new(alloc),
            last: BTreeMap::new(alloc),
        });
    }

    /// The disk below, which does not know what is kept.
    pub fn below(&mut self) -> &mut D {
        &mut self.inside
    }

    /// Stores what was kept, if anything is, and lets writes through from then on.
    ///
    /// Where no node goes to a place that the mapping on the disk uses, and no tree of dirty bits stands beside that, the nodes are stored
    /// first, and once they are durable the roots, at once: so a stop at any moment leaves the old mapping or the new one, each with its dirty
    /// bits. Else the steps are done in the order in which they were asked for, which a stop may cut anywhere, as it may cut the target's own.
    ///
    /// `Io` where a step fails, and then nothing more is written. Refused as a reading of the metadata, before anything is written.
    pub fn store(&mut self, alloc: Global) -> Result<(), Refusal> {
        let Some(log) = self.kept.take() else {
            return Ok(());
        };
        let state = read_state(alloc, alloc, &mut self.inside)?;
        let is_apart = state.dirty.is_none() && log.spares(&state.used);
        let stored = if is_apart {
            store_apart(&mut self.inside, &log)
        } else {
            store_in_order(&mut self.inside, &log)
        };
        stored.map_err(|_| Refusal::Io(Dev::Metadata))
    }
}

impl Log {
    /// Whether none of these places is written.
    fn spares(&self, used: &[Place]) -> bool {
        !used
            .iter()
            .any(|place| self.last.contains_key(&u64::from(place.0)))
    }

    /// What was last written to a sector.
    fn found(&self, at: u64) -> Option<&Content> {
        let number = *self.last.get(&at)?;
        match self.steps.get(number) {
            Some(Kept::Write(_, content)) => Some(content),
            _ => None,
        }
    }

    fn add(&mut self, step: Kept) -> Result<(), DiskFault> {
        self.steps.reserve(1).map_err(|_| DiskFault)?;
        if let Kept::Write(at, _) = step {
            let number = self.steps.len();
            self.last.insert(at, number).map_err(|_| DiskFault)?;
        }
        self.steps.push_reserved(step);
        Ok(())
    }
}

/// Stores the nodes, and once they are durable the roots.
fn store_apart<D: Disk>(disk: &mut D, log: &Log) -> Result<(), DiskFault> {
    for (number, step) in log.steps.iter().enumerate() {
        if let Kept::Write(at, content) = step {
            let is_last = log.last.get(at).is_some_and(|last| *last == number);
            if *at >= FIRST_NODE && is_last {
                put(disk, *at, content)?;
            }
        }
    }
    disk.sync()?;
    store_roots(disk, log)?;
    disk.sync()
}

/// Stores both roots by one write, or the one that there is.
fn store_roots<D: Disk>(disk: &mut D, log: &Log) -> Result<(), DiskFault>
    ensures size { D.size disk.new ≡ D.size disk.old }
{
    match (log.found(0), log.found(1)) {
        (Some(first), Some(second)) if disk.sectors() >= FIRST_NODE => {
            disk.write_extent(0, &[*first, *second])
        }
        (Some(root), _) => put(disk, 0, root),
        (None, Some(root)) => put(disk, 1, root),
        (None, None) => Ok(()),
    }
}

/// Does the steps in the order in which they were asked for.
fn store_in_order<D: Disk>(disk: &mut D, log: &Log) -> Result<(), DiskFault> {
    for step in log.steps.iter() {
        match step {
            Kept::Write(at, content) => put(disk, *at, content)?,
            Kept::Sync => disk.sync()?,
        }
    }
    Ok(())
}

/// Writes a sector; a fault where there is none of this number.
fn put<D: Disk>(disk: &mut D, at: u64, content: &Content) -> Result<(), DiskFault>
    ensures size { D.size disk.new ≡ D.size disk.old }
{
    if at >= disk.sectors() {
        return Err(DiskFault);
    }
    disk.write(at, content)
}

impl<D: Disk> Disk for Shadow<D> {
    ghost tells = { ⊥ };

    ghost size = { λ d. D.size d.inside };

    ghost contents = { λ _. [] };

    ghost faults = { λ _. 0 };

    ghost falters = { λ _ _ _. Unit {0} };

    ghost fails = { λ _. ⊥ };

    fn sectors(&self) -> u64 {
        self.inside.sectors()
    }

    fn read(&mut self, at: u64, out: &mut Content) -> Result<(), DiskFault> {
        if let Some(log) = &self.kept {
            if let Some(content) = log.found(at) {
                *out = *content;
                return Ok(());
            }
        }
        self.inside.read(at, out)
    }

    fn write(&mut self, at: u64, from: &Content) -> Result<(), DiskFault> {
        match &mut self.kept {
            Some(log) => log.add(Kept::Write(at, *from)),
            None => self.inside.write(at, from),
        }
    }

    fn read_extent(&mut self, first: u64, out: &mut [Content]) -> Result<(), DiskFault> {
        if self.kept.is_none() {
            return self.inside.read_extent(first, out);
        }
        'sectors: for number in 0..out.len() {
            let at = first.saturating_add(number as u64);
            if at >= self.sectors() {
                return Err(DiskFault);
            }
            self.read(at, &mut out[number])?;
        }
        Ok(())
    }

    fn write_extent(&mut self, first: u64, from: &[Content]) -> Result<(), DiskFault> {
        if self.kept.is_none() {
            return self.inside.write_extent(first, from);
        }
        'sectors: for number in 0..from.len() {
            let at = first.saturating_add(number as u64);
            if at >= self.sectors() {
                return Err(DiskFault);
            }
            self.write(at, &from[number])?;
        }
        Ok(())
    }

    /// Syncs the disk below, too: what is read of it has to be durable.
    fn sync(&mut self) -> Result<(), DiskFault> {
        if let Some(log) = &mut self.kept {
            log.add(Kept::Sync)?;
        }
        self.inside.sync()
    }

    ghost whole = { λ d h. absurd h };
}
