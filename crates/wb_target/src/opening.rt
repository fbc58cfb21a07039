//! Opening a target over what three devices hold.

ghost use Rattle.std.specs.Prelude.{◌≡◌, ◌<◌, [], All, IfOk, IfErr, OnOk, length};
ghost use Rattle.wb_target.specs.Making.{IsMade, IsNotMadeFor, WasOpened, WasRun};
ghost use Rattle.wb_words.specs.declared.card.Hold.TheVariants.{Nothing};
ghost use Rattle.wb_tree.specs.Mapping.{IsMapping};
ghost use Rattle.wb_meta.specs.Reads.{FitsDevice};
ghost use Rattle.wb_devices.specs.Clean.{entries_of};
ghost use Rattle.wb_target.specs.Opening.{opened_mapping, opened_entry, seals_stored};
ghost use Rattle.wb_target.specs.NotOpened.{IsOfSizes, AreNoSizes, IsNotOpened};
ghost use Rattle.wb_cells.specs.Fractions.{IsWhole};

use crate::making::MakingStage;
use crate::office::Office;
use crate::target::{CLIENTS, Target};
use std::alloc::Global;
use std::sync::Arc;
use wb_cells::{Cells, Pass};
use wb_desk::Desk;
use wb_devices::{Devices, stored_entry};
use wb_disk::Disk;
use wb_flow::OpenTask;
use wb_meta::State;
use wb_policy::Policy;
use wb_port::{Seat, Seats};
use wb_tasks::Answer;
use wb_types::{CBlock, Entry, Geometry, Key, Mode, Refusal};

impl<P: Policy> Target<P> {
    /// Opens a cache over three devices, which are handed back: all three are synced, the newest root and its tree are read, the
    /// policy is made and told its keys, and a root of the next generation without the clean flag is durable before the target is
    /// there. Without the clean flag each mapped block counts as dirty, in every mode (the kernel's device-mapper/cache.rst), so that
    /// passthrough, which reads the origin alone, opens over clean metadata only.
    ///
    /// Metadata of version 1 are converted where `metadata2` asks for version 2: the nodes of the whole mapping are durable on places
    /// that were free before that root, which is of version 2, is written. Until it is, the mapping of version 1 counts; the target goes by
    /// the same entries in either case. Metadata of version 2 stay of it without `metadata2`.
    ///
    /// `Geometry` for sizes outside the limits, or with too little room for metadata of version 2 where `metadata2` asks for them: then
    /// nothing was read; `NotFormatted`, `Mismatch` (the metadata were formatted for other sizes), `Damaged`, `GenerationEnd` and `Memory`
    /// as the metadata are read, `Memory` also as they are converted. In passthrough `NotClean` where all was read and the newest root has no
    /// clean flag, or a mapped block is dirty, before `GenerationEnd`. Then `Memory` where there is none for the target, and `BadMessage` for a
    /// key's value that is out of its range: up to there nothing was written. `Io` where a step failed; after that of the root it may be written.
    pub fn open<D: Disk + Drop>(
        alloc: Global,
        devices: Devices<D>,
        block: u64,
        mode: Mode,
        keys: &[(Key, u64)],
        metadata2: bool,
    ) -> (Devices<D>, Result<Target<P>, Refusal>)
        ensures mode { IfOk result.1 (λ target. target.mode ≡ mode) }
        ensures sizes { IfOk result.1 (λ target. IsOfSizes D.size devices block metadata2 target.sizes) }
        ensures run { OnOk result.1 (WasRun D.tells D.size D.contents D.faults P.begun P.with_setting mode devices Answer.Done result.0) }
        ensures opened { OnOk result.1 (WasOpened D.tells D.size D.contents P.begun P.with_setting mode keys.now devices result.0) }
        ensures refused { IfErr result.1 (IsNotOpened D.tells D.size D.contents D.faults P.begun P.with_setting mode keys.now block metadata2 devices result.0) }
    {
        let geometry = match measure(&devices, block, metadata2) {
            Ok(geometry) => geometry,
            Err(refusal) => return (devices, Err(refusal)),
        };
        let mut stage = MakingStage::new(alloc, devices, geometry, mode, keys);
        let mut task = OpenTask::new(geometry.meta_sectors);
        let answer = stage.run(&mut task);
        stage.finish(geometry, answer)
    }
}

/// The sizes of a cache over these devices, with metadata of the version that is asked for: `Geometry` where they are outside the limits, give
/// that version too little room, or are not of whole blocks.
fn measure<D: Disk>(devices: &Devices<D>, block: u64, metadata2: bool) -> Result<Geometry, Refusal>
    ensures sizes { IfOk result (IsOfSizes D.size devices.now block metadata2) }
    ensures refused { IfErr result (λ refusal. refusal ≡ Refusal.Geometry) }
    ensures no_sizes { IfErr result (λ _. AreNoSizes D.size devices.now block metadata2) }
{
    let (metadata, cache, origin) = (
        devices.metadata.sectors(),
        devices.cache.sectors(),
        devices.origin.sectors(),
    );
    Geometry::of_devices(block, metadata, cache, origin, metadata2)
}

/// What lies under the lock of a target over what was read, by the root that is to be written.
pub(crate) fn office_over<P: Policy>(
    alloc: Global,
    state: State<Global>,
    clean: bool,
    mode: Mode,
    keys: &[(Key, u64)],
) -> Result<Office<P>, Refusal>
    requires { FitsDevice state.root.geometry.meta_sectors state.root state.tree state.used.items }
    ensures made { IfOk result (IsMade P.begun P.with_setting state.root.geometry state.root.generation state.tree state.used.items (opened_mapping clean (entries_of state)) mode keys.now) }
    ensures refused { IfErr result (IsNotMadeFor P.with_setting keys.now) }
{
    let geometry = state.root.geometry;
    let entries = opened_entries(alloc, &state, clean)?;
    let policy = P::new(alloc, &geometry, entries.as_slice())?;
    let desk = Desk::new(alloc, state, mode, policy, keys)?;
    let seat = sealed_seat(alloc, geometry, entries.as_slice())?;
    let seats = Seats::new(alloc, seat, CLIENTS)?;
    Ok(Office { desk, seats })
}

/// The entries of all cache blocks, each with the dirty bit that was read of it, as an opening goes by them.
fn opened_entries(
    alloc: Global,
    state: &State<Global>,
    clean: bool,
) -> Result<Vec<Option<Entry>>, Refusal>
    requires { length state.now.tree.entries ≡ state.now.root.geometry.cache_blocks }
    ensures entries { IfOk result (λ v. v.items ≡ opened_mapping clean (entries_of state.now)) }
    ensures refused { IfErr result (λ refusal. refusal ≡ Refusal.Memory) }
{
    let mut entries = vec![in alloc; None; state.root.geometry.cache_blocks as usize]?;
    for c in 0..state.root.geometry.cache_blocks {
        entries[c as usize] = opened(clean, stored_entry(state, CBlock(c)));
    }
    Ok(entries)
}

/// An entry as it is opened: without the clean flag it counts as dirty, and has no hint.
fn opened(clean: bool, entry: Option<Entry>) -> Option<Entry>
    ensures { result ≡ opened_entry clean entry }
{
    let entry = entry?;
    if clean {
        return Some(entry);
    }
    Some(Entry {
        origin: entry.origin,
        dirty: true,
        hint: 0,
    })
}

/// The one seat of a cache of these sizes, by which each mapped block was sealed at its place, dirty as its entry says.
/// `Memory` where there is no room for the words.
fn sealed_seat(
    alloc: Global,
    geometry: Geometry,
    entries: &[Option<Entry>],
) -> Result<Seat, Refusal>
    requires { IsMapping geometry.cache_blocks geometry.origin_blocks entries.now }
    ensures geometry { IfOk result (λ seat. seat.geometry ≡ geometry) }
    ensures sealed { IfOk result (λ seat. seat.pass.card.stored ≡ seals_stored 0 entries.now []) }
    ensures whole { IfOk result (λ seat. IsWhole seat.pass.fraction) }
    ensures refused { IfErr result (λ refusal. refusal ≡ Refusal.Memory) }
{
    let (cells, mut pass) = Cells::new(alloc, geometry.origin_blocks)?;
    seal_all(&cells, &mut pass, &geometry, entries);
    let cells = Arc::new(alloc, cells).map_err(|_| Refusal::Memory)?;
    Ok(Seat::over(geometry, cells, pass))
}

/// Seals each mapped block, by a pass that has the whole of the words and has not failed: it is refused none.
fn seal_all(cells: &Cells, pass: &mut Pass, geometry: &Geometry, entries: &[Option<Entry>])
    requires at { pass.old.table ≡ cells.now.table }
    requires idle { pass.old.card.hold ≡ Nothing }
    requires whole { IsWhole pass.old.fraction }
    requires unset { pass.old.card.set ≡ [] }
    requires blocks { cells.now.blocks ≡ geometry.now.origin_blocks }
    requires mapping { IsMapping geometry.now.cache_blocks geometry.now.origin_blocks entries.now }
    ensures at { pass.new.table ≡ pass.old.table }
    ensures idle { pass.new.card.hold ≡ Nothing }
    ensures sealed { pass.new.card.stored ≡ seals_stored 0 entries.now pass.old.card.stored }
    ensures whole { IsWhole pass.new.fraction }
{
    for c in 0..geometry.cache_blocks {
        if let Some(entry) = entries[c as usize] {
            let Ok(mut own) = cells.try_own(pass, entry.origin) else {
                unreachable!()
            };
            cells.seal(pass, &mut own, Some(CBlock(c)), entry.dirty);
            cells.disown(pass, own);
        }
    }
}
