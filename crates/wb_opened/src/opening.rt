//! Opening a target over the files of a table.

ghost use Rattle.std.specs.Prelude.{◌≡◌, ◌⊎◌, ℕ, List, IfOk, IfErr};
ghost use Rattle.wb_types.specs.declared.message.Key.{Key as KeyTerm};
ghost use Rattle.wb_types.specs.declared.refusal.Refusal.{Refusal as RefusalTerm};
ghost use Rattle.wb_tasks.specs.declared.step.Answer.TheVariants.{Done as Finished};
ghost use Rattle.wb_devices.specs.declared.devices.Devices.{Devices as DevicesTerm};
ghost use Rattle.wb_table.specs.Policies.{policy_name};
ghost use Rattle.wb_table.specs.Table.{IsTable};
ghost use Rattle.wb_table.specs.Words.{words_of};
ghost use Rattle.wb_target.specs.Making.{WasOpened, WasRun};
ghost use Rattle.wb_target.specs.NotOpened.{IsNotOpened, IsOfSizes};
ghost use Rattle.wb_opened.specs.Looks.{WereLookedAt};
ghost use Rattle.wb_opened.specs.Tables.{Lists};
ghost use Rattle.wb_opened.specs.Unserved.{IsToldFor, IsUninspected, IsUnopened};

use crate::difference::find_difference;
use crate::inspector::Inspector;
use crate::unserved::Unserved;
use std::alloc::Global;
use std::fs::File;
use std::rt::Files;
use std::sync::Wait;
use wb_devices::Devices;
use wb_disk::Disk;
use wb_files::{Disks, Hurry, OpenFiles, Patience, SharedDisk, Watch, open_table};
use wb_policy::Policy;
use wb_table::{Keys, Table};
use wb_target::Target;
use wb_types::{Key, Refusal};

/// Reads a table and opens its files, each once and locked for as long as they are held.
pub fn open_files<'a, R: Files<File = File>, P: Patience>(
    rt: &R,
    text: &'a str,
    patience: &mut P,
) -> Result<(Table<'a>, OpenFiles<'a>), Unserved<'a>>
    ensures table { IfOk result (λ opened. IsTable (words_of text.now) opened.0) }
    ensures refused { IfErr result IsUnopened }
{
    match open_table(rt, text, patience) {
        Ok((table, files, _)) => Ok((table, files)),
        Err(unopened) => Err(Unserved::Unopened(unopened)),
    }
}

/// The files of a table that was read, each open once and locked for as long as they are held.
pub fn open_named<'a, R: Files<File = File>>(
    rt: &R,
    table: &Table<'a>,
) -> Result<OpenFiles<'a>, Unserved<'a>>
    ensures refused { IfErr result IsUnopened }
{
    match OpenFiles::open(rt, table, &mut Hurry) {
        Ok(files) => Ok(files),
        Err(unopened) => Err(Unserved::Unopened(unopened)),
    }
}

/// Devices over open files, for one more client: no file is opened again. Of steps on them that fail the watch is told.
pub fn lend_devices<'f, 'a, T: Wait, N: Watch>(
    files: &'f OpenFiles<'a>,
    waits: &'f T,
    watch: &'f N,
) -> Result<Devices<SharedDisk<'f, T, N>>, Unserved<'a>>
    ensures refused { IfErr result IsUnopened }
{
    match files.disks(waits, watch) {
        Ok(disks) => Ok(devices_of(disks)),
        Err(unopened) => Err(Unserved::Unopened(unopened)),
    }
}

/// The disks in their places.
fn devices_of<D>(disks: Disks<D>) -> Devices<D>
    ensures metadata { result.metadata ≡ disks.metadata }
    ensures cache { result.cache ≡ disks.cache }
    ensures origin { result.origin ≡ disks.origin }
{
    let Disks {
        metadata,
        cache,
        origin,
    } = disks;
    Devices {
        metadata,
        cache,
        origin,
    }
}

/// Has an inspector look at these devices, and then opens the cache of a table on them, as `open_target`. An opening that the inspector refuses
/// leaves the devices as they were.
pub fn open_inspected<'a, P: Policy, D: Disk + Drop, I: Inspector>(
    alloc: Global,
    devices: Devices<D>,
    table: &Table<'a>,
    inspector: &mut I,
) -> (Devices<D>, Result<Target<P>, Unserved<'a>>)
    requires policy { P.name ≡ policy_name table.now.policy }
    ensures mode { IfOk result.1 (λ target. target.mode ≡ table.now.mode) }
    ensures opened { IfOk result.1 (λ target. (looked : DevicesTerm D) × WereLookedAt D.tells D.size D.contents devices looked
        × IsOfSizes D.size looked table.now.block table.now.metadata2 target.sizes
        × WasRun D.tells D.size D.contents D.faults P.begun P.with_setting table.now.mode looked Finished result.0
        × ((keys : List (KeyTerm × ℕ)) × Lists keys table.now.keys × WasOpened D.tells D.size D.contents P.begun P.with_setting table.now.mode keys looked result.0)) }
    ensures uninspected { IfErr result.1 (λ unserved. IsUninspected unserved → WereLookedAt D.tells D.size D.contents devices result.0) }
    ensures refused { IfErr result.1 (λ unserved. IsUninspected unserved
        ⊎ IsToldFor unserved Refusal.Memory
        ⊎ ((looked : DevicesTerm D) × WereLookedAt D.tells D.size D.contents devices looked × ((keys : List (KeyTerm × ℕ)) × (back : DevicesTerm D) × (refusal : RefusalTerm) × Lists keys table.now.keys
        × IsNotOpened D.tells D.size D.contents D.faults P.begun P.with_setting table.now.mode keys table.now.block table.now.metadata2 looked back refusal × IsToldFor unserved refusal))) }
{
    let mut devices = devices;
    match inspector.inspect(alloc, table, &mut devices) {
        Ok(()) => open_target::<P, D>(alloc, devices, table),
        Err(uninspected) => (devices, Err(Unserved::Uninspected(uninspected))),
    }
}

/// Opens the cache of a table on these devices, with a policy of the name that it has.
pub fn open_target<'a, P: Policy, D: Disk + Drop>(
    alloc: Global,
    devices: Devices<D>,
    table: &Table<'a>,
) -> (Devices<D>, Result<Target<P>, Unserved<'a>>)
    requires policy { P.name ≡ policy_name table.now.policy }
    ensures mode { IfOk result.1 (λ target. target.mode ≡ table.now.mode) }
    ensures sizes { IfOk result.1 (λ target. IsOfSizes D.size devices table.now.block table.now.metadata2 target.sizes) }
    ensures run { IfOk result.1 (λ target. WasRun D.tells D.size D.contents D.faults P.begun P.with_setting table.now.mode devices Finished result.0) }
    ensures opened { IfOk result.1 (λ target. (keys : List (KeyTerm × ℕ)) × Lists keys table.now.keys × WasOpened D.tells D.size D.contents P.begun P.with_setting table.now.mode keys devices result.0) }
    ensures refused { IfErr result.1 (λ unserved. IsToldFor unserved Refusal.Memory
        ⊎ ((keys : List (KeyTerm × ℕ)) × (back : DevicesTerm D) × (refusal : RefusalTerm) × Lists keys table.now.keys
        × IsNotOpened D.tells D.size D.contents D.faults P.begun P.with_setting table.now.mode keys table.now.block table.now.metadata2 devices back refusal × IsToldFor unserved refusal)) }
    ensures looked { IfErr result.1 (λ unserved. ¬ IsUninspected unserved) }
{
    let keys = match listed(alloc, &table.keys) {
        Ok(keys) => keys,
        Err(refusal) => return (devices, Err(Unserved::Refused(refusal))),
    };
    let (mut devices, opened) = Target::open(
        alloc,
        devices,
        table.block,
        table.mode,
        keys.as_slice(),
        table.metadata2,
    );
    match opened {
        Ok(target) => (devices, Ok(target)),
        Err(refusal) => {
            let unserved = unserved_of(&mut devices, table, refusal);
            (devices, Err(unserved))
        }
    }
}

/// The keys that a table gives, as an opening takes them. `Memory` where there is none.
fn listed(alloc: Global, keys: &Keys) -> Result<Vec<(Key, u64)>, Refusal>
    ensures listed { IfOk result (λ list. Lists list.items keys.now) }
    ensures refused { IfErr result (λ refusal. refusal ≡ Refusal.Memory) }
{
    let mut list = Vec::with_capacity(alloc, 2)?;
    if let Some(sectors) = keys.migration_threshold {
        list.push_reserved((Key::MigrationThreshold, sectors));
    }
    if let Some(least) = keys.promote_min {
        list.push_reserved((Key::PromoteMin, least));
    }
    Ok(list)
}

/// Why a target was not opened, with what differs from its table where something does.
fn unserved_of<'a, D: Disk>(
    devices: &mut Devices<D>,
    table: &Table<'a>,
    refusal: Refusal,
) -> Unserved<'a>
    ensures told { IsToldFor result refusal }
    ensures looked { ¬ IsUninspected result }
{
    if refusal == Refusal::Mismatch {
        if let Some(difference) = find_difference(devices, table.block) {
            return Unserved::Differs(difference);
        }
    }
    Unserved::Refused(refusal)
}
