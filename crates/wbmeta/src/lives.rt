//! Short lives of the target: it is opened, one client does something, and it is suspended.

ghost use Rattle.std.specs.Prelude.{◌≡◌};
ghost use Rattle.wb_table.specs.declared.policy.PolicyName.TheVariants.{Cleaner as NamedCleaner};

use crate::shadow::Shadow;
use std::alloc::Global;
use std::sync::Wait;
use std::thread::Threads;
use wb_devices::Devices;
use wb_disk::Disk;
use wb_opened::{Unserved, open_target};
use wb_policy::{Cleaner, Policy};
use wb_table::{Keys, PolicyName, Table};
use wb_target::{Client, Errand, Returned, Sent, Target};
use wb_types::{Mode, Refusal};

/// How many sectors are on their way at once, at least a block: 32 MiB.
const AT_ONCE: u64 = 65_536;

/// What came of a life.
#[derive(Drop)]
pub struct Lived<D, X> {
    pub devices: Devices<Shadow<D>>,
    /// What the client told, or why there was none.
    pub told: Result<X, Refusal>,
    /// Whether the target was suspended, and what it wrote on the metadata is stored.
    pub ended: Result<(), Refusal>,
}

/// The table of the same files in this mode, with the policy `cleaner`, room for many blocks on their way, and metadata of the version that
/// they have.
pub fn table_in<'a>(table: &Table<'a>, mode: Mode) -> Table<'a>
    ensures policy { result.policy ≡ NamedCleaner }
{
    let mut keys = Keys::new();
    keys.migration_threshold = Some(table.block.max(AT_ONCE));
    Table {
        metadata: table.metadata,
        cache: table.cache,
        origin: table.origin,
        block: table.block,
        mode,
        metadata2: false,
        policy: PolicyName::Cleaner,
        keys,
    }
}

/// Opens the cache of a table on these devices, has one client do an errand, and suspends the target. What the shadow of the metadata kept is
/// stored behind a suspend that was answered done, and dropped behind one that was refused.
pub fn live<'a, T: Threads + Wait + Sync, D: Disk + Drop + Send, E: Errand + Send + Drop>(
    waits: &T,
    alloc: Global,
    devices: Devices<Shadow<D>>,
    table: &Table<'a>,
    errand: E,
) -> Result<Lived<D, E::Told>, Unserved<'a>>
    requires policy { table.now.policy ≡ NamedCleaner }
{
    let (devices, opened) = open_target::<Cleaner, Shadow<D>>(alloc, devices, table);
    let target = opened?;
    let Some(Returned { devices, told }) = returned(waits, alloc, &target, devices, errand) else {
        return Err(Unserved::Refused(Refusal::Memory));
    };
    let (mut devices, suspended) = target.suspend(waits, devices);
    let ended = match suspended {
        Ok(()) => devices.metadata.store(alloc),
        Err(refusal) => Err(refusal),
    };
    Ok(Lived {
        devices,
        told,
        ended,
    })
}

/// Has a client of a target do an errand: its devices, and what it told. None where there is no memory for that.
fn returned<T: Threads + Wait + Sync, D: Disk + Drop + Send, E: Errand + Send + Drop>(
    waits: &T,
    alloc: Global,
    target: &Target<Cleaner>,
    devices: Devices<Shadow<D>>,
    errand: E,
) -> Option<Returned<Shadow<D>, E::Told>> {
    let mut errands = Vec::new(alloc);
    errands.reserve(1).ok()?;
    errands.push_reserved(Sent { devices, errand });
    let mut all = target.together(waits, errands).ok()?;
    all.pop()
}

/// Does nothing.
#[derive(Drop)]
struct Nothing;

impl Errand for Nothing {
    type Told = ();

    ghost tells = { λ errand told. Unit {0} };

    fn run<R: Wait, D: Disk + Drop, P: Policy>(self, _rt: &R, _client: &mut Client<'_, D, P>) {}
}

/// Opens the cache of a table as that asks, which converts metadata of the first version, and suspends it. What the target writes is written at
/// once.
///
/// Refused as an opening and as a suspend.
pub fn convert<'a, T: Threads + Wait + Sync, D: Disk + Drop + Send>(
    waits: &T,
    alloc: Global,
    devices: Devices<Shadow<D>>,
    table: &Table<'a>,
) -> Result<Devices<Shadow<D>>, Unserved<'a>> {
    let mut table = table_in(table, Mode::Writeback);
    table.metadata2 = true;
    let lived = live(waits, alloc, devices, &table, Nothing)?;
    match (lived.told, lived.ended) {
        (Ok(()), Ok(())) => Ok(lived.devices),
        (Err(refusal), _) | (_, Err(refusal)) => Err(Unserved::Refused(refusal)),
    }
}
