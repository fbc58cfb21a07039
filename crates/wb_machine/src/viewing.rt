//! What the target shows of the origin's sectors.

ghost use Rattle.std.specs.Prelude.{◌≡◌, ◌*◌, ◌<◌, ◌/◌, IfSome, length, map, slice_get};
ghost use Rattle.wb_disk.specs.Device.{newest};
ghost use Rattle.wb_desk.specs.Desks.{mapped_now};
ghost use Rattle.wb_promise.specs.Headline.{content_of, place_of, shown};
ghost use Rattle.wb_machine.specs.declared.machine.TheConstants.{ACTORS};
ghost use Rattle.wb_machine.specs.Life.{shape_of, state_of};
ghost use Rattle.wb_machine.specs.Showing.{dirty_now};
ghost use Rattle.wb_machine.specs.Standing.{IsSoundPhase};

use crate::keeping::see_desk;
use crate::known_crew::KnownCrew;
use crate::opener::content_of;
use crate::phase::Phase;
use crate::target::Target;
use wb_desk::Desk;
use wb_devices::Devices;
use wb_disk::MemDisk;
use wb_policy::Quiet;
use wb_types::{CBlock, Content, Geometry, OBlock};

/// What the target that stands shows of a sector of the origin. None where none stands, or the origin has no such sector.
pub(crate) fn view_of(
    geometry: &Geometry,
    devices: &mut Devices<MemDisk>,
    phase: &Phase,
    at: u64,
) -> Option<Content>
    requires sound { IsSoundPhase geometry.now ACTORS devices.old phase.now }
    requires cache { length devices.old.cache.contents ≡ geometry.now.block * geometry.now.cache_blocks }
    requires origin { length devices.old.origin.contents ≡ geometry.now.block * geometry.now.origin_blocks }
    ensures shown { result ≡ slice_get (shown (shape_of geometry.now ACTORS) (state_of ACTORS devices.old phase.now)) at }
    ensures kept { devices.new ≡ devices.old }
{
    let Phase::Standing(target, _) = phase else {
        return None;
    };
    if at >= geometry.origin_sectors() {
        return None;
    }
    let place = place_of(&target.desk, at / u64::from(geometry.block));
    content_at(geometry, devices, place, at)
}

/// The generation of the newest root, how many cache blocks have an entry, and how many of these are dirty.
pub(crate) fn counts_of(target: &Target) -> (u64, u32, u32)
    ensures { result ≡ (target.now.desk.generation, mapped_now target.now.desk, dirty_now target.now.crew.words target.now.desk.tree.entries) }
{
    let counts = target.desk.counts();
    let dirty = count_dirty(&target.desk, &target.crew);
    (counts.generation, counts.mapped, dirty)
}

/// How many cache blocks have an entry whose block has a dirty seal.
fn count_dirty(desk: &Desk<Quiet>, crew: &KnownCrew) -> u32
    ensures { result ≡ dirty_now crew.now.words desk.now.tree.entries }
{
    let cache_blocks = desk.geometry().cache_blocks;
    let _mapped = desk.counts();
    let mut dirty = 0;
    for c in 0..cache_blocks {
        if let Some(entry) = desk.entry(CBlock(c)) {
            if crew.is_dirty(entry.origin) {
                dirty += 1;
            }
        }
    }
    dirty
}

/// The cache block that has the entry of a block, if one has.
fn place_of(desk: &Desk<Quiet>, block: u64) -> Option<u32>
    requires { block < desk.now.geometry.origin_blocks }
    ensures place { result ≡ place_of desk.now.tree.entries block }
    ensures inside { IfSome result (λ c. c < desk.now.geometry.cache_blocks) }
{
    see_desk(desk);
    let _fits = desk.geometry();
    match desk.place(OBlock(block as u32)) {
        Some(CBlock(c)) => Some(c),
        None => None,
    }
}

/// The newest content of a sector whose block stands here, if the device has it.
fn content_at(
    geometry: &Geometry,
    devices: &mut Devices<MemDisk>,
    place: Option<u32>,
    at: u64,
) -> Option<Content>
    ensures content { result ≡ content_of (shape_of geometry.now ACTORS) place (map newest devices.old.cache.contents) (map newest devices.old.origin.contents) at }
    ensures kept { devices.new ≡ devices.old }
{
    let block = u64::from(geometry.block);
    match place {
        None => content_of(&mut devices.origin, Some(at)),
        Some(c) => content_of(&mut devices.cache, Some(u64::from(c) * block + at % block)),
    }
}
