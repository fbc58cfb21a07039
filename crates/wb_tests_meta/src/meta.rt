//! The bytes of formatting and of a first commit, and what is read of sectors.

ghost use Rattle.std.specs.Prelude.{◌≡◌, ◌≤◌, IfOk, IsTrue, length};
ghost use Rattle.wb_types.specs.declared.version.Version.TheVariants.{One};
ghost use Rattle.wb_meta.specs.Placing.{HavePlaces};

mod cycle;
mod failing;
mod reading;
mod rounds;

use std::alloc::Global;
use std::test::Fail;
use wb_disk::{Disk, MemDisk};
use wb_format::{Node, Root};
use wb_meta::*;
use wb_types::{Content, Dev, Geometry, Place, Refusal, Version};

/// The root of a formatted device of 4 sectors: blocks of 64 sectors, 4 on the cache and 10 on the origin.
const FORMATTED: [u8; 44] = [
    0x57, 0x42, 0x43, 0x52, 0x4f, 0x4f, 0x54, 0x31, 0, 0, 0, 0, 0, 0, 0, 0, 1, 0, 0, 0, 1, 0, 0, 0,
    0x40, 0, 0, 0, 4, 0, 0, 0, 10, 0, 0, 0, 4, 0, 0, 0, 0, 0, 0, 0,
];

/// The root of the first commit after it, whose top node stands at place 2.
const COMMITTED: [u8; 44] = [
    0x57, 0x42, 0x43, 0x52, 0x4f, 0x4f, 0x54, 0x31, 1, 0, 0, 0, 0, 0, 0, 0, 1, 0, 0, 0, 0, 0, 0, 0,
    0x40, 0, 0, 0, 4, 0, 0, 0, 10, 0, 0, 0, 4, 0, 0, 0, 2, 0, 0, 0,
];

/// The one node of that commit: origin block 0 in cache block 0, clean, with hint 0.
const LEAF: [u8; 40] = [
    0x57, 0x42, 0x43, 0x4e, 0x4f, 0x44, 0x45, 0x31, 1, 0, 0, 0, 0, 0, 0, 0, 1, 0, 0, 0, 0, 0, 0, 0,
    0, 0, 0, 0, 0, 0, 0, 0, 1, 0, 0, 0, 0, 0, 0, 0,
];

/// A sector that begins so, and has zeros behind it.
fn sector_of(front: &[u8]) -> Content
    requires { length front.now ≤ 512 }
{
    let mut content = [0; 512];
    content[..front.len()].copy_from_slice(front);
    content
}

/// What a sector of the device reads as; nothing where there is no such sector.
fn sector_at(disk: &mut MemDisk, at: u64) -> Option<Content> {
    let mut content = [0u8; 512];
    if at >= disk.sectors() || disk.read(at, &mut content).is_err() {
        return None;
    }
    Some(content)
}

/// Writes a sector; a failure of the device where there is no such sector.
fn put(disk: &mut MemDisk, at: u64, content: &Content) -> Result<(), Refusal>
    ensures { length disk.new.contents ≡ length disk.old.contents }
{
    if at >= disk.sectors() || disk.write(at, content).is_err() {
        return Err(Refusal::Io(Dev::Metadata));
    }
    Ok(())
}

/// Whether an image has one node, whose place is one of the device.
fn one_node_fits(disk: &MemDisk, image: &Image) -> bool
    ensures { IsTrue result → HavePlaces image.now.nodes.items (length disk.now.contents) }
{
    if image.nodes.len() != 1 {
        return false;
    }
    let (Place(place), _) = image.nodes[0];
    place >= 2 && u64::from(place) < disk.sectors()
}

/// The image of one leaf at place 2.
fn first_image(alloc: Global) -> Result<Image, Refusal>
    ensures { IfOk result (λ image. image.root.geometry.version ≡ One) }
{
    let root = Root {
        generation: 1,
        version: Version::One,
        clean: false,
        geometry: Geometry::new(64, 4, 10, 4)?,
        top: Some(Place(2)),
        top_dirty: None,
    };
    let Some(leaf) = Node::read(&sector_of(&LEAF), Version::One) else {
        return Err(Refusal::Damaged(Place(2)));
    };
    let mut nodes = Vec::with_capacity(alloc, 1)?;
    nodes.push_reserved((Place(2), leaf));
    Ok(Image { root, nodes })
}

/// A formatted device, and the image of the first commit.
fn formatted(alloc: Global) -> Result<(MemDisk, Image), Refusal> {
    let image = first_image(alloc)?;
    let mut disk = MemDisk::new(alloc, 4)?;
    format(&mut disk, &image.root.geometry)?;
    Ok((disk, image))
}

/// Whether the sectors of a device begin so, and have zeros behind that.
fn has_sectors(disk: &mut MemDisk, fronts: &[&[u8]]) -> bool {
    for (at, front) in fronts.iter().enumerate() {
        if front.len() > 512 || sector_at(disk, at as u64) != Some(sector_of(front)) {
            return false;
        }
    }
    true
}

/// Whether the commit of an image of one node takes these steps.
fn takes_steps(disk: &mut MemDisk, image: &Image, wanted: &[CommitStep]) -> Result<bool, Refusal> {
    let mut steps = CommitSteps::new();
    for step in wanted {
        if steps.coming(image) != Some(*step) || !one_node_fits(disk, image) {
            return Ok(false);
        }
        steps.next(disk, image)?;
    }
    Ok(steps.coming(image).is_none())
}

const FIRST_COMMIT: [CommitStep; 4] = [
    CommitStep::WriteNode(Place(2)),
    CommitStep::Sync,
    CommitStep::WriteRoot(Place(1)),
    CommitStep::Sync,
];

/// What is asked of a formatted device and the image of its first commit.
#[derive(Clone, Copy)]
enum Question<'a> {
    /// Whether they write the sectors that stand above.
    Writes,
    /// Whether the device is formatted for no other size, and stays as it was.
    IsOfItsSize,
    /// Whether the device is then read by these sectors, each beside whether the root is known before it.
    ReadBy(&'a [(u64, bool)]),
}

/// The answer of both.
// Letting them go is dear to prove: this function alone does.
fn answered(alloc: Global, question: Question<'_>) -> Result<bool, Refusal> {
    let (mut disk, image) = formatted(alloc)?;
    answer(alloc, &mut disk, &image, question)
}

fn answer(
    alloc: Global,
    disk: &mut MemDisk,
    image: &Image,
    question: Question<'_>,
) -> Result<bool, Refusal> {
    match question {
        Question::Writes => writes(disk, image),
        Question::IsOfItsSize => is_of_its_size(disk),
        Question::ReadBy(sectors) => reading::is_read_then(alloc, disk, image, sectors),
    }
}

fn writes(disk: &mut MemDisk, image: &Image) -> Result<bool, Refusal> {
    let begins = has_sectors(disk, &[&FORMATTED, &[]]);
    let steps = takes_steps(disk, image, &FIRST_COMMIT)?;
    Ok(begins && steps && has_sectors(disk, &[&FORMATTED, &COMMITTED, &LEAF, &[]]))
}

#[test]
fn formatting_and_a_first_commit_write_these_sectors(rt: HostRuntime) -> Result<(), Fail> {
    assert!(rt; answered(rt.alloc(), Question::Writes)?);
    Ok(())
}

fn is_of_its_size(disk: &mut MemDisk) -> Result<bool, Refusal> {
    let larger = Geometry::new(64, 4, 10, 5)?;
    let is_refused = format(disk, &larger) == Err(Refusal::Geometry);
    Ok(is_refused && has_sectors(disk, &[&FORMATTED, &[]]))
}

#[test]
fn a_formatting_is_for_the_size_of_its_device(rt: HostRuntime) -> Result<(), Fail> {
    assert!(rt; answered(rt.alloc(), Question::IsOfItsSize)?);
    Ok(())
}
