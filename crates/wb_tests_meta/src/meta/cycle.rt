//! Round and round: formatting, reading, a change, an image and its commit, with a stop after any step.

ghost use Rattle.std.specs.Prelude.{◌≡◌, IfOk, OnOk, length};
ghost use Rattle.wb_tree.specs.Mapping.{AreInside};
ghost use Rattle.wb_meta.specs.Placing.{HavePlaces};

use super::rounds::{change, entry_of, plan_at};
use std::alloc::Global;
use std::test::Fail;
use wb_disk::{Base, CrashChoice, MemDisk};
use wb_format::Root;
use wb_meta::{CommitSteps, Image, State, commit, format, read_state};
use wb_tree::Tree;
use wb_types::{CBlock, Dev, Geometry, Place, Refusal};

/// A formatted device: blocks of 64 sectors, 40 of them on the cache and on the origin, and room for two images.
fn formatted(alloc: Global) -> Result<MemDisk, Refusal> {
    let geometry = Geometry::new(64, 40, 40, 8)?;
    let mut disk = MemDisk::new(alloc, 8)?;
    format(&mut disk, &geometry)?;
    Ok(disk)
}

/// Whether a tree has these entries, each for the origin block of its own number, and no others.
fn has_entries(tree: &Tree<Global>, blocks: u32, entries: &[(u32, u8)]) -> bool
    requires { length tree.now.entries ≡ blocks }
{
    for block in 0..blocks {
        let mut wanted = None;
        for (own, hint) in entries {
            if *own == block {
                wanted = Some(entry_of(block, *hint));
            }
        }
        if tree.get(CBlock(block)) != wanted {
            return false;
        }
    }
    true
}

/// Reads what a device stands for, and changes it: the tree and its next image, with so many free places from one on.
/// What `read_state`, `change` and `plan_at` refuse, and `GenerationEnd` where there is no next generation.
fn change_and_plan(
    alloc: Global,
    disk: &mut MemDisk,
    changes: &[(u32, u8)],
    free: (u8, u8),
) -> Result<(Tree<Global>, Image), Refusal>
    ensures size { length disk.new.contents ≡ length disk.old.contents }
    ensures fits { IfOk result (λ planned. HavePlaces planned.1.nodes.items (length disk.old.contents)) }
    ensures sectors { IfOk result (λ planned. planned.1.root.geometry.meta_sectors ≡ length disk.old.contents) }
    ensures tree { IfOk result (λ planned. length planned.0.entries ≡ planned.1.root.geometry.cache_blocks) }
    ensures inside { IfOk result (λ planned. AreInside planned.1.root.geometry.meta_sectors planned.0) }
{
    let State {
        root,
        mut tree,
        used,
        ..
    } = read_state(alloc, alloc, disk)?;
    for (block, hint) in changes {
        change(&mut tree, &root.geometry, *block, *hint)?;
    }
    let Some(generation) = root.generation.checked_add(1) else {
        return Err(Refusal::GenerationEnd);
    };
    let image = plan_at(alloc, &mut tree, &root.geometry, generation, &used, free)?;
    Ok((tree, image))
}

/// The generation of what a device stands for, and whether it has these entries and no others.
pub(super) fn is_read(
    alloc: Global,
    disk: &mut MemDisk,
    entries: &[(u32, u8)],
) -> Result<(u64, bool), Refusal>
    ensures { length disk.new.contents ≡ length disk.old.contents }
{
    let state = read_state(alloc, alloc, disk)?;
    let are_there = has_entries(&state.tree, state.root.geometry.cache_blocks, entries);
    Ok((state.root.generation, are_there))
}

/// Whether an image has its top at this place, and these are the places of its tree, from the top down.
fn has_places(image: &Image, used: &[Place], top: u32, wanted: &[Place]) -> bool {
    image.root.top == Some(Place(top)) && used == wanted
}

/// The entries of the first commit, which has two leaves.
const ENTRIES: [(u32, u8); 2] = [(0, 1), (33, 2)];

/// Takes so many steps of a commit of three nodes; whether it is then done, if and only if those are all.
fn takes_steps(disk: &mut MemDisk, image: &Image, count: u64) -> Result<bool, Refusal>
    requires { HavePlaces image.now.nodes.items (length disk.old.contents) }
{
    let mut steps = CommitSteps::new();
    for _ in 0..count {
        steps.next(disk, image)?;
    }
    Ok(image.nodes.len() == 3 && steps.is_done() == (count >= 6))
}

/// The generation that is read after a crash; none where what is read has not the entries of its generation.
fn read_after_crash(
    alloc: Global,
    disk: &mut MemDisk,
    base: Base,
    entries: &[(u32, u8)],
) -> Result<Option<u64>, Refusal> {
    if !disk.stop(Dev::Metadata, &CrashChoice::new(base, Vec::new(alloc))) {
        return Ok(None);
    }
    let (generation, _) = is_read(alloc, disk, &[])?;
    let wanted: &[(u32, u8)] = if generation == 0 { &[] } else { entries };
    let (again, are_there) = is_read(alloc, disk, wanted)?;
    Ok((again == generation && are_there).then_some(generation))
}

/// What is asked of a formatted device.
#[derive(Clone, Copy)]
enum Question {
    /// Whether this generation is read after a crash behind so many steps of the first commit.
    IsCrashed(u64, Base, u64),
    CommitsTwice,
    StaysUnwritten,
}

/// The answer of one.
// Letting it go is dear to prove: this function alone does.
fn answered(alloc: Global, question: Question) -> Result<bool, Refusal> {
    let mut disk = formatted(alloc)?;
    answer(alloc, &mut disk, question)
}

fn answer(alloc: Global, disk: &mut MemDisk, question: Question) -> Result<bool, Refusal> {
    match question {
        Question::IsCrashed(count, base, generation) => {
            Ok(generation_after(alloc, disk, count, base)? == Some(generation))
        }
        Question::CommitsTwice => {
            let commits = commits_twice(alloc, disk)?;
            Ok(commits && is_read(alloc, disk, &[(0, 1), (33, 5)])? == (2, true))
        }
        Question::StaysUnwritten => stays_unwritten(alloc, disk),
    }
}

/// The generation that is read after a crash behind so many steps of the first commit; none where a step or what is read is
/// not as it should be.
fn generation_after(
    alloc: Global,
    disk: &mut MemDisk,
    count: u64,
    base: Base,
) -> Result<Option<u64>, Refusal> {
    if !begins_commit(alloc, disk, count)? {
        return Ok(None);
    }
    read_after_crash(alloc, disk, base, &ENTRIES)
}

/// Takes so many steps of the first commit; whether they are as they should be.
fn begins_commit(alloc: Global, disk: &mut MemDisk, count: u64) -> Result<bool, Refusal> {
    let (_, image) = change_and_plan(alloc, disk, &ENTRIES, (2, 6))?;
    takes_steps(disk, &image, count)
}

#[test]
fn a_crash_within_a_commit_is_read_as_the_mapping_before_or_the_new_one(
    rt: HostRuntime,
) -> Result<(), Fail> {
    for count in 0..8 {
        let oldest = if count < 6 { 0 } else { 1 };
        let newest = if count < 5 { 0 } else { 1 };
        let durable = Question::IsCrashed(count, Base::Durable, oldest);
        assert!(rt; answered(rt.alloc(), durable)?, "{count}");
        let written = Question::IsCrashed(count, Base::Newest, newest);
        assert!(rt; answered(rt.alloc(), written)?, "{count}");
    }
    Ok(())
}

/// Changes a tree whose first commit has places 2, 3 and 4, and commits it; whether two nodes go to places that are left, and
/// this root and these places are read then.
fn commits_again(
    alloc: Global,
    disk: &mut MemDisk,
    tree: &mut Tree<Global>,
    geometry: &Geometry,
) -> Result<bool, Refusal>
    requires size { length tree.old.entries ≡ geometry.now.cache_blocks }
    requires inside { AreInside geometry.now.meta_sectors tree.old }
    requires sectors { geometry.now.meta_sectors ≡ length disk.old.contents }
{
    let used = tree.places(alloc)?;
    change(tree, geometry, 33, 5)?;
    let second = plan_at(alloc, tree, geometry, 2, &used, (5, 3))?;
    commit(disk, &second)?;
    let left = tree.places(alloc)?;
    let is_planned = second.nodes.len() == 2 && has_places(&second, &left, 6, &SECOND_PLACES);
    Ok(is_planned && stands_for(alloc, disk, &second.root, &SECOND_PLACES)?)
}

const FIRST_PLACES: [Place; 3] = [Place(4), Place(2), Place(3)];

const SECOND_PLACES: [Place; 3] = [Place(6), Place(2), Place(5)];

/// Whether this root and these places are read of a device.
fn stands_for(
    alloc: Global,
    disk: &mut MemDisk,
    root: &Root,
    places: &[Place],
) -> Result<bool, Refusal> {
    let state = read_state(alloc, alloc, disk)?;
    Ok(state.root == *root && state.used.as_slice() == places)
}

/// Makes two commits, the second with another hint; whether each goes to the places that are free, and is read.
fn commits_twice(alloc: Global, disk: &mut MemDisk) -> Result<bool, Refusal> {
    let (mut tree, first) = change_and_plan(alloc, disk, &ENTRIES, (2, 6))?;
    let used = tree.places(alloc)?;
    commit(disk, &first)?;
    if !has_places(&first, &used, 4, &FIRST_PLACES)
        || is_read(alloc, disk, &ENTRIES)? != (1, true)
    {
        return Ok(false);
    }
    commits_again(alloc, disk, &mut tree, &first.root.geometry)
}

#[test]
fn a_second_commit_goes_to_the_places_that_are_left(rt: HostRuntime) -> Result<(), Fail> {
    assert!(rt; answered(rt.alloc(), Question::CommitsTwice)?);
    Ok(())
}

/// Commits what a device stands for, with these changes.
pub(super) fn commit_changes(
    alloc: Global,
    disk: &mut MemDisk,
    changes: &[(u32, u8)],
    free: (u8, u8),
) -> Result<(), Refusal>
    ensures { length disk.new.contents ≡ length disk.old.contents }
{
    let (_, image) = change_and_plan(alloc, disk, changes, free)?;
    commit(disk, &image)
}

/// Whether the next image of an empty mapping has neither node nor top.
fn plans_nothing(alloc: Global, disk: &mut MemDisk) -> Result<bool, Refusal> {
    let (_, empty) = change_and_plan(alloc, disk, &[], (2, 6))?;
    Ok(empty.nodes.len() == 0 && empty.root.top.is_none())
}

/// Whether the next image with these changes has no node, and its tree is at the places of the first commit.
fn writes_no_node(
    alloc: Global,
    disk: &mut MemDisk,
    changes: &[(u32, u8)],
) -> Result<bool, Refusal> {
    let (tree, same) = change_and_plan(alloc, disk, changes, (5, 3))?;
    let used = tree.places(alloc)?;
    Ok(same.nodes.len() == 0 && has_places(&same, &used, 4, &FIRST_PLACES))
}

/// Whether neither an empty mapping nor a tree that was read and not changed writes a node.
fn stays_unwritten(alloc: Global, disk: &mut MemDisk) -> Result<bool, Refusal> {
    let is_nothing = plans_nothing(alloc, disk)?;
    commit_changes(alloc, disk, &ENTRIES, (2, 6))?;
    let is_same = writes_no_node(alloc, disk, &[])? && writes_no_node(alloc, disk, &[(33, 2)])?;
    commit_changes(alloc, disk, &[], (5, 3))?;
    Ok(is_nothing && is_same && is_read(alloc, disk, &ENTRIES)? == (2, true))
}

#[test]
fn a_tree_that_was_read_and_not_changed_writes_no_node(rt: HostRuntime) -> Result<(), Fail> {
    assert!(rt; answered(rt.alloc(), Question::StaysUnwritten)?);
    Ok(())
}
