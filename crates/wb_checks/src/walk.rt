//! Blocks that are drawn by walks from the top of a mapping to its leaves.

ghost use Rattle.std.specs.Prelude.{◌≡◌, ◌<◌, ◌≤◌, ◌+◌, ◌⊎◌, ◌^◌, true, Some, None, All, IfSome, IfOk, IfErr, OnOk, OnErr, map, vec_len};
ghost use Rattle.wb_types.specs.declared.refusal.Refusal.TheVariants.{Io, Memory as OutOfMemory};
ghost use Rattle.wb_types.specs.declared.mode.Dev.TheVariants.{Metadata};
ghost use Rattle.wb_disk.specs.Device.{OneMore, newest};
ghost use Rattle.wb_format.specs.Layout.{SpellsNodeOf};
ghost use Rattle.wb_format.specs.NodeWords.{SpellsEntry};
ghost use Rattle.wb_tree.specs.Reading.{IsNewestRoot, is_node_of};
ghost use Rattle.wb_meta.specs.States.{CountsFault};
ghost use Rattle.wb_checks.specs.Samples.{IsMappedClean, IsNodeAt, Leads, TakesIn};

use crate::drawn::{CleanBlock, draw_below};
use rand_xoshiro::SplitMix64;
use std::alloc::{AllocError, Global};
use wb_disk::Disk;
use wb_format::{Node, Root, entry_of};
use wb_tree::{PlacedNode, wanted_node};
use wb_types::{CBlock, Content, Dev, Entry, OBlock, Place, Refusal, SECTOR_BYTES};

/// So many cache blocks are drawn at most, mapped or not.
const MOST_WALKS: usize = 512;

/// Draws cache blocks evenly, and takes those that a clean root's mapping has, clean, until there are so many, or many walks were
/// made. Where a walk comes to what is no node of the mapping, its block is passed over.
///
/// `Io` where the device fails, `Memory` where there is no room for the blocks.
pub(crate) fn draw_by_walks<D: Disk>(
    alloc: Global,
    metadata: &mut D,
    root: &Root,
    most: usize,
    dice: &mut SplitMix64,
) -> Result<Vec<CleanBlock>, Refusal>
    requires flag { root.now.clean ≡ true }
    requires no_bits { root.now.top_dirty ≡ None }
    ensures size { D.size metadata.new ≡ D.size metadata.old }
    ensures same { D.tells → D.contents metadata.new ≡ D.contents metadata.old }
    ensures most { IfOk result (λ drawn. vec_len drawn ≤ most) }
    ensures clean { D.tells → IsNewestRoot (map newest (D.contents metadata.old)) root.now → IfOk result (λ drawn. All (IsMappedClean (map newest (D.contents metadata.old))) drawn.items) }
    ensures refused { IfErr result (λ refusal. (refusal ≡ Io Metadata) ⊎ (refusal ≡ OutOfMemory)) }
    ensures cause { D.tells → IfErr result (λ refusal. CountsFault refusal (D.faults metadata.old) (D.faults metadata.new)) }
    ensures no_fault { D.tells → OnOk result (D.faults metadata.new ≡ D.faults metadata.old) }
{
    let mut drawn = Vec::new(alloc);
    let Some(top) = root.top else {
        return Ok(drawn);
    };
    'walks: for _ in 0..MOST_WALKS {
        if drawn.len() >= most {
            break;
        }
        let cache = CBlock(draw_below(dice, root.geometry.cache_blocks));
        let entry = entry_below(metadata, root, cache, root.geometry.depth(), top)?;
        take_in(&mut drawn, cache, entry)?;
    }
    Ok(drawn)
}

/// Takes a cache block in where its entry is clean, and it was not drawn before. `Memory` where there is no room for it.
fn take_in(drawn: &mut Vec<CleanBlock>, cache: CBlock, entry: Option<Entry>) -> Result<(), Refusal>
    ensures most { vec_len drawn.new ≤ vec_len drawn.old + 1 }
    ensures taken { OnOk result (TakesIn cache entry drawn.old.items drawn.new.items) }
    ensures refused { IfErr result (λ refusal. refusal ≡ OutOfMemory) }
{
    if let Some(block) = CleanBlock::of(cache, entry) {
        if !has_drawn(drawn, cache) {
            drawn.push(block).map_err(AllocError::from)?;
        }
    }
    Ok(())
}

/// Whether a cache block is among these.
fn has_drawn(drawn: &[CleanBlock], cache: CBlock) -> bool {
    drawn.iter().any(|block| block.cache == cache)
}

/// The entry of a cache block below the node of a level that stands at a place, where nodes lead to one. `Io` where the device fails.
#[tactic(auto, using(crate::proofs::Walking::leads_at_leaf, crate::proofs::Walking::leads_on))]
fn entry_below<D: Disk>(
    metadata: &mut D,
    root: &Root,
    cache: CBlock,
    level: u32,
    place: Place,
) -> Result<Option<Entry>, Refusal>
    requires some { 1 ≤ level }
    requires at_most { level ≤ 4 }
    ensures size { D.size metadata.new ≡ D.size metadata.old }
    ensures same { D.tells → D.contents metadata.new ≡ D.contents metadata.old }
    ensures leads { D.tells → IfOk result (λ found. IfSome found (λ entry. Leads root.now (map newest (D.contents metadata.old)) cache.0 entry level place.0)) }
    ensures refused { IfErr result (λ refusal. refusal ≡ Io Metadata) }
    ensures no_fault { D.tells → OnOk result (D.faults metadata.new ≡ D.faults metadata.old) }
    ensures cause { D.tells → OnErr result (OneMore (D.faults metadata.old) (D.faults metadata.new)) }
{
    let CBlock(number) = cache;
    let wanted = PlacedNode {
        level,
        index: number / span(level),
        place,
    };
    let Some(node) = node_at(metadata, root, wanted)? else {
        return Ok(None);
    };
    let word = node.words[(number / span(level - 1) % 32) as usize];
    if level == 1 {
        return Ok(entry_in(root, word));
    }
    match u32::try_from(word) {
        Ok(next) => entry_below(metadata, root, cache, level - 1, Place(next)),
        Err(_) => Ok(None),
    }
}

/// How many cache blocks a node of a level has below it.
fn span(level: u32) -> u32
    requires { level ≤ 4 }
    ensures power { result ≡ 32 ^ level }
    ensures some { 0 < result }
{
    match level {
        0 => 1,
        1 => 32,
        2 => 1024,
        3 => 32_768,
        _ => 1_048_576,
    }
}

/// The node that a mapping wants at a place, where it stands there. `Io` where the device fails.
fn node_at<D: Disk>(
    metadata: &mut D,
    root: &Root,
    wanted: PlacedNode,
) -> Result<Option<Node>, Refusal>
    ensures size { D.size metadata.new ≡ D.size metadata.old }
    ensures same { D.tells → D.contents metadata.new ≡ D.contents metadata.old }
    ensures there { D.tells → IfOk result (λ found. IfSome found (IsNodeAt root.now (map newest (D.contents metadata.old)) wanted.level wanted.index wanted.place.0)) }
    ensures refused { IfErr result (λ refusal. refusal ≡ Io Metadata) }
    ensures no_fault { D.tells → OnOk result (D.faults metadata.new ≡ D.faults metadata.old) }
    ensures cause { D.tells → OnErr result (OneMore (D.faults metadata.old) (D.faults metadata.new)) }
{
    let Place(place) = wanted.place;
    let at = u64::from(place);
    if at >= metadata.sectors() {
        return Ok(None);
    }
    let mut content = [0; SECTOR_BYTES];
    if metadata.read(at, &mut content).is_err() {
        return Err(Refusal::Io(Dev::Metadata));
    }
    Ok(node_in(root, wanted, &content))
}

/// The node that a mapping wants, where a sector spells it.
fn node_in(root: &Root, wanted: PlacedNode, content: &Content) -> Option<Node>
    ensures spelled { IfSome result (SpellsNodeOf root.now.version content.now) }
    ensures right { IfSome result (λ node. is_node_of root.now wanted.level wanted.index node ≡ true) }
{
    let told = Node::read(content, root.version);
    wanted_node(root, wanted, told, false).ok()
}

/// The entry that a word of a leaf spells, where its origin block is there.
fn entry_in(root: &Root, word: u64) -> Option<Entry>
    ensures { IfSome result (λ entry. SpellsEntry word (Some entry)) }
{
    let entry = entry_of(word, root.version)??;
    let OBlock(origin) = entry.origin;
    if origin < root.geometry.origin_blocks {
        Some(entry)
    } else {
        None
    }
}
