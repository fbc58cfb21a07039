//! What no contract says: that memory serves, and that the decisions come out as they were worked by hand.

ghost use Rattle.std.specs.Prelude.{OnOk};
ghost use Rattle.std.specs.List.Sorted.{IsNonDecreasingBy};

mod rows;

use std::alloc::{AllocError, Global};
use wb_policy::{Order, Policy, Tick};
use wb_types::{CBlock, Entry, Geometry, Mode, OBlock, Refusal};

/// A cache of four blocks of 64 sectors over an origin of ten.
fn geometry() -> Result<Geometry, Refusal> {
    Geometry::new(64, 4, 10, 4)
}

/// A policy for the small cache with these entries: origin block and hint of each cache block.
fn policy<P: Policy>(alloc: Global, entries: [Option<(u32, u8)>; 4]) -> Result<P, Refusal> {
    let sizes = geometry()?;
    let [first, second, third, fourth] = entries;
    let mapping = [entry(first), entry(second), entry(third), entry(fourth)];
    if sizes.cache_blocks != 4 {
        return Err(Refusal::Geometry);
    }
    P::new(alloc, &sizes, &mapping)
}

fn entry(entry: Option<(u32, u8)>) -> Option<Entry> {
    let (origin, hint) = entry?;
    Some(Entry {
        origin: OBlock(origin),
        dirty: false,
        hint,
    })
}

/// The next order of a tick of a policy, over a list of dirty blocks in any order.
fn tick<P: Policy>(
    policy: &mut P,
    mode: Mode,
    room: u64,
    busy: &[bool],
    dirty: &mut Vec<(CBlock, OBlock)>,
    given: u32,
) -> Result<Option<Order>, AllocError> {
    sort(dirty)?;
    Ok(policy.tick(&at_tick(mode, room, busy, dirty.as_slice()), given))
}

fn sort(dirty: &mut Vec<(CBlock, OBlock)>) -> Result<(), AllocError>
    ensures { OnOk result (IsNonDecreasingBy (λ e. e.0.0) dirty.new.items) }
{
    dirty.sort_by_key(|(at, _)| at.0)
}

fn at_tick<'a>(mode: Mode, room: u64, busy: &'a [bool], dirty: &'a [(CBlock, OBlock)]) -> Tick<'a>
    requires { IsNonDecreasingBy (λ e. e.0.0) dirty.now }
{
    Tick {
        mode,
        room,
        busy,
        dirty,
    }
}
