//! What no contract says: that memory serves, and that calls come out as they were worked by hand.

ghost use Rattle.std.specs.Prelude.{◌≡◌, None, IfOk, replicate};
ghost use Rattle.wb_meta.specs.Reads.{FitsDevice};

mod clean;
mod commits;
mod decisions;
mod memory;
mod messages;
mod orders;
mod sharing;
mod ticks;

use sharing::Told;
use std::alloc::Global;
use wb_desk::{Desk, Ticket};
use wb_format::Root;
use wb_meta::State;
use wb_policy::{Order, Policy, Quiet};
use wb_space::Holding;
use wb_tree::Tree;
use wb_types::{
    CBlock, CBlockRange, CBlockRanges, Entry, Geometry, Key, Message, Mode, OBlock, Place, Refusal,
};

/// What an opening read: block 3 in cache block 1 of four, and nothing else.
fn state(alloc: Global, generation: u64) -> Result<State<Global>, Refusal>
    ensures { IfOk result (λ s. FitsDevice s.root.geometry.meta_sectors s.root s.tree s.used.items) }
{
    let geometry = Geometry::new(64, 4, 10, 4)?;
    let mut tree = Tree::new(alloc, 4);
    let entry = Entry {
        origin: OBlock(3),
        dirty: false,
        hint: 0,
    };
    tree.set(CBlock(1), entry)?;
    Ok(State {
        root: root(geometry, generation),
        tree,
        dirty: None,
        used: Vec::new(alloc),
        nodes: 0,
    })
}

/// What an opening read of an empty cache of this geometry.
fn empty_state(alloc: Global, geometry: Geometry) -> Result<State<Global>, Refusal>
    ensures fits { IfOk result (λ s. FitsDevice s.root.geometry.meta_sectors s.root s.tree s.used.items) }
    ensures empty { IfOk result (λ s. s.tree.entries ≡ replicate geometry.cache_blocks None) }
{
    Ok(State {
        root: root(geometry, 0),
        tree: Tree::new(alloc, geometry.cache_blocks),
        dirty: None,
        used: Vec::new(alloc),
        nodes: 0,
    })
}

fn root(geometry: Geometry, generation: u64) -> Root
    ensures { result.geometry ≡ geometry }
{
    Root {
        generation,
        version: geometry.version,
        clean: false,
        geometry,
        top: None,
        top_dirty: None,
    }
}

/// A desk over block 3 in cache block 1 of four, for an origin of ten blocks, all of 64 sectors; the last commit had this
/// generation. Whether all calls come out as they say.
fn are_answered(
    alloc: Global,
    generation: u64,
    mode: Mode,
    keys: &[(Key, u64)],
    calls: &[(Call, bool)],
) -> Result<bool, Refusal> {
    let desk = Desk::new(alloc, state(alloc, generation)?, mode, Quiet, keys)?;
    are_done_by(desk, alloc, calls, Tries::One)
}

/// A desk over an empty cache of so many blocks of 64 sectors, with metadata of this version and a policy of its own.
fn empty<P: Policy>(
    alloc: Global,
    version: u32,
    cache_blocks: u64,
    origin_blocks: u64,
    mode: Mode,
) -> Result<Desk<P>, Refusal> {
    let geometry = Geometry::with_version(64, cache_blocks, origin_blocks, 8, version)?;
    let none = vec![in alloc; None; geometry.cache_blocks as usize]?;
    let policy = P::new(alloc, &geometry, none.as_slice())?;
    Desk::new(alloc, empty_state(alloc, geometry)?, mode, policy, &[])
}

/// Whether all calls come out as they say, over an empty cache of four blocks for an origin of ten.
fn are_answered_by<P: Policy>(
    alloc: Global,
    mode: Mode,
    calls: &[(Call, bool)],
) -> Result<bool, Refusal> {
    let desk = empty::<P>(alloc, 1, 4, 10, mode)?;
    are_done_by(desk, alloc, calls, Tries::One)
}

/// How often a call is made that is refused for want of memory.
#[derive(Clone, Copy)]
enum Tries {
    One,
    Two,
}

/// What is asked of a desk.
#[derive(Clone, Copy)]
enum Call {
    Reserve(Order),
    Release(Order),
    Map(u32, u32),
    Unmap(u32),
    /// An access, and the order that waits longest after it.
    Settle(u32, Option<Order>),
    /// An access that brings a block into a cache block.
    Promoted(u32, u32),
    /// So many accesses that bring no order.
    Unanswered(u32, u32),
    /// A tick over the blocks of these cache blocks, and the blocks that are to be cleaned then, in order.
    Tick([bool; 4], [Option<u32>; 3]),
    /// The order that waits longest.
    Take(Option<Order>),
    Set(Key, u64),
    /// Cache blocks from the one on and below the other, and the answer.
    Invalidate(u32, u32, Result<(), Refusal>),
    /// A commit begins.
    Begin,
    /// A commit begins, with these dirty bits where they are given: the image's generation, how many nodes it writes, where
    /// the top of its tree stands, and how many places it uses.
    Image(Option<[bool; 4]>, (u64, usize, Option<Place>)),
    /// No commit begins, for this reason, with these dirty bits where they are given.
    Refused(Option<[bool; 4]>, Refusal),
    /// The running commit ends.
    End,
    /// The generation, and the places in use.
    Commits(u64, u32),
    /// Blocks mapped, entries that came, entries that went.
    Entries(u32, u64, u64),
    Room(u64),
    /// The entry of a cache block: origin block, dirty bit and hint.
    Entry(u32, Option<(u32, bool, u8)>),
    /// What a cache block is held for.
    Holds(u32, Holding),
    /// Where a block of the origin is cached.
    Stands(u32, Option<u32>),
    /// A flush that comes.
    Arrives(Told),
    /// One that got a ticket asks, counted from 0 by their arrival.
    Asks(usize, Told),
    /// Who leads breaks the commit.
    Breaks,
    /// How many nodes a clean image writes that marks the last cache block dirty, and none of the others.
    Marked(usize),
}

/// Makes calls of a desk, and tells whether each was done or not, as it says beside.
// The one function that lets a desk go: proving that is dear.
fn are_done_by<P: Policy>(
    mut desk: Desk<P>,
    alloc: Global,
    calls: &[(Call, bool)],
    tries: Tries,
) -> Result<bool, Refusal> {
    are_done(&mut desk, alloc, calls, tries)
}

fn are_done<P: Policy>(
    desk: &mut Desk<P>,
    alloc: Global,
    calls: &[(Call, bool)],
    tries: Tries,
) -> Result<bool, Refusal> {
    let mut tickets = Vec::new(alloc);
    for (call, done) in calls {
        if is_done_within(desk, alloc, &mut tickets, *call, tries)? != *done {
            return Ok(false);
        }
    }
    Ok(true)
}

fn is_done_within<P: Policy>(
    desk: &mut Desk<P>,
    alloc: Global,
    tickets: &mut Vec<Ticket>,
    call: Call,
    tries: Tries,
) -> Result<bool, Refusal> {
    match (is_done(desk, alloc, tickets, call), tries) {
        (Err(Refusal::Memory), Tries::Two) => is_done(desk, alloc, tickets, call),
        (answer, _) => answer,
    }
}

fn is_done<P: Policy>(
    desk: &mut Desk<P>,
    alloc: Global,
    tickets: &mut Vec<Ticket>,
    call: Call,
) -> Result<bool, Refusal> {
    match call {
        Call::Reserve(order) => Ok(desk.reserve(order).is_ok()),
        Call::Release(order) => Ok(releases(desk, order)),
        Call::Map(b, c) => maps(desk, OBlock(b), CBlock(c)),
        Call::Unmap(b) => Ok(unmaps(desk, OBlock(b))),
        Call::Settle(b, order) => Ok(settles(desk, b, order)),
        Call::Promoted(b, c) => {
            let order = Order::Promote(OBlock(b), CBlock(c));
            Ok(settles(desk, b, Some(order)))
        }
        Call::Unanswered(b, times) => Ok(are_unanswered(desk, b, times)),
        Call::Tick(dirty, cleaned) => ticks::cleans(desk, alloc, &dirty, &cleaned),
        Call::Take(order) => Ok(desk.next_order() == order),
        Call::Set(key, value) => Ok(desk.message(&Message::Set(key, value)).is_ok()),
        Call::Invalidate(begin, end, answer) => invalidates(desk, alloc, begin, end, answer),
        Call::Begin => begins(desk, alloc),
        Call::Image(dirty, image) => commits::has_image(desk, alloc, dirty, image),
        Call::Refused(dirty, refusal) => Ok(commits::is_refused(desk, alloc, dirty, refusal)),
        Call::End => Ok(ends(desk)),
        Call::Commits(generation, used) => {
            let counts = desk.counts();
            Ok(counts.generation == generation && counts.used == used)
        }
        Call::Entries(mapped, came, went) => Ok(have_come(desk, mapped, came, went)),
        Call::Room(room) => Ok(desk.room() == room),
        Call::Entry(c, entry) => Ok(has_entry(desk, c, entry)),
        Call::Holds(c, holding) => Ok(is_held_for(desk, c, holding)),
        Call::Stands(b, place) => Ok(desk.place(OBlock(b)) == place.map(CBlock)),
        Call::Arrives(told) => Ok(sharing::arrives(desk, alloc, tickets)? == told),
        Call::Asks(at, told) => Ok(sharing::asks_at(desk, alloc, tickets, at) == Some(told)),
        Call::Breaks => Ok(sharing::breaks(desk)),
        Call::Marked(nodes) => clean::writes_of_one_mark(desk, alloc, nodes),
    }
}

fn releases<P: Policy>(desk: &mut Desk<P>, order: Order) -> bool {
    let is_live = desk.is_live(order);
    if is_live {
        desk.release(order);
    }
    is_live
}

fn maps<P: Policy>(desk: &mut Desk<P>, b: OBlock, c: CBlock) -> Result<bool, Refusal> {
    let may = desk.may_map(b, c);
    if may {
        desk.map(b, c)?;
    }
    Ok(may)
}

fn unmaps<P: Policy>(desk: &mut Desk<P>, b: OBlock) -> bool {
    let may = desk.may_unmap(b);
    if may {
        desk.unmap(b);
    }
    may
}

fn settles<P: Policy>(desk: &mut Desk<P>, b: u32, order: Option<Order>) -> bool {
    desk.settle(&[OBlock(b)]);
    desk.next_order() == order
}

fn are_unanswered<P: Policy>(desk: &mut Desk<P>, b: u32, times: u32) -> bool {
    for _ in 0..times {
        if !settles(desk, b, None) {
            return false;
        }
    }
    true
}

fn invalidates<P: Policy>(
    desk: &mut Desk<P>,
    alloc: Global,
    begin: u32,
    end: u32,
    answer: Result<(), Refusal>,
) -> Result<bool, Refusal> {
    let range = CBlockRange {
        begin: CBlock(begin),
        end: CBlock(end),
    };
    let ranges = vec![in alloc; range; 1]?;
    let message = Message::InvalidateCblocks(CBlockRanges::new(ranges));
    Ok(desk.message(&message) == answer)
}

/// Whether a commit begins; false where one runs.
fn begins<P: Policy>(desk: &mut Desk<P>, alloc: Global) -> Result<bool, Refusal> {
    match desk.begin_commit(alloc, None) {
        Ok(_) => Ok(true),
        Err(Refusal::Busy) => Ok(false),
        Err(refusal) => Err(refusal),
    }
}

/// Ends the running commit; false where none runs.
fn ends<P: Policy>(desk: &mut Desk<P>) -> bool {
    let runs = desk.is_committing();
    if runs {
        desk.end_commit();
    }
    runs
}

fn have_come<P: Policy>(desk: &Desk<P>, mapped: u32, came: u64, went: u64) -> bool {
    let counts = desk.counts();
    counts.mapped == mapped && counts.promotions == came && counts.demotions == went
}

fn is_held_for<P: Policy>(desk: &Desk<P>, c: u32, wanted: Holding) -> bool {
    c < desk.geometry().cache_blocks && desk.holding(CBlock(c)) == wanted
}

fn has_entry<P: Policy>(desk: &Desk<P>, c: u32, wanted: Option<(u32, bool, u8)>) -> bool {
    if c >= desk.geometry().cache_blocks {
        return false;
    }
    let seen = desk
        .entry(CBlock(c))
        .map(|entry| (entry.origin.0, entry.dirty, entry.hint));
    seen == wanted
}
