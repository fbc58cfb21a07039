//! Steps on the desk, each by one call of it. What the desk cannot be asked now is not done.

ghost use Rattle.std.specs.Prelude.{◌≡◌, ◌<◌, ◌^◌, length, Some};
ghost use Rattle.std.specs.Bool.{OnTrue, OnFalse};
ghost use Rattle.wb_tasks.specs.Plan.{Fits};
ghost use Rattle.wb_tasks.specs.declared.step.Want.TheVariants.{Desk as AskDesk};
ghost use Rattle.wb_tasks.specs.declared.step.DeskStep.TheVariants.{Map, Arrive, Ask, BeginCommit};
ghost use Rattle.wb_tasks.specs.declared.step.Got.TheVariants.{Began};
ghost use Rattle.wb_meta.specs.Placing.{HavePlaces};
ghost use Rattle.wb_meta.specs.declared.commit_steps.CommitSteps.TheVariants.{NodesWritten};
ghost use Rattle.wb_devices.specs.declared.running.RunningCommit.{RunningCommit as RunningCommitTerm};
ghost use Rattle.wb_stage.specs.Asking.{DidMap, DidUnmap, DidRelease, is_of, order_of, ended};
ghost use Rattle.wb_stage.specs.Sharing.{ShareIsCovered, MustWait, MayAskNow, share_then};
ghost use Rattle.wb_stage.specs.declared.share.Share.TheVariants.{Nothing, Waiting};
ghost use Rattle.wb_stage.specs.Stages.{DidAsk, DidArrive, DidAskWith, DidBeginWith, EndsWith, IsServed, is_all_done};

use crate::share::Share;
use std::alloc::Global;
use std::mem;
use wb_desk::{Arrival, Asked, Desk, Ticket};
use wb_devices::RunningCommit;
use wb_meta::Image;
use wb_policy::{Order, Policy};
use wb_tasks::{DeskStep, Got};
use wb_types::{CBlock, OBlock, Refusal};

/// Performs a step on the desk, for who runs this commit, if any, has this of the commits that others lead, and has taken these
/// orders. Who asks with a ticket has not to wait: see `must_wait`.
pub fn ask<P: Policy>(
    alloc: Global,
    desk: &mut Desk<P>,
    commit: &mut Option<RunningCommit>,
    share: &mut Share,
    held: &[Order],
    step: DeskStep,
) -> Got
    requires served { IsServed (AskDesk step) }
    requires goes_on { MayAskNow desk.old share.old step }
    ensures kind { Fits (AskDesk step) result }
    ensures did { DidAsk P.with_entry P.without_entry held.now step share.old result desk.old commit.old desk.new commit.new }
    ensures share { share.new ≡ share_then desk.old share.old step result }
{
    match step {
        DeskStep::Map(block, to) => map(desk, block, to),
        DeskStep::Unmap(block) => {
            unmap(desk, block);
            Got::Done
        }
        DeskStep::ReleaseOrder(block) => {
            release(desk, held, block);
            Got::Done
        }
        DeskStep::Arrive(most) => arrive(alloc, desk, commit, share, most),
        DeskStep::Ask(most) => match mem::replace(share, Share::Nothing) {
            Share::Waiting(ticket) => ask_with(alloc, desk, ticket, commit, share, most),
            Share::Nothing | Share::Covered(_) => arrive(alloc, desk, commit, share, most),
        },
        // It is asked for with the dirty bits that were seen: see `begin_commit`.
        DeskStep::BeginCommit(_) => unreachable!(),
        DeskStep::EndCommit => {
            end_commit(desk, commit);
            Got::Done
        }
        DeskStep::BreakCommit => {
            desk.break_commit();
            Got::Done
        }
    }
}

/// Whether who asks with this has to wait: no commit is broken, one runs, and none has ended that covers it.
pub fn must_wait<P: Policy>(desk: &Desk<P>, share: &Share) -> bool
    ensures waits { OnTrue result (MustWait desk.now share.now) }
    ensures goes_on { OnFalse result (¬ MustWait desk.now share.now) }
{
    desk.is_committing() && !desk.is_broken() && !is_covered(desk, share)
}

/// Whether a commit has ended that covers who waits with this.
fn is_covered<P: Policy>(desk: &Desk<P>, share: &Share) -> bool
    ensures covered { OnTrue result (ShareIsCovered desk.now share.now) }
    ensures other { OnFalse result (¬ ShareIsCovered desk.now share.now) }
{
    match share {
        Share::Waiting(ticket) => desk.covers(ticket),
        Share::Nothing | Share::Covered(_) => false,
    }
}

/// A flush leads a commit of at most so many nodes where none runs, and gets a ticket where one does. `Failed`, `GenerationEnd` and
/// `Memory` as the desk says; `Memory` also where an image may have more nodes. Then nothing changed.
fn arrive<P: Policy>(
    alloc: Global,
    desk: &mut Desk<P>,
    commit: &mut Option<RunningCommit>,
    share: &mut Share,
    most: u32,
) -> Got
    ensures kind { Fits (AskDesk (Arrive most)) result }
    ensures did { DidArrive most result desk.old commit.old desk.new commit.new }
    ensures share { share.new ≡ share_then desk.old share.old (Arrive most) result }
{
    *share = Share::Nothing;
    if desk.most_nodes(false) > most {
        return Got::Refused(Refusal::Memory);
    }
    match desk.arrive(alloc) {
        Ok(Arrival::Lead(image)) => lead(commit, image),
        Ok(Arrival::Ticket(ticket)) => {
            *share = Share::Waiting(ticket);
            Got::Ticket
        }
        Err(refusal) => Got::Refused(refusal),
    }
}

/// A flush that has not to wait asks with its ticket: it gets a receipt where a commit has ended that covers it, else it leads one of at
/// most so many nodes. Refused as `arrive`.
fn ask_with<P: Policy>(
    alloc: Global,
    desk: &mut Desk<P>,
    ticket: Ticket,
    commit: &mut Option<RunningCommit>,
    share: &mut Share,
    most: u32,
) -> Got
    requires goes_on { ¬ MustWait desk.old (Waiting ticket) }
    requires given { share.old ≡ Nothing }
    ensures kind { Fits (AskDesk (Ask most)) result }
    ensures did { DidAskWith (Waiting ticket) most result desk.old commit.old desk.new commit.new }
    ensures share { share.new ≡ share_then desk.old (Waiting ticket) (Ask most) result }
{
    if desk.most_nodes(false) > most {
        return Got::Refused(Refusal::Memory);
    }
    match desk.ask(alloc, &ticket) {
        Ok(Asked::Served(receipt)) => {
            *share = Share::Covered(receipt);
            Got::Served
        }
        Ok(Asked::Lead(image)) => lead(commit, image),
        Ok(Asked::Wait) => unreachable!(),
        Err(refusal) => Got::Refused(refusal),
    }
}

/// The commit of an image that the desk gave, before its first step.
fn lead(commit: &mut Option<RunningCommit>, image: Image) -> Got
    requires places { HavePlaces image.nodes.items image.root.geometry.meta_sectors }
    requires few { length image.nodes.items < 2 ^ 32 }
    ensures got { result ≡ Began (length image.nodes.items) }
    ensures commit { (begun : RunningCommitTerm) × (commit.new ≡ Some begun) × (begun.steps ≡ NodesWritten 0) × (begun.image ≡ image) }
{
    let begun = RunningCommit::new(image);
    let nodes = begun.nodes() as u32;
    *commit = Some(begun);
    Got::Began(nodes)
}

/// Begins the commit of a suspend, of at most so many nodes: its root is marked clean, and what is read of its image has the dirty bits
/// that the seals told, by cache block, and the policy's hints. `Busy`, `GenerationEnd` and `Memory` as the desk says; `Memory` also
/// where a clean image may have more nodes. Then nothing changed.
pub fn begin_commit<P: Policy>(
    alloc: Global,
    desk: &mut Desk<P>,
    commit: &mut Option<RunningCommit>,
    seen: &[bool],
    most: u32,
) -> Got
    requires { length seen.now ≡ desk.old.geometry.cache_blocks }
    ensures kind { Fits (AskDesk (BeginCommit most)) result }
    ensures did { DidBeginWith P.hint_of seen.now most result desk.old commit.old desk.new commit.new }
{
    if desk.most_nodes(true) > most {
        return Got::Refused(Refusal::Memory);
    }
    match desk.begin_commit(alloc, Some(seen)) {
        Ok(image) => lead(commit, image),
        Err(refusal) => Got::Refused(refusal),
    }
}

/// Enters a block into the mapping. `Memory` where the desk has none, or where no order brings the block there.
pub fn map<P: Policy>(desk: &mut Desk<P>, block: OBlock, to: CBlock) -> Got
    ensures kind { Fits (AskDesk (Map block to)) result }
    ensures did { DidMap P.with_entry block to result desk.old desk.new }
{
    if !desk.may_map(block, to) {
        return Got::Refused(Refusal::Memory);
    }
    match desk.map(block, to) {
        Ok(()) => Got::Done,
        Err(refusal) => Got::Refused(refusal),
    }
}

/// Removes a block from the mapping; nothing where it has no entry, or an order under which the entry stays.
pub fn unmap<P: Policy>(desk: &mut Desk<P>, block: OBlock)
    ensures { DidUnmap P.without_entry block desk.old desk.new }
{
    if desk.may_unmap(block) {
        desk.unmap(block);
    }
}

/// Gives up the order of a block, which is one of these; nothing where none of them is, or it lives no longer.
#[tactic(auto, using(crate::proofs::Releasing::dead_order))]
pub fn release<P: Policy>(desk: &mut Desk<P>, held: &[Order], block: OBlock)
    ensures { DidRelease held.now block desk.old desk.new }
{
    if let Some(order) = order_of(held, block) {
        if desk.is_live(order) {
            desk.release(order);
        }
    }
}

/// Ends the running commit, if one runs.
pub fn end<P: Policy>(desk: &mut Desk<P>)
    ensures { desk.new ≡ ended desk.old }
{
    if desk.is_committing() {
        desk.end_commit();
    }
}

/// The commit ends, where all of it was done.
fn end_commit<P: Policy>(desk: &mut Desk<P>, commit: &mut Option<RunningCommit>)
    ensures { EndsWith (is_all_done commit.old) desk.old commit.old desk.new commit.new }
{
    let is_done = match &*commit {
        Some(commit) => commit.is_done(),
        None => false,
    };
    if is_done {
        end(desk);
        *commit = None;
    }
}

/// The first of these orders that is one of the block.
fn order_of(held: &[Order], block: OBlock) -> Option<Order>
    ensures { result ≡ order_of block held.now }
{
    for order in held {
        if is_of(block, *order) {
            return Some(*order);
        }
    }
    None
}

/// Whether an order is one of the block.
pub fn is_of(block: OBlock, order: Order) -> bool
    ensures { result ≡ is_of block order }
{
    match order {
        Order::Replace(victim, new, _) => victim == block || new == block,
        Order::Promote(named, _) | Order::Demote(named) | Order::Clean(named) => named == block,
    }
}
