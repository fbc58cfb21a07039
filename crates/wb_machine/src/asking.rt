//! The desk is asked for a commit, for an entry, to let one go, or to give up an order, by the one performer of such steps.

ghost use Rattle.std.specs.Prelude.{◌≡◌, ℕ, length, All, IfSome};
ghost use Rattle.wb_types.specs.declared.number.Place.{Place as PlaceValue};
ghost use Rattle.wb_format.specs.declared.node.Node.{Node as NodeValue};
ghost use Rattle.wb_tasks.specs.Plan.{Fits};
ghost use Rattle.wb_tasks.specs.declared.step.Want.TheVariants.{Desk as OnDesk};
ghost use Rattle.wb_tasks.specs.declared.step.Got.TheVariants.{Began};
ghost use Rattle.std.specs.Bool.{OnTrue, OnFalse};
ghost use Rattle.wb_stage.specs.Sharing.{MayAskNow, share_then};
ghost use Rattle.wb_promise.specs.declared.job.Job.{Job};
ghost use Rattle.wb_promise.specs.Happenings.{AreWhole, Awaits, IsWholeNode};
ghost use Rattle.wb_machine.specs.Serving.{Allows, IsAskable, DeskWasAsked};

use std::alloc::Global;
use wb_desk::Desk;
use wb_devices::RunningCommit;
use wb_format::Node;
use wb_policy::{Order, Quiet};
use wb_stage::{Share, asking};
use wb_tasks::{DeskStep, Got, Want};
use wb_types::Place;

/// A commit begins, ends or is broken, a flush arrives or asks with a ticket, a block gets its entry or loses it, or one of these orders of a
/// job is given up; and what that gave. A suspend's commit begins with these dirty bits, which it has seen.
pub(crate) fn ask(
    alloc: Global,
    desk: &mut Desk<Quiet>,
    commit: &mut Option<RunningCommit>,
    held: &[Order],
    seen: &[bool],
    share: &mut Share,
    step: DeskStep,
) -> Got
    requires enough { Allows desk.old.geometry seen.now (OnDesk step) }
    requires goes_on { MayAskNow desk.old share.old step }
    ensures asked { (job : Job) → IsAskable commit.old job step → DeskWasAsked desk.old commit.old job held.now seen.now share.old step result desk.new commit.new }
    ensures kind { Fits (OnDesk step) result }
    ensures share { share.new ≡ share_then desk.old share.old step result }
{
    match step {
        DeskStep::BeginCommit(most) => {
            let got = asking::begin_commit(alloc, desk, commit, seen, most);
            see_begun(got, &*commit);
            got
        }
        _ => {
            let got = asking::ask(alloc, desk, commit, share, held, step);
            see_begun(got, &*commit);
            got
        }
    }
}

/// Whether who takes this step next has to wait for a commit that another leads.
pub(crate) fn awaits(desk: &Desk<Quiet>, share: &Share, want: Want) -> bool
    ensures waits { OnTrue result (Awaits desk.now share.now want) }
    ensures other { OnFalse result (¬ Awaits desk.now share.now want) }
{
    match want {
        Want::Desk(DeskStep::Ask(_)) => asking::must_wait(desk, share),
        _ => false,
    }
}

/// The image of a commit has whole nodes. It does nothing.
pub(crate) fn see_commit(commit: &Option<RunningCommit>)
    ensures { IfSome commit.now (λ running. AreWhole running.image) }
{
    if let Some(running) = commit {
        see_whole(running.image().nodes.as_slice());
    }
}

/// So has the image of a commit that has begun. It does nothing.
fn see_begun(got: Got, commit: &Option<RunningCommit>)
    ensures { (nodes : ℕ) → got ≡ Began nodes → IfSome commit.now (λ running. AreWhole running.image) }
{
    match got {
        Got::Began(_) => see_commit(commit),
        _ => {}
    }
}

/// Each node has all its words, and numbers of their types. It does nothing.
fn see_whole(nodes: &[(Place, Node)])
    ensures { All (λ (node : PlaceValue × NodeValue). IsWholeNode node.1) nodes.now }
{
    for node in nodes {
        see_node(node.1);
    }
}

/// A node is whole, as its type has it. It does nothing.
fn see_node(node: Node)
    ensures { IsWholeNode node }
{
    let _ = node;
}
