//! Workers: clients that carry out orders on their own thread, as long as a gate lets them.

ghost use Rattle.std.specs.Prelude.{◌≡◌, OnOk, IfOk, IfErr, None, true, false};
ghost use Rattle.std.specs.Bool.{OnTrue, OnFalse};
ghost use Rattle.wb_target.specs.declared.gate.Point.TheVariants.{Order as BeforeOrder};
ghost use Rattle.wb_target.specs.Carried.{client_state, Runs};
ghost use Rattle.wb_target.specs.Works.{AskedSharing};
ghost use Rattle.wb_target.specs.Told.{WasNext};
ghost use Rattle.wb_target.specs.Workers.{IsFailure, IsNotReady, HasBuffer, EndedBy, FailedAfter, Took, StoppedAt};

use crate::carrying::{carry_out, take_buffer};
use crate::client::Client;
use crate::gate::{Gate, Point};
use crate::target::Target;
use std::alloc::Global;
use std::sync::Wait;
use std::thread;
use wb_disk::Disk;
use wb_policy::{Order, Policy};
use wb_port::Port;
use wb_types::{OBlock, Refusal};

impl<'t, D: Disk + Drop, P: Policy> Client<'t, D, P> {
    /// Carries out orders, the one that waits longest first, until the gate ends it. The gate is asked before each order, before
    /// each step on a device, and where no order waits; a no before an order or where none waits ends it, with no order taken.
    /// An order that there is no memory for, no next generation, or a block that cannot be read, is given up alone.
    ///
    /// `Failed` where the target has failed; `Io` where a write or sync of its own failed.
    pub fn worker<R: Wait, G: Gate>(&mut self, rt: &R, gate: &G) -> Result<(), Refusal>
        ensures ended { OnOk result (EndedBy (Runs D.tells D.size D.contents D.faults (AskedSharing P.with_entry P.without_entry) self.old.port.geometry.origin_blocks) (WasNext P) self.old.port.geometry G.answers gate.now (client_state self.old.port) (client_state self.new.port)) }
        ensures refused { IfErr result IsFailure }
        ensures failed { IfErr result (λ refusal. FailedAfter (Runs D.tells D.size D.contents D.faults (AskedSharing P.with_entry P.without_entry) self.old.port.geometry.origin_blocks) (WasNext P) self.old.port.geometry G.answers gate.now refusal (client_state self.old.port) (client_state self.new.port)) }
        ensures target { self.new.target ≡ self.old.target }
        ensures geometry { self.new.port.geometry ≡ self.old.port.geometry }
    {
        let target = self.target;
        work_off(rt, target, gate, &mut self.port)
    }
}

/// Carries out orders on a port until the gate ends it.
fn work_off<R: Wait, D: Disk + Drop, P: Policy, G: Gate>(
    rt: &R,
    target: &Target<P>,
    gate: &G,
    port: &mut Port<D>,
) -> Result<(), Refusal>
    ensures ended { OnOk result (EndedBy (Runs D.tells D.size D.contents D.faults (AskedSharing P.with_entry P.without_entry) port.old.geometry.origin_blocks) (WasNext P) port.old.geometry G.answers gate.now (client_state port.old) (client_state port.new)) }
    ensures refused { IfErr result IsFailure }
    ensures failed { IfErr result (λ refusal. FailedAfter (Runs D.tells D.size D.contents D.faults (AskedSharing P.with_entry P.without_entry) port.old.geometry.origin_blocks) (WasNext P) port.old.geometry G.answers gate.now refusal (client_state port.old) (client_state port.new)) }
    ensures geometry { port.new.geometry ≡ port.old.geometry }
{
    for _ in rt.forever() {
        if port.has_failed() {
            return Err(Refusal::Failed);
        }
        if !gate.go_on(Point::Order) {
            return Ok(());
        }
        if take_turn(rt, target, gate, port)? {
            continue;
        }
        if !gate.go_on(Point::Idle) {
            return Ok(());
        }
        thread::yield_now();
    }
    unreachable!()
}

/// Takes an order and carries it out, or gives it up, where the gate let it be taken: whether one waited. Refused only where the
/// target has failed.
fn take_turn<R: Wait, D: Disk + Drop, P: Policy, G: Gate>(
    rt: &R,
    target: &Target<P>,
    gate: &G,
    port: &mut Port<D>,
) -> Result<bool, Refusal>
    requires let_by { G.answers gate.now BeforeOrder true }
    ensures took { IfOk result (λ took. took ≡ true → Took (Runs D.tells D.size D.contents D.faults (AskedSharing P.with_entry P.without_entry) port.old.geometry.origin_blocks) (WasNext P) port.old.geometry (client_state port.old) (client_state port.new)) }
    ensures none_waits { IfOk result (λ took. took ≡ false → client_state port.new ≡ client_state port.old) }
    ensures none_next { IfOk result (λ took. took ≡ false → WasNext P None) }
    ensures refused { IfErr result IsFailure }
    ensures stopped { IfErr result (λ refusal. StoppedAt (Runs D.tells D.size D.contents D.faults (AskedSharing P.with_entry P.without_entry) port.old.geometry.origin_blocks) (WasNext P) port.old.geometry (client_state port.old) (client_state port.new)) }
    ensures geometry { port.new.geometry ≡ port.old.geometry }
{
    let Some(order) = target.take_order(rt, port.geometry) else {
        return Ok(false);
    };
    if !is_ready(target.alloc, port) {
        target.release(rt, &[order], block_of(order));
        return Ok(true);
    }
    match carry_out(rt, target, gate, port, order) {
        Ok(()) => Ok(true),
        Err(_) if !port.has_failed() => Ok(true),
        Err(Refusal::Io(device)) => Err(Refusal::Io(device)),
        Err(_) => Err(Refusal::Failed),
    }
}

/// Whether an order that was taken can be begun: there is a buffer, its own or a new one.
fn is_ready<D>(alloc: Global, port: &mut Port<D>) -> bool
    ensures buffer { OnTrue result (HasBuffer (client_state port.old) (client_state port.new)) }
    ensures not { OnFalse result (IsNotReady (client_state port.old) (client_state port.new)) }
    ensures geometry { port.new.geometry ≡ port.old.geometry }
{
    take_buffer(alloc, port).is_ok()
}

/// A block of an order, by which it is told from others that live.
fn block_of(order: Order) -> OBlock {
    match order {
        Order::Promote(block, _)
        | Order::Demote(block)
        | Order::Clean(block)
        | Order::Replace(block, _, _) => block,
    }
}
