//! A client of a target.

ghost use Rattle.std.specs.Prelude.{◌≡◌, ◌<◌, [], length};
ghost use Rattle.std.specs.Bool.{OnTrue, OnFalse};
ghost use Rattle.wb_target.specs.Told.{WereSettled};

use crate::target::Target;
use std::sync::Wait;
use wb_disk::Disk;
use wb_policy::Policy;
use wb_port::Port;

/// A client: what it reads and writes by, and the target that it is of. It is not `Drop`: `Target::retire` takes it back.
pub struct Client<'t, D, P: Policy> {
    pub(crate) target: &'t Target<P>,
    pub port: Port<D>,
}

impl<'t, D: Disk + Drop, P: Policy> Client<'t, D, P> {
    pub(crate) fn new(target: &'t Target<P>, port: Port<D>) -> Client<'t, D, P>
        ensures { result.port ≡ port }
    {
        Client { target, port }
    }

    /// What it reads and writes by.
    pub(crate) fn into_port(self) -> Port<D>
        ensures { result ≡ self.entry.port }
    {
        let Client { target: _, port } = self;
        port
    }

    /// The target that it is of.
    pub fn target(&self) -> &'t Target<P>
        ensures { result ≡ self.now.target }
    {
        self.target
    }

    /// Settles its accesses: the policy is told of each, in order, and orders that it gives wait to be taken.
    pub fn settle<R: Wait>(&mut self, rt: &R)
        ensures target { self.new.target ≡ self.old.target }
        ensures told { 0 < length self.old.port.accesses.items → WereSettled P.ordered P.settled self.old.port.accesses.items }
        ensures settled { self.new.port.accesses.items ≡ [] }
        ensures hand { self.new.port.hand ≡ self.old.port.hand }
        ensures geometry { self.new.port.geometry ≡ self.old.port.geometry }
        ensures cells { self.new.port.cells ≡ self.old.port.cells }
    {
        let target = self.target;
        settle_all(rt, target, &mut self.port);
    }

    /// Settles its accesses if nobody else is at the desk now, and waits for nobody: whether none is unsettled. A client that asks so from
    /// time to time seldom has to wait in `settle`.
    pub fn try_settle(&mut self) -> bool
        ensures target { self.new.target ≡ self.old.target }
        ensures told { OnTrue result (WereSettled P.ordered P.settled self.old.port.accesses.items) }
        ensures settled { OnTrue result (self.new.port.accesses.items ≡ []) }
        ensures kept { OnFalse result (self.new.port ≡ self.old.port) }
        ensures hand { self.new.port.hand ≡ self.old.port.hand }
        ensures geometry { self.new.port.geometry ≡ self.old.port.geometry }
        ensures cells { self.new.port.cells ≡ self.old.port.cells }
    {
        let target = self.target;
        try_settle_all(target, &mut self.port)
    }
}

/// Settles a port's accesses.
fn settle_all<R: Wait, D: Disk + Drop, P: Policy>(rt: &R, target: &Target<P>, port: &mut Port<D>)
    ensures told { 0 < length port.old.accesses.items → WereSettled P.ordered P.settled port.old.accesses.items }
    ensures settled { port.new.accesses.items ≡ [] }
    ensures hand { port.new.hand ≡ port.old.hand }
    ensures geometry { port.new.geometry ≡ port.old.geometry }
    ensures cells { port.new.cells ≡ port.old.cells }
{
    if !port.accesses.is_empty() {
        target.settle(rt, port.accesses.as_slice());
        port.accesses.clear();
    }
}

/// Settles a port's accesses if nobody else is at the desk: whether none is unsettled.
fn try_settle_all<D: Disk + Drop, P: Policy>(target: &Target<P>, port: &mut Port<D>) -> bool
    ensures told { OnTrue result (WereSettled P.ordered P.settled port.old.accesses.items) }
    ensures settled { OnTrue result (port.new.accesses.items ≡ []) }
    ensures kept { OnFalse result (port.new ≡ port.old) }
    ensures hand { port.new.hand ≡ port.old.hand }
    ensures geometry { port.new.geometry ≡ port.old.geometry }
    ensures cells { port.new.cells ≡ port.old.cells }
{
    if !target.try_settle(port.accesses.as_slice()) {
        return false;
    }
    port.accesses.clear();
    true
}
