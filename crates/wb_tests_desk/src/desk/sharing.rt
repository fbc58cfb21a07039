//! Flushes that share a commit.

use super::{Call, are_answered};
use std::alloc::{AllocError, Global};
use std::test::Fail;
use wb_desk::{Arrival, Asked, Desk, Ticket};
use wb_policy::Policy;
use wb_types::{Mode, Refusal};

/// What a flush is told.
#[derive(Clone, Copy, PartialEq)]
pub(super) enum Told {
    Leads,
    /// It got a ticket, or waits on.
    Waits,
    /// A commit of this number has ended.
    Served(u64),
    Refused(Refusal),
}

pub(super) fn arrives<P: Policy>(
    desk: &mut Desk<P>,
    alloc: Global,
    tickets: &mut Vec<Ticket>,
) -> Result<Told, Refusal> {
    match desk.arrive(alloc) {
        Ok(Arrival::Lead(image)) => {
            drop(image);
            Ok(Told::Leads)
        }
        Ok(Arrival::Ticket(ticket)) => match tickets.push(ticket) {
            Ok(()) => Ok(Told::Waits),
            Err(e) => Err(AllocError::from(e).into()),
        },
        Err(refusal) => Ok(Told::Refused(refusal)),
    }
}

/// What the flush with this ticket is told; none has it where it is past the last.
pub(super) fn asks_at<P: Policy>(
    desk: &mut Desk<P>,
    alloc: Global,
    tickets: &[Ticket],
    at: usize,
) -> Option<Told> {
    Some(asks(desk, alloc, tickets.get(at)?))
}

/// Breaks the commits, which leaves whether one runs.
pub(super) fn breaks<P: Policy>(desk: &mut Desk<P>) -> bool {
    let runs = desk.is_committing();
    desk.break_commit();
    desk.is_committing() == runs
}

fn asks<P: Policy>(desk: &mut Desk<P>, alloc: Global, ticket: &Ticket) -> Told {
    match desk.ask(alloc, ticket) {
        Ok(Asked::Served(receipt)) => Told::Served(receipt.number()),
        Ok(Asked::Lead(image)) => {
            drop(image);
            Told::Leads
        }
        Ok(Asked::Wait) => Told::Waits,
        Err(refusal) => Told::Refused(refusal),
    }
}

/// Two that come while the first commit runs share the second, and then each is told the last that ended.
const SHARED: [(Call, bool); 13] = [
    (Call::Arrives(Told::Leads), true),
    (Call::Arrives(Told::Waits), true),
    (Call::Arrives(Told::Waits), true),
    (Call::Asks(0, Told::Waits), true),
    (Call::End, true),
    (Call::Asks(0, Told::Leads), true),
    (Call::Asks(1, Told::Waits), true),
    (Call::End, true),
    (Call::Asks(1, Told::Served(2)), true),
    (Call::Asks(0, Told::Served(2)), true),
    (Call::Arrives(Told::Leads), true),
    (Call::End, true),
    (Call::Asks(1, Told::Served(3)), true),
];

/// After a break none leads and none waits, while a commit runs and when it has ended; who was served still is.
const BROKEN: [(Call, bool); 14] = [
    (Call::Arrives(Told::Leads), true),
    (Call::Arrives(Told::Waits), true),
    (Call::End, true),
    (Call::Arrives(Told::Leads), true),
    (Call::Arrives(Told::Waits), true),
    (Call::End, true),
    (Call::Asks(1, Told::Leads), true),
    (Call::Arrives(Told::Waits), true),
    (Call::Breaks, true),
    (Call::Arrives(Told::Refused(Refusal::Failed)), true),
    (Call::Asks(2, Told::Refused(Refusal::Failed)), true),
    (Call::Asks(0, Told::Served(2)), true),
    (Call::End, true),
    (Call::Arrives(Told::Refused(Refusal::Failed)), true),
];

#[test]
fn flushes_that_wait_share_the_next_commit(rt: HostRuntime) -> Result<(), Fail> {
    assert!(rt; are_answered(rt.alloc(), 7, Mode::Writeback, &[], &SHARED)?);
    Ok(())
}

#[test]
fn a_broken_commit_serves_none_but_those_that_it_served(rt: HostRuntime) -> Result<(), Fail> {
    assert!(rt; are_answered(rt.alloc(), 7, Mode::Writeback, &[], &BROKEN)?);
    Ok(())
}

const NONE_LEADS: [(Call, bool); 1] = [(
    Call::Arrives(Told::Refused(Refusal::GenerationEnd)),
    true,
)];

#[test]
fn no_flush_leads_past_the_last_generation(rt: HostRuntime) -> Result<(), Fail> {
    assert!(rt; are_answered(rt.alloc(), u64::MAX, Mode::Writeback, &[], &NONE_LEADS)?);
    Ok(())
}
