//! Suspends, and what the next opening finds.

use crate::fixture::{Lent, Memory, client_of, formatted, open, shows};
use crate::questions::{Question, answered_over, done_by};
use std::alloc::Global;
use std::sync::Wait;
use std::test::Fail;
use wb_policy::TinyLfu;
use wb_target::Target;
use wb_types::Refusal;

/// Whether the block that was cached and written there is mapped and dirty, and shows that.
pub fn is_kept(rt: &impl Wait, target: &Target<TinyLfu>, client: &mut Lent<'_>) -> bool {
    target.counts(rt).mapped == 1 && target.dirty(rt) == 1 && shows(rt, client, 70, 0x22)
}

/// The devices of a target that was suspended once this was done, and whether both were.
fn suspended_after(
    rt: &impl Wait,
    alloc: Global,
    question: Question,
) -> Result<(Memory, bool), Refusal> {
    let (devices, target) = open(alloc, formatted(alloc)?)?;
    let (devices, done) = done_by(rt, &target, devices, question)?;
    let (devices, answer) = target.suspend(rt, devices);
    Ok((devices, done && answer.is_ok()))
}

#[test]
fn a_suspended_cache_is_opened_as_it_was(rt: HostRuntime) -> Result<(), Fail> {
    let (dirty, done) = suspended_after(&rt, rt.alloc(), Question::CachesAndFlushes)?;
    let is_kept = answered_over(&rt, rt.alloc(), dirty, Question::IsKept);
    assert!(rt; done && is_kept?);
    Ok(())
}

/// Whether a suspend is refused as busy while a client is out.
fn waits_for_clients(rt: &impl Wait, alloc: Global) -> Result<bool, Refusal> {
    let (devices, target) = open(alloc, formatted(alloc)?)?;
    let others = formatted(alloc)?;
    let client = client_of(rt, &target, devices)?;
    let (_, answer) = target.suspend(rt, others);
    target.retire(rt, client);
    Ok(answer == Err(Refusal::Busy))
}

#[test]
fn a_suspend_is_refused_while_a_client_is_out(rt: HostRuntime) -> Result<(), Fail> {
    assert!(rt; waits_for_clients(&rt, rt.alloc())?);
    Ok(())
}
