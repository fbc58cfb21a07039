//! What is asked of a target over formatted devices in memory, and of a client of it, which then goes.

use crate::caching::{caches, caches_and_flushes};
use crate::fixture::{Lent, Memory, client_of, formatted, open, worked};
use crate::requests::settles_alone;
use crate::retiring::writes_twice;
use crate::sharing::leads_alone;
use crate::suspends::is_kept;
use crate::workers::{carries_out_all, takes_no_more};
use std::alloc::Global;
use std::sync::Wait;
use wb_policy::{Order, TinyLfu};
use wb_target::Target;
use wb_types::Refusal;

#[derive(Clone, Copy)]
pub enum Question {
    Caches,
    CachesAndFlushes,
    SettlesAlone,
    TakesNoMore,
    CarriesOutAll,
    /// Whether the first sector is written twice without a wait.
    WritesTwice,
    /// Whether this order waits.
    Finds(Order),
    /// Whether a cached block is there, dirty, and shown as it was written.
    IsKept,
    /// Whether it leads each of its flushes.
    LeadsAlone,
}

/// The answer over new devices.
pub fn answered(rt: &impl Wait, alloc: Global, question: Question) -> Result<bool, Refusal> {
    answered_over(rt, alloc, formatted(alloc)?, question)
}

/// That over these.
pub fn answered_over(
    rt: &impl Wait,
    alloc: Global,
    devices: Memory,
    question: Question,
) -> Result<bool, Refusal> {
    let (devices, target) = open(alloc, devices)?;
    answered_of(rt, &target, devices, question)
}

/// That of a client of this one.
pub fn answered_of(
    rt: &impl Wait,
    target: &Target<TinyLfu>,
    devices: Memory,
    question: Question,
) -> Result<bool, Refusal> {
    let (_, answer) = done_by(rt, target, devices, question)?;
    Ok(answer)
}

/// The same, and the devices once the client has gone.
pub fn done_by(
    rt: &impl Wait,
    target: &Target<TinyLfu>,
    devices: Memory,
    question: Question,
) -> Result<(Memory, bool), Refusal> {
    let mut client = client_of(rt, target, devices)?;
    let done = answer(rt, target, &mut client, question);
    Ok((target.retire(rt, client), done))
}

fn answer(
    rt: &impl Wait,
    target: &Target<TinyLfu>,
    client: &mut Lent<'_>,
    question: Question,
) -> bool {
    match question {
        Question::Caches => caches(rt, target, client),
        Question::CachesAndFlushes => caches_and_flushes(rt, client),
        Question::SettlesAlone => settles_alone(rt, client),
        Question::TakesNoMore => takes_no_more(rt, client),
        Question::CarriesOutAll => carries_out_all(rt, target, client),
        Question::WritesTwice => writes_twice(client),
        Question::Finds(order) => worked(rt, client) == Some(order),
        Question::IsKept => is_kept(rt, target, client),
        Question::LeadsAlone => leads_alone(rt, target, client),
    }
}
