//! Starts of suspends, and what a suspend begins with.

ghost use Rattle.std.specs.Prelude.{◌≡◌, ◌<◌, ◌++◌, false, length, replicate, IfOk, IfErr, OnOk, OnErr};
ghost use Rattle.wb_types.specs.declared.refusal.Refusal.TheVariants.{Memory};
ghost use Rattle.wb_promise.specs.Happenings.{AreMapped};
ghost use Rattle.wb_machine.specs.declared.machine.TheConstants.{ACTORS};
ghost use Rattle.wb_machine.specs.Life.{is_suspending, shape_of};
ghost use Rattle.wb_machine.specs.Members.{somebody_suspends, somebody_works};
ghost use Rattle.wb_machine.specs.Serving.{StartsSuspend, block_of_entry};

use crate::keeping::see_desk;
use crate::member::Member;
use crate::phase::Phase;
use std::alloc::Global;
use wb_desk::Desk;
use wb_policy::{Policy, Quiet};
use wb_promise::What;
use wb_types::{CBlock, Entry, Geometry, OBlock, Refusal};

/// An actor gets a suspend, if it has no task; it is refused as busy where another has one. Nobody suspends the target yet. `Memory` where
/// there is none for what a suspend begins with; then nothing has changed.
pub(crate) fn suspend(
    geometry: &Geometry,
    alloc: Global,
    desk: &Desk<Quiet>,
    members: &mut Vec<Member>,
    actor: usize,
) -> Result<What, Refusal>
    requires { actor < length members.old.items }
    ensures ok { IfOk result (λ what. StartsSuspend (shape_of geometry.now ACTORS) desk.now members.old.items actor what members.new.items) }
    ensures err { OnErr result (members.new.items ≡ members.old.items) }
    ensures refusal { IfErr result (λ refusal. refusal ≡ Memory) }
{
    if members[actor].is_busy() {
        return Ok(What::Skipped);
    }
    if is_somebody_busy(members.as_slice()) {
        return Ok(What::Refused(Refusal::Busy));
    }
    let member = &mut members[actor];
    member.suspend(alloc, geometry, desk)?;
    Ok(What::Started)
}

/// Whether one of these is at something.
fn is_somebody_busy(members: &[Member]) -> bool
    ensures { result ≡ somebody_works members.now }
{
    members.iter().any(|member| member.is_busy())
}

/// Whether one of these suspends the target.
pub(crate) fn is_somebody_suspending(members: &[Member]) -> bool
    ensures { result ≡ somebody_suspends members.now }
{
    members.iter().any(|member| member.is_suspending())
}

/// Whether somebody suspends a target that stands.
pub(crate) fn is_suspending(phase: &Phase) -> bool
    ensures { result ≡ is_suspending phase.now }
{
    match phase {
        Phase::Standing(_, members) => is_somebody_suspending(members.as_slice()),
        Phase::Closed | Phase::Underway(_) => false,
    }
}

/// The blocks that a desk maps, by rising cache block. `Memory` where there is none for them.
pub(crate) fn mapped_blocks<P: Policy>(
    alloc: Global,
    desk: &Desk<P>,
) -> Result<Vec<OBlock>, Refusal>
    ensures ok { IfOk result (λ blocks. AreMapped desk.now blocks.items) }
    ensures refusal { IfErr result (λ refusal. refusal ≡ Memory) }
{
    see_desk(desk);
    let mut blocks = Vec::new(alloc);
    for c in 0..desk.geometry().cache_blocks {
        list(&mut blocks, desk.entry(CBlock(c)))?;
    }
    Ok(blocks)
}

/// One more: the block of this entry, if there is one. `Memory` where there is no room for it.
fn list(blocks: &mut Vec<OBlock>, entry: Option<Entry>) -> Result<(), Refusal>
    ensures ok { OnOk result (blocks.new.items ≡ blocks.old.items ++ block_of_entry entry) }
    ensures refusal { IfErr result (λ refusal. refusal ≡ Memory) }
{
    match entry {
        Some(entry) => match blocks.push(entry.origin) {
            Ok(()) => Ok(()),
            Err(_) => Err(Refusal::Memory),
        },
        None => Ok(()),
    }
}

/// For each cache block no bit. `Memory` where there is none for them.
pub(crate) fn no_bits(alloc: Global, cache_blocks: u32) -> Result<Vec<bool>, Refusal>
    ensures ok { IfOk result (λ bits. bits.items ≡ replicate cache_blocks false) }
    ensures refusal { IfErr result (λ refusal. refusal ≡ Memory) }
{
    Ok(vec![in alloc; false; cache_blocks as usize]?)
}
