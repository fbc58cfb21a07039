//! What a client answers to what it is asked.

ghost use Rattle.std.specs.Prelude.{◌≡◌, ◌≢◌, ◌<◌, ◌≤◌, ◌+◌, ◌*◌, ◌^◌, ◌++◌, [], ◌∷◌, ◌⊎◌, ℕ, List, Option, IfOk, IfErr, OnOk, OnErr, IsErrOf, length, string_bytes};
ghost use Rattle.wb_table.specs.Messages.{IsMessage};
ghost use Rattle.wb_table.specs.Words.{words_of};
ghost use Rattle.wb_types.specs.declared.message.Message.{Message};
ghost use Rattle.wb_opened.specs.Deeds.{Messaged};
ghost use Rattle.wb_opened.specs.Inside.{IsInside};
ghost use Rattle.wb_play.specs.Request.{AsksForSectors, AsksInside};
ghost use Rattle.wb_play.specs.Answered.{DidPart, WasAnswered, WentThrough, done_line, filled, worked_line};
ghost use Rattle.wb_play.specs.Played.{BringsMessage};
ghost use Rattle.wb_dialogue.specs.Shown.{AreLinesOf};
ghost use Rattle.wb_play.specs.Stopped.{StoppedAt, IsOutsideOrStopped, NotOfOneBlock, ReadWasNotTried, WriteWasNotTried, CallWasRefused, WorkWasRefused, MessageWasRefused};
ghost use Rattle.wb_opened.specs.Deeds.{TriedRead, TriedWrite, Worked};
ghost use Rattle.wb_policy.specs.declared.order.Order.{Order as CacheOrder};
ghost use Rattle.wb_table.specs.Status.{status_line};
ghost use Rattle.wb_table.specs.declared.status.Fields.{Fields};

use std::alloc::Global;
use std::fmt::Write;
use std::sync::Wait;
use wb_dialogue::{Call, Paced, Part, Room, first_part, message_text, show, without_break};
use wb_opened::Served;
use wb_policy::Order;
use wb_table::read_message;
use wb_types::{CBlock, Extent, Geometry, OBlock, Refusal, Sector};

/// Does what a client is asked, and adds what is answered to the text. After a refusal the text may have what was read so far;
/// finished blocks of a write stay.
///
/// `Range` for no sector, or one outside the origin; `Crosses` for sectors of more than one block, where one alone may be asked
/// for; `Defer` where too many accesses are unsettled; `Busy` where a block is in use; `Io` where a step failed, `Failed` after a
/// write or sync that failed so, `Memory` where there is none, and `GenerationEnd` where no further commit can be.
#[tactic(auto, using(crate::proofs::Answering::said_done, crate::proofs::Answering::refused_before, crate::proofs::Answering::refused_behind))]
pub fn answer<R: Wait, C: Served, P: Paced>(
    rt: &R,
    client: &mut C,
    asked: Call,
    room: &mut Room,
    text: &mut String,
    progress: &mut P,
) -> Result<(), Refusal>
    ensures answered { OnOk result ((printed : List ℕ) × WasAnswered C.did asked client.old printed client.new × (string_bytes text.new ≡ string_bytes text.old ++ printed)) }
    ensures refused { IfErr result (λ refusal. CallWasRefused C.did C.met asked client.old refusal client.new) }
    ensures outside { AsksForSectors asked → ¬ AsksInside asked ((C.sizes client.old).block * (C.sizes client.old).origin_blocks) → IsErrOf result Refusal.Range }
    ensures inside { AsksForSectors asked → IsErrOf result Refusal.Range → ¬ AsksInside asked ((C.sizes client.old).block * (C.sizes client.old).origin_blocks) }
{
    match asked {
        Call::Read { at, count } => {
            go_through(rt, client, at, count, Deed::Show, room, text, progress)
        }
        Call::TryRead { at, count } => try_read(client, at, count, room, text),
        Call::Write { at, count, fill } => {
            let deed = Deed::Fill(fill);
            go_through(rt, client, at, count, deed, room, text, progress)?;
            done(text)
        }
        Call::WriteDurably { at, count, fill } => {
            let deed = Deed::FillDurably(fill);
            go_through(rt, client, at, count, deed, room, text, progress)?;
            done(text)
        }
        Call::TryWrite { at, count, fill } => {
            try_write(client, at, count, fill, room)?;
            done(text)
        }
        Call::Settle => {
            client.settle(rt);
            done(text)
        }
        Call::Flush => {
            client.flush(rt)?;
            done(text)
        }
    }
}

/// Has the client do what a message asks for.
///
/// `BadMessage` for a text that is no message, or one with values or blocks out of range; `WrongMode` for ranges of cache blocks outside
/// passthrough; `Failed`, and `Memory` where there is none for the ranges.
pub fn follow<R: Wait, C: Served>(
    rt: &R,
    alloc: Global,
    client: &mut C,
    text: &str,
) -> Result<(), Refusal>
    ensures done { OnOk result ((message : Message) × IsMessage (words_of text.now) message × C.did client.old (Messaged message) client.new) }
    ensures refused { IfErr result (λ refusal. MessageWasRefused C.met (IsMessage (words_of text.now)) client.old refusal client.new) }
    ensures unread { ((message : Message) → ¬ IsMessage (words_of text.now) message) → IsErrOf result Refusal.BadMessage ⊎ IsErrOf result Refusal.Memory }
{
    match read_message(alloc, text) {
        Ok(message) => client.message(rt, &message),
        Err(refusal) => Err(refusal),
    }
}

/// Has the client do what the message of a line asks for, which may have its line break; refused as `follow`.
pub fn follow_line<R: Wait, C: Served>(
    rt: &R,
    alloc: Global,
    client: &mut C,
    line: &[u8],
) -> Result<(), Refusal>
    ensures done { OnOk result ((message : Message) × BringsMessage line.now message × C.did client.old (Messaged message) client.new) }
    ensures refused { IfErr result (λ refusal. MessageWasRefused C.met (BringsMessage line.now) client.old refusal client.new) }
{
    match message_text(without_break(line)) {
        Some(text) => follow(rt, alloc, client, text),
        None => Err(Refusal::BadMessage),
    }
}

/// Adds that something was done.
pub fn done(text: &mut String) -> Result<(), Refusal>
    ensures line { OnOk result (string_bytes text.new ≡ string_bytes text.old ++ done_line) }
    ensures refused { IfErr result (λ refusal. refusal ≡ Refusal.Memory) }
{
    text.push_str("ok\n")?;
    Ok(())
}

/// What is done of the sectors of one block after the other.
#[derive(Clone, Copy)]
enum Deed {
    /// They are read and shown.
    Show,
    /// They are filled with a byte.
    Fill(u8),
    /// The same, and behind the last what was finished is made durable.
    FillDurably(u8),
}

/// Reads or writes block by block.
fn go_through<R: Wait, C: Served, P: Paced>(
    rt: &R,
    client: &mut C,
    at: Sector,
    count: u64,
    deed: Deed,
    room: &mut Room,
    text: &mut String,
    progress: &mut P,
) -> Result<(), Refusal>
    ensures done { OnOk result ((printed : List ℕ) × WentThrough C.did deed at.0 (at.0 + count) client.old printed client.new × (string_bytes text.new ≡ string_bytes text.old ++ printed)) }
    ensures refused { IfErr result (λ refusal. IsOutsideOrStopped C.did C.met deed at.0 (at.0 + count) client.old refusal client.new) }
    ensures outside { ¬ IsInside at.0 count ((C.sizes client.old).block * (C.sizes client.old).origin_blocks) → IsErrOf result Refusal.Range }
    ensures inside { IsErrOf result Refusal.Range → ¬ IsInside at.0 count ((C.sizes client.old).block * (C.sizes client.old).origin_blocks) }
{
    let geometry = client.geometry();
    let end = end_of(&geometry, at, count)?;
    progress.begin();
    let Sector(mut first) = at;
    while first < end {
        let part = first_part(geometry.block, first, end);
        first += part.count;
        do_part(rt, client, part, deed, first == end, room, text)?;
        progress.reach(count.saturating_sub(end - first), count);
    }
    Ok(())
}

/// Does so in one block, which is the last or not.
#[inline(always)]
#[tactic(auto, using(crate::proofs::Ranges::not_refused))]
fn do_part<R: Wait, C: Served>(
    rt: &R,
    client: &mut C,
    part: Part,
    deed: Deed,
    is_last: bool,
    room: &mut Room,
    text: &mut String,
) -> Result<(), Refusal>
    requires some { 0 < part.count }
    requires numbered { part.first + part.count < 2 ^ 64 }
    requires inside { part.first + part.count ≤ (C.sizes client.old).block * (C.sizes client.old).origin_blocks }
    ensures done { OnOk result ((lines : List ℕ) × DidPart C.did deed is_last part.first part.count client.old lines client.new × (string_bytes text.new ≡ string_bytes text.old ++ lines)) }
    ensures refused { IfErr result (λ refusal. StoppedAt C.did C.met deed is_last part.first part.count client.old refusal client.new) }
    ensures sizes { C.sizes client.new ≡ C.sizes client.old }
    ensures in_range { IfErr result (λ refusal. refusal ≢ Refusal.Range) }
{
    let at = Sector(part.first);
    match deed {
        Deed::Show => {
            room.make(part.count)?;
            client.read(rt, at, room.contents.as_mut_slice())?;
            show(part.first, room.contents.as_slice(), &mut room.lines, text)?;
        }
        Deed::Fill(fill) => {
            room.fill(part.count, fill)?;
            client.write(rt, at, room.contents.as_slice())?;
        }
        Deed::FillDurably(fill) => {
            room.fill(part.count, fill)?;
            if is_last {
                client.write_fua(rt, at, room.contents.as_slice())?;
            } else {
                client.write(rt, at, room.contents.as_slice())?;
            }
        }
    }
    Ok(())
}

/// Reads sectors of one block, if that can be had without waiting.
#[tactic(auto, using(crate::proofs::Ranges::not_refused))]
fn try_read<C: Served>(
    client: &mut C,
    at: Sector,
    count: u64,
    room: &mut Room,
    text: &mut String,
) -> Result<(), Refusal>
    ensures done { OnOk result ((content : List (List ℕ)) × (lines : List ℕ) × (length content ≡ count) × C.did client.old (TriedRead at.0 content) client.new × AreLinesOf lines at.0 content × (string_bytes text.new ≡ string_bytes text.old ++ lines)) }
    ensures refused { IfErr result (λ refusal. ReadWasNotTried C.did C.met at.0 count client.old refusal client.new) }
    ensures outside { ¬ IsInside at.0 count ((C.sizes client.old).block * (C.sizes client.old).origin_blocks) → IsErrOf result Refusal.Range }
    ensures inside { IsErrOf result Refusal.Range → ¬ IsInside at.0 count ((C.sizes client.old).block * (C.sizes client.old).origin_blocks) }
{
    in_one_block(&client.geometry(), at, count)?;
    room.make(count)?;
    client.try_read(at, room.contents.as_mut_slice())?;
    let Sector(first) = at;
    show(first, room.contents.as_slice(), &mut room.lines, text)?;
    Ok(())
}

/// Writes sectors of one block, if that can be done without waiting.
#[tactic(auto, using(crate::proofs::Ranges::not_refused))]
fn try_write<C: Served>(
    client: &mut C,
    at: Sector,
    count: u64,
    fill: u8,
    room: &mut Room,
) -> Result<(), Refusal>
    ensures done { OnOk result (C.did client.old (TriedWrite at.0 (filled count fill)) client.new) }
    ensures refused { IfErr result (λ refusal. WriteWasNotTried C.met at.0 count fill client.old refusal client.new) }
    ensures outside { ¬ IsInside at.0 count ((C.sizes client.old).block * (C.sizes client.old).origin_blocks) → IsErrOf result Refusal.Range }
    ensures inside { IsErrOf result Refusal.Range → ¬ IsInside at.0 count ((C.sizes client.old).block * (C.sizes client.old).origin_blocks) }
{
    in_one_block(&client.geometry(), at, count)?;
    room.fill(count, fill)?;
    client.try_write(at, room.contents.as_slice())
}

/// Tells how the cache is, on a line.
pub fn status<R: Wait, C: Served>(rt: &R, client: &C, text: &mut String) -> Result<(), Refusal>
    ensures line { OnOk result ((told : Fields) × (string_bytes text.new ≡ string_bytes text.old ++ status_line told ++ 10 ∷ [])) }
    ensures refused { IfErr result (λ refusal. refusal ≡ Refusal.Memory) }
{
    client.status(rt, text)?;
    text.push_str("\n")?;
    Ok(())
}

/// Carries out an order, if any waits, and says which.
pub fn work<R: Wait, C: Served>(rt: &R, client: &mut C, text: &mut String) -> Result<(), Refusal>
    ensures worked { OnOk result ((order : Option CacheOrder) × C.did client.old (Worked order) client.new × (string_bytes text.new ≡ string_bytes text.old ++ worked_line order)) }
    ensures refused { IfErr result (λ refusal. WorkWasRefused C.did C.met client.old refusal client.new) }
{
    let Some(order) = client.work_one(rt)? else {
        text.push_str("idle\n")?;
        return Ok(());
    };
    match order {
        Order::Promote(OBlock(b), CBlock(c)) => writeln!(text, "promoted {b} to {c}")?,
        Order::Replace(OBlock(v), OBlock(x), CBlock(c)) => {
            writeln!(text, "replaced {v} by {x} at {c}")?
        }
        Order::Demote(OBlock(b)) => writeln!(text, "demoted {b}")?,
        Order::Clean(OBlock(b)) => writeln!(text, "cleaned {b}")?,
    }
    Ok(())
}

/// The sector after the last of a request; `Range` for no sector, or one outside the origin.
fn end_of(geometry: &Geometry, at: Sector, count: u64) -> Result<u64, Refusal>
    ensures end { IfOk result (λ end. end ≡ at.0 + count) }
    ensures some { IfOk result (λ end. at.0 < end) }
    ensures inside { IfOk result (λ end. end ≤ geometry.now.block * geometry.now.origin_blocks) }
    ensures refused { IfErr result (λ refusal. refusal ≡ Refusal.Range) }
    ensures outside { OnErr result (¬ IsInside at.0 count (geometry.now.block * geometry.now.origin_blocks)) }
{
    let Sector(first) = at;
    let asked = Extent { first, count };
    if !asked.is_some_within(geometry.origin_sectors()) {
        return Err(Refusal::Range);
    }
    Ok(first + count)
}

/// `Range` as `end_of`, and `Crosses` for sectors of more than one block: before there is a buffer for them.
fn in_one_block(geometry: &Geometry, at: Sector, count: u64) -> Result<(), Refusal>
    ensures numbered { OnOk result (at.0 + count < 2 ^ 64) }
    ensures refused { IfErr result NotOfOneBlock }
    ensures outside { ¬ IsInside at.0 count (geometry.now.block * geometry.now.origin_blocks) → IsErrOf result Refusal.Range }
    ensures inside { IsErrOf result Refusal.Range → ¬ IsInside at.0 count (geometry.now.block * geometry.now.origin_blocks) }
{
    end_of(geometry, at, count)?;
    let Sector(first) = at;
    let size = u64::from(geometry.block);
    let in_block = Extent {
        first: first % size,
        count,
    };
    if !in_block.is_within(size) {
        return Err(Refusal::Crosses);
    }
    Ok(())
}

/// How many lines an answer may have: one, or one for each sector that is read.
pub fn most_lines(geometry: &Geometry, asked: Call) -> u64
    ensures { 0 < result }
{
    match asked {
        Call::Read { at, count } if end_of(geometry, at, count).is_ok() => count.max(1),
        Call::TryRead { at, count } if in_one_block(geometry, at, count).is_ok() => count.max(1),
        _ => 1,
    }
}
