//! What is printed at a join.

ghost use Rattle.std.specs.Prelude.{◌≡◌, ◌≤◌, IfErr, OnOk};
ghost use Rattle.std.specs.Io.KnownBytes.{Appends};
ghost use Rattle.wb_dialogue.specs.Leading.{led_by, repeated, want_of_memory};
ghost use Rattle.wb_dialogue.specs.Joining.{printed, all_printed};

use crate::output::{StreamFailed, out_of_memory, send};
use crate::told::{Told, lead_bytes};
use std::io::Write;

/// Prints what clients have told since the last join, one after the other.
pub fn print_all<W: Write>(all: &[Told], writer: &mut W) -> Result<(), StreamFailed>
    ensures printed { OnOk result (Appends (W.contents writer.old) (W.contents writer.new) (all_printed all.now)) }
    ensures writer { IfErr result (λ failed. failed ≡ StreamFailed.Writer) }
{
    let mut rest = all;
    while let Some((told, after)) = rest.split_first() {
        print_told(told, writer)?;
        rest = after;
    }
    Ok(())
}

/// Prints what a client has told.
#[tactic(auto, using(crate::proofs::Pieces::appends_both))]
fn print_told<W: Write>(told: &Told, writer: &mut W) -> Result<(), StreamFailed>
    ensures printed { OnOk result (Appends (W.contents writer.old) (W.contents writer.new) (printed told.now)) }
    ensures writer { IfErr result (λ failed. failed ≡ StreamFailed.Writer) }
{
    if !told.text.is_empty() {
        send(told.text.as_slice(), writer)?;
    }
    print_past(told.client, told.past, writer)
}

/// Prints so many lines of a client that were refused for want of memory.
fn print_past<W: Write>(client: u8, count: u64, writer: &mut W) -> Result<(), StreamFailed>
    requires numbered { client ≤ 8 }
    ensures printed { OnOk result (Appends (W.contents writer.old) (W.contents writer.new) (repeated count (led_by client want_of_memory))) }
    ensures writer { IfErr result (λ failed. failed ≡ StreamFailed.Writer) }
{
    let name = lead_bytes(client);
    for _ in 0..count {
        send(&name, writer)?;
        send(out_of_memory(), writer)?;
    }
    Ok(())
}
