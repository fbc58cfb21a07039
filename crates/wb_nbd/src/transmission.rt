//! Requests and replies, one after the other.

ghost use Rattle.std.specs.Prelude.{◌≡◌, ◌≢◌, true, false, OnOk, IfOk, IfErr};
ghost use Rattle.wb_nbd.specs.Talking.{Turn, Ends, IsLeft, TalksUntil, stand};

use crate::broken::Broken;
use crate::export::Export;
use crate::job::take_job;
use crate::performing::perform;
use std::alloc::Global;
use std::io::{Read, Write};

/// Serves requests, each answered before the next is read, until the client ends the connection. What was answered before it broke
/// stays done.
///
/// `Gone` where the client's bytes end between two requests, `Reader` where they end in the middle of one or cannot be read; `Magic` where they spell no
/// request; `Writer` where a reply cannot be written: then it may be that its job was done.
pub fn transmit<E: Export, R: Read, W: Write>(
    alloc: Global,
    export: &mut E,
    reader: &mut R,
    writer: &mut W,
) -> Result<(), Broken>
    ensures ended { OnOk result (TalksUntil E.size E.acts Ends (stand export.old (R.remaining reader.old) (W.contents writer.old)) (stand export.new (R.remaining reader.new) (W.contents writer.new))) }
    ensures broken { IfErr result (λ broken. broken ≢ Broken.Writer → TalksUntil E.size E.acts IsLeft (stand export.old (R.remaining reader.old) (W.contents writer.old)) (stand export.new (R.remaining reader.new) (W.contents writer.new))) }
{
    for _ in 0..u64::MAX {
        match take_turn(alloc, export, reader, writer) {
            Ok(true) => {}
            Ok(false) => return Ok(()),
            Err(broken) => return Err(broken),
        }
    }
    Err(Broken::Count)
}

/// Serves the next request, if any comes before the end.
fn take_turn<E: Export, R: Read, W: Write>(
    alloc: Global,
    export: &mut E,
    reader: &mut R,
    writer: &mut W,
) -> Result<bool, Broken>
    ensures turn { IfOk result (λ goes_on. goes_on ≡ true → Turn E.size E.acts (stand export.old (R.remaining reader.old) (W.contents writer.old)) (stand export.new (R.remaining reader.new) (W.contents writer.new))) }
    ensures end { IfOk result (λ goes_on. goes_on ≡ false → Ends (stand export.old (R.remaining reader.old) (W.contents writer.old)) (stand export.new (R.remaining reader.new) (W.contents writer.new))) }
    ensures broken { IfErr result (λ broken. broken ≢ Broken.Writer → IsLeft (stand export.old (R.remaining reader.old) (W.contents writer.old)) (stand export.new (R.remaining reader.new) (W.contents writer.new))) }
{
    let size = export.sectors();
    let Some(job) = take_job(alloc, size, reader)? else {
        return Ok(false);
    };
    perform(alloc, export, &job).send(export, &job, writer)?;
    Ok(true)
}
