//! Answers, and what else is printed: the writer holds them until it is told to see them out.

ghost use Rattle.std.specs.Prelude.{◌≡◌, IfOk, IfErr, OnErr, OnOk, string_bytes};
ghost use Rattle.std.specs.Io.KnownBytes.{Appends};
ghost use Rattle.wb_dialogue.specs.Exit.{code_of, status_of};
ghost use Rattle.wb_dialogue.specs.Leading.{want_of_memory};

use crate::status::Status;
use std::alloc::Global;
use std::fmt::Write as _;
use std::io::Write;
use wb_types::Refusal;

const OUT_OF_MEMORY: &[u8] = b"refused 7 Memory\n";

/// What is printed where even the text of a refusal has no room.
pub fn out_of_memory() -> &'static [u8]
    ensures { result.now ≡ want_of_memory }
{
    OUT_OF_MEMORY
}

/// The reader or the writer of a script failed.
#[derive(Clone, Copy)]
pub enum StreamFailed {
    Reader,
    Writer,
}

/// The exit status of a run that ended so.
pub fn exit_code(ended: Result<Status, StreamFailed>) -> u8
    ensures streams { OnErr ended (result ≡ 4) }
    ensures lines { IfOk ended (λ status. result ≡ code_of status) }
{
    match ended {
        Ok(status) => status.code(),
        Err(_) => Status::StreamFailed.code(),
    }
}

/// Prints a refusal after which nothing else is printed, and sees that it is out.
pub fn refuse<W: Write>(
    alloc: Global,
    refusal: Refusal,
    writer: &mut W,
) -> Result<Status, StreamFailed>
    ensures status { IfOk result (λ status. status ≡ status_of refusal) }
    ensures writer { IfErr result (λ failed. failed ≡ StreamFailed.Writer) }
{
    let status = print_refusal(refusal, &mut String::new(alloc), writer)?;
    see_out(writer)?;
    Ok(status)
}

/// Prints an answer.
pub fn print<W: Write>(text: &String, writer: &mut W) -> Result<Status, StreamFailed>
    ensures printed { OnOk result (Appends (W.contents writer.old) (W.contents writer.new) (string_bytes text.now)) }
    ensures status { IfOk result (λ status. status ≡ Status.Done) }
    ensures writer { IfErr result (λ failed. failed ≡ StreamFailed.Writer) }
{
    if !text.is_empty() {
        send(text.as_bytes(), writer)?;
    }
    Ok(Status::Done)
}

/// Prints a refusal, over what the text had.
pub fn print_refusal<W: Write>(
    refusal: Refusal,
    text: &mut String,
    writer: &mut W,
) -> Result<Status, StreamFailed>
    ensures status { IfOk result (λ status. status ≡ status_of refusal) }
    ensures writer { IfErr result (λ failed. failed ≡ StreamFailed.Writer) }
{
    let (status, is_spelled) = spell(refusal, text);
    if is_spelled {
        send(text.as_bytes(), writer)?;
    } else {
        send(out_of_memory(), writer)?;
    }
    Ok(status)
}

/// Spells a refusal over what a text had: what it makes of a run, and whether there was memory for it.
pub fn spell(refusal: Refusal, text: &mut String) -> (Status, bool)
    ensures status { result.0 ≡ status_of refusal }
{
    text.clear();
    let is_spelled = writeln!(text, "refused {refusal}").is_ok();
    (Status::of(refusal), is_spelled)
}

/// Prints that a line is none of a script's.
pub fn print_bad_line<W: Write>(
    number: u64,
    text: &mut String,
    writer: &mut W,
) -> Result<Status, StreamFailed>
    ensures status { IfOk result (λ status. status ≡ Status.Refused) }
    ensures writer { IfErr result (λ failed. failed ≡ StreamFailed.Writer) }
{
    if writeln!(text, "bad line {number}").is_err() {
        return print_refusal(Refusal::Memory, text, writer);
    }
    print(text, writer)?;
    Ok(Status::Refused)
}

/// Writes all of it.
pub fn send<W: Write>(bytes: &[u8], writer: &mut W) -> Result<(), StreamFailed>
    ensures sent { OnOk result (Appends (W.contents writer.old) (W.contents writer.new) bytes.now) }
    ensures writer { IfErr result (λ failed. failed ≡ StreamFailed.Writer) }
{
    writer.write_all(bytes).map_err(|_| StreamFailed::Writer)
}

/// Sees that all that was written is out.
pub fn see_out<W: Write>(writer: &mut W) -> Result<(), StreamFailed>
    ensures { IfErr result (λ failed. failed ≡ StreamFailed.Writer) }
{
    writer.flush().map_err(|_| StreamFailed::Writer)
}
