//! The handshake: what a client and the server agree on before requests.

ghost use Rattle.std.specs.Prelude.{◌≡◌, ◌++◌, ℕ, List, true, false, OnOk, IfOk, IfErr};
ghost use Rattle.std.specs.Io.KnownBytes.{Consumes, Appends};
ghost use Rattle.wb_nbd.specs.Handshakes.{AgreesOn, AreClientFlags, Haggles, Lines, lines, OptionTurn, LeadsTo};
ghost use Rattle.wb_nbd.specs.Terms.{greeting};

use crate::broken::Broken;
use crate::bytes::u32_at;
use crate::input::fill;
use crate::option::{Wish, take_option};
use crate::telling::{answer_option, greet};
use crate::terms::Terms;
use std::io::{Read, Write};

/// What a handshake leads to.
#[derive(Clone, Copy, PartialEq, Eq)]
pub enum Agreed {
    /// Requests come next.
    Serve,
    /// The client ends the connection.
    Abort,
}

/// Greets a client, and answers its options until it begins with requests or ends the connection. There is one export, and every
/// name is its own.
///
/// `Reader` where the client's bytes end or cannot be read; `Magic` where they spell no option; `ClientFlags` where the client
/// answers the greeting by what it was not offered; `Name` where it names the export by more than 4,096 bytes in the option that has no other answer;
/// `Writer` where an answer cannot be written.
pub fn shake_hands<R: Read, W: Write>(
    terms: &Terms,
    reader: &mut R,
    writer: &mut W,
) -> Result<Agreed, Broken>
    ensures { IfOk result (λ agreed. AgreesOn terms.now agreed (lines (R.remaining reader.old) (W.contents writer.old)) (lines (R.remaining reader.new) (W.contents writer.new))) }
{
    greet(writer)?;
    let brief = take_client_flags(reader)?;
    let agreed = haggle(terms, brief, reader, writer)?;
    Ok(agreed)
}

/// Takes in a client's answer to the greeting: whether zeros are to be left out.
fn take_client_flags<R: Read>(reader: &mut R) -> Result<bool, Broken>
    ensures { IfOk result (λ brief. (bytes : List ℕ) × Consumes (R.remaining reader.old) (R.remaining reader.new) bytes × AreClientFlags bytes brief) }
{
    let mut bytes = [0; 4];
    fill(reader, &mut bytes)?;
    match u32_at(&bytes, 0) {
        0 | 1 => Ok(false),
        2 | 3 => Ok(true),
        _ => Err(Broken::ClientFlags),
    }
}

/// Answers options until one leads on.
fn haggle<R: Read, W: Write>(
    terms: &Terms,
    brief: bool,
    reader: &mut R,
    writer: &mut W,
) -> Result<Agreed, Broken>
    ensures { IfOk result (λ agreed. Haggles terms.now brief agreed (lines (R.remaining reader.old) (W.contents writer.old)) (lines (R.remaining reader.new) (W.contents writer.new))) }
{
    for _ in 0..u64::MAX {
        match take_turn(terms, brief, reader, writer) {
            Ok(None) => {}
            Ok(Some(agreed)) => return Ok(agreed),
            Err(broken) => return Err(broken),
        }
    }
    Err(Broken::Count)
}

/// Answers the next option, and gives what it leads to, if anything.
fn take_turn<R: Read, W: Write>(
    terms: &Terms,
    brief: bool,
    reader: &mut R,
    writer: &mut W,
) -> Result<Option<Agreed>, Broken>
    ensures { IfOk result (λ outcome. OptionTurn terms.now brief outcome (lines (R.remaining reader.old) (W.contents writer.old)) (lines (R.remaining reader.new) (W.contents writer.new))) }
{
    let asked = take_option(reader)?;
    answer_option(writer, terms, brief, asked)?;
    outcome_of(asked.wish)
}

/// What an option leads to, if anything. `Name` where the name is too long, which has no other answer.
fn outcome_of(wish: Wish) -> Result<Option<Agreed>, Broken>
    ensures { IfOk result (LeadsTo wish) }
{
    match wish {
        Wish::Start | Wish::Go => Ok(Some(Agreed::Serve)),
        Wish::Abort => Ok(Some(Agreed::Abort)),
        Wish::StartLong => Err(Broken::Name),
        Wish::List | Wish::Info | Wish::Refuse(_) => Ok(None),
    }
}
