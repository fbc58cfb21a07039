//! What a server tells in a handshake.

ghost use Rattle.std.specs.Prelude.{◌≡◌, ◌++◌, true, false, OnOk, IfErr};
ghost use Rattle.std.specs.Io.KnownBytes.{Appends};
ghost use Rattle.wb_nbd.specs.Terms.{greeting, reply_start, plain_reply, export_entry, export_terms, export_info, block_info, padding_zeros, answer_to, error_kind};

use crate::broken::Broken;
use crate::option::{Asked, OptionError, Wish};
use crate::terms::Terms;
use crate::words::{
    GREETING_MAGIC, HANDSHAKE_FLAGS, INFO_BLOCK_SIZE, INFO_EXPORT, MOST_BYTES, OPTION_MAGIC,
    OPTION_REPLY_MAGIC, REPLY_ACK, REPLY_INFO, REPLY_INVALID, REPLY_SERVER, REPLY_TOO_BIG,
    REPLY_UNSUPPORTED, TRANSMISSION_FLAGS,
};
use byteorder::{BigEndian, WriteBytesExt};
use std::io;
use std::io::Write;

/// Begins a connection. `Writer` where the writer fails.
pub(crate) fn greet<W: Write>(writer: &mut W) -> Result<(), Broken>
    ensures { OnOk result (Appends (W.contents writer.old) (W.contents writer.new) greeting) }
{
    match write_greeting(writer) {
        Ok(()) => Ok(()),
        Err(_) => Err(Broken::Writer),
    }
}

fn write_greeting<W: Write>(writer: &mut W) -> io::Result<()>
    ensures { OnOk result (Appends (W.contents writer.old) (W.contents writer.new) greeting) }
{
    writer.write_u64::<BigEndian>(GREETING_MAGIC)?;
    writer.write_u64::<BigEndian>(OPTION_MAGIC)?;
    writer.write_u16::<BigEndian>(HANDSHAKE_FLAGS)?;
    writer.flush()?;
    Ok(())
}

/// Answers an option; where zeros need not follow the export's terms, in brief. `Writer` where the writer fails.
pub(crate) fn answer_option<W: Write>(
    writer: &mut W,
    terms: &Terms,
    brief: bool,
    asked: Asked,
) -> Result<(), Broken>
    ensures { OnOk result (Appends (W.contents writer.old) (W.contents writer.new) (answer_to terms.now brief asked.number asked.wish)) }
{
    match write_answer(writer, terms, brief, asked) {
        Ok(()) => Ok(()),
        Err(_) => Err(Broken::Writer),
    }
}

fn write_answer<W: Write>(
    writer: &mut W,
    terms: &Terms,
    brief: bool,
    asked: Asked,
) -> io::Result<()>
    ensures { OnOk result (Appends (W.contents writer.old) (W.contents writer.new) (answer_to terms.now brief asked.number asked.wish)) }
{
    let Asked { number, wish } = asked;
    match wish {
        Wish::Start => write_start(writer, terms, brief),
        Wish::StartLong => Ok(()),
        Wish::Abort => write_plain(writer, number, REPLY_ACK),
        Wish::List => write_list(writer, number),
        Wish::Info | Wish::Go => write_info(writer, terms, number),
        Wish::Refuse(error) => write_plain(writer, number, kind_of(error)),
    }
}

/// The kind of answer that an error is.
fn kind_of(error: OptionError) -> u32
    ensures { result ≡ error_kind error }
{
    match error {
        OptionError::Unsupported => REPLY_UNSUPPORTED,
        OptionError::Invalid => REPLY_INVALID,
        OptionError::TooBig => REPLY_TOO_BIG,
    }
}

/// Writes the first bytes of an answer, that so many follow.
fn write_reply_start<W: Write>(writer: &mut W, number: u32, kind: u32, size: u32) -> io::Result<()>
    ensures { OnOk result (Appends (W.contents writer.old) (W.contents writer.new) (reply_start number kind size)) }
{
    writer.write_u64::<BigEndian>(OPTION_REPLY_MAGIC)?;
    writer.write_u32::<BigEndian>(number)?;
    writer.write_u32::<BigEndian>(kind)?;
    writer.write_u32::<BigEndian>(size)?;
    Ok(())
}

/// Writes an answer that is nothing but its kind, and sees that it is out.
fn write_plain<W: Write>(writer: &mut W, number: u32, kind: u32) -> io::Result<()>
    ensures { OnOk result (Appends (W.contents writer.old) (W.contents writer.new) (plain_reply number kind)) }
{
    write_reply_start(writer, number, kind, 0)?;
    writer.flush()?;
    Ok(())
}

/// Writes which exports there are.
fn write_list<W: Write>(writer: &mut W, number: u32) -> io::Result<()>
    ensures { OnOk result (Appends (W.contents writer.old) (W.contents writer.new) (export_entry number ++ plain_reply number 1)) }
{
    write_reply_start(writer, number, REPLY_SERVER, 4)?;
    writer.write_u32::<BigEndian>(0)?;
    write_plain(writer, number, REPLY_ACK)?;
    Ok(())
}

/// Writes what is told of the export.
fn write_info<W: Write>(writer: &mut W, terms: &Terms, number: u32) -> io::Result<()>
    ensures { OnOk result (Appends (W.contents writer.old) (W.contents writer.new) ((export_info terms.now number ++ block_info terms.now number) ++ plain_reply number 1)) }
{
    write_export_info(writer, terms, number)?;
    write_block_info(writer, terms, number)?;
    write_plain(writer, number, REPLY_ACK)?;
    Ok(())
}

fn write_export_info<W: Write>(writer: &mut W, terms: &Terms, number: u32) -> io::Result<()>
    ensures { OnOk result (Appends (W.contents writer.old) (W.contents writer.new) (export_info terms.now number)) }
{
    write_reply_start(writer, number, REPLY_INFO, 12)?;
    writer.write_u16::<BigEndian>(INFO_EXPORT)?;
    write_terms(writer, terms)?;
    Ok(())
}

fn write_block_info<W: Write>(writer: &mut W, terms: &Terms, number: u32) -> io::Result<()>
    ensures { OnOk result (Appends (W.contents writer.old) (W.contents writer.new) (block_info terms.now number)) }
{
    write_reply_start(writer, number, REPLY_INFO, 14)?;
    writer.write_u16::<BigEndian>(INFO_BLOCK_SIZE)?;
    writer.write_u32::<BigEndian>(512)?;
    writer.write_u32::<BigEndian>(terms.preferred)?;
    writer.write_u32::<BigEndian>(MOST_BYTES)?;
    Ok(())
}

/// Writes the size of the export and its flags.
fn write_terms<W: Write>(writer: &mut W, terms: &Terms) -> io::Result<()>
    ensures { OnOk result (Appends (W.contents writer.old) (W.contents writer.new) (export_terms terms.now)) }
{
    writer.write_u64::<BigEndian>(terms.size)?;
    writer.write_u16::<BigEndian>(TRANSMISSION_FLAGS)?;
    Ok(())
}

/// Writes the answer after which requests come, and sees that it is out.
fn write_start<W: Write>(writer: &mut W, terms: &Terms, brief: bool) -> io::Result<()>
    ensures { OnOk result (Appends (W.contents writer.old) (W.contents writer.new) (export_terms terms.now ++ padding_zeros brief)) }
{
    write_terms(writer, terms)?;
    write_zeros(writer, brief)?;
    writer.flush()?;
    Ok(())
}

/// Writes 124 zeros, unless they are to be left out.
fn write_zeros<W: Write>(writer: &mut W, brief: bool) -> io::Result<()>
    ensures { OnOk result (Appends (W.contents writer.old) (W.contents writer.new) (padding_zeros brief)) }
{
    if brief {
        return Ok(());
    }
    writer.write_all(&[0; 124])
}
