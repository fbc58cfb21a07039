//! Options, by which a client asks for the export.

ghost use Rattle.std.specs.Prelude.{◌≡◌, ◌<◌, ◌≤◌, ℕ, List, IfOk, IfSome, IfNone, Some, length};
ghost use Rattle.std.specs.Io.KnownBytes.{Consumes};
ghost use Rattle.wb_nbd.specs.declared.option.OptionHeader.{OptionHeader as HeaderValue};
ghost use Rattle.wb_nbd.specs.Options.{SpellsOption, AreAbout, AsksOfExport, IsWish, Wants};

use crate::broken::Broken;
use crate::bytes::{u16_at, u32_at, u64_at};
use crate::input::{fill, skip};
use crate::words::{
    ABORT, EXPORT_NAME, GO, INFO, LIST, MOST_OPTION_BYTES, OPTION_BYTES, OPTION_MAGIC,
};
use std::io::Read;

/// The first bytes of an option.
#[derive(Clone, Copy)]
pub(crate) struct OptionHeader {
    pub(crate) number: u32,
    /// How many bytes follow.
    pub(crate) length: u32,
}

/// What an option wants.
#[derive(Clone, Copy)]
pub(crate) enum Wish {
    /// To begin with requests, in the way that is answered by what is told of the export alone.
    Start,
    /// The same, by a name that is too long.
    StartLong,
    /// To end the connection.
    Abort,
    /// To be told which exports there are.
    List,
    /// To be told of the export.
    Info,
    /// To be told of the export, and to begin with requests.
    Go,
    /// Something that is refused.
    Refuse(OptionError),
}

/// Why an option is refused.
#[derive(Clone, Copy)]
pub(crate) enum OptionError {
    Unsupported,
    /// Its data are not as they have to be.
    Invalid,
    TooBig,
}

/// An option: its number, and what it wants.
#[derive(Clone, Copy)]
pub(crate) struct Asked {
    pub(crate) number: u32,
    pub(crate) wish: Wish,
}

/// Takes the next option in. Of more than 4,096 bytes of data none is looked at. `Reader` where no more can be read, `Magic` where the
/// bytes spell no option.
pub(crate) fn take_option<R: Read>(reader: &mut R) -> Result<Asked, Broken>
    ensures { IfOk result (λ asked. (bytes : List ℕ) × Consumes (R.remaining reader.old) (R.remaining reader.new) bytes × Wants bytes asked.number asked.wish) }
{
    let header = read_header(reader)?;
    let wish = take_wish(&header, reader)?;
    Ok(Asked {
        number: header.number,
        wish,
    })
}

/// Reads the first bytes of an option.
fn read_header<R: Read>(reader: &mut R) -> Result<OptionHeader, Broken>
    ensures { IfOk result (λ header. (bytes : List ℕ) × Consumes (R.remaining reader.old) (R.remaining reader.new) bytes × SpellsOption bytes header) }
{
    let mut bytes = [0; OPTION_BYTES];
    fill(reader, &mut bytes)?;
    header_of(&bytes).ok_or(Broken::Magic)
}

/// The first bytes of an option, where these are some.
fn header_of(bytes: &[u8; 16]) -> Option<OptionHeader>
    ensures found { IfSome result (SpellsOption bytes.now) }
    ensures only { (header : HeaderValue) → SpellsOption bytes.now header → result ≡ Some header }
{
    if u64_at(bytes, 0) != OPTION_MAGIC {
        return None;
    }
    Some(OptionHeader {
        number: u32_at(bytes, 8),
        length: u32_at(bytes, 12),
    })
}

/// Takes in what follows the first bytes of an option, and gives what it wants.
fn take_wish<R: Read>(header: &OptionHeader, reader: &mut R) -> Result<Wish, Broken>
    ensures { IfOk result (λ wish. (bytes : List ℕ) × Consumes (R.remaining reader.old) (R.remaining reader.new) bytes × (length bytes ≡ header.now.length) × IsWish header.now.number bytes wish) }
{
    let count = header.length as usize;
    if count > MOST_OPTION_BYTES {
        skip(reader, header.length)?;
        return Ok(long_wish(header.number));
    }
    let mut room = [0; MOST_OPTION_BYTES];
    let bytes = &mut room[..count];
    fill(reader, bytes)?;
    Ok(wish_of(header.number, bytes))
}

/// What an option of this number and with these data wants.
fn wish_of(number: u32, bytes: &[u8]) -> Wish
    requires { length bytes.now ≤ 4096 }
    ensures { IsWish number bytes.now result }
{
    match number {
        EXPORT_NAME => Wish::Start,
        ABORT => Wish::Abort,
        LIST if bytes.is_empty() => Wish::List,
        LIST => Wish::Refuse(OptionError::Invalid),
        INFO => wish_about(number, bytes, Wish::Info),
        GO => wish_about(number, bytes, Wish::Go),
        _ => Wish::Refuse(OptionError::Unsupported),
    }
}

/// What an option of this number and with more data than are looked at wants.
fn long_wish(number: u32) -> Wish
    ensures { (bytes : List ℕ) → 4096 < length bytes → IsWish number bytes result }
{
    match number {
        EXPORT_NAME => Wish::StartLong,
        ABORT => Wish::Abort,
        LIST => Wish::Refuse(OptionError::Invalid),
        INFO | GO => Wish::Refuse(OptionError::TooBig),
        _ => Wish::Refuse(OptionError::Unsupported),
    }
}

/// What an option wants that asks of an export, by whatever name.
fn wish_about(number: u32, bytes: &[u8], wish: Wish) -> Wish
    requires most { length bytes.now ≤ 4096 }
    requires number { AsksOfExport number }
    requires wish { (size : ℕ) → AreAbout size bytes.now → IsWish number bytes.now wish }
    ensures { IsWish number bytes.now result }
{
    match name_size(bytes) {
        Some(_) => wish,
        None => Wish::Refuse(OptionError::Invalid),
    }
}

/// How many bytes the name has of the export that an option asks of, by its data; none where they are not as they have to be.
fn name_size(bytes: &[u8]) -> Option<usize>
    requires { length bytes.now ≤ 4096 }
    ensures found { IfSome result (λ size. AreAbout size bytes.now) }
    ensures none { IfNone result ((size : ℕ) → AreAbout size bytes.now → ⊥) }
{
    let count = bytes.len();
    if count < 6 {
        return None;
    }
    let size = u32_at(bytes, 0) as usize;
    if size > count - 6 {
        return None;
    }
    let things = usize::from(u16_at(bytes, 4 + size));
    if count == 6 + size + 2 * things {
        Some(size)
    } else {
        None
    }
}
