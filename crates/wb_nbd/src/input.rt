//! Bytes that a client sends.

ghost use Rattle.std.specs.Prelude.{◌≡◌, ◌++◌, ℕ, List, OnOk, IfErr, length};
ghost use Rattle.std.specs.Io.KnownBytes.{Consumes};

use crate::broken::Broken;
use std::io::{ErrorKind, Read};

/// Reads as many bytes as there is room for. `Reader` where there are fewer, or they cannot be read; then some may be read.
pub(crate) fn fill<R: Read>(reader: &mut R, bytes: &mut [u8]) -> Result<(), Broken>
    ensures read { OnOk result (Consumes (R.remaining reader.old) (R.remaining reader.new) bytes.new) }
    ensures refused { IfErr result (λ broken. broken ≡ Broken.Reader) }
    ensures many { length bytes.new ≡ length bytes.old }
{
    match reader.read_exact(bytes) {
        Ok(()) => Ok(()),
        Err(_) => Err(Broken::Reader),
    }
}

/// Reads the bytes of a message: the first of them, and then the others. `Gone` where not even the first is there, `Reader` where fewer are
/// there than the message has, or they cannot be read.
pub(crate) fn begin<R: Read>(
    reader: &mut R,
    first: &mut [u8],
    others: &mut [u8],
) -> Result<(), Broken>
    requires { length first.old ≡ 1 }
    ensures read { OnOk result (Consumes (R.remaining reader.old) (R.remaining reader.new) (first.new ++ others.new)) }
    ensures many { (length first.new ≡ length first.old) × (length others.new ≡ length others.old) }
{
    match reader.read_exact(first) {
        Ok(()) => fill(reader, others),
        Err(error) if error.kind() == ErrorKind::UnexpectedEof => Err(Broken::Gone),
        Err(_) => Err(Broken::Reader),
    }
}

/// Passes over so many bytes.
pub(crate) fn skip<R: Read>(reader: &mut R, count: u32) -> Result<(), Broken>
    ensures { OnOk result ((bytes : List ℕ) × Consumes (R.remaining reader.old) (R.remaining reader.new) bytes × (length bytes ≡ count)) }
{
    let mut left = count as usize;
    let mut piece = [0; 4096];
    while left > 0 {
        let next = left.min(4096);
        fill(reader, &mut piece[..next])?;
        left -= next;
    }
    Ok(())
}
