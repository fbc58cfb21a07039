//! Numbers in the bytes of a sector.

ghost use Rattle.std.specs.Prelude.{◌≡◌, ◌≤◌, ◌+◌, ◌↔◌, IsTrue};
ghost use Rattle.wb_format.specs.Bytes.{number_at, IsZero, SameBytes, IsSector};

use byteorder::{ByteOrder, LittleEndian};
use wb_types::Content;

/// The number in the four bytes from an offset on.
#[tactic(auto, unfolding(crate::specs::Bytes::number_at))]
pub(crate) fn u32_at(content: &Content, offset: usize) -> u32
    requires { offset + 4 ≤ 512 }
    ensures { result ≡ number_at content.now offset 4 }
{
    LittleEndian::read_u32(&content[offset..])
}

/// The number in the eight bytes from an offset on.
#[tactic(auto, unfolding(crate::specs::Bytes::number_at))]
pub(crate) fn u64_at(content: &Content, offset: usize) -> u64
    requires { offset + 8 ≤ 512 }
    ensures { result ≡ number_at content.now offset 8 }
{
    LittleEndian::read_u64(&content[offset..])
}

/// Whether there are zeros alone from one offset up to another.
pub(crate) fn is_zero(content: &Content, from: usize, to: usize) -> bool
    requires order { from ≤ to }
    requires end { to ≤ 512 }
    ensures { IsTrue result ↔ IsZero content.now from to }
{
    content[from..to].iter().all(|byte| *byte == 0)
}

/// Writes a number into the four bytes from an offset on.
pub(crate) fn put_u32(content: &mut Content, offset: usize, number: u32)
    requires { offset + 4 ≤ 512 }
    ensures number { number_at content.new offset 4 ≡ number }
    ensures before { SameBytes content.new content.old 0 offset }
    ensures after { SameBytes content.new content.old (offset + 4) 512 }
    ensures bytes { IsSector content.new }
{
    LittleEndian::write_u32(&mut content[offset..], number);
}

/// Writes a number into the eight bytes from an offset on.
pub(crate) fn put_u64(content: &mut Content, offset: usize, number: u64)
    requires { offset + 8 ≤ 512 }
    ensures number { number_at content.new offset 8 ≡ number }
    ensures before { SameBytes content.new content.old 0 offset }
    ensures after { SameBytes content.new content.old (offset + 8) 512 }
    ensures bytes { IsSector content.new }
{
    LittleEndian::write_u64(&mut content[offset..], number);
}
