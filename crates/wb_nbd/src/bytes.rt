//! Numbers in bytes, the highest byte first.

ghost use Rattle.std.specs.Prelude.{◌≡◌, ◌≤◌, ◌+◌, length};
ghost use Rattle.wb_nbd.specs.Bytes.{number_at};

use byteorder::{BigEndian, ByteOrder};

/// The number in the two bytes from an offset on.
#[tactic(auto, unfolding(crate::specs::Bytes::number_at))]
pub(crate) fn u16_at(bytes: &[u8], offset: usize) -> u16
    requires { offset + 2 ≤ length bytes.now }
    ensures { result ≡ number_at bytes.now offset 2 }
{
    BigEndian::read_u16(&bytes[offset..])
}

/// The number in the four bytes from an offset on.
#[tactic(auto, unfolding(crate::specs::Bytes::number_at))]
pub(crate) fn u32_at(bytes: &[u8], offset: usize) -> u32
    requires { offset + 4 ≤ length bytes.now }
    ensures { result ≡ number_at bytes.now offset 4 }
{
    BigEndian::read_u32(&bytes[offset..])
}

/// The number in the eight bytes from an offset on.
#[tactic(auto, unfolding(crate::specs::Bytes::number_at))]
pub(crate) fn u64_at(bytes: &[u8], offset: usize) -> u64
    requires { offset + 8 ≤ length bytes.now }
    ensures { result ≡ number_at bytes.now offset 8 }
{
    BigEndian::read_u64(&bytes[offset..])
}
