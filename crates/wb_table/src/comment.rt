//! Lines that do nothing.

ghost use Rattle.std.specs.Prelude.{◌≡◌, ◌↔◌, IsTrue};
ghost use Rattle.wb_table.specs.Comments.{first_byte_of, IsComment};

/// Whether a line begins with `#`, after any spaces.
pub fn is_comment(line: &[u8]) -> bool
    ensures { IsTrue result ↔ IsComment line.now }
{
    matches!(first_byte(line), Some(b'#'))
}

/// The first byte other than a space.
fn first_byte(line: &[u8]) -> Option<u8>
    ensures { result ≡ first_byte_of line.now }
{
    line.iter().copied().find(|byte| *byte != b' ')
}
