//! Readers that give the next line where it was read ahead.

ghost use Rattle.std.specs.Prelude.{◌≡◌, ℕ, List, false, IfSome, IfNone};
ghost use Rattle.std.specs.Io.Buffered.{reader_buffer};
ghost use Rattle.wb_dialogue.specs.FirstLine.{IsFirstLine, has_break};

use memchr::memchr;
use std::io::{BufRead, BufReader, Read};

/// A reader that knows what it has read ahead.
pub trait Ahead: BufRead {
    ghost ahead: { Self → List ℕ };

    /// The next line without its break, where it is there whole with it: to read it is not to wait for more. It stays there.
    fn line_ahead(&self) -> Option<&[u8]>
        ensures line { IfSome result (λ line. IsFirstLine line.now (ahead self.now)) }
        ensures none { IfNone result (has_break (ahead self.now) ≡ false) };
}

impl<R: Read> Ahead for BufReader<R> {
    ghost ahead = { reader_buffer };

    fn line_ahead(&self) -> Option<&[u8]> {
        let bytes = self.buffer();
        match memchr(b'\n', bytes) {
            Some(end) => Some(&bytes[..end]),
            None => None,
        }
    }
}
