//! Standard streams of a program that may be started without some of them, or with ones that do not wait.

use std::fs::{File, OpenOptions};
use std::io;
use std::os::fd::AsRawFd;
use std::rt::Files;

/// A folder that is always there: it can be opened, and a read or a write of it fails.
const ROOT_FOLDER: &str = "/";

/// Keeps descriptors 0 to 2 taken for as long as it lives.
#[derive(Drop)]
pub struct HeldStreams {
    input: Option<File>,
    output: Option<File>,
    errors: Option<File>,
}

/// Takes descriptors 0 to 2 before a program opens any file. The system gives a new file the least free number, so an image file would
/// else become the standard output, and take the answers.
///
/// A descriptor that is missing is opened on a folder, so that its use fails as that of a closed one does. The error is the system's, where
/// the folder cannot be opened; then a program must open nothing else.
pub fn hold_streams<R: Files<File = File>>(rt: &R) -> io::Result<HeldStreams> {
    let mut held = HeldStreams {
        input: None,
        output: None,
        errors: None,
    };
    for _ in 0..3 {
        let file = OpenOptions::new().read(true).open(rt, ROOT_FOLDER)?;
        match file.as_raw_fd() {
            0 => held.input = Some(file),
            1 => held.output = Some(file),
            2 => held.errors = Some(file),
            _ => break,
        }
    }
    Ok(held)
}
