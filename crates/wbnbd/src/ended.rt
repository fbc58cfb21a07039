//! How a run of the program ended.

ghost use Rattle.std.specs.Prelude.{◌≡◌, ◌<◌};

use std::fmt::{Display, Formatter};
use std::{fmt, io};
use wb_arguments::STREAM_FAILED;
use wb_nbd::Broken;
use wb_opened::Unserved;
use wb_types::Refusal;

/// The exit status where a device failed, or acknowledged data could not be flushed.
const DEVICE_FAILED: u8 = 3;

/// The exit status, and why it is not 0.
#[derive(Drop)]
pub struct Ended<'a> {
    pub code: u8,
    pub reason: Option<Reason<'a>>,
}

/// Why a run did not end well.
#[derive(Drop)]
pub enum Reason<'a> {
    Unserved(Unserved<'a>),
    /// The flush at the end was refused.
    Unflushed,
    /// The control file cannot be had.
    Control(&'a str, io::Error),
    Broken(Broken),
}

impl<'a> Ended<'a> {
    /// The client ended the connection, or went between two requests, and all was flushed.
    pub fn well() -> Ended<'a>
        ensures { result.code ≡ 0 }
    {
        Ended {
            code: 0,
            reason: None,
        }
    }

    /// The files of the table cannot serve, or the target was not opened.
    pub fn unserved(unserved: Unserved<'a>) -> Ended<'a>
        ensures { 0 < result.code }
    {
        Ended {
            code: code_of(unserved.refusal()),
            reason: Some(Reason::Unserved(unserved)),
        }
    }

    /// The control file cannot be had.
    pub fn uncontrolled(path: &'a str, error: io::Error) -> Ended<'a>
        ensures { result.code ≡ 1 }
    {
        Ended {
            code: 1,
            reason: Some(Reason::Control(path, error)),
        }
    }

    /// There is no memory, or the last flush was refused.
    pub fn refused(refusal: Refusal) -> Ended<'a>
        ensures { 0 < result.code }
    {
        Ended::unserved(Unserved::Refused(refusal))
    }

    /// The flush at the end was refused, so that acknowledged data may be lost.
    pub fn lost() -> Ended<'a>
        ensures { result.code ≡ 3 }
    {
        Ended {
            code: DEVICE_FAILED,
            reason: Some(Reason::Unflushed),
        }
    }

    /// The connection broke.
    pub fn broken(broken: Broken) -> Ended<'a>
        ensures { result.code ≡ 4 }
    {
        Ended {
            code: STREAM_FAILED,
            reason: Some(Reason::Broken(broken)),
        }
    }
}

/// The exit status of a refusal.
fn code_of(refusal: Refusal) -> u8
    ensures some { 0 < result }
    ensures device { (device : _) → refusal ≡ Refusal.Io device → result ≡ 3 }
    ensures failed { refusal ≡ Refusal.Failed → result ≡ 3 }
{
    match refusal {
        Refusal::Io(_) | Refusal::Failed => DEVICE_FAILED,
        _ => 1,
    }
}

impl<'a> Display for Reason<'a> {
    fn fmt<W: fmt::Write>(&self, f: &mut Formatter<W>) -> fmt::Result {
        match self {
            Reason::Unserved(unserved) => write!(f, "{unserved}"),
            Reason::Unflushed => write!(
                f,
                "the last flush was refused: what was written since the flush before may be lost"
            ),
            Reason::Control(path, error) => write!(f, "control file {path}: {error}"),
            Reason::Broken(broken) => write!(f, "{broken}"),
        }
    }
}
