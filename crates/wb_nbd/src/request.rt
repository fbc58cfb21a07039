//! Requests.

ghost use Rattle.std.specs.Prelude.{◌≡◌, IfSome, Some};
ghost use Rattle.wb_nbd.specs.declared.request.Request.{Request as RequestValue};
ghost use Rattle.wb_nbd.specs.declared.request.Command.{Command as CommandValue};
ghost use Rattle.wb_nbd.specs.declared.request.Flags.{Flags as FlagsValue};
ghost use Rattle.wb_nbd.specs.Requests.{SpellsRequest, IsCommand, AreFlags};

use crate::bytes::{u16_at, u32_at, u64_at};
use crate::words::REQUEST_MAGIC;

/// What a client calls a request by; its reply has the same.
#[derive(Clone, Copy)]
pub struct Cookie(pub u64);

/// What a request asks for.
#[derive(Clone, Copy, PartialEq, Eq)]
pub enum Command {
    Read,
    Write,
    /// The client ends the connection.
    Disconnect,
    Flush,
    /// To write zeros: `NBD_CMD_WRITE_ZEROES`.
    Zeroes,
    /// Any other, which is not served.
    Other,
}

/// The flags of a request.
#[derive(Clone, Copy, PartialEq, Eq)]
pub enum Flags {
    None,
    /// What is written has to be durable before it is answered: `NBD_CMD_FLAG_FUA`.
    Durable,
    /// One or more that are not served.
    Other,
}

/// A request, without the bytes that it writes.
#[derive(Clone, Copy)]
pub struct Request {
    pub flags: Flags,
    pub command: Command,
    pub cookie: Cookie,
    /// The first byte of the export that it speaks of.
    pub offset: u64,
    /// Bytes.
    pub length: u32,
}

impl Request {
    /// The request that these bytes spell; none where they do not begin with a request's first word.
    pub fn read(bytes: &[u8; 28]) -> Option<Request>
        ensures found { IfSome result (SpellsRequest bytes.now) }
        ensures only { (request : RequestValue) → SpellsRequest bytes.now request → result ≡ Some request }
    {
        if u32_at(bytes, 0) != REQUEST_MAGIC {
            return None;
        }
        let command = command_of(u16_at(bytes, 6));
        Some(Request {
            flags: flags_of(command, u16_at(bytes, 4)),
            command,
            cookie: Cookie(u64_at(bytes, 8)),
            offset: u64_at(bytes, 16),
            length: u32_at(bytes, 24),
        })
    }
}

/// The command of a number.
fn command_of(number: u16) -> Command
    ensures found { IsCommand number result }
    ensures only { (command : CommandValue) → IsCommand number command → command ≡ result }
{
    match number {
        0 => Command::Read,
        1 => Command::Write,
        2 => Command::Disconnect,
        3 => Command::Flush,
        6 => Command::Zeroes,
        _ => Command::Other,
    }
}

/// The flags of a number with a command. Zeros never leave a hole, so that they may be asked not to.
fn flags_of(command: Command, number: u16) -> Flags
    ensures found { AreFlags command number result }
    ensures only { (flags : FlagsValue) → AreFlags command number flags → flags ≡ result }
{
    match number {
        2 if command == Command::Zeroes => Flags::None,
        3 if command == Command::Zeroes => Flags::Durable,
        0 => Flags::None,
        1 => Flags::Durable,
        _ => Flags::Other,
    }
}
