//! Why a connection broke.

use std::io;
use thiserror::Error;

/// Why a connection ended otherwise than a client ends it.
#[derive(Clone, Copy, Debug, PartialEq, Eq, Error, Drop)]
pub enum Broken {
    /// What the client sends cannot be read, or ended in the middle of a message or before the first request.
    #[error("the client's end is gone")]
    Reader,
    /// What the client sends ended between two requests, and it did not say so.
    #[error("the client went without an end of the connection")]
    Gone,
    /// A reply cannot be written.
    #[error("a reply cannot be written")]
    Writer,
    /// A message begins with another word than it has to.
    #[error("the client does not speak the protocol")]
    Magic,
    /// The client answers the greeting with flags that it was not offered.
    #[error("the client sets flags that it was not offered")]
    ClientFlags,
    /// The client names the export by more than 4,096 bytes, in an option that has no other answer.
    #[error("the client gives the export too long a name")]
    Name,
    /// There is no memory to talk to the client.
    #[error("out of memory")]
    Memory,
    /// More messages than can be counted.
    #[error("too many messages")]
    Count,
}
