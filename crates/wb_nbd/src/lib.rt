//! The network block device protocol, over any reader and any writer: one export, one connection.
//!
//! docs/FORMATS.md says which part of the protocol is served. Nothing here knows of a cache, a file or a thread.
#![tactic(auto)]

mod answer;
mod broken;
mod bytes;
mod connection;
mod errno;
mod export;
mod handshake;
mod input;
mod job;
mod option;
mod performing;
mod request;
mod telling;
mod terms;
mod transmission;
mod words;

pub use answer::Answer;
pub use broken::Broken;
pub use connection::Connection;
pub use errno::Errno;
pub use export::Export;
pub use handshake::{Agreed, shake_hands};
pub use job::{Job, Task, take_job};
pub use performing::perform;
pub use request::{Command, Cookie, Flags, Request};
pub use terms::Terms;
pub use transmission::transmit;
pub use words::MOST_BYTES;
