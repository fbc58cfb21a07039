//! The target: clients over an opened cache, that read, write, carry out orders and flush.
#![tactic(auto)]

mod blocking;
mod carrying;
mod client;
mod displacing;
mod durable;
mod gate;
mod invalidating;
mod making;
mod messages;
mod office;
mod opening;
mod orders;
mod performing;
mod suspending;
mod target;
mod together;
mod worker;
mod working;

pub use blocking::Stopped;
pub use carrying::Flushed;
pub use client::Client;
pub use gate::{Gate, OpenGate, Point};
pub use target::{CLIENTS, Target};
pub use together::{Errand, Returned, Sent};
pub use working::WorkStage;
