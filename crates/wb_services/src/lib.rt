//! Services of an opened target, each done by a client of its own.
#![tactic(auto)]

mod serving;

pub use serving::{serve_all, serve_each};
