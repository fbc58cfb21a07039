//! A first client of an opened target, and others in lanes beside it, each on a thread of its own.
#![tactic(auto)]

mod hall;
mod serving;

pub use serving::serve_lanes;
