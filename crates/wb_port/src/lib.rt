//! A client's request path: reads and writes of cached blocks that take no lock, no memory and no waiting.
#![tactic(auto)]

mod hand;
mod moving;
mod parts;
mod port;
mod reading;
mod seat;
mod seats;
mod serving;
mod stepping;
mod straight;
mod trying;
mod writing;

pub use hand::Hand;
pub use moving::{LONGEST, ReadStage, WriteStage};
pub use parts::{read_part, write_part};
pub use port::{Port, UNSETTLED};
pub use seat::Seat;
pub use seats::Seats;
pub use serving::perform_part;
pub use straight::Part;
