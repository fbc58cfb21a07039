//! What is said in a script: its lines, and what they are answered, read, shown, queued and printed. No client is asked here.
#![tactic(auto)]

mod ahead;
mod fill;
mod line;
mod output;
mod part;
mod printing;
mod progress;
mod queue;
mod queueing;
mod room;
mod shown;
mod status;
mod tally;
mod told;
mod usual;

pub use ahead::Ahead;
pub use line::{Call, Line, message_text, read_line, without_break};
pub use output::{
    StreamFailed, exit_code, out_of_memory, print, print_bad_line, print_refusal, refuse, see_out,
    spell,
};
pub use part::{Part, first_part};
pub use printing::print_all;
pub use progress::{Paced, Progress, Unseen};
pub use queue::{Answer, Asked, Queue};
pub use room::Room;
pub use shown::show;
pub use status::Status;
pub use tally::{Said, Tally};
pub use told::Told;
