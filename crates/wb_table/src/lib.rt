//! Texts about a target: the line that constructs it, with the words and numbers of such lines, messages to it, and the line that tells how it is.
#![tactic(auto)]

mod comment;
mod message;
mod number;
mod policy;
mod sectors;
mod status;
mod table;
mod table_fault;
mod words;

pub use comment::is_comment;
pub use message::read_message;
pub use number::{read_byte, read_number};
pub use policy::PolicyName;
pub use sectors::{read_fill, read_sectors};
pub use status::{Fields, status_text};
pub use table::{Keys, Table, read_mode, read_table};
pub use table_fault::{TableFault, find_table_fault};
pub use words::SplitSpaces;
