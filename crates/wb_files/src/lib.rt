//! The files of a target: opened, locked and measured, or why they cannot serve; and the standard streams of the program that opens them.
#![tactic(auto)]

mod alarm;
mod awaited;
mod devices;
mod error_log;
mod in_use;
mod ledger;
mod lent;
mod mark;
mod patience;
mod read_only;
mod records;
mod sizes;
mod sparing;
mod streams;
mod unopened;
mod watched;

pub use alarm::Alarm;
pub use awaited::Awaited;
pub use devices::{Disks, OpenFiles, open_table};
pub use error_log::{ErrorLog, Printable};
pub use in_use::{Conflict, find_conflict};
pub use ledger::{OngoingSync, SyncLedger};
pub use lent::{FileLedger, LentDisk, SharedDisk};
pub use mark::{Mark, MarkPlace, Marker};
pub use patience::{Hurry, Patience, Patient};
pub use read_only::{ReadDisk, ReadFile, open_table_to_read};
pub use sizes::{SizeFault, find_size_fault};
pub use sparing::{SparingDisk, SyncRecord};
pub use streams::{HeldStreams, hold_streams};
pub use unopened::{Trouble, Unopened};
pub use watched::{Step, Unwatched, Watch, Watched};
