//! Disks with a volatile write cache: sectors that are read and written, one at a time or an extent of them, and
//! made durable by a sync.
//!
//! A sector holds what the last sync made durable, and the writes since. A read gives the newest of them; a
//! crash leaves any one.
#![tactic(auto)]

mod crash;
mod crash_choice;
mod disk;
mod failing;
mod faltering;
mod file;
mod memory;
mod pending;

pub use crash_choice::{Base, CrashChoice, NamedContent};
pub use disk::{Disk, DiskFault};
pub use faltering::{Faltering, make_room};
pub use file::FileDisk;
pub use memory::MemDisk;
