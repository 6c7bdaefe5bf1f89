//! Records: what a member writes to disk for a ticket, its one spelling in bytes, and the file of four slots for it.
#![tactic(auto)]

mod disk;
mod memory_disk;
mod record;
mod record_file;
mod slots;
mod spelling;

pub use disk::{Disk, DiskFault};
pub use memory_disk::MemoryDisk;
pub use record::{Lease, Promise, Record};
pub use slots::{OpenFault, PutFault, ReopenFault, Slots};
pub use spelling::RecordFault;
