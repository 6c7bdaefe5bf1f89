//! The environment of Booth: one trait for all devices, and hosts in memory.
#![tactic(auto)]

mod datagram;
mod entry;
mod host;
mod memory;
mod quiet;
mod told;

pub use datagram::{DATAGRAM_BYTES, Datagram};
pub use entry::Entry;
pub use host::{Arrival, Failed, Host, Job, Place, ReadFault};
pub use memory::{Files, MemoryHost, Records, Script, Step};
pub use quiet::QuietHost;
pub use told::Told;
