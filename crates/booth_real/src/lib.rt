//! The real host: a UDP socket, the system clock, files, child programs and the standard streams.
#![tactic(auto)]

mod backlog;
mod clock_file;
mod clocks;
mod deadline;
mod descriptors;
mod environment;
mod files;
mod jobs;
mod journal_file;
mod journal_opening;
mod lines;
mod lock;
mod mail;
mod member_sockets;
mod notifier;
mod outlet;
mod preparing;
mod programs;
mod real_host;
mod record_disk;
mod records;
mod socket;
mod socket_room;
mod speaker;
mod store;
mod streams;
mod telling;
mod tickets;
mod wake;

pub use descriptors::files_for_links;
pub use files::contents;
pub use journal_file::JournalFile;
pub use notifier::Notifier;
pub use outlet::{Outlet, Unwritten, write_at_once};
pub use real_host::RealHost;
pub use speaker::{Priority, Speaker};
