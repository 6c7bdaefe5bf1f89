//! The configuration that all members share: `booth.conf` as a text and as a value.
#![tactic(auto)]

mod checks;
mod configuration;
mod defaults;
mod digits;
mod drafts;
mod faults;
mod grammar;
mod keys;
pub mod laws;
mod limits;
mod line_meaning;
mod lines;
mod members;
mod names;
mod print_tickets;
mod prints;
mod ranks;
mod sections;
mod settings;
mod spelled;
mod texts;
mod tickets;
mod values;
mod weights;
mod words;

pub use configuration::Config;
pub use faults::ConfFault;
pub use keys::{ConfKey, KeyNo};
pub use limits::{PREREQS, TEXT_BYTES, TICKETS};
pub use members::Member;
pub use names::ticket_name;
pub use sections::Extra;
pub use tickets::{GrantKind, Prereq, Prereqs, TicketConf};
