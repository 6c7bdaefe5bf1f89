//! Why something was refused, in a line for people: what was found, and what is allowed. No device.
#![tactic(auto)]

mod arguments;
mod cause;
mod configuration;
mod follows;
mod keys;
mod lines;
mod members;
mod refusals;
mod times;
mod values;
mod words;

pub use arguments::{bad_address, bad_argument, two_tickets};
pub use cause::Cause;
pub use configuration::bad_configuration;
pub use follows::not_followed;
pub use keys::bad_key;
pub use members::{members_of, sites_of};
pub use refusals::{Answer, Refused, Request, older_daemon, refusal};
