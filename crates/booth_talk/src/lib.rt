//! A client over any host: its requests, the datagrams that answer them, the limit of its waits, and its output.
#![tactic(auto)]

mod date;
mod fields;
pub mod laws;
mod lines;
mod list_wait;
mod listing;
mod numbers;
mod order;
mod owner;
mod parts;
mod reply;
mod reports;
mod request;
mod standing;
mod talking;
mod wait;

pub use date::date_text;
pub use list_wait::Listed;
pub use listing::{ListRoom, talk_list};
pub use order::{Asking, Options, Order, Style};
pub use parts::Parts;
pub use reply::Reply;
pub use reports::{report, report_of};
pub use talking::{Room, talk};
pub use wait::{MOST_PAIRS, PATIENCE, Waited, is_begun};
