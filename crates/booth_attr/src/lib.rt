//! The attributes of tickets: a list of names with values for each ticket, in one pool.
#![tactic(auto)]

mod attrs;
mod find;
mod pair;
mod prereqs;

pub use attrs::{ATTRIBUTES, Attrs, DelAnswer, LIST_BYTES, SetAnswer, TICKET_NAMES};
pub use pair::Pair;
