//! The gate, which accepts or drops datagrams, and the seal of each message that is sent.
#![tactic(auto)]

mod admission;
pub mod laws;
mod sealing;
mod with_key;

pub use admission::{DropFault, is_signed, ring_gate};
pub use booth_keys::{Hash, Key, KeyFault, MAC_BYTES, Ring, hmac, hmac256};
pub use sealing::ring_seal;
pub use with_key::{gate, seal};
