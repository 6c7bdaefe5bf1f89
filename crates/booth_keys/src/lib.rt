//! The keys that members and their clients share, and the MACs under them.
#![tactic(auto)]

mod key;
pub mod laws;
mod mac;
mod pads;
mod ring;

pub use key::{Key, KeyFault};
pub use mac::{MAC_BYTES, are_equal, hmac, hmac256};
pub use ring::{Hash, Ring};
