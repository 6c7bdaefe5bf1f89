//! Clients on byte streams: frames from streams that arrive in any pieces, links, and a host over them.
#![tactic(auto)]

mod buffer;
mod cutter;
pub mod laws;
mod link_call;
mod links;
mod memory_links;
mod piece;
mod slot;
mod slots;
mod stream_host;
mod table;

pub use cutter::{Cutter, Fed, Got};
pub use link_call::LinkCall;
pub use links::{LinkEvent, Links};
pub use memory_links::{LinkStep, MemoryLinks};
pub use piece::{PIECE_BYTES, Piece};
pub use slots::LINKS;
pub use stream_host::StreamHost;
