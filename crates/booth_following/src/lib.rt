//! A service that follows its ticket, with any host: its requests, what it learns, and what it runs.
#![tactic(auto)]

mod asking;
mod choosing;
mod following;
mod hearing;
pub mod laws;
mod lines;
mod programs;
mod restarts;
mod standing;
mod turns;
mod waits;
mod watching;

pub use choosing::{FollowFault, margins_for};
pub use following::{Following, Room, Seat, ServiceOptions};
pub use lines::TicketLine;
pub use programs::{PATH_BYTES, PROGRAM_BYTES, Programs};
pub use turns::{FollowEnd, follow};
pub use watching::{Seen, Setting, Unwatched, Watch};
