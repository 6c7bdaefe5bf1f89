//! The programs `booth` and `geostore` over any host: arguments in, calls on the host, texts and an outcome out.
#![tactic(auto)]

mod client;
mod client_run;
pub mod laws;
mod lists;
mod memory;
mod move_look;
mod move_replies;
mod move_run;
mod refusals;
mod replies;

pub use booth_outcomes::{Outcome, Word};
pub use booth_talk::report;
pub use client_run::{booth, geostore, passed, quiet_booth, quiet_geostore};
