//! The program `booth-follow` over any host: arguments in, calls on the host, an outcome out.
#![tactic(auto)]

pub mod laws;
mod rounds;
mod run;
mod service;

pub use booth_outcomes::Outcome;
pub use run::{booth_follow, quiet_booth_follow};
