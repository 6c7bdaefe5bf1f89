//! One ticket: its rules, carried out by hands. This crate has no frames, no files and no other ticket.
#![tactic(auto)]

mod automatic;
mod fake;
mod handling;
mod hands;
mod keeping;
pub mod laws;
mod manual;
mod manual_handling;
mod manual_requests;
mod request;
mod requests;
mod saying;
mod standing;
mod telling;
mod ticket;
mod waiters;

pub use fake::{FakeHands, Noted};
pub use handling::Service;
pub use hands::{Hands, To};
pub use manual::Job;
pub use request::{Given, Request, Wish};
pub use ticket::{Owner, Ticket};
pub use waiters::{WAITERS, Waiter, Waiters};
