//! A planned move of a ticket from one site to another: its next request, its messages and replies, and its end.
#![tactic(auto)]

mod carrying;
mod deeds;
pub mod laws;
mod mover;
mod stage;
mod steps;
mod waiting;

pub use carrying::{MoveRoom, Moving, carry_out};
pub use deeds::{MoveDeed, MoveEnd};
pub use mover::Mover;
pub use stage::{Request, Stage};
