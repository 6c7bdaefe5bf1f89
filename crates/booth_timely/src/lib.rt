//! Progress in worlds: when a site goes on to hold a ticket.
#![tactic(auto)]

pub mod laws;
