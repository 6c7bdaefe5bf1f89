//! Progress of a ticket: laws over the lease rules and over turns of a node.
#![tactic(auto)]

pub mod examples;
pub mod laws;
