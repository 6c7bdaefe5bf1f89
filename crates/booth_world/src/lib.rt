//! Laws over every schedule of one ticket. No clock runs here, and no message is sent.
#![tactic(auto)]

pub mod examples;
pub mod laws;
