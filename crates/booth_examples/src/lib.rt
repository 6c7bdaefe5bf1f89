//! Example worlds, which a test shows to be worlds. No clock runs here, and no message is sent.
#![tactic(auto)]

pub mod examples;
pub mod laws;
