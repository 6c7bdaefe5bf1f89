//! What audited journals say about a world: a run of all members, at true times. No clock runs here, and nothing is
//! sent or read.
#![tactic(auto)]

pub mod laws;
