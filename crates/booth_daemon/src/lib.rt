//! The program `boothd` over any host: arguments in, calls on the host, texts and an outcome out.
#![tactic(auto)]

mod auditing;
mod fitness;
mod holdings_text;
pub mod laws;
mod opening;
mod records;
mod report_text;
mod run;
mod serving;
mod simulating;
mod status;
mod summary_text;

pub use booth_outcomes::{Outcome, Word};
pub use run::{boothd, quiet_boothd};
