//! The audit of the journals of a cluster. It replays each journal by the rules, watches its starts, and looks for
//! each received message among the sent ones. It reports which member held which ticket when, and which starts were
//! silent.
#![tactic(auto)]

mod audited;
mod auditing;
mod end;
mod exchanges;
mod hearings;
mod holding;
mod journal_fault;
mod journals;
mod judging;
pub mod laws;
mod lines;
mod may_keep;
mod notes;
mod order;
mod owners;
mod replay_host;
mod replaying;
mod sends;
mod sessions;
mod silent;
mod starting;
mod tally;
mod watched;
mod whose;

pub use audited::Audit;
pub use auditing::audit;
pub use holding::Holding;
pub use journals::{Journal, replay_journal};
pub use silent::SilentStart;
pub use tally::Tally;
pub use whose::Whose;
