//! The rule by which a service follows its ticket: when it is started, stopped and killed. No clock, no program, no
//! list.
#![tactic(auto)]

mod follower;
pub mod laws;
mod margins;
mod news;
mod state;
mod steps;

pub use follower::Follower;
pub use margins::{MarginFault, Margins};
pub use news::{News, RunEnd, Shown};
pub use state::{FollowDeed, Renewal, Stage, State, Word};
