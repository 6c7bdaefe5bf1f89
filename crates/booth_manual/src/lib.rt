//! The rules of one manual ticket, which only an operator grants: no clock, no bytes, no clients.
#![tactic(auto)]

mod grant_and_revoke;
mod hearing;
mod machine;
mod messages;
mod start;
mod view;

pub use grant_and_revoke::are_terms_spent;
pub use machine::Manual;
pub use messages::holder;
pub use view::{Call, LAST_TERM, ManualView, NO_END, NO_END_SECONDS, Waiting};
