//! The lease rules of one automatic ticket. They use no clock, no bytes and no clients.
#![tactic(auto)]

mod ask_and_renew;
mod deadlines;
mod deed;
mod gain_release_lost;
pub mod laws;
mod machine;
mod members;
mod messages;
mod notes;
mod numbers;
mod other_messages;
mod outcome;
mod rounds_and_answers;
mod start_and_learn;
mod view;

pub use ask_and_renew::are_terms_spent;
pub use booth_rec::Promise;
pub use deadlines::is_silent;
pub use deed::{Deed, Note, Told, Want};
pub use gain_release_lost::own_end;
pub use machine::Core;
pub use members::is_promised_elsewhere;
pub use messages::{owner_now, shown_end};
pub use notes::job_limit;
pub use numbers::seconds_left;
pub use view::{LAST_NUMBER, LAST_TERM, Role, Round, RoundKind, Rule, Shown, View, Waiting};
