//! The request of a command line, or why it has none.
#![tactic(auto)]

mod argument;
mod arguments;
mod asking;
mod command;
mod command_texts;
mod given;
mod page;
mod paths;
mod program;
mod reading;
mod word;

pub use asking::{
    Asked, AuditWords, ClientWords, DaemonWords, FollowWords, MoveWords, Refusal, SimulationWords,
    ask,
};
pub use command::{Verb, version};
pub use page::Page;
pub use program::Program;
pub use reading::{MOST_EVENTS, MOST_TURNS};
pub use word::Word;
