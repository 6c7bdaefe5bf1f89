//! What the programs share: how a run ends and the text for it, arguments without a request, the configuration and
//! the key.
#![tactic(auto)]

mod configuration;
mod error_line;
mod keys;
mod outcome;
mod page;
mod telling;
pub mod texts;
mod usage;

pub use booth_cli::Word;
pub use configuration::read_config;
pub use error_line::ErrorLine;
pub use keys::read_ring;
pub use outcome::{Ended, Outcome};
pub use page::tell_page;
pub use telling::tell;
pub use usage::tell_error;
