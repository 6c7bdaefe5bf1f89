//! What the programs do around their runs: arguments from the environment and for the transport, the cause of an
//! outcome, and the lines about a follower's turns.
#![tactic(auto)]

mod default_site;
mod explaining;
mod follower_texts;
mod heard;
mod live_followers;
mod ticket_option;
mod transport;
mod unmade;
mod watcher;
mod word_lists;

pub use default_site::with_default_site;
pub use explaining::{Run, explain};
pub use heard::{Heard, HearingHost};
pub use live_followers::has_follower;
pub use ticket_option::with_ticket;
pub use transport::{Parted, chosen_transport, part};
pub use unmade::Unmade;
pub use watcher::Watcher;
