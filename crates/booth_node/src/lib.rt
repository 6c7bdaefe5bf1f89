//! The node: one turn of the daemon, from an arrival to the last action for it.
#![tactic(auto)]

mod attributes;
mod deadlines;
mod event;
mod hands;
mod jobs;
pub mod laws;
mod lists;
mod node;
mod node_config;
mod opening;
mod peers;
mod replies;
mod reply_buffer;
mod routing;
mod state;
mod tickets;

pub use node::{Node, Turn};
pub use node_config::NodeConfig;
pub use state::{Common, Counters};
