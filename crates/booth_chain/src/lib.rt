//! A pool of nodes that are linked by index into lists, and a timer of many deadlines.
#![tactic(auto)]

mod aim;
mod buckets;
mod chains;
mod draining;
pub mod laws;
mod link;
mod links;
mod node_id;
mod search;
mod slot;
mod steps;
mod wheel;

pub use chains::{Chains, Full};
pub use node_id::NodeId;
pub use steps::Steps;
pub use wheel::Wheel;
