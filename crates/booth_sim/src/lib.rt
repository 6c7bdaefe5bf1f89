//! Generated schedules of a whole cluster, and counts of the events of its tickets.
#![tactic(auto)]

mod clock;
mod cluster;
mod counting;
mod daemon;
mod drawing;
mod frames;
mod happening;
mod holders;
pub mod laws;
mod request;
mod simulation;
mod summary;
mod turn;

pub use clock::{TIMES_END, reading_at};
pub use cluster::Cluster;
pub use daemon::Daemon;
pub use drawing::{Draw, generator_of};
pub use frames::{SentFrame, SentFrames, place_of};
pub use happening::{Happening, what_happens};
pub use simulation::{nothing_counted, simulate};
pub use summary::{MOST_EVENTS, Summary};
