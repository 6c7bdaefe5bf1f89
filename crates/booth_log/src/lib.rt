//! The log of a daemon: the line for each of its calls, and a host over any host that writes the lines.
#![tactic(auto)]

mod happening;
mod known;
pub mod laws;
mod line;
mod lines;
mod log_host;
mod memory_lines;
mod seen;
mod texts;

pub use lines::Lines;
pub use log_host::LogHost;
pub use memory_lines::MemoryLines;
