//! The clock of a daemon: the time since the machine's boot, and an offset that is determined once in a boot and
//! stored.
#![tactic(auto)]

mod kept;
pub mod laws;
mod own_clock;

pub use kept::{BootId, KeptClock};
pub use own_clock::{ClockFault, OwnClock, Readings, Step};
