//! The counts of a simulation.

/// The greatest number of events of a simulation.
pub const MOST_EVENTS: u64 = 10_000_000;

/// The counts of the events of a cluster's tickets in a simulation.
#[derive(Clone, Copy, PartialEq, Eq)]
pub struct Summary {
    /// The number of events.
    pub events: u64,
    /// The seed from which their words were drawn.
    pub number: u64,
    /// The number of frames of members that arrived.
    pub delivered: u64,
    /// The number of times that a member was stopped and started again.
    pub restarts: u64,
    /// The number of writes that gave a lease while the record before had no lease, or a lease that ended earlier.
    pub gains: u64,
    /// The number of writes that removed a lease which the record before had.
    pub releases: u64,
    /// The greatest term that was written.
    pub greatest_term: u64,
    /// The greatest number of sites that held the same automatic ticket after an event.
    pub most_holders: u64,
}
