//! The time during which a member held a ticket.

/// A member had a lease of a ticket on its disk, or tried to write one. Ticket and member are given by their places
/// in the configuration.
#[derive(Clone, Copy)]
pub struct Holding {
    pub ticket: u32,
    pub member: u32,
    /// The reading in use when it read or wrote the lease, in ms since 1970.
    pub from: u64,
    /// The end of the lease.
    pub until: u64,
}
