//! The limits of a configuration.

/// The most bytes of a text.
pub const TEXT_BYTES: usize = 16_777_216;

/// The most tickets.
pub const TICKETS: usize = 4_096;

/// The most prerequisites of a ticket, including inherited ones.
pub const PREREQS: usize = 8;

/// The longest time in seconds.
pub const SECONDS: u32 = 10_000_000;

/// The fewest tries of a ticket.
pub const LEAST_RETRIES: u32 = 3;

/// The most tries of a ticket.
pub const MOST_RETRIES: u32 = 100;

/// The greatest weight of a member.
pub const WEIGHT: u32 = 1_000_000_000;
