//! How long a write of a record may take, from the environment or from the times of the tickets.

use booth_conf::{Config, TicketConf};
use booth_real::{Priority, Speaker};
use std::env;

/// The variable of the environment with a limit in milliseconds; 0 for none.
const LIMIT: &str = "BOOTH_WRITE_LIMIT";

/// How many writes follow one another in a renewal: the holder's own promise, the promises of the others, and the
/// lease.
const WRITES: u64 = 3;

// Returns a third of the time between the renewal of a lease and its end.
fn limit_of(ticket: &TicketConf) -> u64 {
    ticket.times.expire.saturating_sub(ticket.times.renewal) / WRITES
}

// Returns the shortest limit of automatic tickets. A write delays all tickets of a daemon.
fn shortest_limit(config: &Config) -> Option<u64> {
    let mut shortest = None;
    for ticket in config.tickets() {
        if !ticket.manual {
            let limit = limit_of(ticket);
            shortest = Some(limit.min(shortest.unwrap_or(limit)));
        }
    }
    shortest
}

// Returns the limit of this configuration, if there is one.
fn limit_in(config: Option<&Config>) -> Option<u64> {
    shortest_limit(config?)
}

/// Returns how many milliseconds a write of a record may take in a daemon with this configuration, if there is a
/// limit. The environment overrides the times of its tickets.
pub(crate) fn write_limit(rt: &HostRuntime, config: Option<&Config>) -> Option<u64> {
    let Ok(named) = env::var(rt, LIMIT) else {
        return limit_in(config);
    };
    match named.parse::<u64>() {
        Ok(0) => None,
        Ok(limit) => Some(limit),
        Err(_) => {
            let line = b"BOOTH_WRITE_LIMIT is no number of milliseconds, and counts for nothing";
            Speaker::new(*rt, "boothd").say(Priority::Warning, line);
            limit_in(config)
        }
    }
}
