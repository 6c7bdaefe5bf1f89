//! The times of a follower, and which of them fit a ticket.
ghost use Rattle.std.specs.Prelude.{◌≡◌, ◌+◌, ◌-◌, ◌≤◌, ◌<◌, MatchBool, MatchResult};
ghost use Rattle.booth_follow_rule.specs.Margins.{Fits, HasFault, margins_of};

use thiserror::Error;

/// How long a list and a renewal may take, in milliseconds.
const SLACK: u64 = 2_000;

/// The shortest time of a kill, in milliseconds.
const LEAST_KILL: u64 = 1_000;

/// How long a stopped service stays stopped, and how long a renewal may run before it is run again, in milliseconds.
const PAUSE: u64 = 5_000;

/// The time from a run that failed to renew to the next such run, in milliseconds.
///
/// It is less than the second between two requests for a list. The failure of a run that cannot be started takes the
/// place of the next news, and with exactly a second this would be each list.
pub(crate) const RETRY: u64 = 900;

/// How much later than the armed end an end must be for a renewal, in milliseconds.
///
/// An answer has the seconds that are left, in whole seconds. So the ends in the answers about one lease differ by up to
/// a second, and from answer to answer they rise by the time by which the follower wakes late.
pub(crate) const RISE: u64 = 250;

/// The times of a follower, in milliseconds.
#[derive(Clone, Copy)]
pub struct Margins {
    /// How long before the end of the lease the service is stopped.
    pub margin: u64,
    /// How long before that end it is killed, if it has not stopped.
    pub kill: u64,
    /// How long a stopped service stays stopped, and how long a renewal may run before it is run again.
    pub pause: u64,
}

/// Why margins do not fit a ticket.
#[derive(Clone, Copy, Debug, Drop, Error)]
pub enum MarginFault {
    #[error("the margin is too long: the service would be stopped before the lease is renewed")]
    MarginTooLong,
    #[error("the kill would come before the stop has any time")]
    KillTooLong,
    #[error("a kill has too little time")]
    KillTooShort,
}

// Returns whether a lease with this time between renewals runs out a margin before the next renewal.
fn is_too_long(expire: u64, renewal: u64, margin: u64) -> bool
    ensures { MatchBool result (expire < margin + SLACK + renewal) (margin + SLACK + renewal ≤ expire) }
{
    let room = expire.saturating_sub(renewal);
    room < SLACK || room - SLACK < margin
}

impl Margins {
    /// Returns the times for a ticket with this `expire` and this time between two renewals. If they are not given,
    /// the margin is half of what is left of a lease at its renewal, and the time of a kill half of the margin.
    ///
    /// # Errors
    ///
    /// The first of the faults that applies.
    pub fn choose(
        expire: u64,
        renewal: u64,
        margin: Option<u64>,
        kill: Option<u64>,
    ) -> Result<Margins, MarginFault>
        ensures { MatchResult result
            (λ m. (m ≡ margins_of expire renewal margin kill) × Fits expire renewal m)
            (λ fault. HasFault expire renewal (margins_of expire renewal margin kill) fault) }
    {
        let margin = margin.unwrap_or(expire.saturating_sub(renewal) / 2);
        let kill = kill.unwrap_or(margin / 2);
        if is_too_long(expire, renewal, margin) {
            return Err(MarginFault::MarginTooLong);
        }
        if margin <= kill {
            return Err(MarginFault::KillTooLong);
        }
        if kill < LEAST_KILL {
            return Err(MarginFault::KillTooShort);
        }
        Ok(Margins {
            margin,
            kill,
            pause: PAUSE,
        })
    }
}
