//! Who observes a follower, and what a follower begins with.

use booth_follow_rule::{FollowDeed, Margins, News, State};

/// The record of a turn.
#[derive(Clone, Copy)]
pub struct Seen {
    pub margins: Margins,
    /// The reading of the turn, in milliseconds.
    pub reading: u64,
    /// What was learnt before the reading.
    pub heard: News,
    /// Whether the service had to be restarted, since its lease has another term than at its start.
    pub is_outdated: bool,
    /// The status with which a run ended, if one did.
    pub status: Option<i32>,
    /// What the follower knew before the turn.
    pub before: State,
    pub deed: FollowDeed,
    /// What it knows after its action.
    pub after: State,
    /// Whether the run of the action was started.
    pub is_begun: bool,
}

/// Observes each turn of a follower. Nothing that it does changes the follower's actions.
pub trait Watch {
    /// A turn was made.
    fn see(&mut self, seen: &Seen);

    /// The keys were read again, since no answer had arrived. If they could not be read, the old keys stay.
    fn see_keys(&mut self, is_read: bool);
}

/// An observer that does nothing.
#[derive(Clone, Copy)]
pub struct Unwatched;

impl Watch for Unwatched {
    fn see(&mut self, _seen: &Seen) {}

    fn see_keys(&mut self, _is_read: bool) {}
}

/// What a following begins with, besides its command line.
#[derive(Clone, Copy)]
pub struct Setting<W> {
    /// The end in milliseconds until which an earlier follower left the service running, if it did.
    pub left: Option<u64>,
    pub watch: W,
}

impl Setting<Unwatched> {
    /// Returns the setting in which no earlier follower left an end, and nobody observes.
    pub fn bare() -> Setting<Unwatched> {
        Setting {
            left: None,
            watch: Unwatched,
        }
    }
}
