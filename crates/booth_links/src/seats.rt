//! The sixteen seats of links: which is free, and which link must leave its seat.
ghost use Rattle.std.specs.Prelude.{◌≡◌, IfOk, None, is_none, is_some, replicate, set, take};
ghost use Rattle.std.specs.List.{list_all, list_any, position};
ghost use Rattle.booth_links.specs.Seats.{has_to_leave, is_since};

use booth_stream::LINKS;
use std::alloc::{AllocError, Global};
use std::marker::Model;

/// How long a link may be idle, in milliseconds, if no peer waits for its seat.
pub(crate) const IDLE_MS: u64 = 600_000;

/// How long a link that was answered does not count as idle, in milliseconds. A link that was never answered is idle
/// from its start.
pub(crate) const ANSWERED_MS: u64 = 2_000;

/// Since when each link is idle, by its number; none for a free seat.
#[derive(Drop)]
pub(crate) struct Seats {
    moments: Vec<Option<u64>>,
}

impl Model for Seats {
    ghost use Rattle.std.specs.Prelude.{List, Option, ℕ};

    ghost Value = { List (Option ℕ) };

    ghost view = { λ s. s.moments.items };
}

// Returns whether a seat is free, or its link has been idle since this moment or a later one.
fn is_since(moment: u64, other: &Option<u64>) -> bool
    ensures { result ≡ is_since moment other.now }
{
    match other {
        Some(other) => moment <= *other,
        None => true,
    }
}

// Returns whether no link has been idle since an earlier moment.
fn are_since(moment: u64, moments: &[Option<u64>]) -> bool
    ensures { result ≡ list_all (is_since moment) moments.now }
{
    moments.iter().all(|other| is_since(moment, other))
}

// Returns whether the link of a seat must leave it.
fn has_to_leave(moments: &[Option<u64>], now: u64, limit: u64, moment: &Option<u64>) -> bool
    ensures { result ≡ has_to_leave moments.now now limit moment.now }
{
    match moment {
        Some(moment) => moment.saturating_add(limit) <= now && are_since(*moment, moments),
        None => false,
    }
}

impl Seats {
    /// Returns free seats.
    pub(crate) fn new(alloc: Global) -> Result<Seats, AllocError>
        ensures { IfOk result (λ seats. seats ≡ replicate 16 None) }
    {
        Ok(Seats {
            moments: Vec::from_elem(alloc, None, LINKS)?,
        })
    }

    /// Limits the number of seats. It is called before any link starts.
    pub(crate) fn limit(&mut self, count: usize)
        ensures { self.new ≡ take count self.old }
    {
        self.moments.truncate(count);
    }

    /// Makes the link of this seat idle from this moment on, or frees the seat.
    pub(crate) fn set(&mut self, seat: usize, moment: Option<u64>)
        ensures { self.new ≡ set self.old seat moment }
    {
        if let Some(place) = self.moments.get_mut(seat) {
            *place = moment;
        }
    }

    /// Returns whether a seat has a link.
    pub(crate) fn has_links(&self) -> bool
        ensures { result ≡ list_any is_some self.now }
    {
        self.moments.iter().any(|moment| moment.is_some())
    }

    /// Returns the first free seat.
    pub(crate) fn free(&self) -> Option<usize>
        ensures { result ≡ position is_none self.now }
    {
        self.moments.iter().position(|moment| moment.is_none())
    }

    /// Returns the first of the links that have been idle for longest, if that is at least this long. A link that is
    /// not idle yet is not returned, for any limit.
    pub(crate) fn over(&self, now: u64, limit: u64) -> Option<usize>
        ensures { result ≡ position (has_to_leave self.now now limit) self.now }
    {
        let moments = &self.moments;
        moments
            .iter()
            .position(|moment| has_to_leave(moments, now, limit, moment))
    }
}
