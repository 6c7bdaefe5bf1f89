//! What the log knows about tickets: the lease in the last record, and the last handler.
ghost use Rattle.std.specs.Prelude.{◌≡◌, ◌≤◌, ◌<◌, ◌++◌, ◌∷◌, [], false, bytes_eq, is_some, IfOk, IfSome, length, option_map};
ghost use Rattle.std.specs.Map.{lookup};
ghost use Rattle.indexmap.specs.Layout.{set_value_at};
ghost use Rattle.booth_log.specs.Known.{has_job, known_of, place_of, stored, ticket_of};

use booth_base::Name;
use booth_conf::TICKETS;
use booth_rec::Lease;
use indexmap::IndexMap;
use std::alloc::{AllocError, Global};
use std::marker::Model;

/// What is known about a ticket.
#[derive(Clone, Copy)]
pub(crate) struct Known {
    /// The lease in its last record that was read or written.
    pub(crate) lease: Option<Lease>,
    /// The number of the last handler that was started for it.
    pub(crate) job: Option<u64>,
}

impl Known {
    // Returns whether its last handler has this number.
    fn has_job(&self, number: u64) -> bool
        ensures { result ≡ has_job number self.now }
    {
        match self.job {
            Some(job) => job == number,
            None => false,
        }
    }
}

/// What is known about tickets, by their names. It has memory for as many as a configuration may have, and allocates
/// no more. Contracts see it as a list, in the order in which the tickets were seen.
#[derive(Drop)]
pub(crate) struct Tickets {
    known: IndexMap<Name, Known>,
}

impl Model for Tickets {
    ghost use Rattle.std.specs.Prelude.{List, ℕ, ◌≤◌, ◌+◌};
    ghost use Rattle.indexmap.specs.IndexMap.{index_map_len, spare};
    ghost use Rattle.booth_conf.specs.declared.limits.TheConstants.{TICKETS};
    ghost use Rattle.booth_log.specs.declared.known.Known.{Known};

    ghost Value = { List (List ℕ × Known) };

    ghost view = { λ t. t.known.entries };

    ghost invariant = { λ t. (TICKETS ≤ index_map_len t.known + spare t.known) × (index_map_len t.known ≤ TICKETS) };
}

impl Tickets {
    /// Returns a table without tickets.
    pub(crate) fn new(alloc: Global) -> Result<Tickets, AllocError>
        ensures { IfOk result (λ tickets. tickets ≡ []) }
    {
        Ok(Tickets {
            known: IndexMap::with_capacity(alloc, TICKETS)?,
        })
    }

    /// Returns how many tickets are known.
    pub(crate) fn count(&self) -> usize
        ensures count { result ≡ length self.now }
        ensures few { result ≤ TICKETS }
    {
        self.known.len()
    }

    // Returns the place of a ticket that was seen.
    fn place(&self, ticket: &Name) -> Option<usize>
        ensures place { result ≡ place_of self.now ticket.now }
        ensures met { is_some result ≡ is_some (lookup (bytes_eq ticket.now) self.now) }
        ensures within { IfSome result (λ place. place < length self.now) }
    {
        self.known.get_index_of(ticket)
    }

    /// Returns what is known about a ticket.
    pub(crate) fn known(&self, ticket: &Name) -> Known
        ensures { result ≡ known_of self.now ticket.now }
    {
        match self.known.get(ticket) {
            Some(known) => *known,
            None => Known {
                lease: None,
                job: None,
            },
        }
    }

    // Stores what is known about the ticket at this place.
    fn replace(&mut self, place: usize, known: Known)
        requires { place < length self.old }
        ensures { self.new ≡ set_value_at self.old place known }
    {
        *self.known.get_index_mut(place).unwrap() = known;
    }

    // Adds what is known about a new ticket, if there is room.
    fn add(&mut self, ticket: Name, known: Known)
        requires unmet { is_some (lookup (bytes_eq ticket) self.old) ≡ false }
        requires room { length self.old < TICKETS }
        ensures { self.new ≡ self.old ++ (ticket, known) ∷ [] }
    {
        self.known.insert(ticket, known).unwrap();
    }

    /// Stores what is known about a ticket, if there is room.
    pub(crate) fn store(&mut self, ticket: &Name, known: Known)
        ensures { self.new ≡ stored self.old ticket.now known }
    {
        match self.place(ticket) {
            Some(place) => self.replace(place, known),
            None => {
                if self.count() < TICKETS {
                    self.add(ticket.copy(), known);
                }
            }
        }
    }

    /// Returns the ticket whose last handler has this number.
    pub(crate) fn ticket_of(&self, number: u64) -> Option<&Name>
        ensures { option_map (λ name. name.now) result ≡ ticket_of self.now number }
    {
        for (name, known) in self.known.iter() {
            if known.has_job(number) {
                return Some(name);
            }
        }
        None
    }
}
