//! What the log knows between two calls.
ghost use Rattle.std.specs.Prelude.{◌≡◌, None, Some, IfOk, length};
ghost use Rattle.booth_log.specs.Calls.{after, at_first, with_job, with_lease};
ghost use Rattle.booth_log.specs.Known.{known_of};

use crate::known::{Known, Tickets};
use booth_base::Name;
use booth_rec::Lease;
use std::alloc::{AllocError, Global};

/// What the log knows between two calls.
#[derive(Drop)]
pub(crate) struct Seen {
    pub(crate) tickets: Tickets,
    /// Whether a place was opened and the daemon has not waited since.
    pub(crate) is_opening: bool,
}

impl Seen {
    /// Returns the state in which nothing is known.
    pub(crate) fn new(alloc: Global) -> Result<Seen, AllocError>
        ensures { IfOk result (λ seen. seen ≡ at_first) }
    {
        Ok(Seen {
            tickets: Tickets::new(alloc)?,
            is_opening: false,
        })
    }

    /// Returns the lease of a ticket.
    pub(crate) fn lease(&self, ticket: &Name) -> Option<Lease>
        ensures { result ≡ (known_of self.now.tickets ticket.now).lease }
    {
        self.tickets.known(ticket).lease
    }

    /// Stores the lease of a ticket.
    pub(crate) fn set_lease(&mut self, ticket: &Name, lease: Option<Lease>)
        ensures { self.new ≡ with_lease self.old ticket.now lease }
    {
        let known = self.tickets.known(ticket);
        self.tickets.store(ticket, Known { lease, ..known });
    }

    /// Stores the last handler of a ticket.
    pub(crate) fn set_job(&mut self, ticket: &Name, number: u64)
        ensures { self.new ≡ with_job self.old ticket.now number }
    {
        let known = self.tickets.known(ticket);
        let job = Some(number);
        self.tickets.store(ticket, Known { job, ..known });
    }
}
