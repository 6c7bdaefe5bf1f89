//! What a host remembers of the tickets whose records it reads and writes: the terms of their leases, and whose next
//! write is not prepared yet.

use booth_base::Name;
use booth_rec::Record;
use std::alloc::{AllocError, Global};
use std::collections::{HashMap, VecDeque};

/// What is remembered of a ticket.
#[derive(Clone, Copy)]
struct Remembered {
    /// The term of this member's lease, or 0 if it has none.
    lease_term: u32,
    /// Whether the ticket waits for its next write to be prepared.
    is_waiting: bool,
}

/// The tickets whose records were read or written.
#[derive(Drop)]
pub(crate) struct Tickets {
    remembered: HashMap<Name, Remembered>,
    /// The tickets that wait for their next write to be prepared, each once, the one that waits longest first.
    waiting: VecDeque<Name>,
}

// Returns the term of the lease in a record, or 0 if there is none.
fn lease_term_in(rec: Option<Record>) -> u32 {
    match rec.and_then(|rec| rec.lease) {
        Some(lease) => lease.term,
        None => 0,
    }
}

impl Tickets {
    /// Returns no tickets.
    pub(crate) fn new(alloc: Global) -> Tickets {
        Tickets {
            remembered: HashMap::new(alloc),
            waiting: VecDeque::new(alloc),
        }
    }

    // Returns what is remembered of a ticket.
    fn remembered(&self, ticket: &Name) -> Remembered {
        match self.remembered.get(ticket) {
            Some(remembered) => *remembered,
            None => Remembered {
                lease_term: 0,
                is_waiting: false,
            },
        }
    }

    // Remembers this of a ticket. It can fail only for a ticket of which nothing is remembered.
    fn remember(&mut self, ticket: &Name, remembered: Remembered) -> Result<(), AllocError> {
        self.remembered.insert(ticket.copy(), remembered)?;
        Ok(())
    }

    /// Returns the term of this member's lease of a ticket, or 0 if it has none.
    pub(crate) fn lease_term(&self, ticket: &Name) -> u32 {
        self.remembered(ticket).lease_term
    }

    /// Notes the record that was read.
    pub(crate) fn note_read(
        &mut self,
        ticket: &Name,
        rec: Option<Record>,
    ) -> Result<(), AllocError> {
        let remembered = Remembered {
            lease_term: lease_term_in(rec),
            ..self.remembered(ticket)
        };
        self.remember(ticket, remembered)
    }

    /// Notes that this record was written. From then on the ticket waits for its next write to be prepared.
    pub(crate) fn note_written(&mut self, ticket: &Name, rec: &Record) {
        let before = self.remembered(ticket);
        let is_waiting = before.is_waiting || self.waiting.push_back(ticket.copy()).is_ok();
        let remembered = Remembered {
            lease_term: lease_term_in(Some(*rec)),
            is_waiting,
        };
        let _ = self.remember(ticket, remembered);
    }

    /// Notes that the write of this record failed. For the lease rules a lease counts even if its record is not
    /// written, and a release counts only once its record is written.
    pub(crate) fn note_unwritten(&mut self, ticket: &Name, rec: &Record) {
        let Some(lease) = rec.lease else {
            return;
        };
        let remembered = Remembered {
            lease_term: lease.term,
            ..self.remembered(ticket)
        };
        let _ = self.remember(ticket, remembered);
    }

    /// Returns whether a ticket waits for its next write to be prepared.
    pub(crate) fn has_waiting(&self) -> bool {
        !self.waiting.is_empty()
    }

    /// Returns the ticket that waits longest for its next write to be prepared, if one waits. The ticket waits no
    /// more.
    pub(crate) fn take_waiting(&mut self) -> Option<Name> {
        let ticket = self.waiting.pop_front()?;
        let remembered = Remembered {
            is_waiting: false,
            ..self.remembered(&ticket)
        };
        let _ = self.remember(&ticket, remembered);
        Some(ticket)
    }
}
