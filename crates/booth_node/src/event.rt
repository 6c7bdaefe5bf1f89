//! The events of a ticket in a turn.
use booth_ticket::{Request, Service};
use booth_wire::{Head, TicketPart};

/// An event of a ticket in a turn.
#[derive(Drop)]
pub(crate) enum Event {
    /// The ticket's deadline has passed.
    Due,
    /// The member with this index sent a message about the ticket.
    Heard {
        from: u32,
        head: Head,
        part: TicketPart,
    },
    /// A client sent a request about the ticket.
    Asked(Request),
    /// A run of a handler (job) has ended.
    Over {
        job: u64,
        service: Service,
    },
}
