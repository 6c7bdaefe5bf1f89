//! The ticket that is followed, and the state that is kept from turn to turn.
ghost use Rattle.std.specs.Prelude.{◌≡◌, [], IfOk, None};
ghost use Rattle.booth_base.specs.Address.{id_of};
ghost use Rattle.booth_following.specs.Lists.{line_start};
ghost use Rattle.booth_following.specs.Turns.{first_seat};
ghost use Rattle.booth_following.specs.Following.{IsFollowing, under};

use crate::lines::TicketLine;
use crate::programs::Programs;
use booth_base::{MemberId, Name, Peer};
use booth_follow_rule::{Follower, Margins};
use booth_host::Datagram;
use booth_keys::Ring;
use booth_wire::Frame;
use std::alloc::{AllocError, Global};

/// How a service is run.
#[derive(Drop)]
pub struct ServiceOptions {
    pub programs: Programs,
    pub margins: Margins,
    /// Whether the service is restarted if its lease has another term than at its start.
    pub restarts: bool,
}

/// A ticket, the daemon of this site, and the service that follows the ticket here.
#[derive(Drop)]
pub struct Following {
    pub(crate) ring: Option<Ring>,
    pub(crate) ticket: Name,
    /// Where the daemon of this site listens.
    pub(crate) to: Peer,
    /// The id of this site.
    pub(crate) me: MemberId,
    /// The beginning of the ticket's line while this site holds the ticket.
    pub(crate) line: TicketLine,
    pub(crate) programs: Programs,
    pub(crate) margins: Margins,
    /// Whether the service is restarted if its lease has another term than at its start.
    pub(crate) restarts: bool,
}

impl Following {
    /// Returns a following of the ticket by this service, at the site whose daemon listens at this address.
    pub fn new(
        alloc: Global,
        ring: Option<Ring>,
        ticket: Name,
        to: Peer,
        options: ServiceOptions,
    ) -> Result<Following, AllocError>
        ensures { IfOk result (IsFollowing ring ticket to options) }
    {
        let line = TicketLine::new(alloc, &ticket, &to.address)?;
        Ok(Following {
            ring,
            ticket,
            me: to.address.id(),
            to,
            line,
            programs: options.programs,
            margins: options.margins,
            restarts: options.restarts,
        })
    }

    /// Uses these keys for all later requests and answers.
    pub fn set_ring(&mut self, ring: Option<Ring>)
        ensures { self.new ≡ under self.old ring }
    {
        self.ring = ring;
    }
}

/// The memory of a following: a frame to send, and a datagram that arrives.
#[derive(Drop)]
pub struct Room {
    pub(crate) frame: Frame,
    pub(crate) datagram: Datagram,
}

impl Room {
    /// Allocates all memory that a following needs, except for the following itself.
    pub fn new(alloc: Global) -> Result<Room, AllocError>
        ensures { IfOk result (λ room. room.datagram ≡ []) }
    {
        let frame = Frame::new(alloc)?;
        let datagram = Datagram::new(alloc)?;
        Ok(Room { frame, datagram })
    }
}

/// The state that is kept from turn to turn.
#[derive(Clone, Copy)]
pub struct Seat {
    pub(crate) follower: Follower,
    /// The reading at which the ticket was requested last.
    pub(crate) asked: Option<u64>,
    /// Whether an answer about the ticket has arrived since then.
    pub(crate) told: bool,
    /// The term of this site's lease by the last such answer, or 0.
    pub(crate) term: u32,
    /// The term that was known at the last start of the service. It is 0 if none was, or no start was made.
    pub(crate) started: u32,
    /// The number of a run that could not be started, until the follower learns of it.
    pub(crate) failed: Option<u64>,
    /// Whether the last run that was not a renewal may still be running.
    pub(crate) running: bool,
    /// The last reading, or 0 before the first turn.
    pub(crate) reading: u64,
}

impl Seat {
    /// Returns the seat at which a following begins after an earlier one left this end, in milliseconds.
    pub fn first(f: &Following, left: Option<u64>) -> Seat
        ensures { result ≡ first_seat f.now left }
    {
        Seat {
            follower: Follower::new(f.margins, left),
            asked: None,
            told: false,
            term: 0,
            started: 0,
            failed: None,
            running: false,
            reading: 0,
        }
    }
}
