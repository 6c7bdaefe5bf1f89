//! A ticket.
ghost use Rattle.std.specs.Prelude.{◌≡◌, ◌≢◌, ◌<◌, ◌^◌, IsTrue, length, slice_set};
ghost use Rattle.booth_ticket.specs.Ticket.{manual_owner, shown_owner};

use crate::handling::Service;
use crate::hands::Hands;
use crate::manual::ManualTicket;
use crate::request::{Given, Request};
use crate::standing::{endless_part, told_part};
use crate::telling::tell;
use crate::waiters::Waiters;
use crate::{automatic, handling, requests};
use booth_base::MemberId;
use booth_raft::{Core, Shown};
use booth_rec::Record;
use booth_wire::{Head, Setup, TicketPart};
use std::marker::Model;

/// The known owner of a ticket.
#[derive(Clone, Copy)]
pub struct Owner {
    pub site: MemberId,
    /// The end of its lease, in whole seconds since 1970.
    pub until_secs: u64,
}

/// A ticket at one member.
///
/// Every `now` is a reading of the member's clock in milliseconds since 1970, below 2^62. The clients that wait for
/// the ticket are in the list `list` of `waiters`, and no call changes another list. No call allocates memory.
#[derive(Drop)]
pub struct Ticket {
    kind: Kind,
}

/// The rules of a ticket, by its kind.
#[derive(Drop)]
enum Kind {
    /// A majority of the members grants it.
    Automatic(Core),
    /// Only an operator grants it.
    Manual(ManualTicket),
}

impl Model for Ticket {
    ghost use Rattle.booth_ticket.specs.Kinds.{IsIdle, state_of};
    ghost use Rattle.booth_ticket.specs.Ticket.{TicketState};

    ghost Value = { TicketState };

    ghost view = { λ ticket. state_of ticket.kind };

    ghost invariant = { λ ticket. IsIdle ticket.kind };
}

// Returns the known owner, while its lease has not ended.
fn shown_owner(shown: Option<Shown>, now: u64) -> Option<Owner>
    ensures { result ≡ shown_owner shown now }
{
    let shown = shown.filter(|shown| now < shown.until)?;
    Some(Owner {
        site: shown.owner,
        until_secs: shown.until / 1000,
    })
}

// Returns the owner of a manual ticket, whose lease has no end.
fn manual_owner(ticket: &ManualTicket) -> Option<Owner>
    ensures { result ≡ manual_owner ticket.now.setup ticket.now.known.view }
{
    let view = ticket.view();
    let site = if view.owner {
        Some(ticket.setup().me)
    } else {
        view.shown
    };
    Some(Owner {
        site: site?,
        until_secs: 0,
    })
}

impl Ticket {
    ghost use Rattle.booth_raft.specs.Sound.{IsSound};
    ghost use Rattle.booth_rec.specs.Record.{record_or_none};
    ghost use Rattle.std.specs.Prelude.{option_copied};
    ghost use Rattle.booth_ticket.specs.Acts.{Did};
    ghost use Rattle.booth_ticket.specs.Ticket.{opened, opened_by_hand, ticket_heard, ticket_asked, ticket_due, ticket_over, deadline, owner, told_ticket, IsDue};
    ghost use Rattle.booth_ticket.specs.Waiting.{waiting_at, spare_in};

    /// Starts an automatic ticket from the record that was written last.
    pub fn open(setup: &Setup, kept: Option<&Record>, now: u64) -> Ticket
        requires sound { IsSound setup.now }
        requires second { IsTrue setup.now.second }
        requires early { now < 2 ^ 62 }
        ensures { result ≡ opened setup.now (record_or_none (option_copied kept.entry)) now }
    {
        Ticket {
            kind: Kind::Automatic(Core::start(setup, kept, now)),
        }
    }

    /// Starts a manual ticket from the record that was written last.
    pub fn open_manual(setup: &Setup, kept: Option<&Record>, now: u64) -> Ticket
        requires sound { IsSound setup.now }
        requires second { IsTrue setup.now.second }
        ensures { result ≡ opened_by_hand setup.now (record_or_none (option_copied kept.entry)) now }
    {
        Ticket {
            kind: Kind::Manual(ManualTicket::open(setup, kept, now)),
        }
    }

    /// Returns the setup with which the ticket started.
    pub fn setup(&self) -> &Setup
        ensures value { result.now ≡ self.now.setup }
        ensures sound { IsSound result.now }
    {
        match &self.kind {
            Kind::Automatic(core) => core.setup(),
            Kind::Manual(ticket) => ticket.setup(),
        }
    }

    /// Handles a message of the member at the place `from`, which is not this member.
    pub fn hear<W: Hands>(
        &mut self,
        now: u64,
        from: u32,
        head: &Head,
        part: &TicketPart,
        list: u32,
        waiters: &mut Waiters,
        hands: &mut W,
    )
        requires early { now < 2 ^ 62 }
        requires place { from < self.old.setup.members }
        requires other { from ≢ self.old.setup.place }
        requires exists { list < length waiters.old }
        ensures did { Did W.did (ticket_heard self.old.setup self.old.known (waiting_at waiters.old list)
            from head.now part.now now)
            (record { ticket = self.new; waiters = waiting_at waiters.new list }) hands.old hands.new }
        ensures setup { self.new.setup ≡ self.old.setup }
        ensures others { waiters.new ≡ slice_set waiters.old list (waiting_at waiters.new list) }
    {
        match &mut self.kind {
            Kind::Automatic(core) => {
                let last = automatic::hear_message(core, from, head, part, now, hands);
                tell(core, &last, now, list, waiters, hands)
            }
            Kind::Manual(ticket) => ticket.hear(from, head, part, hands),
        }
    }

    /// Handles a client's request. `ready` is true if the prerequisites of the requested grant hold. If the ticket
    /// has a handler, `job` is the number under which it may be started. The reply is the last act.
    pub fn client<W: Hands>(
        &mut self,
        now: u64,
        request: &Request,
        ready: bool,
        job: Option<u64>,
        list: u32,
        waiters: &mut Waiters,
        hands: &mut W,
    )
        requires early { now < 2 ^ 62 }
        requires exists { list < length waiters.old }
        ensures did { Did W.did (ticket_asked self.old.setup self.old.known (waiting_at waiters.old list)
            (spare_in waiters.old) (record { now = now; ready = ready; job = job }) request.now)
            (record { ticket = self.new; waiters = waiting_at waiters.new list }) hands.old hands.new }
        ensures setup { self.new.setup ≡ self.old.setup }
        ensures others { waiters.new ≡ slice_set waiters.old list (waiting_at waiters.new list) }
    {
        let given = Given { now, ready, job };
        match &mut self.kind {
            Kind::Automatic(core) => {
                requests::follow_request(core, request, given, list, waiters, hands)
            }
            Kind::Manual(ticket) => ticket.client(request, given, list, waiters, hands),
        }
    }

    /// Handles the end of a handler. A job of another ticket, or an earlier job, changes nothing.
    pub fn handler_done<W: Hands>(
        &mut self,
        now: u64,
        job: u64,
        service: Service,
        list: u32,
        waiters: &mut Waiters,
        hands: &mut W,
    )
        requires early { now < 2 ^ 62 }
        requires exists { list < length waiters.old }
        ensures did { Did W.did (ticket_over self.old.setup self.old.known (waiting_at waiters.old list)
            job service now)
            (record { ticket = self.new; waiters = waiting_at waiters.new list }) hands.old hands.new }
        ensures setup { self.new.setup ≡ self.old.setup }
        ensures others { waiters.new ≡ slice_set waiters.old list (waiting_at waiters.new list) }
    {
        match &mut self.kind {
            Kind::Automatic(core) => {
                let last = handling::hear_job(core, job, service, now, hands);
                tell(core, &last, now, list, waiters, hands)
            }
            Kind::Manual(ticket) => ticket.handler_done(job, service, list, waiters, hands),
        }
    }

    /// Handles the deadline. `ready` is true if the prerequisites of a takeover hold. If the ticket has a handler,
    /// `job` is the number under which it may be started.
    pub fn tick<W: Hands>(
        &mut self,
        now: u64,
        ready: bool,
        job: Option<u64>,
        list: u32,
        waiters: &mut Waiters,
        hands: &mut W,
    )
        requires early { now < 2 ^ 62 }
        requires due { IsDue self.old.known now }
        requires exists { list < length waiters.old }
        ensures did { Did W.did (ticket_due self.old.setup self.old.known (waiting_at waiters.old list)
            (record { now = now; ready = ready; job = job }))
            (record { ticket = self.new; waiters = waiting_at waiters.new list }) hands.old hands.new }
        ensures setup { self.new.setup ≡ self.old.setup }
        ensures others { waiters.new ≡ slice_set waiters.old list (waiting_at waiters.new list) }
    {
        match &mut self.kind {
            Kind::Automatic(core) => {
                automatic::come_due(core, Given { now, ready, job }, list, waiters, hands)
            }
            Kind::Manual(ticket) => ticket.tick(now, list, waiters, hands),
        }
    }

    /// Returns the ticket's next deadline, in milliseconds since 1970.
    pub fn deadline(&self) -> Option<u64>
        ensures { result ≡ deadline self.now.known }
    {
        match &self.kind {
            Kind::Automatic(core) => core.view().due,
            Kind::Manual(ticket) => ticket.deadline(),
        }
    }

    /// Returns the known owner now, or `None` if no owner is known.
    pub fn owner(&self, now: u64) -> Option<Owner>
        ensures { result ≡ owner self.now.setup self.now.known now }
    {
        match &self.kind {
            Kind::Automatic(core) => shown_owner(core.view().shown, now),
            Kind::Manual(ticket) => manual_owner(ticket),
        }
    }
    /// Returns the state of the ticket now, for a client that asks for this ticket alone: the holder, the term of its
    /// lease, and the seconds that are left. Only the holder reports a term. The term is 0 if another member holds
    /// the ticket, or no member does.
    pub fn told(&self, now: u64) -> TicketPart
        ensures { result ≡ told_ticket self.now.setup self.now.known now }
    {
        match &self.kind {
            Kind::Automatic(core) => told_part(core.setup(), core.view(), now),
            Kind::Manual(ticket) => endless_part(ticket.setup(), manual_owner(ticket)),
        }
    }
}
