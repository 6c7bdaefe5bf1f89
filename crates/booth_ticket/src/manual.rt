//! A manual ticket: its state, and its actions in each call.
ghost use Rattle.std.specs.Prelude.{◌≡◌, ◌≤◌, ◌<◌, ◌^◌, None, IsTrue, length, slice_set};
ghost use Rattle.booth_raft.specs.Sound.{IsSound};
ghost use Rattle.booth_ticket.specs.Acts.{Did};
ghost use Rattle.booth_ticket.specs.Manual.{manual_heard};
ghost use Rattle.booth_ticket.specs.ManualHandling.{greeting, is_awaited, is_late, limit_due, manual_deadline, manual_due, manual_over};
ghost use Rattle.booth_ticket.specs.ManualRequests.{manual_asked};
ghost use Rattle.booth_ticket.specs.Waiting.{spare_in, waiting_at};

use crate::handling::Service;
use crate::hands::Hands;
use crate::manual_handling::{grant_after, tell_waiters};
use crate::manual_requests::{as_waiting, do_for, manual_reply};
use crate::request::{Given, Request};
use crate::saying::say;
use crate::telling::join;
use crate::waiters::Waiters;
use booth_manual::{Manual, ManualView};
use booth_raft::Told;
use booth_rec::Record;
use booth_wire::{Head, Say, Setup, TicketPart};
use std::marker::Model;

/// The handler that runs before a grant of a manual ticket.
#[derive(Clone, Copy)]
pub struct Job {
    pub number: u64,
    /// The time from which it counts as failed, in milliseconds since 1970.
    pub limit: u64,
}

/// A manual ticket at one member.
#[derive(Drop)]
pub(crate) struct ManualTicket {
    rules: Manual,
    /// The reading of the ticket's start, until it has asked all members for their state.
    greets_at: Option<u64>,
    /// The handler that runs before a grant.
    running: Option<Job>,
}

impl Model for ManualTicket {
    ghost use Rattle.std.specs.Prelude.{◌≡◌, None};
    ghost use Rattle.booth_raft.specs.Sound.{IsSound};
    ghost use Rattle.booth_ticket.specs.Manual.{ManualState, known_as};

    ghost Value = { ManualState };

    ghost view = { λ ticket. record {
      setup = ticket.rules.setup;
      known = known_as ticket.rules.view ticket.greets_at ticket.running;
    } };

    ghost invariant = { λ ticket. IsSound ticket.rules.setup × (ticket.rules.view.waiting ≡ None) };
}

impl ManualTicket {
    ghost use Rattle.std.specs.Prelude.{option_copied};
    ghost use Rattle.booth_rec.specs.Record.{record_or_none};
    ghost use Rattle.booth_ticket.specs.Manual.{manual_started};

    /// Starts a manual ticket from the record that was written last.
    pub fn open(setup: &Setup, kept: Option<&Record>, now: u64) -> ManualTicket
        requires sound { IsSound setup.now }
        requires second { IsTrue setup.now.second }
        ensures { result ≡ record {
          setup = setup.now;
          known = manual_started (record_or_none (option_copied kept.entry)) now;
        } }
    {
        ManualTicket {
            rules: Manual::start(setup, kept),
            greets_at: Some(now),
            running: None,
        }
    }

    /// Returns the setup with which the ticket started.
    pub fn setup(&self) -> &Setup
        ensures value { result.now ≡ self.now.setup }
        ensures sound { IsSound result.now }
    {
        self.rules.setup()
    }

    /// Returns the state of the ticket's rules.
    pub fn view(&self) -> &ManualView
        ensures { result.now ≡ self.now.known.view }
    {
        self.rules.view()
    }

    /// Returns the ticket's next deadline: the time to ask all members for their state, or else the latest end of the
    /// handler.
    pub fn deadline(&self) -> Option<u64>
        ensures { result ≡ manual_deadline self.now.known }
    {
        if self.greets_at.is_some() {
            return self.greets_at;
        }
        self.running.map(|job| job.limit)
    }

    /// Handles a message of the member at the place `from`.
    pub fn hear<W: Hands>(&mut self, from: u32, head: &Head, part: &TicketPart, hands: &mut W)
        ensures did { Did W.did (manual_heard self.old from head.now part.now) self.new hands.old hands.new }
    {
        let words = self.rules.hear(head, part);
        say(self.rules.setup(), Some(from), &words, hands);
    }

    /// Handles a client's request. The reply is the last act.
    pub fn client<W: Hands>(
        &mut self,
        request: &Request,
        given: Given,
        list: u32,
        waiters: &mut Waiters,
        hands: &mut W,
    )
        requires early { given.now < 2 ^ 62 }
        requires exists { list < length waiters.old }
        ensures did { Did W.did
            (manual_asked self.old (waiting_at waiters.old list) (spare_in waiters.old) given request.now)
            (record { ticket = self.new; waiters = waiting_at waiters.new list }) hands.old hands.new }
        ensures others { waiters.new ≡ slice_set waiters.old list (waiting_at waiters.new list) }
    {
        let answer = do_for(
            &mut self.rules,
            &mut self.running,
            request,
            waiters.spare(),
            given,
            hands,
        );
        manual_reply(&self.rules, request, answer, hands);
        join(&as_waiting(request), answer, list, waiters);
    }

    // Returns whether the ticket waits for this job.
    fn awaits(&self, job: u64) -> bool
        ensures { result ≡ is_awaited self.now.known.job job }
    {
        self.running.is_some_and(|awaited| awaited.number == job)
    }

    /// Handles the end of a handler. A job that is not one of the ticket changes nothing.
    pub fn handler_done<W: Hands>(
        &mut self,
        job: u64,
        service: Service,
        list: u32,
        waiters: &mut Waiters,
        hands: &mut W,
    )
        requires exists { list < length waiters.old }
        ensures did { Did W.did (manual_over self.old (waiting_at waiters.old list) job service)
            (record { ticket = self.new; waiters = waiting_at waiters.new list }) hands.old hands.new }
        ensures others { waiters.new ≡ slice_set waiters.old list (waiting_at waiters.new list) }
    {
        if !self.awaits(job) {
            return;
        }
        let told = grant_after(&mut self.rules, service, hands);
        self.running = None;
        tell_waiters(&self.rules, told, list, waiters, hands);
    }

    // Returns the message at the deadline.
    fn greeting(&self) -> Say
        ensures { result ≡ greeting self.now.setup self.now.known }
    {
        if self.greets_at.is_some() {
            self.rules.hello()
        } else {
            Say::Nothing
        }
    }

    // Returns whether a handler runs that should have ended by now.
    fn is_late(&self, now: u64) -> bool
        ensures { result ≡ is_late self.now.known.job now }
    {
        self.running.is_some_and(|job| job.limit <= now)
    }

    // Ends a late handler as failed.
    fn end_late<W: Hands>(&mut self, now: u64, list: u32, waiters: &mut Waiters, hands: &mut W)
        requires exists { list < length waiters.old }
        ensures did { Did W.did (limit_due self.old (waiting_at waiters.old list) now)
            (record { ticket = self.new; waiters = waiting_at waiters.new list }) hands.old hands.new }
        ensures others { waiters.new ≡ slice_set waiters.old list (waiting_at waiters.new list) }
    {
        if !self.is_late(now) {
            return;
        }
        self.running = None;
        tell_waiters(&self.rules, Told::HandlerFailed, list, waiters, hands);
    }

    /// Handles the deadline.
    pub fn tick<W: Hands>(&mut self, now: u64, list: u32, waiters: &mut Waiters, hands: &mut W)
        requires exists { list < length waiters.old }
        ensures did { Did W.did (manual_due self.old (waiting_at waiters.old list) now)
            (record { ticket = self.new; waiters = waiting_at waiters.new list }) hands.old hands.new }
        ensures others { waiters.new ≡ slice_set waiters.old list (waiting_at waiters.new list) }
    {
        say(self.rules.setup(), None, &self.greeting(), hands);
        self.greets_at = None;
        self.end_late(now, list, waiters, hands);
    }
}
