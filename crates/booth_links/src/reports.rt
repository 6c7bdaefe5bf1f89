//! The system's reports about the links, handled one by one, and when the system is asked.
ghost use Rattle.std.specs.Prelude.{◌≡◌, ◌+◌, ◌-◌, ◌^◌, [], IfOk, IfSome, OnErr, None, length, min, nat_lt, option_map, slice_get, is_some, true};
ghost use Rattle.mio.specs.Event.{event_token, is_read_closed};
ghost use Rattle.mio.specs.Events.{items};

use crate::pending::{FIRST, PENDING};
use mio::event::Event;
use mio::{Events, Poll};
use std::alloc::{AllocError, Global};
use std::cell::Cell;
use std::io;
use std::rc::Rc;
use std::time::Duration;

/// All lines, the listener and the pending peers.
const SOURCES: usize = FIRST + PENDING;

/// A report.
#[derive(Clone, Copy)]
pub(crate) struct Report {
    /// The token of its registration.
    pub(crate) place: usize,
    /// Whether its peer sends no more.
    pub(crate) is_last: bool,
}

/// The last reports of the system. Each is handled once.
#[derive(Drop)]
pub(crate) struct Reports {
    events: Events,
    /// How many there are, and how many were handled.
    count: usize,
    seen: usize,
    /// What the host that waits for the links' file knows: whether the links have something. None if no host waits for
    /// it.
    known: Option<Rc<Cell<bool>>>,
}

fn report_of(event: &Event) -> Report
    ensures place { result.place ≡ (event_token event.now).0 }
    ensures last { result.is_last ≡ is_read_closed event.now }
{
    Report {
        place: event.token().0,
        is_last: event.is_read_closed(),
    }
}

impl Reports {
    /// Returns a list without reports, with memory for all that can come at once.
    pub(crate) fn new(alloc: Global) -> Result<Reports, AllocError>
        ensures none { IfOk result (λ reports. reports.count ≡ 0) }
        ensures unshared { IfOk result (λ reports. reports.known ≡ None) }
    {
        Ok(Reports {
            events: Events::with_capacity(alloc, SOURCES)?,
            count: 0,
            seen: 0,
            known: None,
        })
    }

    /// Returns the mark for a host that waits for the links' file. From now on the system is asked only if the mark
    /// is set.
    pub(crate) fn share(&mut self, alloc: Global) -> Result<Rc<Cell<bool>>, AllocError>
        ensures shared { IfOk result (λ _. is_some self.new.known ≡ true) }
        ensures count { self.new.count ≡ self.old.count }
        ensures seen { self.new.seen ≡ self.old.seen }
    {
        let Ok(known) = Rc::new(alloc, Cell::new(true)) else {
            return Err(AllocError);
        };
        self.known = Some(known.clone()?);
        Ok(known)
    }

    /// Returns whether the system may have something that was not reported.
    pub(crate) fn may_come(&self) -> bool {
        match &self.known {
            Some(known) => known.get(),
            None => true,
        }
    }

    fn set_known(&self, is_known: bool) {
        if let Some(known) = &self.known {
            known.set(is_known);
        }
    }

    /// Asks the system for all that is ready, and drops the earlier reports.
    pub(crate) fn fetch(&mut self, poll: &mut Poll) -> io::Result<()>
        ensures seen { self.new.seen ≡ 0 }
        ensures count { self.new.count ≡ length (items self.new.events) }
        ensures err { OnErr result (self.new.count ≡ 0) }
    {
        self.seen = 0;
        // (from now on the host's wait says when there is more)
        self.set_known(false);
        let answer = poll.poll(&mut self.events, Some(Duration::ZERO));
        self.count = self.events.iter().len();
        answer
    }

    // Returns the next event, if one is left.
    fn next(&self) -> Option<&Event>
        ensures { option_map (λ event. event.now) result ≡ slice_get (items self.now.events) self.now.seen }
    {
        self.events.iter().nth(self.seen)
    }

    /// Returns whether a report is left.
    pub(crate) fn has_more(&self) -> bool
        ensures { result ≡ nat_lt self.now.seen self.now.count }
    {
        self.seen < self.count
    }

    /// Takes the next report. While more are left, the host does not wait.
    pub(crate) fn take(&mut self) -> Option<Report>
        ensures next { option_map (λ report. report.place) result
            ≡ option_map (λ event. (event_token event).0) (slice_get (items self.old.events) self.old.seen) }
        ensures seen { IfSome result (λ _. self.new.seen ≡ min (self.old.seen + 1) (2 ^ 64 - 1)) }
        ensures events { items self.new.events ≡ items self.old.events }
        ensures count { self.new.count ≡ self.old.count }
    {
        let report = report_of(self.next()?);
        self.seen = self.seen.saturating_add(1);
        self.set_known(self.has_more());
        Some(report)
    }
}
