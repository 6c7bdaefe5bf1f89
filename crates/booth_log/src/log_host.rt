//! A host that logs its calls, over any other host.
ghost use Rattle.std.specs.Prelude.{◌≡◌, ◌≤◌, [], ◌∷◌, IfOk, List, Option, length};
ghost use Rattle.booth_host.specs.Past.{GrewBy};
ghost use Rattle.booth_host.specs.Causes.{HasCause, HasReadCause};
ghost use Rattle.booth_host.specs.declared.entry.Entry.{Entry};
ghost use Rattle.booth_log.specs.Known.{ticket_of};
ghost use Rattle.booth_log.specs.Said.{SaidMore};
ghost use Rattle.booth_log.specs.Texts.{line};
ghost use Rattle.booth_log.specs.Calls.{after, arrival_lines, at_first, ended_lines, ended_text, found_lease, lease_lines, lines_of, opening_lines};

use crate::Lines;
use crate::happening::{Ending, Happening, lease_change};
use crate::known::Tickets;
use crate::line::Line;
use crate::seen::Seen;
use crate::texts::{
    begins_line, happening_line, ready_line, status_line, stray_line, unstarted_line,
};
use booth_base::{ByteText, Name, Peer};
use booth_host::{Arrival, Datagram, Failed, Host, Job, Place, ReadFault};
use booth_rec::{Lease, Record};
use std::alloc::{AllocError, Global};

/// A host over a host: it passes each call on, returns the answer, and then logs the call if it has a line.
#[derive(Drop)]
pub struct LogHost<H, L> {
    host: H,
    lines: L,
    seen: Seen,
}

// Returns the lease of a record that was found, if it has one.
fn found_lease(found: &Option<Record>) -> Option<Lease>
    ensures { result ≡ found_lease found.now }
{
    match found {
        Some(record) => record.lease,
        None => None,
    }
}

// Returns the line for a handler that ended with a status.
fn ended_line(tickets: &Tickets, job: u64, status: i32) -> Line
    ensures { result ≡ line (ended_text (ticket_of tickets.now job) job status) }
{
    match tickets.ticket_of(job) {
        Some(ticket) => status_line(ticket, status),
        None => stray_line(job, status),
    }
}

impl<H: Host, L: Lines> LogHost<H, L> {
    /// Returns a host over this host, whose lines go to `lines`. It allocates all its memory here.
    pub fn new(alloc: Global, host: H, lines: L) -> Result<LogHost<H, L>, AllocError>
    where
        H: Drop,
        L: Drop,
        ensures made { IfOk result (λ made. (made.host ≡ host) × (made.lines ≡ lines)) }
        ensures nothing_known { IfOk result (λ made. made.seen ≡ at_first) }
    {
        let seen = Seen::new(alloc)?;
        Ok(LogHost { host, lines, seen })
    }

    /// Returns the sink of the lines.
    pub fn lines(&self) -> &L
        ensures { result.now ≡ self.now.lines }
    {
        &self.lines
    }

    // Logs a change of a ticket's lease, if there is one.
    fn tell_lease(&mut self, ticket: &Name, happens: Option<Happening>)
        ensures says { SaidMore (L.said self.old.lines) (L.said self.new.lines) (lease_lines ticket.now happens) }
        ensures host { self.new.host ≡ self.old.host }
        ensures seen { self.new.seen ≡ self.old.seen }
    {
        if let Some(happening) = happens {
            self.lines.say(happening_line(ticket, &happening).bytes());
        }
    }

    // Logs how many tickets there are, when the opening ends.
    fn tell_opening(&mut self)
        ensures says { SaidMore (L.said self.old.lines) (L.said self.new.lines) (opening_lines self.old.seen) }
        ensures host { self.new.host ≡ self.old.host }
        ensures seen { self.new.seen ≡ self.old.seen }
    {
        if self.seen.is_opening {
            let tickets = self.seen.tickets.count();
            self.lines.say(ready_line(tickets).bytes());
        }
    }

    // Logs that a handler ended with a status other than 0.
    fn tell_status(&mut self, job: u64, status: i32)
        ensures says { SaidMore (L.said self.old.lines) (L.said self.new.lines) (ended_lines self.old.seen job status) }
        ensures host { self.new.host ≡ self.old.host }
        ensures seen { self.new.seen ≡ self.old.seen }
    {
        if status != 0 {
            self.lines
                .say(ended_line(&self.seen.tickets, job, status).bytes());
        }
    }

    // Logs an arrival, if it has a line.
    fn tell_arrival(&mut self, answer: &Result<Arrival, Failed>)
        ensures says { SaidMore (L.said self.old.lines) (L.said self.new.lines)
            (arrival_lines self.old.seen answer.now) }
        ensures host { self.new.host ≡ self.old.host }
        ensures seen { self.new.seen ≡ self.old.seen }
    {
        match answer {
            Ok(Arrival::Handler { job, status }) => self.tell_status(*job, *status),
            Ok(Arrival::Datagram(_) | Arrival::Quiet | Arrival::Stop) | Err(Failed) => {}
        }
    }
}

impl<H: Host, L: Lines> Host for LogHost<H, L> {
    ghost past = { λ h. H.past h.host };

    ghost faults = { λ h. H.faults h.host };

    fn open(&mut self, place: &Place) -> Result<(), Failed>
        ensures past { GrewBy (H.past self.old.host) (H.past self.new.host)
            (Entry.Open place.now.local place.now.port place.now.records place.now.conf_path result ∷ []) }
        ensures cause { HasCause (H.faults self.old.host) (H.faults self.new.host) result }
        ensures says { SaidMore (L.said self.old.lines) (L.said self.new.lines)
            (lines_of self.old.seen
            (Entry.Open place.now.local place.now.port place.now.records place.now.conf_path result)) }
        ensures seen { self.new.seen ≡ after self.old.seen
            (Entry.Open place.now.local place.now.port place.now.records place.now.conf_path result) }
    {
        let answer = self.host.open(place);
        if answer.is_ok() {
            self.lines.say(begins_line(place).bytes());
            self.seen.is_opening = true;
        }
        answer
    }

    fn next(&mut self, wait_ms: u64, into: &mut Datagram) -> Result<Arrival, Failed>
        ensures past { GrewBy (H.past self.old.host) (H.past self.new.host)
            (Entry.Next wait_ms result into.new ∷ []) }
        ensures cause { HasCause (H.faults self.old.host) (H.faults self.new.host) result }
        ensures says { SaidMore (L.said self.old.lines) (L.said self.new.lines)
            (lines_of self.old.seen (Entry.Next wait_ms result into.new)) }
        ensures seen { self.new.seen ≡ after self.old.seen
            (Entry.Next wait_ms result into.new) }
    {
        let answer = self.host.next(wait_ms, into);
        self.tell_opening();
        self.tell_arrival(&answer);
        self.seen.is_opening = false;
        answer
    }

    fn kept(&mut self, ticket: &Name) -> Result<Option<Record>, Failed>
        ensures past { GrewBy (H.past self.old.host) (H.past self.new.host)
            (Entry.Kept ticket.now result ∷ []) }
        ensures cause { HasCause (H.faults self.old.host) (H.faults self.new.host) result }
        ensures says { SaidMore (L.said self.old.lines) (L.said self.new.lines)
            (lines_of self.old.seen (Entry.Kept ticket.now result)) }
        ensures seen { self.new.seen ≡ after self.old.seen
            (Entry.Kept ticket.now result) }
    {
        let answer = self.host.kept(ticket);
        if let Ok(found) = &answer {
            let lease = found_lease(found);
            self.tell_lease(ticket, lease.map(Happening::Begins));
            self.seen.set_lease(ticket, lease);
        }
        answer
    }

    fn keep(&mut self, ticket: &Name, rec: &Record) -> Result<(), Failed>
        ensures past { GrewBy (H.past self.old.host) (H.past self.new.host)
            (Entry.Keep ticket.now rec.now result ∷ []) }
        ensures cause { HasCause (H.faults self.old.host) (H.faults self.new.host) result }
        ensures says { SaidMore (L.said self.old.lines) (L.said self.new.lines)
            (lines_of self.old.seen (Entry.Keep ticket.now rec.now result)) }
        ensures seen { self.new.seen ≡ after self.old.seen
            (Entry.Keep ticket.now rec.now result) }
    {
        let answer = self.host.keep(ticket, rec);
        let before = self.seen.lease(ticket);
        match answer {
            Ok(()) => {
                self.tell_lease(ticket, lease_change(before, rec.lease, Ending::Kept));
                self.seen.set_lease(ticket, rec.lease);
            }
            Err(Failed) => {
                self.tell_lease(ticket, lease_change(before, rec.lease, Ending::Failed));
            }
        }
        answer
    }

    fn start(&mut self, job: &Job) -> Result<(), Failed>
        ensures past { GrewBy (H.past self.old.host) (H.past self.new.host)
            (Entry.Start job.now.number job.now.ticket job.now.handler job.now.local job.now.expires result ∷ []) }
        ensures cause { HasCause (H.faults self.old.host) (H.faults self.new.host) result }
        ensures says { SaidMore (L.said self.old.lines) (L.said self.new.lines)
            (lines_of self.old.seen
            (Entry.Start job.now.number job.now.ticket job.now.handler job.now.local job.now.expires result)) }
        ensures seen { self.new.seen ≡ after self.old.seen
            (Entry.Start job.now.number job.now.ticket job.now.handler job.now.local job.now.expires result) }
    {
        let answer = self.host.start(job);
        match answer {
            Ok(()) => self.seen.set_job(&job.ticket, job.number),
            Err(Failed) => self.lines.say(unstarted_line(&job.ticket).bytes()),
        }
        answer
    }

    fn now(&mut self) -> u64
        ensures past { GrewBy (H.past self.old.host) (H.past self.new.host)
            (Entry.Now result ∷ []) }
        ensures later { H.faults self.old.host ≤ H.faults self.new.host }
        ensures says { SaidMore (L.said self.old.lines) (L.said self.new.lines)
            (lines_of self.old.seen (Entry.Now result)) }
        ensures seen { self.new.seen ≡ after self.old.seen
            (Entry.Now result) }
    {
        self.host.now()
    }

    fn send(&mut self, to: &Peer, bytes: &[u8]) -> Result<(), Failed>
        ensures past { GrewBy (H.past self.old.host) (H.past self.new.host)
            (Entry.Send to.now bytes.now result ∷ []) }
        ensures cause { HasCause (H.faults self.old.host) (H.faults self.new.host) result }
        ensures says { SaidMore (L.said self.old.lines) (L.said self.new.lines)
            (lines_of self.old.seen (Entry.Send to.now bytes.now result)) }
        ensures seen { self.new.seen ≡ after self.old.seen
            (Entry.Send to.now bytes.now result) }
    {
        self.host.send(to, bytes)
    }

    fn read_file(&mut self, alloc: Global, path: &str) -> Result<ByteText, ReadFault>
        ensures past { GrewBy (H.past self.old.host) (H.past self.new.host)
            (Entry.ReadFile path.now result ∷ []) }
        ensures cause { HasReadCause (H.faults self.old.host) (H.faults self.new.host) result }
        ensures says { SaidMore (L.said self.old.lines) (L.said self.new.lines)
            (lines_of self.old.seen (Entry.ReadFile path.now result)) }
        ensures seen { self.new.seen ≡ after self.old.seen
            (Entry.ReadFile path.now result) }
    {
        self.host.read_file(alloc, path)
    }

    fn lock(&mut self, path: &str) -> Result<bool, Failed>
        ensures past { GrewBy (H.past self.old.host) (H.past self.new.host)
            (Entry.Lock path.now result ∷ []) }
        ensures cause { HasCause (H.faults self.old.host) (H.faults self.new.host) result }
        ensures says { SaidMore (L.said self.old.lines) (L.said self.new.lines)
            (lines_of self.old.seen (Entry.Lock path.now result)) }
        ensures seen { self.new.seen ≡ after self.old.seen
            (Entry.Lock path.now result) }
    {
        self.host.lock(path)
    }

    fn out(&mut self, bytes: &[u8]) -> Result<(), Failed>
        ensures past { GrewBy (H.past self.old.host) (H.past self.new.host)
            (Entry.Out bytes.now result ∷ []) }
        ensures cause { HasCause (H.faults self.old.host) (H.faults self.new.host) result }
        ensures says { SaidMore (L.said self.old.lines) (L.said self.new.lines)
            (lines_of self.old.seen (Entry.Out bytes.now result)) }
        ensures seen { self.new.seen ≡ after self.old.seen
            (Entry.Out bytes.now result) }
    {
        self.host.out(bytes)
    }

    fn err(&mut self, bytes: &[u8]) -> Result<(), Failed>
        ensures past { GrewBy (H.past self.old.host) (H.past self.new.host)
            (Entry.Err bytes.now result ∷ []) }
        ensures cause { HasCause (H.faults self.old.host) (H.faults self.new.host) result }
        ensures says { SaidMore (L.said self.old.lines) (L.said self.new.lines)
            (lines_of self.old.seen (Entry.Err bytes.now result)) }
        ensures seen { self.new.seen ≡ after self.old.seen
            (Entry.Err bytes.now result) }
    {
        self.host.err(bytes)
    }
}
