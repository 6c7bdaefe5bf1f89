//! A host over any host that records each call and its answer: the line of a call before the call is made, and the line
//! of its answer after it.
ghost use Rattle.std.specs.Prelude.{◌≡◌, ◌≤◌, [], ◌∷◌};
ghost use Rattle.booth_host.specs.Past.{GrewBy};
ghost use Rattle.booth_host.specs.Causes.{HasCause, HasReadCause};
ghost use Rattle.booth_host.specs.declared.entry.Entry.{Entry};
ghost use Rattle.booth_journal.specs.Journal.{IsOrdered, Wrote};
ghost use Rattle.booth_journal.specs.Lines.{lines_of};

use crate::Sink;
use crate::journal_host::JournalHost;
use crate::spelling::{
    found_line, job_line, keep_line, kept_line, open_line, reading_line, send_head,
};
use booth_base::{ByteText, Name, Peer};
use booth_host::{Arrival, Datagram, Failed, Host, Job, Place, ReadFault};
use booth_rec::Record;
use std::alloc::Global;

impl<H: Host, S: Sink> Host for JournalHost<H, S> {
    ghost past = { λ h. H.past h.host };

    ghost faults = { λ h. H.faults h.host };

    fn open(&mut self, place: &Place) -> Result<(), Failed>
        ensures past { GrewBy (H.past self.old.host) (H.past self.new.host)
            (Entry.Open place.now.local place.now.port place.now.records place.now.conf_path result ∷ []) }
        ensures cause { HasCause (H.faults self.old.host) (H.faults self.new.host) result }
        ensures wrote { Wrote S.held S.faults self.old.journal self.new.journal
            (lines_of (Entry.Open place.now.local place.now.port place.now.records place.now.conf_path result)) }
        ensures order { IsOrdered S.held S.faults (self.old.journal, self.old.calls.items)
            (self.new.journal, self.new.calls.items) self.new.host
            (Entry.Open place.now.local place.now.port place.now.records place.now.conf_path result) }
    {
        open_line(&place.local, &mut self.draft);
        self.write_draft();
        let answer = self.call_open(place);
        self.write_done(&answer);
        answer
    }

    fn next(&mut self, wait_ms: u64, into: &mut Datagram) -> Result<Arrival, Failed>
        ensures past { GrewBy (H.past self.old.host) (H.past self.new.host)
            (Entry.Next wait_ms result into.new ∷ []) }
        ensures cause { HasCause (H.faults self.old.host) (H.faults self.new.host) result }
        ensures wrote { Wrote S.held S.faults self.old.journal self.new.journal
            (lines_of (Entry.Next wait_ms result into.new)) }
        ensures order { IsOrdered S.held S.faults (self.old.journal, self.old.calls.items)
            (self.new.journal, self.new.calls.items) self.new.host
            (Entry.Next wait_ms result into.new) }
    {
        self.write(b"next\n");
        let answer = self.call_next(wait_ms, into);
        self.write_arrival(&answer, into.bytes());
        answer
    }

    fn now(&mut self) -> u64
        ensures past { GrewBy (H.past self.old.host) (H.past self.new.host)
            (Entry.Now result ∷ []) }
        ensures later { H.faults self.old.host ≤ H.faults self.new.host }
        ensures wrote { Wrote S.held S.faults self.old.journal self.new.journal
            (lines_of (Entry.Now result)) }
        ensures order { IsOrdered S.held S.faults (self.old.journal, self.old.calls.items)
            (self.new.journal, self.new.calls.items) self.new.host
            (Entry.Now result) }
    {
        self.write(b"now\n");
        let reading = self.call_now();
        reading_line(reading, &mut self.draft);
        self.write_draft();
        reading
    }

    fn send(&mut self, to: &Peer, bytes: &[u8]) -> Result<(), Failed>
        ensures past { GrewBy (H.past self.old.host) (H.past self.new.host)
            (Entry.Send to.now bytes.now result ∷ []) }
        ensures cause { HasCause (H.faults self.old.host) (H.faults self.new.host) result }
        ensures wrote { Wrote S.held S.faults self.old.journal self.new.journal
            (lines_of (Entry.Send to.now bytes.now result)) }
        ensures order { IsOrdered S.held S.faults (self.old.journal, self.old.calls.items)
            (self.new.journal, self.new.calls.items) self.new.host
            (Entry.Send to.now bytes.now result) }
    {
        send_head(to, &mut self.draft);
        self.write_with(bytes);
        let answer = self.call_send(to, bytes);
        self.write_done(&answer);
        answer
    }

    fn kept(&mut self, ticket: &Name) -> Result<Option<Record>, Failed>
        ensures past { GrewBy (H.past self.old.host) (H.past self.new.host)
            (Entry.Kept ticket.now result ∷ []) }
        ensures cause { HasCause (H.faults self.old.host) (H.faults self.new.host) result }
        ensures wrote { Wrote S.held S.faults self.old.journal self.new.journal
            (lines_of (Entry.Kept ticket.now result)) }
        ensures order { IsOrdered S.held S.faults (self.old.journal, self.old.calls.items)
            (self.new.journal, self.new.calls.items) self.new.host
            (Entry.Kept ticket.now result) }
    {
        kept_line(ticket, &mut self.draft);
        self.write_draft();
        let answer = self.call_kept(ticket);
        found_line(&answer, &mut self.draft);
        self.write_draft();
        answer
    }

    fn keep(&mut self, ticket: &Name, rec: &Record) -> Result<(), Failed>
        ensures past { GrewBy (H.past self.old.host) (H.past self.new.host)
            (Entry.Keep ticket.now rec.now result ∷ []) }
        ensures cause { HasCause (H.faults self.old.host) (H.faults self.new.host) result }
        ensures wrote { Wrote S.held S.faults self.old.journal self.new.journal
            (lines_of (Entry.Keep ticket.now rec.now result)) }
        ensures order { IsOrdered S.held S.faults (self.old.journal, self.old.calls.items)
            (self.new.journal, self.new.calls.items) self.new.host
            (Entry.Keep ticket.now rec.now result) }
    {
        keep_line(ticket, rec, &mut self.draft);
        self.write_draft();
        let answer = self.call_keep(ticket, rec);
        self.write_done(&answer);
        answer
    }

    fn start(&mut self, job: &Job) -> Result<(), Failed>
        ensures past { GrewBy (H.past self.old.host) (H.past self.new.host)
            (Entry.Start job.now.number job.now.ticket job.now.handler job.now.local job.now.expires result ∷ []) }
        ensures cause { HasCause (H.faults self.old.host) (H.faults self.new.host) result }
        ensures wrote { Wrote S.held S.faults self.old.journal self.new.journal (lines_of
            (Entry.Start job.now.number job.now.ticket job.now.handler job.now.local job.now.expires result)) }
        ensures order { IsOrdered S.held S.faults (self.old.journal, self.old.calls.items)
            (self.new.journal, self.new.calls.items) self.new.host
            (Entry.Start job.now.number job.now.ticket job.now.handler job.now.local job.now.expires result) }
    {
        job_line(job, &mut self.draft);
        self.write_draft();
        let answer = self.call_start(job);
        self.write_done(&answer);
        answer
    }

    fn read_file(&mut self, alloc: Global, path: &str) -> Result<ByteText, ReadFault>
        ensures past { GrewBy (H.past self.old.host) (H.past self.new.host)
            (Entry.ReadFile path.now result ∷ []) }
        ensures cause { HasReadCause (H.faults self.old.host) (H.faults self.new.host) result }
        ensures journal { self.new.journal ≡ self.old.journal }
        ensures calls { self.new.calls.items ≡ self.old.calls.items }
    {
        self.pass_read_file(alloc, path)
    }

    fn lock(&mut self, path: &str) -> Result<bool, Failed>
        ensures past { GrewBy (H.past self.old.host) (H.past self.new.host)
            (Entry.Lock path.now result ∷ []) }
        ensures cause { HasCause (H.faults self.old.host) (H.faults self.new.host) result }
        ensures journal { self.new.journal ≡ self.old.journal }
        ensures calls { self.new.calls.items ≡ self.old.calls.items }
    {
        self.pass_lock(path)
    }

    fn out(&mut self, bytes: &[u8]) -> Result<(), Failed>
        ensures past { GrewBy (H.past self.old.host) (H.past self.new.host)
            (Entry.Out bytes.now result ∷ []) }
        ensures cause { HasCause (H.faults self.old.host) (H.faults self.new.host) result }
        ensures journal { self.new.journal ≡ self.old.journal }
        ensures calls { self.new.calls.items ≡ self.old.calls.items }
    {
        self.pass_out(bytes)
    }

    fn err(&mut self, bytes: &[u8]) -> Result<(), Failed>
        ensures past { GrewBy (H.past self.old.host) (H.past self.new.host)
            (Entry.Err bytes.now result ∷ []) }
        ensures cause { HasCause (H.faults self.old.host) (H.faults self.new.host) result }
        ensures journal { self.new.journal ≡ self.old.journal }
        ensures calls { self.new.calls.items ≡ self.old.calls.items }
    {
        self.pass_err(bytes)
    }
}
