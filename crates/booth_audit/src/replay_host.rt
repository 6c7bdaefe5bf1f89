//! A host with the answers of a journal, as long as the requested calls are the calls of the journal.
ghost use Rattle.std.specs.Prelude.{◌≡◌, ◌≤◌, ◌+◌, ◌-◌, ◌^◌, List, ℕ, IsSome, MatchBool, None, Some, [], length};
ghost use Rattle.booth_host.specs.Told.{told_past};
ghost use Rattle.booth_audit.specs.Hosts.{IsReplay};

use crate::end::End;
use crate::lines::Lines;
use booth_base::{ByteText, Name, Peer};
use booth_host::{Arrival, DATAGRAM_BYTES, Datagram, Failed, Host, Job, Place, ReadFault, Told};
use booth_journal::{Draft, spell_job, spell_keep, spell_send};
use booth_rec::Record;
use std::alloc::Global;
use std::marker::{Brand, Model, PhantomData};

/// The text that is replayed and the number of its first line, as part of a type. So a turn, whose contract covers
/// every host, cannot leave a host of another text.
pub(crate) trait ReplayedText {
    ghost text: { List ℕ };

    ghost line: { ℕ };
}

impl ReplayedText for Brand {
    ghost text = { [] };

    ghost line = { 0 };
}

/// A host that answers by the lines of the text. After the lines end, it answers with anything. It records all
/// requested calls, until memory runs out. A turn requests waits, readings, sends, writes and starts; after any other
/// request the host records nothing.
#[derive(Drop)]
pub(crate) struct ReplayHost<'a, J: ReplayedText> {
    alloc: Global,
    lines: Lines<'a>,
    told: Told,
    // the call that is compared; between two calls its bytes have no meaning
    draft: Draft,
    of: PhantomData<J>,
}

impl<'a, J: ReplayedText> Model for ReplayHost<'a, J> {
    ghost use Rattle.booth_host.specs.Told.{told_past};
    ghost use Rattle.booth_audit.specs.Hosts.{IsReplay, Seen};

    ghost Value = { Seen };

    ghost view = { λ h. record { place = h.lines; past = told_past h.told } };

    ghost invariant = { λ h. IsReplay J.text J.line (record { place = h.lines; past = told_past h.told }) };
}

impl<'a, J: ReplayedText> ReplayHost<'a, J> {
    /// Starts at the first line of the text. The draft may hold anything.
    pub(crate) fn new(alloc: Global, text: &'a [u8], line: u64, draft: Draft) -> ReplayHost<'a, J>
        requires text { text.now ≡ J.text }
        requires line { line ≡ J.line }
        requires short { line + length text.now ≤ 2 ^ 63 }
        ensures past { result.past ≡ Some [] }
        ensures text { result.place.rest ≡ text.now }
    {
        ReplayHost {
            alloc,
            lines: Lines::new(text, line),
            told: Told::new(alloc, u32::MAX),
            draft,
            of: PhantomData,
        }
    }

    /// Returns the way in which the lines ended, if they have.
    pub(crate) fn end(&self) -> Option<End>
        ensures end { result ≡ self.now.place.end }
        ensures sound { IsReplay J.text J.line self.now }
    {
        self.lines.end()
    }

    /// Returns whether the host records its calls: memory was enough for all of them.
    pub(crate) fn tells(&self) -> bool
        ensures { MatchBool result (IsSome self.now.past) (self.now.past ≡ None) }
    {
        self.told.entries().is_some()
    }

    /// Returns the number of the first line that is left.
    pub(crate) fn line(&self) -> u64
        ensures { result ≡ self.now.place.line }
    {
        self.lines.line()
    }

    /// Returns the bytes that are left.
    pub(crate) fn rest(&self) -> &'a [u8]
        ensures { result.now ≡ self.now.place.rest }
    {
        self.lines.rest()
    }

    /// Returns the recorded calls, and the draft.
    pub(crate) fn into_parts(self) -> (Told, Draft)
        ensures { told_past result.0 ≡ self.entry.past }
    {
        (self.told, self.draft)
    }
}

impl<'a, J: ReplayedText> Host for ReplayHost<'a, J> {
    ghost past = { λ h. h.past };

    // a count at its greatest value
    ghost faults = { λ _. 2 ^ 64 - 1 };

    fn open(&mut self, place: &Place) -> Result<(), Failed> {
        self.told.end();
        Err(Failed)
    }

    fn next(&mut self, wait_ms: u64, into: &mut Datagram) -> Result<Arrival, Failed> {
        let Some(answer) = self.lines.arrival(self.alloc, into) else {
            self.told.end();
            return Err(Failed);
        };
        self.told.next(wait_ms, answer, into.bytes());
        answer
    }

    fn now(&mut self) -> u64 {
        let Some(reading) = self.lines.reading() else {
            self.told.end();
            return 0;
        };
        self.told.now(reading);
        reading
    }

    fn send(&mut self, to: &Peer, bytes: &[u8]) -> Result<(), Failed> {
        if bytes.len() > DATAGRAM_BYTES {
            self.told.end();
            return Err(Failed);
        }
        spell_send(to, bytes, &mut self.draft);
        let Some(answer) = self.lines.done(self.draft.bytes()) else {
            self.told.end();
            return Err(Failed);
        };
        self.told.send(to, bytes, answer);
        answer
    }

    fn kept(&mut self, ticket: &Name) -> Result<Option<Record>, Failed> {
        self.told.end();
        Err(Failed)
    }

    fn keep(&mut self, ticket: &Name, rec: &Record) -> Result<(), Failed> {
        spell_keep(ticket, rec, &mut self.draft);
        let Some(answer) = self.lines.done(self.draft.bytes()) else {
            self.told.end();
            return Err(Failed);
        };
        self.told.keep(ticket, rec, answer);
        answer
    }

    fn start(&mut self, job: &Job) -> Result<(), Failed> {
        spell_job(job, &mut self.draft);
        let Some(answer) = self.lines.done(self.draft.bytes()) else {
            self.told.end();
            return Err(Failed);
        };
        self.told.start(job, answer);
        answer
    }

    fn read_file(&mut self, alloc: Global, path: &str) -> Result<ByteText, ReadFault> {
        self.told.end();
        Err(ReadFault::NoMemory)
    }

    fn lock(&mut self, path: &str) -> Result<bool, Failed> {
        self.told.end();
        Err(Failed)
    }

    fn out(&mut self, bytes: &[u8]) -> Result<(), Failed> {
        self.told.end();
        Err(Failed)
    }

    fn err(&mut self, bytes: &[u8]) -> Result<(), Failed> {
        self.told.end();
        Err(Failed)
    }
}
