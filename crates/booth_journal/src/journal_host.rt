//! The parts of a host that keeps a journal: the host inside, the journal, and the order of what is done with both.
//! The `impl` of `Host` is in another module, so it reaches both parts through the functions here alone.
ghost use Rattle.std.specs.Prelude.{◌≡◌, ◌≤◌, ◌++◌, [], ◌∷◌, IfOk, false, length, List};
ghost use Rattle.booth_host.specs.Past.{GrewBy};
ghost use Rattle.booth_host.specs.Causes.{HasCause, HasReadCause};
ghost use Rattle.booth_host.specs.declared.entry.Entry.{Entry};
ghost use Rattle.hex.specs.Hex.{encode_lower};
ghost use Rattle.booth_journal.specs.Journal.{Wrote};
ghost use Rattle.booth_journal.specs.Lines.{answer_text, arrival_answer, done_answer, hex_text, line};

use crate::Sink;
use crate::draft::Draft;
use crate::history::History;
use crate::journal::Journal;
use crate::spelling::{data_head, done_line, ended_line, put_bytes};
use booth_base::{Address, ByteText, Name, Peer};
use booth_host::{Arrival, DATAGRAM_BYTES, Datagram, Failed, Host, Job, Place, ReadFault};
use booth_rec::Record;
use std::alloc::{AllocError, Global};

/// A host over a host: it passes each call on, and returns the answer. A call that has lines in a journal is written
/// to the sink before it is made, and its answer after it, until an append fails.
#[derive(Drop)]
pub struct JournalHost<H, S> {
    host: H,
    journal: Journal<S>,
    // Each journaled call so far: the host inside after it, and the journal while it was made. Only proofs read it.
    calls: History<H, Journal<S>>,
    // the line that is being written; its bytes have no meaning between two lines
    pub(crate) draft: Draft,
}

impl<H: Host, S: Sink> JournalHost<H, S> {
    /// Returns a host over this host, whose journal goes to this sink. It allocates all its memory here.
    pub fn new(alloc: Global, host: H, sink: S) -> Result<JournalHost<H, S>, AllocError>
    where
        H: Drop,
        S: Drop,
        ensures made { IfOk result (λ made. (made.host ≡ host) × (made.journal.sink ≡ sink)) }
        ensures works { IfOk result (λ made. made.journal.failed ≡ false) }
        ensures calls { IfOk result (λ made. made.calls.items ≡ []) }
    {
        let draft = Draft::new(alloc)?;
        Ok(JournalHost {
            host,
            journal: Journal::new(sink),
            calls: History::new(),
            draft,
        })
    }

    /// Returns the sink of the journal.
    pub fn sink(&self) -> &S
        ensures { result.now ≡ self.now.journal.sink }
    {
        &self.journal.sink
    }

    /// Returns whether an append has failed: nothing is written any more.
    pub fn has_failed(&self) -> bool
        ensures { result ≡ self.now.journal.failed }
    {
        self.journal.failed
    }

    // Writes these bytes to the journal.
    pub(crate) fn write(&mut self, bytes: &[u8])
        ensures wrote { Wrote S.held S.faults self.old.journal self.new.journal bytes.now }
        ensures host { self.new.host ≡ self.old.host }
        ensures calls { self.new.calls.items ≡ self.old.calls.items }
    {
        self.journal.write(bytes);
    }

    // Writes the line of the draft.
    pub(crate) fn write_draft(&mut self)
        ensures wrote { Wrote S.held S.faults self.old.journal self.new.journal self.old.draft }
        ensures host { self.new.host ≡ self.old.host }
        ensures calls { self.new.calls.items ≡ self.old.calls.items }
    {
        self.journal.write(self.draft.bytes());
    }

    // Writes bytes in hexadecimal digits, in pieces that fit into the draft.
    fn write_pieces(&mut self, bytes: &[u8])
        ensures wrote { Wrote S.held S.faults self.old.journal self.new.journal (encode_lower bytes.now) }
        ensures host { self.new.host ≡ self.old.host }
        ensures calls { self.new.calls.items ≡ self.old.calls.items }
    {
        let mut rest = bytes;
        'pieces: while !rest.is_empty() {
            let (piece, left) = rest.split_at(rest.len().min(DATAGRAM_BYTES));
            self.draft.begin(b"");
            self.draft.put_hex(piece);
            self.write_draft();
            rest = left;
        }
    }

    // Writes a line that begins with the draft and ends with these bytes.
    pub(crate) fn write_with(&mut self, bytes: &[u8])
        requires { length self.old.draft ≤ 96 }
        ensures wrote { Wrote S.held S.faults self.old.journal self.new.journal
            (line (self.old.draft ++ hex_text bytes.now)) }
        ensures host { self.new.host ≡ self.old.host }
        ensures calls { self.new.calls.items ≡ self.old.calls.items }
    {
        if bytes.len() <= DATAGRAM_BYTES {
            put_bytes(bytes, &mut self.draft);
            self.draft.put(b"\n");
            self.write_draft();
        } else {
            self.write_draft();
            self.write_pieces(bytes);
            self.write(b"\n");
        }
    }

    // Writes whether a call succeeded.
    pub(crate) fn write_done(&mut self, answer: &Result<(), Failed>)
        ensures wrote { Wrote S.held S.faults self.old.journal self.new.journal
            (line (answer_text (done_answer answer.now))) }
        ensures host { self.new.host ≡ self.old.host }
        ensures calls { self.new.calls.items ≡ self.old.calls.items }
    {
        self.journal.write(done_line(answer));
    }

    // Writes the result of a wait.
    pub(crate) fn write_arrival(&mut self, answer: &Result<Arrival, Failed>, bytes: &[u8])
        ensures wrote { Wrote S.held S.faults self.old.journal self.new.journal
            (line (answer_text (arrival_answer answer.now bytes.now))) }
        ensures host { self.new.host ≡ self.old.host }
        ensures calls { self.new.calls.items ≡ self.old.calls.items }
    {
        match answer {
            Ok(Arrival::Datagram(from)) => {
                data_head(from, &mut self.draft);
                self.write_with(bytes);
            }
            Ok(Arrival::Handler { job, status }) => {
                ended_line(*job, *status, &mut self.draft);
                self.write_draft();
            }
            Ok(Arrival::Quiet) => self.journal.write(b"quiet\n"),
            Ok(Arrival::Stop) => self.journal.write(b"stop\n"),
            Err(Failed) => self.journal.write(b"fail\n"),
        }
    }

    // Opens the host inside, and notes the call.
    pub(crate) fn call_open(&mut self, place: &Place) -> Result<(), Failed>
        ensures past { GrewBy (H.past self.old.host) (H.past self.new.host)
            (Entry.Open place.now.local place.now.port place.now.records place.now.conf_path result ∷ []) }
        ensures cause { HasCause (H.faults self.old.host) (H.faults self.new.host) result }
        ensures journal { self.new.journal ≡ self.old.journal }
        ensures noted { self.new.calls.items ≡ self.old.calls.items ++ (self.new.host, self.old.journal) ∷ [] }
    {
        let answer = self.host.open(place);
        self.calls = self.calls.and(&self.host, &self.journal);
        answer
    }

    // Waits on the host inside, and notes the call.
    pub(crate) fn call_next(&mut self, wait_ms: u64, into: &mut Datagram) -> Result<Arrival, Failed>
        ensures past { GrewBy (H.past self.old.host) (H.past self.new.host)
            (Entry.Next wait_ms result into.new ∷ []) }
        ensures cause { HasCause (H.faults self.old.host) (H.faults self.new.host) result }
        ensures journal { self.new.journal ≡ self.old.journal }
        ensures noted { self.new.calls.items ≡ self.old.calls.items ++ (self.new.host, self.old.journal) ∷ [] }
    {
        let answer = self.host.next(wait_ms, into);
        self.calls = self.calls.and(&self.host, &self.journal);
        answer
    }

    // Reads the clock of the host inside, and notes the call.
    pub(crate) fn call_now(&mut self) -> u64
        ensures past { GrewBy (H.past self.old.host) (H.past self.new.host)
            (Entry.Now result ∷ []) }
        ensures later { H.faults self.old.host ≤ H.faults self.new.host }
        ensures journal { self.new.journal ≡ self.old.journal }
        ensures noted { self.new.calls.items ≡ self.old.calls.items ++ (self.new.host, self.old.journal) ∷ [] }
    {
        let answer = self.host.now();
        self.calls = self.calls.and(&self.host, &self.journal);
        answer
    }

    // Sends by the host inside, and notes the call.
    pub(crate) fn call_send(&mut self, to: &Peer, bytes: &[u8]) -> Result<(), Failed>
        ensures past { GrewBy (H.past self.old.host) (H.past self.new.host)
            (Entry.Send to.now bytes.now result ∷ []) }
        ensures cause { HasCause (H.faults self.old.host) (H.faults self.new.host) result }
        ensures journal { self.new.journal ≡ self.old.journal }
        ensures noted { self.new.calls.items ≡ self.old.calls.items ++ (self.new.host, self.old.journal) ∷ [] }
    {
        let answer = self.host.send(to, bytes);
        self.calls = self.calls.and(&self.host, &self.journal);
        answer
    }

    // Reads a record of the host inside, and notes the call.
    pub(crate) fn call_kept(&mut self, ticket: &Name) -> Result<Option<Record>, Failed>
        ensures past { GrewBy (H.past self.old.host) (H.past self.new.host)
            (Entry.Kept ticket.now result ∷ []) }
        ensures cause { HasCause (H.faults self.old.host) (H.faults self.new.host) result }
        ensures journal { self.new.journal ≡ self.old.journal }
        ensures noted { self.new.calls.items ≡ self.old.calls.items ++ (self.new.host, self.old.journal) ∷ [] }
    {
        let answer = self.host.kept(ticket);
        self.calls = self.calls.and(&self.host, &self.journal);
        answer
    }

    // Writes a record by the host inside, and notes the call.
    pub(crate) fn call_keep(&mut self, ticket: &Name, rec: &Record) -> Result<(), Failed>
        ensures past { GrewBy (H.past self.old.host) (H.past self.new.host)
            (Entry.Keep ticket.now rec.now result ∷ []) }
        ensures cause { HasCause (H.faults self.old.host) (H.faults self.new.host) result }
        ensures journal { self.new.journal ≡ self.old.journal }
        ensures noted { self.new.calls.items ≡ self.old.calls.items ++ (self.new.host, self.old.journal) ∷ [] }
    {
        let answer = self.host.keep(ticket, rec);
        self.calls = self.calls.and(&self.host, &self.journal);
        answer
    }

    // Starts a handler by the host inside, and notes the call.
    pub(crate) fn call_start(&mut self, job: &Job) -> Result<(), Failed>
        ensures past { GrewBy (H.past self.old.host) (H.past self.new.host)
            (Entry.Start job.now.number job.now.ticket job.now.handler job.now.local job.now.expires result ∷ []) }
        ensures cause { HasCause (H.faults self.old.host) (H.faults self.new.host) result }
        ensures journal { self.new.journal ≡ self.old.journal }
        ensures noted { self.new.calls.items ≡ self.old.calls.items ++ (self.new.host, self.old.journal) ∷ [] }
    {
        let answer = self.host.start(job);
        self.calls = self.calls.and(&self.host, &self.journal);
        answer
    }

    // Reads a file by the host inside. The call is in no journal.
    pub(crate) fn pass_read_file(
        &mut self,
        alloc: Global,
        path: &str,
    ) -> Result<ByteText, ReadFault>
        ensures past { GrewBy (H.past self.old.host) (H.past self.new.host) (Entry.ReadFile path.now result ∷ []) }
        ensures cause { HasReadCause (H.faults self.old.host) (H.faults self.new.host) result }
        ensures journal { self.new.journal ≡ self.old.journal }
        ensures calls { self.new.calls.items ≡ self.old.calls.items }
    {
        self.host.read_file(alloc, path)
    }

    // Takes a lock by the host inside. The call is in no journal.
    pub(crate) fn pass_lock(&mut self, path: &str) -> Result<bool, Failed>
        ensures past { GrewBy (H.past self.old.host) (H.past self.new.host) (Entry.Lock path.now result ∷ []) }
        ensures cause { HasCause (H.faults self.old.host) (H.faults self.new.host) result }
        ensures journal { self.new.journal ≡ self.old.journal }
        ensures calls { self.new.calls.items ≡ self.old.calls.items }
    {
        self.host.lock(path)
    }

    // Prints by the host inside. The call is in no journal.
    pub(crate) fn pass_out(&mut self, bytes: &[u8]) -> Result<(), Failed>
        ensures past { GrewBy (H.past self.old.host) (H.past self.new.host) (Entry.Out bytes.now result ∷ []) }
        ensures cause { HasCause (H.faults self.old.host) (H.faults self.new.host) result }
        ensures journal { self.new.journal ≡ self.old.journal }
        ensures calls { self.new.calls.items ≡ self.old.calls.items }
    {
        self.host.out(bytes)
    }

    // Prints to standard error by the host inside. The call is in no journal.
    pub(crate) fn pass_err(&mut self, bytes: &[u8]) -> Result<(), Failed>
        ensures past { GrewBy (H.past self.old.host) (H.past self.new.host) (Entry.Err bytes.now result ∷ []) }
        ensures cause { HasCause (H.faults self.old.host) (H.faults self.new.host) result }
        ensures journal { self.new.journal ≡ self.old.journal }
        ensures calls { self.new.calls.items ≡ self.old.calls.items }
    {
        self.host.err(bytes)
    }
}
