//! The lines that are left of a journal, compared with the requested calls.
ghost use Rattle.std.specs.Prelude.{◌≡◌, List, Err, None, IfErr, IfOk, IfSome, MatchOption, codes};
ghost use Rattle.booth_journal.specs.Looking.{begins_with_open};
ghost use Rattle.booth_journal.specs.Reading.{IsAnswer};
ghost use Rattle.booth_journal.specs.Says.{Said, Says};
ghost use Rattle.booth_audit.specs.Judged.{begins_start, is_now_text, judged};
ghost use Rattle.booth_audit.specs.Left.{Comes, IsArrivalBy, IsDoneBy, IsFoundBy, IsReadHere, IsReadingBy};
ghost use Rattle.booth_audit.specs.Left.{IsTaken, IsUnread};

use crate::end::End;
use booth_host::{Arrival, Datagram, Failed};
use booth_journal::{Answer, is_open, look, read_arrival, read_done, read_found, read_reading};
use booth_rec::Record;
use std::alloc::Global;
use std::marker::Model;

/// The lines that are left, and the way in which they ended, if they have.
#[derive(Drop)]
pub(crate) struct Lines<'a> {
    rest: &'a [u8],
    line: u64,
    end: Option<End>,
}

impl<'a> Model for Lines<'a> {
    ghost use Rattle.booth_audit.specs.Left.{LinesLeft};

    ghost Value = { LinesLeft };

    ghost view = { λ l. record { rest = l.rest.now; line = l.line; end = l.end } };
}

// Returns whether this is the line of a reading of the clock.
pub(crate) fn is_now(text: &[u8]) -> bool
    ensures { result ≡ is_now_text text.now }
{
    b"now".as_slice() == text
}

// Returns whether the next call opens a socket.
fn is_open_next(rest: &[u8]) -> bool
    ensures { (left : List Said) → Says rest.now left → result ≡ begins_with_open left }
{
    match look(rest) {
        Some(next) => is_open(next.call),
        None => false,
    }
}

// Returns whether another start begins at this call, when the call with this text is requested.
#[tactic(auto, using(crate::proofs::JudgeLemmas::starts_here))]
fn begins_start(text: &[u8], call: &[u8], behind: &[u8]) -> bool
    ensures { (left : List Said) → Says behind.now left → result ≡ begins_start text.now call.now left }
{
    if !is_now(call) {
        return false;
    }
    if !is_now(text) {
        return true;
    }
    is_open_next(behind)
}

// Returns the line of the answer to the call with this text and the bytes after it.
//
// # Errors
//
// Returns the way in which the lines end here.
fn found<'a>(text: &[u8], rest: &'a [u8]) -> Result<(&'a [u8], &'a [u8]), End>
    ensures taken { (left : List Said) → Says rest.now left → IfOk result (λ parts.
        IsTaken text.now rest.now left parts.0.now parts.1.now) }
    ensures ends { (left : List Said) → Says rest.now left → IfErr result (λ end. judged text.now left ≡ Err end) }
{
    let Some(first) = look(rest) else {
        return Err(End::Over);
    };
    if begins_start(text, first.call, first.behind) {
        return Err(End::Over);
    }
    if text != first.call {
        return Err(End::Differs);
    }
    match first.answer {
        Some(answer) => Ok((answer, first.behind)),
        None => Err(End::Cut),
    }
}

impl<'a> Lines<'a> {
    /// Returns these lines, the first of which has this number.
    pub(crate) fn new(rest: &'a [u8], line: u64) -> Lines<'a>
        ensures { result ≡ record { rest = rest.now; line = line; end = None } }
    {
        Lines {
            rest,
            line,
            end: None,
        }
    }

    /// Returns the bytes that are left.
    pub(crate) fn rest(&self) -> &'a [u8]
        ensures { result.now ≡ self.now.rest }
    {
        self.rest
    }

    /// Returns the number of the first line that is left.
    pub(crate) fn line(&self) -> u64
        ensures { result ≡ self.now.line }
    {
        self.line
    }

    /// Returns the way in which the lines ended, if they have.
    pub(crate) fn end(&self) -> Option<End>
        ensures { result ≡ self.now.end }
    {
        self.end
    }

    // Returns the line of the answer to the call with this text. If there is none, the lines have ended.
    #[tactic(auto, using(crate::proofs::JudgeLemmas::left_here))]
    fn take(&mut self, text: &[u8]) -> Option<&'a [u8]>
        ensures { (left : List Said) → Says self.old.rest left → MatchOption result
            (IsUnread left text.now self.old self.new)
            (λ bytes. IsReadHere left text.now self.old self.new bytes.now) }
    {
        if self.end.is_some() {
            return None;
        }
        match found(text, self.rest) {
            Ok((answer, behind)) => {
                self.line = self.line.saturating_add(2);
                self.rest = behind;
                Some(answer)
            }
            Err(end) => {
                self.end = Some(end);
                None
            }
        }
    }

    /// Returns whether the call with this text was done, or `None` if memory for its answer is out.
    pub(crate) fn done(&mut self, text: &[u8]) -> Option<Result<(), Failed>>
        ensures { (left : List Said) → Says self.old.rest left → IfSome result (λ done.
            Comes left text.now (IsDoneBy done) self.old self.new) }
    {
        let Some(bytes) = self.take(text) else {
            return Some(Err(Failed));
        };
        match read_done(bytes) {
            Ok(Answer::Done) => Some(Ok(())),
            Ok(Answer::Fails) => Some(Err(Failed)),
            Ok(_) | Err(_) => None,
        }
    }

    /// Returns the reading of the clock.
    pub(crate) fn reading(&mut self) -> Option<u64>
        ensures { (left : List Said) → Says self.old.rest left → IfSome result (λ reading.
            Comes left (codes "now") (IsReadingBy reading) self.old self.new) }
    {
        let Some(bytes) = self.take(b"now") else {
            return Some(0);
        };
        match read_reading(bytes) {
            Ok(Answer::Reading(reading)) => Some(reading),
            Ok(_) | Err(_) => None,
        }
    }

    /// Returns the record that the call with this text read.
    pub(crate) fn record(
        &mut self,
        alloc: Global,
        text: &[u8],
    ) -> Option<Result<Option<Record>, Failed>>
        ensures { (left : List Said) → Says self.old.rest left → IfSome result (λ found.
            Comes left text.now (IsFoundBy found) self.old self.new) }
    {
        let Some(bytes) = self.take(text) else {
            return Some(Err(Failed));
        };
        match read_found(alloc, bytes) {
            Ok(Answer::Absent) => Some(Ok(None)),
            Ok(Answer::Found(kept)) => Some(Ok(Some(kept))),
            Ok(Answer::Fails) => Some(Err(Failed)),
            Ok(_) | Err(_) => None,
        }
    }

    /// Returns the result of a wait, and puts the bytes of a datagram into `into`.
    pub(crate) fn arrival(
        &mut self,
        alloc: Global,
        into: &mut Datagram,
    ) -> Option<Result<Arrival, Failed>>
        ensures { (left : List Said) → Says self.old.rest left → IfSome result (λ came.
            Comes left (codes "next") (IsArrivalBy came into.new) self.old self.new) }
    {
        let Some(bytes) = self.take(b"next") else {
            into.clear();
            return Some(Ok(Arrival::Quiet));
        };
        match read_arrival(alloc, bytes) {
            Ok(answer) => arrived(&answer, into),
            Err(_) => None,
        }
    }
}

// Returns the result in an answer, and puts its bytes into `into`.
fn arrived(answer: &Answer, into: &mut Datagram) -> Option<Result<Arrival, Failed>>
    ensures { IsAnswer answer.now → IfSome result (λ came. IsArrivalBy came into.new answer.now) }
{
    into.clear();
    match answer {
        Answer::Quiet => Some(Ok(Arrival::Quiet)),
        Answer::Stop => Some(Ok(Arrival::Stop)),
        Answer::Fails => Some(Err(Failed)),
        Answer::Ended { job, status } => Some(Ok(Arrival::Handler {
            job: *job,
            status: *status,
        })),
        Answer::Data { from, bytes } => {
            into.set(bytes.bytes());
            Some(Ok(Arrival::Datagram(*from)))
        }
        Answer::Reading(_) | Answer::Done | Answer::Absent | Answer::Found(_) => None,
    }
}
