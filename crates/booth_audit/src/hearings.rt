//! The messages that a member received from others, noted while its journal is replayed.
ghost use Rattle.std.specs.Prelude.{◌≡◌, ◌++◌, None, OnOk, Some};
ghost use Rattle.std.specs.Option.{option_copied};
ghost use Rattle.booth_node.specs.Session.{Makes};
ghost use Rattle.booth_wire.specs.Command.{direction_of};
ghost use Rattle.booth_audit.specs.Hearings.{IsPassed, brought, hearings_noted, nothing_heard};
ghost use Rattle.booth_audit.specs.Hearings.{is_between, let_in, lets_in};

use crate::Whose;
use crate::notes::READINGS_END;
use booth_auth::ring_gate;
use booth_base::ByteText;
use booth_host::{Arrival, Entry, Failed};
use booth_wire::Direction;
use std::alloc::{AllocError, Global};
use std::marker::Model;

/// A datagram with a message between members that a turn accepted, and the line of the answer with which it arrived.
#[derive(Drop)]
pub(crate) struct Hears {
    pub bytes: ByteText,
    pub line: u64,
}

/// The messages that a member received so far, and the datagram that is not judged yet.
#[derive(Drop)]
pub(crate) struct HearingNotes {
    alloc: Global,
    waiting: Option<ByteText>,
    all: Vec<Hears>,
}

impl Model for HearingNotes {
    ghost use Rattle.booth_audit.specs.Hearings.{Hearings};

    ghost Value = { Hearings };

    ghost view = { λ n. record { waiting = n.waiting; all = n.all.items } };
}

fn is_between(direction: Direction) -> bool
    ensures { result ≡ is_between direction }
{
    match direction {
        Direction::BetweenMembers => true,
        Direction::ToDaemon | Direction::ToClient => false,
    }
}

// Returns whether the gate accepts a message between members at this reading.
fn lets_in(whose: &Whose<'_>, now: u64, bytes: &[u8]) -> bool
    ensures { result ≡ lets_in whose.now.node now bytes.now }
{
    match ring_gate(whose.config(), whose.ring(), whose.me(), now, bytes) {
        Ok(message) => is_between(message.head.cmd.direction()),
        Err(_) => false,
    }
}

impl HearingNotes {
    /// Returns notes without a message.
    pub(crate) fn new(alloc: Global) -> HearingNotes
        ensures { result ≡ nothing_heard }
    {
        HearingNotes {
            alloc,
            waiting: None,
            all: Vec::new(alloc),
        }
    }

    /// Returns the received messages, in the order of the lines.
    pub(crate) fn all(&self) -> &[Hears]
        ensures { result.now ≡ self.now.all }
    {
        &self.all
    }

    // Judges a datagram at this clock reading, whose call is at this line.
    fn judge(
        &mut self,
        whose: &Whose<'_>,
        now: u64,
        bytes: ByteText,
        line: u64,
    ) -> Result<(), AllocError>
        ensures { OnOk result (self.new ≡ record self.old {
          all = self.old.all ++ let_in whose.now.node now line (Some bytes);
        }) }
    {
        if lets_in(whose, now, bytes.bytes()) {
            self.all.push(Hears {
                bytes,
                line: line.saturating_sub(1),
            })?;
        }
        Ok(())
    }

    // Notes a reading of the clock, after which this reading (`now`) is in use.
    fn read(&mut self, whose: &Whose<'_>, now: u64, line: u64) -> Result<(), AllocError>
        ensures { OnOk result (self.new ≡ record {
          waiting = None;
          all = self.old.all ++ let_in whose.now.node now line self.old.waiting;
        }) }
    {
        match self.waiting.take() {
            Some(bytes) => self.judge(whose, now, bytes, line),
            None => Ok(()),
        }
    }

    /// Notes an event without an arrival, for example a start, or a call without an answer.
    pub(crate) fn pass(&mut self)
        ensures same { self.new ≡ record self.old { waiting = None } }
        ensures passed { IsPassed self.old self.new }
    {
        self.waiting = None;
    }

    // Notes the answer of a wait.
    fn next(&mut self, answer: &Result<Arrival, Failed>, bytes: &ByteText) -> Result<(), AllocError>
        ensures { OnOk result (self.new ≡ record self.old { waiting = brought answer.now bytes.now }) }
    {
        match answer {
            Ok(Arrival::Datagram(_)) => {
                self.waiting = Some(ByteText::new(self.alloc, bytes.bytes())?);
                Ok(())
            }
            Ok(Arrival::Handler { .. } | Arrival::Quiet | Arrival::Stop) | Err(_) => {
                self.pass();
                Ok(())
            }
        }
    }

    /// Notes a call with its answer, if this reading is in use before it.
    pub(crate) fn call(
        &mut self,
        whose: &Whose<'_>,
        last: u64,
        entry: &Entry,
        line: u64,
    ) -> Result<(), AllocError>
        ensures { OnOk result (self.new ≡ hearings_noted whose.now last self.old
            (record { what = Makes entry.now; line = line })) }
    {
        match entry {
            Entry::Now { reading } => {
                self.read(whose, last.max((*reading).min(READINGS_END - 1)), line)
            }
            Entry::Next { answer, bytes, .. } => self.next(answer, bytes),
            Entry::Open { .. }
            | Entry::Send { .. }
            | Entry::ReadFile { .. }
            | Entry::Lock { .. }
            | Entry::Kept { .. }
            | Entry::Keep { .. }
            | Entry::Start { .. }
            | Entry::Out { .. }
            | Entry::Err { .. } => {
                self.pass();
                Ok(())
            }
        }
    }
}
