//! Hands that record their acts, for tests.
ghost use Rattle.std.specs.Prelude.{◌≡◌, [], true, false};

use crate::hands::{Hands, To};
use booth_rec::Record;
use booth_wire::{Head, TicketPart};
use std::alloc::Global;

/// One act, with its answer.
#[derive(Drop)]
pub enum Noted {
    Kept {
        rec: Record,
        ok: bool,
    },
    Started {
        job: u64,
        expires: u64,
        ok: bool,
    },
    Said {
        to: To,
        head: Head,
        part: TicketPart,
    },
}

/// Hands in memory that record their acts, the oldest first, while memory is left.
#[derive(Drop)]
pub struct FakeHands {
    pub acts: Vec<Noted>,
    /// Whether `acts` contains all acts.
    pub tells: bool,
    /// Whether writes fail.
    pub fails: bool,
    /// Whether all writes after the next one fail.
    pub breaks: bool,
    /// Whether starts of a handler fail.
    pub fails_to_start: bool,
}

impl FakeHands {
    ghost use Rattle.booth_ticket.specs.Fake.{Notes};

    /// Returns hands that have done nothing, and write all records.
    pub fn new(alloc: Global) -> FakeHands
        ensures acts { result.acts.items ≡ [] }
        ensures tells { result.tells ≡ true }
        ensures fails { result.fails ≡ false }
        ensures breaks { result.breaks ≡ false }
        ensures starts { result.fails_to_start ≡ false }
    {
        FakeHands {
            acts: Vec::new(alloc),
            tells: true,
            fails: false,
            breaks: false,
            fails_to_start: false,
        }
    }

    fn note(&mut self, act: Noted)
        ensures told { Notes self.old act self.new }
        ensures fails { self.new.fails ≡ self.old.fails }
        ensures breaks { self.new.breaks ≡ self.old.breaks }
        ensures starts { self.new.fails_to_start ≡ self.old.fails_to_start }
    {
        if self.acts.push(act).is_err() {
            self.tells = false;
        }
    }
}

impl Hands for FakeHands {
    ghost use Rattle.booth_ticket.specs.Fake.{notes_act};

    ghost did = { notes_act };

    fn keep(&mut self, rec: &Record) -> bool {
        let ok = !self.fails;
        self.note(Noted::Kept { rec: *rec, ok });
        self.fails = self.fails || self.breaks;
        ok
    }

    fn start(&mut self, job: u64, expires: u64) -> bool {
        let ok = !self.fails_to_start;
        self.note(Noted::Started { job, expires, ok });
        ok
    }

    fn say(&mut self, to: To, head: &Head, part: &TicketPart) {
        self.note(Noted::Said {
            to,
            head: *head,
            part: part.copy(),
        });
    }

    fn say_each(&mut self, places: &[u32], head: &Head, part: &TicketPart) {
        for place in places.iter() {
            self.say(To::Member(*place), head, part);
        }
    }
}
