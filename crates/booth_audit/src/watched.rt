//! The watch over the starts of a member: it checks that they may read each record that they read.
ghost use Rattle.std.specs.Prelude.{◌≡◌, ◌≤◌, ◌^◌, IfOk, OnOk, ℕ};
ghost use Rattle.std.specs.Option.{option_or};
ghost use Rattle.booth_host.specs.declared.entry.Entry.TheVariants.{Keep};
ghost use Rattle.booth_node.specs.Session.{IsCut, Makes, Starts};
ghost use Rattle.booth_audit.specs.Turns.{cut_of};
ghost use Rattle.booth_audit.specs.Watched.{first_watched, watched, wrong_line};

use crate::Whose;
use crate::may_keep::{MayKeep, first_may, keep_at, read_may, wrong_line};
use crate::silent::{Unwritten, push_unwritten};
use booth_base::{ByteText, Name};
use booth_conf::TicketConf;
use booth_host::{Entry, Failed};
use booth_rec::Record;
use std::alloc::{AllocError, Global};
use std::marker::Model;

/// The records that the member may have written for each ticket, the line of the first record that a start may not
/// read, and the reads of records that the member may not have written.
#[derive(Drop)]
pub(crate) struct Watch {
    alloc: Global,
    may: Vec<MayKeep>,
    wrong: Option<u64>,
    unwritten: Vec<Unwritten>,
}

impl Model for Watch {
    ghost use Rattle.booth_audit.specs.Watched.{Watched};

    ghost Value = { Watched };

    ghost view = { λ w. record { may = w.may.items; wrong = w.wrong; unwritten = w.unwritten.items } };
}

impl Watch {
    /// Returns a watch before any start of a member with these tickets.
    pub(crate) fn new(alloc: Global, tickets: &[TicketConf]) -> Result<Watch, AllocError>
        ensures { IfOk result (λ watch. watch ≡ first_watched tickets.now) }
    {
        Ok(Watch {
            alloc,
            may: first_may(alloc, tickets)?,
            wrong: None,
            unwritten: Vec::new(alloc),
        })
    }

    /// Returns the line of the first record that a start may not read, if a start read one.
    pub(crate) fn wrong(&self) -> Option<u64>
        ensures { result ≡ self.now.wrong }
    {
        self.wrong
    }

    /// Returns the reads of records that the member may not have written, in the order of the lines.
    pub(crate) fn unwritten(&self) -> &[Unwritten]
        ensures { result.now ≡ self.now.unwritten }
    {
        &self.unwritten
    }

    fn wrong_after(&self, site: bool, records: &[Option<Record>], line: u64) -> Option<u64>
        requires { line ≤ 2 ^ 63 }
        ensures { result ≡ option_or self.now.wrong (wrong_line site self.now.may records.now line) }
    {
        match self.wrong {
            Some(wrong) => Some(wrong),
            None => wrong_line(site, &self.may, records, line),
        }
    }

    /// Watches a start of the member, which has this line and read these records.
    pub(crate) fn start(
        &mut self,
        whose: &Whose<'_>,
        records: &[Option<Record>],
        line: u64,
    ) -> Result<(), AllocError>
        requires { line ≤ 2 ^ 63 }
        ensures { (reading : ℕ) → OnOk result (self.new ≡ watched whose.now self.old
            (record { what = Starts whose.now.node reading records.now; line = line })) }
    {
        self.wrong = self.wrong_after(whose.is_site(), records, line);
        push_unwritten(&mut self.unwritten, &self.may, records, line)?;
        self.may = read_may(self.alloc, records)?;
        Ok(())
    }

    // Watches a write. If its ticket has no name, which cannot be, this returns an allocation failure.
    fn keep(
        &mut self,
        whose: &Whose<'_>,
        ticket: &ByteText,
        tried: &Record,
        answer: Result<(), Failed>,
    ) -> Result<(), AllocError>
        ensures { (line : ℕ) → OnOk result (self.new ≡ watched whose.now self.old
            (record { what = Makes (Keep ticket.now tried.now answer); line = line })) }
    {
        let Ok(name) = Name::read(ticket.bytes()) else {
            return Err(AllocError);
        };
        match whose.config().ticket(&name) {
            Some(place) => keep_at(&mut self.may, place, *tried, answer),
            None => Ok(()),
        }
    }

    /// Watches a call with an answer.
    pub(crate) fn call(&mut self, whose: &Whose<'_>, entry: &Entry) -> Result<(), AllocError>
        ensures { (line : ℕ) → OnOk result (self.new
            ≡ watched whose.now self.old (record { what = Makes entry.now; line = line })) }
    {
        match entry {
            Entry::Keep {
                ticket,
                record,
                answer,
            } => self.keep(whose, ticket, record, *answer),
            Entry::Open { .. }
            | Entry::Next { .. }
            | Entry::Now { .. }
            | Entry::Send { .. }
            | Entry::ReadFile { .. }
            | Entry::Lock { .. }
            | Entry::Kept { .. }
            | Entry::Start { .. }
            | Entry::Out { .. }
            | Entry::Err { .. } => Ok(()),
        }
    }

    /// Watches a call without an answer. An interrupted write counts as a write that failed.
    pub(crate) fn cut(&mut self, whose: &Whose<'_>, entry: &Entry) -> Result<(), AllocError>
        ensures { (line : ℕ) → OnOk result (self.new
            ≡ watched whose.now self.old (record { what = IsCut (cut_of entry.now); line = line })) }
    {
        match entry {
            Entry::Keep { ticket, record, .. } => self.keep(whose, ticket, record, Err(Failed)),
            Entry::Open { .. }
            | Entry::Next { .. }
            | Entry::Now { .. }
            | Entry::Send { .. }
            | Entry::ReadFile { .. }
            | Entry::Lock { .. }
            | Entry::Kept { .. }
            | Entry::Start { .. }
            | Entry::Out { .. }
            | Entry::Err { .. } => Ok(()),
        }
    }
}
