//! The tally of a journal that is replayed.
ghost use Rattle.std.specs.Prelude.{◌≡◌, ◌≤◌, ◌<◌, ◌+◌, ◌*◌, ◌^◌, IfOk, OnOk, length};
ghost use Rattle.booth_node.specs.Session.{IsCut, Makes, Starts};
ghost use Rattle.booth_audit.specs.Tally.{nothing_tallied, tallied, tallied_all};
ghost use Rattle.booth_audit.specs.Turns.{cut_of, events_from};

use crate::hearings::{HearingNotes, Hears};
use crate::notes::Notes;
use crate::silent::Unwritten;
use crate::watched::Watch;
use crate::{Holding, Whose};
use booth_base::ByteText;
use booth_conf::TicketConf;
use booth_host::Entry;
use booth_rec::Record;
use std::alloc::{AllocError, Global};
use std::marker::Model;

/// The notes about a member, the result of the watch over its starts, and the messages that it received from others.
#[derive(Drop)]
pub struct Tally {
    notes: Notes,
    watch: Watch,
    hearings: HearingNotes,
}

impl Model for Tally {
    ghost use Rattle.booth_audit.specs.Tally.{Tally};

    ghost Value = { Tally };

    ghost view = { λ t. record { noted = t.notes; watched = t.watch; hearings = t.hearings } };
}

impl Tally {
    /// Returns a tally without an event, for a member with these tickets.
    pub(crate) fn new(alloc: Global, tickets: &[TicketConf]) -> Result<Tally, AllocError>
        ensures { IfOk result (λ tally. tally ≡ nothing_tallied tickets.now) }
    {
        Ok(Tally {
            notes: Notes::new(alloc),
            watch: Watch::new(alloc, tickets)?,
            hearings: HearingNotes::new(alloc),
        })
    }

    /// Returns the reading in use.
    pub fn last(&self) -> u64
        ensures { result ≡ self.now.noted.last }
    {
        self.notes.last()
    }

    /// Returns the line of the first record that a start read and may not read, if there is one.
    pub(crate) fn wrong(&self) -> Option<u64>
        ensures { result ≡ self.now.watched.wrong }
    {
        self.watch.wrong()
    }

    /// Returns the reads of records that the member may not have written, in the order of the lines.
    pub(crate) fn unwritten(&self) -> &[Unwritten]
        ensures { result.now ≡ self.now.watched.unwritten }
    {
        self.watch.unwritten()
    }

    /// Returns the holdings, in the order of the lines.
    pub fn held(&self) -> &[Holding]
        ensures { result.now ≡ self.now.noted.held }
    {
        self.notes.held()
    }

    /// Returns the sent messages, in the order of the lines.
    pub fn sent(&self) -> &[ByteText]
        ensures { result.now ≡ self.now.noted.sent }
    {
        self.notes.sent()
    }

    /// Returns the received messages, in the order of the lines.
    pub(crate) fn heard(&self) -> &[Hears]
        ensures { result.now ≡ self.now.hearings.all }
    {
        self.hearings.all()
    }

    /// Tallies a start that read these records. The last read is at this line.
    pub(crate) fn start(
        &mut self,
        whose: &Whose<'_>,
        reading: u64,
        records: &[Option<Record>],
        line: u64,
    ) -> Result<(), AllocError>
        requires short { line ≤ 2 ^ 63 }
        ensures { OnOk result (self.new ≡ tallied whose.now self.old
            (record { what = Starts whose.now.node reading records.now; line = line })) }
    {
        self.notes.start(whose, reading, records)?;
        self.watch.start(whose, records, line)?;
        self.hearings.pass();
        Ok(())
    }

    /// Tallies a call with an answer, at this line.
    pub(crate) fn call(
        &mut self,
        whose: &Whose<'_>,
        entry: &Entry,
        line: u64,
    ) -> Result<(), AllocError>
        ensures { OnOk result (self.new ≡ tallied whose.now self.old
            (record { what = Makes entry.now; line = line })) }
    {
        let last = self.notes.last();
        self.hearings.call(whose, last, entry, line)?;
        self.watch.call(whose, entry)?;
        self.notes.call(whose, entry)?;
        Ok(())
    }

    /// Tallies a call without an answer, at this line.
    pub(crate) fn cut(
        &mut self,
        whose: &Whose<'_>,
        entry: &Entry,
        line: u64,
    ) -> Result<(), AllocError>
        ensures { OnOk result (self.new ≡ tallied whose.now self.old
            (record { what = IsCut (cut_of entry.now); line = line })) }
    {
        self.hearings.pass();
        self.watch.cut(whose, entry)?;
        self.notes.cut(whose, entry)?;
        Ok(())
    }

    /// Tallies the calls of a turn with answers. The first of them is at this line.
    pub(crate) fn calls(
        &mut self,
        whose: &Whose<'_>,
        entries: &[Entry],
        line: u64,
    ) -> Result<(), AllocError>
        requires { line + 2 * length entries.now < 2 ^ 64 }
        ensures { OnOk result (self.new ≡ tallied_all whose.now self.old (events_from line entries.now)) }
    {
        let mut at = line;
        for entry in entries {
            self.call(whose, entry, at)?;
            at += 2;
        }
        Ok(())
    }
}
