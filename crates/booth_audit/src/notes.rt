//! The notes about a journal while it is replayed.
ghost use Rattle.std.specs.Prelude.{◌≡◌, ◌<◌, ◌++◌, IfOk, OnOk};
ghost use Rattle.booth_node.specs.Session.{IsCut, Makes, Starts};
ghost use Rattle.booth_rec.specs.Record.{record_or_none};
ghost use Rattle.booth_audit.specs.Holdings.{holding_by};
ghost use Rattle.booth_audit.specs.Noted.{held_from, noted, nothing_noted, with_kept, with_sent};
ghost use Rattle.booth_audit.specs.Turns.{cut_of};

use crate::{Holding, Whose};
use booth_base::{ByteText, Name};
use booth_host::Entry;
use booth_rec::{Lease, Record};
use std::alloc::{AllocError, Global};
use std::marker::Model;

/// The limit for clock readings, in ms since 1970.
pub(crate) const READINGS_END: u64 = 1 << 62;

/// The reading in use, the holdings, and the sent messages.
#[derive(Drop)]
pub(crate) struct Notes {
    alloc: Global,
    last: u64,
    held: Vec<Holding>,
    sent: Vec<ByteText>,
}

impl Model for Notes {
    ghost use Rattle.booth_audit.specs.Noted.{Noted};

    ghost Value = { Noted };

    ghost view = { λ n. record { last = n.last; held = n.held.items; sent = n.sent.items } };
}

// Adds the holding of a lease, if there is one.
fn push_lease(
    held: &mut Vec<Holding>,
    ticket: u32,
    member: u32,
    from: u64,
    lease: Option<Lease>,
) -> Result<(), AllocError>
    ensures { OnOk result (held.new.items ≡ held.old.items ++ holding_by ticket member from lease) }
{
    match lease {
        Some(lease) => {
            held.push(Holding {
                ticket,
                member,
                from,
                until: lease.until,
            })?;
            Ok(())
        }
        None => Ok(()),
    }
}

// Returns the lease of a record, if there is a record.
fn lease_of(found: &Option<Record>) -> Option<Lease>
    ensures { result ≡ (record_or_none found.now).lease }
{
    match found {
        Some(kept) => kept.lease,
        None => None,
    }
}

/// Returns a place in a list of the configuration. If the list were too long, which cannot be, this returns an
/// allocation failure.
pub(crate) fn place_of(place: usize) -> Result<u32, AllocError>
    ensures { IfOk result (λ same. same ≡ place) }
{
    match u32::try_from(place) {
        Ok(same) => Ok(same),
        Err(_) => Err(AllocError),
    }
}

// Adds the holdings of a start's records, one for each ticket.
fn push_records(
    held: &mut Vec<Holding>,
    member: u32,
    from: u64,
    records: &[Option<Record>],
) -> Result<(), AllocError>
    ensures { OnOk result (held.new.items ≡ held.old.items ++ held_from 0 member from records.now) }
{
    for (ticket, found) in records.iter().enumerate() {
        push_lease(held, place_of(ticket)?, member, from, lease_of(found))?;
    }
    Ok(())
}

impl Notes {
    /// Returns notes without an event.
    pub(crate) fn new(alloc: Global) -> Notes
        ensures { result ≡ nothing_noted }
    {
        Notes {
            alloc,
            last: 0,
            held: Vec::new(alloc),
            sent: Vec::new(alloc),
        }
    }

    /// Returns the reading in use.
    pub(crate) fn last(&self) -> u64
        ensures { result ≡ self.now.last }
    {
        self.last
    }

    /// Returns the holdings, in the order of the lines.
    pub(crate) fn held(&self) -> &[Holding]
        ensures { result.now ≡ self.now.held }
    {
        &self.held
    }

    /// Returns the sent messages, in the order of the lines.
    pub(crate) fn sent(&self) -> &[ByteText]
        ensures { result.now ≡ self.now.sent }
    {
        &self.sent
    }

    /// Notes a start, which read these records.
    pub(crate) fn start(
        &mut self,
        whose: &Whose<'_>,
        reading: u64,
        records: &[Option<Record>],
    ) -> Result<(), AllocError>
        ensures { OnOk result (self.new
            ≡ noted whose.now self.old (Starts whose.now.node reading records.now)) }
    {
        let from = reading.min(READINGS_END - 1);
        self.last = from;
        push_records(&mut self.held, whose.place(), from, records)
    }

    // Notes a sent message.
    fn send(&mut self, bytes: &ByteText) -> Result<(), AllocError>
        ensures { OnOk result (self.new ≡ with_sent self.old bytes.now) }
    {
        let copied = ByteText::new(self.alloc, bytes.bytes())?;
        self.sent.push(copied)?;
        Ok(())
    }

    // Notes a record for the write of a ticket. If the ticket has no name, which cannot be, this returns an
    // allocation failure.
    fn keep(
        &mut self,
        whose: &Whose<'_>,
        ticket: &ByteText,
        kept: &Record,
    ) -> Result<(), AllocError>
        ensures { OnOk result (self.new ≡ with_kept whose.now self.old ticket.now kept.now) }
    {
        let Ok(name) = Name::read(ticket.bytes()) else {
            return Err(AllocError);
        };
        let Some(place) = whose.config().ticket(&name) else {
            return Ok(());
        };
        let from = self.last;
        push_lease(
            &mut self.held,
            place_of(place)?,
            whose.place(),
            from,
            kept.lease,
        )
    }

    /// Notes a call with an answer.
    pub(crate) fn call(&mut self, whose: &Whose<'_>, entry: &Entry) -> Result<(), AllocError>
        ensures { OnOk result (self.new ≡ noted whose.now self.old (Makes entry.now)) }
    {
        match entry {
            Entry::Now { reading } => {
                self.last = self.last.max((*reading).min(READINGS_END - 1));
                Ok(())
            }
            Entry::Send { bytes, .. } => self.send(bytes),
            Entry::Keep { ticket, record, .. } => self.keep(whose, ticket, record),
            Entry::Open { .. }
            | Entry::Next { .. }
            | Entry::ReadFile { .. }
            | Entry::Lock { .. }
            | Entry::Kept { .. }
            | Entry::Start { .. }
            | Entry::Out { .. }
            | Entry::Err { .. } => Ok(()),
        }
    }

    /// Notes a call without an answer.
    pub(crate) fn cut(&mut self, whose: &Whose<'_>, entry: &Entry) -> Result<(), AllocError>
        ensures { OnOk result (self.new ≡ noted whose.now self.old (IsCut (cut_of entry.now))) }
    {
        match entry {
            Entry::Send { bytes, .. } => self.send(bytes),
            Entry::Keep { ticket, record, .. } => self.keep(whose, ticket, record),
            Entry::Now { .. }
            | Entry::Open { .. }
            | Entry::Next { .. }
            | Entry::ReadFile { .. }
            | Entry::Lock { .. }
            | Entry::Kept { .. }
            | Entry::Start { .. }
            | Entry::Out { .. }
            | Entry::Err { .. } => Ok(()),
        }
    }
}
