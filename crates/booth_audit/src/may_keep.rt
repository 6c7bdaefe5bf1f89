//! The records that a member may have written for each ticket, and the first record of a start that the start may not
//! read.
ghost use Rattle.std.specs.Prelude.{◌≡◌, ◌≤◌, ◌^◌, [], ◌∷◌, IfOk, OnOk, is_ok};
ghost use Rattle.std.specs.List.{list_any};
ghost use Rattle.booth_node.specs.Records.{may_after_keep};
ghost use Rattle.booth_rec.specs.Record.{record_or_none};
ghost use Rattle.booth_audit.specs.Faults.{answer_line};
ghost use Rattle.booth_audit.specs.Kept.{change_at, first_may, read_may};
ghost use Rattle.booth_audit.specs.Silent.{is_among};
ghost use Rattle.booth_audit.specs.Watched.{first_wrong, is_silent, is_up_to, is_wrong, may_read, wrong_line};

use booth_conf::TicketConf;
use booth_host::Failed;
use booth_rec::Record;
use std::alloc::{AllocError, Global};
use std::marker::Model;

/// The records that a member may have written for a ticket, the latest first: the last record that was read or
/// written, and the records whose write failed or was interrupted since.
#[derive(Drop)]
pub(crate) struct MayKeep {
    kept: Record,
    tried: Vec<Record>,
}

impl Model for MayKeep {
    ghost use Rattle.std.specs.Prelude.{List, [], ◌∷◌, ◌++◌, reverse};
    ghost use Rattle.booth_rec.specs.declared.record.Record.{Record};

    ghost Value = { List Record };

    ghost view = { λ m. reverse m.tried.items ++ m.kept ∷ [] };
}

impl MayKeep {
    /// Returns a list with only this record.
    pub(crate) fn one(alloc: Global, kept: Record) -> MayKeep
        ensures { result ≡ kept ∷ [] }
    {
        MayKeep {
            kept,
            tried: Vec::new(alloc),
        }
    }

    /// Returns the records after a write with this answer. An interrupted write has the answer of a write that
    /// failed.
    #[tactic(auto, using(crate::proofs::MayLemmas::with_tried))]
    pub(crate) fn keep(
        &mut self,
        tried: Record,
        answer: Result<(), Failed>,
    ) -> Result<(), AllocError>
        ensures { OnOk result (self.new ≡ may_after_keep (is_ok answer) tried self.old) }
    {
        match answer {
            Ok(()) => {
                self.kept = tried;
                self.tried.clear();
            }
            Err(Failed) => self.tried.push(tried)?,
        }
        Ok(())
    }

    /// Returns whether this record is one of them.
    #[tactic(auto, using(crate::proofs::MayLemmas::among_both))]
    pub(crate) fn has(&self, kept: &Record) -> bool
        ensures { result ≡ is_among self.now kept.now }
    {
        self.tried.contains(kept) || self.kept == *kept
    }

    // Returns whether one of them has this term or an earlier one.
    #[tactic(auto, using(crate::proofs::MayLemmas::reached_both))]
    fn reaches(&self, term: u32) -> bool
        ensures { result ≡ list_any (is_up_to term) self.now }
    {
        is_any_up_to(&self.tried, term) || is_up_to(&self.kept, term)
    }

    // Returns whether this record is silent. At a site one of them has no later term.
    fn is_silent(&self, site: bool, kept: &Record) -> bool
        ensures { result ≡ is_silent site self.now kept.now }
    {
        *kept == Record::first(kept.term, None) && (!site || self.reaches(kept.term))
    }

    // Returns whether a start of a site, or of an arbitrator, may read this record.
    fn may_read(&self, site: bool, kept: &Record) -> bool
        ensures { result ≡ may_read site self.now kept.now }
    {
        self.has(kept) || self.is_silent(site, kept)
    }
}

// Returns whether a record has this term or an earlier one.
fn is_up_to(kept: &Record, term: u32) -> bool
    ensures { result ≡ is_up_to term kept.now }
{
    kept.term <= term
}

// Returns whether one of these records has this term or an earlier one.
fn is_any_up_to(all: &[Record], term: u32) -> bool
    ensures { result ≡ list_any (is_up_to term) all.now }
{
    all.iter().any(|kept| is_up_to(kept, term))
}

/// Returns the record that was written, or the empty record if there is none.
pub(crate) fn record_or_none(found: &Option<Record>) -> Record
    ensures { result ≡ record_or_none found.now }
{
    match found {
        Some(kept) => *kept,
        None => Record::first(0, None),
    }
}

/// Returns the records that may have been written for each of these tickets before any start.
pub(crate) fn first_may(alloc: Global, tickets: &[TicketConf]) -> Result<Vec<MayKeep>, AllocError>
    ensures { IfOk result (λ all. all.items ≡ first_may tickets.now) }
{
    tickets
        .iter()
        .map(|_conf| MayKeep::one(alloc, Record::first(0, None)))
        .collect(alloc)
}

/// Returns the records that may have been written, after a start that read these records.
pub(crate) fn read_may(
    alloc: Global,
    records: &[Option<Record>],
) -> Result<Vec<MayKeep>, AllocError>
    ensures { IfOk result (λ all. all.items ≡ read_may records.now) }
{
    records
        .iter()
        .map(|found| MayKeep::one(alloc, record_or_none(found)))
        .collect(alloc)
}

/// Returns the records after a write for the ticket with this index, if there is such a ticket.
#[tactic(auto, using(crate::proofs::MayLemmas::changed_there, crate::proofs::MayLemmas::changed_past))]
pub(crate) fn keep_at(
    all: &mut Vec<MayKeep>,
    place: usize,
    tried: Record,
    answer: Result<(), Failed>,
) -> Result<(), AllocError>
    ensures { OnOk result (all.new.items
        ≡ change_at place (may_after_keep (is_ok answer) tried) all.old.items) }
{
    match all.get_mut(place) {
        Some(may) => may.keep(tried, answer),
        None => Ok(()),
    }
}

fn is_wrong(site: bool, may: &MayKeep, found: &Option<Record>) -> bool
    ensures { result ≡ is_wrong site (may.now, found.now) }
{
    !may.may_read(site, &record_or_none(found))
}

fn first_wrong(site: bool, all: &[MayKeep], records: &[Option<Record>]) -> Option<usize>
    ensures { result ≡ first_wrong site all.now records.now }
{
    all.iter()
        .zip(records)
        .position(|(may, found)| is_wrong(site, may, found))
}

/// Returns the line of the answer with the record of the ticket with this index, in a start with this many tickets and
/// this line.
pub(crate) fn answer_line(count: u64, place: u64, last: u64) -> u64
    requires { last ≤ 2 ^ 63 }
    ensures { result ≡ answer_line count place last }
{
    let later = count.saturating_sub(1).saturating_sub(place);
    (last + 1).saturating_sub(later.saturating_mul(2))
}

/// Returns the line of the first record that a start of a site, or of an arbitrator, may not read. The start has this
/// line.
pub(crate) fn wrong_line(
    site: bool,
    all: &[MayKeep],
    records: &[Option<Record>],
    last: u64,
) -> Option<u64>
    requires { last ≤ 2 ^ 63 }
    ensures { result ≡ wrong_line site all.now records.now last }
{
    let place = first_wrong(site, all, records)?;
    Some(answer_line(records.len() as u64, place as u64, last))
}
