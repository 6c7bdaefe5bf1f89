//! The reads of records that a member may not have written, and the silent starts that an audit reports.
ghost use Rattle.std.specs.Prelude.{◌≡◌, ◌≤◌, ◌++◌, ◌^◌, length, map, OnOk};
ghost use Rattle.booth_rec.specs.Record.{record_or_none};
ghost use Rattle.booth_audit.specs.Silent.{silent_start, unwritten_at, unwritten_from, unwritten_read};

use crate::may_keep::{MayKeep, answer_line, record_or_none};
use crate::notes::place_of;
use booth_rec::Record;
use std::alloc::AllocError;

/// A start read a record of a ticket that the member may not have written. The ticket is given by its place in the
/// configuration.
#[derive(Clone, Copy)]
pub(crate) struct Unwritten {
    pub ticket: u32,
    /// The line of the answer to the read.
    pub line: u64,
    /// The term of the record, or 0 if there was none.
    pub term: u32,
}

/// A start read a silent record of a ticket that the member may not have written. The journal is given by its place
/// among the journals, and the ticket by its place in the configuration.
#[derive(Clone, Copy)]
pub struct SilentStart {
    pub journal: u32,
    /// The line of the answer to the read.
    pub line: u64,
    pub ticket: u32,
    /// The term of the record, or 0 if there was none.
    pub term: u32,
}

// Adds the read of a record with an answer at this line, if the record is none of these.
fn push_read(
    reads: &mut Vec<Unwritten>,
    ticket: u32,
    line: u64,
    may: &MayKeep,
    kept: &Record,
) -> Result<(), AllocError>
    ensures { OnOk result (reads.new.items ≡ reads.old.items ++ unwritten_read ticket line may.now kept.now) }
{
    if may.has(kept) {
        return Ok(());
    }
    reads.push(Unwritten {
        ticket,
        line,
        term: kept.term,
    })?;
    Ok(())
}

// Adds the read of the record of the ticket with this index.
#[tactic(auto, using(crate::proofs::UnwrittenLemmas::unwritten_past))]
fn push_at(
    reads: &mut Vec<Unwritten>,
    all: &[MayKeep],
    ticket: usize,
    line: u64,
    found: &Option<Record>,
) -> Result<(), AllocError>
    ensures { OnOk result (reads.new.items ≡ reads.old.items ++ unwritten_at all.now ticket line found.now) }
{
    match all.get(ticket) {
        Some(may) => push_read(reads, place_of(ticket)?, line, may, &record_or_none(found)),
        None => Ok(()),
    }
}

/// Adds the reads of a start whose records the member may not have written. The start has this line.
pub(crate) fn push_unwritten(
    reads: &mut Vec<Unwritten>,
    all: &[MayKeep],
    records: &[Option<Record>],
    last: u64,
) -> Result<(), AllocError>
    requires { last ≤ 2 ^ 63 }
    ensures { OnOk result (reads.new.items
        ≡ reads.old.items ++ unwritten_from all.now (length records.now) last 0 records.now) }
{
    let count = records.len() as u64;
    for (ticket, found) in records.iter().enumerate() {
        push_at(
            reads,
            all,
            ticket,
            answer_line(count, ticket as u64, last),
            found,
        )?;
    }
    Ok(())
}

/// Adds the silent starts with these reads, in the journal with this index.
pub(crate) fn push_silent(
    silent: &mut Vec<SilentStart>,
    journal: u32,
    reads: &[Unwritten],
) -> Result<(), AllocError>
    ensures { OnOk result (silent.new.items ≡ silent.old.items ++ map (silent_start journal) reads.now) }
{
    for read in reads {
        silent.push(SilentStart {
            journal,
            line: read.line,
            ticket: read.ticket,
            term: read.term,
        })?;
    }
    Ok(())
}
