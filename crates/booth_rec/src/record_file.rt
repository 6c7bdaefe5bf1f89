//! The four slots of a record file, as bytes: their contents, and which of them is in force.
ghost use Rattle.std.specs.Prelude.{◌≡◌, ◌+◌, ◌≤◌, length, IfOk, OnErr};
ghost use Rattle.booth_rec.specs.Spelling.{Spells, IsRecord};
ghost use Rattle.booth_rec.specs.RecordFile.{bytes_at, slot_at, HoldsRecord, IsWhole};
ghost use Rattle.booth_rec.specs.Holding.{place_of, other_of, spare_of, open_of, Holds, newer, standing_in, known_of, IsHolding};

use crate::spelling::{FIRST_BYTES, SECOND_BYTES, long_at};
use crate::{Record, RecordFault};

/// How many bytes the slots have, up to the end of the last record.
pub(crate) const FILE_BYTES: usize = 336;

/// The commit byte of an open slot; any other byte closes the slot.
pub(crate) const OPEN: u8 = 1;

/// The place of a slot's number in the slot.
pub(crate) const NUMBER_AT: usize = 8;

/// The place of a slot's record in the slot.
pub(crate) const BODY_AT: usize = 16;

/// The places of the two slots of version 1. They are read, and no put goes there.
const OLD_FIRST: usize = 0;

const OLD_SECOND: usize = 64;

/// One of the two slots of version 2, into which records are put.
#[derive(Clone, Copy, PartialEq, Eq)]
pub(crate) enum Half {
    First,
    Second,
}

/// The content of an open slot.
#[derive(Clone, Copy)]
pub(crate) struct Held {
    pub number: u64,
    pub kept: Record,
}

/// The record of a file, and its slot. The slot is none for a record of version 1.
#[derive(Clone, Copy)]
pub(crate) struct Standing {
    pub half: Option<Half>,
    pub held: Held,
}

/// What is known about a file: its record, if it has one, and which slots of version 2 are open.
#[derive(Clone, Copy)]
pub(crate) struct Holding {
    pub standing: Option<Standing>,
    pub first_is_open: bool,
    pub second_is_open: bool,
}

impl Half {
    /// Returns the place of the slot.
    pub(crate) fn place(self) -> usize
        ensures { result ≡ place_of self }
    {
        match self {
            Half::First => 128,
            Half::Second => 256,
        }
    }

    pub(crate) fn other(self) -> Half
        ensures { result ≡ other_of self }
    {
        match self {
            Half::First => Half::Second,
            Half::Second => Half::First,
        }
    }
}

impl Holding {
    /// Returns the slot for the next put: one of version 2 that the file does not stand for, the first if it stands
    /// for neither.
    pub(crate) fn spare(&self) -> Half
        ensures { result ≡ spare_of self.now.standing }
    {
        match self.standing {
            Some(
                Standing {
                    half: Some(half),
                    ..
                },
            ) => half.other(),
            _ => Half::First,
        }
    }

    /// Returns whether a slot of version 2 is open.
    pub(crate) fn is_open(&self, half: Half) -> bool
        ensures { result ≡ open_of self.now half }
    {
        match half {
            Half::First => self.first_is_open,
            Half::Second => self.second_is_open,
        }
    }
}

// Returns the record with this many bytes at a place.
fn record_at(bytes: &[u8], at: usize, size: usize) -> Result<Record, RecordFault>
    requires { at + size ≤ length bytes.now }
    ensures ok { IfOk result (Spells (bytes_at at size bytes.now)) }
    ensures err { OnErr result (IsRecord (bytes_at at size bytes.now) → ⊥) }
{
    Record::decode(&bytes[at..at + size])
}

// Returns the content of the slot at a place, whose record has this many bytes, or none if it is closed; a fault if
// it is open and has no record.
fn held_at(bytes: &[u8], place: usize, size: usize) -> Result<Option<Held>, RecordFault>
    requires { place + 16 + size ≤ length bytes.now }
    ensures ok { IfOk result (Holds (slot_at place size bytes.now)) }
    ensures err { OnErr result (HoldsRecord (slot_at place size bytes.now) → ⊥) }
{
    if bytes[place] != OPEN {
        return Ok(None);
    }
    let number = long_at(bytes, place + NUMBER_AT);
    match record_at(bytes, place + BODY_AT, size) {
        Ok(kept) => Ok(Some(Held { number, kept })),
        Err(fault) => Err(fault),
    }
}

// Returns a record that is in this slot of version 2, or in one of version 1.
fn standing_in(half: Option<Half>, held: Option<Held>) -> Option<Standing>
    ensures { result ≡ standing_in half held }
{
    held.map(|held| Standing { half, held })
}

// Returns the record in a slot with the greater number, the first if they are equal.
fn newer(earlier: Option<Standing>, later: Option<Standing>) -> Option<Standing>
    ensures { result ≡ newer earlier later }
{
    match (earlier, later) {
        (Some(earlier), Some(later)) if earlier.held.number < later.held.number => Some(later),
        (Some(earlier), _) => Some(earlier),
        (None, later) => later,
    }
}

// Returns what is known about a file whose slots have these contents: the two of version 1, then the two of version
// 2.
fn known_of(
    old_first: Option<Held>,
    old_second: Option<Held>,
    first: Option<Held>,
    second: Option<Held>,
) -> Holding
    ensures { result ≡ known_of old_first old_second first second }
{
    let old = newer(standing_in(None, old_first), standing_in(None, old_second));
    let new = newer(
        standing_in(Some(Half::First), first),
        standing_in(Some(Half::Second), second),
    );
    Holding {
        standing: newer(old, new),
        first_is_open: first.is_some(),
        second_is_open: second.is_some(),
    }
}

/// Returns what is known about a file with these bytes; a fault if an open slot has no record.
pub(crate) fn holding_in(bytes: &[u8]) -> Result<Holding, RecordFault>
    requires { length bytes.now ≡ 336 }
    ensures ok { IfOk result (IsHolding bytes.now) }
    ensures err { OnErr result (IsWhole bytes.now → ⊥) }
{
    let old_first = held_at(bytes, OLD_FIRST, FIRST_BYTES)?;
    let old_second = held_at(bytes, OLD_SECOND, FIRST_BYTES)?;
    let first = held_at(bytes, Half::First.place(), SECOND_BYTES)?;
    let second = held_at(bytes, Half::Second.place(), SECOND_BYTES)?;
    Ok(known_of(old_first, old_second, first, second))
}
