//! The one spelling of a record: 32 bytes in version 1, 64 in version 2. Numbers are in network byte order.
ghost use Rattle.std.specs.Prelude.{◌≡◌, ◌⊎◌, ◌+◌, ◌<◌, ◌≤◌, ◌==◌, ◌↔◌, true, length, IsTrue, Ok};
ghost use Rattle.std.specs.Int.{bit_at};
ghost use Rattle.booth_rec.specs.Record.{is_second};
ghost use Rattle.booth_rec.specs.Spelling.{head, first_spelling, spelling, flags, lease_fields, bound_field, promise_fields, pledge_fields, word_at, long_at, has_flag, lease_in, bound_in, promise_in, record_in, Spells, FitsTypes, Reads};

use crate::record::{FIRST_VERSION, SECOND_VERSION};
use crate::{Lease, Promise, Record};
use booth_base::MemberId;
use thiserror::Error;

/// How many bytes spell a record of version 1.
pub(crate) const FIRST_BYTES: usize = 32;

/// How many bytes spell a record of version 2.
pub(crate) const SECOND_BYTES: usize = 64;

/// The places of the flags for the parts of a record.
const LEASE: u32 = 0;

const BOUND: u32 = 1;

const PROMISE: u32 = 2;

/// Why bytes are no record.
#[derive(Clone, Copy, Debug, PartialEq, Eq, Drop, Error)]
pub enum RecordFault {
    #[error("the bytes spell no record")]
    Torn,
    #[error("the record is of another version")]
    Version,
}

impl Record {
    /// Returns the one spelling of a record of version 2.
    pub fn encode(&self) -> [u8; 64]
        requires { is_second self.now ≡ true }
        ensures { result ≡ spelling self.now }
    {
        let mut bytes = [0; 64];
        bytes[..24].copy_from_slice(&self.head(SECOND_VERSION, self.flags()));
        bytes[24..].copy_from_slice(&self.pledge_fields());
        bytes
    }

    /// Returns the record that the bytes spell.
    ///
    /// # Errors
    ///
    /// The first fault: Torn if there are neither 32 nor 64 bytes, Version if the version is not 1 in 32 bytes or 2
    /// in 64, Torn if the bytes spell no record.
    pub fn decode(bytes: &[u8]) -> Result<Record, RecordFault>
        ensures reads { Reads bytes.now result }
        ensures again { (kept : Record) → Spells bytes.now kept → result ≡ Ok kept }
    {
        if bytes.len() != FIRST_BYTES && bytes.len() != SECOND_BYTES {
            return Err(RecordFault::Torn);
        }
        let record = record_in(bytes);
        if word_at(bytes, 0) != record.version {
            return Err(RecordFault::Version);
        }
        if record.is_spelled_by(bytes) {
            Ok(record)
        } else {
            Err(RecordFault::Torn)
        }
    }

    // Returns the spelling of a record of version 1: its term and its lease.
    fn encode_first(&self) -> [u8; 32]
        ensures { result ≡ first_spelling self.now }
    {
        let mut bytes = [0; 32];
        bytes[..24].copy_from_slice(&self.head(FIRST_VERSION, u32::from(self.lease.is_some())));
        bytes
    }

    // Returns the start of both versions: the version, the term, the flags and the lease.
    fn head(&self, version: u32, bits: u32) -> [u8; 24]
        ensures { result ≡ head version bits self.now }
    {
        let mut bytes = [0; 24];
        bytes[0..4].copy_from_slice(&version.to_be_bytes());
        bytes[4..8].copy_from_slice(&self.term.to_be_bytes());
        bytes[8..12].copy_from_slice(&bits.to_be_bytes());
        bytes[12..24].copy_from_slice(&lease_fields(self.lease));
        bytes
    }

    // Returns what follows the lease in version 2: the vote, the promise, the end of the abstention, and 8 zeros.
    fn pledge_fields(&self) -> [u8; 40]
        ensures { result ≡ pledge_fields self.now }
    {
        let mut bytes = [0; 40];
        bytes[24..32].copy_from_slice(&self.abstain.to_be_bytes());
        bytes[4..24].copy_from_slice(&promise_fields(self.promise));
        bytes[..4].copy_from_slice(&bound_field(self.bound));
        bytes
    }

    fn is_spelled_by(&self, bytes: &[u8]) -> bool
        ensures { IsTrue result ↔ (bytes.now ≡ spelling self.now) }
    {
        if self.is_second() {
            bytes == self.encode().as_slice()
        } else {
            bytes == self.encode_first().as_slice()
        }
    }

    // Returns which of lease, vote and promise there are.
    fn flags(&self) -> u32
        ensures { result ≡ flags self.now }
    {
        u32::from(self.lease.is_some())
            + 2 * u32::from(self.bound.is_some())
            + 4 * u32::from(self.promise.is_some())
    }
}

// Returns the term of a lease and its end; zeros without a lease.
fn lease_fields(lease: Option<Lease>) -> [u8; 12]
    ensures { result ≡ lease_fields lease }
{
    let mut bytes = [0; 12];
    if let Some(lease) = lease {
        bytes[..4].copy_from_slice(&lease.term.to_be_bytes());
        bytes[4..].copy_from_slice(&lease.until.to_be_bytes());
    }
    bytes
}

// Returns the only member whose rounds the member answers; zeros if there is none.
fn bound_field(bound: Option<MemberId>) -> [u8; 4]
    ensures { result ≡ bound_field bound }
{
    match bound {
        Some(member) => member.0.to_be_bytes(),
        None => [0; 4],
    }
}

// Returns the member of a promise, its term, four zeros, and its end; zeros without a promise.
fn promise_fields(promise: Option<Promise>) -> [u8; 20]
    ensures { result ≡ promise_fields promise }
{
    let mut bytes = [0; 20];
    if let Some(promise) = promise {
        bytes[0..4].copy_from_slice(&promise.to.0.to_be_bytes());
        bytes[4..8].copy_from_slice(&promise.term.to_be_bytes());
        bytes[12..20].copy_from_slice(&promise.until.to_be_bytes());
    }
    bytes
}

// Returns the number in the 4 bytes at the offset `at`.
fn word_at(bytes: &[u8], at: usize) -> u32
    requires { at + 4 ≤ length bytes.now }
    ensures { result ≡ word_at at bytes.now }
{
    u32::from_be_bytes([bytes[at], bytes[at + 1], bytes[at + 2], bytes[at + 3]])
}

/// Returns the number of 8 bytes at a place.
pub(crate) fn long_at(bytes: &[u8], at: usize) -> u64
    requires { at + 8 ≤ length bytes.now }
    ensures { result ≡ long_at at bytes.now }
{
    u64::from_be_bytes([
        bytes[at],
        bytes[at + 1],
        bytes[at + 2],
        bytes[at + 3],
        bytes[at + 4],
        bytes[at + 5],
        bytes[at + 6],
        bytes[at + 7],
    ])
}

// Returns whether the flag at this place is set.
fn has_flag(bytes: &[u8], place: u32) -> bool
    requires long { 12 ≤ length bytes.now }
    requires place { place < 32 }
    ensures { result ≡ has_flag place bytes.now }
{
    (word_at(bytes, 8) >> place) & 1 == 1
}

fn lease_in(bytes: &[u8]) -> Option<Lease>
    requires { 24 ≤ length bytes.now }
    ensures { result ≡ lease_in bytes.now }
{
    has_flag(bytes, LEASE).then(|| Lease {
        term: word_at(bytes, 12),
        until: long_at(bytes, 16),
    })
}

fn bound_in(bytes: &[u8]) -> Option<MemberId>
    requires { 28 ≤ length bytes.now }
    ensures { result ≡ bound_in bytes.now }
{
    has_flag(bytes, BOUND).then(|| MemberId(word_at(bytes, 24)))
}

fn promise_in(bytes: &[u8]) -> Option<Promise>
    requires { 48 ≤ length bytes.now }
    ensures { result ≡ promise_in bytes.now }
{
    has_flag(bytes, PROMISE).then(|| Promise {
        to: MemberId(word_at(bytes, 28)),
        term: word_at(bytes, 32),
        until: long_at(bytes, 40),
    })
}

// Returns the record with these numbers: of version 2 if there are 64 bytes.
fn record_in(bytes: &[u8]) -> Record
    requires { (length bytes.now ≡ 32) ⊎ (length bytes.now ≡ 64) }
    ensures same { result ≡ record_in bytes.now }
    ensures fits { FitsTypes result }
{
    let first = Record::first(word_at(bytes, 4), lease_in(bytes));
    if bytes.len() == FIRST_BYTES {
        return first;
    }
    Record {
        version: SECOND_VERSION,
        bound: bound_in(bytes),
        promise: promise_in(bytes),
        abstain: long_at(bytes, 48),
        ..first
    }
}
