//! The calls and answers on the lines of a journal.
use booth_base::{Address, ByteText, Name, Peer};
use booth_rec::Record;

/// A call that has lines in a journal. The other calls of a host are not recorded.
#[derive(Drop)]
pub enum Call {
    Now,
    /// The address to listen at, or none for any.
    Open(Option<Address>),
    Next,
    Send {
        to: Peer,
        bytes: ByteText,
    },
    Kept(Name),
    Keep {
        ticket: Name,
        record: Record,
    },
    /// The start of a job's handler.
    Job {
        number: u64,
        ticket: Name,
        expires: u64,
    },
}

/// An answer in a journal.
#[derive(Drop)]
pub enum Answer {
    /// The reading of the clock, in milliseconds since 1970.
    Reading(u64),
    Done,
    Fails,
    /// Nothing arrived in the given time.
    Quiet,
    /// The host asks for the end.
    Stop,
    /// The handler with this job number ended with this status.
    Ended { job: u64, status: i32 },
    /// A datagram arrived from this peer.
    Data { from: Peer, bytes: ByteText },
    /// There is no record.
    Absent,
    /// The record.
    Found(Record),
}
