//! What a member knows about one manual ticket.
use booth_base::MemberId;
use booth_rec::Record;

/// From this term on no further grant is possible.
pub const LAST_TERM: u32 = 4_294_967_294;

/// The end of a manual lease, which no clock reading reaches: 2^62.
pub const NO_END: u64 = 4_611_686_018_427_387_904;

/// The seconds of a manual lease in messages: 2^32 - 1.
pub const NO_END_SECONDS: u32 = 4_294_967_295;

/// A call that writes a record.
#[derive(Clone, Copy, PartialEq, Eq)]
pub enum Call {
    /// Grants the ticket to this site.
    Grant,
    /// Writes the record again, since its last write may have failed.
    Again,
    /// Releases the ticket.
    Revoke,
}

/// A write that was requested and has no result yet.
#[derive(Clone, Copy, PartialEq, Eq)]
pub struct Waiting {
    pub call: Call,
    /// The record of the write.
    pub tried: Record,
}

/// The view of a manual ticket at one member.
#[derive(Clone, Copy, PartialEq, Eq)]
pub struct ManualView {
    pub term: u32,
    /// The last written record; before the first write, the record of version 1 with term 0 and no lease.
    pub kept: Record,
    /// Whether the last write succeeded.
    pub sure: bool,
    /// Whether this site holds the ticket.
    pub owner: bool,
    /// The other member that holds it, as far as this one has heard.
    pub shown: Option<MemberId>,
    pub waiting: Option<Waiting>,
}
