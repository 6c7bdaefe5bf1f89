//! What a member writes to disk for a ticket, and records with a term and a lease only.
ghost use Rattle.std.specs.Prelude.{◌≡◌};
ghost use Rattle.booth_rec.specs.Record.{plain, first_plain, is_second, as_second};

use booth_base::MemberId;

/// The version of records that have a term and perhaps a lease.
pub(crate) const FIRST_VERSION: u32 = 1;

/// The version of records that also have the member's pledge.
pub(crate) const SECOND_VERSION: u32 = 2;

/// A lease: the term in which it was gained, and the reading of the site's clock before which it is in force
/// (milliseconds since 1970).
#[derive(Clone, Copy, Debug, PartialEq, Eq)]
pub struct Lease {
    pub term: u32,
    pub until: u64,
}

/// A promise: while it is live the member answers no round of another member.
#[derive(Clone, Copy, Debug, PartialEq, Eq)]
pub struct Promise {
    pub to: MemberId,
    pub term: u32,
    /// It is live at readings below this.
    pub until: u64,
}

/// What a member writes to disk for a ticket. If it has written nothing, its record counts as one of version 1 with
/// term 0.
#[derive(Clone, Copy, Debug, PartialEq, Eq)]
pub struct Record {
    /// 1 or 2. A record of version 1 has a term and perhaps a lease, and nothing else.
    pub version: u32,
    pub term: u32,
    pub lease: Option<Lease>,
    /// The only member whose rounds of this term this member answers.
    pub bound: Option<MemberId>,
    pub promise: Option<Promise>,
    /// The member answers no round at readings below this.
    pub abstain: u64,
}

impl Record {
    /// Returns the record of version 2 with this term and lease, without a pledge.
    pub fn plain(term: u32, lease: Option<Lease>) -> Record
        ensures { result ≡ plain term lease }
    {
        Record {
            version: SECOND_VERSION,
            term,
            lease,
            bound: None,
            promise: None,
            abstain: 0,
        }
    }

    /// Returns the record of version 1 with this term and lease: it has no pledge.
    pub fn first(term: u32, lease: Option<Lease>) -> Record
        ensures { result ≡ first_plain term lease }
    {
        Record {
            version: FIRST_VERSION,
            ..Record::plain(term, lease)
        }
    }

    /// Returns whether the record is of version 2, which contains the member's pledge (vote, promise, abstention).
    pub fn is_second(&self) -> bool
        ensures { result ≡ is_second self.now }
    {
        self.version == SECOND_VERSION
    }

    /// Returns the same record in version 2.
    pub(crate) fn as_second(&self) -> Record
        ensures { result ≡ as_second self.now }
    {
        Record {
            version: SECOND_VERSION,
            ..*self
        }
    }
}
