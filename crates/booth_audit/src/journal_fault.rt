//! The fault of one journal.
ghost use Rattle.std.specs.Prelude.{◌≡◌};
ghost use Rattle.booth_audit.specs.Judging.{fault_at};

use booth_journal::AuditFault;

/// The first fault of one journal. Lines are counted from 1.
#[derive(Clone, Copy, Drop)]
pub(crate) enum JournalFault {
    /// This line cannot be read as a line of a journal.
    Line(u64),
    /// The journal does not belong to one member, or its member has an earlier journal.
    Member,
    /// This line has another call than the rules demanded.
    Differs(u64),
    /// According to this line a start read a record that it may not read.
    Kept(u64),
    /// The memory has run out.
    OutOfMemory,
}

impl JournalFault {
    /// Returns the same fault, for the journal at this place.
    pub(crate) fn at(self, journal: u32) -> AuditFault
        ensures { result ≡ fault_at self journal }
    {
        match self {
            JournalFault::Line(line) => AuditFault::Line { journal, line },
            JournalFault::Member => AuditFault::Member { journal },
            JournalFault::Differs(line) => AuditFault::Differs { journal, line },
            JournalFault::Kept(line) => AuditFault::Kept { journal, line },
            JournalFault::OutOfMemory => AuditFault::OutOfMemory,
        }
    }
}
