//! Why journals are refused.
use thiserror::Error;

/// The first fault of journals. Journals are named by their places, lines are counted from 1.
#[derive(Clone, Copy, Debug, PartialEq, Eq, Drop, Error)]
pub enum AuditFault {
    /// This line cannot be read as a line of a journal.
    #[error("line {line} of journal {journal} is none of a journal")]
    Line { journal: u32, line: u64 },
    /// The journal belongs to no member or to several members, or its member has an earlier journal.
    #[error("journal {journal} is not that of one more member")]
    Member { journal: u32 },
    /// This line has another call than the rules demanded.
    #[error("line {line} of journal {journal} says another call than the one that was demanded")]
    Differs { journal: u32, line: u64 },
    /// According to this line a start read a record that it may not read: the member may not have written it, and it is
    /// not silent, or a site's silent record has too small a term.
    #[error("line {line} of journal {journal} says a record that was not kept")]
    Kept { journal: u32, line: u64 },
    /// This line has a message of a member that no journal has as a send.
    #[error("line {line} of journal {journal} says a message that was not sent")]
    Unsent { journal: u32, line: u64 },
    #[error("there is no memory for the audit")]
    OutOfMemory,
}
