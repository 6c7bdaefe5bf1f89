//! How a run ends: the outcome and its exit status.
ghost use Rattle.std.specs.Prelude.{◌≡◌};
ghost use Rattle.booth_outcomes.specs.Texts.{out_of_memory_text, status_of};

use crate::error_line::ErrorLine;
use crate::texts;
use booth_cli::{Page, Word};
use booth_conf::ConfFault;
use booth_following::FollowFault;
use booth_journal::AuditFault;
use booth_keys::KeyFault;
use clap::error::ErrorKind;

/// How a run ended.
#[derive(Clone, Copy, Debug, PartialEq, Eq)]
pub enum Outcome {
    /// The host asked for the end, or the requested turns were made; or a daemon runs, and that was printed; or the
    /// counts of a simulation were printed, or the holdings of true journals.
    Done,
    /// A daemon did or began the request, and that was printed.
    Report,
    /// A daemon refused, with this result.
    Refused(u32),
    /// A ticket was released, and its grant to another site was refused, with this result.
    Stranded(u32),
    /// No daemon answered in time.
    NoReply,
    /// A request could not be sent.
    SendFault,
    /// The arguments are invalid, or request help or the version. The kind is `None` if there is no command.
    Usage(Option<ErrorKind>),
    /// This text about the program was requested and printed.
    Shown(Page),
    /// The value of this argument is not valid.
    BadWord(Word),
    /// The configuration could not be read.
    ConfUnread,
    /// The configuration has a fault.
    ConfBad(ConfFault),
    /// No member of the configuration has the address.
    NotMember,
    /// No site of the configuration has the address.
    NotSite,
    /// The ticket cannot be followed at the site, or not with these margins.
    NotFollowed(FollowFault),
    /// The key file could not be read.
    KeyUnread,
    /// The key file holds no key.
    KeyBad(KeyFault),
    /// A journal could not be read.
    JournalUnread,
    /// This is the first fault of the journals.
    AuditBad(AuditFault),
    /// The lock file could not be locked.
    LockFault,
    /// Another daemon holds the lock.
    Running,
    /// No daemon runs, and that was printed.
    NotRunning,
    /// The socket or the directory of the records could not be opened.
    OpenFault,
    /// The record of a ticket could not be read.
    RecordUnread,
    /// 2^62 turns were made, without a number of turns in the arguments.
    TurnsSpent,
    /// The output could not be printed.
    PrintFault,
    /// The memory ran out; at a daemon, before the first turn.
    OutOfMemory,
}

impl Outcome {
    /// Returns the exit status of the program.
    pub fn status(&self) -> u8
        ensures { result ≡ status_of self.now }
    {
        match self {
            Outcome::Done | Outcome::Report | Outcome::Shown(_) => 0,
            Outcome::NotRunning => 7,
            Outcome::Usage(Some(ErrorKind::DisplayHelp | ErrorKind::DisplayVersion)) => 0,
            Outcome::Usage(_) | Outcome::BadWord(_) => 1,
            Outcome::ConfUnread | Outcome::ConfBad(_) => 1,
            Outcome::NotMember | Outcome::NotSite | Outcome::NotFollowed(_) => 1,
            Outcome::KeyUnread | Outcome::KeyBad(_) => 1,
            Outcome::JournalUnread | Outcome::AuditBad(_) => 1,
            Outcome::LockFault | Outcome::Running | Outcome::OpenFault => 1,
            Outcome::RecordUnread => 1,
            Outcome::Refused(_) | Outcome::Stranded(_) => 1,
            Outcome::NoReply | Outcome::SendFault => 1,
            Outcome::TurnsSpent | Outcome::PrintFault | Outcome::OutOfMemory => 1,
        }
    }
}

/// An outcome, and the text for it on standard error: nothing or one line.
#[derive(Drop)]
pub struct Ended {
    pub outcome: Outcome,
    pub said: ErrorLine,
}

impl Ended {
    /// Returns how a run ends if the memory has run out.
    pub fn out_of_memory() -> Ended
        ensures outcome { result.outcome ≡ Outcome.OutOfMemory }
        ensures said { result.said ≡ out_of_memory_text }
    {
        Ended {
            outcome: Outcome::OutOfMemory,
            said: texts::out_of_memory_text(),
        }
    }
}
