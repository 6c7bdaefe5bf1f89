//! Why a text is not a configuration.
ghost use Rattle.std.specs.Prelude.{◌≡◌};
ghost use Rattle.booth_conf.specs.Reads.{at_line};

use crate::keys::KeyNo;

/// Why a text is not a configuration. Lines are counted from 1, and places of members and tickets from 0.
///
/// A text that is too large is reported first, then the first line with a fault, and last a fault of the whole file.
/// Within a line the order is that of the variants, and so it is within the whole file, except that times are checked
/// ticket by ticket: `RetryTime` of one ticket comes before `Renewal` of the next. Out of memory may be reported in
/// place of any fault. The program has the text of each.
#[derive(Clone, Copy, Debug, PartialEq, Eq, Drop)]
pub enum ConfFault {
    TooLarge,
    Syntax { line: u32 },
    UnknownKey { line: u32 },
    /// A key of a ticket is above the first `ticket` line.
    Misplaced { line: u32 },
    BadValue { line: u32, key: KeyNo },
    Repeated { line: u32 },
    /// `__default__` is not the first ticket of the file.
    DefaultLate { line: u32 },
    TooMany { line: u32 },
    NoSite,
    NoTicket,
    /// The first two members with one id. Both are the same member if its id is the id of no one.
    IdClash { first: usize, second: usize },
    Renewal { ticket: usize },
    RetryTime { ticket: usize },
    OutOfMemory,
}

/// A fault of a line, in the order in which faults are reported.
#[derive(Clone, Copy)]
pub enum LineFault {
    Syntax,
    UnknownKey,
    Misplaced,
    BadValue(KeyNo),
    Repeated,
    DefaultLate,
    TooMany,
}

/// Why reading stopped at a line.
#[derive(Clone, Copy)]
pub enum Stop {
    Memory,
    Line(LineFault),
}

/// Returns the fault with its line.
pub fn at_line(line: u32, stop: Stop) -> ConfFault
    ensures { result ≡ at_line line stop }
{
    match stop {
        Stop::Memory => ConfFault::OutOfMemory,
        Stop::Line(LineFault::Syntax) => ConfFault::Syntax { line },
        Stop::Line(LineFault::UnknownKey) => ConfFault::UnknownKey { line },
        Stop::Line(LineFault::Misplaced) => ConfFault::Misplaced { line },
        Stop::Line(LineFault::BadValue(key)) => ConfFault::BadValue { line, key },
        Stop::Line(LineFault::Repeated) => ConfFault::Repeated { line },
        Stop::Line(LineFault::DefaultLate) => ConfFault::DefaultLate { line },
        Stop::Line(LineFault::TooMany) => ConfFault::TooMany { line },
    }
}
