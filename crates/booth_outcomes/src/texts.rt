//! The text on standard error for each outcome, without the program's name.
ghost use Rattle.std.specs.Prelude.{◌≡◌, ◌≤◌, ◌+◌, ◌++◌, [], codes, decimal, length};
ghost use Rattle.std.specs.Prelude.{unwrap_or};
ghost use Rattle.booth_base.specs.Address.{printed};
ghost use Rattle.booth_following.specs.declared.programs.TheConstants.{PATH_BYTES};
ghost use Rattle.booth_outcomes.specs.Texts.{usage_text, version_text, bad_word_text, unread_text, unread_record_text};
ghost use Rattle.booth_outcomes.specs.Texts.{unlocked_text, unopened_text, unprinted_text};
ghost use Rattle.booth_outcomes.specs.Texts.{not_followed_text, why_not_followed};
ghost use Rattle.booth_outcomes.specs.Texts.{not_member_text, not_site_text, key_name, key_fault_text, out_of_memory_text};
ghost use Rattle.booth_outcomes.specs.Texts.{file_text, at_line, audit_text, journal_at, IsTicketText, IsFaultText};

use crate::Word;
use crate::error_line::ErrorLine;
use booth_base::{Address, Name, PathText};
use booth_cli::{Program, version};
use booth_conf::{ConfFault, KeyNo, ticket_name};
use booth_following::FollowFault;
use booth_journal::AuditFault;
use booth_keys::KeyFault;

/// Returns a line with this text.
pub fn line_of(text: &[u8]) -> ErrorLine
    requires { length text.now ≤ 300 }
    ensures { result ≡ text.now }
{
    let mut line = ErrorLine::none();
    line.put(text);
    line
}

/// Returns the text for a missing command: those that the program has.
pub fn usage_text(program: Program) -> ErrorLine
    ensures { result ≡ usage_text program }
{
    match program {
        Program::Boothd => line_of(
            b"usage: boothd COMMAND [OPTIONS], with the command daemon, status, sim or audit; \
            see --help behind it, and boothd(8)",
        ),
        Program::Booth => line_of(
            b"usage: booth COMMAND [OPTIONS], with the command list, show, peers, status, grant, revoke or move; \
            see --help behind it",
        ),
        Program::Geostore => line_of(
            b"usage: geostore COMMAND [OPTIONS], with the command set, get, delete or list; \
            see --help behind it",
        ),
        Program::BoothFollow => line_of(
            b"usage: booth-follow [OPTIONS] -s ADDRESS TICKET PROGRAM; see --help",
        ),
    }
}

/// Returns the output for the version of a program.
pub(crate) fn version_text(program: Program) -> ErrorLine
    ensures { result ≡ version_text program }
{
    let mut line = ErrorLine::none();
    line.put(program.name().as_bytes());
    line.put(b" ");
    line.put(version().as_bytes());
    line.put(b"\n");
    line
}

/// Returns the text for an argument that is refused.
pub fn bad_word_text(word: Word) -> ErrorLine
    ensures { result ≡ bad_word_text word }
{
    match word {
        Word::Ticket => line_of(b"bad ticket"),
        Word::Name => line_of(b"bad name"),
        Word::Value => line_of(b"bad value"),
        Word::Site => line_of(b"bad site"),
        Word::Number => line_of(b"bad number"),
        Word::Path => line_of(b"bad path"),
        Word::Program => line_of(b"bad program"),
        Word::Configuration => line_of(b"bad configuration"),
    }
}

/// Returns the text for a file that could not be read.
pub fn unread_text(path: &PathText) -> ErrorLine
    ensures { result ≡ unread_text path.now }
{
    let mut line = ErrorLine::none();
    line.put(b"cannot read ");
    line.put(path.as_str().as_bytes());
    line
}

/// Returns the text for a lock that failed.
pub fn unlocked_text(path: &PathText) -> ErrorLine
    ensures { result ≡ unlocked_text path.now }
{
    let mut line = ErrorLine::none();
    line.put(b"cannot lock ");
    line.put(path.as_str().as_bytes());
    line
}

/// Returns the text for a socket or a directory of records that could not be opened.
pub fn unopened_text() -> ErrorLine
    ensures { result ≡ unopened_text }
{
    line_of(b"cannot open")
}

/// Returns the text for this ticket's record, which could not be read.
pub fn unread_record_text(ticket: &Name) -> ErrorLine
    ensures { result ≡ unread_record_text ticket.now }
{
    let mut line = ErrorLine::none();
    line.put(b"cannot read the record of ");
    line.put(ticket.bytes());
    line
}

/// Returns the text for a print that failed.
pub fn unprinted_text() -> ErrorLine
    ensures { result ≡ unprinted_text }
{
    line_of(b"cannot print")
}

fn put_not_member(address: &Address, line: &mut ErrorLine)
    requires { length line.old ≤ 300 }
    ensures bytes { line.new ≡ line.old ++ (printed address.now ++ codes " is not a member") }
    ensures len { length line.new ≤ length line.old + 55 }
{
    line.put(address.print().as_bytes());
    line.put(b" is not a member");
}

/// Returns the text for an address that no member has.
pub fn not_member_text(address: &Address) -> ErrorLine
    ensures { result ≡ not_member_text address.now }
{
    let mut line = ErrorLine::none();
    put_not_member(address, &mut line);
    line
}

fn put_not_site(address: &Address, line: &mut ErrorLine)
    requires { length line.old ≤ 300 }
    ensures { line.new ≡ line.old ++ (printed address.now ++ codes " is not a site") }
{
    line.put(address.print().as_bytes());
    line.put(b" is not a site");
}

/// Returns the text for an address that no site has.
pub fn not_site_text(address: &Address) -> ErrorLine
    ensures { result ≡ not_site_text address.now }
{
    let mut line = ErrorLine::none();
    put_not_site(address, &mut line);
    line
}

fn why_not_followed(fault: FollowFault) -> &'static str
    ensures reason { result.now ≡ why_not_followed fault }
    ensures short { length result.now ≤ 80 }
{
    match fault {
        FollowFault::NoTicket => "the configuration has no such ticket",
        FollowFault::NotSite => "no site has this address",
        FollowFault::IsManual => "it is manual, and has no lease that ends",
        FollowFault::MarginTooLong => "the margin is too long for its expire and renewal-freq",
        FollowFault::KillTooLong => "the time of a kill is not below the margin",
        FollowFault::KillTooShort => "the time of a kill is below 1 second",
    }
}

/// Returns the text for a ticket that is not followed.
pub fn not_followed_text(ticket: &Name, fault: FollowFault) -> ErrorLine
    ensures { result ≡ not_followed_text ticket.now fault }
{
    let mut line = ErrorLine::none();
    line.put(b"cannot follow ticket ");
    line.put(ticket.bytes());
    line.put(b": ");
    line.put(why_not_followed(fault).as_bytes());
    line
}

// Returns the name of a key; each key of the table has one.
fn key_name(key: KeyNo) -> &'static str
    ensures name { result.now ≡ key_name key }
    ensures short { length result.now ≤ 22 }
{
    key.name().unwrap_or("")
}

pub(crate) fn key_fault_text(fault: KeyFault) -> ErrorLine
    ensures { result ≡ key_fault_text fault }
{
    match fault {
        KeyFault::TooShort => line_of(b"key too short"),
        KeyFault::TooLong => line_of(b"key too long"),
    }
}

/// Returns the text for out of memory.
pub(crate) fn out_of_memory_text() -> ErrorLine
    ensures { result ≡ out_of_memory_text }
{
    line_of(b"out of memory")
}

// Returns the start of a line about the file at this path.
fn begun_with(path: &str) -> ErrorLine
    requires { length path.now ≤ PATH_BYTES }
    ensures bytes { result ≡ path.now ++ codes ": " }
    ensures len { length result ≤ 257 }
{
    let mut line = ErrorLine::none();
    line.put(path.as_bytes());
    line.put(b": ");
    line
}

fn file_text(path: &PathText, what: &[u8]) -> ErrorLine
    requires { length what.now ≤ 100 }
    ensures { result ≡ file_text path.now what.now }
{
    let mut line = begun_with(path.as_str());
    line.put(what);
    line
}

// Returns the start of a line about a line of the file at this path.
fn begun_at(path: &str, number: u64) -> ErrorLine
    requires { length path.now ≤ PATH_BYTES }
    ensures bytes { result ≡ path.now ++ codes ": line "
        ++ decimal number ++ codes ": " }
    ensures len { length result ≤ 284 }
{
    let mut line = begun_with(path);
    line.put(b"line ");
    line.put_number(number);
    line.put(b": ");
    line
}

fn at_line(path: &PathText, number: u32, what: &[u8]) -> ErrorLine
    requires { length what.now ≤ 100 }
    ensures { result ≡ at_line path.now number what.now }
{
    let mut line = begun_at(path.as_str(), u64::from(number));
    line.put(what);
    line
}

fn put_value(key: KeyNo, line: &mut ErrorLine)
    requires { length line.old ≤ 300 }
    ensures bytes { line.new ≡ line.old ++ (codes "bad value for " ++ key_name key) }
    ensures len { length line.new ≤ length line.old + 36 }
{
    line.put(b"bad value for ");
    line.put(key_name(key).as_bytes());
}

fn of_value(path: &PathText, number: u32, key: KeyNo) -> ErrorLine
    ensures { result ≡ at_line path.now number (codes "bad value for " ++ key_name key) }
{
    let mut line = begun_at(path.as_str(), u64::from(number));
    put_value(key, &mut line);
    line
}

// Appends the name of a ticket, if it has one.
fn put_name(name: &Option<Name>, line: &mut ErrorLine)
    requires { length line.old ≤ 300 }
    ensures bytes { line.new ≡ line.old ++ unwrap_or name.now [] }
    ensures len { length line.new ≤ length line.old + 63 }
{
    if let Some(name) = name {
        line.put(name.bytes());
    }
}

fn at_ticket(path: &PathText, text: &[u8], ticket: usize, what: &[u8]) -> ErrorLine
    requires { length what.now ≤ 50 }
    ensures { IsTicketText path.now text.now ticket what.now result }
{
    let name = ticket_name(text, ticket);
    let mut line = begun_with(path.as_str());
    line.put(b"ticket ");
    put_name(&name, &mut line);
    line.put(b": ");
    line.put(what);
    line
}

/// Returns the text for the fault of this text, from the file at this path.
pub(crate) fn fault_text(path: &PathText, text: &[u8], fault: ConfFault) -> ErrorLine
    ensures { IsFaultText path.now text.now fault result }
{
    match fault {
        ConfFault::TooLarge => file_text(path, b"too large"),
        ConfFault::Syntax { line } => at_line(path, line, b"syntax"),
        ConfFault::UnknownKey { line } => at_line(path, line, b"unknown key"),
        ConfFault::Misplaced { line } => at_line(path, line, b"misplaced key"),
        ConfFault::BadValue { line, key } => of_value(path, line, key),
        ConfFault::Repeated { line } => at_line(path, line, b"repeated"),
        ConfFault::DefaultLate { line } => at_line(path, line, b"__default__ must come first"),
        ConfFault::TooMany { line } => at_line(path, line, b"too many"),
        ConfFault::NoSite => file_text(path, b"no site"),
        ConfFault::NoTicket => file_text(path, b"no ticket"),
        ConfFault::IdClash { .. } => file_text(path, b"member ids clash"),
        ConfFault::Renewal { ticket } => {
            at_ticket(path, text, ticket, b"renewal-freq is not below expire")
        }
        ConfFault::RetryTime { ticket } => at_ticket(
            path,
            text,
            ticket,
            b"timeout and retries do not fit renewal-freq",
        ),
        ConfFault::OutOfMemory => out_of_memory_text(),
    }
}

// Returns the path of the journal at this place.
fn journal_at(paths: &[PathText], place: u32) -> &str
    ensures value { result.now ≡ journal_at paths.now place }
    ensures short { length result.now ≤ PATH_BYTES }
{
    let Some(path) = paths.get(place as usize) else {
        return "";
    };
    path.as_str()
}

fn of_journal(paths: &[PathText], journal: u32, what: &[u8]) -> ErrorLine
    requires { length what.now ≤ 100 }
    ensures { result ≡ file_text (journal_at paths.now journal) what.now }
{
    let mut line = begun_with(journal_at(paths, journal));
    line.put(what);
    line
}

fn at_journal_line(paths: &[PathText], journal: u32, number: u64, what: &[u8]) -> ErrorLine
    requires { length what.now ≤ 100 }
    ensures { result ≡ at_line (journal_at paths.now journal) number what.now }
{
    let mut line = begun_at(journal_at(paths, journal), number);
    line.put(what);
    line
}

/// Returns the text for the fault of journals in the files at these paths.
pub fn audit_text(paths: &[PathText], fault: AuditFault) -> ErrorLine
    ensures { result ≡ audit_text paths.now fault }
{
    match fault {
        AuditFault::Line { journal, line } => at_journal_line(paths, journal, line, b"syntax"),
        AuditFault::Member { journal } => of_journal(paths, journal, b"member"),
        AuditFault::Differs { journal, line } => at_journal_line(paths, journal, line, b"differs"),
        AuditFault::Kept { journal, line } => at_journal_line(paths, journal, line, b"record"),
        AuditFault::Unsent { journal, line } => at_journal_line(paths, journal, line, b"unsent"),
        AuditFault::OutOfMemory => out_of_memory_text(),
    }
}
