//! The lines of a daemon's texts: the kind of each line, and how it is printed.
ghost use Rattle.std.specs.Prelude.{◌≡◌, ◌++◌, [], codes, map, IfOk, OnOk, MatchBool, MatchOption};
ghost use Rattle.std.specs.Str.Parse.{digits_value};
ghost use Rattle.booth_talk.specs.Civil.{date_text};
ghost use Rattle.booth_talk.specs.Fields.{first, rest, IsNumber};
ghost use Rattle.booth_talk.specs.Forms.{AreLines, IsDropsLine, IsLine, IsMemberLine, IsTicketLine, expiry, kind_at, labelled, last_text, lines_of, shown_drops, shown_from, shown_line, shown_member, shown_ticket};

use crate::date::date_text;
use crate::fields::{first, is_owner, is_printed, is_role, rest};
use crate::numbers::{are_numbers, is_number, number};
use booth_base::Name;
use std::alloc::{AllocError, Global};

/// A text of several lines.
#[derive(Clone, Copy)]
pub(crate) enum Form {
    /// A line for each ticket.
    List,
    /// The dropped datagrams, and a line for each other member.
    Peers,
}

/// The kind of a line in a text of several lines.
#[derive(Clone, Copy)]
pub(crate) enum LineKind {
    Ticket,
    Drops,
    Member,
}

/// The labels of the numbers of dropped datagrams, in the order of the faults.
const DROP_LABELS: [&str; 8] = [
    "dropped: frame ",
    ", nomac ",
    ", badmac ",
    ", old ",
    ", stranger ",
    ", self ",
    ", ticket ",
    ", leader ",
];

/// The labels of the counters of a member.
const MEMBER_LABELS: [&str; 3] = [", received: ", ", sent: ", ", errors: "];

impl Form {
    /// Returns the kind of the first line.
    fn first_kind(self) -> LineKind
        ensures { result ≡ kind_at self 0 }
    {
        match self {
            Form::List => LineKind::Ticket,
            Form::Peers => LineKind::Drops,
        }
    }

    /// Returns the kind of every other line.
    fn other_kind(self) -> LineKind
        ensures { result ≡ kind_at self 1 }
    {
        match self {
            Form::List => LineKind::Ticket,
            Form::Peers => LineKind::Member,
        }
    }
}

// ---- the kind of a line

fn is_ticket_line(line: &[u8]) -> bool
    ensures { MatchBool result (IsTicketLine line.now) (IsTicketLine line.now → ⊥) }
{
    let behind = rest(line);
    Name::read(first(line)).is_ok() && is_owner(first(behind)) && is_number(rest(behind))
}

fn is_drops_line(line: &[u8]) -> bool
    ensures { MatchBool result (IsDropsLine line.now) (IsDropsLine line.now → ⊥) }
{
    first(line) == "dropped".as_bytes() && are_numbers(7, rest(line))
}

fn is_member_line(line: &[u8]) -> bool
    ensures { MatchBool result (IsMemberLine line.now) (IsMemberLine line.now → ⊥) }
{
    let behind = rest(line);
    is_role(first(line)) && is_printed(first(behind)) && are_numbers(3, rest(behind))
}

fn is_line(kind: LineKind, line: &[u8]) -> bool
    ensures { MatchBool result (IsLine kind line.now) (IsLine kind line.now → ⊥) }
{
    match kind {
        LineKind::Ticket => is_ticket_line(line),
        LineKind::Drops => is_drops_line(line),
        LineKind::Member => is_member_line(line),
    }
}

// ---- the printing of a line

fn put(shown: &mut Vec<u8>, piece: &[u8]) -> Result<(), AllocError>
    ensures { OnOk result (shown.new.items ≡ shown.old.items ++ piece.now) }
{
    shown.extend_from_slice(piece)
}

// Appends the end of a lease, if there is one.
fn put_expiry(shown: &mut Vec<u8>, seconds: u64) -> Result<(), AllocError>
    ensures { OnOk result (shown.new.items ≡ shown.old.items ++ expiry seconds) }
{
    if seconds == 0 {
        return Ok(());
    }
    put(shown, b", expires: ")?;
    put(shown, date_text(seconds).as_bytes())
}

// Appends the time at which the last datagram arrived, if one did.
fn put_last(shown: &mut Vec<u8>, seconds: u64) -> Result<(), AllocError>
    ensures { OnOk result (shown.new.items ≡ shown.old.items ++ last_text seconds) }
{
    if seconds == 0 {
        return put(shown, b"never");
    }
    put(shown, date_text(seconds).as_bytes())
}

// Appends each of these fields after its label.
fn put_labelled(shown: &mut Vec<u8>, labels: &[&str], text: &[u8]) -> Result<(), AllocError>
    ensures { OnOk result (shown.new.items
        ≡ shown.old.items ++ labelled (map (λ l. l.now) labels.now) text.now) }
{
    let mut left = text;
    for label in labels {
        put(shown, label.as_bytes())?;
        put(shown, first(left))?;
        left = rest(left);
    }
    Ok(())
}

// Returns the number in a field that contains one.
fn number_in(text: &[u8]) -> u64
    requires { IsNumber text.now }
    ensures { result ≡ digits_value 10 text.now }
{
    match number(text) {
        Some(number) => number,
        None => unreachable!(),
    }
}

fn put_ticket(shown: &mut Vec<u8>, line: &[u8]) -> Result<(), AllocError>
    requires { IsTicketLine line.now }
    ensures { OnOk result (shown.new.items ≡ shown.old.items ++ shown_ticket line.now) }
{
    let behind = rest(line);
    put(shown, b"ticket: ")?;
    put(shown, first(line))?;
    put(shown, b", leader: ")?;
    put(shown, first(behind))?;
    put_expiry(shown, number_in(rest(behind)))?;
    put(shown, b"\n")
}

fn put_drops(shown: &mut Vec<u8>, line: &[u8]) -> Result<(), AllocError>
    ensures { OnOk result (shown.new.items ≡ shown.old.items ++ shown_drops line.now) }
{
    put_labelled(shown, &DROP_LABELS, rest(line))?;
    put(shown, b"\n")
}

// Appends the role of a member, its address, and the time at which its last datagram arrived.
fn put_member_head(shown: &mut Vec<u8>, line: &[u8], seconds: u64) -> Result<(), AllocError>
    ensures { OnOk result (shown.new.items ≡ shown.old.items ++ (first line.now ++ codes " "
        ++ first (rest line.now) ++ codes ", last: " ++ last_text seconds)) }
{
    put(shown, first(line))?;
    put(shown, b" ")?;
    put(shown, first(rest(line)))?;
    put(shown, b", last: ")?;
    put_last(shown, seconds)
}

fn put_member(shown: &mut Vec<u8>, line: &[u8]) -> Result<(), AllocError>
    requires { IsMemberLine line.now }
    ensures { OnOk result (shown.new.items ≡ shown.old.items ++ shown_member line.now) }
{
    let numbers = rest(rest(line));
    put_member_head(shown, line, number_in(first(numbers)))?;
    put_labelled(shown, &MEMBER_LABELS, rest(numbers))?;
    put(shown, b"\n")
}

fn put_line(shown: &mut Vec<u8>, kind: LineKind, line: &[u8]) -> Result<(), AllocError>
    requires { IsLine kind line.now }
    ensures { OnOk result (shown.new.items ≡ shown.old.items ++ shown_line kind line.now) }
{
    match kind {
        LineKind::Ticket => put_ticket(shown, line),
        LineKind::Drops => put_drops(shown, line),
        LineKind::Member => put_member(shown, line),
    }
}

/// Returns the lines of a text as they are printed, if each has the kind for its place. Otherwise returns `None`.
pub(crate) fn shown_lines(
    alloc: Global,
    form: Form,
    body: &[u8],
) -> Result<Option<Vec<u8>>, AllocError>
    ensures { IfOk result (λ found. MatchOption found (AreLines form (lines_of body.now) → ⊥)
        (λ shown. AreLines form (lines_of body.now) × (shown.items ≡ shown_from form 0 (lines_of body.now)))) }
{
    let mut shown = Vec::new(alloc);
    let mut kind = form.first_kind();
    for line in body.split(|b| *b == b'\n') {
        if !is_line(kind, line) {
            return Ok(None);
        }
        put_line(&mut shown, kind, line)?;
        kind = form.other_kind();
    }
    Ok(Some(shown))
}
