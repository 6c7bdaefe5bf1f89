//! The line of a ticket in a daemon's list: whether the list has one, and whether it shows this site.
ghost use Rattle.std.specs.Prelude.{◌≡◌, ◌<◌, ◌≤◌, ◌++◌, ◌*◌, ◌^◌, ℕ, decimal, option_map, IfOk, MatchBool, MatchOption};
ghost use Rattle.booth_base.specs.Address.{printed};
ghost use Rattle.booth_following.specs.Lists.{BeginsLine, HasLine, IsLine, IsOf, IsShownIn, IsUntil, line_start};

use booth_base::{Address, Name};
use booth_follow_rule::Shown;
use itoa::Buffer;
use std::alloc::{AllocError, Global};
use std::marker::Model;

/// The beginning of a ticket's line while one site holds the ticket. Contracts see these bytes.
#[derive(Drop)]
pub struct TicketLine {
    start: Vec<u8>,
}

impl Model for TicketLine {
    ghost use Rattle.std.specs.Prelude.{List, ℕ};

    ghost Value = { List ℕ };

    ghost view = { λ line. line.start.items };
}

// Returns the number with this text, if the text is a number.
fn number(text: &[u8]) -> Option<u64>
    ensures { MatchOption result ((n : ℕ) → n < 2 ^ 64 → text.now ≡ decimal n → ⊥)
        (λ n. text.now ≡ decimal n) }
{
    let Ok(word) = std::str::from_utf8(text) else {
        return None;
    };
    let Ok(number) = word.parse::<u64>() else {
        return None;
    };
    let mut digits = Buffer::new();
    if digits.format(number) == word {
        Some(number)
    } else {
        None
    }
}

// Returns the bytes after this beginning, if the line has it.
fn behind<'a>(start: &[u8], line: &'a [u8]) -> Option<&'a [u8]>
    ensures { BeginsLine start.now line.now (option_map (λ rest. rest.now) result) }
{
    if line.len() < start.len() {
        return None;
    }
    let (first, rest) = line.split_at(start.len());
    if first == start { Some(rest) } else { None }
}

// Returns the end in a line, in milliseconds, if it is the ticket's line and this site holds the ticket.
fn until_in(start: &[u8], line: &[u8]) -> Option<u64>
    ensures { IsUntil start.now line.now result }
{
    let Some(rest) = behind(start, line) else {
        return None;
    };
    let Some(seconds) = number(rest) else {
        return None;
    };
    seconds.checked_mul(1000)
}

// Returns what a text shows, by the first line that has the beginning and an end.
fn shown_in(start: &[u8], text: &[u8]) -> Shown
    ensures { IsShownIn start.now text.now result }
{
    for line in text.split(|b| *b == b'\n') {
        match until_in(start, line) {
            Some(until) => return Shown::Here { until },
            None => {}
        }
    }
    Shown::Elsewhere
}

// Returns whether a line of a list is about this ticket.
fn is_of(ticket: &[u8], line: &[u8]) -> bool
    ensures { MatchBool result (IsOf ticket.now line.now) (IsOf ticket.now line.now → ⊥) }
{
    let Some(rest) = behind(ticket, line) else {
        return false;
    };
    match behind(b" ", rest) {
        Some(_) => true,
        None => false,
    }
}

/// Returns whether a text has a line of this ticket.
pub(crate) fn has_line(ticket: &[u8], text: &[u8]) -> bool
    ensures { MatchBool result (HasLine ticket.now text.now) (HasLine ticket.now text.now → ⊥) }
{
    for line in text.split(|b| *b == b'\n') {
        if is_of(ticket, line) {
            return true;
        }
    }
    false
}

impl TicketLine {
    /// Returns the beginning of this ticket's line while the site at this address holds the ticket.
    pub fn new(alloc: Global, ticket: &Name, local: &Address) -> Result<TicketLine, AllocError>
        ensures { IfOk result (λ line. line ≡ line_start ticket.now local.now) }
    {
        let mut start = Vec::new(alloc);
        start.extend_from_slice(ticket.bytes())?;
        start.extend_from_slice(b" ")?;
        start.extend_from_slice(local.print().as_bytes())?;
        start.extend_from_slice(b" ")?;
        Ok(TicketLine { start })
    }

    /// Returns what a list shows of the ticket.
    pub(crate) fn shown_in(&self, text: &[u8]) -> Shown
        ensures { IsShownIn self.now text.now result }
    {
        shown_in(&self.start, text)
    }
}
