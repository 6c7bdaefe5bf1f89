//! The owner of a ticket in a list.
ghost use Rattle.std.specs.Prelude.{MatchBool};
ghost use Rattle.booth_talk.specs.Owner.{HasOwnerLine, IsOwnerLine, ShowsOwner};

use crate::fields::{first, rest};
use booth_base::{Address, Name};

// Returns whether a line is about the ticket, and names this owner.
fn is_owner_line(ticket: &[u8], owner: &[u8], line: &[u8]) -> bool
    ensures { MatchBool result (IsOwnerLine ticket.now owner.now line.now)
        (IsOwnerLine ticket.now owner.now line.now → ⊥) }
{
    first(line) == ticket && first(rest(line)) == owner
}

// Returns whether a text has a line that names this owner of the ticket.
fn has_owner_line(ticket: &[u8], owner: &[u8], text: &[u8]) -> bool
    ensures { MatchBool result (HasOwnerLine ticket.now owner.now text.now)
        (HasOwnerLine ticket.now owner.now text.now → ⊥) }
{
    for line in text.split(|b| *b == b'\n') {
        if is_owner_line(ticket, owner, line) {
            return true;
        }
    }
    false
}

/// Returns whether a line of a list names the member at this address as the owner of the ticket.
pub(crate) fn shows_owner(ticket: &Name, owner: &Address, text: &[u8]) -> bool
    ensures { MatchBool result (ShowsOwner ticket.now owner.now text.now)
        (ShowsOwner ticket.now owner.now text.now → ⊥) }
{
    has_owner_line(ticket.bytes(), owner.print().as_bytes(), text)
}
