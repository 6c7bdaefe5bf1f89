//! The state of a ticket, for a client that asks for this ticket alone.
ghost use Rattle.std.specs.Prelude.{◌≡◌};
ghost use Rattle.booth_raft.specs.Messages.{part_of};
ghost use Rattle.booth_ticket.specs.Requests.{told_lease, shown_part, lease_part, told_part};
ghost use Rattle.booth_ticket.specs.Ticket.{endless_part};

use crate::requests::{is_holder, is_shown_elsewhere};
use crate::ticket::Owner;
use booth_base::{MemberId, NO_ONE};
use booth_raft::{Shown, View, seconds_left};
use booth_rec::Lease;
use booth_wire::{Setup, TicketPart};

/// The seconds of a lease without an end, in messages.
const ENDLESS_SECONDS: u32 = u32::MAX;

fn part_of(setup: &Setup, leader: MemberId, term: u32, valid_for: u32) -> TicketPart
    ensures { result ≡ part_of setup.now leader term valid_for }
{
    TicketPart {
        ticket: setup.ticket.copy(),
        leader,
        term,
        valid_for,
    }
}

// Returns the lease to report: the lease of the record, while this site holds the ticket by it.
fn told_lease(setup: &Setup, view: &View, now: u64) -> Option<Lease>
    ensures { result ≡ told_lease setup.now view.now now }
{
    if is_holder(setup, view, now) {
        view.kept.lease
    } else {
        None
    }
}

// Returns the part for another member that is the known holder, without a term.
fn shown_part(setup: &Setup, shown: Option<Shown>, now: u64) -> TicketPart
    ensures { result ≡ shown_part setup.now shown now }
{
    match shown {
        Some(other) if is_shown_elsewhere(shown, setup.me, now) => {
            part_of(setup, other.owner, 0, seconds_left(other.until, now))
        }
        Some(_) | None => part_of(setup, NO_ONE, 0, 0),
    }
}

/// Returns the holder of an automatic ticket, the term of its lease, and the seconds that are left.
pub(crate) fn told_part(setup: &Setup, view: &View, now: u64) -> TicketPart
    ensures { result ≡ told_part setup.now view.now now }
{
    match told_lease(setup, view, now) {
        Some(lease) => part_of(setup, setup.me, lease.term, seconds_left(lease.until, now)),
        None => shown_part(setup, view.shown, now),
    }
}

/// Returns the part with the holder of a manual ticket. Its lease has no end, and no term of its own.
pub(crate) fn endless_part(setup: &Setup, owner: Option<Owner>) -> TicketPart
    ensures { result ≡ endless_part setup.now owner }
{
    match owner {
        Some(owner) => part_of(setup, owner.site, 0, ENDLESS_SECONDS),
        None => part_of(setup, NO_ONE, 0, 0),
    }
}
