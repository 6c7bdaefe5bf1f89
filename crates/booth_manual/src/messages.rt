//! The messages that the rules send to members.
ghost use Rattle.std.specs.Prelude.{◌≡◌};
ghost use Rattle.booth_manual.specs.Messages.{head_of, part_of, holder, seconds_for, state_part};
ghost use Rattle.booth_manual.specs.Messages.{asks_state, tells_state, tells_grant, revokes};

use crate::view::{ManualView, NO_END_SECONDS};
use booth_base::{MemberId, NO_ONE};
use booth_wire::reasons::{ADMN, NONE};
use booth_wire::{Cmd, Head, Say, Setup, TicketPart};

fn head_of(setup: &Setup, cmd: Cmd, request: u32, reason: u32) -> Head
    ensures { result ≡ head_of setup.now cmd request reason }
{
    Head {
        auth: false,
        secs: 0,
        usecs: 0,
        from: setup.me,
        cmd,
        request,
        options: 0,
        reason,
        result: 0,
    }
}

fn part_of(setup: &Setup, leader: MemberId, term: u32, valid_for: u32) -> TicketPart
    ensures { result ≡ part_of setup.now leader term valid_for }
{
    TicketPart {
        ticket: setup.ticket.copy(),
        leader,
        term,
        valid_for,
    }
}

/// Returns the holder as far as this member knows: itself, or the known holder, or `NO_ONE`.
pub fn holder(setup: &Setup, view: &ManualView) -> MemberId
    ensures { result ≡ holder setup.now view.now }
{
    if view.owner {
        setup.me
    } else {
        view.shown.unwrap_or(NO_ONE)
    }
}

fn seconds_for(leader: MemberId) -> u32
    ensures { result ≡ seconds_for leader }
{
    if leader == NO_ONE { 0 } else { NO_END_SECONDS }
}

fn state_part(setup: &Setup, view: &ManualView) -> TicketPart
    ensures { result ≡ state_part setup.now view.now }
{
    let leader = holder(setup, view);
    part_of(setup, leader, view.term, seconds_for(leader))
}

// Asks all members for their state.
pub(crate) fn asks_state(setup: &Setup, view: &ManualView) -> Say
    ensures { result ≡ asks_state setup.now view.now }
{
    Say::All(head_of(setup, Cmd::Stat, 0, NONE), state_part(setup, view))
}

// Answers a member that asked for the state.
pub(crate) fn tells_state(setup: &Setup, view: &ManualView, asked: &Head) -> Say
    ensures { result ≡ tells_state setup.now view.now asked.now }
{
    let answer = head_of(setup, Cmd::MIdx, asked.request, NONE);
    Say::Reply(answer, state_part(setup, view))
}

// Announces to all members that this site holds the ticket.
pub(crate) fn tells_grant(setup: &Setup, term: u32) -> Say
    ensures { result ≡ tells_grant setup.now term }
{
    let told = head_of(setup, Cmd::UpdE, 0, NONE);
    Say::All(told, part_of(setup, setup.me, term, NO_END_SECONDS))
}

// Announces to all members that the ticket was released.
pub(crate) fn revokes(setup: &Setup, term: u32) -> Say
    ensures { result ≡ revokes setup.now term }
{
    let revoked = head_of(setup, Cmd::Revk, 0, ADMN);
    Say::All(revoked, part_of(setup, NO_ONE, term, 0))
}
