//! The messages that the rules send to members.
ghost use Rattle.std.specs.Prelude.{◌≡◌};
ghost use Rattle.booth_raft.specs.Messages.{head_of, part_of, owner_now, shown_end, state_part, asks_state, tells_state, tells_gain, revokes, answer_cmd, answers_round, refuses_round, round_head, round_part, asks_all, asks_again};

use crate::gain_release_lost::own_end;
use crate::members::unanswered;
use crate::numbers::seconds_left;
use crate::view::{Round, RoundKind, Shown, View};
use booth_base::{MemberId, NO_ONE};
use booth_wire::{Cmd, Head, Say, Setup, TicketPart};

fn head_of(
    setup: &Setup,
    cmd: Cmd,
    request: u32,
    options: u32,
    reason: u32,
    result_code: u32,
) -> Head
    ensures { result ≡ head_of setup.now cmd request options reason result_code }
{
    Head {
        auth: false,
        secs: 0,
        usecs: 0,
        from: setup.me,
        cmd,
        request,
        options,
        reason,
        result: result_code,
    }
}

fn part_of(setup: &Setup, leader: MemberId, term: u32, valid_for: u32) -> TicketPart
    ensures { result ≡ part_of setup.now leader term valid_for }
{
    TicketPart {
        ticket: setup.ticket.copy(),
        leader,
        term,
        valid_for,
    }
}

/// Returns the owner now: the owner that the member knows of, until its lease ends. Otherwise returns `NO_ONE`.
pub fn owner_now(shown: Option<Shown>, now: u64) -> MemberId
    ensures { result ≡ owner_now shown now }
{
    match shown {
        Some(shown) if now < shown.until => shown.owner,
        Some(_) | None => NO_ONE,
    }
}

/// Returns the end in ms of the lease that the member knows of, or 0 if it knows of none.
pub fn shown_end(shown: Option<Shown>) -> u64
    ensures { result ≡ shown_end shown }
{
    shown.map_or(0, |s| s.until)
}

// Returns the owner now, the term, and the seconds left.
fn state_part(setup: &Setup, view: &View, now: u64) -> TicketPart
    ensures { result ≡ state_part setup.now view.now now }
{
    let left = seconds_left(shown_end(view.shown), now);
    part_of(setup, owner_now(view.shown, now), view.term, left)
}

// Returns a message that asks all members for their state.
pub(crate) fn asks_state(setup: &Setup, view: &View, now: u64) -> Say
    ensures { result ≡ asks_state setup.now view.now now }
{
    Say::All(
        head_of(setup, Cmd::Stat, 0, 0, 0, 0),
        state_part(setup, view, now),
    )
}

// Returns the answer to a member that asked for the state.
pub(crate) fn tells_state(setup: &Setup, view: &View, asked: &Head, now: u64) -> Say
    ensures { result ≡ tells_state setup.now view.now asked.now now }
{
    let answer = head_of(setup, Cmd::MIdx, asked.request, 0, 0, 0);
    Say::Reply(answer, state_part(setup, view, now))
}

// Returns a message that announces a lease to all members.
pub(crate) fn tells_gain(setup: &Setup, view: &View, now: u64) -> Say
    ensures { result ≡ tells_gain setup.now view.now now }
{
    Say::All(
        head_of(setup, Cmd::UpdE, 0, 0, 0, 0),
        state_part(setup, view, now),
    )
}

// Returns a message that announces to all members that the lease of a term was released.
pub(crate) fn revokes(setup: &Setup, term: u32, reason: u32) -> Say
    ensures { result ≡ revokes setup.now term reason }
{
    let revoked = head_of(setup, Cmd::Revk, 0, 0, reason, 0);
    Say::All(revoked, part_of(setup, NO_ONE, term, 0))
}

fn answer_cmd(kind: RoundKind) -> Cmd
    ensures { result ≡ answer_cmd kind }
{
    match kind {
        RoundKind::Election => Cmd::VtFr,
        RoundKind::Renewal => Cmd::Ack,
    }
}

// Returns the answer to a round.
pub(crate) fn answers_round(
    setup: &Setup,
    kind: RoundKind,
    to: MemberId,
    number: u32,
    request: u32,
    term: u32,
) -> Say
    ensures { result ≡ answers_round setup.now kind to number request term }
{
    let answer = head_of(setup, answer_cmd(kind), request, number, 0, 0);
    Say::Reply(answer, part_of(setup, to, term, 0))
}

// Returns the refusal of a round.
pub(crate) fn refuses_round(setup: &Setup, view: &View, round: &Head, why: u32, now: u64) -> Say
    ensures { result ≡ refuses_round setup.now view.now round.now why now }
{
    let refusal = head_of(setup, Cmd::Rjc, round.request, round.options, 0, why);
    Say::Reply(refusal, state_part(setup, view, now))
}

fn round_head(setup: &Setup, view: &View, number: u32) -> Head
    ensures { result ≡ round_head setup.now view.now number }
{
    if number == 0 {
        head_of(setup, Cmd::RVot, 0, 0, view.reason, 0)
    } else {
        head_of(setup, Cmd::HrtB, 0, number, 0, 0)
    }
}

fn round_part(setup: &Setup, view: &View, now: u64) -> TicketPart
    ensures { result ≡ round_part setup.now view.now now }
{
    let left = seconds_left(own_end(view), now);
    part_of(setup, setup.me, view.term, left)
}

// Returns the round's message to all members.
pub(crate) fn asks_all(setup: &Setup, view: &View, number: u32, now: u64) -> Say
    ensures { result ≡ asks_all setup.now view.now number now }
{
    Say::All(
        round_head(setup, view, number),
        round_part(setup, view, now),
    )
}

// Returns the round's message to the members that have not answered.
pub(crate) fn asks_again(setup: &Setup, view: &View, round: &Round, now: u64) -> Say
    ensures { result ≡ asks_again setup.now view.now round.now now }
{
    Say::Unanswered(
        round_head(setup, view, round.number),
        round_part(setup, view, now),
        unanswered(setup, &round.answers),
    )
}
