//! The rules start and learn.
ghost use Rattle.std.specs.Prelude.{◌≡◌, ◌<◌, ◌^◌};
ghost use Rattle.booth_raft.specs.Sound.{IsSound};
ghost use Rattle.booth_raft.specs.StartAndLearn.{awaits_failover, failover_time, learned, shows_leader, started, with_failover, with_seen, with_shown};

use crate::gain_release_lost::lease_end;
use crate::members::others_until;
use crate::messages::shown_end;
use crate::view::{Role, Shown, View};
use booth_base::{MemberId, NO_ONE, guard_ms, promise_ms};
use booth_rec::Record;
use booth_wire::{Setup, TicketPart};

// Returns the view of a ticket at a member that starts from this record.
pub(crate) fn started(setup: &Setup, kept: Record, now: u64) -> View
    requires sound { IsSound setup.now }
    requires early { now < 2 ^ 62 }
    ensures { result ≡ started setup.now kept now }
{
    let until = lease_end(kept.lease);
    let holds = setup.site && now < until;
    let shown = if holds {
        Some(Shown {
            owner: setup.me,
            until,
        })
    } else {
        None
    };
    let (bound, promise, abstain) = if kept.is_second() {
        (kept.bound, kept.promise, kept.abstain)
    } else {
        (None, None, now + promise_ms(&setup.times))
    };
    View {
        term: kept.term,
        seen: kept.term,
        bound,
        promise,
        abstain,
        kept,
        sure: true,
        force: until,
        role: if holds { Role::Leader } else { Role::Follower },
        round: None,
        shown,
        managed: holds,
        hello: true,
        repeat: 0,
        repeat_reason: 0,
        repeat_term: 0,
        job: None,
        reason: 0,
        due: Some(now),
        waiting: None,
    }
}

// Raises the greatest term seen to the term of a member's message.
pub(crate) fn with_seen(view: &mut View, term: u32)
    ensures { view.new ≡ with_seen view.old term }
{
    view.seen = view.seen.max(term);
}

// Returns the failover time after the known lease.
pub(crate) fn failover_time(setup: &Setup, view: &View) -> u64
    requires { IsSound setup.now }
    ensures { result ≡ failover_time setup.now view.now }
{
    shown_end(view.shown)
        .saturating_add(setup.times.after + guard_ms(&setup.times))
        .max(others_until(view.promise, setup.me))
        .saturating_add(setup.rank as u64 * setup.times.timeout)
}

// Returns whether a site waits for the failover: it follows and repeats no release message.
pub(crate) fn awaits_failover(setup: &Setup, view: &View) -> bool
    ensures { result ≡ awaits_failover setup.now view.now }
{
    view.role == Role::Follower && setup.site && view.repeat == 0
}

// Makes an owner known until a time. The ticket is managed from then on.
pub(crate) fn with_shown(view: &mut View, owner: MemberId, until: u64)
    ensures { view.new ≡ with_shown view.old owner until }
{
    view.shown = Some(Shown { owner, until });
    view.managed = true;
}

fn shows_leader(setup: &Setup, view: &View, part: &TicketPart, now: u64) -> bool
    ensures { result ≡ shows_leader setup.now view.now part.now now }
{
    part.leader != NO_ONE
        && part.leader != setup.me
        && part.valid_for > 0
        && part.term >= view.term
        && now >= view.force
}

fn with_failover(setup: &Setup, view: &mut View)
    requires { IsSound setup.now }
    ensures { view.new ≡ with_failover setup.now view.old }
{
    if awaits_failover(setup, view) {
        view.due = Some(failover_time(setup, view));
    }
}

// Learns the state in a message.
pub(crate) fn learned(setup: &Setup, view: &mut View, part: &TicketPart, now: u64)
    requires sound { IsSound setup.now }
    requires early { now < 2 ^ 62 }
    ensures { view.new ≡ learned setup.now view.old part.now now }
{
    let shows = shows_leader(setup, view, part, now);
    with_seen(view, part.term);
    if shows {
        with_shown(view, part.leader, now + 1000 * part.valid_for as u64);
        with_failover(setup, view);
    }
}
