//! The rules for a round and for an answer that a member receives.
ghost use Rattle.std.specs.Prelude.{◌≡◌, ◌<◌, ◌^◌, ◌↔◌, IsTrue};
ghost use Rattle.std.specs.Option.{ForSome};
ghost use Rattle.booth_raft.specs.RoundsAndAnswers.{MayAnswer, may_answer, why_refused, promised, stood_down, shows_site, with_site, due_after_answer, with_due, told_by_answer, answered_round, hear_round, finish_answer, is_answer_to, wins, join, hear_answer};
ghost use Rattle.booth_raft.specs.Sound.{IsSound};

use crate::deed::{Deed, Told};
use crate::gain_release_lost::{gain, record_of};
use crate::members::{is_majority, is_promised_elsewhere};
use crate::messages::refuses_round;
use crate::outcome::keeping;
use crate::start_and_learn::{awaits_failover, failover_time, with_shown};
use crate::view::{Role, Round, RoundKind, Rule, View};
use booth_base::{MemberId, promise_ms};
use booth_rec::{Promise, Record};
use booth_wire::results::{BUSY, OUTD, TODT, TVLD};
use booth_wire::{Head, Say, Setup, TicketPart};

// Returns whether the member may answer a round of a site in a term.
pub(crate) fn may_answer(view: &View, site: MemberId, term: u32, now: u64) -> bool
    ensures test { result ≡ may_answer view.now site term now }
    ensures facts { IsTrue result ↔ MayAnswer view.now site term now }
{
    now >= view.abstain
        && now >= view.force
        && !is_promised_elsewhere(view.promise, site, now)
        && (term > view.term || (term == view.term && view.bound.is_none_or(|bound| bound == site)))
}

// Returns the reason why a round is refused.
fn why_refused(view: &View, site: MemberId, term: u32, now: u64) -> u32
    ensures { result ≡ why_refused view.now site term now }
{
    if now < view.abstain {
        BUSY
    } else if now < view.force || is_promised_elsewhere(view.promise, site, now) {
        TVLD
    } else if term < view.term {
        OUTD
    } else {
        TODT
    }
}

fn promised(setup: &Setup, view: &mut View, site: MemberId, term: u32, now: u64)
    requires sound { IsSound setup.now }
    requires early { now < 2 ^ 62 }
    ensures { view.new ≡ promised setup.now view.old site term now }
{
    view.term = term;
    view.bound = Some(site);
    view.promise = Some(Promise {
        to: site,
        term,
        until: now + promise_ms(&setup.times),
    });
}

fn stood_down(view: &mut View)
    ensures { view.new ≡ stood_down view.old }
{
    match view.role {
        Role::Follower | Role::Working => {}
        Role::Candidate => {
            view.role = Role::Follower;
            view.round = None;
        }
        Role::Leader => view.round = None,
    }
}

fn shows_site(kind: RoundKind, part: &TicketPart) -> bool
    ensures { result ≡ shows_site kind part.now }
{
    match kind {
        RoundKind::Election => false,
        RoundKind::Renewal => part.valid_for > 0,
    }
}

fn with_site(view: &mut View, site: MemberId, kind: RoundKind, part: &TicketPart, now: u64)
    requires { now < 2 ^ 62 }
    ensures { view.new ≡ with_site view.old site kind part.now now }
{
    if shows_site(kind, part) {
        with_shown(view, site, now + 1000 * part.valid_for as u64);
    }
}

// Returns the next deadline of a site that has answered, at which it checks for the failover.
fn due_after_answer(setup: &Setup, view: &View, kind: RoundKind, part: &TicketPart, now: u64) -> u64
    requires sound { IsSound setup.now }
    requires early { now < 2 ^ 62 }
    ensures { result ≡ due_after_answer setup.now view.now kind part.now now }
{
    if shows_site(kind, part) {
        return failover_time(setup, view);
    }
    let free = now + promise_ms(&setup.times) + setup.rank as u64 * setup.times.timeout;
    view.due.map_or(free, |due| due.max(free))
}

fn with_due(setup: &Setup, view: &mut View, kind: RoundKind, part: &TicketPart, now: u64)
    requires sound { IsSound setup.now }
    requires early { now < 2 ^ 62 }
    ensures { view.new ≡ with_due setup.now view.old kind part.now now }
{
    if awaits_failover(setup, view) && view.managed {
        view.due = Some(due_after_answer(setup, view, kind, part, now));
    }
}

fn answered_round(
    setup: &Setup,
    view: &mut View,
    site: MemberId,
    kind: RoundKind,
    part: &TicketPart,
    now: u64,
)
    requires sound { IsSound setup.now }
    requires early { now < 2 ^ 62 }
    ensures { view.new ≡ answered_round setup.now view.old site kind part.now now }
{
    promised(setup, view, site, part.term, now);
    stood_down(view);
    with_site(view, site, kind, part, now);
    with_due(setup, view, kind, part, now);
}

fn told_by_answer(role: Role) -> Told
    ensures { result ≡ told_by_answer role }
{
    match role {
        Role::Candidate => Told::RoundFailed,
        Role::Follower | Role::Working | Role::Leader => Told::Nothing,
    }
}

// Handles a round.
pub(crate) fn hear_round(
    setup: &Setup,
    view: &mut View,
    kind: RoundKind,
    head: &Head,
    part: &TicketPart,
    now: u64,
) -> Deed
    requires sound { IsSound setup.now }
    requires second { IsTrue setup.now.second }
    requires early { now < 2 ^ 62 }
    ensures view { view.new ≡ (hear_round setup.now view.old kind head.now part.now now).view }
    ensures deed { result ≡ (hear_round setup.now view.old kind head.now part.now now).deed }
{
    if !may_answer(view, head.from, part.term, now) {
        let why = why_refused(view, head.from, part.term, now);
        return Deed::saying(refuses_round(setup, view, head, why, now), Told::Nothing);
    }
    let told = told_by_answer(view.role);
    answered_round(setup, view, head.from, kind, part, now);
    let tried = record_of(setup, view, view.kept.lease);
    let answer = Rule::Answer {
        kind,
        to: head.from,
        number: head.options,
        request: head.request,
        told,
    };
    keeping(view, answer, tried, now)
}

// Continues after the write of a promise: the member answers the round only if the promise was written.
pub(crate) fn finish_answer(
    view: &mut View,
    tried: Record,
    answer: Say,
    told: Told,
    ok: bool,
) -> Deed
    ensures view { view.new ≡ (finish_answer view.old tried answer told ok).view }
    ensures deed { result ≡ (finish_answer view.old tried answer told ok).deed }
{
    view.sure = ok;
    if !ok {
        return Deed::telling(told);
    }
    view.kept = tried;
    Deed::saying(answer, told)
}

fn is_answer_to(setup: &Setup, round: &Round, head: &Head, part: &TicketPart) -> bool
    ensures { result ≡ is_answer_to setup.now round.now head.now part.now }
{
    part.leader == setup.me && round.term == part.term && round.number == head.options
}

// Returns whether a round gives a lease now.
fn wins(setup: &Setup, round: &Round, now: u64) -> bool
    requires sound { IsSound setup.now }
    requires opened { round.now.opened < 2 ^ 62 }
    ensures { result ≡ wins setup.now round.now now }
{
    is_majority(setup, &round.answers) && !round.won && now < round.opened + setup.times.expire
}

fn join(setup: &Setup, view: &mut View, round: Round, now: u64) -> Deed
    requires sound { IsSound setup.now }
    requires second { IsTrue setup.now.second }
    requires early { now < 2 ^ 62 }
    requires opened { round.opened < 2 ^ 62 }
    ensures view { view.new ≡ (join setup.now view.old round now).view }
    ensures deed { result ≡ (join setup.now view.old round now).deed }
{
    view.round = Some(round);
    if wins(setup, &round, now) {
        return gain(setup, view, round, now);
    }
    Deed::quiet()
}

// Handles an answer of the member with index `from`.
pub(crate) fn hear_answer(
    setup: &Setup,
    view: &mut View,
    place: u32,
    head: &Head,
    part: &TicketPart,
    now: u64,
) -> Deed
    requires sound { IsSound setup.now }
    requires second { IsTrue setup.now.second }
    requires early { now < 2 ^ 62 }
    requires place { place < setup.now.members }
    requires opened { ForSome view.old.round (λ round. round.opened < 2 ^ 62) }
    ensures view { view.new ≡ (hear_answer setup.now view.old place head.now part.now now).view }
    ensures deed { result ≡ (hear_answer setup.now view.old place head.now part.now now).deed }
{
    let Some(mut round) = view.round else {
        return Deed::quiet();
    };
    if !is_answer_to(setup, &round, head, part) {
        return Deed::quiet();
    }
    round.answers[place as usize] = true;
    join(setup, view, round, now)
}
