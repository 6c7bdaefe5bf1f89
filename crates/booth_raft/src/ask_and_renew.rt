//! The rules ask and renew, and how each continues after the write that it requested.
ghost use Rattle.std.specs.Prelude.{◌≡◌, ◌<◌, ◌^◌, max, IsTrue};
ghost use Rattle.booth_raft.specs.AskAndRenew.{acquisition_failed, answers_itself, are_terms_spent, ask, bound_itself, with_own_promise, finish_ask, fail_ask, finish_renewal, fail_renewal, asked_all, finish, needs_term, new_round, begin_round, own_answer, promised_itself, renew, renew_by_term, renew_in_term, runs_out};
ghost use Rattle.booth_raft.specs.Sound.{IsSound};

use crate::deed::{Deed, Told};
use crate::gain_release_lost::{
    due_by_rank, finish_gain, finish_release, finish_round_end, gain, own_end, record_of, retry_at,
};
use crate::members::{is_majority, is_promised_elsewhere};
use crate::messages::{answers_round, asks_all};
use crate::outcome::keeping;
use crate::rounds_and_answers::finish_answer;
use crate::view::{LAST_NUMBER, LAST_TERM, Role, Round, Rule, View};
use booth_base::{MEMBERS, promise_ms};
use booth_rec::{Promise, Record};
use booth_wire::Setup;
use booth_wire::reasons::RACQ;

/// Returns whether the terms are used up: the greater of `term` and `seen` is at least `LAST_TERM`.
pub fn are_terms_spent(view: &View) -> bool
    ensures { result ≡ are_terms_spent view.now }
{
    view.term.max(view.seen) >= LAST_TERM
}

// Starts an election in a new term, with the write of that term.
pub(crate) fn ask(setup: &Setup, view: &mut View, reason: u32, now: u64) -> Deed
    requires sound { IsSound setup.now }
    requires second { IsTrue setup.now.second }
    requires early { now < 2 ^ 62 }
    requires terms { max view.old.term view.old.seen < LAST_TERM }
    ensures view { view.new ≡ (ask setup.now view.old reason now).view }
    ensures deed { result ≡ (ask setup.now view.old reason now).deed }
{
    let term = view.term.max(view.seen) + 1;
    view.term = term;
    view.seen = term;
    view.round = None;
    view.job = None;
    view.bound = None;
    view.reason = reason;
    bound_itself(setup, view, now);
    let tried = record_of(setup, view, view.kept.lease);
    keeping(view, Rule::Ask { reason }, tried, now)
}

// Ends an acquisition that failed.
pub(crate) fn acquisition_failed(setup: &Setup, view: &mut View, now: u64)
    requires sound { IsSound setup.now }
    requires early { now < 2 ^ 62 }
    ensures { view.new ≡ acquisition_failed setup.now view.old now }
{
    view.role = Role::Follower;
    view.job = None;
    view.due = due_by_rank(setup, view, now);
}

// Returns whether the member votes for itself.
fn answers_itself(setup: &Setup, view: &View, now: u64) -> bool
    ensures { result ≡ answers_itself setup.now view.now now }
{
    now >= view.abstain && !is_promised_elsewhere(view.promise, setup.me, now)
}

fn with_own_promise(setup: &Setup, view: &mut View, now: u64)
    requires sound { IsSound setup.now }
    requires early { now < 2 ^ 62 }
    ensures { view.new ≡ with_own_promise setup.now view.old now }
{
    view.promise = Some(Promise {
        to: setup.me,
        term: view.term,
        until: now + promise_ms(&setup.times),
    });
}

fn promised_itself(setup: &Setup, view: &mut View, now: u64)
    requires sound { IsSound setup.now }
    requires early { now < 2 ^ 62 }
    ensures { view.new ≡ promised_itself setup.now view.old now }
{
    if answers_itself(setup, view, now) {
        with_own_promise(setup, view, now);
    }
}

fn bound_itself(setup: &Setup, view: &mut View, now: u64)
    requires sound { IsSound setup.now }
    requires early { now < 2 ^ 62 }
    ensures { view.new ≡ bound_itself setup.now view.old now }
{
    if answers_itself(setup, view, now) {
        with_own_promise(setup, view, now);
        view.bound = Some(setup.me);
    }
}

fn own_answer(setup: &Setup, view: &View, now: u64) -> [bool; MEMBERS]
    requires { IsSound setup.now }
    ensures { result ≡ own_answer setup.now view.now now }
{
    let mut answers = [false; MEMBERS];
    if answers_itself(setup, view, now) {
        answers[setup.place as usize] = true;
    }
    answers
}

fn new_round(setup: &Setup, view: &View, number: u32, now: u64) -> Round
    requires { IsSound setup.now }
    ensures { result ≡ new_round setup.now view.now number now }
{
    Round {
        term: view.term,
        number,
        opened: now,
        answers: own_answer(setup, view, now),
        won: false,
    }
}

// Sets the role and the next deadline of a member that asks all members. A leader stays leader, and any other member
// is a candidate.
fn asked_all(setup: &Setup, view: &mut View, now: u64)
    requires sound { IsSound setup.now }
    requires early { now < 2 ^ 62 }
    ensures { view.new ≡ asked_all setup.now view.old now }
{
    if view.role == Role::Leader {
        view.due = Some(retry_at(setup, view, now));
    } else {
        view.role = Role::Candidate;
        view.due = Some(now + setup.times.timeout);
    }
}

// Opens a round, with the own vote.
fn begin_round(setup: &Setup, view: &mut View, number: u32, now: u64) -> Deed
    requires sound { IsSound setup.now }
    requires second { IsTrue setup.now.second }
    requires early { now < 2 ^ 62 }
    ensures view { view.new ≡ (begin_round setup.now view.old number now).view }
    ensures deed { result ≡ (begin_round setup.now view.old number now).deed }
{
    let round = new_round(setup, view, number, now);
    promised_itself(setup, view, now);
    view.round = Some(round);
    if is_majority(setup, &round.answers) {
        return gain(setup, view, round, now);
    }
    let asked = asks_all(setup, view, number, now);
    asked_all(setup, view, now);
    Deed::saying(asked, Told::Nothing)
}

// Continues after a failed write of a new term.
fn fail_ask(setup: &Setup, view: &mut View, now: u64) -> Deed
    requires sound { IsSound setup.now }
    requires early { now < 2 ^ 62 }
    ensures view { view.new ≡ (fail_ask setup.now view.old now).view }
    ensures deed { result ≡ (fail_ask setup.now view.old now).deed }
{
    view.sure = false;
    if view.role == Role::Leader {
        view.due = Some(retry_at(setup, view, now));
        return Deed::quiet();
    }
    acquisition_failed(setup, view, now);
    Deed::telling(Told::AskFailed)
}

// Continues after the write of a new term.
fn finish_ask(setup: &Setup, view: &mut View, tried: Record, now: u64, ok: bool) -> Deed
    requires sound { IsSound setup.now }
    requires second { IsTrue setup.now.second }
    requires early { now < 2 ^ 62 }
    ensures view { view.new ≡ (finish_ask setup.now view.old tried now ok).view }
    ensures deed { result ≡ (finish_ask setup.now view.old tried now ok).deed }
{
    if !ok {
        return fail_ask(setup, view, now);
    }
    view.kept = tried;
    view.sure = true;
    view.bound = Some(setup.me);
    begin_round(setup, view, 0, now)
}

// Continues after a failed write of a renewal's own promise.
fn fail_renewal(setup: &Setup, view: &mut View, now: u64) -> Deed
    requires sound { IsSound setup.now }
    requires early { now < 2 ^ 62 }
    ensures view { view.new ≡ (fail_renewal setup.now view.old now).view }
    ensures deed { result ≡ (fail_renewal setup.now view.old now).deed }
{
    view.sure = false;
    view.due = Some(retry_at(setup, view, now));
    Deed::quiet()
}

// Continues after the write of a renewal's own promise.
fn finish_renewal(
    setup: &Setup,
    view: &mut View,
    tried: Record,
    number: u32,
    now: u64,
    ok: bool,
) -> Deed
    requires sound { IsSound setup.now }
    requires second { IsTrue setup.now.second }
    requires early { now < 2 ^ 62 }
    ensures view { view.new ≡ (finish_renewal setup.now view.old tried number now ok).view }
    ensures deed { result ≡ (finish_renewal setup.now view.old tried number now ok).deed }
{
    if !ok {
        return fail_renewal(setup, view, now);
    }
    view.kept = tried;
    view.sure = true;
    begin_round(setup, view, number, now)
}

// Continues with the rule that waits, after its write.
pub(crate) fn finish(setup: &Setup, view: &mut View, now: u64, ok: bool) -> Deed
    requires sound { IsSound setup.now }
    requires second { IsTrue setup.now.second }
    requires early { now < 2 ^ 62 }
    ensures view { view.new ≡ (finish setup.now view.old now ok).view }
    ensures deed { result ≡ (finish setup.now view.old now ok).deed }
{
    let Some(waits) = view.waiting else {
        return Deed::quiet();
    };
    view.waiting = None;
    let tried = waits.tried;
    match waits.rule {
        Rule::Gain => finish_gain(setup, view, now, ok),
        Rule::Ask { .. } => finish_ask(setup, view, tried, now, ok),
        Rule::Release { reason } => finish_release(setup, view, tried, reason, now, ok),
        Rule::EndRound => finish_round_end(setup, view, tried, now, ok),
        Rule::Answer {
            kind,
            to,
            number,
            request,
            told,
        } => {
            let answer = answers_round(setup, kind, to, number, request, view.term);
            finish_answer(view, tried, answer, told, ok)
        }
        Rule::Renew { number } => finish_renewal(setup, view, tried, number, now, ok),
    }
}

fn runs_out(view: &mut View) -> Deed
    ensures view { view.new ≡ (runs_out view.old).view }
    ensures deed { result ≡ (runs_out view.old).deed }
{
    view.due = Some(own_end(view));
    Deed::quiet()
}

fn renew_by_term(setup: &Setup, view: &mut View, now: u64) -> Deed
    requires sound { IsSound setup.now }
    requires second { IsTrue setup.now.second }
    requires early { now < 2 ^ 62 }
    ensures view { view.new ≡ (renew_by_term setup.now view.old now).view }
    ensures deed { result ≡ (renew_by_term setup.now view.old now).deed }
{
    if are_terms_spent(view) {
        return runs_out(view);
    }
    ask(setup, view, RACQ, now)
}

fn needs_term(setup: &Setup, view: &View, round: Round) -> bool
    ensures { result ≡ needs_term setup.now view.now round }
{
    view.bound != Some(setup.me) || view.seen > view.term || (setup.steady && !round.won)
}

// Opens the next round of the term, after the write of the own promise if there is one.
fn renew_in_term(setup: &Setup, view: &mut View, number: u32, now: u64) -> Deed
    requires sound { IsSound setup.now }
    requires second { IsTrue setup.now.second }
    requires early { now < 2 ^ 62 }
    ensures view { view.new ≡ (renew_in_term setup.now view.old number now).view }
    ensures deed { result ≡ (renew_in_term setup.now view.old number now).deed }
{
    if !answers_itself(setup, view, now) {
        return begin_round(setup, view, number, now);
    }
    with_own_promise(setup, view, now);
    let tried = record_of(setup, view, view.kept.lease);
    keeping(view, Rule::Renew { number }, tried, now)
}

// Renews the lease.
pub(crate) fn renew(setup: &Setup, view: &mut View, now: u64) -> Deed
    requires sound { IsSound setup.now }
    requires second { IsTrue setup.now.second }
    requires early { now < 2 ^ 62 }
    ensures view { view.new ≡ (renew setup.now view.old now).view }
    ensures deed { result ≡ (renew setup.now view.old now).deed }
{
    let Some(round) = view.round else {
        return renew_by_term(setup, view, now);
    };
    if needs_term(setup, view, round) {
        return renew_by_term(setup, view, now);
    }
    if round.number == LAST_NUMBER {
        return runs_out(view);
    }
    renew_in_term(setup, view, round.number + 1, now)
}
