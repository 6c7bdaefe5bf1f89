//! The rules gain, release and lost: the first part of each, which requests a write, and the part after the write.
ghost use Rattle.std.specs.Prelude.{◌≡◌, ◌<◌, ◌^◌, IsTrue};
ghost use Rattle.booth_rec.specs.Record.{lease_end};
ghost use Rattle.booth_raft.specs.GainReleaseLost.{due_after_round, due_by_rank, free_record, gained, gain, finish_gain, is_held_elsewhere, keeps_shown, let_go, lost, own_end, release, finish_release, released, record_of, retry_at, retry_release_at, finish_round_end, round_ends, unreleased, without_own};
ghost use Rattle.booth_raft.specs.Sound.{IsSound};

use crate::deed::{Deed, Told};
use crate::messages::{revokes, tells_gain};
use crate::outcome::keeping;
use crate::start_and_learn::failover_time;
use crate::view::{Role, Round, Rule, Shown, View};
use booth_base::{MemberId, guard_ms};
use booth_rec::{Lease, Promise, Record};
use booth_wire::Setup;
use booth_wire::reasons::SPLT;

// Returns the end of a lease, and 0 for none.
pub(crate) fn lease_end(lease: Option<Lease>) -> u64
    ensures { result ≡ lease_end lease }
{
    lease.map_or(0, |l| l.until)
}

/// Returns the end of the lease in the view's record in ms, and 0 if it has none.
pub fn own_end(view: &View) -> u64
    ensures { result ≡ own_end view.now }
{
    lease_end(view.kept.lease)
}

// Returns the time at which a leader tries again: a timeout later, but not after the end of its lease.
pub(crate) fn retry_at(setup: &Setup, view: &View, now: u64) -> u64
    requires sound { IsSound setup.now }
    requires early { now < 2 ^ 62 }
    ensures { result ≡ retry_at setup.now view.now now }
{
    (now + setup.times.timeout).min(own_end(view))
}

// Returns the time at which a site tries again after an acquisition that failed.
pub(crate) fn due_by_rank(setup: &Setup, view: &View, now: u64) -> Option<u64>
    requires sound { IsSound setup.now }
    requires early { now < 2 ^ 62 }
    ensures { result ≡ due_by_rank setup.now view.now now }
{
    if view.managed {
        Some(now + (setup.rank as u64 + 1) * setup.times.timeout)
    } else {
        None
    }
}

// Returns the record that a view writes with a lease. In version 2 it has a pledge.
pub(crate) fn record_of(setup: &Setup, view: &View, lease: Option<Lease>) -> Record
    requires second { IsTrue setup.now.second }
    ensures { result ≡ record_of setup.now view.now lease }
{
    Record {
        bound: view.bound,
        promise: view.promise,
        abstain: view.abstain,
        ..Record::plain(view.term, lease)
    }
}

// Gains the lease of a won round, with its write.
pub(crate) fn gain(setup: &Setup, view: &mut View, round: Round, now: u64) -> Deed
    requires sound { IsSound setup.now }
    requires second { IsTrue setup.now.second }
    requires early { now < 2 ^ 62 }
    requires opened { round.opened < 2 ^ 62 }
    ensures view { view.new ≡ (gain setup.now view.old round now).view }
    ensures deed { result ≡ (gain setup.now view.old round now).deed }
{
    let until = round.opened + setup.times.expire;
    let lease = Lease {
        term: view.term,
        until,
    };
    let tried = record_of(setup, view, Some(lease));
    view.round = Some(Round { won: true, ..round });
    view.role = Role::Leader;
    view.managed = true;
    view.kept = tried;
    view.force = until;
    view.shown = Some(Shown {
        owner: setup.me,
        until,
    });
    view.due = Some((now + 1).max(round.opened + setup.times.renewal));
    keeping(view, Rule::Gain, tried, now)
}

// Continues after the write of a gained lease.
pub(crate) fn finish_gain(setup: &Setup, view: &mut View, now: u64, ok: bool) -> Deed
    ensures view { view.new ≡ (finish_gain setup.now view.old now ok).view }
    ensures deed { result ≡ (finish_gain setup.now view.old now ok).deed }
{
    view.sure = ok;
    let told = Told::Gained { sure: ok };
    if ok {
        Deed::saying(tells_gain(setup, view, now), told)
    } else {
        Deed::telling(told)
    }
}

fn free_record(setup: &Setup, view: &View) -> Record
    requires second { IsTrue setup.now.second }
    ensures { result ≡ free_record setup.now view.now }
{
    record_of(setup, view, None)
}

// Releases the lease, with the write of a record without one.
pub(crate) fn release(setup: &Setup, view: &mut View, reason: u32, now: u64) -> Deed
    requires second { IsTrue setup.now.second }
    ensures view { view.new ≡ (release setup.now view.old reason now).view }
    ensures deed { result ≡ (release setup.now view.old reason now).deed }
{
    let free = free_record(setup, view);
    keeping(view, Rule::Release { reason }, free, now)
}

fn without_own(promise: Option<Promise>, me: MemberId) -> Option<Promise>
    ensures { result ≡ without_own promise me }
{
    promise.filter(|p| p.to != me)
}

fn let_go(setup: &Setup, view: &mut View, tried: Record)
    ensures { view.new ≡ let_go setup.now view.old tried }
{
    view.kept = tried;
    view.sure = true;
    view.force = 0;
    view.promise = without_own(view.promise, setup.me);
    view.round = None;
    view.job = None;
    view.shown = None;
    view.role = Role::Follower;
}

fn is_held_elsewhere(shown: Option<Shown>, me: MemberId, now: u64) -> bool
    ensures { result ≡ is_held_elsewhere shown me now }
{
    shown.is_some_and(|s| s.owner != me && now < s.until)
}

fn keeps_shown(setup: &Setup, view: &View, now: u64) -> bool
    ensures { result ≡ keeps_shown setup.now view.now now }
{
    setup.steady && is_held_elsewhere(view.shown, setup.me, now)
}

fn due_after_round(setup: &Setup, view: &View, now: u64) -> Option<u64>
    requires sound { IsSound setup.now }
    requires early { now < 2 ^ 62 }
    ensures { result ≡ due_after_round setup.now view.now now }
{
    if view.managed && keeps_shown(setup, view, now) {
        Some(failover_time(setup, view))
    } else {
        due_by_rank(setup, view, now)
    }
}

fn released(setup: &Setup, view: &mut View, tried: Record, reason: u32, now: u64)
    requires sound { IsSound setup.now }
    requires early { now < 2 ^ 62 }
    ensures { view.new ≡ released setup.now view.old tried reason now }
{
    let after_round = due_after_round(setup, view, now);
    let shown = if keeps_shown(setup, view, now) {
        view.shown
    } else {
        None
    };
    let_go(setup, view, tried);
    if reason == SPLT {
        view.repeat = 0;
        view.shown = shown;
        view.due = after_round;
    } else {
        view.managed = false;
        view.hello = view.hello && !setup.steady;
        view.repeat = 2;
        view.repeat_reason = reason;
        view.repeat_term = view.term;
        view.due = Some(now + setup.times.timeout);
    }
}

// Returns the time at which a leader tries its release again.
fn retry_release_at(setup: &Setup, view: &View, now: u64) -> u64
    requires sound { IsSound setup.now }
    requires early { now < 2 ^ 62 }
    ensures { result ≡ retry_release_at setup.now view.now now }
{
    let retry = retry_at(setup, view, now);
    if now < retry { retry } else { now + 1 }
}

fn unreleased(setup: &Setup, view: &mut View, reason: u32, now: u64)
    requires sound { IsSound setup.now }
    requires early { now < 2 ^ 62 }
    ensures { view.new ≡ unreleased setup.now view.old reason now }
{
    view.sure = false;
    if reason == SPLT {
        view.due = due_by_rank(setup, view, now);
    } else if view.role == Role::Leader {
        view.due = Some(retry_release_at(setup, view, now));
    }
}

// Continues after the write of a release.
pub(crate) fn finish_release(
    setup: &Setup,
    view: &mut View,
    tried: Record,
    reason: u32,
    now: u64,
    ok: bool,
) -> Deed
    requires sound { IsSound setup.now }
    requires early { now < 2 ^ 62 }
    ensures view { view.new ≡ (finish_release setup.now view.old tried reason now ok).view }
    ensures deed { result ≡ (finish_release setup.now view.old tried reason now ok).deed }
{
    if !ok {
        unreleased(setup, view, reason, now);
        return Deed::telling(Told::ReleaseFailed);
    }
    released(setup, view, tried, reason, now);
    Deed::saying(revokes(setup, view.term, reason), Told::Released)
}

// Ends a candidate's round.
pub(crate) fn round_ends(setup: &Setup, view: &mut View, now: u64) -> Deed
    requires second { IsTrue setup.now.second }
    ensures view { view.new ≡ (round_ends setup.now view.old now).view }
    ensures deed { result ≡ (round_ends setup.now view.old now).deed }
{
    view.round = None;
    view.role = Role::Follower;
    let free = free_record(setup, view);
    keeping(view, Rule::EndRound, free, now)
}

// Continues after the write at the end of a round.
pub(crate) fn finish_round_end(
    setup: &Setup,
    view: &mut View,
    tried: Record,
    now: u64,
    ok: bool,
) -> Deed
    requires sound { IsSound setup.now }
    requires early { now < 2 ^ 62 }
    ensures view { view.new ≡ (finish_round_end setup.now view.old tried now ok).view }
    ensures deed { result ≡ (finish_round_end setup.now view.old tried now ok).deed }
{
    let mut deed = finish_release(setup, view, tried, SPLT, now, ok);
    deed.told = Told::RoundFailed;
    deed
}

// Ends a lease that has run out.
pub(crate) fn lost(setup: &Setup, view: &mut View, now: u64)
    requires sound { IsSound setup.now }
    requires early { now < 2 ^ 62 }
    ensures { view.new ≡ lost setup.now view.old now }
{
    let waits = setup.times.after
        + guard_ms(&setup.times)
        + setup.rank as u64 * setup.times.timeout;
    view.role = Role::Follower;
    view.round = None;
    view.job = None;
    view.shown = None;
    view.managed = true;
    view.due = Some((now + 1).max(now + waits));
}
