//! The rules at a deadline: first a hello, and then the rule for the member's role.
ghost use Rattle.std.specs.Prelude.{◌≡◌, ◌<◌, ◌^◌, IsTrue};
ghost use Rattle.std.specs.Option.{ForSome};
ghost use Rattle.booth_raft.specs.Deadlines.{candidate_due, due_after_repeats, due_now, due_to_ask, follower_due, greeted, hello, is_over_early, is_silent, is_tried, leader_due, leader_works, repeats, resends_or_renews, still_asks, waits_or_acquires};
ghost use Rattle.booth_raft.specs.GainReleaseLost.{lost};
ghost use Rattle.booth_raft.specs.Outcome.{telling};
ghost use Rattle.booth_raft.specs.Sound.{IsSound};

use crate::deed::{Deed, Told, Want};
use crate::gain_release_lost::{lost, own_end, release, retry_at, round_ends};
use crate::members::{is_promised_elsewhere, others_until};
use crate::messages::{asks_again, asks_state, revokes, shown_end};
use crate::start_and_learn::failover_time;
use crate::view::{Role, Round, View};
use booth_wire::reasons::LOCF;
use booth_wire::{Say, Setup};

fn still_asks(setup: &Setup, view: &View) -> bool
    ensures { result ≡ still_asks setup.now view.now }
{
    setup.steady && setup.site && !view.managed
}

// Asks all members for their state, at the first deadline after the start, and again if the member still asks.
pub(crate) fn hello(setup: &Setup, view: &mut View, now: u64) -> Say
    ensures view { view.new ≡ greeted setup.now view.old }
    ensures say { result ≡ hello setup.now view.old now }
{
    if view.hello {
        view.hello = still_asks(setup, view);
        asks_state(setup, view, now)
    } else {
        Say::Nothing
    }
}

// Returns whether the member still sends this round again.
fn is_tried(setup: &Setup, round: &Round, now: u64) -> bool
    requires sound { IsSound setup.now }
    requires opened { round.now.opened < 2 ^ 62 }
    ensures { result ≡ is_tried setup.now round.now now }
{
    now < round.opened + setup.times.timeout * (setup.times.retries as u64 + 1)
}

fn candidate_due(setup: &Setup, view: &mut View, now: u64) -> Deed
    requires sound { IsSound setup.now }
    requires second { IsTrue setup.now.second }
    requires early { now < 2 ^ 62 }
    requires opened { ForSome view.old.round (λ round. round.opened < 2 ^ 62) }
    ensures view { view.new ≡ (candidate_due setup.now view.old now).view }
    ensures deed { result ≡ (candidate_due setup.now view.old now).deed }
{
    let Some(round) = view.round else {
        return round_ends(setup, view, now);
    };
    if !is_tried(setup, &round, now) {
        return round_ends(setup, view, now);
    }
    view.due = Some(now + setup.times.timeout);
    Deed::saying(asks_again(setup, view, &round, now), Told::Nothing)
}

fn is_over_early(setup: &Setup, view: &View) -> bool
    ensures { result ≡ is_over_early setup.now view.now }
{
    setup.steady && view.term < view.seen
}

fn resends_or_renews(setup: &Setup, view: &mut View, now: u64) -> Deed
    requires sound { IsSound setup.now }
    requires early { now < 2 ^ 62 }
    requires opened { ForSome view.old.round (λ round. round.opened < 2 ^ 62) }
    ensures view { view.new ≡ (resends_or_renews setup.now view.old now).view }
    ensures deed { result ≡ (resends_or_renews setup.now view.old now).deed }
{
    let Some(round) = view.round else {
        return Deed::wanting(Want::Renew);
    };
    if round.won || !is_tried(setup, &round, now) || is_over_early(setup, view) {
        return Deed::wanting(Want::Renew);
    }
    view.due = Some(retry_at(setup, view, now));
    Deed::saying(asks_again(setup, view, &round, now), Told::Nothing)
}

// Releases the lease if a handler still runs, because the handler has failed. Otherwise sends an open round again, or
// requests a renewal.
fn leader_works(setup: &Setup, view: &mut View, now: u64) -> Deed
    requires sound { IsSound setup.now }
    requires second { IsTrue setup.now.second }
    requires early { now < 2 ^ 62 }
    requires opened { ForSome view.old.round (λ round. round.opened < 2 ^ 62) }
    ensures view { view.new ≡ (leader_works setup.now view.old now).view }
    ensures deed { result ≡ (leader_works setup.now view.old now).deed }
{
    if view.job.is_some() {
        view.job = None;
        return release(setup, view, LOCF, now);
    }
    resends_or_renews(setup, view, now)
}

// Ends a lease that has run out, and answers the clients that wait.
pub(crate) fn lose(setup: &Setup, view: &mut View, now: u64) -> Deed
    requires sound { IsSound setup.now }
    requires early { now < 2 ^ 62 }
    ensures view { view.new ≡ (telling (lost setup.now view.old now) Told.Lost).view }
    ensures deed { result ≡ (telling (lost setup.now view.old now) Told.Lost).deed }
{
    lost(setup, view, now);
    Deed::telling(Told::Lost)
}

fn leader_due(setup: &Setup, view: &mut View, now: u64) -> Deed
    requires sound { IsSound setup.now }
    requires second { IsTrue setup.now.second }
    requires early { now < 2 ^ 62 }
    requires opened { ForSome view.old.round (λ round. round.opened < 2 ^ 62) }
    ensures view { view.new ≡ (leader_due setup.now view.old now).view }
    ensures deed { result ≡ (leader_due setup.now view.old now).deed }
{
    if now >= own_end(view) {
        return lose(setup, view, now);
    }
    leader_works(setup, view, now)
}

fn due_after_repeats(setup: &Setup, view: &View) -> Option<u64>
    requires sound { IsSound setup.now }
    ensures { result ≡ due_after_repeats setup.now view.now }
{
    if setup.steady && setup.site && view.managed && view.shown.is_some() {
        Some(failover_time(setup, view))
    } else {
        None
    }
}

fn repeats(setup: &Setup, view: &mut View, now: u64) -> Deed
    requires sound { IsSound setup.now }
    requires early { now < 2 ^ 62 }
    requires repeats { 0 < view.old.repeat }
    ensures view { view.new ≡ (repeats setup.now view.old now).view }
    ensures deed { result ≡ (repeats setup.now view.old now).deed }
{
    view.due = if view.repeat == 1 {
        due_after_repeats(setup, view)
    } else {
        Some(now + setup.times.timeout)
    };
    view.repeat -= 1;
    let again = revokes(setup, view.repeat_term, view.repeat_reason);
    Deed::saying(again, Told::Nothing)
}

/// Returns whether the member abstains, so that by the steady rules it acquires nothing.
pub fn is_silent(setup: &Setup, view: &View, now: u64) -> bool
    ensures { result ≡ is_silent setup.now view.now now }
{
    setup.steady && now < view.abstain
}

fn waits_or_acquires(setup: &Setup, view: &mut View, now: u64) -> Deed
    requires sound { IsSound setup.now }
    requires early { now < 2 ^ 62 }
    ensures view { view.new ≡ (waits_or_acquires setup.now view.old now).view }
    ensures deed { result ≡ (waits_or_acquires setup.now view.old now).deed }
{
    if now < shown_end(view.shown) {
        view.due = Some(failover_time(setup, view));
        return Deed::quiet();
    }
    if is_silent(setup, view, now) {
        view.due = Some(view.abstain);
        return Deed::quiet();
    }
    if is_promised_elsewhere(view.promise, setup.me, now) {
        let free = others_until(view.promise, setup.me);
        view.due = Some(free.saturating_add(setup.rank as u64 * setup.times.timeout));
        return Deed::quiet();
    }
    view.shown = None;
    Deed::wanting(Want::Acquire)
}

fn due_to_ask(setup: &Setup, view: &View, now: u64) -> Option<u64>
    requires sound { IsSound setup.now }
    requires early { now < 2 ^ 62 }
    ensures { result ≡ due_to_ask setup.now view.now now }
{
    if view.hello {
        Some(now + setup.times.renewal)
    } else {
        None
    }
}

fn follower_due(setup: &Setup, view: &mut View, now: u64) -> Deed
    requires sound { IsSound setup.now }
    requires early { now < 2 ^ 62 }
    ensures view { view.new ≡ (follower_due setup.now view.old now).view }
    ensures deed { result ≡ (follower_due setup.now view.old now).deed }
{
    if view.repeat > 0 {
        return repeats(setup, view, now);
    }
    if setup.site && view.managed {
        return waits_or_acquires(setup, view, now);
    }
    view.due = due_to_ask(setup, view, now);
    Deed::quiet()
}

// Runs the rule for the member's role, at its deadline.
pub(crate) fn due_now(setup: &Setup, view: &mut View, now: u64) -> Deed
    requires sound { IsSound setup.now }
    requires second { IsTrue setup.now.second }
    requires early { now < 2 ^ 62 }
    requires opened { ForSome view.old.round (λ round. round.opened < 2 ^ 62) }
    ensures view { view.new ≡ (due_now setup.now view.old now).view }
    ensures deed { result ≡ (due_now setup.now view.old now).deed }
{
    match view.role {
        Role::Follower => follower_due(setup, view, now),
        Role::Working => Deed::quiet(),
        Role::Candidate => candidate_due(setup, view, now),
        Role::Leader => leader_due(setup, view, now),
    }
}
