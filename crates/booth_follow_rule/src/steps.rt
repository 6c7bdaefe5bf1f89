//! The action at a reading, by the stage.
ghost use Rattle.std.specs.Prelude.{◌≡◌, MatchBool, ◌<◌, ◌≤◌, ◌+◌};
ghost use Rattle.booth_follow_rule.specs.Rule.{after, arms, end_of, ends_service, goes_on, has_failed, has_passed, hears, is_held, is_kept, is_renewable, is_rested, kills_on, leaves, leaves_more, may_renew, moved, next_number, no_deed, not_renewed, opens, renewed, renews, rests, runs, starts, step_at, stops_first, wait_of, while_down, while_killing, while_stopping, while_up};

use crate::margins::{Margins, RETRY, RISE};
use crate::news::{News, RunEnd, Shown};
use crate::state::{FollowDeed, Renewal, Stage, State, Word};

/// An action, and what the follower knows after it.
#[derive(Clone, Copy)]
pub(crate) struct Step {
    pub deed: FollowDeed,
    pub state: State,
}

// ---- news

// Returns the stage after an end was armed.
fn moved(stage: Stage, end: u64) -> Stage
    ensures { result ≡ moved stage end }
{
    match stage {
        Stage::Stopping { by: _ } => Stage::Stopping { by: end },
        Stage::Opening | Stage::Down { .. } | Stage::Up | Stage::Killing { .. } | Stage::Ended =>
            stage,
    }
}

fn arms(state: State, end: u64) -> State
    ensures { result ≡ arms state end }
{
    State {
        armed: end,
        renewal: None,
        stage: moved(state.stage, end),
        ..state
    }
}

fn renewed(state: State, run: u64) -> State
    ensures { result ≡ renewed state run state.renewal }
{
    match state.renewal {
        Some(renewal) => {
            if run == renewal.run {
                arms(state, renewal.end)
            } else {
                state
            }
        }
        None => state,
    }
}

fn not_renewed(state: State, run: u64) -> State
    ensures { result ≡ not_renewed state run state.renewal }
{
    match state.renewal {
        Some(renewal) => {
            if run == renewal.run {
                let failed = Renewal {
                    failed: true,
                    ..renewal
                };
                State {
                    renewal: Some(failed),
                    ..state
                }
            } else {
                state
            }
        }
        None => state,
    }
}

fn shows(state: State, shown: Shown) -> State
    ensures { result ≡ hears state (News.List shown) }
{
    match shown {
        Shown::Here { until } => State {
            here: true,
            until,
            ..state
        },
        Shown::Elsewhere => State {
            here: false,
            ..state
        },
    }
}

fn ends(state: State, run: u64, how: RunEnd) -> State
    ensures { result ≡ hears state (News.End run how) }
{
    match how {
        RunEnd::Done => renewed(state, run),
        RunEnd::Failed => not_renewed(state, run),
    }
}

/// Returns what is known after these news.
pub(crate) fn hears(state: State, news: News) -> State
    ensures { result ≡ hears state news }
{
    match news {
        News::List(shown) => shows(state, shown),
        News::Stop => State {
            asked: true,
            ..state
        },
        News::End { run, how } => ends(state, run, how),
        News::Nothing => state,
    }
}

/// Returns how the run with this number ended, if it did.
pub(crate) fn end_of(number: u64, news: News) -> Option<RunEnd>
    ensures { result ≡ end_of number news }
{
    match news {
        News::End { run, how } => { if run == number { Some(how) } else { None } }
        News::Nothing | News::List(_) | News::Stop => None,
    }
}

// ---- actions

fn no_deed(state: State, stage: Stage) -> Step
    ensures { result ≡ no_deed state stage }
{
    Step {
        deed: FollowDeed::Nothing,
        state: State { stage, ..state },
    }
}

fn leaves(state: State) -> Step
    ensures { result ≡ leaves state }
{
    Step {
        deed: FollowDeed::Leave,
        state: State {
            stage: Stage::Ended,
            ..state
        },
    }
}

fn next_number(number: u64) -> u64
    ensures { result ≡ next_number number }
{
    match number.checked_add(1) {
        Some(next) => next,
        None => 0,
    }
}

fn runs(state: State, word: Word, stage: Stage) -> Step
    ensures { result ≡ runs state word stage }
{
    let number = next_number(state.number);
    Step {
        deed: FollowDeed::Run {
            word,
            number,
            until: state.armed,
        },
        state: State {
            number,
            run: number,
            stage,
            ..state
        },
    }
}

fn renews(reading: u64, state: State) -> Step
    ensures { result ≡ renews reading state }
{
    let number = next_number(state.number);
    let renewal = Renewal {
        run: number,
        end: state.until,
        since: reading,
        failed: false,
    };
    Step {
        deed: FollowDeed::Run {
            word: Word::Renew,
            number,
            until: state.until,
        },
        state: State {
            number,
            renewal: Some(renewal),
            ..state
        },
    }
}

fn rests(reading: u64, state: State) -> Step
    ensures { result ≡ rests reading state }
{
    Step {
        deed: FollowDeed::Nothing,
        state: State {
            here: false,
            armed: 0,
            renewal: None,
            stage: Stage::Down { since: reading },
            ..state
        },
    }
}

// Returns whether an end is more than this time away.
fn leaves_more(time: u64, reading: u64, end: u64) -> bool
    ensures { result ≡ leaves_more time reading end }
{
    match reading.checked_add(time) {
        Some(bound) => bound < end,
        None => false,
    }
}

fn after(reading: u64, time: u64) -> u64
    ensures { result ≡ after reading time }
{
    reading.saturating_add(time)
}

// Stops the service, or kills it if there is no time to stop.
fn ends_service(margins: &Margins, reading: u64, state: State) -> Step
    ensures { result ≡ ends_service margins.now reading state }
{
    if leaves_more(margins.kill, reading, state.armed) {
        runs(state, Word::Stop, Stage::Stopping { by: state.armed })
    } else {
        runs(state, Word::Kill, Stage::Killing { failed: None })
    }
}

fn is_held(margins: &Margins, reading: u64, state: State) -> bool
    ensures { result ≡ is_held margins.now reading state }
{
    state.here && leaves_more(margins.margin, reading, state.until)
}

fn is_kept(margins: &Margins, reading: u64, state: State) -> bool
    ensures { result ≡ is_kept margins.now reading state }
{
    is_held(margins, reading, state) && leaves_more(margins.margin, reading, state.armed)
}

// Returns whether this much time has passed since a reading.
fn has_passed(time: u64, since: u64, reading: u64) -> bool
    ensures { result ≡ has_passed time since reading }
{
    match since.checked_add(time) {
        Some(first) => first <= reading,
        None => false,
    }
}

fn is_rested(margins: &Margins, since: u64, reading: u64) -> bool
    ensures { result ≡ is_rested margins.now since reading }
{
    has_passed(margins.pause, since, reading)
}

// Returns how long after a renewal was run the next one may be run.
fn wait_of(margins: &Margins, renewal: Renewal) -> u64
    ensures { result ≡ wait_of margins.now renewal }
{
    if renewal.failed { RETRY } else { margins.pause }
}

fn may_renew(margins: &Margins, reading: u64, renewal: Option<Renewal>) -> bool
    ensures { result ≡ may_renew margins.now reading renewal }
{
    match renewal {
        Some(renewal) => has_passed(wait_of(margins, renewal), renewal.since, reading),
        None => true,
    }
}

fn is_renewable(margins: &Margins, reading: u64, state: State) -> bool
    ensures { result ≡ is_renewable margins.now reading state }
{
    state.here
        && leaves_more(RISE, state.armed, state.until)
        && may_renew(margins, reading, state.renewal)
}

fn goes_on(margins: &Margins, reading: u64, state: State) -> Step
    ensures { result ≡ goes_on margins.now reading state }
{
    if is_renewable(margins, reading, state) {
        renews(reading, state)
    } else {
        no_deed(state, state.stage)
    }
}

// ---- the stages

fn stops_first(margins: &Margins, reading: u64, state: State) -> Step
    ensures { result ≡ stops_first margins.now reading state }
{
    if state.armed == 0 {
        let by = after(reading, margins.margin);
        runs(state, Word::Stop, Stage::Stopping { by })
    } else {
        ends_service(margins, reading, state)
    }
}

fn opens(margins: &Margins, reading: u64, state: State) -> Step
    ensures { result ≡ opens margins.now reading state }
{
    if state.asked || !is_kept(margins, reading, state) {
        stops_first(margins, reading, state)
    } else {
        runs(state, Word::Check, Stage::Up)
    }
}

fn starts(margins: &Margins, reading: u64, state: State) -> Step
    ensures { result ≡ starts margins.now reading state }
{
    if leaves_more(margins.margin, reading, state.armed) {
        runs(state, Word::Start, Stage::Up)
    } else {
        goes_on(margins, reading, state)
    }
}

fn while_down(margins: &Margins, reading: u64, since: u64, state: State) -> Step
    ensures { result ≡ while_down margins.now reading since state }
{
    if state.asked {
        return leaves(state);
    }
    if is_held(margins, reading, state) && is_rested(margins, since, reading) {
        starts(margins, reading, state)
    } else {
        no_deed(state, state.stage)
    }
}

fn has_failed(how: Option<RunEnd>) -> bool
    ensures { result ≡ has_failed how }
{
    match how {
        Some(RunEnd::Failed) => true,
        Some(RunEnd::Done) => false,
        None => false,
    }
}

fn while_up(margins: &Margins, reading: u64, how: Option<RunEnd>, state: State) -> Step
    ensures { result ≡ while_up margins.now reading how state }
{
    if state.asked || has_failed(how) || !is_kept(margins, reading, state) {
        ends_service(margins, reading, state)
    } else {
        goes_on(margins, reading, state)
    }
}

fn while_stopping(
    margins: &Margins,
    reading: u64,
    how: Option<RunEnd>,
    by: u64,
    state: State,
) -> Step
    ensures { result ≡ while_stopping margins.now reading how by state }
{
    match how {
        Some(RunEnd::Done) => rests(reading, state),
        Some(RunEnd::Failed) => runs(state, Word::Kill, Stage::Killing { failed: None }),
        None => {
            if leaves_more(margins.kill, reading, by) {
                goes_on(margins, reading, state)
            } else {
                runs(state, Word::Kill, Stage::Killing { failed: None })
            }
        }
    }
}

fn kills_on(margins: &Margins, reading: u64, failed: Option<u64>, state: State) -> Step
    ensures { result ≡ kills_on margins.now reading failed state }
{
    match failed {
        Some(since) => {
            if is_rested(margins, since, reading) {
                runs(state, Word::Kill, Stage::Killing { failed: None })
            } else {
                no_deed(state, state.stage)
            }
        }
        None => no_deed(state, state.stage),
    }
}

fn while_killing(
    margins: &Margins,
    reading: u64,
    how: Option<RunEnd>,
    failed: Option<u64>,
    state: State,
) -> Step
    ensures { result ≡ while_killing margins.now reading how failed state }
{
    match how {
        Some(RunEnd::Done) => rests(reading, state),
        Some(RunEnd::Failed) => no_deed(
            state,
            Stage::Killing {
                failed: Some(reading),
            },
        ),
        None => kills_on(margins, reading, failed, state),
    }
}

/// Returns the action at a reading, by the stage, after the news before it.
pub(crate) fn step_at(margins: &Margins, reading: u64, how: Option<RunEnd>, state: State) -> Step
    ensures { result ≡ step_at margins.now reading how state state.stage }
{
    match state.stage {
        Stage::Opening => opens(margins, reading, state),
        Stage::Down { since } => while_down(margins, reading, since, state),
        Stage::Up => while_up(margins, reading, how, state),
        Stage::Stopping { by } => while_stopping(margins, reading, how, by, state),
        Stage::Killing { failed } => while_killing(margins, reading, how, failed, state),
        Stage::Ended => no_deed(state, state.stage),
    }
}
