//! How long a turn waits for an arrival.
ghost use Rattle.std.specs.Prelude.{◌≡◌};
ghost use Rattle.booth_following.specs.Waits.{is_ended_by, is_far, is_idle, running_after, until_due, wait_of};

use crate::following::{Following, Seat};
use booth_follow_rule::{FollowDeed, Margins, News, Stage, State, Word};

/// The time from one request for the ticket to the next, in milliseconds.
pub(crate) const ASK_EVERY: u64 = 1_000;

/// How long a turn waits if more than an arrival can be due in it, in milliseconds.
const SHORT_WAIT: u64 = 100;

/// How far away the margin of a lease is if a turn may wait for the next request, in milliseconds: twice as long as
/// the longest wait.
const FAR: u64 = 2_000;

fn is_ended_by(number: u64, heard: News) -> bool
    ensures { result ≡ is_ended_by number heard }
{
    match heard {
        News::End { run, .. } => run == number,
        News::Nothing | News::List(_) | News::Stop => false,
    }
}

/// Returns whether the last run that was not a renewal may still be running after a turn. This was its number before
/// the turn.
pub(crate) fn running_after(running: bool, number: u64, heard: News, deed: FollowDeed) -> bool
    ensures { result ≡ running_after running number heard deed }
{
    let left = running && !is_ended_by(number, heard);
    match deed {
        FollowDeed::Run { word, .. } => match word {
            Word::Renew => left,
            Word::Check | Word::Start | Word::Stop | Word::Kill => true,
        },
        FollowDeed::Nothing | FollowDeed::Leave => left,
    }
}

fn is_far(margin: u64, reading: u64, end: u64) -> bool
    ensures { result ≡ is_far margin reading end }
{
    FAR < end.saturating_sub(reading).saturating_sub(margin)
}

fn is_idle(margins: &Margins, state: &State, reading: u64) -> bool
    ensures { result ≡ is_idle margins.now reading state.now }
{
    match state.stage {
        Stage::Down { .. } => !state.here,
        Stage::Up => {
            state.here
                && state.renewal.is_none()
                && is_far(margins.margin, reading, state.until)
                && is_far(margins.margin, reading, state.armed)
        }
        Stage::Opening | Stage::Stopping { .. } | Stage::Killing { .. } | Stage::Ended => false,
    }
}

fn until_due(asked: Option<u64>, reading: u64) -> u64
    ensures { result ≡ until_due asked reading }
{
    match asked {
        Some(asked) => ASK_EVERY.saturating_sub(reading.saturating_sub(asked)),
        None => SHORT_WAIT,
    }
}

/// Returns how long a turn from this seat waits for an arrival, in milliseconds.
pub(crate) fn wait_of(f: &Following, seat: &Seat) -> u64
    ensures { result ≡ wait_of f.now seat.now }
{
    let state = seat.follower.state();
    if seat.told && !seat.running && is_idle(&f.margins, &state, seat.reading) {
        until_due(seat.asked, seat.reading)
    } else {
        SHORT_WAIT
    }
}
