//! The restart of a service whose lease has another term than at its start (`-r`).
ghost use Rattle.std.specs.Prelude.{◌≡◌};
ghost use Rattle.booth_following.specs.Restarts.{is_another, is_outdated, is_up, learnt, started_after};

use crate::following::{Following, Seat};
use booth_follow_rule::{FollowDeed, News, Shown, Stage, Word};

fn is_up(stage: Stage) -> bool
    ensures { result ≡ is_up stage }
{
    match stage {
        Stage::Up => true,
        Stage::Opening
        | Stage::Down { .. }
        | Stage::Stopping { .. }
        | Stage::Killing { .. }
        | Stage::Ended => false,
    }
}

fn is_another(started: u32, term: u32) -> bool
    ensures { result ≡ is_another started term }
{
    term != 0 && term != started
}

/// Returns whether the service runs with another term than this one, which its lease has now, and is restarted for
/// that.
pub(crate) fn is_outdated(f: &Following, seat: &Seat, term: u32) -> bool
    ensures { result ≡ is_outdated f.now seat.now term }
{
    f.restarts && is_up(seat.follower.state().stage) && is_another(seat.started, term)
}

/// Returns what the rule learns from an answer. If the service is outdated, the rule learns that this site does not
/// hold the ticket, so it stops the service.
pub(crate) fn learnt(outdated: bool, said: News) -> News
    ensures { result ≡ learnt outdated said }
{
    match said {
        News::List(shown) => {
            if outdated {
                News::List(Shown::Elsewhere)
            } else {
                News::List(shown)
            }
        }
        News::Nothing | News::End { .. } | News::Stop => said,
    }
}

/// Returns the term at the last start of the service, after an action.
pub(crate) fn started_after(started: u32, term: u32, deed: FollowDeed) -> u32
    ensures { result ≡ started_after started term deed }
{
    match deed {
        FollowDeed::Run { word, .. } => match word {
            Word::Start => term,
            Word::Check | Word::Renew | Word::Stop | Word::Kill => started,
        },
        FollowDeed::Nothing | FollowDeed::Leave => started,
    }
}
