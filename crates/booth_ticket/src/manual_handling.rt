//! The effects of the end of a handler before a grant of a manual ticket.
ghost use Rattle.std.specs.Prelude.{◌≡◌, ◌<◌, None, length, slice_set};
ghost use Rattle.booth_raft.specs.Sound.{IsSound};
ghost use Rattle.booth_ticket.specs.Acts.{Did};
ghost use Rattle.booth_ticket.specs.ManualHandling.{grant_after, tell_waiters};
ghost use Rattle.booth_ticket.specs.Waiting.{waiting_at};

use crate::handling::Service;
use crate::hands::Hands;
use crate::manual_requests::{client_part, keep_tried};
use crate::request::Wish;
use crate::telling::tell_each;
use crate::waiters::Waiters;
use booth_manual::Manual;
use booth_raft::Told;

// Grants the ticket, if a term is left, because the service can run. Returns the outcome for the waiting clients.
fn grant<W: Hands>(rules: &mut Manual, hands: &mut W) -> Told
    requires sound { IsSound rules.old.setup }
    requires idle { rules.old.view.waiting ≡ None }
    ensures did { Did W.did (grant_after rules.old Service.CanRun) (record { told = result; rules = rules.new })
        hands.old hands.new }
    ensures idle { rules.new.view.waiting ≡ None }
{
    match rules.grant() {
        Ok(tried) => {
            keep_tried(rules, Wish::Grant, &tried, hands);
            Told::Gained {
                sure: rules.view().sure,
            }
        }
        Err(_) => Told::AskFailed,
    }
}

/// Continues after the handler of a grant. Returns the outcome for the waiting clients.
#[tactic(auto, using(crate::proofs::DidLemmas::did_end))]
pub(crate) fn grant_after<W: Hands>(rules: &mut Manual, service: Service, hands: &mut W) -> Told
    requires sound { IsSound rules.old.setup }
    requires idle { rules.old.view.waiting ≡ None }
    ensures did { Did W.did (grant_after rules.old service) (record { told = result; rules = rules.new })
        hands.old hands.new }
    ensures idle { rules.new.view.waiting ≡ None }
{
    match service {
        Service::CanRun => grant(rules, hands),
        Service::CannotRun => Told::HandlerFailed,
    }
}

/// Informs the clients that wait for a manual ticket about an outcome.
#[tactic(auto, unfolding(crate::specs::ManualHandling::tell_waiters))]
pub(crate) fn tell_waiters<W: Hands>(
    rules: &Manual,
    told: Told,
    list: u32,
    waiters: &mut Waiters,
    hands: &mut W,
)
    requires exists { list < length waiters.old }
    ensures did { Did W.did (tell_waiters rules.now told (waiting_at waiters.old list))
        (waiting_at waiters.new list) hands.old hands.new }
    ensures others { waiters.new ≡ slice_set waiters.old list (waiting_at waiters.new list) }
{
    let part = client_part(rules.setup(), rules.view());
    tell_each(rules.setup(), &part, told, list, waiters, hands);
}
