//! The actions of an automatic ticket in each call.
ghost use Rattle.std.specs.Prelude.{◌≡◌, ◌≢◌, ◌<◌, ◌^◌, None, IsTrue, false, length, slice_set};
ghost use Rattle.booth_raft.specs.Facts.{KeepWaits};
ghost use Rattle.booth_raft.specs.Members.{is_follower, is_working};
ghost use Rattle.booth_raft.specs.Speech.{IsSpeech};
ghost use Rattle.booth_raft.specs.State.{IsDue};
ghost use Rattle.booth_ticket.specs.Acts.{Did};
ghost use Rattle.booth_ticket.specs.Automatic.{MayFollow, come_due, follow, hear_message, role_due, rule_due, take_over, tick};
ghost use Rattle.booth_ticket.specs.Waiting.{waiting_at};

use crate::handling::{acquire_by, renew_by, telling};
use crate::hands::Hands;
use crate::keeping::carry_out;
use crate::request::Given;
use crate::saying::say;
use crate::telling::tell;
use crate::waiters::Waiters;
use booth_raft::{Core, Deed, Note, Role, Told, Want};
use booth_wire::reasons::TLST;
use booth_wire::{Head, TicketPart};

/// Handles a message of the member at the place `from`. The last action has the result for clients.
#[tactic(auto, unfolding(crate::specs::Automatic::hear_message))]
pub(crate) fn hear_message<W: Hands>(
    core: &mut Core,
    from: u32,
    head: &Head,
    part: &TicketPart,
    now: u64,
    hands: &mut W,
) -> Deed
    requires early { now < 2 ^ 62 }
    requires idle { core.old.view.waiting ≡ None }
    requires place { from < core.old.setup.members }
    requires other { from ≢ core.old.setup.place }
    ensures did { Did W.did (hear_message core.old from head.now part.now now)
        (record { core = core.new; deed = result }) hands.old hands.new }
    ensures idle { core.new.view.waiting ≡ None }
{
    let deed = core.hear(now, from, head, part);
    carry_out(core, Some(from), now, deed, hands)
}

// Acquires the ticket if its prerequisites hold. Otherwise tries again a renewal's time later.
#[tactic(auto, using(crate::proofs::DidLemmas::did_end))]
fn take_over<W: Hands>(core: &mut Core, given: Given, hands: &mut W) -> Deed
    requires early { given.now < 2 ^ 62 }
    requires idle { core.old.view.waiting ≡ None }
    requires site { IsTrue core.old.setup.site }
    requires follows { IsTrue (is_follower core.old.view.role) }
    ensures did { Did W.did (take_over core.old given) (record { core = core.new; deed = result })
        hands.old hands.new }
    ensures waits { KeepWaits result.keep core.new.view.waiting given.now }
    ensures speech { IsSpeech core.new.setup result.say }
{
    if !given.ready {
        core.note(given.now, Note::Unready);
        return telling(Told::Nothing);
    }
    acquire_by(core, given.job, TLST, given.now, hands)
}

// Performs the step that the rule of a deadline requests.
#[tactic(auto, using(crate::proofs::DidLemmas::did_end))]
fn follow<W: Hands>(core: &mut Core, deed: Deed, given: Given, hands: &mut W) -> Deed
    requires early { given.now < 2 ^ 62 }
    requires waits { KeepWaits deed.keep core.old.view.waiting given.now }
    requires wants { MayFollow core.old.setup core.old.view deed.want }
    requires speech { IsSpeech core.old.setup deed.say }
    ensures did { Did W.did (follow (record { core = core.old; deed = deed }) deed.want given)
        (record { core = core.new; deed = result }) hands.old hands.new }
    ensures waits { KeepWaits result.keep core.new.view.waiting given.now }
    ensures speech { IsSpeech core.new.setup result.say }
{
    match deed.want {
        Want::Nothing => deed,
        Want::Renew => renew_by(core, given.job, given.now, hands),
        Want::Acquire => take_over(core, given, hands),
    }
}

// Runs the rule for the member's role, and then the step that it requests.
fn rule_due<W: Hands>(core: &mut Core, given: Given, hands: &mut W) -> Deed
    requires early { given.now < 2 ^ 62 }
    requires idle { core.old.view.waiting ≡ None }
    requires due { IsDue core.old.view given.now }
    requires role { is_working core.old.view.role ≡ false }
    ensures did { Did W.did (rule_due core.old given) (record { core = core.new; deed = result })
        hands.old hands.new }
    ensures waits { KeepWaits result.keep core.new.view.waiting given.now }
    ensures speech { IsSpeech core.new.setup result.say }
{
    let deed = core.tick(given.now);
    follow(core, deed, given, hands)
}

// Runs the rule for the member's role, at its deadline. A handler that still runs then has failed.
#[tactic(auto, using(crate::proofs::DidLemmas::did_end))]
fn role_due<W: Hands>(core: &mut Core, given: Given, hands: &mut W) -> Deed
    requires early { given.now < 2 ^ 62 }
    requires idle { core.old.view.waiting ≡ None }
    requires due { IsDue core.old.view given.now }
    ensures did { Did W.did (role_due core.old given) (record { core = core.new; deed = result })
        hands.old hands.new }
    ensures waits { KeepWaits result.keep core.new.view.waiting given.now }
    ensures speech { IsSpeech core.new.setup result.say }
{
    if core.view().role == Role::Working {
        core.note(given.now, Note::HandlerFailed);
        return telling(Told::HandlerFailed);
    }
    rule_due(core, given, hands)
}

/// Handles the deadline. The last action has the result for clients.
#[tactic(auto, using(crate::proofs::DidLemmas::did_then), unfolding(crate::specs::Automatic::tick))]
pub(crate) fn tick<W: Hands>(core: &mut Core, given: Given, hands: &mut W) -> Deed
    requires early { given.now < 2 ^ 62 }
    requires idle { core.old.view.waiting ≡ None }
    requires due { IsDue core.old.view given.now }
    ensures did { Did W.did (tick core.old given) (record { core = core.new; deed = result })
        hands.old hands.new }
    ensures idle { core.new.view.waiting ≡ None }
{
    let words = core.hello(given.now);
    say(core.setup(), None, &words, hands);
    let deed = role_due(core, given, hands);
    carry_out(core, None, given.now, deed, hands)
}

/// Handles the deadline, and informs the waiting clients.
#[tactic(auto, using(crate::proofs::DidLemmas::did_then), unfolding(crate::specs::Automatic::come_due))]
pub(crate) fn come_due<W: Hands>(
    core: &mut Core,
    given: Given,
    list: u32,
    waiters: &mut Waiters,
    hands: &mut W,
)
    requires early { given.now < 2 ^ 62 }
    requires idle { core.old.view.waiting ≡ None }
    requires due { IsDue core.old.view given.now }
    requires exists { list < length waiters.old }
    ensures did { Did W.did (come_due core.old (waiting_at waiters.old list) given)
        (record { core = core.new; waiters = waiting_at waiters.new list }) hands.old hands.new }
    ensures others { waiters.new ≡ slice_set waiters.old list (waiting_at waiters.new list) }
    ensures idle { core.new.view.waiting ≡ None }
{
    let last = tick(core, given, hands);
    tell(core, &last, given.now, list, waiters, hands);
}
