//! The rule for other messages, and the rule that handles each command.
ghost use Rattle.std.specs.Prelude.{◌≡◌, ◌<◌, ◌^◌, ◌==◌, not, IsTrue};
ghost use Rattle.std.specs.Option.{ForSome};
ghost use Rattle.booth_raft.specs.Messages.{answer_cmd};
ghost use Rattle.booth_raft.specs.OtherMessages.{freed, given_back, handed_on, hear, is_bound_elsewhere, is_owner, left_alone, refused, revoked, unasking};
ghost use Rattle.booth_raft.specs.Sound.{IsSound};
ghost use Rattle.booth_raft.specs.declared.view.RoundKind.{RoundKind};

use crate::deed::{Deed, Told};
use crate::messages::tells_state;
use crate::rounds_and_answers::{hear_answer, hear_round};
use crate::start_and_learn::{learned, with_seen};
use crate::view::{Role, Round, RoundKind, Shown, View};
use booth_base::MemberId;
use booth_wire::reasons::{LOCF, SPLT};
use booth_wire::results::TODT;
use booth_wire::{Cmd, Head, Setup, TicketPart};

// Drops a promise to a site, if its term is at most this one.
fn freed(view: &mut View, site: MemberId, term: u32)
    ensures { view.new ≡ freed view.old site term }
{
    if view.promise.is_some_and(|p| p.to == site && p.term <= term) {
        view.promise = None;
    }
}

fn is_owner(shown: Option<Shown>, member: MemberId) -> bool
    ensures { result ≡ is_owner shown member }
{
    shown.is_some_and(|s| s.owner == member)
}

// Lets a site that follows acquire the ticket after the owner's handler failed: at its turn in the order of weights.
fn handed_on(setup: &Setup, view: &mut View, now: u64)
    requires sound { IsSound setup.now }
    requires early { now < 2 ^ 62 }
    ensures { view.new ≡ handed_on setup.now view.old now }
{
    if view.role == Role::Follower && setup.site {
        view.managed = true;
        view.due = Some(now + (setup.rank as u64 + 1) * setup.times.timeout);
    }
}

// Notes that no site acquires the ticket by itself, because a command released it.
fn left_alone(view: &mut View)
    ensures { view.new ≡ left_alone view.old }
{
    view.managed = false;
    if view.role == Role::Follower && view.repeat == 0 {
        view.due = None;
    }
}

// Handles a release by the ticket's owner, by its reason.
fn given_back(setup: &Setup, view: &mut View, reason: u32, now: u64)
    requires sound { IsSound setup.now }
    requires early { now < 2 ^ 62 }
    ensures { view.new ≡ given_back setup.now view.old reason now }
{
    if reason == LOCF {
        handed_on(setup, view, now);
    } else {
        left_alone(view);
    }
}

// Notes that a member which heard of a release no longer asks for the state.
fn unasking(setup: &Setup, view: &mut View, reason: u32)
    ensures { view.new ≡ unasking setup.now view.old reason }
{
    if setup.steady && reason != SPLT {
        view.hello = false;
    }
}

// Handles a release message.
fn revoked(setup: &Setup, view: &mut View, head: &Head, term: u32, now: u64)
    requires sound { IsSound setup.now }
    requires early { now < 2 ^ 62 }
    ensures { view.new ≡ revoked setup.now view.old head.now.from term head.now.reason now }
{
    freed(view, head.from, term);
    if view.term <= term && is_owner(view.shown, head.from) && head.reason != SPLT {
        view.shown = None;
        given_back(setup, view, head.reason, now);
    }
}

fn is_bound_elsewhere(round: Option<Round>, head: &Head, part: &TicketPart) -> bool
    ensures { result ≡ is_bound_elsewhere round head.now part.now }
{
    match round {
        Some(round) => {
            head.result == TODT
                && round.number == head.options
                && round.term == part.term
                && !round.won
        }
        None => false,
    }
}

// Handles a refusal of the open round.
fn refused(setup: &Setup, view: &mut View, head: &Head, part: &TicketPart)
    ensures { view.new ≡ refused setup.now view.old head.now part.now }
{
    if setup.steady && is_bound_elsewhere(view.round, head, part) {
        with_seen(view, view.term.saturating_add(1));
    }
}

// Handles a message about a release.
fn hear_release(setup: &Setup, view: &mut View, head: &Head, part: &TicketPart, now: u64)
    requires sound { IsSound setup.now }
    requires early { now < 2 ^ 62 }
    ensures { view.new ≡ (hear setup.now view.old 0 head.now part.now now Cmd.Revk).view }
{
    with_seen(view, part.term);
    unasking(setup, view, head.reason);
    revoked(setup, view, head, part.term, now);
}

// Returns whether a number is the number of a round of this kind.
fn is_number_of(kind: RoundKind, number: u32) -> bool
    ensures election { kind ≡ RoundKind.Election → result ≡ (number == 0) }
    ensures renewal { kind ≡ RoundKind.Renewal → result ≡ not (number == 0) }
{
    match kind {
        RoundKind::Election => number == 0,
        RoundKind::Renewal => number != 0,
    }
}

// Handles an election, which has number 0. The sender's place makes no difference.
fn hear_election(setup: &Setup, view: &mut View, head: &Head, part: &TicketPart, now: u64) -> Deed
    requires sound { IsSound setup.now }
    requires second { IsTrue setup.now.second }
    requires early { now < 2 ^ 62 }
    ensures view { view.new ≡ (hear setup.now view.old 0 head.now part.now now Cmd.RVot).view }
    ensures deed { result ≡ (hear setup.now view.old 0 head.now part.now now Cmd.RVot).deed }
{
    with_seen(view, part.term);
    if head.options == 0 {
        hear_round(setup, view, RoundKind::Election, head, part, now)
    } else {
        Deed::quiet()
    }
}

// Handles a renewal, which has a number above 0.
fn hear_renewal(setup: &Setup, view: &mut View, head: &Head, part: &TicketPart, now: u64) -> Deed
    requires sound { IsSound setup.now }
    requires second { IsTrue setup.now.second }
    requires early { now < 2 ^ 62 }
    ensures view { view.new ≡ (hear setup.now view.old 0 head.now part.now now Cmd.HrtB).view }
    ensures deed { result ≡ (hear setup.now view.old 0 head.now part.now now Cmd.HrtB).deed }
{
    with_seen(view, part.term);
    if head.options == 0 {
        Deed::quiet()
    } else {
        hear_round(setup, view, RoundKind::Renewal, head, part, now)
    }
}

// Handles an answer of the member with this index, if its number fits a round of its kind.
fn hear_numbered_answer(
    setup: &Setup,
    view: &mut View,
    place: u32,
    kind: RoundKind,
    head: &Head,
    part: &TicketPart,
    now: u64,
) -> Deed
    requires sound { IsSound setup.now }
    requires second { IsTrue setup.now.second }
    requires early { now < 2 ^ 62 }
    requires place { place < setup.now.members }
    requires opened { ForSome view.old.round (λ round. round.opened < 2 ^ 62) }
    ensures view { view.new ≡ (hear setup.now view.old place head.now part.now now (answer_cmd kind)).view }
    ensures deed { result ≡ (hear setup.now view.old place head.now part.now now (answer_cmd kind)).deed }
{
    with_seen(view, part.term);
    if is_number_of(kind, head.options) {
        hear_answer(setup, view, place, head, part, now)
    } else {
        Deed::quiet()
    }
}

// Handles a message of the member with index `from`.
pub(crate) fn hear(
    setup: &Setup,
    view: &mut View,
    place: u32,
    head: &Head,
    part: &TicketPart,
    now: u64,
) -> Deed
    requires sound { IsSound setup.now }
    requires second { IsTrue setup.now.second }
    requires early { now < 2 ^ 62 }
    requires place { place < setup.now.members }
    requires opened { ForSome view.old.round (λ round. round.opened < 2 ^ 62) }
    ensures view { view.new ≡ (hear setup.now view.old place head.now part.now now head.now.cmd).view }
    ensures deed { result ≡ (hear setup.now view.old place head.now part.now now head.now.cmd).deed }
{
    match head.cmd {
        Cmd::RVot => hear_election(setup, view, head, part, now),
        Cmd::HrtB => hear_renewal(setup, view, head, part, now),
        Cmd::VtFr => hear_numbered_answer(setup, view, place, RoundKind::Election, head, part, now),
        Cmd::Ack => hear_numbered_answer(setup, view, place, RoundKind::Renewal, head, part, now),
        Cmd::Stat => {
            learned(setup, view, part, now);
            Deed::saying(tells_state(setup, view, head, now), Told::Nothing)
        }
        Cmd::Rjc => {
            refused(setup, view, head, part);
            learned(setup, view, part, now);
            Deed::quiet()
        }
        Cmd::MIdx | Cmd::UpdE => {
            learned(setup, view, part, now);
            Deed::quiet()
        }
        Cmd::Revk => {
            hear_release(setup, view, head, part, now);
            Deed::quiet()
        }
        // (commands of clients, and their answers)
        Cmd::CLst
        | Cmd::CTkt
        | Cmd::Peer
        | Cmd::CGnt
        | Cmd::CRvk
        | Cmd::ASet
        | Cmd::AGet
        | Cmd::ADel
        | Cmd::ALst
        | Cmd::RLst
        | Cmd::RTkt
        | Cmd::RPer
        | Cmd::RALs
        | Cmd::RGnt
        | Cmd::RRvk
        | Cmd::RAtr => Deed::quiet(),
    }
}
