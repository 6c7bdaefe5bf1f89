//! The messages to clients: to the clients that wait, and to the client that asked.
ghost use Rattle.std.specs.Prelude.{◌≡◌, ◌≤◌, ◌<◌, ◌++◌, [], ◌∷◌, IsTrue, length, slice_set};
ghost use Rattle.booth_wire.specs.Command.{kind_of};
ghost use Rattle.booth_wire.specs.declared.command.Kind.{Kind};
ghost use Rattle.booth_raft.specs.Messages.{head_of, state_part};
ghost use Rattle.booth_ticket.specs.Acts.{Did};
ghost use Rattle.booth_ticket.specs.Requests.{reply, reply_cmd};
ghost use Rattle.booth_ticket.specs.Waiting.{waiting_at, spare_in, commits, waits, joins, joined, result_for, staying, tell, tell_each, tell_one};

use crate::hands::{Hands, To};
use crate::request::{Request, Wish};
use crate::waiters::{Waiter, Waiters};
use booth_raft::{Core, Deed, Told, View, owner_now, seconds_left, shown_end};
use booth_wire::options::{COMMIT, WAIT};
use booth_wire::results::{ASYN, FAIL, PEND, SUCCESS, XPRG};
use booth_wire::{Cmd, Head, Setup, TicketPart};

/// Returns whether a client asked to be informed about a grant only after it is written.
pub(crate) fn commits(options: u32) -> bool
    ensures { result ≡ commits options }
{
    options == COMMIT || options == WAIT + COMMIT
}

/// Returns whether a client asked for the outcome of its request, in addition to the first answer.
pub(crate) fn waits(options: u32) -> bool
    ensures { result ≡ waits options }
{
    options == WAIT || commits(options)
}

/// Returns the head of a message to a client.
pub(crate) fn reply_head(setup: &Setup, number: u32, cmd: Cmd, answer: u32) -> Head
    ensures { result ≡ head_of setup.now cmd number 0 0 answer }
{
    Head {
        auth: false,
        secs: 0,
        usecs: 0,
        from: setup.me,
        cmd,
        request: number,
        options: 0,
        reason: 0,
        result: answer,
    }
}

fn reply_part(setup: &Setup, view: &View, now: u64) -> TicketPart
    ensures { result ≡ state_part setup.now view.now now }
{
    TicketPart {
        ticket: setup.ticket.copy(),
        leader: owner_now(view.shown, now),
        term: view.term,
        valid_for: seconds_left(shown_end(view.shown), now),
    }
}

// Returns the result of an outcome for a client that waits, or `None` if the client continues to wait.
fn result_for(told: Told, waiter: &Waiter) -> Option<u32>
    ensures { result ≡ result_for told waiter.now }
{
    match told {
        Told::Nothing | Told::ReleaseFailed => None,
        Told::Gained { sure: true } => Some(SUCCESS),
        Told::Gained { sure: false } => (!waiter.commit).then_some(PEND),
        Told::HandlerFailed => Some(XPRG),
        Told::RoundFailed | Told::AskFailed | Told::Released | Told::Lost => Some(FAIL),
    }
}

// Sends a waiting client its result, if it has one.
#[tactic(auto, using(crate::proofs::DidLemmas::did_end), unfolding(crate::specs::Waiting::tell_one))]
fn tell_one<W: Hands>(setup: &Setup, part: &TicketPart, waiter: &Waiter, told: Told, hands: &mut W)
    ensures did { Did W.did (tell_one setup.now part.now told waiter.now) tt hands.old hands.new }
{
    if let Some(answer) = result_for(told, waiter) {
        let head = reply_head(setup, waiter.number, Cmd::RGnt, answer);
        hands.say(To::Client(waiter.from), &head, part);
    }
}

// Adds a client without a result to the end of its list again, after the clients that were not handled yet.
fn keep_waiting(waiter: Waiter, told: Told, list: u32, waiters: &mut Waiters)
    requires exists { list < length waiters.old }
    requires room { 0 < spare_in waiters.old }
    ensures { waiters.new ≡ slice_set waiters.old list
        (waiting_at waiters.old list ++ staying told (waiter ∷ [])) }
{
    if result_for(told, &waiter).is_none() {
        waiters.push(list, waiter);
    }
}

/// Informs the clients that wait for the ticket about an outcome, first to last, with this state of the ticket. A
/// client that was informed leaves the list.
pub(crate) fn tell_each<W: Hands>(
    setup: &Setup,
    part: &TicketPart,
    told: Told,
    list: u32,
    waiters: &mut Waiters,
    hands: &mut W,
)
    requires exists { list < length waiters.old }
    ensures did { Did W.did (tell_each setup.now part.now told (waiting_at waiters.old list))
        (waiting_at waiters.new list) hands.old hands.new }
    ensures others { waiters.new ≡ slice_set waiters.old list (waiting_at waiters.new list) }
    ensures room { spare_in waiters.old ≤ spare_in waiters.new }
{
    for _place in 0..waiters.count(list) {
        let Some(waiter) = waiters.pop(list) else {
            return;
        };
        tell_one(setup, part, &waiter, told, hands);
        keep_waiting(waiter, told, list, waiters);
    }
}

/// Informs the clients that wait for an automatic ticket about its last action.
#[tactic(auto, using(crate::proofs::DidLemmas::did_calls), unfolding(crate::specs::Waiting::tell))]
pub(crate) fn tell<W: Hands>(
    core: &Core,
    last: &Deed,
    now: u64,
    list: u32,
    waiters: &mut Waiters,
    hands: &mut W,
)
    requires exists { list < length waiters.old }
    ensures did { Did W.did
        (tell now (waiting_at waiters.old list) (record { core = core.now; deed = last.now }))
        (record { core = core.now; waiters = waiting_at waiters.new list }) hands.old hands.new }
    ensures others { waiters.new ≡ slice_set waiters.old list (waiting_at waiters.new list) }
    ensures room { spare_in waiters.old ≤ spare_in waiters.new }
{
    let part = reply_part(core.setup(), core.view(), now);
    tell_each(core.setup(), &part, last.told, list, waiters, hands);
}

/// Adds the client to the waiting clients, if its request was begun and it asked for that.
pub(crate) fn join(request: &Request, answer: u32, list: u32, waiters: &mut Waiters)
    requires exists { list < length waiters.old }
    requires room { IsTrue (joins request.now answer) → 0 < spare_in waiters.old }
    ensures { waiters.new ≡ slice_set waiters.old list
        (joined request.now answer (waiting_at waiters.old list)) }
{
    if waits(request.options) && answer == ASYN {
        waiters.push(
            list,
            Waiter {
                from: request.from,
                number: request.number,
                commit: commits(request.options),
            },
        );
    }
}

/// Returns the command that answers a request.
pub(crate) fn reply_cmd(wish: Wish) -> Cmd
    ensures cmd { result ≡ reply_cmd wish }
    ensures kind { kind_of result ≡ Kind.Ticket }
{
    match wish {
        Wish::Grant => Cmd::RGnt,
        Wish::Revoke => Cmd::RRvk,
    }
}

/// Replies to a request, with the state of the ticket.
pub(crate) fn reply<W: Hands>(core: &Core, request: &Request, answer: u32, now: u64, hands: &mut W)
    ensures did { Did W.did (reply core.now request.now request.now.wish answer now) tt hands.old hands.new }
{
    let cmd = reply_cmd(request.wish);
    let head = reply_head(core.setup(), request.number, cmd, answer);
    let part = reply_part(core.setup(), core.view(), now);
    hands.say(To::Client(request.from), &head, &part);
}
