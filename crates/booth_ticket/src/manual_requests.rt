//! Clients' requests about a manual ticket.
ghost use Rattle.std.specs.Prelude.{◌≡◌, ◌≢◌, ◌<◌, ◌^◌, None, IsSome, IsTrue, IfNone, is_some, if◌then◌else◌};
ghost use Rattle.booth_raft.specs.Sound.{IsSound};
ghost use Rattle.booth_manual.specs.State.{with_view};
ghost use Rattle.booth_ticket.specs.Acts.{Did};
ghost use Rattle.booth_ticket.specs.Manual.{manual_state};
ghost use Rattle.booth_ticket.specs.ManualRequests.{forces, unforced, is_strange, is_another_shown, refused_manual_grant, refused_manual_revoke, refused_by_hand, MayTry, tries_for, result_of_keep, keep_tried, keep_for, wants_handler, start_for, begin_for, do_for, as_waiting, manual_reply};
ghost use Rattle.booth_ticket.specs.Waiting.{joins};

use crate::hands::{Hands, To};
use crate::manual::Job;
use crate::request::{Given, Request, Wish};
use crate::saying::say;
use crate::telling::{reply_cmd, reply_head, waits};
use booth_base::MemberId;
use booth_manual::{Manual, ManualView, NO_END_SECONDS, are_terms_spent, holder};
use booth_raft::job_limit;
use booth_rec::Record;
use booth_wire::options::{COMMIT, IMMEDIATE, WAIT};
use booth_wire::results::{APRQ, ASYN, BUSY, FAIL, IARG, OVER, PEND, REDR, SUCCESS, TIDL, XPRG};
use booth_wire::{Setup, TicketPart};

// Returns whether the client requests the ticket although another holder is known.
fn forces(options: u32) -> bool
    ensures { result ≡ forces options }
{
    options & IMMEDIATE == IMMEDIATE
}

// Returns the other options of the request.
fn unforced(options: u32) -> u32
    ensures { result ≡ unforced options }
{
    if forces(options) {
        options - IMMEDIATE
    } else {
        options
    }
}

// Returns whether a bit is set that no request has.
fn is_strange(options: u32) -> bool
    ensures { result ≡ is_strange options }
{
    options > IMMEDIATE + WAIT + COMMIT
}

// Returns whether the known holder is another member.
fn is_another_shown(shown: Option<MemberId>, me: MemberId) -> bool
    ensures { result ≡ is_another_shown shown me }
{
    shown.is_some_and(|shown| shown != me)
}

// Returns the immediate reply to a grant, or `None` if it is begun. `runs` is true if a handler runs.
fn refused_grant(
    setup: &Setup,
    view: &ManualView,
    runs: bool,
    spare: u32,
    ready: bool,
    options: u32,
) -> Option<u32>
    ensures { result ≡ refused_manual_grant setup.now view.now runs spare ready options }
{
    if !setup.site || is_strange(options) {
        return Some(IARG);
    }
    if view.owner {
        return view.sure.then_some(SUCCESS);
    }
    if runs {
        return Some(BUSY);
    }
    if is_another_shown(view.shown, setup.me) && !forces(options) {
        return Some(OVER);
    }
    if !ready {
        return Some(APRQ);
    }
    if are_terms_spent(view) {
        return Some(FAIL);
    }
    if waits(unforced(options)) && spare == 0 {
        return Some(BUSY);
    }
    None
}

// Returns the immediate reply to a revoke, or `None` if a record is written. `runs` is true if a handler runs.
fn refused_revoke(setup: &Setup, view: &ManualView, runs: bool) -> Option<u32>
    ensures { result ≡ refused_manual_revoke setup.now view.now runs }
{
    if view.owner {
        return None;
    }
    if runs {
        return Some(BUSY);
    }
    if is_another_shown(view.shown, setup.me) {
        return Some(REDR);
    }
    Some(TIDL)
}

// Returns the immediate reply to a request, or `None` if it is begun.
fn refused(
    setup: &Setup,
    view: &ManualView,
    runs: bool,
    spare: u32,
    ready: bool,
    request: &Request,
) -> Option<u32>
    ensures answer { result ≡ refused_by_hand setup.now view.now runs spare ready request.now.options request.now.wish }
    ensures may { IfNone result (MayTry view.now request.now.wish) }
{
    match request.wish {
        Wish::Grant => refused_grant(setup, view, runs, spare, ready, request.options),
        Wish::Revoke => refused_revoke(setup, view, runs),
    }
}

// Grants the ticket, or returns the owner's record to write it again.
fn try_grant(rules: &mut Manual) -> Record
    requires idle { rules.old.view.waiting ≡ None }
    requires may { MayTry rules.old.view Wish.Grant }
    ensures rules { rules.new ≡ with_view rules.old (tries_for rules.old.setup rules.old.view Wish.Grant).view }
    ensures tried { result ≡ (tries_for rules.old.setup rules.old.view Wish.Grant).tried }
    ensures waits { IsSome rules.new.view.waiting }
{
    if rules.view().owner {
        return rules.again();
    }
    match rules.grant() {
        Ok(tried) => tried,
        Err(_) => unreachable!(),
    }
}

// Runs the rule for the request, and returns the record to write.
fn try_for(rules: &mut Manual, wish: Wish) -> Record
    requires idle { rules.old.view.waiting ≡ None }
    requires may { MayTry rules.old.view wish }
    ensures rules { rules.new ≡ with_view rules.old (tries_for rules.old.setup rules.old.view wish).view }
    ensures tried { result ≡ (tries_for rules.old.setup rules.old.view wish).tried }
    ensures waits { IsSome rules.new.view.waiting }
{
    match wish {
        Wish::Grant => try_grant(rules),
        Wish::Revoke => rules.revoke(),
    }
}

// Returns the reply after the write.
fn result_of_keep(wish: Wish, ok: bool) -> u32
    ensures { result ≡ result_of_keep wish ok }
{
    match (wish, ok) {
        (Wish::Grant, true) | (Wish::Revoke, true) => SUCCESS,
        (Wish::Grant, false) => PEND,
        (Wish::Revoke, false) => FAIL,
    }
}

/// Writes the record, and then sends the message about it to all members. Returns the result for the client that
/// asked.
pub(crate) fn keep_tried<W: Hands>(
    rules: &mut Manual,
    wish: Wish,
    rec: &Record,
    hands: &mut W,
) -> u32
    requires sound { IsSound rules.old.setup }
    requires waits { IsSome rules.old.view.waiting }
    ensures did { Did W.did (keep_tried rules.old wish rec.now) (record { answer = result; rules = rules.new })
        hands.old hands.new }
    ensures never { result ≢ ASYN }
    ensures idle { rules.new.view.waiting ≡ None }
{
    let ok = hands.keep(rec);
    let words = rules.kept(ok);
    say(rules.setup(), None, &words, hands);
    result_of_keep(wish, ok)
}

// Runs the request's rule, and writes its record. Returns the result for the client that asked.
fn keep_for<W: Hands>(rules: &mut Manual, wish: Wish, hands: &mut W) -> u32
    requires sound { IsSound rules.old.setup }
    requires idle { rules.old.view.waiting ≡ None }
    requires may { MayTry rules.old.view wish }
    ensures did { Did W.did (keep_for rules.old wish) (record { answer = result; rules = rules.new })
        hands.old hands.new }
    ensures never { result ≢ ASYN }
    ensures idle { rules.new.view.waiting ≡ None }
{
    let tried = try_for(rules, wish);
    keep_tried(rules, wish, &tried, hands)
}

// Returns whether the handler must run before this request.
fn wants_handler(view: &ManualView, wish: Wish) -> bool
    ensures { result ≡ wants_handler view.now wish }
{
    match wish {
        Wish::Grant => !view.owner,
        Wish::Revoke => false,
    }
}

// Starts the handler of a grant under this job number. Returns the result for the client that asked.
fn start_for<W: Hands>(
    rules: &Manual,
    running: &mut Option<Job>,
    job: u64,
    now: u64,
    hands: &mut W,
) -> u32
    requires early { now < 2 ^ 62 }
    requires sound { IsSound rules.now.setup }
    ensures did { Did W.did (start_for rules.now running.old job now)
        (record { answer = result; rules = rules.now; running = running.new }) hands.old hands.new }
{
    if !hands.start(job, 0) {
        return XPRG;
    }
    *running = Some(Job {
        number: job,
        limit: job_limit(rules.setup(), now),
    });
    ASYN
}

// Returns the job of a request before which the handler must run.
fn job_for(view: &ManualView, job: Option<u64>, wish: Wish) -> Option<u64>
    ensures { result ≡ (if wants_handler view.now wish then job else None) }
{
    if wants_handler(view, wish) { job } else { None }
}

// Begins a request that is not refused: writes its record, after its handler if it needs one. Returns the result for
// the client that asked.
fn begin_for<W: Hands>(
    rules: &mut Manual,
    running: &mut Option<Job>,
    wish: Wish,
    job: Option<u64>,
    now: u64,
    hands: &mut W,
) -> u32
    requires early { now < 2 ^ 62 }
    requires sound { IsSound rules.old.setup }
    requires idle { rules.old.view.waiting ≡ None }
    requires may { MayTry rules.old.view wish }
    ensures did { Did W.did (begin_for rules.old running.old
        (if wants_handler rules.old.view wish then job else None) wish now)
        (record { answer = result; rules = rules.new; running = running.new }) hands.old hands.new }
    ensures begun { result ≡ ASYN → IsTrue (wants_handler rules.old.view wish) }
    ensures idle { rules.new.view.waiting ≡ None }
{
    match job_for(rules.view(), job, wish) {
        Some(job) => start_for(rules, running, job, now, hands),
        None => keep_for(rules, wish, hands),
    }
}

/// Begins the client's request, or refuses it. Returns the reply.
pub(crate) fn do_for<W: Hands>(
    rules: &mut Manual,
    running: &mut Option<Job>,
    request: &Request,
    spare: u32,
    given: Given,
    hands: &mut W,
) -> u32
    requires early { given.now < 2 ^ 62 }
    requires sound { IsSound rules.old.setup }
    requires idle { rules.old.view.waiting ≡ None }
    ensures did { Did W.did (do_for rules.old running.old
        (refused_by_hand rules.old.setup rules.old.view (is_some running.old) spare given.ready
        request.now.options request.now.wish) given.job request.now.wish given.now)
        (record { answer = result; rules = rules.new; running = running.new }) hands.old hands.new }
    ensures room { IsTrue (joins (as_waiting request.now) result) → 0 < spare }
    ensures idle { rules.new.view.waiting ≡ None }
{
    match refused(
        rules.setup(),
        rules.view(),
        running.is_some(),
        spare,
        given.ready,
        request,
    ) {
        Some(answer) => answer,
        None => begin_for(rules, running, request.wish, given.job, given.now, hands),
    }
}

/// Returns the part with the state for clients.
pub(crate) fn client_part(setup: &Setup, view: &ManualView) -> TicketPart
    ensures { result ≡ manual_state setup.now view.now }
{
    TicketPart {
        ticket: setup.ticket.copy(),
        leader: holder(setup, view),
        term: view.term,
        valid_for: if view.owner { NO_END_SECONDS } else { 0 },
    }
}

/// Replies to a request, with the state of the ticket.
pub(crate) fn manual_reply<W: Hands>(rules: &Manual, request: &Request, answer: u32, hands: &mut W)
    ensures did { Did W.did (manual_reply rules.now request.now answer) tt hands.old hands.new }
{
    let cmd = reply_cmd(request.wish);
    let head = reply_head(rules.setup(), request.number, cmd, answer);
    let part = client_part(rules.setup(), rules.view());
    hands.say(To::Client(request.from), &head, &part);
}

/// Returns the request in the form in which it waits. Its client is also informed about a failed write.
pub(crate) fn as_waiting(request: &Request) -> Request
    ensures { result ≡ as_waiting request.now }
{
    Request {
        options: if waits(unforced(request.options)) {
            WAIT
        } else {
            0
        },
        ..*request
    }
}
