//! Clients' requests about an automatic ticket.
ghost use Rattle.std.specs.Prelude.{◌≡◌, ◌≢◌, ◌<◌, ◌^◌, ◌&&◌, ◌==◌, None, IsTrue, length, slice_set};
ghost use Rattle.booth_wire.specs.declared.codes.results.TheConstants.{ASYN};
ghost use Rattle.booth_raft.specs.Members.{is_follower};
ghost use Rattle.booth_ticket.specs.Acts.{Did};
ghost use Rattle.booth_ticket.specs.Answers.{answered};
ghost use Rattle.booth_ticket.specs.Requests.{is_holder, is_shown_elsewhere, holder_result, refused_grant, grant_result, acquire_for, grant, refused_revoke, revoke_result, release_for, revoke, do_for, follow_request, is_busy};
ghost use Rattle.booth_ticket.specs.Waiting.{waiting_at, spare_in, waits, joins};

use crate::handling::{acquire_by, telling};
use crate::hands::Hands;
use crate::keeping::carry_out;
use crate::request::{Given, Request, Wish};
use crate::telling::{commits, join, reply, tell, waits};
use crate::waiters::Waiters;
use booth_base::MemberId;
use booth_raft::{
    Core, Deed, Note, Role, Shown, Told, View, are_terms_spent, is_promised_elsewhere, is_silent,
    own_end,
};
use booth_wire::Setup;
use booth_wire::options::WAIT;
use booth_wire::reasons::ADMN;
use booth_wire::results::{APRQ, ASYN, BUSY, FAIL, IARG, OVER, PEND, REDR, SUCCESS, TIDL, XPRG};

/// Returns whether this site leads and its lease has not ended.
pub(crate) fn is_holder(setup: &Setup, view: &View, now: u64) -> bool
    ensures { result ≡ is_holder setup.now view.now now }
{
    setup.site && view.role == Role::Leader && now < own_end(view)
}

/// Returns whether the known owner is another member, and its lease has not ended.
pub(crate) fn is_shown_elsewhere(shown: Option<Shown>, me: MemberId, now: u64) -> bool
    ensures { result ≡ is_shown_elsewhere shown me now }
{
    shown.is_some_and(|shown| now < shown.until && shown.owner != me)
}

// Returns the reply to a grant at a site that holds the ticket.
fn holder_result(sure: bool, spare: u32, options: u32) -> u32
    ensures { result ≡ holder_result sure spare options }
{
    if sure {
        return SUCCESS;
    }
    match (commits(options), spare) {
        (false, _) => PEND,
        (true, 0) => BUSY,
        (true, _) => ASYN,
    }
}

fn is_busy(setup: &Setup, view: &View, now: u64) -> bool
    ensures { result ≡ is_busy setup.now view.now now }
{
    view.role != Role::Follower
        || is_promised_elsewhere(view.promise, setup.me, now)
        || is_silent(setup, view, now)
}

// Returns the immediate reply to a grant, or `None` if the ticket is acquired.
fn refused_grant(
    setup: &Setup,
    view: &View,
    spare: u32,
    ready: bool,
    options: u32,
    now: u64,
) -> Option<u32>
    ensures { result ≡ refused_grant setup.now view.now spare ready options now }
{
    if !setup.site || options != 0 && !waits(options) {
        return Some(IARG);
    }
    if is_holder(setup, view, now) {
        return Some(holder_result(view.sure, spare, options));
    }
    if is_shown_elsewhere(view.shown, setup.me, now) {
        return Some(OVER);
    }
    if is_busy(setup, view, now) {
        return Some(BUSY);
    }
    if !ready {
        return Some(APRQ);
    }
    if are_terms_spent(view) {
        return Some(FAIL);
    }
    if waits(options) && spare == 0 {
        return Some(BUSY);
    }
    None
}

// Returns the result of an acquisition. For a client that asked to be informed about the write, a grant whose lease
// could not be written counts as begun.
fn grant_result(options: u32, told: Told) -> u32
    ensures { result ≡ grant_result options told }
{
    match told {
        Told::Gained { sure: true } => SUCCESS,
        Told::Gained { sure: false } => if commits(options) { ASYN } else { PEND },
        Told::Nothing => ASYN,
        Told::HandlerFailed => XPRG,
        Told::RoundFailed | Told::AskFailed | Told::Released | Told::ReleaseFailed | Told::Lost =>
            FAIL,
    }
}

/// The reply to a client, and the last action that was done for it.
#[derive(Drop)]
pub(crate) struct Done {
    pub answer: u32,
    pub last: Deed,
}

// Acquires the ticket for a client.
#[tactic(auto, using(crate::proofs::DidLemmas::did_calls), unfolding(crate::specs::Requests::acquire_for))]
fn acquire_for<W: Hands>(
    core: &mut Core,
    options: u32,
    job: Option<u64>,
    now: u64,
    hands: &mut W,
) -> Done
    requires early { now < 2 ^ 62 }
    requires idle { core.old.view.waiting ≡ None }
    requires site { IsTrue core.old.setup.site }
    requires follows { IsTrue (is_follower core.old.view.role) }
    ensures did { Did W.did (acquire_for core.old options job now) (answered result core.new)
        hands.old hands.new }
    ensures idle { core.new.view.waiting ≡ None }
{
    core.note(now, Note::Asked);
    let deed = acquire_by(core, job, ADMN, now, hands);
    let last = carry_out(core, None, now, deed, hands);
    Done {
        answer: grant_result(options, last.told),
        last,
    }
}

// Grants the ticket, or refuses the request.
#[tactic(auto, using(crate::proofs::DidLemmas::did_end))]
fn grant<W: Hands>(core: &mut Core, spare: u32, given: Given, options: u32, hands: &mut W) -> Done
    requires early { given.now < 2 ^ 62 }
    requires idle { core.old.view.waiting ≡ None }
    ensures did { Did W.did (grant core.old options
        (refused_grant core.old.setup core.old.view spare given.ready options given.now)
        given.job given.now) (answered result core.new) hands.old hands.new }
    ensures room { IsTrue (waits options && result.answer == ASYN) → 0 < spare }
    ensures idle { core.new.view.waiting ≡ None }
{
    match refused_grant(
        core.setup(),
        core.view(),
        spare,
        given.ready,
        options,
        given.now,
    ) {
        Some(answer) => Done {
            answer,
            last: telling(Told::Nothing),
        },
        None => acquire_for(core, options, given.job, given.now, hands),
    }
}

// Returns the immediate reply to a revoke, or `None` if the lease is released.
fn refused_revoke(setup: &Setup, view: &View, options: u32, now: u64) -> Option<u32>
    ensures { result ≡ refused_revoke setup.now view.now options now }
{
    if options != 0 && options != WAIT {
        return Some(IARG);
    }
    if is_holder(setup, view, now) {
        return None;
    }
    if view.role != Role::Follower {
        return Some(BUSY);
    }
    if is_shown_elsewhere(view.shown, setup.me, now) {
        return Some(REDR);
    }
    Some(TIDL)
}

// Returns the result of a release.
fn revoke_result(told: Told) -> u32
    ensures { result ≡ revoke_result told }
{
    match told {
        Told::Released => SUCCESS,
        Told::Nothing | Told::Gained { .. } | Told::RoundFailed => FAIL,
        Told::AskFailed | Told::ReleaseFailed | Told::Lost | Told::HandlerFailed => FAIL,
    }
}

// Releases the lease for a client.
#[tactic(auto, using(crate::proofs::DidLemmas::did_calls), unfolding(crate::specs::Requests::release_for))]
fn release_for<W: Hands>(core: &mut Core, now: u64, hands: &mut W) -> Done
    requires early { now < 2 ^ 62 }
    requires idle { core.old.view.waiting ≡ None }
    requires holds { IsTrue (is_holder core.old.setup core.old.view now) }
    ensures did { Did W.did (release_for core.old now) (answered result core.new) hands.old hands.new }
    ensures never { result.answer ≢ ASYN }
    ensures idle { core.new.view.waiting ≡ None }
{
    let deed = core.release(now, ADMN);
    let last = carry_out(core, None, now, deed, hands);
    Done {
        answer: revoke_result(last.told),
        last,
    }
}

// Releases the lease, or refuses the request.
#[tactic(auto, using(crate::proofs::DidLemmas::did_end))]
fn revoke<W: Hands>(core: &mut Core, options: u32, now: u64, hands: &mut W) -> Done
    requires early { now < 2 ^ 62 }
    requires idle { core.old.view.waiting ≡ None }
    ensures did { Did W.did (revoke core.old (refused_revoke core.old.setup core.old.view options now) now)
        (answered result core.new) hands.old hands.new }
    ensures never { result.answer ≢ ASYN }
    ensures idle { core.new.view.waiting ≡ None }
{
    match refused_revoke(core.setup(), core.view(), options, now) {
        Some(answer) => Done {
            answer,
            last: telling(Told::Nothing),
        },
        None => release_for(core, now, hands),
    }
}

// Performs the client's request, or refuses it.
fn do_for<W: Hands>(
    core: &mut Core,
    request: &Request,
    spare: u32,
    given: Given,
    hands: &mut W,
) -> Done
    requires early { given.now < 2 ^ 62 }
    requires idle { core.old.view.waiting ≡ None }
    ensures did { Did W.did (do_for core.old spare given request.now.options request.now.wish)
        (answered result core.new) hands.old hands.new }
    ensures room { IsTrue (joins request.now result.answer) → 0 < spare }
    ensures idle { core.new.view.waiting ≡ None }
{
    match request.wish {
        Wish::Grant => grant(core, spare, given, request.options, hands),
        Wish::Revoke => revoke(core, request.options, given.now, hands),
    }
}

/// Handles a client's request: performs its actions, informs the waiting clients, and then sends the reply.
pub(crate) fn follow_request<W: Hands>(
    core: &mut Core,
    request: &Request,
    given: Given,
    list: u32,
    waiters: &mut Waiters,
    hands: &mut W,
)
    requires early { given.now < 2 ^ 62 }
    requires idle { core.old.view.waiting ≡ None }
    requires exists { list < length waiters.old }
    ensures did { Did W.did (follow_request core.old (waiting_at waiters.old list) (spare_in waiters.old)
        given request.now request.now.wish)
        (record { core = core.new; waiters = waiting_at waiters.new list }) hands.old hands.new }
    ensures others { waiters.new ≡ slice_set waiters.old list (waiting_at waiters.new list) }
    ensures idle { core.new.view.waiting ≡ None }
{
    let done = do_for(core, request, waiters.spare(), given, hands);
    tell(core, &done.last, given.now, list, waiters, hands);
    reply(core, request, done.answer, given.now, hands);
    join(request, done.answer, list, waiters);
}
