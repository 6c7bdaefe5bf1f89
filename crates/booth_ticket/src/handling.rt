//! The starts of an automatic ticket's handler, and the effects of its end.
ghost use Rattle.std.specs.Prelude.{◌≡◌, ◌<◌, ◌^◌, ◌||◌, None, IsTrue, is_some, if◌then◌else◌};
ghost use Rattle.booth_raft.specs.Facts.{KeepWaits};
ghost use Rattle.booth_raft.specs.Members.{is_follower, is_leader, is_working};
ghost use Rattle.booth_raft.specs.Speech.{IsSpeech};
ghost use Rattle.booth_raft.specs.State.{step};
ghost use Rattle.booth_ticket.specs.Acts.{Did};
ghost use Rattle.booth_ticket.specs.Automatic.{hear_job};
ghost use Rattle.booth_ticket.specs.Handling.{acquire, acquires, checks, goes_on, job_over, leads_on, renews, renews_or_releases, service_of, works, works_on};

use crate::hands::Hands;
use crate::keeping::carry_out;
use booth_raft::{Core, Deed, Note, Role, Told, Want, is_promised_elsewhere, own_end};
use booth_wire::Say;
use booth_wire::reasons::{LOCF, RACQ};

/// The meaning of a handler's end for the service of its ticket at this site.
#[derive(Clone, Copy)]
pub enum Service {
    /// The service can run: the handler ended with status 0.
    CanRun,
    /// The service cannot run: the handler ended with another status.
    CannotRun,
}

/// Returns an action that has only a result for clients.
pub(crate) fn telling(told: Told) -> Deed
    ensures { result ≡ record { keep = None; say = Say.Nothing; want = Want.Nothing; told = told } }
{
    Deed {
        keep: None,
        say: Say::Nothing,
        want: Want::Nothing,
        told,
    }
}

// ---- before an acquisition

// Starts an election in a new term. If the terms are used up, the acquisition fails.
fn acquire(core: &mut Core, reason: u32, now: u64) -> Deed
    requires early { now < 2 ^ 62 }
    requires idle { core.old.view.waiting ≡ None }
    requires site { IsTrue core.old.setup.site }
    requires rests { IsTrue (is_follower core.old.view.role || is_working core.old.view.role) }
    ensures step { record { core = core.new; deed = result }
        ≡ step core.old (acquire core.old.setup core.old.view reason now) }
    ensures waits { KeepWaits result.keep core.new.view.waiting now }
    ensures speech { IsSpeech core.new.setup result.say }
{
    match core.ask(now, reason) {
        Ok(deed) => deed,
        Err(_) => {
            core.note(now, Note::AskFailed);
            telling(Told::AskFailed)
        }
    }
}

// Continues after the start of a handler before an acquisition.
fn work(core: &mut Core, job: u64, reason: u32, now: u64, ok: bool) -> Deed
    requires early { now < 2 ^ 62 }
    requires idle { core.old.view.waiting ≡ None }
    requires follows { IsTrue (is_follower core.old.view.role) }
    ensures step { record { core = core.new; deed = result }
        ≡ step core.old (works core.old.setup core.old.view job reason now ok) }
    ensures waits { KeepWaits result.keep core.new.view.waiting now }
    ensures speech { IsSpeech core.new.setup result.say }
{
    if !ok {
        core.note(now, Note::HandlerFailed);
        return telling(Told::HandlerFailed);
    }
    core.note(now, Note::JobStarted { job, reason });
    telling(Told::Nothing)
}

/// Acquires the ticket: starts its handler under this job number if it has one, and otherwise starts an election at
/// once.
#[tactic(auto, using(crate::proofs::DidLemmas::did_end))]
pub(crate) fn acquire_by<W: Hands>(
    core: &mut Core,
    job: Option<u64>,
    reason: u32,
    now: u64,
    hands: &mut W,
) -> Deed
    requires early { now < 2 ^ 62 }
    requires idle { core.old.view.waiting ≡ None }
    requires site { IsTrue core.old.setup.site }
    requires follows { IsTrue (is_follower core.old.view.role) }
    ensures did { Did W.did (acquires core.old job reason now) (record { core = core.new; deed = result })
        hands.old hands.new }
    ensures waits { KeepWaits result.keep core.new.view.waiting now }
    ensures speech { IsSpeech core.new.setup result.say }
{
    let Some(job) = job else {
        return acquire(core, reason, now);
    };
    let ok = hands.start(job, 0);
    work(core, job, reason, now, ok)
}

// ---- before a renewal

// Continues after the start of a handler before a renewal.
fn check(core: &mut Core, job: u64, now: u64, ok: bool) -> Deed
    requires early { now < 2 ^ 62 }
    requires idle { core.old.view.waiting ≡ None }
    requires site { IsTrue core.old.setup.site }
    requires leads { IsTrue (is_leader core.old.view.role) }
    ensures step { record { core = core.new; deed = result }
        ≡ step core.old (checks core.old.setup core.old.view job now ok) }
    ensures waits { KeepWaits result.keep core.new.view.waiting now }
    ensures speech { IsSpeech core.new.setup result.say }
{
    if !ok {
        return core.release(now, LOCF);
    }
    core.note(now, Note::JobStarted { job, reason: RACQ });
    telling(Told::Nothing)
}

// Returns the job of a site's handler. An arbitrator has none.
fn job_at(site: bool, job: Option<u64>) -> Option<u64>
    ensures { result ≡ (if site then job else None) }
{
    if site { job } else { None }
}

/// Renews the lease, after the handler if the ticket of a site has one.
#[tactic(auto, using(crate::proofs::DidLemmas::did_end))]
pub(crate) fn renew_by<W: Hands>(core: &mut Core, job: Option<u64>, now: u64, hands: &mut W) -> Deed
    requires early { now < 2 ^ 62 }
    requires idle { core.old.view.waiting ≡ None }
    requires leads { IsTrue (is_leader core.old.view.role) }
    ensures did { Did W.did (renews core.old job now) (record { core = core.new; deed = result })
        hands.old hands.new }
    ensures waits { KeepWaits result.keep core.new.view.waiting now }
    ensures speech { IsSpeech core.new.setup result.say }
{
    let Some(job) = job_at(core.setup().site, job) else {
        return core.renew(now);
    };
    let ok = hands.start(job, own_end(core.view()) / 1000);
    check(core, job, now, ok)
}

// ---- the end of a job

impl Service {
    /// Returns the meaning of an exit status.
    pub fn of_status(status: i32) -> Service
        ensures { result ≡ service_of status }
    {
        if status == 0 {
            Service::CanRun
        } else {
            Service::CannotRun
        }
    }
}

// Acquires the ticket after its handler, unless this member has promised another by now.
fn acquire_after(core: &mut Core, now: u64) -> Deed
    requires early { now < 2 ^ 62 }
    requires idle { core.old.view.waiting ≡ None }
    requires site { IsTrue core.old.setup.site }
    requires works { IsTrue (is_working core.old.view.role) }
    ensures step { record { core = core.new; deed = result }
        ≡ step core.old (works_on core.old.setup core.old.view Service.CanRun now) }
    ensures waits { KeepWaits result.keep core.new.view.waiting now }
    ensures speech { IsSpeech core.new.setup result.say }
{
    if is_promised_elsewhere(core.view().promise, core.setup().me, now) {
        core.note(now, Note::AskFailed);
        return telling(Told::AskFailed);
    }
    let reason = core.view().reason;
    acquire(core, reason, now)
}

// Continues after the end of the handler before an acquisition.
fn work_on(core: &mut Core, service: Service, now: u64) -> Deed
    requires early { now < 2 ^ 62 }
    requires idle { core.old.view.waiting ≡ None }
    requires site { IsTrue core.old.setup.site }
    requires works { IsTrue (is_working core.old.view.role) }
    ensures step { record { core = core.new; deed = result }
        ≡ step core.old (works_on core.old.setup core.old.view service now) }
    ensures waits { KeepWaits result.keep core.new.view.waiting now }
    ensures speech { IsSpeech core.new.setup result.say }
{
    match service {
        Service::CanRun => acquire_after(core, now),
        Service::CannotRun => {
            core.note(now, Note::HandlerFailed);
            telling(Told::HandlerFailed)
        }
    }
}

// Renews the lease if the service can run, and releases it otherwise.
fn renew_or_release(core: &mut Core, service: Service, now: u64) -> Deed
    requires early { now < 2 ^ 62 }
    requires idle { core.old.view.waiting ≡ None }
    requires site { IsTrue core.old.setup.site }
    requires leads { IsTrue (is_leader core.old.view.role) }
    ensures step { record { core = core.new; deed = result }
        ≡ step core.old (renews_or_releases core.old.setup core.old.view service now) }
    ensures waits { KeepWaits result.keep core.new.view.waiting now }
    ensures speech { IsSpeech core.new.setup result.say }
{
    match service {
        Service::CanRun => core.renew(now),
        Service::CannotRun => core.release(now, LOCF),
    }
}

// Continues after the end of the handler before a renewal.
fn lead_on(core: &mut Core, service: Service, now: u64) -> Deed
    requires early { now < 2 ^ 62 }
    requires idle { core.old.view.waiting ≡ None }
    requires site { IsTrue core.old.setup.site }
    requires leads { IsTrue (is_leader core.old.view.role) }
    ensures step { record { core = core.new; deed = result }
        ≡ step core.old (leads_on core.old.setup core.old.view service now) }
    ensures waits { KeepWaits result.keep core.new.view.waiting now }
    ensures speech { IsSpeech core.new.setup result.say }
{
    if own_end(core.view()) <= now {
        return core.lose(now);
    }
    renew_or_release(core, service, now)
}

// Continues after the end of the ticket's handler.
fn go_on(core: &mut Core, service: Service, now: u64) -> Deed
    requires early { now < 2 ^ 62 }
    requires idle { core.old.view.waiting ≡ None }
    requires site { IsTrue core.old.setup.site }
    requires runs { IsTrue (is_some core.old.view.job) }
    ensures step { record { core = core.new; deed = result }
        ≡ step core.old (goes_on core.old.setup core.old.view service now) }
    ensures waits { KeepWaits result.keep core.new.view.waiting now }
    ensures speech { IsSpeech core.new.setup result.say }
{
    match core.view().role {
        Role::Follower | Role::Candidate => telling(Told::Nothing),
        Role::Working => work_on(core, service, now),
        Role::Leader => {
            core.note(now, Note::JobOver);
            lead_on(core, service, now)
        }
    }
}

// Handles the end of a handler, whether the ticket waits for it or not.
fn job_over(core: &mut Core, job: u64, service: Service, now: u64) -> Deed
    requires early { now < 2 ^ 62 }
    requires idle { core.old.view.waiting ≡ None }
    ensures step { record { core = core.new; deed = result }
        ≡ step core.old (job_over core.old.setup core.old.view job service now) }
    ensures waits { KeepWaits result.keep core.new.view.waiting now }
    ensures speech { IsSpeech core.new.setup result.say }
{
    if !core.setup().site || core.view().job != Some(job) {
        return telling(Told::Nothing);
    }
    go_on(core, service, now)
}

/// Handles the end of a handler. The last action has the result for clients.
#[tactic(auto, unfolding(crate::specs::Automatic::hear_job))]
pub(crate) fn hear_job<W: Hands>(
    core: &mut Core,
    job: u64,
    service: Service,
    now: u64,
    hands: &mut W,
) -> Deed
    requires early { now < 2 ^ 62 }
    requires idle { core.old.view.waiting ≡ None }
    ensures did { Did W.did (hear_job core.old job service now) (record { core = core.new; deed = result })
        hands.old hands.new }
    ensures idle { core.new.view.waiting ≡ None }
{
    let deed = job_over(core, job, service, now);
    carry_out(core, None, now, deed, hands)
}
