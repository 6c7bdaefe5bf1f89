//! The action and the stage after a pair at each stage of a move.
ghost use Rattle.std.specs.Prelude.{◌≡◌, ◌<◌, ◌≤◌, length, IfSome};
ghost use Rattle.booth_base.specs.declared.limits.TheConstants.{MEMBERS};
ghost use Rattle.booth_talk.specs.declared.wait.TheConstants.{MOST_PAIRS};
ghost use Rattle.booth_move.specs.Move.{place_of};
ghost use Rattle.booth_move.specs.Deeds.{ends, followed, grant_answered, grants, opens, repeats_grant, no_deed, revoke_answered};
ghost use Rattle.booth_move.specs.Deeds.{next_number, rests, sends_on, while_granting, while_pausing, while_revoking};

use crate::deeds::{MoveDeed, MoveEnd};
use crate::stage::{Request, Stage};
use crate::waiting::{Waits, is_rested, number_of, one_more, request_of};
use booth_base::MemberId;
use booth_talk::Reply;
use booth_wire::results;

/// The number of times that a grant is repeated.
const REPEATS: u32 = 10;

/// An action, and the stage after it.
#[derive(Clone, Copy)]
pub(crate) struct Step {
    pub deed: MoveDeed,
    pub stage: Stage,
}

/// Returns a step without an action.
pub(crate) fn no_deed(stage: Stage) -> Step
    ensures { result ≡ no_deed stage }
{
    Step {
        deed: MoveDeed::Nothing,
        stage,
    }
}

fn ends(end: MoveEnd) -> Step
    ensures { result ≡ ends end }
{
    Step {
        deed: MoveDeed::End(end),
        stage: Stage::Ended,
    }
}

/// Sends the revoke for the first time.
pub(crate) fn opens(start: u64) -> Step
    ensures { result ≡ opens start }
{
    let request = number_of(start);
    Step {
        deed: MoveDeed::Revoke { to: None, request },
        stage: Stage::Revoking {
            last: request_of(request, start),
            sent_on: false,
        },
    }
}

// ---- the revoke

// Sends the revoke to the member that the reply named as the owner.
fn sends_on(place: u32, reading: u64) -> Step
    ensures { result ≡ sends_on place reading }
{
    let request = number_of(reading);
    Step {
        deed: MoveDeed::Revoke {
            to: Some(place),
            request,
        },
        stage: Stage::Revoking {
            last: request_of(request, reading),
            sent_on: true,
        },
    }
}

/// Returns the place of the member with this id.
pub(crate) fn place_of(ids: &[u32], id: MemberId) -> Option<usize>
    ensures place { result ≡ place_of id ids.now }
    ensures within { IfSome result (λ place. place < length ids.now) }
{
    ids.iter().position(|other| *other == id.0)
}

// Returns the place to which a revoke is redirected.
fn followed(ids: &[u32], sent_on: bool, reply: &Reply) -> Option<u32>
    requires { length ids.now ≤ MEMBERS }
    ensures { result ≡ followed ids.now sent_on reply.now }
{
    if sent_on || reply.result != results::REDR {
        return None;
    }
    match place_of(ids, reply.leader) {
        Some(place) => Some(place as u32),
        None => None,
    }
}

// Sends the grant with this number.
fn grants(request: u32, reading: u64, repeats: u32) -> Step
    ensures { result ≡ grants request reading repeats }
{
    Step {
        deed: MoveDeed::Grant { request },
        stage: Stage::Granting {
            last: request_of(request, reading),
            repeats,
        },
    }
}

fn revoke_answered(ids: &[u32], sent_on: bool, reading: u64, reply: Reply) -> Step
    requires { length ids.now ≤ MEMBERS }
    ensures { result ≡ revoke_answered ids.now sent_on reading reply }
{
    if reply.result == results::SUCCESS {
        return grants(number_of(reading), reading, 0);
    }
    match followed(ids, sent_on, &reply) {
        Some(place) => sends_on(place, reading),
        None => ends(MoveEnd::Refused(reply.result)),
    }
}

/// Returns the step after a pair while the revoke has no answer.
pub(crate) fn while_revoking(ids: &[u32], sent_on: bool, reading: u64, waits: Waits) -> Step
    requires { length ids.now ≤ MEMBERS }
    ensures { result ≡ while_revoking ids.now sent_on reading waits }
{
    match waits {
        Waits::On(last) => no_deed(Stage::Revoking { last, sent_on }),
        Waits::Over => ends(MoveEnd::NoReply),
        Waits::Came(reply) => revoke_answered(ids, sent_on, reading, reply),
    }
}

// ---- the grant

fn next_number(number: u32) -> u32
    ensures { result ≡ next_number number }
{
    match number.checked_add(1) {
        Some(next) => next,
        None => 0,
    }
}

fn repeats_grant(last: Request, repeats: u32, reading: u64) -> Step
    requires { repeats < REPEATS }
    ensures { result ≡ repeats_grant last repeats reading }
{
    grants(next_number(last.number), reading, repeats + 1)
}

// Pauses while the target is busy.
fn rests(last: Request, repeats: u32, reading: u64) -> Step
    requires { repeats < REPEATS }
    ensures { result ≡ rests last repeats reading }
{
    if is_rested(last, reading) {
        repeats_grant(last, repeats, reading)
    } else {
        no_deed(Stage::Pausing {
            last: Request { pairs: 0, ..last },
            repeats,
        })
    }
}

fn grant_answered(last: Request, repeats: u32, reading: u64, reply: Reply) -> Step
    ensures { result ≡ grant_answered last repeats reading reply }
{
    if reply.result == results::SUCCESS {
        return ends(MoveEnd::Moved);
    }
    if reply.result == results::ASYN {
        return ends(MoveEnd::Asked);
    }
    if reply.result == results::BUSY && repeats < REPEATS {
        return rests(last, repeats, reading);
    }
    ends(MoveEnd::Stranded(reply.result))
}

/// Returns the step after a pair while the grant has no answer.
pub(crate) fn while_granting(last: Request, repeats: u32, reading: u64, waits: Waits) -> Step
    ensures { result ≡ while_granting last repeats reading waits }
{
    match waits {
        Waits::On(next) => no_deed(Stage::Granting {
            last: next,
            repeats,
        }),
        Waits::Over => ends(MoveEnd::NoReply),
        Waits::Came(reply) => grant_answered(last, repeats, reading, reply),
    }
}

/// Returns the step after a pair during the pause.
pub(crate) fn while_pausing(last: Request, repeats: u32, reading: u64) -> Step
    requires pairs { last.pairs < MOST_PAIRS }
    requires repeats { repeats < REPEATS }
    ensures { result ≡ while_pausing last repeats reading }
{
    if is_rested(last, reading) {
        return repeats_grant(last, repeats, reading);
    }
    match one_more(last) {
        Some(last) => no_deed(Stage::Pausing { last, repeats }),
        None => ends(MoveEnd::NoReply),
    }
}
