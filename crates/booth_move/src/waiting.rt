//! The wait for the answer to a request, pair by pair.
ghost use Rattle.std.specs.Prelude.{◌≡◌, ◌<◌, option_map};
ghost use Rattle.booth_wire.specs.PlainMessage.{content_of, plain_of};
ghost use Rattle.booth_talk.specs.Replies.{leader_in, reply_of};
ghost use Rattle.booth_talk.specs.declared.wait.TheConstants.{MOST_PAIRS};
ghost use Rattle.booth_move.specs.Waiting.{is_late, is_rested, judged, one_more, passed_over, request_at, waits_on};

use crate::stage::Request;
use booth_base::{MemberId, NO_ONE};
use booth_talk::{MOST_PAIRS, PATIENCE, Reply};
use booth_wire::{Body, Message, results};

/// The time between the answer of a busy target and the next grant, in ms.
const PAUSE: u64 = 1_000;

/// The meaning of a pair for a wait.
pub(crate) enum Waits {
    /// The wait continues with this request.
    On(Request),
    /// The wait ended without an answer.
    Over,
    /// This answer came.
    Came(Reply),
}

/// Returns the number of a request that is sent at this reading.
pub(crate) fn number_of(reading: u64) -> u32
    ensures { result ≡ (request_at reading).number }
{
    (reading % (1 << 32)) as u32
}

/// Returns the request with this number, just sent at this reading.
pub(crate) fn request_of(number: u32, reading: u64) -> Request
    ensures { result ≡ record (request_at reading) { number = number } }
{
    Request {
        number,
        start: reading,
        pairs: 0,
        begun: false,
    }
}

/// Returns the wait after one more pair, or `None` if that pair was the last.
pub(crate) fn one_more(last: Request) -> Option<Request>
    requires { last.pairs < MOST_PAIRS }
    ensures { result ≡ one_more last }
{
    let pairs = last.pairs + 1;
    if pairs == MOST_PAIRS {
        None
    } else {
        Some(Request { pairs, ..last })
    }
}

fn waits_on(next: Option<Request>) -> Waits
    ensures { result ≡ waits_on next }
{
    match next {
        Some(last) => Waits::On(last),
        None => Waits::Over,
    }
}

// Continues after the reply that the request was begun, to wait for its outcome.
fn passed_over(last: Request) -> Waits
    requires { last.pairs < MOST_PAIRS }
    ensures { result ≡ passed_over last }
{
    if last.begun {
        waits_on(one_more(last))
    } else {
        Waits::On(Request {
            pairs: 0,
            begun: true,
            ..last
        })
    }
}

// Returns whether a reading is past the wait for the first answer.
fn is_late(last: Request, reading: u64) -> bool
    ensures { result ≡ is_late last reading }
{
    if last.begun {
        return false;
    }
    match last.start.checked_add(PATIENCE) {
        Some(bound) => bound < reading,
        None => false,
    }
}

/// Returns whether the pause for a busy target was long enough.
pub(crate) fn is_rested(last: Request, reading: u64) -> bool
    ensures { result ≡ is_rested last reading }
{
    match last.start.checked_add(PAUSE) {
        Some(first) => first <= reading,
        None => false,
    }
}

fn leader_in(body: &Body<'_>) -> MemberId
    ensures { result ≡ leader_in (content_of body.now) }
{
    match body {
        Body::Ticket(part) => part.leader,
        Body::Bare | Body::Attr(_) | Body::Text(_) => NO_ONE,
    }
}

fn reply_of(message: &Message<'_>) -> Reply
    ensures { result ≡ reply_of (plain_of message.now) }
{
    Reply {
        result: message.head.result,
        leader: leader_in(&message.body),
    }
}

/// Returns what a pair means for a move that waits for the answer to its last request.
pub(crate) fn judged(wait: bool, last: Request, reading: u64, reply: Option<&Message<'_>>) -> Waits
    requires { last.pairs < MOST_PAIRS }
    ensures { result ≡ judged wait last reading (option_map (λ m. plain_of m.now) reply.entry) }
{
    match reply {
        Some(message) => {
            if wait && message.head.result == results::ASYN {
                passed_over(last)
            } else {
                Waits::Came(reply_of(message))
            }
        }
        None => {
            if is_late(last, reading) {
                Waits::Over
            } else {
                waits_on(one_more(last))
            }
        }
    }
}
