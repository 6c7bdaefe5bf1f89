//! The waits for a reply: pairs of one arrival and one reading.
ghost use Rattle.std.specs.Prelude.{◌≡◌, ◌≤◌, ◌+◌, nat_lt};
ghost use Rattle.booth_host.specs.Past.{GrewSome};
ghost use Rattle.booth_talk.specs.Talk.{IsHeld};
ghost use Rattle.booth_talk.specs.Waiting.{IsFinalWait, IsFirstWait, IsHeard, brought, is_begun, settled};

use crate::Asking;
use crate::reply::{Reply, reply_in};
use booth_host::{Arrival, Datagram, Failed, Host};
use booth_wire::results;

/// The greatest number of pairs of a wait.
pub const MOST_PAIRS: u64 = 1 << 40;

/// The time for which a client waits for the first reply, in ms.
pub const PATIENCE: u64 = 5_000;

/// The end of a wait.
#[derive(Clone, Copy)]
pub enum Waited {
    /// This reply arrived, and then the clock had this reading.
    Came { reply: Reply, reading: u64 },
    /// No reply arrived.
    Over,
}

// Returns the reply in an arrival, if it has one.
fn brought(
    asking: &Asking,
    start: u64,
    answer: &Result<Arrival, Failed>,
    datagram: &Datagram,
) -> Option<Reply>
    ensures { result ≡ brought asking.now start answer.now datagram.now }
{
    match answer {
        Ok(Arrival::Datagram(_)) => reply_in(asking, start, datagram.bytes()),
        Ok(Arrival::Handler { .. }) => None,
        Ok(Arrival::Quiet) => None,
        Ok(Arrival::Stop) => None,
        Err(_) => None,
    }
}

/// Returns whether a reading is past the wait for the first reply.
pub(crate) fn is_late(start: u64, reading: u64) -> bool
    ensures { result ≡ nat_lt (start + PATIENCE) reading }
{
    match start.checked_add(PATIENCE) {
        Some(last) => last < reading,
        None => false,
    }
}

/// Returns whether the reply states that the request was begun, and that the outcome will follow.
pub fn is_begun(reply: &Reply) -> bool
    ensures { result ≡ is_begun reply.now }
{
    reply.result == results::ASYN
}

// A pair of an arrival and a reading, for a client that waits for the first reply.
enum Heard {
    Answer(Reply),
    Late,
    Silent,
}

fn judged(
    asking: &Asking,
    start: u64,
    answer: &Result<Arrival, Failed>,
    datagram: &Datagram,
    reading: u64,
) -> Heard
    ensures { IsHeard asking.now start
        (record { answer = answer.now; bytes = datagram.now; reading = reading }) result }
{
    match brought(asking, start, answer, datagram) {
        Some(reply) => Heard::Answer(reply),
        None => {
            if is_late(start, reading) {
                Heard::Late
            } else {
                Heard::Silent
            }
        }
    }
}

// Returns the outcome in an arrival, if it has one.
fn brought_outcome(
    asking: &Asking,
    start: u64,
    answer: &Result<Arrival, Failed>,
    datagram: &Datagram,
) -> Option<Reply>
    ensures { result ≡ settled (brought asking.now start answer.now datagram.now) }
{
    match brought(asking, start, answer, datagram) {
        Some(reply) => { if is_begun(&reply) { None } else { Some(reply) } }
        None => None,
    }
}

/// Waits for the first reply to the request that was sent at `start`. Its bytes are then in the datagram.
pub(crate) fn wait_first<H: Host>(
    asking: &Asking,
    start: u64,
    datagram: &mut Datagram,
    host: &mut H,
) -> Waited
    ensures past { GrewSome (IsFirstWait asking.now start result datagram.new)
        (H.past host.old) (H.past host.new) }
    ensures held { IsHeld asking.now result datagram.new }
    ensures later { H.faults host.old ≤ H.faults host.new }
{
    for _pair in 0..MOST_PAIRS {
        let answer = host.next(100, datagram);
        let reading = host.now();
        match judged(asking, start, &answer, datagram, reading) {
            Heard::Answer(reply) => return Waited::Came { reply, reading },
            Heard::Late => return Waited::Over,
            Heard::Silent => {}
        }
    }
    Waited::Over
}

/// Waits for the outcome of the request that was sent at `start` and was begun. Its bytes are then in the datagram.
pub(crate) fn wait_final<H: Host>(
    asking: &Asking,
    start: u64,
    datagram: &mut Datagram,
    host: &mut H,
) -> Waited
    ensures past { GrewSome (IsFinalWait asking.now start result datagram.new)
        (H.past host.old) (H.past host.new) }
    ensures held { IsHeld asking.now result datagram.new }
    ensures later { H.faults host.old ≤ H.faults host.new }
{
    for _pair in 0..MOST_PAIRS {
        let answer = host.next(100, datagram);
        let reading = host.now();
        match brought_outcome(asking, start, &answer, datagram) {
            Some(reply) => return Waited::Came { reply, reading },
            None => {}
        }
    }
    Waited::Over
}
