//! The wait for a list: pairs of one arrival and one reading, until all parts have arrived.
ghost use Rattle.std.specs.Prelude.{◌≡◌, ◌≤◌, true, option_and_then, option_map, IfSome};
ghost use Rattle.booth_host.specs.Past.{GrewSome};
ghost use Rattle.booth_wire.specs.PlainMessage.{content_of, has_text, plain_of};
ghost use Rattle.booth_talk.specs.Listing.{IsListHeard, IsListWait};
ghost use Rattle.booth_talk.specs.Parts.{AreNone, AreTaken, part_in, refusal_in, text_of};
ghost use Rattle.booth_talk.specs.Waiting.{message_brought};

use crate::Asking;
use crate::parts::{Parts, is_of_list};
use crate::reply::message_in;
use crate::wait::{MOST_PAIRS, is_late};
use booth_host::{Arrival, Datagram, Failed, Host};
use booth_wire::Message;

/// The end of a wait for a list.
#[derive(Clone, Copy)]
pub enum Listed {
    /// All its parts arrived.
    Whole,
    /// An answer refused it with this result.
    Refused(u32),
    /// The list did not arrive whole.
    Over,
}

// A pair of an arrival and a reading, for a client that waits for a list.
enum ListHeard {
    Whole,
    Refusal(u32),
    Late,
    Silent,
}

// Returns the authentic message in an arrival, if it has one.
fn message_brought<'d>(
    asking: &Asking,
    start: u64,
    answer: &Result<Arrival, Failed>,
    datagram: &'d Datagram,
) -> Option<Message<'d>>
    ensures same { option_map plain_of result ≡ message_brought asking.now start answer.now datagram.now }
    ensures text { IfSome result (λ m. has_text (content_of m.body) ≡ true) }
{
    match answer {
        Ok(Arrival::Datagram(_)) => message_in(asking, start, datagram.bytes()),
        Ok(Arrival::Handler { .. }) => None,
        Ok(Arrival::Quiet) => None,
        Ok(Arrival::Stop) => None,
        Err(_) => None,
    }
}

// Returns the result of an answer that refuses the list.
fn refusal_in(message: &Message<'_>) -> Option<u32>
    ensures { result ≡ refusal_in (plain_of message.now) }
{
    if is_of_list(message.head.result) {
        None
    } else {
        Some(message.head.result)
    }
}

// Stores the part in an arrival, if it is the first with its number. Returns the result of a refusal.
fn take(
    asking: &Asking,
    start: u64,
    answer: &Result<Arrival, Failed>,
    datagram: &Datagram,
    parts: &mut Parts,
) -> Option<u32>
    ensures taken { AreTaken
        (λ n. option_and_then (part_in n) (message_brought asking.now start answer.now datagram.now))
        parts.old parts.new }
    ensures refusal { result
        ≡ option_and_then refusal_in (message_brought asking.now start answer.now datagram.now) }
{
    match message_brought(asking, start, answer, datagram) {
        Some(message) => {
            parts.take(&message);
            refusal_in(&message)
        }
        None => None,
    }
}

fn judged(
    asking: &Asking,
    start: u64,
    answer: &Result<Arrival, Failed>,
    datagram: &Datagram,
    reading: u64,
    parts: &mut Parts,
) -> ListHeard
    ensures taken { AreTaken
        (λ n. option_and_then (part_in n) (message_brought asking.now start answer.now datagram.now))
        parts.old parts.new }
    ensures heard { IsListHeard asking.now start
        (record { answer = answer.now; bytes = datagram.now; reading = reading }) parts.new result }
{
    match take(asking, start, answer, datagram, parts) {
        Some(code) => ListHeard::Refusal(code),
        None => {
            if parts.is_whole() {
                ListHeard::Whole
            } else if is_late(start, reading) {
                ListHeard::Late
            } else {
                ListHeard::Silent
            }
        }
    }
}

/// Waits for the parts of the list that was requested at `start`. No part has arrived before.
pub(crate) fn wait_list<H: Host>(
    asking: &Asking,
    start: u64,
    datagram: &mut Datagram,
    parts: &mut Parts,
    host: &mut H,
) -> Listed
    requires { AreNone parts.old }
    ensures past { GrewSome (IsListWait asking.now start result (text_of parts.new))
        (H.past host.old) (H.past host.new) }
    ensures later { H.faults host.old ≤ H.faults host.new }
{
    for _pair in 0..MOST_PAIRS {
        let answer = host.next(100, datagram);
        let reading = host.now();
        match judged(asking, start, &answer, datagram, reading, parts) {
            ListHeard::Whole => return Listed::Whole,
            ListHeard::Refusal(code) => return Listed::Refused(code),
            ListHeard::Late => return Listed::Over,
            ListHeard::Silent => {}
        }
    }
    Listed::Over
}
