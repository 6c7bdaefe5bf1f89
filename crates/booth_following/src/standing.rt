//! The state of a ticket by this site's answer about it.
ghost use Rattle.std.specs.Prelude.{◌≡◌};
ghost use Rattle.booth_wire.specs.PlainMessage.{content_of, plain_of};
ghost use Rattle.booth_following.specs.Standing.{is_standing, names_me, standing_at, standing_by, standing_in, standing_of, told_end};

use crate::asking::number_of;
use crate::following::Following;
use booth_auth::is_signed;
use booth_follow_rule::Shown;
use booth_host::{Arrival, Datagram, Failed};
use booth_wire::{Body, Cmd, Head, Message, TicketPart, decode, results};

/// The state of a ticket according to an answer.
#[derive(Clone, Copy)]
pub(crate) struct Standing {
    pub shown: Shown,
    /// The term of this site's lease, or 0 if it is not shown.
    pub term: u32,
}

// Returns whether a message is this site's answer to the request for the ticket that was sent at a reading.
fn is_standing(f: &Following, asked: u64, message: &Message<'_>) -> bool
    ensures { result ≡ is_standing f.now asked (plain_of message.now) }
{
    let head = &message.head;
    head.cmd.code() == Cmd::RTkt.code()
        && head.request == number_of(asked)
        && head.from.0 == f.me.0
        && (head.result == results::SUCCESS || head.result == results::IARG)
}

// Returns the end of a lease by the seconds that were left, rounded up, when this head was sent.
fn told_end(head: &Head, seconds: u32) -> u64
    ensures { result ≡ told_end head.now seconds }
{
    u64::from(head.secs) * 1000
        + u64::from(head.usecs / 1000)
        + u64::from(seconds.saturating_sub(1)) * 1000
}

fn names_me(f: &Following, head: &Head, part: &TicketPart) -> bool
    ensures { result ≡ names_me f.now head.now part.now }
{
    part.leader.0 == f.me.0 && part.valid_for > 0 && head.secs < u32::MAX
}

fn standing_of(f: &Following, head: &Head, part: &TicketPart) -> Standing
    ensures { result ≡ standing_of f.now head.now part.now }
{
    if names_me(f, head, part) {
        Standing {
            shown: Shown::Here {
                until: told_end(head, part.valid_for),
            },
            term: part.term,
        }
    } else {
        Standing {
            shown: Shown::Elsewhere,
            term: 0,
        }
    }
}

fn standing_by(f: &Following, head: &Head, body: &Body<'_>) -> Option<Standing>
    ensures { result ≡ standing_by f.now head.now (content_of body.now) }
{
    match body {
        Body::Ticket(part) => {
            if part.ticket.bytes() == f.ticket.bytes() {
                Some(standing_of(f, head, part))
            } else {
                None
            }
        }
        Body::Bare | Body::Attr(_) | Body::Text(_) => None,
    }
}

/// Returns the state of the ticket by these bytes, if they are this site's answer about it.
#[tactic(auto, unfolding(crate::specs::Standing::standing_in))]
pub(crate) fn standing_in(f: &Following, asked: u64, bytes: &[u8]) -> Option<Standing>
    ensures { result ≡ standing_in f.now asked bytes.now }
{
    match decode(bytes) {
        Ok(message) => {
            if !is_signed(f.ring.as_ref(), &message.head, bytes) {
                return None;
            }
            if !is_standing(f, asked, &message) {
                return None;
            }
            standing_by(f, &message.head, &message.body)
        }
        Err(_) => None,
    }
}

/// Returns the state of the ticket by an arrival.
pub(crate) fn standing_at(
    f: &Following,
    asked: Option<u64>,
    answer: &Result<Arrival, Failed>,
    datagram: &Datagram,
) -> Option<Standing>
    ensures { result ≡ standing_at f.now asked answer.now datagram.now }
{
    match answer {
        Ok(Arrival::Datagram(_)) => match asked {
            Some(asked) => standing_in(f, asked, datagram.bytes()),
            None => None,
        },
        Ok(Arrival::Handler { .. }) | Ok(Arrival::Quiet) | Ok(Arrival::Stop) | Err(_) => None,
    }
}
