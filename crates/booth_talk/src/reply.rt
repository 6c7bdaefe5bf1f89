//! The datagrams that are replies to a request.
ghost use Rattle.std.specs.Prelude.{◌≡◌, true, option_map, IfSome};
ghost use Rattle.booth_wire.specs.PlainMessage.{content_of, has_text, plain_of};
ghost use Rattle.booth_talk.specs.Replies.{answers, is_answer, leader_in, message_in, reply_in, text_in};

use crate::request::number_of;
use crate::{Asking, Order};
use booth_auth::is_signed;
use booth_base::{MemberId, NO_ONE};
use booth_wire::{Body, Cmd, Message, decode};

/// The fields of a reply that matter while a client waits.
#[derive(Clone, Copy)]
pub struct Reply {
    pub result: u32,
    /// The member in the reply, or `NO_ONE`.
    pub leader: MemberId,
}

fn answers(order: &Order, cmd: Cmd) -> bool
    ensures { result ≡ answers order.now cmd }
{
    match order.cmd().answer() {
        Some(answer) => answer.code() == cmd.code(),
        None => false,
    }
}

fn is_answer(asking: &Asking, start: u64, message: &Message<'_>) -> bool
    ensures { result ≡ is_answer asking.now start (plain_of message.now) }
{
    answers(&asking.order, message.head.cmd)
        && message.head.request == number_of(start)
        && asking.config.member(message.head.from).is_some()
}

fn leader_in(body: &Body<'_>) -> MemberId
    ensures { result ≡ leader_in (content_of body.now) }
{
    match body {
        Body::Ticket(part) => part.leader,
        Body::Bare | Body::Attr(_) | Body::Text(_) => NO_ONE,
    }
}

/// Returns the text in the reply, or no bytes.
pub(crate) fn text_in<'a>(body: &Body<'a>) -> &'a [u8]
    ensures { result.now ≡ text_in (content_of body.now) }
{
    match body {
        Body::Text(text) => *text,
        Body::Bare | Body::Ticket(_) | Body::Attr(_) => &[],
    }
}

/// Returns the authentic message that these bytes spell, in answer to the request that was sent at `start`, if they
/// spell one.
#[tactic(auto, unfolding(crate::specs::Replies::message_in))]
pub(crate) fn message_in<'a>(asking: &Asking, start: u64, bytes: &'a [u8]) -> Option<Message<'a>>
    ensures same { option_map plain_of result ≡ message_in asking.now start bytes.now }
    ensures text { IfSome result (λ m. has_text (content_of m.body) ≡ true) }
{
    match decode(bytes) {
        Ok(message) => {
            if !is_signed(asking.ring.as_ref(), &message.head, bytes) {
                return None;
            }
            if !is_answer(asking, start, &message) {
                return None;
            }
            Some(message)
        }
        Err(_) => None,
    }
}

/// Returns the reply that these bytes spell, in answer to the request that was sent at `start`, if they spell one.
#[tactic(auto, unfolding(crate::specs::Replies::reply_in))]
pub(crate) fn reply_in(asking: &Asking, start: u64, bytes: &[u8]) -> Option<Reply>
    ensures { result ≡ reply_in asking.now start bytes.now }
{
    match message_in(asking, start, bytes) {
        Some(message) => Some(Reply {
            result: message.head.result,
            leader: leader_in(&message.body),
        }),
        None => None,
    }
}
