//! The replies to clients.
ghost use Rattle.std.specs.Prelude.{◌≡◌, true, Option, option_copied, option_map, IfSome, if◌then◌else◌};
ghost use Rattle.booth_wire.specs.declared.codes.results.TheConstants.{SUCCESS, MORE};
ghost use Rattle.booth_wire.specs.declared.command.Cmd.TheVariants.{RTkt};
ghost use Rattle.booth_wire.specs.Command.{answer_of};
ghost use Rattle.booth_wire.specs.PlainMessage.{plain_of, content_of, has_text, Text};
ghost use Rattle.booth_node.specs.Replies.{text_for, no_ticket, no_attribute, no_attribute_of, told_of, told_for, reply_with, reply_message, is_list, part_message, answered, wish_of, request_of, request_in};
ghost use Rattle.booth_node.specs.ReplyForms.{HasForm, listed, reply_of};

use crate::peers::write_peers;
use crate::{Common, NodeConfig};
use booth_base::{MemberId, NO_ONE, Peer, TextBuf};
use booth_ticket::{Request, Ticket, Wish};
use booth_wire::{AttrPart, Body, Cmd, Head, Message, TicketPart, results};

/// The result and the body of a reply.
#[derive(Drop)]
pub(crate) struct Reply<'a> {
    pub result: u32,
    pub body: Body<'a>,
}

/// Writes the text of the reply to this command, which is empty if it has none.
pub(crate) fn write_text(node: &NodeConfig, common: &Common, cmd: Cmd, text: &mut TextBuf)
    ensures { text.new ≡ text_for node.now common.now cmd }
{
    match cmd {
        Cmd::Peer => write_peers(node, common, text),
        Cmd::CLst | Cmd::CTkt | Cmd::CGnt | Cmd::CRvk => text.clear(),
        Cmd::ASet | Cmd::AGet | Cmd::ADel | Cmd::ALst => text.clear(),
        Cmd::RLst | Cmd::RTkt | Cmd::RPer | Cmd::RALs => text.clear(),
        Cmd::RGnt | Cmd::RRvk | Cmd::RAtr => text.clear(),
        Cmd::Stat | Cmd::MIdx | Cmd::RVot | Cmd::VtFr | Cmd::HrtB => text.clear(),
        Cmd::Ack | Cmd::UpdE | Cmd::Revk | Cmd::Rjc => text.clear(),
    }
}

// Returns the reply for an unknown ticket.
fn no_ticket<'a>(body: &Body<'_>) -> Option<Reply<'a>>
    ensures { option_map reply_of result ≡ no_ticket (content_of body.now) }
{
    match body {
        Body::Ticket(part) => Some(Reply {
            result: results::IARG,
            body: Body::Ticket(TicketPart {
                ticket: part.ticket.copy(),
                leader: NO_ONE,
                term: 0,
                valid_for: 0,
            }),
        }),
        Body::Bare | Body::Attr(_) | Body::Text(_) => None,
    }
}

// Returns the reply for an unknown attribute, which the request names.
fn no_attribute_of<'a>(part: &AttrPart) -> Option<Reply<'a>>
    ensures { option_map reply_of result ≡ no_attribute_of part.now part.now.name }
{
    let name = part.name.as_ref()?;
    Some(Reply {
        result: results::IARG,
        body: Body::Attr(AttrPart {
            ticket: part.ticket.copy(),
            name: Some(name.copy()),
            value: part.value.copy(),
        }),
    })
}

fn no_attribute<'a>(body: &Body<'_>) -> Option<Reply<'a>>
    ensures { option_map reply_of result ≡ no_attribute (content_of body.now) }
{
    match body {
        Body::Attr(part) => no_attribute_of(part),
        Body::Bare | Body::Ticket(_) | Body::Text(_) => None,
    }
}

// Returns the reply with the state of the ticket that a request names.
fn told_of<'a>(ticket: Option<&Ticket>, now: u64, asked: &TicketPart) -> Option<Reply<'a>>
    ensures form { IfSome result (λ r. HasForm RTkt (content_of r.body)) }
    ensures reply { option_map reply_of result ≡ told_of (option_copied ticket.entry) now asked.now }
{
    match ticket {
        Some(ticket) => Some(Reply {
            result: results::SUCCESS,
            body: Body::Ticket(ticket.told(now)),
        }),
        None => no_ticket(&Body::Ticket(asked.copy())),
    }
}

/// Returns the reply to a request for one ticket, or `None` if the message names no ticket.
pub(crate) fn told_for<'a>(
    node: &NodeConfig,
    now: u64,
    tickets: &[Ticket],
    body: &Body<'_>,
) -> Option<Reply<'a>>
    ensures form { IfSome result (λ r. HasForm RTkt (content_of r.body)) }
    ensures reply { option_map reply_of result ≡ told_for node.now now tickets.now (content_of body.now) }
{
    let Body::Ticket(asked) = body else {
        return None;
    };
    let place = node.config.ticket(&asked.ticket);
    told_of(place.and_then(|place| tickets.get(place)), now, asked)
}

/// Returns the reply to this message, which may contain this text or this part about a ticket.
fn body_for<'a>(
    cmd: Cmd,
    body: &Body<'_>,
    text: &'a [u8],
    told: Option<Reply<'a>>,
) -> Option<Reply<'a>>
    requires text { has_text (Text text.now) ≡ true }
    requires told { IfSome told (λ r. HasForm RTkt (content_of r.body)) }
    ensures form { IfSome result (λ r. IfSome (answer_of cmd) (λ a. HasForm a (content_of r.body))) }
    ensures reply { option_map reply_of result
        ≡ reply_with text.now (option_map reply_of told.entry) cmd (content_of body.now) }
{
    match cmd {
        Cmd::CLst => None,
        Cmd::CTkt => told,
        Cmd::Peer => Some(Reply {
            result: results::SUCCESS,
            body: Body::Text(text),
        }),
        Cmd::CGnt | Cmd::CRvk => no_ticket(body),
        Cmd::ASet | Cmd::AGet | Cmd::ADel => no_attribute(body),
        Cmd::ALst => Some(Reply {
            result: results::IARG,
            body: Body::Text(text),
        }),
        Cmd::RLst | Cmd::RTkt | Cmd::RPer | Cmd::RALs => None,
        Cmd::RGnt | Cmd::RRvk | Cmd::RAtr => None,
        Cmd::Stat | Cmd::MIdx | Cmd::RVot | Cmd::VtFr | Cmd::HrtB => None,
        Cmd::Ack | Cmd::UpdE | Cmd::Revk | Cmd::Rjc => None,
    }
}

/// Returns the message of a reply to the request with this number.
pub(crate) fn reply_message<'a>(
    me: MemberId,
    request: u32,
    cmd: Cmd,
    reply: Reply<'a>,
) -> Message<'a>
    ensures { plain_of result ≡ reply_message me request cmd (reply_of reply.entry) }
{
    Message {
        head: Head {
            auth: false,
            secs: 0,
            usecs: 0,
            from: me,
            cmd,
            request,
            options: 0,
            reason: 0,
            result: reply.result,
        },
        body: reply.body,
    }
}

/// Returns whether a command requests the list of tickets, which is answered in parts.
pub(crate) fn is_list(cmd: Cmd) -> bool
    ensures { result ≡ is_list cmd }
{
    match cmd {
        Cmd::CLst => true,
        Cmd::CTkt | Cmd::Peer | Cmd::CGnt | Cmd::CRvk => false,
        Cmd::ASet | Cmd::AGet | Cmd::ADel | Cmd::ALst => false,
        Cmd::RLst | Cmd::RTkt | Cmd::RPer | Cmd::RALs => false,
        Cmd::RGnt | Cmd::RRvk | Cmd::RAtr => false,
        Cmd::Stat | Cmd::MIdx | Cmd::RVot | Cmd::VtFr | Cmd::HrtB => false,
        Cmd::Ack | Cmd::UpdE | Cmd::Revk | Cmd::Rjc => false,
    }
}

/// The place of a part in a list: the number of this reply, and the number of the request that it answers.
#[derive(Clone, Copy)]
pub(crate) struct Part {
    pub request: u32,
    pub number: u32,
}

/// Returns the message of a part of a list with this text. The part may be the last one, or others follow.
pub(crate) fn part_message<'a>(
    me: MemberId,
    part: Part,
    is_last: bool,
    text: &'a [u8],
) -> Message<'a>
    ensures { plain_of result ≡ part_message me part.request part.number (if is_last then SUCCESS else MORE) text.now }
{
    let result = if is_last {
        results::SUCCESS
    } else {
        results::MORE
    };
    let mut message = reply_message(
        me,
        part.request,
        Cmd::RLst,
        Reply {
            result,
            body: Body::Text(text),
        },
    );
    message.head.options = part.number;
    message
}

/// Returns the answer to a message, if this text and this part about a ticket were made for the answer.
pub(crate) fn answer<'a>(
    me: MemberId,
    message: &Message<'_>,
    text: &'a [u8],
    told: Option<Reply<'a>>,
) -> Option<Message<'a>>
    requires text { has_text (Text text.now) ≡ true }
    requires told { IfSome told (λ r. HasForm RTkt (content_of r.body)) }
    ensures form { IfSome result (λ m. HasForm m.head.cmd (content_of m.body)) }
    ensures reply { listed (option_map plain_of result) ≡ answered me message.now.head.request
        (answer_of message.now.head.cmd)
        (reply_with text.now (option_map reply_of told.entry) message.now.head.cmd
        (content_of message.now.body)) }
{
    let cmd = message.head.cmd.answer()?;
    let reply = body_for(message.head.cmd, &message.body, text, told)?;
    Some(reply_message(me, message.head.request, cmd, reply))
}

fn wish_of(cmd: Cmd) -> Option<Wish>
    ensures { result ≡ wish_of cmd }
{
    match cmd {
        Cmd::CGnt => Some(Wish::Grant),
        Cmd::CRvk => Some(Wish::Revoke),
        Cmd::CLst | Cmd::CTkt | Cmd::Peer => None,
        Cmd::ASet | Cmd::AGet | Cmd::ADel | Cmd::ALst => None,
        Cmd::RLst | Cmd::RTkt | Cmd::RPer | Cmd::RALs => None,
        Cmd::RGnt | Cmd::RRvk | Cmd::RAtr => None,
        Cmd::Stat | Cmd::MIdx | Cmd::RVot | Cmd::VtFr | Cmd::HrtB => None,
        Cmd::Ack | Cmd::UpdE | Cmd::Revk | Cmd::Rjc => None,
    }
}

/// Returns the request about a ticket in a client's message, if it has one, and the part that names the ticket.
pub(crate) fn request_in(from: Peer, message: &Message<'_>) -> Option<(TicketPart, Request)>
    ensures { result ≡ request_in from (plain_of message.now) }
{
    let wish = wish_of(message.head.cmd)?;
    let Body::Ticket(part) = &message.body else {
        return None;
    };
    let request = Request {
        wish,
        from,
        number: message.head.request,
        options: message.head.options,
    };
    Some((part.copy(), request))
}
