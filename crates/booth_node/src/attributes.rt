//! Clients' requests about the attributes of a ticket, their replies, and whether prerequisites hold.
ghost use Rattle.std.specs.Prelude.{◌≡◌, ◌<◌, true, length, option_map};
ghost use Rattle.booth_wire.specs.PlainMessage.{Attr, Text, content_of, has_text, plain_of};
ghost use Rattle.booth_node.specs.ReplyForms.{HasForm, reply_of};
ghost use Rattle.booth_node.specs.AttributeRequests.{after_wish, attended_place, attr_answer, attr_reply, attr_request_in, attr_request_of, attr_wish, del_result, get_reply, is_ready, named_pair, pairs_text, repeated, set_result};

use crate::NodeConfig;
use crate::opening::is_at_site;
use crate::replies::Reply;
use booth_attr::{Attrs, DelAnswer, Pair, SetAnswer};
use booth_base::{AttrValue, Name, TextBuf};
use booth_conf::GrantKind;
use booth_wire::{AttrPart, Body, Cmd, Head, Message, results};

/// A request about the attributes of a ticket.
#[derive(Drop)]
pub(crate) enum AttrWish {
    /// Set this name to this value.
    Set(Pair),
    /// Return the value of this name. If there is no such name, the reply repeats the client's value.
    Get(Pair),
    /// Delete this name.
    Delete(Pair),
    /// Return all names, with their values.
    List,
}

/// A client's request about the attributes of a ticket.
#[derive(Drop)]
pub(crate) struct AttrRequest {
    /// The name of the ticket.
    pub ticket: Name,
    /// The number that the answer repeats.
    pub number: u32,
    pub wish: AttrWish,
}

/// Returns whether the prerequisites for a grant of this kind hold, for the ticket with this index.
pub(crate) fn is_ready(node: &NodeConfig, attrs: &Attrs, place: u32, kind: GrantKind) -> bool
    requires { place < length attrs.now.lists }
    ensures { result ≡ is_ready node.now attrs.now place kind }
{
    match node.config.tickets().get(place as usize) {
        Some(ticket) => attrs.holds(place, ticket.prereqs.all(), kind),
        None => true,
    }
}

// Returns an attribute as a message names it.
fn pair_of(name: &Name, value: &AttrValue) -> Pair
    ensures { result ≡ record { name = name.now; value = value.now } }
{
    Pair {
        name: name.copy(),
        value: value.copy(),
    }
}

// Returns the request of a command, if it is about attributes.
fn attr_wish(cmd: Cmd, part: &AttrPart) -> Option<AttrWish>
    ensures { result ≡ attr_wish cmd part.now.name part.now.value }
{
    match cmd {
        Cmd::ASet => Some(AttrWish::Set(pair_of(part.name.as_ref()?, &part.value))),
        Cmd::AGet => Some(AttrWish::Get(pair_of(part.name.as_ref()?, &part.value))),
        Cmd::ADel => Some(AttrWish::Delete(pair_of(part.name.as_ref()?, &part.value))),
        Cmd::ALst => Some(AttrWish::List),
        Cmd::CLst | Cmd::CTkt | Cmd::Peer | Cmd::CGnt | Cmd::CRvk => None,
        Cmd::RLst | Cmd::RTkt | Cmd::RPer | Cmd::RALs => None,
        Cmd::RGnt | Cmd::RRvk | Cmd::RAtr => None,
        Cmd::Stat | Cmd::MIdx | Cmd::RVot | Cmd::VtFr | Cmd::HrtB => None,
        Cmd::Ack | Cmd::UpdE | Cmd::Revk | Cmd::Rjc => None,
    }
}

fn attr_request_of(head: &Head, part: &AttrPart) -> Option<AttrRequest>
    ensures { result ≡ attr_request_of head.now (Attr part.now) }
{
    let wish = attr_wish(head.cmd, part)?;
    Some(AttrRequest {
        ticket: part.ticket.copy(),
        number: head.request,
        wish,
    })
}

/// Returns the request in a client's message, if it is about attributes.
pub(crate) fn attr_request_in(message: &Message<'_>) -> Option<AttrRequest>
    ensures { result ≡ attr_request_in (plain_of message.now) }
{
    match &message.body {
        Body::Attr(part) => attr_request_of(&message.head, part),
        Body::Bare | Body::Ticket(_) | Body::Text(_) => None,
    }
}

/// Returns the place of the ticket with this name, if this member is a site.
pub(crate) fn attended_place(node: &NodeConfig, name: &Name) -> Option<usize>
    ensures place { result ≡ attended_place node.now name.now }
{
    if is_at_site(node) {
        node.config.ticket(name)
    } else {
        None
    }
}

/// Returns the command that answers a request.
pub(crate) fn answer_cmd(wish: &AttrWish) -> Cmd
    ensures { result ≡ attr_answer wish.now }
{
    match wish {
        AttrWish::Set(_) | AttrWish::Get(_) | AttrWish::Delete(_) => Cmd::RAtr,
        AttrWish::List => Cmd::RALs,
    }
}

/// Writes the text of the answer: the lines of a list, and no text for any other request.
pub(crate) fn write_pairs(attrs: &Attrs, place: u32, wish: &AttrWish, text: &mut TextBuf)
    requires { place < length attrs.now.lists }
    ensures { text.new ≡ pairs_text attrs.now place wish.now }
{
    text.clear();
    match wish {
        AttrWish::List => attrs.list(place, text),
        AttrWish::Set(_) | AttrWish::Get(_) | AttrWish::Delete(_) => {}
    }
}

// Returns the reply with this result that repeats the ticket, the name and the value.
fn repeated<'a>(result_code: u32, ticket: &Name, pair: &Pair) -> Reply<'a>
    ensures { reply_of result ≡ record { result = result_code; content = repeated ticket.now pair.now } }
{
    Reply {
        result: result_code,
        body: Body::Attr(AttrPart {
            ticket: ticket.copy(),
            name: Some(pair.name.copy()),
            value: pair.value.copy(),
        }),
    }
}

fn set_result(answer: SetAnswer) -> u32
    ensures { result ≡ set_result answer }
{
    match answer {
        SetAnswer::Done => results::SUCCESS,
        SetAnswer::Full => results::BUSY,
    }
}

fn del_result(answer: DelAnswer) -> u32
    ensures { result ≡ del_result answer }
{
    match answer {
        DelAnswer::Done => results::SUCCESS,
        DelAnswer::NoSuch => results::NATR,
    }
}

// Returns the reply to a request for the value of a name, whether the name exists or not.
fn get_reply<'a>(ticket: &Name, pair: &Pair, found: Option<&AttrValue>) -> Reply<'a>
    ensures { reply_of result ≡ get_reply ticket.now pair.now (option_map (λ v. v.now) found.entry) }
{
    match found {
        Some(value) => repeated(results::SUCCESS, ticket, &pair_of(&pair.name, value)),
        None => repeated(results::NATR, ticket, pair),
    }
}

/// Performs a client's request about the attributes of the ticket with this index, for which this text was made.
pub(crate) fn attend<'a>(
    attrs: &mut Attrs,
    place: u32,
    request: &AttrRequest,
    text: &'a [u8],
) -> Reply<'a>
    requires there { place < length attrs.old.lists }
    requires written { text.now ≡ pairs_text attrs.old place request.now.wish }
    requires text { has_text (Text text.now) ≡ true }
    ensures attributes { attrs.new ≡ after_wish attrs.old place request.now.wish }
    ensures lists { length attrs.new.lists ≡ length attrs.old.lists }
    ensures reply { reply_of result ≡ attr_reply attrs.old place request.now.ticket request.now.wish }
    ensures form { HasForm (attr_answer request.now.wish) (content_of result.body) }
{
    let ticket = &request.ticket;
    match &request.wish {
        AttrWish::Set(pair) => {
            let answer = attrs.set(place, &pair.name, &pair.value);
            repeated(set_result(answer), ticket, pair)
        }
        AttrWish::Get(pair) => get_reply(ticket, pair, attrs.get(place, &pair.name)),
        AttrWish::Delete(pair) => {
            let answer = attrs.delete(place, &pair.name);
            repeated(del_result(answer), ticket, pair)
        }
        AttrWish::List => Reply {
            result: results::SUCCESS,
            body: Body::Text(text),
        },
    }
}
