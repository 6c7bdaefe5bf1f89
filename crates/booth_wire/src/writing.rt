//! From a message to bytes.
ghost use Rattle.std.specs.Prelude.{◌≡◌, ◌≤◌, ◌<◌, ◌+◌, ◌^◌, ◌++◌, [], length, unwrap_or, IfSome, true};
ghost use Rattle.booth_base.specs.Name.{is_name};
ghost use Rattle.booth_wire.specs.declared.frame.TheConstants.{FRAME_BYTES};
ghost use Rattle.booth_wire.specs.Command.{kind_of};
ghost use Rattle.booth_wire.specs.PlainMessage.{Ticket, Attr, plain_of, content_of, kind_in, is_named, has_text};
ghost use Rattle.booth_wire.specs.Layout.{auth_len, word, padded_to};
ghost use Rattle.booth_wire.specs.Spelling.{HeadFits, TicketFits, AttrFits, PartFits, Fits, header, body, body_len, frame_len, blank_auth, spelling, HasAuth};

use crate::frame::Frame;
use crate::layout::{
    ATTR_BYTES, HEADER_BYTES, MAGIC, NAME_BYTES, TICKET_BYTES, VALUE_BYTES, VERSION, auth_len,
    opts_of,
};
use crate::message::{AttrPart, Body, Head, Message, TicketPart};
use booth_base::Name;

#[tactic(auto, unfolding(crate::specs::Layout::word))]
fn put_word(into: &mut Frame, n: u32)
    requires { length into.old + 4 ≤ FRAME_BYTES }
    ensures bytes { into.new ≡ into.old ++ word n }
    ensures len { length into.new ≡ length into.old + 4 }
    ensures fits { n < 2 ^ 32 }
{
    into.put(&n.to_be_bytes());
}

#[tactic(auto, unfolding(crate::specs::Layout::padded_to))]
fn put_padded(into: &mut Frame, text: &[u8], size: usize)
    requires room { length into.old + size ≤ FRAME_BYTES }
    requires within { length text.now ≤ size }
    ensures bytes { into.new ≡ into.old ++ padded_to size text.now }
    ensures len { length into.new ≡ length into.old + size }
{
    into.put(text);
    into.put_zeros(size - text.len());
}

#[tactic(auto, unfolding(crate::specs::Spelling::header))]
fn put_header(into: &mut Frame, head: &Head, size: u32)
    requires { into.old ≡ [] }
    ensures bytes { into.new ≡ header head.now size }
    ensures len { length into.new ≡ 48 }
    ensures fits { HeadFits head.now }
{
    put_word(into, opts_of(head.auth, head.cmd.kind()));
    put_word(into, head.secs);
    put_word(into, head.usecs);
    put_word(into, MAGIC);
    put_word(into, VERSION);
    put_word(into, head.from.0);
    put_word(into, size);
    put_word(into, head.cmd.code());
    put_word(into, head.request);
    put_word(into, head.options);
    put_word(into, head.reason);
    put_word(into, head.result);
}

fn put_ticket(into: &mut Frame, part: &TicketPart)
    requires { length into.old + 76 ≤ FRAME_BYTES }
    ensures bytes { into.new ≡ into.old ++ body (Ticket part.now) }
    ensures len { length into.new ≡ length into.old + 76 }
    ensures fits { TicketFits part.now }
{
    put_padded(into, part.ticket.bytes(), NAME_BYTES);
    put_word(into, part.leader.0);
    put_word(into, part.term);
    put_word(into, part.valid_for);
}

#[tactic(auto, unfolding(crate::specs::Layout::padded_to))]
fn put_name(into: &mut Frame, name: &Option<Name>)
    requires { length into.old + 64 ≤ FRAME_BYTES }
    ensures bytes { into.new ≡ into.old ++ padded_to 64 (unwrap_or name.now []) }
    ensures len { length into.new ≡ length into.old + 64 }
    ensures fits { IfSome name.now (λ text. is_name text ≡ true) }
{
    match name {
        None => into.put_zeros(NAME_BYTES),
        Some(name) => put_padded(into, name.bytes(), NAME_BYTES),
    }
}

fn put_attr(into: &mut Frame, part: &AttrPart)
    requires { length into.old + 256 ≤ FRAME_BYTES }
    ensures bytes { into.new ≡ into.old ++ body (Attr part.now) }
    ensures len { length into.new ≡ length into.old + 256 }
    ensures fits { AttrFits part.now }
{
    put_padded(into, part.ticket.bytes(), NAME_BYTES);
    put_name(into, &part.name);
    put_padded(into, part.value.bytes(), VALUE_BYTES);
}

fn body_len(body: &Body<'_>) -> usize
    ensures { result ≡ body_len (content_of body.now) }
{
    match body {
        Body::Bare => 0,
        Body::Ticket(_) => TICKET_BYTES,
        Body::Attr(_) => ATTR_BYTES,
        Body::Text(text) => text.len(),
    }
}

fn put_body(into: &mut Frame, inner: &Body<'_>)
    requires { length into.old + body_len (content_of inner.now) ≤ FRAME_BYTES }
    ensures bytes { into.new ≡ into.old ++ body (content_of inner.now) }
    ensures len { length into.new ≡ length into.old + body_len (content_of inner.now) }
    ensures fits { PartFits (content_of inner.now) }
{
    match inner {
        Body::Bare => {}
        Body::Ticket(part) => put_ticket(into, part),
        Body::Attr(part) => put_attr(into, part),
        Body::Text(text) => into.put(text),
    }
}

#[tactic(auto, unfolding(crate::specs::Spelling::blank_auth))]
fn put_auth(into: &mut Frame, auth: bool)
    requires { length into.old + auth_len auth ≤ FRAME_BYTES }
    ensures bytes { into.new ≡ into.old ++ blank_auth auth }
    ensures len { length into.new ≡ length into.old + auth_len auth }
{
    if auth {
        put_word(into, 2);
        into.put_zeros(24);
    }
}

fn put_frame(into: &mut Frame, message: &Message<'_>)
    requires { has_text (content_of message.now.body) ≡ true }
    ensures bytes { into.new ≡ spelling (plain_of message.now) }
    ensures len { length into.new ≡ frame_len (plain_of message.now) }
    ensures head { HeadFits message.now.head }
    ensures part { PartFits (content_of message.now.body) }
{
    let size = HEADER_BYTES + body_len(&message.body) + auth_len(message.head.auth);
    into.clear();
    put_header(into, &message.head, size as u32);
    put_body(into, &message.body);
    put_auth(into, message.head.auth);
}

/// Writes the message as a frame. If `auth` is true, the frame ends with an authentication part of 28 bytes that is
/// not signed yet: the number 2 and 24 zeros.
pub fn encode(message: &Message<'_>, into: &mut Frame)
    requires kind { kind_in (content_of message.now.body) ≡ kind_of message.now.head.cmd }
    requires named { is_named message.now.head.cmd (content_of message.now.body) ≡ true }
    requires text { has_text (content_of message.now.body) ≡ true }
    ensures bytes { into.new ≡ spelling (plain_of message.now) }
    ensures len { length into.new ≡ frame_len (plain_of message.now) }
    ensures fits { Fits (plain_of message.now) }
    ensures auth { message.now.head.auth ≡ true → HasAuth into.new }
{
    put_frame(into, message);
}
