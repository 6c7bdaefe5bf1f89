//! The output for a reply.
ghost use Rattle.std.specs.Prelude.{◌≡◌, ◌++◌, ℕ, List, codes, IfOk, MatchOption};
ghost use Rattle.booth_wire.specs.PlainMessage.{content_of, plain_of};
ghost use Rattle.booth_talk.specs.Replies.{text_in};
ghost use Rattle.booth_talk.specs.Talk.{IsReplyIn};
ghost use Rattle.booth_talk.specs.Report.{IsListReport, IsReport, IsReportOf, IsShown, grant_text, revoke_text, ticket_in, value_in};

use crate::lines::{Form, shown_lines};
use crate::reply::text_in;
use crate::standing::standing_report;
use crate::{Asking, Order, Reply};
use booth_base::ByteText;
use booth_wire::{Body, Message, decode, results};
use std::alloc::{AllocError, Global};

fn ticket_in<'m>(body: &'m Body<'_>) -> &'m [u8]
    ensures { result.now ≡ ticket_in (content_of body.now) }
{
    match body {
        Body::Ticket(part) => part.ticket.bytes(),
        Body::Bare | Body::Attr(_) | Body::Text(_) => &[],
    }
}

fn value_in<'m>(body: &'m Body<'_>) -> &'m [u8]
    ensures { result.now ≡ value_in (content_of body.now) }
{
    match body {
        Body::Attr(part) => part.value.bytes(),
        Body::Bare | Body::Ticket(_) | Body::Text(_) => &[],
    }
}

// Returns a text without the line feed at its end, or `None` if it has none there.
fn body_in(text: &[u8]) -> Option<&[u8]>
    ensures { MatchOption result ((body : List ℕ) → text.now ≡ body ++ codes "\n" → ⊥)
        (λ body. text.now ≡ body.now ++ codes "\n") }
{
    match text {
        [body @ .., b'\n'] => Some(body),
        _ => None,
    }
}

// Returns a text with this form line by line, and any other text unchanged.
fn shown(alloc: Global, form: Form, text: &[u8]) -> Result<ByteText, AllocError>
    ensures { IfOk result (λ report. IsShown form text.now report) }
{
    let Some(body) = body_in(text) else {
        return ByteText::new(alloc, text);
    };
    match shown_lines(alloc, form, body)? {
        Some(shown) => Ok(ByteText::from_vec(shown)),
        None => ByteText::new(alloc, text),
    }
}

// Returns three texts joined.
fn joined(alloc: Global, before: &str, ticket: &[u8], behind: &str) -> Result<ByteText, AllocError>
    ensures { IfOk result (λ text. text ≡ before.now ++ ticket.now ++ behind.now) }
{
    let mut text = before.as_bytes().to_vec(alloc)?;
    text.extend_from_slice(ticket)?;
    text.extend_from_slice(behind.as_bytes())?;
    Ok(ByteText::from_vec(text))
}

fn grant_text(alloc: Global, code: u32, ticket: &[u8]) -> Result<ByteText, AllocError>
    ensures { IfOk result (λ text. text ≡ grant_text code ticket.now) }
{
    if code == results::ASYN {
        joined(alloc, "grant of ", ticket, " requested\n")
    } else {
        joined(alloc, "ticket ", ticket, " granted\n")
    }
}

fn revoke_text(alloc: Global, code: u32, ticket: &[u8]) -> Result<ByteText, AllocError>
    ensures { IfOk result (λ text. text ≡ revoke_text code ticket.now) }
{
    if code == results::ASYN {
        joined(alloc, "revoke of ", ticket, " requested\n")
    } else {
        joined(alloc, "ticket ", ticket, " revoked\n")
    }
}

/// Returns the output for a list with this text: line by line, with dates. A text that is not a list is unchanged.
pub(crate) fn list_report(alloc: Global, text: &[u8]) -> Result<ByteText, AllocError>
    ensures { IfOk result (λ report. IsListReport text.now report) }
{
    shown(alloc, Form::List, text)
}

/// Returns the output for a good reply, which states that the request was done or begun.
///
/// A list of tickets or members is printed line by line, with dates. A text that is not such a list is printed
/// unchanged, and so is a list of attributes. A value is a line, and so is the state of a ticket. After an attribute
/// was set or deleted, the output is empty.
pub fn report(alloc: Global, asking: &Asking, reply: &Message<'_>) -> Result<ByteText, AllocError>
    ensures { IfOk result (λ report. IsReport asking.now (plain_of reply.now) report) }
{
    match &asking.order {
        Order::List => list_report(alloc, text_in(&reply.body)),
        Order::Show(_, style) => standing_report(alloc, *style, &asking.config, &reply.body),
        Order::Status => ByteText::new(alloc, b"booth daemon is running\n"),
        Order::Peers => shown(alloc, Form::Peers, text_in(&reply.body)),
        Order::Grant(_, _) => grant_text(alloc, reply.head.result, ticket_in(&reply.body)),
        Order::Revoke(_, _) => revoke_text(alloc, reply.head.result, ticket_in(&reply.body)),
        Order::SetAttribute { .. } | Order::DeleteAttribute { .. } => ByteText::new(alloc, b""),
        Order::GetAttribute { .. } => joined(alloc, "", value_in(&reply.body), "\n"),
        Order::ListAttributes(_) => ByteText::new(alloc, text_in(&reply.body)),
    }
}

/// Returns the output for the last reply, which has these bytes.
pub fn report_of(
    alloc: Global,
    asking: &Asking,
    reply: &Reply,
    bytes: &[u8],
) -> Result<ByteText, AllocError>
    requires { IsReplyIn asking.now reply.now bytes.now }
    ensures { IfOk result (λ report. IsReportOf asking.now bytes.now report) }
{
    match decode(bytes) {
        Ok(message) => report(alloc, asking, &message),
        Err(_) => unreachable!(),
    }
}
