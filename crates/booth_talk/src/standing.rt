//! The printed state of a ticket: a line of text, or a JSON object on a line.
ghost use Rattle.std.specs.Prelude.{◌≡◌, ◌++◌, codes, decimal, flat_map, option_copied, option_map, unwrap_or, IfOk, OnOk};
ghost use Rattle.std.specs.List.{find};
ghost use Rattle.booth_conf.specs.Config.{has_id};
ghost use Rattle.booth_wire.specs.PlainMessage.{content_of};
ghost use Rattle.booth_talk.specs.Standing.{escaped_byte, holder_in, labelled_number, line_text, member_text, number_or_null, object_text, seconds_in, standing_text, string_or_null, string_text, term_in, ticket_text};

use crate::order::Style;
use arrayvec::ArrayString;
use booth_base::{ByteText, MemberId, NO_ONE};
use booth_conf::{Config, Member};
use booth_wire::{Body, TicketPart};
use itoa::Buffer;
use std::alloc::{AllocError, Global};

/// The seconds of a lease without an end, in messages.
const ENDLESS: u32 = u32::MAX;

// ---- the state in the reply

fn find_member(config: &Config, id: MemberId) -> Option<&Member>
    ensures { option_copied result ≡ find (has_id id) config.now.members }
{
    let members = config.members();
    members.iter().find(|member| member.id.0 == id.0)
}

fn unknown() -> ArrayString<39>
    ensures { result.bytes ≡ codes "unknown" }
{
    let mut text = ArrayString::new();
    text.push_str("unknown");
    text
}

fn member_text(member: Option<&Member>) -> ArrayString<39>
    ensures { result.bytes ≡ member_text (option_copied member.entry) }
{
    match member {
        Some(member) => member.address.print(),
        None => unknown(),
    }
}

fn holder_in(config: &Config, id: MemberId) -> Option<ArrayString<39>>
    ensures { option_map (λ t. t.bytes) result ≡ holder_in config.now id }
{
    if id.0 == NO_ONE.0 {
        return None;
    }
    Some(member_text(find_member(config, id)))
}

fn term_in(term: u32) -> Option<u32>
    ensures { result ≡ term_in term }
{
    if term == 0 { None } else { Some(term) }
}

fn seconds_in(seconds: u32) -> Option<u32>
    ensures { result ≡ seconds_in seconds }
{
    if seconds == 0 || seconds == ENDLESS {
        None
    } else {
        Some(seconds)
    }
}

// ---- pieces

fn put(text: &mut Vec<u8>, piece: &[u8]) -> Result<(), AllocError>
    ensures { OnOk result (text.new.items ≡ text.old.items ++ piece.now) }
{
    text.extend_from_slice(piece)
}

fn put_number(text: &mut Vec<u8>, number: u32) -> Result<(), AllocError>
    ensures { OnOk result (text.new.items ≡ text.old.items ++ decimal number) }
{
    let mut digits = Buffer::new();
    put(text, digits.format(number).as_bytes())
}

// ---- a line of text

// Appends a number after its label, if there is a number.
fn put_labelled(text: &mut Vec<u8>, label: &str, number: Option<u32>) -> Result<(), AllocError>
    ensures { OnOk result (text.new.items ≡ text.old.items ++ labelled_number label.now number) }
{
    let Some(number) = number else {
        return Ok(());
    };
    put(text, label.as_bytes())?;
    put_number(text, number)
}

// Appends the holder's text, or `none` if no site holds the ticket.
fn put_holder(text: &mut Vec<u8>, holder: Option<ArrayString<39>>) -> Result<(), AllocError>
    ensures { OnOk result (text.new.items
        ≡ text.old.items ++ unwrap_or (option_map (λ t. t.bytes) holder) (codes "none")) }
{
    match holder {
        Some(holder) => put(text, holder.as_bytes()),
        None => put(text, b"none"),
    }
}

fn line_of(alloc: Global, config: &Config, part: &TicketPart) -> Result<ByteText, AllocError>
    ensures { IfOk result (λ text. text ≡ line_text config.now part.now) }
{
    let mut text = Vec::new(alloc);
    put(&mut text, b"ticket: ")?;
    put(&mut text, part.ticket.bytes())?;
    put(&mut text, b", holder: ")?;
    put_holder(&mut text, holder_in(config, part.leader))?;
    put_labelled(&mut text, ", term: ", term_in(part.term))?;
    put_labelled(&mut text, ", seconds left: ", seconds_in(part.valid_for))?;
    put(&mut text, b"\n")?;
    Ok(ByteText::from_vec(text))
}

// ---- an object

fn put_byte(text: &mut Vec<u8>, byte: u8) -> Result<(), AllocError>
    ensures { OnOk result (text.new.items ≡ text.old.items ++ escaped_byte byte) }
{
    if byte == b'"' || byte == b'\\' {
        text.push(b'\\')?;
    }
    text.push(byte)?;
    Ok(())
}

fn put_escaped(text: &mut Vec<u8>, bytes: &[u8]) -> Result<(), AllocError>
    ensures { OnOk result (text.new.items ≡ text.old.items ++ flat_map escaped_byte bytes.now) }
{
    for byte in bytes {
        put_byte(text, *byte)?;
    }
    Ok(())
}

fn put_string(text: &mut Vec<u8>, bytes: &[u8]) -> Result<(), AllocError>
    ensures { OnOk result (text.new.items ≡ text.old.items ++ string_text bytes.now) }
{
    put(text, b"\"")?;
    put_escaped(text, bytes)?;
    put(text, b"\"")
}

fn put_string_or_null(text: &mut Vec<u8>, string: Option<ArrayString<39>>) -> Result<(), AllocError>
    ensures { OnOk result (text.new.items
        ≡ text.old.items ++ string_or_null (option_map (λ t. t.bytes) string)) }
{
    match string {
        Some(string) => put_string(text, string.as_bytes()),
        None => put(text, b"null"),
    }
}

fn put_number_or_null(text: &mut Vec<u8>, number: Option<u32>) -> Result<(), AllocError>
    ensures { OnOk result (text.new.items ≡ text.old.items ++ number_or_null number) }
{
    match number {
        Some(number) => put_number(text, number),
        None => put(text, b"null"),
    }
}

fn object_of(alloc: Global, config: &Config, part: &TicketPart) -> Result<ByteText, AllocError>
    ensures { IfOk result (λ text. text ≡ object_text config.now part.now) }
{
    let mut text = Vec::new(alloc);
    put(&mut text, b"{\"ticket\":")?;
    put_string(&mut text, part.ticket.bytes())?;
    put(&mut text, b",\"holder\":")?;
    put_string_or_null(&mut text, holder_in(config, part.leader))?;
    put(&mut text, b",\"term\":")?;
    put_number_or_null(&mut text, term_in(part.term))?;
    put(&mut text, b",\"seconds_left\":")?;
    put_number_or_null(&mut text, seconds_in(part.valid_for))?;
    put(&mut text, b"}\n")?;
    Ok(ByteText::from_vec(text))
}

// ---- the output for a reply

fn ticket_report(
    alloc: Global,
    style: Style,
    config: &Config,
    part: &TicketPart,
) -> Result<ByteText, AllocError>
    ensures { IfOk result (λ text. text ≡ ticket_text style config.now part.now) }
{
    match style {
        Style::Line => line_of(alloc, config, part),
        Style::Json => object_of(alloc, config, part),
    }
}

/// Returns the output for a reply with the state of a ticket, in this style. A reply without a ticket has no text.
pub(crate) fn standing_report(
    alloc: Global,
    style: Style,
    config: &Config,
    body: &Body<'_>,
) -> Result<ByteText, AllocError>
    ensures { IfOk result (λ text. text ≡ standing_text style config.now (content_of body.now)) }
{
    match body {
        Body::Ticket(part) => ticket_report(alloc, style, config, part),
        Body::Bare | Body::Attr(_) | Body::Text(_) => ByteText::new(alloc, b""),
    }
}
