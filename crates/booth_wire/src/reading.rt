//! From bytes to a message.
ghost use Rattle.std.specs.Prelude.{◌≡◌, ◌≤◌, ◌+◌, ◌==◌, length, not, option_map, Some, None, if◌then◌else◌, IsTrue, IsOk, IfOk, Ok, Err, MatchResult};
ghost use Rattle.std.specs.List.{list_all, prefix_len};
ghost use Rattle.booth_base.specs.Name.{is_line_byte};
ghost use Rattle.booth_wire.specs.Command.{kind_of};
ghost use Rattle.booth_wire.specs.PlainMessage.{PlainMessage, plain_of, names_none};
ghost use Rattle.booth_wire.specs.Layout.{word_at, auth_len};
ghost use Rattle.booth_wire.specs.Reading.{text_of, are_zeros, is_padded, name_in, value_in, auth_in, head_at, head_read, has_size, body_read, attr_name_in, ticket_in, attr_in, text_in, content_in, decoded, Gives, GivesContent};
ghost use Rattle.booth_wire.specs.Spelling.{Fits, frame_len, Spells};

use crate::command::{Cmd, Kind};
use crate::frame::FRAME_BYTES;
use crate::layout::{ATTR_BYTES, HEADER_BYTES, MAGIC, TICKET_BYTES, VERSION, auth_len, opts_of};
use crate::message::{AttrPart, Body, FrameFault, Head, Message, TicketPart};
use booth_base::{AttrValue, MemberId, Name, TEXT_BYTES};

fn word_at(bytes: &[u8], at: usize) -> u32
    requires { at + 4 ≤ length bytes.now }
    ensures { result ≡ word_at at bytes.now }
{
    u32::from_be_bytes([bytes[at], bytes[at + 1], bytes[at + 2], bytes[at + 3]])
}

fn are_zeros(bytes: &[u8]) -> bool
    ensures { result ≡ are_zeros bytes.now }
{
    bytes.iter().all(|b| *b == 0)
}

// Returns the number of bytes before the first zero.
fn text_len(field: &[u8]) -> usize
    ensures value { result ≡ prefix_len (λ b. not (b == 0)) field.now }
    ensures within { result ≤ length field.now }
{
    field.iter().take_while(|b| **b != 0).count()
}

// Returns the text of a field that is padded with zeros.
fn padded(field: &[u8]) -> Option<&[u8]>
    ensures { option_map (λ t. t.now) result ≡
        (if is_padded field.now then Some (text_of field.now) else None) }
{
    let (text, zeros) = field.split_at(text_len(field));
    if are_zeros(zeros) { Some(text) } else { None }
}

fn name_in(field: &[u8]) -> Option<Name>
    ensures { result ≡ name_in field.now }
{
    Name::read(padded(field)?).ok()
}

fn value_in(field: &[u8]) -> Option<AttrValue>
    ensures { result ≡ value_in field.now }
{
    AttrValue::read(padded(field)?).ok()
}

// Returns whether AUTH is set in the opts, if these are the opts of a command with this kind of body.
fn auth_in(kind: Kind, opts: u32) -> Option<bool>
    ensures { result ≡ auth_in kind opts }
{
    if opts == opts_of(false, kind) {
        Some(false)
    } else if opts == opts_of(true, kind) {
        Some(true)
    } else {
        None
    }
}

fn has_size(kind: Kind, size: usize) -> bool
    ensures { result ≡ has_size kind size }
{
    match kind {
        Kind::Bare => size == 0,
        Kind::Ticket => size == TICKET_BYTES,
        Kind::Attr => size == ATTR_BYTES,
        Kind::Text => size <= TEXT_BYTES,
    }
}

fn head_at(auth: bool, cmd: Cmd, bytes: &[u8]) -> Head
    requires { 48 ≤ length bytes.now }
    ensures { result ≡ head_at auth cmd bytes.now }
{
    Head {
        auth,
        secs: word_at(bytes, 4),
        usecs: word_at(bytes, 8),
        from: MemberId(word_at(bytes, 20)),
        cmd,
        request: word_at(bytes, 32),
        options: word_at(bytes, 36),
        reason: word_at(bytes, 40),
        result: word_at(bytes, 44),
    }
}

fn read_head(bytes: &[u8]) -> Result<Head, FrameFault>
    ensures value { result ≡ head_read bytes.now }
    ensures long { IsOk result → 48 ≤ length bytes.now }
{
    if bytes.len() < HEADER_BYTES {
        return Err(FrameFault::Short);
    }
    if word_at(bytes, 12) != MAGIC {
        return Err(FrameFault::Magic);
    }
    if word_at(bytes, 16) != VERSION {
        return Err(FrameFault::Version);
    }
    if word_at(bytes, 24) as usize != bytes.len() || bytes.len() > FRAME_BYTES {
        return Err(FrameFault::Length);
    }
    let cmd = Cmd::from_code(word_at(bytes, 28)).ok_or(FrameFault::Command)?;
    let auth = auth_in(cmd.kind(), word_at(bytes, 0)).ok_or(FrameFault::Command)?;
    Ok(head_at(auth, cmd, bytes))
}

// Returns the bytes between the header and the authentication part.
fn read_body<'a>(head: &Head, bytes: &'a [u8]) -> Result<&'a [u8], FrameFault>
    ensures value { MatchResult result (λ inner. body_read head.now bytes.now ≡ Ok inner.now)
        (λ fault. body_read head.now bytes.now ≡ Err fault) }
    ensures size { IfOk result (λ inner. IsTrue (has_size (kind_of head.now.cmd) (length inner.now))) }
{
    let around = HEADER_BYTES + auth_len(head.auth);
    if bytes.len() < around {
        return Err(FrameFault::Size);
    }
    let size = bytes.len() - around;
    if !has_size(head.cmd.kind(), size) {
        return Err(FrameFault::Size);
    }
    Ok(&bytes[HEADER_BYTES..HEADER_BYTES + size])
}

fn read_ticket(bytes: &[u8]) -> Option<Body<'_>>
    requires { length bytes.now ≡ 76 }
    ensures { GivesContent result (ticket_in bytes.now) }
{
    let ticket = name_in(&bytes[0..64])?;
    Some(Body::Ticket(TicketPart {
        ticket,
        leader: MemberId(word_at(bytes, 64)),
        term: word_at(bytes, 68),
        valid_for: word_at(bytes, 72),
    }))
}

// Returns whether the command requests a list of attributes, and so names none.
fn names_none(cmd: Cmd) -> bool
    ensures { result ≡ names_none cmd }
{
    cmd == Cmd::ALst
}

fn attr_name_in(cmd: Cmd, field: &[u8]) -> Option<Option<Name>>
    ensures { result ≡ attr_name_in cmd field.now }
{
    if !names_none(cmd) {
        return Some(Some(name_in(field)?));
    }
    if are_zeros(field) { Some(None) } else { None }
}

fn read_attr(cmd: Cmd, bytes: &[u8]) -> Option<Body<'_>>
    requires { length bytes.now ≡ 256 }
    ensures { GivesContent result (attr_in cmd bytes.now) }
{
    let ticket = name_in(&bytes[0..64])?;
    let name = attr_name_in(cmd, &bytes[64..128])?;
    let value = value_in(&bytes[128..256])?;
    Some(Body::Attr(AttrPart {
        ticket,
        name,
        value,
    }))
}

fn are_line_bytes(bytes: &[u8]) -> bool
    ensures { result ≡ list_all is_line_byte bytes.now }
{
    bytes
        .iter()
        .all(|b| (0x20..=0x7E).contains(b) || *b == b'\n')
}

fn read_text(bytes: &[u8]) -> Option<Body<'_>>
    ensures { GivesContent result (text_in bytes.now) }
{
    if are_line_bytes(bytes) {
        Some(Body::Text(bytes))
    } else {
        None
    }
}

fn read_content(cmd: Cmd, bytes: &[u8]) -> Option<Body<'_>>
    requires { IsTrue (has_size (kind_of cmd) (length bytes.now)) }
    ensures { GivesContent result (content_in cmd (kind_of cmd) bytes.now) }
{
    match cmd.kind() {
        Kind::Bare => Some(Body::Bare),
        Kind::Ticket => read_ticket(bytes),
        Kind::Attr => read_attr(cmd, bytes),
        Kind::Text => read_text(bytes),
    }
}

// Returns the message whose head these bytes begin with.
fn read_behind(head: Head, bytes: &[u8]) -> Result<Message<'_>, FrameFault>
    requires { head_read bytes.now ≡ Ok head }
    ensures { Gives result (decoded bytes.now) }
{
    let inner = read_body(&head, bytes)?;
    let body = read_content(head.cmd, inner).ok_or(FrameFault::Name)?;
    Ok(Message { head, body })
}

/// Returns the message that a frame spells. It does not check the authentication part.
///
/// # Errors
///
/// The first fault, in the order of `FrameFault`.
pub fn decode(bytes: &[u8]) -> Result<Message<'_>, FrameFault>
    // The bytes spell the message that is returned.
    ensures found { IfOk result (λ m. Spells bytes.now (plain_of m)) }
    ensures fits { IfOk result (λ m. Fits (plain_of m)) }
    ensures len { IfOk result (λ m. length bytes.now ≡ frame_len (plain_of m)) }

    // Each message that the bytes spell is returned.
    ensures only { (l : PlainMessage) → Fits l → Spells bytes.now l → Gives result (Ok l) }

    // Which fault is returned.
    ensures exact { Gives result (decoded bytes.now) }
{
    // (a message is large, and most faults are those of a head)
    match read_head(bytes) {
        Ok(head) => read_behind(head, bytes),
        Err(fault) => Err(fault),
    }
}
