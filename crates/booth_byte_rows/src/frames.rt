//! Frames: their decoded fields, and their encodings.
use crate::told::{fault, shown, spelled};
use booth_rows::{Answer, Words};
use booth_wire::{AttrPart, Body, Cmd, Direction, Frame, Head, Kind, TicketPart, decode, encode};

fn kind_of(command: Cmd) -> &'static str {
    match command.kind() {
        Kind::Bare => "bare",
        Kind::Ticket => "ticket",
        Kind::Attr => "attribute",
        Kind::Text => "text",
    }
}

fn direction_of(command: Cmd) -> &'static str {
    match command.direction() {
        Direction::ToDaemon => "to-daemon",
        Direction::ToClient => "to-client",
        Direction::BetweenMembers => "between-members",
    }
}

/// Plays `command CODE`: its name, its code, its body, its sender and receiver, and the command that answers it.
pub(crate) fn command(words: &mut Words<'_>, answer: &mut Answer) {
    let Some(command) = Cmd::from_code(words.number()) else {
        answer.word("none");
        return answer.end();
    };
    shown(answer, "command", &command);
    answer.small(command.code());
    answer.word(kind_of(command));
    answer.word(direction_of(command));
    answer.end();
    shown(answer, "answer", &command.answer());
}

fn head(answer: &mut Answer, head: &Head) {
    shown(answer, "command", &head.cmd);
    answer.flag(head.auth);
    answer.small(head.secs);
    answer.small(head.usecs);
    answer.small(head.from.0);
    answer.small(head.request);
    answer.small(head.options);
    answer.small(head.reason);
    answer.small(head.result);
    answer.end();
}

fn ticket(answer: &mut Answer, part: &TicketPart) {
    answer.word("ticket");
    answer.bytes(part.ticket.bytes());
    answer.small(part.leader.0);
    answer.small(part.term);
    answer.small(part.valid_for);
    answer.end();
}

fn attribute(answer: &mut Answer, part: &AttrPart) {
    answer.word("attribute");
    answer.bytes(part.ticket.bytes());
    match &part.name {
        Some(name) => answer.bytes(name.bytes()),
        None => answer.word("-"),
    }
    answer.bytes(part.value.bytes());
    answer.end();
}

fn body(answer: &mut Answer, body: &Body<'_>) {
    match body {
        Body::Bare => spelled(answer, "bare", &[]),
        Body::Ticket(part) => ticket(answer, part),
        Body::Attr(part) => attribute(answer, part),
        Body::Text(text) => spelled(answer, "text", text),
    }
}

/// Plays `frame BYTES`: the fields of its head, those of its body, and the encoding of both, or its fault.
pub(crate) fn frame(words: &mut Words<'_>, into: &mut Frame, answer: &mut Answer) {
    match decode(&words.bytes()) {
        Ok(message) => {
            encode(&message, into);
            head(answer, &message.head);
            body(answer, &message.body);
            spelled(answer, "spelled", into.bytes());
        }
        Err(found) => fault(answer, &found),
    }
}

/// Plays `signed ID HASH FRAME`: the encoding of the frame's contents with this authentication part.
pub(crate) fn signed(words: &mut Words<'_>, into: &mut Frame, answer: &mut Answer) {
    let id = words.number();
    let (hash, frame) = (words.bytes(), words.bytes());
    match decode(&frame) {
        Ok(message) if message.head.auth && hash.len() == 24 => {
            let mut part = [0; 24];
            part.copy_from_slice(&hash);
            encode(&message, into);
            into.set_auth(id, &part);
            spelled(answer, "spelled", into.bytes());
        }
        _ => words.refuse(),
    }
}
