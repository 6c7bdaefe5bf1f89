//! The calls in a host's log, as lines.
use crate::answers::{put_arrival, put_done, put_kept, put_locked};
use crate::peers::{put_address, put_peer};
use crate::records::put_record;
use booth_host::{Entry, Failed};
use booth_rows::Answer;

// Appends a name, whose bytes are letters, digits and signs.
fn put_name(answer: &mut Answer, name: &[u8]) {
    answer.word(str::from_utf8(name).unwrap_or("?"));
}

// Appends a call before the first turn.
fn put_beginning(answer: &mut Answer, entry: &Entry) {
    match entry {
        Entry::ReadFile { path, answer: done } => {
            answer.word("read");
            answer.bytes(path.bytes());
            answer.word(if done.is_ok() { "ok" } else { "failed" });
        }
        Entry::Lock { path, answer: done } => {
            answer.word("lock");
            answer.bytes(path.bytes());
            put_locked(answer, *done);
        }
        Entry::Open {
            local,
            port,
            records,
            conf_path,
            answer: done,
        } => {
            answer.word("open");
            match local {
                Some(address) => put_address(answer, address),
                None => answer.word("-"),
            }
            answer.number(u64::from(*port));
            answer.bytes(records.bytes());
            answer.bytes(conf_path.bytes());
            put_done(answer, *done);
        }
        _ => answer.word("unknown"),
    }
}

// Appends a call of a ticket's record or handler.
fn put_ticket(answer: &mut Answer, entry: &Entry) {
    match entry {
        Entry::Kept {
            ticket,
            answer: kept,
        } => {
            answer.word("kept");
            put_name(answer, ticket.bytes());
            put_kept(answer, *kept);
        }
        Entry::Keep {
            ticket,
            record,
            answer: done,
        } => {
            answer.word("keep");
            put_name(answer, ticket.bytes());
            put_record(answer, record);
            put_done(answer, *done);
        }
        Entry::Start {
            number,
            ticket,
            handler,
            local,
            expires,
            answer: done,
        } => {
            answer.word("start");
            answer.number(*number);
            put_name(answer, ticket.bytes());
            answer.bytes(handler.bytes());
            put_address(answer, local);
            answer.number(*expires);
            put_done(answer, *done);
        }
        _ => put_beginning(answer, entry),
    }
}

// Appends bytes that were printed.
fn put_printed(answer: &mut Answer, word: &str, bytes: &[u8], done: Result<(), Failed>) {
    answer.word(word);
    answer.bytes(bytes);
    put_done(answer, done);
}

/// Appends the line of a call.
pub fn put_call(answer: &mut Answer, entry: &Entry) {
    match entry {
        Entry::Now { reading } => {
            answer.word("now");
            answer.number(*reading);
        }
        Entry::Next {
            wait_ms,
            answer: arrival,
            bytes,
        } => {
            answer.word("next");
            answer.number(*wait_ms);
            put_arrival(answer, *arrival, bytes.bytes());
        }
        Entry::Send {
            to,
            bytes,
            answer: done,
        } => {
            answer.word("send");
            put_peer(answer, to);
            answer.bytes(bytes.bytes());
            put_done(answer, *done);
        }
        Entry::Out {
            bytes,
            answer: done,
        } => put_printed(answer, "out", bytes.bytes(), *done),
        Entry::Err {
            bytes,
            answer: done,
        } => put_printed(answer, "err", bytes.bytes(), *done),
        _ => put_ticket(answer, entry),
    }
    answer.end();
}

/// Appends the calls in a host's log, or `untold` if the host has no log.
pub fn put_past(answer: &mut Answer, past: Option<&[Entry]>) {
    let Some(calls) = past else {
        answer.word("untold");
        return answer.end();
    };
    for call in calls {
        put_call(answer, call);
    }
}
