//! Names, values, addresses, paths and times, and the encodings of frames and records.
use crate::frames::{command, frame, signed};
use crate::told::{LONGEST_MS, fault, shown, spelled};
use booth_base::{
    Address, AttrValue, ByteText, MEMBERS, NO_ONE, Name, PathText, TEXT_BYTES, Times, guard_ms,
    promise_ms,
};
use booth_rec::{Record, ReopenFault};
use booth_rows::{Answer, Player, Words};
use booth_wire::{AUTH_BYTES, FRAME_BYTES, Frame, TermSpent};
use std::alloc::{AllocError, Global};

/// Plays lines about bytes. Each frame is encoded into the same buffer.
#[derive(Drop)]
pub(crate) struct Bytes {
    frame: Frame,
}

impl Bytes {
    /// Returns a player whose frame is empty.
    pub(crate) fn new(alloc: Global) -> Result<Bytes, AllocError> {
        let frame = Frame::new(alloc)?;
        Ok(Bytes { frame })
    }
}

// `address TEXT`: its bytes, its id and its canonical text.
fn address(words: &mut Words<'_>, answer: &mut Answer) {
    match Address::read(&words.bytes()) {
        Ok(address) => {
            match &address {
                Address::V4(octets) => answer.bytes(octets),
                Address::V6(octets) => answer.bytes(octets),
            }
            answer.small(address.id().0);
            answer.word(address.print().as_str());
            answer.end();
        }
        Err(found) => fault(answer, &found),
    }
}

// `name BYTES`
fn name(words: &mut Words<'_>, answer: &mut Answer) {
    match Name::read(&words.bytes()) {
        Ok(name) => spelled(answer, "name", name.bytes()),
        Err(found) => fault(answer, &found),
    }
}

// `value BYTES`
fn value(words: &mut Words<'_>, answer: &mut Answer) {
    match AttrValue::read(&words.bytes()) {
        Ok(value) => spelled(answer, "value", value.bytes()),
        Err(found) => fault(answer, &found),
    }
}

// `path BYTES`, in which the bytes are text.
fn path(words: &mut Words<'_>, answer: &mut Answer) {
    match PathText::read(words.text().as_str()) {
        Ok(path) => spelled(answer, "path", path.as_str().as_bytes()),
        Err(found) => fault(answer, &found),
    }
}

// `text BYTES`
fn text(words: &mut Words<'_>, answer: &mut Answer) {
    match ByteText::new(words.alloc(), &words.bytes()) {
        Ok(text) => spelled(answer, "text", text.bytes()),
        Err(_) => answer.tear(),
    }
}

// `times EXPIRE AFTER`: the guard and the promise.
fn times(words: &mut Words<'_>, answer: &mut Answer) {
    let (expire, after) = (words.long(), words.long());
    if expire > LONGEST_MS || after > LONGEST_MS {
        return words.refuse();
    }
    let times = Times {
        expire,
        after,
        timeout: 5_000,
        retries: 10,
        renewal: 300_000,
    };
    answer.number(guard_ms(&times));
    answer.number(promise_ms(&times));
    answer.end();
}

// `record BYTES`: the decoded record, and its encoding if it has version 2.
fn record(words: &mut Words<'_>, answer: &mut Answer) {
    match Record::decode(&words.bytes()) {
        Ok(record) => {
            shown(answer, "record", &record);
            if record.is_second() {
                spelled(answer, "spelled", &record.encode());
            }
        }
        Err(found) => fault(answer, &found),
    }
}

// `constants`: the maximum sizes, nobody's id, the initial name and value, and two faults.
fn constants(answer: &mut Answer) {
    answer.number(MEMBERS as u64);
    answer.number(TEXT_BYTES as u64);
    answer.number(FRAME_BYTES as u64);
    answer.number(AUTH_BYTES as u64);
    answer.small(NO_ONE.0);
    answer.bytes(Name::default().bytes());
    answer.bytes(AttrValue::default().bytes());
    answer.end();
    fault(answer, &TermSpent);
    fault(answer, &ReopenFault::Torn);
}

// Plays the bytes of one value, by its type.
fn read(what: &str, words: &mut Words<'_>, answer: &mut Answer) {
    match what {
        "address" => address(words, answer),
        "name" => name(words, answer),
        "value" => value(words, answer),
        "path" => path(words, answer),
        "text" => text(words, answer),
        "record" => record(words, answer),
        _ => words.refuse(),
    }
}

impl Player for Bytes {
    fn play(&mut self, words: &mut Words<'_>, answer: &mut Answer) {
        match words.word() {
            "constants" => constants(answer),
            "times" => times(words, answer),
            "command" => command(words, answer),
            "signed" => signed(words, &mut self.frame, answer),
            "frame" => frame(words, &mut self.frame, answer),
            what => read(what, words, answer),
        }
    }
}
