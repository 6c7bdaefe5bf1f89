//! The gate and the seal, and their MACs.
use crate::told::{fault, spelled};
use booth_auth::{ring_gate, ring_seal};
use booth_base::MemberId;
use booth_conf::Config;
use booth_keys::{Hash, Key, Ring, hmac, hmac256};
use booth_rows::{Answer, Player, Words};
use booth_wire::{Frame, decode};
use sha1::Sha1;

/// Plays lines at the gate of a member, with the configuration and the ring that were read last.
#[derive(Drop)]
pub(crate) struct Gate {
    config: Option<Config>,
    ring: Option<Ring>,
}

// Reads a key from its file's bytes.
fn key(words: &mut Words<'_>) -> Option<Key> {
    match Key::read(&words.bytes()) {
        Ok(key) => Some(key),
        Err(_) => {
            words.refuse();
            None
        }
    }
}

// Reads a hash: `sha1`, or else the newer one.
fn hash(words: &mut Words<'_>) -> Hash {
    match words.word() {
        "sha1" => Hash::Sha1,
        "sha256" => Hash::Sha256,
        _ => {
            words.refuse();
            Hash::Sha256
        }
    }
}

// Reads `-`, or a hash, the first key, and the old key or `-`.
fn ring(words: &mut Words<'_>) -> Option<Ring> {
    if words.is_none() {
        return None;
    }
    let hash = hash(words);
    let first = key(words)?;
    let old = if words.is_none() { None } else { key(words) };
    Some(Ring { first, old, hash })
}

// Appends the sealed encoding of a frame's contents.
fn put_sealed(
    words: &mut Words<'_>,
    frame: &[u8],
    ring: Option<&Ring>,
    now: u64,
    answer: &mut Answer,
) {
    let Ok(message) = decode(frame) else {
        return words.refuse();
    };
    match Frame::new(words.alloc()) {
        Ok(mut into) => {
            ring_seal(&message, ring, now, &mut into);
            spelled(answer, "sealed", into.bytes());
        }
        Err(_) => answer.tear(),
    }
}

// `mac KEYFILE MESSAGE`: both MACs, or why the file is no key.
fn mac(words: &mut Words<'_>, answer: &mut Answer) {
    let (file, message) = (words.bytes(), words.bytes());
    match Key::read(&file) {
        Ok(key) => {
            answer.bytes(&hmac(&key, &message));
            answer.bytes(&hmac256(&key, &message));
            answer.end();
        }
        Err(found) => fault(answer, &found),
    }
}

impl Gate {
    /// Returns a gate without a configuration and without a key.
    pub(crate) fn new() -> Gate {
        Gate {
            config: None,
            ring: None,
        }
    }

    fn configure(&mut self, words: &mut Words<'_>) {
        match Config::parse(words.alloc(), &words.bytes()) {
            Ok(config) => self.config = Some(config),
            Err(_) => words.refuse(),
        }
    }

    // `seal NOW FRAME`: the frame's contents, sealed at that time with the ring and with a copy of it.
    fn seal(&self, words: &mut Words<'_>, answer: &mut Answer) {
        let now = words.long();
        let frame = words.bytes();
        put_sealed(words, &frame, self.ring.as_ref(), now, answer);
        let copy = self.ring.as_ref().map(Ring::copy);
        put_sealed(words, &frame, copy.as_ref(), now, answer);
    }

    // Appends whether a frame is admitted with this ring.
    fn put_verdict(
        &self,
        ring: Option<&Ring>,
        (me, now): (MemberId, u64),
        frame: &[u8],
        answer: &mut Answer,
    ) {
        let Some(config) = &self.config else {
            return answer.word("unconfigured");
        };
        match ring_gate(config, ring, me, now, frame) {
            Ok(_) => {
                answer.word("admitted");
                answer.end();
            }
            Err(found) => fault(answer, &found),
        }
    }

    // `gate ME NOW FRAME`: whether it is admitted, with the ring and with a copy of it.
    fn judge(&self, words: &mut Words<'_>, answer: &mut Answer) {
        let when = (MemberId(words.number()), words.long());
        let frame = words.bytes();
        self.put_verdict(self.ring.as_ref(), when, &frame, answer);
        let copy = self.ring.as_ref().map(Ring::copy);
        self.put_verdict(copy.as_ref(), when, &frame, answer);
    }
}

impl Player for Gate {
    fn play(&mut self, words: &mut Words<'_>, answer: &mut Answer) {
        match words.word() {
            "conf" => self.configure(words),
            "ring" => self.ring = ring(words),
            "digest" => spelled(answer, "digest", &Sha1::digest(&words.bytes())),
            "mac" => mac(words, answer),
            "seal" => self.seal(words, answer),
            "gate" => self.judge(words, answer),
            _ => words.refuse(),
        }
    }
}
