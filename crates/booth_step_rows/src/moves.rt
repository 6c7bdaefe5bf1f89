//! A planned move.
use crate::reading::{configuration, name};
use booth_conf::Config;
use booth_move::{MoveDeed, MoveEnd, Mover};
use booth_rows::{Answer, Player, Words};
use booth_wire::decode;

/// Plays `new CONFIGURATION TICKET TARGET WAIT START`, in which the target is a place and the wait 1 or 0, and `step
/// READING FRAME`. A frame that does not answer the last request is ignored.
#[derive(Drop)]
pub(crate) struct Moves {
    mover: Option<Mover>,
}

// Starts a move, if its target is a site.
fn started(config: &Config, words: &mut Words<'_>) -> Option<Mover> {
    let ticket = name(words);
    let target = words.number() as usize;
    let (wait, start) = (words.flag(), words.long());
    match config.members().get(target) {
        Some(member) if member.site => Some(Mover::start(config, ticket, target, wait, start)),
        _ => None,
    }
}

// Returns the actions after a clock reading and the frame before it.
fn step(mover: &mut Mover, words: &mut Words<'_>) -> MoveDeed {
    let now = words.long();
    let frame = words.bytes();
    match decode(&frame) {
        Ok(reply) if mover.is_answer(&reply) => return mover.step(now, Some(&reply)),
        Ok(_) => {}
        Err(_) if frame.is_empty() => {}
        Err(_) => words.refuse(),
    }
    mover.step(now, None)
}

// Appends a word and a number.
fn put(answer: &mut Answer, word: &str, number: u32) {
    answer.word(word);
    answer.small(number);
}

// Appends how a move ended.
fn put_end(answer: &mut Answer, end: MoveEnd) {
    match end {
        MoveEnd::Moved => answer.word("moved"),
        MoveEnd::Asked => answer.word("asked"),
        MoveEnd::Refused(result) => put(answer, "refused", result),
        MoveEnd::Stranded(result) => put(answer, "stranded", result),
        MoveEnd::NoReply => answer.word("no reply"),
    }
}

// Appends the actions.
fn put_deed(answer: &mut Answer, deed: MoveDeed) {
    match deed {
        MoveDeed::Nothing => answer.word("nothing"),
        MoveDeed::Revoke { to: None, request } => put(answer, "revoke", request),
        MoveDeed::Revoke {
            to: Some(place),
            request,
        } => {
            put(answer, "forward", place);
            answer.small(request);
        }
        MoveDeed::Grant { request } => put(answer, "grant", request),
        MoveDeed::End(end) => put_end(answer, end),
    }
    answer.end();
}

impl Moves {
    /// Returns a player without a move.
    pub(crate) fn new() -> Moves {
        Moves { mover: None }
    }

    fn start(&mut self, words: &mut Words<'_>) {
        if let Some(config) = configuration(words) {
            self.mover = started(&config, words);
            if self.mover.is_none() {
                words.refuse();
            }
        }
    }
}

impl Player for Moves {
    fn play(&mut self, words: &mut Words<'_>, answer: &mut Answer) {
        let call = words.word();
        if call == "new" {
            return self.start(words);
        }
        match &mut self.mover {
            Some(mover) if call == "step" => put_deed(answer, step(mover, words)),
            _ => words.refuse(),
        }
    }
}
