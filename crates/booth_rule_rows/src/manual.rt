//! The player `manual`: the rules of a manual ticket at one member.
//!
//! `start` and a start create a member. A call is `grant`, `again`, `revoke`, `kept` and 1 or 0, `hear` and a
//! message, `hello`, or `look`, which does nothing. Each answer has the record to write or the message to send, and
//! the view.
ghost use Rattle.std.specs.Prelude.{◌≡◌, None};

use crate::printed::{kept, say};
use crate::reading::{Start, head, part};
use booth_host_rows::{put_member, put_record};
use booth_manual::{Manual, ManualView};
use booth_rows::{Answer, Player, Words};

/// Plays one member's calls.
#[derive(Drop)]
pub(crate) struct ManualPlayer {
    member: Option<Manual>,
}

// Reports the result of the pending write.
fn answer_keep(member: &mut Manual, words: &mut Words<'_>, answer: &mut Answer) {
    let ok = words.flag();
    if member.view().waiting.is_some() {
        say(answer, &member.kept(ok));
    } else {
        words.refuse();
    }
}

// The ticket is granted, if a term is left.
fn grant(member: &mut Manual, answer: &mut Answer)
    requires { member.old.view.waiting ≡ None }
{
    match member.grant() {
        Ok(record) => kept(answer, "keep", &record),
        Err(_) => {
            answer.word("spent");
            answer.end();
        }
    }
}

// The owner gives up the ticket.
fn revoke(member: &mut Manual, words: &mut Words<'_>, answer: &mut Answer)
    requires { member.old.view.waiting ≡ None }
{
    if member.view().owner {
        kept(answer, "keep", &member.revoke());
    } else {
        words.refuse();
    }
}

// The owner writes its record again.
fn keep_again(member: &mut Manual, words: &mut Words<'_>, answer: &mut Answer)
    requires { member.old.view.waiting ≡ None }
{
    if member.view().owner && !member.view().sure {
        kept(answer, "keep", &member.again());
    } else {
        words.refuse();
    }
}

// Handles a member's message.
fn hear(member: &mut Manual, words: &mut Words<'_>, answer: &mut Answer)
    requires { member.old.view.waiting ≡ None }
{
    let (head, part) = (head(words), part(words));
    say(answer, &member.hear(&head, &part));
}

// Plays a call that no pending write blocks.
fn idle_call(member: &mut Manual, call: &str, words: &mut Words<'_>, answer: &mut Answer) {
    if member.view().waiting.is_some() {
        return words.refuse();
    }
    match call {
        "grant" => grant(member, answer),
        "again" => keep_again(member, words, answer),
        "revoke" => revoke(member, words, answer),
        "hear" => hear(member, words, answer),
        "hello" => say(answer, &member.hello()),
        "look" => {}
        _ => words.refuse(),
    }
}

// Appends the record, whether the member is sure of it and owns the ticket, the owner that it reports, and whether a
// write is pending.
fn known(answer: &mut Answer, view: &ManualView) {
    answer.word("known");
    answer.small(view.term);
    put_record(answer, &view.kept);
    answer.word(if view.sure { "sure" } else { "unsure" });
    answer.word(if view.owner { "owner" } else { "other" });
    put_member(answer, view.shown);
    let waits = view.waiting.is_some();
    answer.word(if waits { "waits" } else { "idle" });
    answer.end();
}

impl ManualPlayer {
    /// Returns a player whose member has not started.
    pub(crate) fn new() -> ManualPlayer {
        ManualPlayer { member: None }
    }

    fn start(&mut self, words: &mut Words<'_>) {
        if let Some(start) = Start::read(words) {
            self.member = Some(Manual::start(&start.setup, start.kept.as_ref()));
        }
    }
}

impl Player for ManualPlayer {
    fn play(&mut self, words: &mut Words<'_>, answer: &mut Answer) {
        let call = words.word();
        if call == "start" {
            self.start(words);
        }
        let Some(member) = &mut self.member else {
            return words.refuse();
        };
        match call {
            "start" => {}
            "kept" => answer_keep(member, words, answer),
            _ => idle_call(member, call, words, answer),
        }
        known(answer, member.view());
    }
}
