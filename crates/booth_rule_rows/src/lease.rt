//! The player `core`: the lease rules of one member.
//!
//! `start` and a start create a member. A call is a word, the moment, and the call's arguments: `hello`, `ask` and a
//! reason, `hear` with the sender's place and a message, `kept` and 1 or 0, `tick`, `renew`, `release` and a reason,
//! or the note `asked`, `started` with a job and a reason, `over`, `unasked`, `unhandled` or `unready`. `look` and a
//! moment do nothing. Each answer has the actions, if there are any, and the view. `seconds` and two moments print
//! the seconds from the second moment to the first, and `limits` prints the last term and the last number of a round.
ghost use Rattle.std.specs.Prelude.{◌≡◌, ◌≤◌, ◌<◌, ◌^◌, None, IsTrue, IsSomeAnd};

use crate::printed::say;
use crate::reading::{Start, head, part};
use crate::view::{deed, view};
use booth_raft::{Core, LAST_NUMBER, LAST_TERM, Note, Role, seconds_left};
use booth_rows::{Answer, Player, Words};
use booth_wire::reasons::{ADMN, LOCF};

/// Plays one member's calls.
#[derive(Drop)]
pub(crate) struct CorePlayer {
    core: Option<Core>,
}

// Reports the result of the pending write.
fn kept(core: &mut Core, now: u64, words: &mut Words<'_>, answer: &mut Answer)
    requires { now < 2 ^ 62 }
{
    let ok = words.flag();
    match core.view().waiting {
        Some(waiting) if waiting.now == now => deed(answer, &core.kept(now, ok)),
        _ => words.refuse(),
    }
}

// Handles a member's message.
fn hear(core: &mut Core, now: u64, words: &mut Words<'_>, answer: &mut Answer)
    requires early { now < 2 ^ 62 }
    requires idle { core.old.view.waiting ≡ None }
{
    let from = words.number();
    let (head, part) = (head(words), part(words));
    if from < core.setup().members && from != core.setup().place {
        deed(answer, &core.hear(now, from, &head, &part));
    } else {
        words.refuse();
    }
}

// Starts an election, if a term is left.
fn ask(core: &mut Core, now: u64, words: &mut Words<'_>, answer: &mut Answer)
    requires early { now < 2 ^ 62 }
    requires idle { core.old.view.waiting ≡ None }
{
    let reason = words.number();
    if !core.setup().site {
        return words.refuse();
    }
    match core.ask(now, reason) {
        Ok(made) => deed(answer, &made),
        Err(_) => {
            answer.word("spent");
            answer.end();
        }
    }
}

// Releases the lease.
fn release(core: &mut Core, now: u64, words: &mut Words<'_>, answer: &mut Answer)
    requires early { now < 2 ^ 62 }
    requires idle { core.old.view.waiting ≡ None }
{
    let reason = words.number();
    let is_fit = core.setup().site && core.view().role == Role::Leader;
    if is_fit && (reason == ADMN || reason == LOCF) {
        deed(answer, &core.release(now, reason));
    } else {
        words.refuse();
    }
}

// The lease is renewed.
fn renew(core: &mut Core, now: u64, words: &mut Words<'_>, answer: &mut Answer)
    requires early { now < 2 ^ 62 }
    requires idle { core.old.view.waiting ≡ None }
{
    if core.view().role == Role::Leader {
        deed(answer, &core.renew(now));
    } else {
        words.refuse();
    }
}

// Returns whether the deadline has come.
fn is_due(core: &Core, now: u64) -> bool
    ensures { IsTrue result → IsSomeAnd core.now.view.due (λ due. due ≤ now) }
{
    match core.view().due {
        Some(due) => due <= now,
        None => false,
    }
}

// Handles the greeting that is due after a start.
fn hello(core: &mut Core, now: u64, words: &mut Words<'_>, answer: &mut Answer)
    requires early { now < 2 ^ 62 }
    requires idle { core.old.view.waiting ≡ None }
{
    if is_due(core, now) {
        say(answer, &core.hello(now));
    } else {
        words.refuse();
    }
}

// Handles the role's deadline.
fn tick(core: &mut Core, now: u64, words: &mut Words<'_>, answer: &mut Answer)
    requires early { now < 2 ^ 62 }
    requires idle { core.old.view.waiting ≡ None }
{
    if is_due(core, now) && core.view().role != Role::Working {
        deed(answer, &core.tick(now));
    } else {
        words.refuse();
    }
}

// Reads a note of handlers or clients.
fn note_of(call: &str, words: &mut Words<'_>) -> Note {
    match call {
        "asked" => Note::Asked,
        "started" => Note::JobStarted {
            job: words.long(),
            reason: words.number(),
        },
        "over" => Note::JobOver,
        "unasked" => Note::AskFailed,
        "unhandled" => Note::HandlerFailed,
        "unready" => Note::Unready,
        _ => {
            words.refuse();
            Note::Unready
        }
    }
}

// Notes an event of handlers or clients.
fn note(core: &mut Core, now: u64, made: Note, words: &mut Words<'_>)
    requires early { now < 2 ^ 62 }
    requires idle { core.old.view.waiting ≡ None }
{
    let role = core.view().role;
    let is_fit = match made {
        Note::Asked | Note::Unready => role == Role::Follower,
        Note::JobStarted { .. } => role == Role::Follower || role == Role::Leader,
        Note::JobOver => core.view().job.is_some(),
        Note::AskFailed | Note::HandlerFailed => role == Role::Follower || role == Role::Working,
    };
    if is_fit {
        core.note(now, made);
    } else {
        words.refuse();
    }
}

// Plays a call that no pending write blocks.
fn idle_call(core: &mut Core, call: &str, now: u64, words: &mut Words<'_>, answer: &mut Answer)
    requires early { now < 2 ^ 62 }
{
    if core.view().waiting.is_some() {
        return words.refuse();
    }
    match call {
        "hello" => hello(core, now, words, answer),
        "tick" => tick(core, now, words, answer),
        "hear" => hear(core, now, words, answer),
        "ask" => ask(core, now, words, answer),
        "renew" => renew(core, now, words, answer),
        "release" => release(core, now, words, answer),
        _ => note(core, now, note_of(call, words), words),
    }
}

// Appends the seconds until a moment.
fn count_seconds(words: &mut Words<'_>, answer: &mut Answer) {
    answer.word("seconds");
    let (moment, now) = (words.long(), words.long());
    answer.small(seconds_left(moment, now));
    answer.end();
}

// Appends the last term and the last number.
fn put_limits(answer: &mut Answer) {
    answer.word("limits");
    answer.small(LAST_TERM);
    answer.small(LAST_NUMBER);
    answer.end();
}

impl CorePlayer {
    /// Returns a player whose member has not started.
    pub(crate) fn new() -> CorePlayer {
        CorePlayer { core: None }
    }

    fn start(&mut self, words: &mut Words<'_>) {
        if let Some(start) = Start::read(words) {
            self.core = Some(Core::start(&start.setup, start.kept.as_ref(), start.now));
        }
    }

    // Plays a call of the member, or a look at it, and appends its view.
    fn call(&mut self, call: &str, words: &mut Words<'_>, answer: &mut Answer) {
        let Some(core) = &mut self.core else {
            return words.refuse();
        };
        if call != "start" {
            let now = words.moment();
            match call {
                "look" => {}
                "kept" => kept(core, now, words, answer),
                _ => idle_call(core, call, now, words, answer),
            }
        }
        view(answer, core.view());
    }
}

impl Player for CorePlayer {
    fn play(&mut self, words: &mut Words<'_>, answer: &mut Answer) {
        let call = words.word();
        match call {
            "seconds" => return count_seconds(words, answer),
            "limits" => return put_limits(answer),
            "start" => self.start(words),
            _ => {}
        }
        self.call(call, words, answer);
    }
}
