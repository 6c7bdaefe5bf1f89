//! A core's view and actions as lines of an answer.
use crate::printed::{kept, say};
use booth_host_rows::{put_member, put_promise, put_record};
use booth_raft::{Deed, Role, Round, Shown, Told, View, Want};
use booth_rows::Answer;

fn want_of(want: Want) -> &'static str {
    match want {
        Want::Nothing => "nothing",
        Want::Renew => "renewal",
        Want::Acquire => "acquisition",
    }
}

fn told_of(told: Told) -> &'static str {
    match told {
        Told::Nothing => "nothing",
        Told::Gained { sure: true } => "gained",
        Told::Gained { sure: false } => "gained-unsure",
        Told::RoundFailed => "round-failed",
        Told::AskFailed => "ask-failed",
        Told::Released => "released",
        Told::ReleaseFailed => "release-failed",
        Told::Lost => "lost",
        Told::HandlerFailed => "handler-failed",
    }
}

fn role_of(role: Role) -> &'static str {
    match role {
        Role::Follower => "follower",
        Role::Working => "working",
        Role::Candidate => "candidate",
        Role::Leader => "leader",
    }
}

/// Appends actions: the write and the message, if there are any, and then the wishes and the reports.
pub(crate) fn deed(answer: &mut Answer, deed: &Deed) {
    if let Some(tried) = deed.keep {
        kept(answer, "keep", &tried);
    }
    say(answer, &deed.say);
    answer.word("did");
    answer.word(want_of(deed.want));
    answer.word(told_of(deed.told));
    answer.end();
}

// Appends the reported owner, and until when it is shown.
fn shown(answer: &mut Answer, shown: Option<Shown>) {
    match shown {
        Some(shown) => {
            answer.small(shown.owner.0);
            answer.number(shown.until);
        }
        None => answer.word("- -"),
    }
}

// Appends a round's term, number and start, whether it is won, and who answered.
fn round(answer: &mut Answer, round: &Round) {
    answer.small(round.term);
    answer.small(round.number);
    answer.number(round.opened);
    answer.flag(round.won);
    for answered in round.answers.iter() {
        answer.flag(*answered);
    }
}

// Appends the numbers of a view.
fn numbers(answer: &mut Answer, view: &View) {
    answer.small(view.term);
    answer.small(view.seen);
    put_member(answer, view.bound);
    answer.number(view.abstain);
    answer.flag(view.sure);
    answer.number(view.force);
    answer.flag(view.managed);
    answer.flag(view.hello);
    answer.small(view.repeat);
    answer.small(view.repeat_reason);
    answer.small(view.repeat_term);
    answer.number_or_none(view.job);
    answer.small(view.reason);
    answer.number_or_none(view.due);
    answer.flag(view.waiting.is_some());
}

/// Appends a view: a line with its numbers, the promise, the reported owner, the stored record and the role, and a
/// line with its round, if one is open.
pub(crate) fn view(answer: &mut Answer, view: &View) {
    answer.word("view");
    numbers(answer, view);
    put_promise(answer, view.promise);
    shown(answer, view.shown);
    put_record(answer, &view.kept);
    answer.word(role_of(view.role));
    answer.end();
    answer.word("round");
    if let Some(open) = &view.round {
        round(answer, open);
    }
    answer.end();
}
