//! Records and messages as words of an answer.
use booth_host_rows::put_record;
use booth_rec::Record;
use booth_rows::Answer;
use booth_wire::{Head, Say, TicketPart};

/// Appends a line with a record.
pub(crate) fn kept(answer: &mut Answer, word: &str, kept: &Record) {
    answer.word(word);
    put_record(answer, kept);
    answer.end();
}

fn head(answer: &mut Answer, head: &Head) {
    answer.flag(head.auth);
    answer.small(head.secs);
    answer.small(head.usecs);
    answer.small(head.from.0);
    answer.small(head.cmd.code());
    answer.small(head.request);
    answer.small(head.options);
    answer.small(head.reason);
    answer.small(head.result);
}

/// Appends a message and ends the line: its twelve numbers, and then the name of its ticket.
pub(crate) fn message(answer: &mut Answer, of: &Head, part: &TicketPart) {
    head(answer, of);
    answer.small(part.leader.0);
    answer.small(part.term);
    answer.small(part.valid_for);
    answer.bytes(part.ticket.bytes());
    answer.end();
}

/// Appends the message to send, as a line, if there is one: to the asker, to all, or to the members of a set.
pub(crate) fn say(answer: &mut Answer, say: &Say) {
    match say {
        Say::Nothing => {}
        Say::Reply(head, part) => {
            answer.word("say asker");
            message(answer, head, part);
        }
        Say::All(head, part) => {
            answer.word("say all");
            message(answer, head, part);
        }
        Say::Unanswered(head, part, members) => {
            answer.word("say");
            answer.number(u64::from(*members));
            message(answer, head, part);
        }
    }
}
