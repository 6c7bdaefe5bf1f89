//! The results of a host's calls, as words.
use crate::peers::put_peer;
use crate::records::put_record;
use booth_host::{Arrival, Failed};
use booth_rec::Record;
use booth_rows::Answer;

/// Appends whether a call failed.
pub fn put_done(answer: &mut Answer, done: Result<(), Failed>) {
    answer.word(if done.is_ok() { "ok" } else { "failed" });
}

/// Appends whether a lock was taken.
pub fn put_locked(answer: &mut Answer, locked: Result<bool, Failed>) {
    answer.word(match locked {
        Ok(true) => "got",
        Ok(false) => "taken",
        Err(Failed) => "failed",
    });
}

/// Appends the result of a wait, with the bytes of a datagram.
pub fn put_arrival(answer: &mut Answer, arrival: Result<Arrival, Failed>, bytes: &[u8]) {
    match arrival {
        Ok(Arrival::Quiet) => answer.word("quiet"),
        Ok(Arrival::Stop) => answer.word("stop"),
        Err(Failed) => answer.word("failed"),
        Ok(Arrival::Handler { job, status }) => {
            answer.word("handler");
            answer.number(job);
            answer.display(&status);
        }
        Ok(Arrival::Datagram(peer)) => {
            answer.word("datagram");
            put_peer(answer, &peer);
            answer.bytes(bytes);
        }
    }
}

/// Appends the stored record.
pub fn put_kept(answer: &mut Answer, kept: Result<Option<Record>, Failed>) {
    match kept {
        Ok(Some(record)) => put_record(answer, &record),
        Ok(None) => answer.word("none"),
        Err(Failed) => answer.word("failed"),
    }
}
