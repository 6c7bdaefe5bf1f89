//! Reads a step of a script for a host: the clock's reading, the calls that fail, and what arrives.
use crate::peers::peer;
use booth_base::ByteText;
use booth_host::{Arrival, Failed, Step};
use booth_rows::Words;

// Reads what arrives, up to the bytes of a datagram.
fn arrival(words: &mut Words<'_>) -> Result<Arrival, Failed> {
    match words.word() {
        "quiet" => Ok(Arrival::Quiet),
        "failure" => Err(Failed),
        "handler" => Ok(Arrival::Handler {
            job: words.long(),
            status: words.signed(),
        }),
        "datagram" => Ok(Arrival::Datagram(peer(words))),
        _ => {
            words.refuse();
            Err(Failed)
        }
    }
}

/// Reads a step.
pub fn step_of(words: &mut Words<'_>) -> Step {
    let reading = words.long();
    let fails = words.word();
    let arrival = arrival(words);
    Step {
        arrival,
        bytes: ByteText::from_vec(words.bytes_or_none()),
        reading,
        fail_send: fails.contains("send"),
        fail_keep: fails.contains("keep"),
        fail_start: fails.contains("start"),
        fail_out: fails.contains("out"),
    }
}
