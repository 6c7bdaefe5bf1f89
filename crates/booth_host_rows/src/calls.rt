//! The calls of a host, and their results.
use crate::answers::{put_arrival, put_done, put_kept, put_locked};
use crate::peers::{address, path, peer};
use crate::records::record_of;
use booth_base::Name;
use booth_host::{Datagram, Host, Job, Place, ReadFault};
use booth_rows::{Answer, Words};

// Reads a ticket's name from its bytes.
fn name(words: &mut Words<'_>) -> Name {
    match Name::read(&words.bytes()) {
        Ok(name) => name,
        Err(_) => {
            words.refuse();
            Name::default()
        }
    }
}

fn open<H: Host>(host: &mut H, words: &mut Words<'_>, answer: &mut Answer) {
    let local = if words.is_none() {
        None
    } else {
        Some(address(words))
    };
    let port = words.short();
    if let (Some(records), Some(conf_path)) = (path(words), path(words)) {
        let place = Place {
            local,
            port,
            records,
            conf_path,
        };
        put_done(answer, host.open(&place));
    }
}

fn start<H: Host>(host: &mut H, words: &mut Words<'_>, answer: &mut Answer) {
    let number = words.long();
    let ticket = name(words);
    if let Some(handler) = path(words) {
        let job = Job {
            number,
            ticket,
            handler,
            local: address(words),
            expires: words.long(),
        };
        put_done(answer, host.start(&job));
    }
}

fn next<H: Host>(host: &mut H, words: &mut Words<'_>, answer: &mut Answer) {
    match Datagram::new(words.alloc()) {
        Ok(mut datagram) => {
            let arrival = host.next(words.long(), &mut datagram);
            put_arrival(answer, arrival, datagram.bytes());
        }
        Err(_) => answer.tear(),
    }
}

fn send<H: Host>(host: &mut H, words: &mut Words<'_>, answer: &mut Answer) {
    let to = peer(words);
    put_done(answer, host.send(&to, &words.bytes()));
}

fn keep<H: Host>(host: &mut H, words: &mut Words<'_>, answer: &mut Answer) {
    let ticket = name(words);
    put_done(answer, host.keep(&ticket, &record_of(words)));
}

fn read<H: Host>(host: &mut H, words: &mut Words<'_>, answer: &mut Answer) {
    match host.read_file(words.alloc(), words.text().as_str()) {
        Ok(text) => answer.bytes(text.bytes()),
        Err(ReadFault::Failed) => answer.word("failed"),
        Err(ReadFault::NoMemory) => answer.word("no-memory"),
    }
}

// Plays a call about a record, a handler, a file or a lock.
fn play_kept<H: Host>(host: &mut H, call: &str, words: &mut Words<'_>, answer: &mut Answer) {
    match call {
        "kept" => put_kept(answer, host.kept(&name(words))),
        "keep" => keep(host, words, answer),
        "start" => start(host, words, answer),
        "read" => read(host, words, answer),
        "lock" => put_locked(answer, host.lock(words.text().as_str())),
        _ => words.refuse(),
    }
}

/// Plays a call of a host, whose name has been read.
pub fn play_call<H: Host>(host: &mut H, call: &str, words: &mut Words<'_>, answer: &mut Answer) {
    match call {
        "open" => open(host, words, answer),
        "next" => next(host, words, answer),
        "now" => answer.number(host.now()),
        "send" => send(host, words, answer),
        "out" => put_done(answer, host.out(&words.bytes())),
        "err" => put_done(answer, host.err(&words.bytes())),
        _ => play_kept(host, call, words, answer),
    }
    answer.end();
}
