//! Configuration texts: their faults, or their contents.
use crate::told::{LONGEST_MS, shown, spelled};
use booth_base::{PathText, promise_ms};
use booth_conf::{Config, TicketConf};
use booth_keys::Hash;
use booth_rows::{Answer, Player, Words};
use std::alloc::{AllocError, Global};

/// Plays texts of the configuration.
#[derive(Drop)]
pub(crate) struct Configuration {}

fn path(answer: &mut Answer, word: &str, path: Option<&PathText>) {
    match path {
        Some(path) => spelled(answer, word, path.as_str().as_bytes()),
        None => {
            answer.word(word);
            answer.end();
        }
    }
}

fn hash_of(hash: Hash) -> &'static str {
    match hash {
        Hash::Sha1 => "sha1",
        Hash::Sha256 => "sha256",
    }
}

fn file_keys(answer: &mut Answer, config: &Config) {
    answer.number(u64::from(config.port()));
    answer.number(config.skew());
    answer.word(hash_of(config.auth_hash()));
    for extra in config.extras() {
        answer.number(u64::from(extra.0.0));
    }
    answer.end();
    path(answer, "authfile", config.authfile());
    path(answer, "authfile-old", config.authfile_old());
}

// Appends each member's role, its id, and the member that its id leads to.
fn members(answer: &mut Answer, config: &Config) {
    for member in config.members() {
        answer.word(if member.site { "site" } else { "arbitrator" });
        answer.small(member.id.0);
        if let Some(place) = config.member(member.id) {
            answer.number(place as u64);
        }
        answer.end();
    }
}

fn ticket(answer: &mut Answer, ticket: &TicketConf) {
    let times = &ticket.times;
    answer.word("ticket");
    answer.bytes(ticket.name.bytes());
    answer.word(if ticket.manual { "manual" } else { "auto" });
    answer.number(times.expire);
    answer.number(times.after);
    answer.number(times.timeout);
    answer.number(times.renewal);
    answer.small(times.retries);
    if times.expire <= LONGEST_MS && times.after <= LONGEST_MS {
        answer.number(promise_ms(times));
    }
}

// Returns the rank of a site, if this ticket and this site exist.
fn rank(config: &Config, ticket: usize, member: usize) -> Option<u64> {
    let is_site = config.members().get(member)?.site;
    if is_site && ticket < config.tickets().len() {
        return Some(u64::from(config.rank(ticket, member)));
    }
    None
}

// Appends the rank of each member for a ticket, `-` if it has none.
fn ranks(answer: &mut Answer, config: &Config, ticket: usize) {
    for member in 0..config.members().len() {
        answer.number_or_none(rank(config, ticket, member));
    }
    answer.end();
}

fn tickets(answer: &mut Answer, config: &Config) {
    for (place, found) in config.tickets().iter().enumerate() {
        ticket(answer, found);
        if let Some(named) = config.ticket(&found.name) {
            answer.number(named as u64);
        }
        ranks(answer, config, place);
    }
}

// Appends the printed form of a configuration.
fn printed(alloc: Global, answer: &mut Answer, word: &str, config: &Config) {
    match config.print(alloc) {
        Ok(text) => spelled(answer, word, text.bytes()),
        Err(_) => answer.tear(),
    }
}

// Appends each value, and the printed form of the configuration and of a copy.
fn tell(alloc: Global, answer: &mut Answer, config: &Config) {
    file_keys(answer, config);
    members(answer, config);
    tickets(answer, config);
    printed(alloc, answer, "printed", config);
    match config.copy(alloc) {
        Ok(copied) => printed(alloc, answer, "copied", &copied),
        Err(AllocError) => answer.tear(),
    }
}

impl Player for Configuration {
    fn play(&mut self, words: &mut Words<'_>, answer: &mut Answer) {
        match Config::parse(words.alloc(), &words.bytes()) {
            Ok(config) => tell(words.alloc(), answer, &config),
            Err(fault) => shown(answer, "fault", &fault),
        }
    }
}
