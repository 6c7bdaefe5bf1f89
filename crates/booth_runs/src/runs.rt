//! The player of whole runs.
use crate::hindered::{Hindered, Hindrances};
use booth_daemon::{Outcome, boothd};
use booth_followers::booth_follow;
use booth_following::Setting;
use booth_host::Host;
use booth_host_rows::{Given, put_past};
use booth_rows::{Answer, Player, Words};
use booth_tools::{booth, geostore};
use std::alloc::{AllocError, Global};
use std::mem;

/// Plays `run PROGRAM COUNT WORD ..` over the host that the lines before it make. COUNT is the number of the words.
/// After a line `quiet` no call of that host fails.
#[derive(Drop)]
pub(crate) struct Runs {
    given: Given,
    hindrances: Hindrances,
    is_quiet: bool,
}

// Reads the words of a command line.
fn words_of(words: &mut Words<'_>) -> Vec<String> {
    let mut read = Vec::new(words.alloc());
    for _ in 0..words.number() {
        if read.push(words.text()).is_err() {
            words.tear();
        }
    }
    read
}

// Runs the program of this name. Returns how it ended, if there is such a program.
fn run<H: Host>(alloc: Global, program: &str, words: &[String], host: &mut H) -> Option<Outcome> {
    match program {
        "boothd" => Some(boothd(alloc, words, host)),
        "booth" => Some(booth(alloc, words, host)),
        "geostore" => Some(geostore(alloc, words, host)),
        "booth-follow" => Some(booth_follow(alloc, words, &mut Setting::bare(), host)),
        _ => None,
    }
}

// Runs the program of a line over this host. Returns how it ended, if there is such a program.
fn run_line<H: Host>(words: &mut Words<'_>, host: &mut H) -> Option<Outcome> {
    let program = words.word();
    let given = words_of(words);
    let ended = run(words.alloc(), program, &given, host);
    if ended.is_none() {
        words.refuse();
    }
    ended
}

// Appends the calls of a run. If the host does not record its calls, appends how many turns the run made and how many
// records the host has.
fn put_calls(answer: &mut Answer, host: &Hindered) {
    let past = host.host.past();
    if past.is_none() {
        answer.word("turns");
        answer.number(host.turns);
        answer.number(host.host.records().len() as u64);
        answer.end();
    }
    put_past(answer, past);
}

// Appends how a run ended.
fn put_end(answer: &mut Answer, outcome: Outcome) {
    answer.word("ends");
    answer.number(u64::from(outcome.status()));
    answer.debug(&outcome);
    answer.end();
}

impl Runs {
    /// Returns a player whose host has nothing yet.
    pub(crate) fn new(alloc: Global) -> Runs {
        Runs {
            given: Given::new(alloc),
            hindrances: Hindrances::none(),
            is_quiet: false,
        }
    }

    // Returns the host that was made.
    fn host(&mut self, alloc: Global) -> Result<Hindered, AllocError> {
        let given = mem::replace(&mut self.given, Given::new(alloc));
        let hindrances = mem::replace(&mut self.hindrances, Hindrances::none());
        Ok(Hindered {
            host: given.into_host(alloc)?,
            hindrances,
            turns: 0,
        })
    }

    // Runs a program over the host that was made.
    fn run_memory(&mut self, words: &mut Words<'_>, answer: &mut Answer) {
        let Ok(mut host) = self.host(words.alloc()) else {
            return words.tear();
        };
        if let Some(outcome) = run_line(words, &mut host) {
            put_calls(answer, &host);
            put_end(answer, outcome);
        }
    }

    // Does the same over the quiet host that was made.
    fn run_quiet(&mut self, words: &mut Words<'_>, answer: &mut Answer) {
        let given = mem::replace(&mut self.given, Given::new(words.alloc()));
        let Ok(mut host) = given.into_quiet(words.alloc()) else {
            return words.tear();
        };
        if let Some(outcome) = run_line(words, &mut host) {
            put_past(answer, host.past());
            put_end(answer, outcome);
        }
    }

    // Runs a program.
    fn run(&mut self, words: &mut Words<'_>, answer: &mut Answer) {
        if mem::replace(&mut self.is_quiet, false) {
            self.run_quiet(words, answer);
        } else {
            self.run_memory(words, answer);
        }
    }
}

impl Player for Runs {
    fn play(&mut self, words: &mut Words<'_>, answer: &mut Answer) {
        match words.word() {
            "run" => self.run(words, answer),
            "hinder" => self.hindrances.take(words),
            "quiet" => self.is_quiet = true,
            what => self.given.take(what, words),
        }
    }
}
