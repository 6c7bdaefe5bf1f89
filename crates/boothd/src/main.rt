//! The programs `boothd`, `booth`, `geostore` and `booth-follow` over the real host. They are one file, which is the
//! program that it is run as.
#![tactic(auto)]

mod client;
mod daemon;
mod error_lines;
mod file_limit;
mod follower;
mod journal_path;
mod write_limit;

use crate::client::{run_booth, run_geostore};
use crate::daemon::run_daemon;
use crate::follower::run_follower;
use booth_cli::Program;
use booth_outcomes::Outcome;
use booth_programs::{Run, Unmade, explain};
use booth_real::{Priority, Speaker};
use std::alloc::{AllocError, Global};
use std::env;
use std::io::ErrorKind;
use std::process::ExitCode;

// Returns the name of a file without its directory.
fn file_name(path: &str) -> &str {
    match path.rsplit_once('/') {
        Some((_, name)) => name,
        None => path,
    }
}

// Returns the program that a file is run as.
fn program_of(path: &str) -> Program {
    match file_name(path) {
        "booth" => Program::Booth,
        "geostore" => Program::Geostore,
        "booth-follow" => Program::BoothFollow,
        _ => Program::Boothd,
    }
}

// Returns all arguments, the first of which is the name of the file. An argument that is not UTF-8 is accepted as
// none that any command has.
fn words(rt: &HostRuntime, alloc: Global) -> Result<Vec<String>, AllocError> {
    match env::args(rt) {
        Ok(args) => args.collect(alloc),
        Err(error) if error.kind() == ErrorKind::OutOfMemory => Err(AllocError),
        Err(_) => Ok(Vec::new(alloc)),
    }
}

// Prints why a run ended like this, as far as that is known, and returns its status.
fn end(rt: HostRuntime, alloc: Global, run: Run<'_>, outcome: Outcome) -> u8 {
    explain(rt, alloc, run, outcome, None);
    outcome.status()
}

// Runs this program. The first of the arguments is its name.
fn run(rt: HostRuntime, alloc: Global, program: Program, words: &[String]) -> Result<u8, Unmade> {
    let rest = words.get(1..).unwrap_or(&[]);
    match program {
        Program::Boothd => {
            let outcome = run_daemon(rt, alloc, rest)?;
            let words = rest;
            Ok(end(rt, alloc, Run { program, words }, outcome))
        }
        Program::Booth => run_booth(rt, alloc, rest),
        Program::Geostore => run_geostore(rt, alloc, rest),
        Program::BoothFollow => {
            let outcome = run_follower(rt, alloc, words)?;
            Ok(end(rt, alloc, Run { program, words }, outcome))
        }
    }
}

// Prints why a program did not run, unless a line said it before.
fn tell(rt: HostRuntime, program: Program, why: Unmade) -> u8 {
    if let Some(text) = why.text() {
        Speaker::new(rt, program.name()).say(Priority::Failure, text);
    }
    Outcome::OutOfMemory.status()
}

fn main(rt: HostRuntime) -> ExitCode {
    let alloc = rt.alloc();
    let status = match words(&rt, alloc) {
        Ok(words) => {
            let program = match words.first() {
                Some(name) => program_of(name.as_str()),
                None => Program::Boothd,
            };
            match run(rt, alloc, program, &words) {
                Ok(status) => status,
                Err(why) => tell(rt, program, why),
            }
        }
        Err(AllocError) => tell(rt, Program::Boothd, Unmade::OutOfMemory),
    };
    ExitCode::from(status)
}
