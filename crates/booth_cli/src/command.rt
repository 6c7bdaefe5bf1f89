//! The commands of the programs, and the description of each for `clap`.
ghost use Rattle.std.specs.Prelude.{◌≡◌, ◌≤◌, length, IfOk, map, string_bytes};
ghost use Rattle.clap.specs.Words.{app_of};
ghost use Rattle.booth_cli.specs.Commands.{app_for, client_verb};
ghost use Rattle.booth_cli.specs.Commands.{attribute_verb, daemon_verb, verb_in, version};

use crate::argument::with_arguments;
use crate::arguments::arguments;
use crate::command_texts::command_texts;
use crate::program::Program;
use clap::Command;
use std::alloc::{AllocError, Global};

/// The version of the product.
const VERSION: &str = "0.2.0";

/// Returns the version of the product.
pub fn version() -> &'static str
    ensures version { result.now ≡ version }
    ensures short { length result.now ≤ 20 }
{
    VERSION
}

/// A command of a program.
#[derive(Clone, Copy)]
pub enum Verb {
    /// Runs a daemon.
    Daemon,
    /// Prints whether a daemon runs.
    Status,
    /// Runs a whole cluster through generated events.
    Simulate,
    /// Audits the journals of members.
    Audit,
    /// Lists tickets.
    List,
    /// Shows the holder, the term and the time left of one ticket.
    Show,
    /// Lists members.
    Peers,
    /// Prints whether a daemon answers.
    DaemonStatus,
    /// Has a site acquire a ticket.
    Grant,
    /// Has a site release a ticket.
    Revoke,
    /// Moves a ticket: its holder releases it, and another site is granted it.
    Move,
    /// Sets an attribute.
    SetAttribute,
    /// Shows the value of an attribute.
    GetAttribute,
    /// Deletes an attribute.
    DeleteAttribute,
    /// Lists attributes.
    ListAttributes,
    /// Has a service follow its ticket.
    Follow,
}

fn daemon_verb(word: &str) -> Option<Verb>
    ensures { result ≡ daemon_verb word.now }
{
    if word == "daemon" {
        return Some(Verb::Daemon);
    }
    if word == "status" {
        return Some(Verb::Status);
    }
    if word == "sim" {
        return Some(Verb::Simulate);
    }
    if word == "audit" {
        return Some(Verb::Audit);
    }
    None
}

fn client_verb(word: &str) -> Option<Verb>
    ensures { result ≡ client_verb word.now }
{
    if word == "list" {
        return Some(Verb::List);
    }
    if word == "show" {
        return Some(Verb::Show);
    }
    if word == "peers" {
        return Some(Verb::Peers);
    }
    if word == "status" {
        return Some(Verb::DaemonStatus);
    }
    if word == "grant" {
        return Some(Verb::Grant);
    }
    if word == "revoke" {
        return Some(Verb::Revoke);
    }
    if word == "move" {
        return Some(Verb::Move);
    }
    None
}

fn attribute_verb(word: &str) -> Option<Verb>
    ensures { result ≡ attribute_verb word.now }
{
    if word == "set" {
        return Some(Verb::SetAttribute);
    }
    if word == "get" {
        return Some(Verb::GetAttribute);
    }
    if word == "delete" {
        return Some(Verb::DeleteAttribute);
    }
    if word == "list" {
        return Some(Verb::ListAttributes);
    }
    None
}

/// Returns the program's command with the name in the first argument; for `booth-follow` its one command, whatever
/// name it was run by.
pub(crate) fn verb_in(program: Program, words: &[String]) -> Option<Verb>
    ensures { result ≡ verb_in program (map string_bytes words.now) }
{
    let [first, ..] = words else {
        return None;
    };
    match program {
        Program::Boothd => daemon_verb(first.as_str()),
        Program::Booth => client_verb(first.as_str()),
        Program::Geostore => attribute_verb(first.as_str()),
        Program::BoothFollow => Some(Verb::Follow),
    }
}

/// Returns the description of a command for `clap`.
pub(crate) fn command<'a>(alloc: Global, verb: Verb) -> Result<Command<'a>, AllocError>
    ensures { IfOk result (λ c. app_of c ≡ app_for verb) }
{
    let texts = command_texts(verb);
    let command = Command::new(alloc, texts.name)
        .about(texts.about)
        .after_help(texts.more)
        .version(VERSION)
        .bin_name(texts.usage)?;
    with_arguments(alloc, command, arguments(verb))
}
