//! The options after a command, as `clap` returns them: texts.
ghost use Rattle.std.specs.Prelude.{◌≡◌, true, IfOk, IfErr, map, string_bytes};
ghost use Rattle.clap.specs.Words.{FailsBy, fault_of, first_value, found_of, kind_of, takes};
ghost use Rattle.booth_cli.specs.Commands.{app_for};
ghost use Rattle.booth_cli.specs.Given.{HasNeeded, found_in, is_set, texts_of};

use crate::command::{Verb, command};
use clap::error::ErrorKind;
use clap::{ArgMatches, Error};
use std::alloc::Global;

/// The texts of all options and arguments, and the flags. One that the command does not have, or that was left out,
/// is none.
#[derive(Drop)]
pub(crate) struct Given<'a> {
    pub ticket: Option<&'a str>,
    pub name: Option<&'a str>,
    pub value: Option<&'a str>,
    pub site: Option<&'a str>,
    pub turns: Option<&'a str>,
    pub events: Option<&'a str>,
    pub number: Option<&'a str>,
    pub lock: Option<&'a str>,
    pub records: Option<&'a str>,
    pub conf: Option<&'a str>,
    pub target: Option<&'a str>,
    pub program: Option<&'a str>,
    pub margin: Option<&'a str>,
    pub kill: Option<&'a str>,
    pub wait: bool,
    pub commit: bool,
    pub immediate: bool,
    pub force: bool,
    pub json: bool,
    pub restart: bool,
    /// The rest of the result of `clap`: the journals.
    pub matches: ArgMatches<'a>,
}

// Returns whether this flag was given.
fn has_flag(matches: &ArgMatches<'_>, id: &str) -> bool
    ensures { result ≡ is_set (first_value (found_of matches.now) id.now) }
{
    match matches.get_str(id) {
        Some(text) => text == "true",
        None => false,
    }
}

/// Returns the result of `clap` for the arguments, the first of which is the command's name.
pub(crate) fn given_words<'a>(
    alloc: Global,
    verb: Verb,
    words: &'a [String],
) -> Result<Given<'a>, Error>
    ensures given { IfOk result (λ g. texts_of g ≡ found_in verb (map string_bytes words.entry.now)) }
    ensures needed { IfOk result (λ g. HasNeeded verb (texts_of g)) }
    ensures passes { IfErr result (λ e. takes (app_for verb) (map string_bytes words.entry.now) ≡ true
        → kind_of e ≡ ErrorKind.OutOfMemory) }
    ensures kinds { FailsBy (fault_of (app_for verb) (map string_bytes words.entry.now)) result }
{
    let command = match command(alloc, verb) {
        Ok(command) => command,
        Err(error) => return Err(Error::from(error)),
    };
    let matches = match command.try_get_matches_from(words) {
        Ok(matches) => matches,
        Err(error) => return Err(error),
    };
    Ok(Given {
        ticket: matches.get_str("ticket"),
        name: matches.get_str("name"),
        value: matches.get_str("value"),
        site: matches.get_str("site"),
        turns: matches.get_str("turns"),
        events: matches.get_str("events"),
        number: matches.get_str("number"),
        lock: matches.get_str("lock"),
        records: matches.get_str("records"),
        conf: matches.get_str("conf"),
        target: matches.get_str("target"),
        program: matches.get_str("program"),
        margin: matches.get_str("margin"),
        kill: matches.get_str("kill"),
        wait: has_flag(&matches, "wait"),
        commit: has_flag(&matches, "commit"),
        immediate: has_flag(&matches, "immediate"),
        force: has_flag(&matches, "force"),
        json: has_flag(&matches, "json"),
        restart: has_flag(&matches, "restart-on-term"),
        matches,
    })
}
