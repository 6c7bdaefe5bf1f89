//! The programs of a handler: which they are, in which order they run, and how one is started.

use crate::streams::ErrorStream;
use arrayvec::ArrayString;
use booth_base::PathText;
use booth_host::Job;
use std::fmt::Write;
use std::fs::DirEntry;
use std::io::{Error, ErrorKind};
use std::process::{Child, Command, Stdio};
use std::{fs, io, str};

/// The name of a file in a directory.
pub(crate) type FileName = ArrayString<255>;

/// The path of a program.
type ProgramPath = ArrayString<520>;

/// A number as text.
type Digits = ArrayString<20>;

// Returns the error of a text that is no handler, or of a name that a program cannot have.
fn unfit() -> Error {
    Error::from(ErrorKind::InvalidInput)
}

// Returns the path of a handler, which is its first word.
fn path_of(handler: &PathText) -> io::Result<&str> {
    handler
        .as_str()
        .split_ascii_whitespace()
        .next()
        .ok_or(unfit())
}

// Returns whether a word is a number.
fn is_number(word: &str) -> bool {
    for byte in word.as_bytes() {
        if !byte.is_ascii_digit() {
            return false;
        }
    }
    true
}

/// The beginning of a last word that is a lease's term and no argument.
const TERM: &str = "term=";

// Returns a program's words without the term, and the digits of the term. These are the digits in a last word
// `term=NUMBER`, or 0.
fn with_term(words: &str) -> (&str, &str) {
    let Some((before, last)) = words.rsplit_once(' ') else {
        return (words, "0");
    };
    match last.strip_prefix(TERM) {
        Some(term) if !term.is_empty() && is_number(term) => (before, term),
        Some(_) | None => (words, "0"),
    }
}

/// Returns whether this is the last word of a program that is neither a number nor the term.
pub(crate) fn is_run_for(handler: &PathText, word: &str) -> bool {
    let mut is_last = false;
    let (words, _term) = with_term(handler.as_str());
    for own in words.split_ascii_whitespace() {
        if !is_number(own) {
            is_last = own == word;
        }
    }
    is_last
}

/// Returns whether a handler's path is a directory of programs.
pub(crate) fn is_directory(rt: &HostRuntime, handler: &PathText) -> io::Result<bool> {
    Ok(fs::metadata(rt, path_of(handler)?)?.is_dir())
}

// Returns whether this name is after the name of the last program in the order of bytes, if there was one.
fn is_behind(name: &str, program: Option<&FileName>) -> bool {
    match program {
        Some(program) => program.as_bytes() < name.as_bytes(),
        None => true,
    }
}

// Returns whether this name comes before it.
fn is_before(name: &str, program: Option<&FileName>) -> bool {
    match program {
        Some(program) => name.as_bytes() < program.as_bytes(),
        None => true,
    }
}

// Returns this text as a file name.
fn file_name(name: &str) -> io::Result<FileName> {
    let mut text = FileName::new();
    match text.try_push_str(name) {
        Ok(()) => Ok(text),
        Err(_) => Err(unfit()),
    }
}

// Takes the name of this entry, if it is a program's, comes after the last program and before the least found so far.
fn take_least(
    least: &mut Option<FileName>,
    entry: io::Result<DirEntry>,
    behind: Option<&FileName>,
) -> io::Result<()> {
    let entry = entry?;
    let name = entry.file_name().to_str().ok_or(unfit())?;
    if !name.starts_with('.') && is_behind(name, behind) && is_before(name, least.as_ref()) {
        *least = Some(file_name(name)?);
    }
    Ok(())
}

/// Returns the first program of a handler's directory, or the one after the given program, in byte order of their
/// names. Names that begin with `.` are skipped.
pub(crate) fn next_in_directory(
    rt: &HostRuntime,
    handler: &PathText,
    behind: Option<&FileName>,
) -> io::Result<Option<FileName>> {
    let mut least: Option<FileName> = None;
    for entry in fs::read_dir(rt, path_of(handler)?)? {
        take_least(&mut least, entry, behind)?;
    }
    Ok(least)
}

// Appends a text to a path, and returns whether there was room.
fn has_added(path: &mut ProgramPath, text: &str) -> bool {
    path.try_push_str(text).is_ok()
}

// Appends the name of a file in the directory at this path, if there is one.
fn has_added_name(path: &mut ProgramPath, name: Option<&FileName>) -> bool {
    match name {
        Some(name) => has_added(path, "/") && has_added(path, name.as_str()),
        None => true,
    }
}

// Returns the path of a handler's program: the handler itself, or the program with this name in its directory. PATH
// is never searched.
fn program_path(handler: &PathText, name: Option<&FileName>) -> io::Result<ProgramPath> {
    let first = path_of(handler)?;
    let mut path = ProgramPath::new();
    let is_named = first.contains('/') || has_added(&mut path, "./");
    if is_named && has_added(&mut path, first) && has_added_name(&mut path, name) {
        Ok(path)
    } else {
        Err(unfit())
    }
}

// Returns the name of a configuration: the last part of its path without `.conf`.
fn conf_name(conf_path: &str) -> &str {
    let last = conf_path.rsplit('/').next().unwrap_or(conf_path);
    last.strip_suffix(".conf").unwrap_or(last)
}

// Returns the decimal digits of a number.
fn digits(number: u64) -> Digits {
    let mut text = Digits::new();
    let _ = write!(text, "{number}");
    text
}

// Sets a variable, and returns whether there was memory for it.
fn has_set(command: &mut Command, name: &str, value: &str) -> bool {
    command.env(name, value).is_ok()
}

/// The source of the lease's term, which a program gets as a variable.
#[derive(Clone, Copy)]
pub(crate) enum LeaseTerm {
    /// The last word of the handler, for a follower's program.
    LastWord,
    /// This number, for a daemon's handler. It is 0 before an acquisition.
    Known(u32),
}

/// What a program gets besides its job.
#[derive(Clone, Copy)]
pub(crate) struct Told<'a> {
    /// How many milliseconds the lease still lasts.
    pub left_ms: u64,
    /// The path of the configuration.
    pub conf_path: &'a str,
    pub lease_term: LeaseTerm,
}

// Sets the variables that describe a program's job.
fn tell(command: &mut Command, job: &Job, told: Told<'_>) -> io::Result<()> {
    let ticket = str::from_utf8(job.ticket.bytes()).ok().ok_or(unfit())?;
    let is_told = has_set(command, "BOOTH_TICKET", ticket)
        && has_set(command, "BOOTH_LOCAL", job.local.print().as_str())
        && has_set(command, "BOOTH_CONF_PATH", told.conf_path)
        && has_set(command, "BOOTH_CONF_NAME", conf_name(told.conf_path))
        && has_set(
            command,
            "BOOTH_TICKET_EXPIRES",
            digits(job.expires).as_str(),
        )
        && has_set(command, "BOOTH_TICKET_LEFT", digits(told.left_ms).as_str());
    if is_told {
        Ok(())
    } else {
        Err(Error::from(ErrorKind::OutOfMemory))
    }
}

// Appends the arguments in these words.
fn add_arguments(command: &mut Command, words: &str) -> io::Result<()> {
    for word in words.split_ascii_whitespace().skip(1) {
        command.arg(word)?;
    }
    Ok(())
}

// Sets the variable with the term of the lease.
fn tell_term(command: &mut Command, term: &str) -> io::Result<()> {
    if has_set(command, "BOOTH_TICKET_TERM", term) {
        Ok(())
    } else {
        Err(Error::from(ErrorKind::OutOfMemory))
    }
}

// Sets a program's arguments, and the variable with the term of the lease.
fn hand_words(command: &mut Command, handler: &PathText, lease_term: LeaseTerm) -> io::Result<()> {
    match lease_term {
        LeaseTerm::LastWord => {
            let (words, term) = with_term(handler.as_str());
            add_arguments(command, words)?;
            tell_term(command, term)
        }
        LeaseTerm::Known(term) => {
            add_arguments(command, handler.as_str())?;
            tell_term(command, digits(u64::from(term)).as_str())
        }
    }
}

// Sets a program's arguments and the variables that describe its job.
fn prepare(command: &mut Command, job: &Job, told: Told<'_>) -> io::Result<()> {
    hand_words(command, &job.handler, told.lease_term)?;
    tell(command, job, told)
}

// Returns a program's output stream: this process's standard error. If standard error was closed, the program prints
// to nothing, since many scripts stop when a write fails.
fn printed_to(rt: &HostRuntime, error_stream: ErrorStream) -> Stdio {
    match error_stream {
        ErrorStream::Open => Stdio::from(rt.stderr()),
        ErrorStream::Closed => Stdio::null(),
    }
}

// Sets a program's streams, and starts it.
fn launch(command: &mut Command, rt: &HostRuntime, error_stream: ErrorStream) -> io::Result<Child> {
    command.stdin(Stdio::null());
    command.stdout(printed_to(rt, error_stream));
    command.stderr(printed_to(rt, error_stream));
    command.spawn(rt)
}

/// Starts the handler itself, or the program with this name in its directory. The program gets the handler's
/// arguments and an empty standard input. Its environment is this process's, with seven variables more. Everything
/// that it prints goes to this process's standard error, or to nothing if that was closed. No other file of this
/// process is open in it.
pub(crate) fn start(
    rt: &HostRuntime,
    job: &Job,
    told: Told<'_>,
    name: Option<&FileName>,
    error_stream: ErrorStream,
) -> io::Result<Child> {
    let path = program_path(&job.handler, name)?;
    let mut command = Command::new(rt.alloc(), path.as_str())?;
    prepare(&mut command, job, told)?;
    launch(&mut command, rt, error_stream)
}
