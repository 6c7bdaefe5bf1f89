//! The option -t of `booth`, which names the ticket as it does for `geostore`: the ticket is put at its place among the
//! arguments.

use crate::explaining::say;
use crate::unmade::Unmade;
use crate::word_lists::{push_word, push_words};
use booth_causes::two_tickets;
use booth_cli::Program;
use booth_tools::passed;
use std::alloc::{AllocError, Global};

/// The arguments after a command, split into the ticket that -t names and all others.
#[derive(Drop)]
struct Split {
    ticket: Option<String>,
    rest: Vec<String>,
    /// The first argument that is neither an option nor the value of an option.
    first: Option<String>,
    /// How many such arguments there are.
    count: usize,
}

// Number of positional arguments of a command, with its ticket, or none if the command has no ticket.
fn places_of(command: &str) -> Option<usize> {
    match command {
        "show" | "grant" | "revoke" => Some(1),
        "move" => Some(2),
        _ => None,
    }
}

fn is_option(word: &str) -> bool {
    word.starts_with('-') && word != "-"
}

// Whether this is the letter of an option that has no value.
fn is_flag(letter: u8) -> bool {
    matches!(letter, b'w' | b'C' | b'F' | b'f' | b'j')
}

// Whether the value of this option is the next argument.
fn awaits_value(word: &str) -> bool {
    match word.as_bytes() {
        [b'-', flags @ .., b'c' | b's'] => flags.iter().all(|letter| is_flag(*letter)),
        _ => false,
    }
}

// Returns the value of an argument that begins with -t, without a `=` in front.
fn value_behind(word: &str) -> Option<&str> {
    let value = word.strip_prefix("-t")?;
    Some(value.strip_prefix('=').unwrap_or(value))
}

// Prints that the ticket is refused, and the cause.
fn refuse(rt: HostRuntime, cause: &[u8]) -> Unmade {
    say(rt, Program::Booth, b"bad ticket");
    say(rt, Program::Booth, cause);
    Unmade::Told
}

// The name in -t may be given again only if it is the same.
fn check(rt: HostRuntime, option: &str, other: Option<&str>) -> Result<(), Unmade> {
    match other {
        Some(other) if other != option => {
            let cause = two_tickets(option, other);
            Err(refuse(rt, cause.bytes()))
        }
        Some(_) | None => Ok(()),
    }
}

impl Split {
    fn new(alloc: Global) -> Split {
        Split {
            ticket: None,
            rest: Vec::new(alloc),
            first: None,
            count: 0,
        }
    }

    // Takes the ticket that -t names.
    fn take_ticket(&mut self, rt: HostRuntime, alloc: Global, name: &str) -> Result<(), Unmade> {
        check(rt, name, self.ticket.as_deref())?;
        self.ticket = Some(String::from_str(alloc, name)?);
        Ok(())
    }

    // Takes an argument that is no option.
    fn take_plain(&mut self, alloc: Global, word: &str) -> Result<(), AllocError> {
        if self.first.is_none() {
            self.first = Some(String::from_str(alloc, word)?);
        }
        self.count = self.count.saturating_add(1);
        push_word(alloc, &mut self.rest, word)
    }
}

/// What the next argument is.
#[derive(Clone, Copy, PartialEq, Eq)]
enum Next {
    /// An option or another argument.
    Any,
    /// The value of -t.
    Ticket,
    /// The value of another option.
    Value,
    /// No option, since it follows `--`.
    Plain,
}

// Takes an option, and returns what the next argument is.
fn take_option(
    split: &mut Split,
    rt: HostRuntime,
    alloc: Global,
    word: &str,
) -> Result<Next, Unmade> {
    match value_behind(word) {
        Some("") => Ok(Next::Ticket),
        Some(name) => {
            split.take_ticket(rt, alloc, name)?;
            Ok(Next::Any)
        }
        None => {
            push_word(alloc, &mut split.rest, word)?;
            if word == "--" {
                return Ok(Next::Plain);
            }
            Ok(if awaits_value(word) {
                Next::Value
            } else {
                Next::Any
            })
        }
    }
}

// Splits the arguments after a command.
fn split_arguments(rt: HostRuntime, alloc: Global, words: &[String]) -> Result<Split, Unmade> {
    let mut split = Split::new(alloc);
    let mut next = Next::Any;
    for word in words {
        let word = word.as_str();
        next = match next {
            Next::Any if is_option(word) => take_option(&mut split, rt, alloc, word)?,
            Next::Ticket => {
                split.take_ticket(rt, alloc, word)?;
                Next::Any
            }
            Next::Value => {
                push_word(alloc, &mut split.rest, word)?;
                Next::Any
            }
            Next::Any | Next::Plain => {
                split.take_plain(alloc, word)?;
                next
            }
        };
    }
    if next == Next::Ticket {
        return Err(refuse(rt, b"-t: the name of a ticket is needed"));
    }
    Ok(split)
}

/// Returns the arguments of `booth` with the ticket of `-t` as the argument after the command. If the arguments name
/// another ticket too, prints a refusal.
pub fn with_ticket(
    rt: HostRuntime,
    alloc: Global,
    words: Vec<String>,
) -> Result<Vec<String>, Unmade> {
    let asking = passed(words.as_slice());
    let Some((command, arguments)) = asking.split_first() else {
        return Ok(words);
    };
    let Some(places) = places_of(command.as_str()) else {
        return Ok(words);
    };
    let split = split_arguments(rt, alloc, arguments)?;
    let Some(ticket) = &split.ticket else {
        return Ok(words);
    };
    let mut all = Vec::new(alloc);
    push_word(alloc, &mut all, command.as_str())?;
    if split.count >= places {
        check(rt, ticket.as_str(), split.first.as_deref())?;
    } else {
        push_word(alloc, &mut all, ticket.as_str())?;
    }
    push_words(alloc, &mut all, split.rest.as_slice())?;
    Ok(all)
}
