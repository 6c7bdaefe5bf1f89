//! Why an argument is refused: its name, its value, and the allowed values.

use crate::cause::Cause;
use crate::words::{option, plain};
use booth_base::{Address, AttrValue, Name, PathText};
use booth_cli::{MOST_EVENTS, MOST_TURNS, Program, Word};
use booth_following::PROGRAM_BYTES;

/// The allowed names.
const NAMES: &str = "a name has 1 to 63 printing characters of ASCII, without blanks";

/// The allowed values of attributes.
const VALUES: &str = "a value has up to 127 printing characters of ASCII; blanks are allowed";

/// The allowed addresses.
const ADDRESSES: &str =
    "an IPv4 or IPv6 address is needed, as 192.0.2.10 or 2001:db8::10; names are not resolved";

/// The allowed paths.
const PATHS: &str = "a path has 1 to 255 bytes";

/// The allowed programs.
const PROGRAMS: &str = "a program with its arguments has 1 to 228 bytes, not only blanks";

/// The allowed configurations.
const CONFIGURATIONS: &str =
    "a path with a slash, or a name in /etc/booth, of at most 255 bytes with its folder and .conf";

const _: () = prove!(PROGRAM_BYTES == 228);

/// The most seconds of a margin or of a kill.
const MOST_SECONDS: u64 = 4_294_967_295;

/// An argument as it was given, and its name in the usage.
#[derive(Clone, Copy)]
struct Argument<'a> {
    name: &'a str,
    text: &'a str,
}

/// An option with a number, and the allowed numbers.
#[derive(Clone, Copy)]
struct Range {
    letter: char,
    name: &'static str,
    least: u64,
    most: u64,
    allowed: &'static str,
}

const TURNS: Range = Range {
    letter: 'n',
    name: "-n",
    least: 1,
    most: MOST_TURNS,
    allowed: "a whole number from 1 to 4611686018427387904, without leading zeros",
};

const EVENTS: Range = Range {
    letter: 'e',
    name: "-e",
    least: 0,
    most: MOST_EVENTS,
    allowed: "a whole number from 0 to 10000000, without leading zeros",
};

const NUMBER: Range = Range {
    letter: 'r',
    name: "-r",
    least: 0,
    most: u64::MAX,
    allowed: "a whole number from 0 to 18446744073709551615, without leading zeros",
};

const MARGIN: Range = Range {
    letter: 'm',
    name: "-m",
    least: 1,
    most: MOST_SECONDS,
    allowed: "a whole number of seconds from 1 to 4294967295, without leading zeros",
};

const KILL: Range = Range {
    letter: 'k',
    name: "-k",
    ..MARGIN
};

// Returns the value of an option.
fn option_of<'a>(words: &'a [String], letter: char, name: &'a str) -> Option<Argument<'a>> {
    match option(words, letter) {
        Some(text) => Some(Argument { name, text }),
        None => None,
    }
}

// Returns the argument at a place.
fn plain_of<'a>(words: &'a [String], place: usize, name: &'a str) -> Option<Argument<'a>> {
    match plain(words, place) {
        Some(text) => Some(Argument { name, text }),
        None => None,
    }
}

// Returns the cause for an argument that is refused.
fn refuse(argument: &Argument<'_>, allowed: &str) -> Cause {
    let mut cause = Cause::new();
    cause.put(argument.name);
    cause.put(" ");
    cause.put_quoted(argument.text.as_bytes());
    cause.put(": ");
    cause.put(allowed);
    cause
}

// Returns the cause for a name that is refused.
fn bad_name(argument: Option<Argument<'_>>) -> Option<Cause> {
    let argument = argument?;
    match Name::read(argument.text.as_bytes()) {
        Ok(_) => None,
        Err(_) => Some(refuse(&argument, NAMES)),
    }
}

// Returns the cause for the ticket, which is an option of `geostore`.
fn bad_ticket(program: Program, words: &[String]) -> Option<Cause> {
    match program {
        Program::Geostore => bad_name(option_of(words, 't', "-t")),
        Program::Booth | Program::BoothFollow | Program::Boothd => {
            bad_name(plain_of(words, 0, "TICKET"))
        }
    }
}

fn bad_value(argument: Option<Argument<'_>>) -> Option<Cause> {
    let argument = argument?;
    match AttrValue::read(argument.text.as_bytes()) {
        Ok(_) => None,
        Err(_) => Some(refuse(&argument, VALUES)),
    }
}

// Returns the cause for an argument that must be an address.
fn no_address(argument: Option<Argument<'_>>) -> Option<Cause> {
    let argument = argument?;
    match Address::read(argument.text.as_bytes()) {
        Ok(_) => None,
        Err(_) => Some(refuse(&argument, ADDRESSES)),
    }
}

/// Returns why this text, with this name, is not an address; nothing if it is one.
pub fn bad_address(name: &str, text: &str) -> Option<Cause> {
    no_address(Some(Argument { name, text }))
}

/// Returns that the option -t and an argument name different tickets.
pub fn two_tickets(option: &str, other: &str) -> Cause {
    let mut cause = Cause::new();
    cause.put("-t ");
    cause.put_quoted(option.as_bytes());
    cause.put(" and ");
    cause.put_quoted(other.as_bytes());
    cause.put(" are two tickets: name one");
    cause
}

// Returns the cause for the site to which a ticket is moved, or otherwise for the asked site.
fn bad_site(program: Program, words: &[String]) -> Option<Cause> {
    let is_booth = matches!(program, Program::Booth);
    if is_booth {
        if let Some(cause) = no_address(plain_of(words, 1, "ADDRESS")) {
            return Some(cause);
        }
    }
    no_address(option_of(words, 's', "-s"))
}

// Returns whether a text is a number in a range, written without a sign and without leading zeros.
fn is_within(text: &str, range: &Range) -> bool {
    if text.starts_with('+') || text.starts_with('0') && text != "0" {
        return false;
    }
    match text.parse::<u64>() {
        Ok(number) => range.least <= number && number <= range.most,
        Err(_) => false,
    }
}

fn bad_number_of(words: &[String], range: &Range) -> Option<Cause> {
    let argument = option_of(words, range.letter, range.name)?;
    if is_within(argument.text, range) {
        return None;
    }
    Some(refuse(&argument, range.allowed))
}

// Returns the cause for the first number that is refused.
fn bad_number(words: &[String]) -> Option<Cause> {
    for range in [TURNS, EVENTS, NUMBER, MARGIN, KILL] {
        if let Some(cause) = bad_number_of(words, &range) {
            return Some(cause);
        }
    }
    None
}

fn bad_path_of(argument: Option<Argument<'_>>) -> Option<Cause> {
    let argument = argument?;
    if !argument.text.is_empty() && PathText::read(argument.text).is_ok() {
        return None;
    }
    Some(refuse(&argument, PATHS))
}

// Returns the cause for the lock, the directory of records, or the first journal that is refused.
fn bad_path(words: &[String]) -> Option<Cause> {
    if let Some(cause) = bad_path_of(option_of(words, 'l', "-l")) {
        return Some(cause);
    }
    if let Some(cause) = bad_path_of(option_of(words, 'd', "-d")) {
        return Some(cause);
    }
    for place in 0..16 {
        if let Some(cause) = bad_path_of(plain_of(words, place, "JOURNAL")) {
            return Some(cause);
        }
    }
    None
}

// Returns the cause for an argument that is refused with any value.
fn refused(argument: Option<Argument<'_>>, allowed: &str) -> Option<Cause> {
    let argument = argument?;
    Some(refuse(&argument, allowed))
}

/// Returns why an argument of this kind is refused. The arguments begin with the command, or with the program's name.
/// Returns nothing if no such argument is found that its reader refuses.
pub fn bad_argument(program: Program, words: &[String], word: Word) -> Option<Cause> {
    let words = words.get(1..).unwrap_or(&[]);
    match word {
        Word::Ticket => bad_ticket(program, words),
        Word::Name => bad_name(plain_of(words, 0, "NAME")),
        Word::Value => bad_value(plain_of(words, 1, "VALUE")),
        Word::Site => bad_site(program, words),
        Word::Number => bad_number(words),
        Word::Path => bad_path(words),
        Word::Program => refused(plain_of(words, 1, "PROGRAM"), PROGRAMS),
        Word::Configuration => refused(option_of(words, 'c', "-c"), CONFIGURATIONS),
    }
}
