//! Why a text is not a configuration: the line or the values that are wrong, and what is allowed.

use crate::cause::Cause;
use crate::lines::{is, key_in, line_at, value_in};
use crate::times::{late_renewal, late_tries};
use crate::values::allowed;
use booth_conf::{ConfFault, ConfKey, KeyNo, TEXT_BYTES};
use std::str;

/// The number after the last key's number.
const KEYS_END: u8 = 24;

const LINES: &str = "a line is KEY = VALUE, KEY = \"VALUE\" or a comment after #";

const ONCE: &str = "each address, each ticket, and each key of a section may be given once";

const MOST: &str =
    "at most 16 members, 4096 tickets, and 8 lines attr-prereq for a ticket are allowed";

fn too_large(text: &[u8]) -> Cause {
    let mut cause = Cause::new();
    cause.put("it has ");
    cause.put_number(text.len() as u64);
    cause.put(" bytes; at most ");
    cause.put_number(TEXT_BYTES as u64);
    cause.put(" are allowed");
    cause
}

// Appends the content of this line.
fn put_line(cause: &mut Cause, line: &[u8]) {
    cause.put("; the line is ");
    cause.put_quoted(line);
}

// Returns the rule for each line, and this line.
fn of_line(text: &[u8], number: u32, rule: &str) -> Option<Cause> {
    let line = line_at(text, number)?;
    let mut cause = Cause::new();
    cause.put(rule);
    put_line(&mut cause, line);
    Some(cause)
}

// Returns whether a name may be meant as a key: it begins with the key, or the key with it.
fn is_near(name: &[u8], key: &str) -> bool {
    let key = key.as_bytes();
    let count = name.len().min(key.len());
    count > 0 && name[..count].eq_ignore_ascii_case(&key[..count])
}

// Returns the longest key that may be meant by a name.
fn meant(name: &[u8]) -> Option<&'static str> {
    let mut found: Option<&'static str> = None;
    for number in 1..KEYS_END {
        if let Some(key) = KeyNo(number).name() {
            if is_near(name, key) && key.len() > found.unwrap_or("").len() {
                found = Some(key);
            }
        }
    }
    found
}

fn unknown_key(text: &[u8], number: u32) -> Option<Cause> {
    let key = key_in(line_at(text, number)?);
    let mut cause = Cause::new();
    cause.put_quoted(key);
    match meant(key) {
        Some(meant) => {
            cause.put(" is no key; did you mean ");
            cause.put(meant);
            cause.put("?");
        }
        None => cause.put(" is no key: booth.conf(5) lists them"),
    }
    Some(cause)
}

fn misplaced(text: &[u8], number: u32) -> Option<Cause> {
    let line = line_at(text, number)?;
    let mut cause = Cause::new();
    cause.put_quoted(key_in(line));
    cause.put(" belongs to a ticket, below its line ticket = NAME");
    put_line(&mut cause, line);
    Some(cause)
}

fn bad_value(text: &[u8], number: u32, key: KeyNo) -> Option<Cause> {
    let line = line_at(text, number)?;
    let key = ConfKey::numbered(key)?;
    let mut cause = Cause::new();
    cause.put(key.row().name);
    cause.put(" is ");
    cause.put(allowed(key));
    put_line(&mut cause, line);
    Some(cause)
}

// Returns the address of the member at this place, as its line has it.
fn member_at(text: &[u8], place: usize) -> Option<&[u8]> {
    let mut left = place;
    for line in text.split(|byte| *byte == b'\n') {
        let key = key_in(line);
        if is(key, "site") || is(key, "arbitrator") {
            if left == 0 {
                return Some(value_in(line));
            }
            left -= 1;
        }
    }
    None
}

fn put_member(cause: &mut Cause, text: &[u8], place: usize) {
    let address = member_at(text, place).unwrap_or(&[]);
    cause.put(str::from_utf8(address).unwrap_or(""));
}

fn ids_clash(text: &[u8], first: usize, second: usize) -> Cause {
    let mut cause = Cause::new();
    put_member(&mut cause, text, first);
    if first == second {
        cause.put(" has the id of nobody (its CRC-32): give it another address");
        return cause;
    }
    cause.put(" and ");
    put_member(&mut cause, text, second);
    cause.put(" have the same id (the CRC-32 of an address): give one of them another address");
    cause
}

/// Returns what was found and what is allowed, for a fault of this text. Returns nothing for a fault whose text needs
/// no cause.
pub fn bad_configuration(text: &[u8], fault: ConfFault) -> Option<Cause> {
    match fault {
        ConfFault::TooLarge => Some(too_large(text)),
        ConfFault::Syntax { line } => of_line(text, line, LINES),
        ConfFault::UnknownKey { line } => unknown_key(text, line),
        ConfFault::Misplaced { line } => misplaced(text, line),
        ConfFault::BadValue { line, key } => bad_value(text, line, key),
        ConfFault::Repeated { line } => of_line(text, line, ONCE),
        ConfFault::TooMany { line } => of_line(text, line, MOST),
        ConfFault::IdClash { first, second } => Some(ids_clash(text, first, second)),
        ConfFault::Renewal { ticket } => Some(late_renewal(text, ticket)),
        ConfFault::RetryTime { ticket } => Some(late_tries(text, ticket)),
        ConfFault::DefaultLate { .. } => None,
        ConfFault::NoSite | ConfFault::NoTicket | ConfFault::OutOfMemory => None,
    }
}
