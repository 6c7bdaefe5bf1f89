//! The times of a ticket in a text that is not a configuration: those in its own lines, in the defaults, or in the
//! table of booth.conf(5).

use crate::cause::Cause;
use crate::lines::{is, key_in, value_in};
use std::str;

/// The defaults of booth.conf(5), in seconds; `RETRIES` is a count.
const EXPIRE: u64 = 600;

const TIMEOUT: u64 = 5;

const RETRIES: u64 = 10;

/// The times of a ticket in lines, in seconds.
#[derive(Clone, Copy)]
struct Said {
    expire: Option<u64>,
    timeout: Option<u64>,
    retries: Option<u64>,
    renewal: Option<u64>,
}

const NOTHING: Said = Said {
    expire: None,
    timeout: None,
    retries: None,
    renewal: None,
};

/// The section of a text that has a line.
#[derive(Clone, Copy)]
enum Section {
    Defaults,
    /// The wanted ticket.
    Own,
    Other,
}

fn number_in(value: &[u8]) -> Option<u64> {
    match str::from_utf8(value) {
        Ok(text) => text.parse::<u64>().ok(),
        Err(_) => None,
    }
}

impl Said {
    fn hear(&mut self, line: &[u8]) {
        let key = key_in(line);
        let number = number_in(value_in(line));
        if is(key, "expire") {
            self.expire = number;
        } else if is(key, "timeout") {
            self.timeout = number;
        } else if is(key, "retries") {
            self.retries = number;
        } else if is(key, "renewal-freq") {
            self.renewal = number;
        }
    }

    // Returns these times, with the defaults for the missing ones.
    fn or(self, defaults: Said) -> Said {
        Said {
            expire: self.expire.or(defaults.expire),
            timeout: self.timeout.or(defaults.timeout),
            retries: self.retries.or(defaults.retries),
            renewal: self.renewal.or(defaults.renewal),
        }
    }

    // Returns the time in milliseconds.
    fn expire_ms(&self) -> u64 {
        self.expire.unwrap_or(EXPIRE).saturating_mul(1000)
    }

    // Returns the time in milliseconds: half of `expire` if it is missing.
    fn renewal_ms(&self) -> u64 {
        match self.renewal {
            Some(seconds) => seconds.saturating_mul(1000),
            None => self.expire_ms() / 2,
        }
    }
}

// Returns the section after a `ticket` line, if this many are passed before the wanted one.
fn section_of(line: &[u8], left: usize) -> Section {
    if is(value_in(line), "__default__") {
        Section::Defaults
    } else if left == 0 {
        Section::Own
    } else {
        Section::Other
    }
}

// Returns the times of the ticket at this place, which is counted from 0 without the defaults.
fn said_of(text: &[u8], place: usize) -> Said {
    let mut own = NOTHING;
    let mut defaults = NOTHING;
    let mut section = Section::Other;
    let mut left = place;
    for line in text.split(|byte| *byte == b'\n') {
        if is(key_in(line), "ticket") {
            if matches!(section, Section::Own) {
                return own.or(defaults);
            }
            section = section_of(line, left);
            if matches!(section, Section::Other) {
                left = left.saturating_sub(1);
            }
        }
        match section {
            Section::Defaults => defaults.hear(line),
            Section::Own => own.hear(line),
            Section::Other => {}
        }
    }
    own.or(defaults)
}

/// Returns that the ticket at this place is renewed too late.
pub(crate) fn late_renewal(text: &[u8], place: usize) -> Cause {
    let said = said_of(text, place);
    let mut cause = Cause::new();
    cause.put("renewal-freq is ");
    cause.put_seconds(said.renewal_ms());
    cause.put(", and expire ");
    cause.put_seconds(said.expire_ms());
    cause
}

/// Returns that the tries of the ticket at this place take too long.
pub(crate) fn late_tries(text: &[u8], place: usize) -> Cause {
    let said = said_of(text, place);
    let retries = said.retries.unwrap_or(RETRIES);
    let timeout = said.timeout.unwrap_or(TIMEOUT);
    let mut cause = Cause::new();
    cause.put("timeout * (retries + 1) is ");
    cause.put_number(timeout.saturating_mul(retries.saturating_add(1)));
    cause.put(" s, and must be less than renewal-freq, ");
    cause.put_seconds(said.renewal_ms());
    cause
}
