//! The log's lines on standard error.

use booth_log::Lines;
use booth_real::{Priority, Speaker};
use std::{env, str};

/// The variable of the environment that turns the log off if it is `off`.
const SWITCH: &str = "BOOTH_LOG";

/// Standard error as a sink for log lines. A line that would have to wait for a reader is lost.
#[derive(Drop)]
pub(crate) struct ErrorLines {
    speaker: Speaker,
    is_on: bool,
}

// Returns the priority of a log text about a ticket.
fn ticket_priority(text: &str) -> Priority {
    if text.starts_with("fails to ") || text.starts_with("its handler cannot ") {
        Priority::Failure
    } else if text.starts_with("its handler ended ") {
        Priority::Warning
    } else if text.starts_with("begins ") {
        Priority::Info
    } else {
        Priority::Notice
    }
}

// Returns the priority of a log line.
fn priority_of(line: &str) -> Priority {
    match line.strip_prefix("boothd: ticket ") {
        // (a ticket's name has no blank)
        Some(of_ticket) => match of_ticket.split_once(": ") {
            Some((_, text)) => ticket_priority(text),
            None => Priority::Notice,
        },
        None => {
            if line.starts_with("boothd: the handler ") {
                Priority::Warning
            } else {
                Priority::Info
            }
        }
    }
}

impl ErrorLines {
    /// Returns standard error, unless the environment turns the log off.
    pub(crate) fn new(rt: HostRuntime) -> ErrorLines {
        let is_on = match env::var(&rt, SWITCH) {
            Ok(value) => value.as_str() != "off",
            Err(_) => true,
        };
        let speaker = Speaker::new(rt, "boothd");
        ErrorLines { speaker, is_on }
    }
}

impl Lines for ErrorLines {
    ghost use Rattle.std.specs.Prelude.{None};

    ghost said = { λ _. None };

    fn say(&mut self, line: &[u8]) {
        if self.is_on {
            let priority = priority_of(str::from_utf8(line).unwrap_or(""));
            self.speaker.say_line(priority, line);
        }
    }
}
