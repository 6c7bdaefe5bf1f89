//! Standard error for the lines of a program: with the program's name in front, or in the form of systemd's journal.
//!
//! The journal puts the program's name in front of a line itself, and takes a priority such as `<4>` from its
//! beginning (sd-daemon(3)). The environment says whether the journal reads standard error (systemd.exec(5)).

use crate::environment::variable;
use crate::outlet::write_at_once;
use crate::streams::{HeldError, hold_error, write_to};
use arrayvec::ArrayVec;
use std::io::Write;
use std::os::unix::fs::MetadataExt;
use std::process::ChildStdin;
use std::{fs, io};

/// The variable with the device and inode number of the file that the journal reads, separated by a colon.
const JOURNAL: &str = "JOURNAL_STREAM";

/// Standard error as a file of this process.
const STANDARD_ERROR: &str = "/proc/self/fd/2";

/// The most bytes of a line, with its line feed.
const LINE_BYTES: usize = 1_024;

/// A complete line.
type Line = ArrayVec<u8, LINE_BYTES>;

/// The priority of a line.
#[derive(Clone, Copy)]
pub enum Priority {
    /// A failure: `<3>`.
    Failure,
    /// A warning: something is wrong, and the program continues: `<4>`.
    Warning,
    /// An event that an operator looks for: `<5>`.
    Notice,
    /// Anything else: `<6>`.
    Info,
}

/// Standard error for the lines of a program.
#[derive(Drop)]
pub struct Speaker {
    rt: HostRuntime,
    /// The program's name.
    name: &'static str,
    /// Whether the journal reads standard error.
    is_journal: bool,
    /// Standard error on a descriptor of its own, so that a line can be written when no descriptor is left.
    held: Option<ChildStdin>,
}

impl Priority {
    // Returns what a line of this priority begins with in the journal.
    fn mark(self) -> &'static str {
        match self {
            Priority::Failure => "<3>",
            Priority::Warning => "<4>",
            Priority::Notice => "<5>",
            Priority::Info => "<6>",
        }
    }
}

// Returns the number in a text.
fn number(text: &str) -> Option<u64> {
    text.parse().ok()
}

// Returns whether the journal reads standard error. A program that a service starts may have the service's
// environment but another standard error.
fn is_journal(rt: &HostRuntime) -> bool {
    let Some(told) = variable(rt, JOURNAL) else {
        return false;
    };
    let Some((device, file)) = told.as_str().split_once(':') else {
        return false;
    };
    match fs::metadata(rt, STANDARD_ERROR) {
        Ok(own) => number(device) == Some(own.dev()) && number(file) == Some(own.ino()),
        Err(_) => false,
    }
}

impl Speaker {
    /// Returns standard error for the lines of the program with this name.
    pub fn new(rt: HostRuntime, name: &'static str) -> Speaker {
        let is_journal = is_journal(&rt);
        let held = hold_error(&rt);
        Speaker {
            rt,
            name,
            is_journal,
            held,
        }
    }

    /// Makes each line begin with this program name.
    pub(crate) fn speak_as(&mut self, name: &'static str) {
        self.name = name;
    }

    // Returns the line for this text with its line feed, which replaces the last byte if there is no room.
    fn line_of(&self, priority: Priority, text: &[u8]) -> Line {
        let mut line = Line::new();
        if self.is_journal {
            let _ = line.write_all(priority.mark().as_bytes());
        } else {
            let _ = line.write_all(self.name.as_bytes());
            let _ = line.write_all(b": ");
        }
        let _ = line.write_all(text);
        line.truncate(LINE_BYTES - 1);
        line.push(b'\n');
        line
    }

    // Returns the text of a line without the program's name in front and without the line feed.
    fn text_of<'a>(&self, line: &'a [u8]) -> &'a [u8] {
        let line = line.strip_suffix(b"\n").unwrap_or(line);
        match line.strip_prefix(self.name.as_bytes()) {
            Some(rest) => rest.strip_prefix(b": ").unwrap_or(line),
            None => line,
        }
    }

    // Writes a complete line to standard error. The line is lost if it cannot be written at once.
    fn give(&self, line: &[u8]) {
        if let Some(file) = &self.held {
            let _ = write_at_once(&mut HeldError { file }, line);
        }
    }

    // Writes these bytes to standard error, and waits for its reader.
    fn give_all(&self, bytes: &[u8]) -> io::Result<()> {
        match &self.held {
            Some(file) => {
                let mut file = file;
                file.write_all(bytes)
            }
            None => write_to(&self.rt.stderr(), bytes),
        }
    }

    /// Logs this text as a line. The line is lost if it cannot be written at once.
    pub fn say(&self, priority: Priority, text: &[u8]) {
        let line = self.line_of(priority, text);
        self.give(&line);
    }

    /// Logs a line that has the program's name in front and ends with a line feed. The line is lost if it cannot be
    /// written at once.
    pub fn say_line(&self, priority: Priority, line: &[u8]) {
        if self.is_journal {
            self.say(priority, self.text_of(line));
        } else {
            self.give(line);
        }
    }

    /// Writes the lines of a failure, which may have the program's name in front, and waits for their reader.
    pub(crate) fn write(&self, text: &[u8]) -> io::Result<()> {
        if !self.is_journal {
            return self.give_all(text);
        }
        for line in text.split(|byte| *byte == b'\n') {
            if !line.is_empty() {
                let line = self.line_of(Priority::Failure, self.text_of(line));
                self.give_all(&line)?;
            }
        }
        Ok(())
    }
}
