//! Lines on standard error about devices that fail, at most sixty a minute. None of them is a call in the host's log.
//!
//! A final failure has the priority of a failure, a repeated one that of a warning, and a recovery that of a notice.

ghost use Rattle.std.specs.Prelude.{◌≡◌};

use crate::clocks::since_boot;
use crate::lines::{Line, line_of, put_number};
use crate::speaker::{Priority, Speaker};
use booth_base::{Name, PathText, Peer};
use booth_clock::Step;
use booth_host::Place;
use std::alloc::Global;
use std::io;
use std::io::{ErrorKind, Write};

/// The length of a minute in milliseconds.
const MINUTE_MS: u64 = 60_000;

/// The most lines in a minute.
const LINES: u32 = 60;

/// Steps of the wall clock up to this size are ignored, in milliseconds.
const STEP_MS: u64 = 100;

/// The number of lines in the current minute.
#[derive(Clone, Copy)]
struct Limit {
    /// When the minute began, in milliseconds since the boot.
    since: u64,
    lines: u32,
}

/// A failure that repeats: it is logged a minute after its first occurrence, and then once a minute.
#[derive(Clone, Copy)]
struct Paced {
    /// When the next line is due, in milliseconds since the boot, once something failed.
    next: Option<u64>,
    /// How many failures were not logged since the last line.
    passed: u64,
}

/// Who logs the lines, and what was logged, as far as later lines depend on it.
#[derive(Drop)]
pub(crate) struct Telling {
    speaker: Speaker,
    /// The tickets whose last write failed, each of which was logged.
    unkept: Vec<Name>,
    /// Whether the clock's last write failed and was logged.
    is_clock_unkept: bool,
    limit: Limit,
    sends: Paced,
    receives: Paced,
    fulls: Paced,
}

impl Limit {
    // Returns whether one more line is allowed at this time.
    fn admits(&mut self, now: u64) -> bool {
        if now.saturating_sub(self.since) >= MINUTE_MS {
            self.since = now;
            self.lines = 0;
        }
        if self.lines >= LINES {
            return false;
        }
        self.lines += 1;
        true
    }
}

impl Paced {
    fn new() -> Paced {
        Paced {
            next: None,
            passed: 0,
        }
    }

    // Returns how many failures were not logged before this one, if a line is due.
    fn due(&mut self, now: u64) -> Option<u64> {
        let is_due = match self.next {
            Some(next) => next <= now,
            None => false,
        };
        if is_due || self.next.is_none() {
            self.next = Some(now.saturating_add(MINUTE_MS));
        }
        let passed = self.passed;
        self.passed = if is_due { 0 } else { passed.saturating_add(1) };
        if is_due { Some(passed) } else { None }
    }
}

// Returns the time since the boot, by which lines are limited. If it cannot be read, only the first lines are logged.
fn now() -> u64 {
    since_boot().unwrap_or(0)
}

// Returns the line about something that failed.
fn failed_line(parts: &[&[u8]], error: &io::Error) -> Line {
    let mut line = line_of(parts);
    let _ = write!(line, ": {error}");
    line
}

// Returns the line about a step of the wall clock, unless the step is too small.
fn step_line(amount: u64, way: &[u8]) -> Line {
    let mut line = line_of(&[b"the wall clock is "]);
    put_number(&mut line, amount);
    let _ = line.write_all(b" ms ");
    let _ = line.write_all(way);
    let _ = line.write_all(
        b" the daemon's clock, which goes on as it was: OPERATING.md, \"Clocks\"",
    );
    line
}

/// Returns a line's text for a socket at this place.
pub(crate) fn socket_text(place: &Place) -> Line {
    match &place.local {
        Some(address) => {
            let address = address.print();
            let mut line = line_of(&[b"socket at ", address.as_bytes(), b", port "]);
            put_number(&mut line, u64::from(place.port));
            line
        }
        None => line_of(&[b"socket"]),
    }
}

impl Telling {
    pub(crate) fn new(rt: HostRuntime, alloc: Global) -> Telling {
        Telling {
            speaker: Speaker::new(rt, "boothd"),
            unkept: Vec::new(alloc),
            is_clock_unkept: false,
            limit: Limit { since: 0, lines: 0 },
            sends: Paced::new(),
            receives: Paced::new(),
            fulls: Paced::new(),
        }
    }

    /// Makes each line begin with this program name.
    pub(crate) fn speak_as(&mut self, name: &'static str) {
        self.speaker.speak_as(name);
    }

    /// Writes the lines of the program's failure to standard error.
    pub(crate) fn write(&self, text: &[u8]) -> io::Result<()> {
        self.speaker.write(text)
    }

    // Logs this line, if one more is allowed. It is lost if it cannot be written at once.
    fn say(&mut self, priority: Priority, line: Line) {
        if self.limit.admits(now()) {
            self.speaker.say(priority, &line);
        }
    }

    // Logs the failure of something that is not repeated.
    fn failed(&mut self, parts: &[&[u8]], error: &io::Error) {
        self.say(Priority::Failure, failed_line(parts, error));
    }

    // Logs that something works again.
    fn mended(&mut self, parts: &[&[u8]]) {
        self.say(Priority::Notice, line_of(parts));
    }

    // Logs a repeated failure, and how many failures were not logged.
    fn goes_on(&mut self, line: Line, passed: u64) {
        self.say(Priority::Warning, with_passed(line, passed));
    }

    /// Logs the result of a write of this ticket's record, if it differs from the result before.
    pub(crate) fn keep(&mut self, ticket: &Name, answer: &io::Result<()>) {
        let place = self.unkept.iter().position(|name| name == ticket);
        match (answer, place) {
            // If there is no memory for the name, nothing is logged before a later write, so that no line is logged
            // twice.
            (Err(error), None) => {
                if self.unkept.push(ticket.copy()).is_ok() {
                    self.failed(
                        &[b"cannot keep the record of ticket ", ticket.bytes()],
                        error,
                    );
                }
            }
            (Ok(()), Some(place)) => {
                self.unkept.swap_remove(place);
                self.mended(&[b"the record of ticket ", ticket.bytes(), b" is kept again"]);
            }
            (Err(_), Some(_)) | (Ok(()), None) => {}
        }
    }

    /// Logs the result of a write of the clock, if it differs from the result before.
    pub(crate) fn clock_keep(&mut self, answer: &io::Result<()>) {
        match answer {
            Err(error) if !self.is_clock_unkept => {
                self.failed(
                    &[b"cannot write the time that the clock has reached"],
                    error,
                );
            }
            Ok(()) if self.is_clock_unkept => {
                self.mended(&[b"the time that the clock has reached is written again"]);
            }
            Err(_) | Ok(()) => {}
        }
        self.is_clock_unkept = answer.is_err();
    }

    /// Logs why this could not be opened, read or locked, if it could not. (The program itself reports that it is out
    /// of memory.)
    pub(crate) fn told<T: Drop>(&mut self, what: &[u8], answer: io::Result<T>) -> io::Result<T>
        ensures { result ≡ answer }
    {
        if let Err(error) = &answer {
            if error.kind() != ErrorKind::OutOfMemory {
                self.failed(&[what], error);
            }
        }
        answer
    }

    /// Logs that no clock of a records directory is available.
    pub(crate) fn no_clock(&mut self, error: &io::Error) {
        self.failed(&[b"cannot read the clock of the records"], error);
    }

    /// Logs that no record can be written in this directory.
    pub(crate) fn read_only(&mut self, directory: &PathText) {
        let words = b": its file system takes no writes, so this member votes for nobody";
        let line = line_of(&[directory.as_str().as_bytes(), words]);
        self.say(Priority::Failure, line);
    }

    /// Logs that this ticket has a file that is no record.
    pub(crate) fn strange(&mut self, ticket: &Name) {
        let words = b" keeps no record, and has bytes that no write leaves";
        let line = line_of(&[b"the file of ticket ", ticket.bytes(), words]);
        self.say(Priority::Failure, line);
    }

    /// Logs that this ticket's record cannot be read.
    pub(crate) fn unread(&mut self, ticket: &Name, error: &io::Error) {
        self.failed(
            &[b"cannot read the record of ticket ", ticket.bytes()],
            error,
        );
    }

    /// Logs that a program of this ticket's handler could not be started or polled.
    pub(crate) fn unstarted(&mut self, ticket: &Name, error: &io::Error) {
        self.failed(
            &[b"cannot run the handler of ticket ", ticket.bytes()],
            error,
        );
    }

    /// Logs by how much the wall clock is off.
    pub(crate) fn step(&mut self, step: Step) {
        let (amount, way) = match step {
            Step::Ahead(amount) => (amount, b"ahead of".as_slice()),
            Step::Behind(amount) => (amount, b"behind".as_slice()),
        };
        if amount <= STEP_MS {
            self.mended(&[b"the wall clock agrees with the daemon's clock again"]);
        } else {
            self.say(Priority::Warning, step_line(amount, way));
        }
    }

    /// Logs that sends keep failing.
    pub(crate) fn unsent(&mut self, to: &Peer, error: &io::Error) {
        if let Some(passed) = self.sends.due(now()) {
            let address = to.address.print();
            let line = failed_line(&[b"cannot send to ", address.as_bytes()], error);
            self.goes_on(line, passed);
        }
    }

    /// Logs that receives keep failing.
    pub(crate) fn unreceived(&mut self, error: &io::Error) {
        if let Some(passed) = self.receives.due(now()) {
            self.goes_on(failed_line(&[b"cannot receive"], error), passed);
        }
    }

    /// Logs that more datagrams keep arriving than there is room for.
    pub(crate) fn full(&mut self) {
        if let Some(passed) = self.fulls.due(now()) {
            let line = line_of(&[b"more datagrams arrive than there is room for"]);
            self.goes_on(line, passed);
        }
    }
}

// Returns the line with the number of failures that were not logged.
fn with_passed(line: Line, passed: u64) -> Line {
    let mut line = line;
    if passed > 0 {
        let _ = line.write_all(b"; untold before: ");
        put_number(&mut line, passed);
    }
    line
}
