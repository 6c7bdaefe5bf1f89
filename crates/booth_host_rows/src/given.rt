//! The contents of a host in memory, from lines.
use crate::peers::path;
use crate::records::record_of;
use crate::steps::step_of;
use booth_base::{ByteText, Name};
use booth_host::{Files, MemoryHost, QuietHost, Records, Script};
use booth_rows::Words;
use std::alloc::{AllocError, Global};

/// How many calls the host logs unless a line sets another limit.
const ROOM: u32 = 300;

/// The contents of a host in memory: its script, its files, its records, and how many calls it logs.
#[derive(Drop)]
pub struct Given {
    script: Script,
    files: Files,
    records: Records,
    room: u32,
}

/// Reads the name of a ticket, which is not in hexadecimal here.
pub fn name_of(words: &mut Words<'_>) -> Name {
    match Name::read(words.word().as_bytes()) {
        Ok(name) => name,
        Err(_) => {
            words.refuse();
            Name::default()
        }
    }
}

impl Given {
    /// Returns empty contents: no file, no record, and a script in which nothing arrives or fails.
    pub fn new(alloc: Global) -> Given {
        Given {
            script: Script {
                first: 0,
                steps: Vec::new(alloc),
                taken: false,
                fail_open: false,
                fail_lock: false,
                fail_kept: false,
                fail_err: false,
                fail_send: false,
                fail_out: false,
            },
            files: Vec::new(alloc),
            records: Vec::new(alloc),
            room: ROOM,
        }
    }

    // Adds a file.
    fn add_file(&mut self, words: &mut Words<'_>) {
        if let Some(path) = path(words) {
            let text = ByteText::from_vec(words.bytes());
            if self.files.push((path, text)).is_err() {
                words.tear();
            }
        }
    }

    // Adds a record.
    fn add_record(&mut self, words: &mut Words<'_>) {
        let ticket = name_of(words);
        if self.records.push((ticket, record_of(words))).is_err() {
            words.tear();
        }
    }

    // Adds a step.
    fn add_step(&mut self, words: &mut Words<'_>) {
        if self.script.steps.push(step_of(words)).is_err() {
            words.tear();
        }
    }

    // Sets the calls that fail before the first step, or that other processes hold each lock.
    fn fail(&mut self, words: &mut Words<'_>) {
        match words.word() {
            "taken" => self.script.taken = true,
            "open" => self.script.fail_open = true,
            "lock" => self.script.fail_lock = true,
            "kept" => self.script.fail_kept = true,
            "err" => self.script.fail_err = true,
            "send" => self.script.fail_send = true,
            "out" => self.script.fail_out = true,
            _ => words.refuse(),
        }
    }

    /// Takes a line, whose first word has been read.
    pub fn take(&mut self, what: &str, words: &mut Words<'_>) {
        match what {
            "first" => self.script.first = words.long(),
            "file" => self.add_file(words),
            "fails" => self.fail(words),
            "room" => self.room = words.number(),
            "record" => self.add_record(words),
            "step" => self.add_step(words),
            _ => words.refuse(),
        }
    }

    /// Returns the host with these contents.
    pub fn into_host(self, alloc: Global) -> Result<MemoryHost, AllocError> {
        MemoryHost::new(alloc, self.script, self.files, self.records, self.room)
    }

    /// Returns the host with these contents and no failures.
    pub fn into_quiet(self, alloc: Global) -> Result<QuietHost, AllocError> {
        QuietHost::new(alloc, self.script, self.files, self.records, self.room)
    }
}
