//! The kinds of hosts that the players use.
use booth_base::ByteText;
use booth_host::{Host, MemoryHost, QuietHost};
use booth_host_rows::{Given, put_past, step_of};
use booth_journal::{JournalHost, MemorySink};
use booth_log::{LogHost, MemoryLines};
use booth_rows::{Answer, Words};
use booth_stream::{LinkStep, MemoryLinks, StreamHost};
use std::alloc::AllocError;

/// How many calls a host over links logs, and how many written bytes its links remember.
const ROOM: u32 = 100_000;

/// A host over a host in memory.
pub(crate) trait Kind: Host + Drop {
    /// Creates the host from these contents, the links' script and the remaining words.
    fn make(given: Given, links: Vec<LinkStep>, words: &mut Words<'_>) -> Result<Self, AllocError>;

    /// Appends what the host has recorded: its calls, the lines of its log, or the bytes of its journal.
    fn tell(&self, answer: &mut Answer);

    /// Adds a step to the script of a host in memory, or makes the host forget the steps so far.
    fn change(&mut self, call: &str, words: &mut Words<'_>);
}

impl Kind for MemoryHost {
    fn make(given: Given, _: Vec<LinkStep>, words: &mut Words<'_>) -> Result<Self, AllocError> {
        given.into_host(words.alloc())
    }

    fn tell(&self, answer: &mut Answer) {
        put_past(answer, self.past());
    }

    fn change(&mut self, call: &str, words: &mut Words<'_>) {
        if call == "forget" {
            self.forget();
        } else if self.add(step_of(words)).is_err() {
            words.tear();
        }
    }
}

impl Kind for QuietHost {
    fn make(given: Given, _: Vec<LinkStep>, words: &mut Words<'_>) -> Result<Self, AllocError> {
        given.into_quiet(words.alloc())
    }

    fn tell(&self, answer: &mut Answer) {
        put_past(answer, self.past());
    }

    fn change(&mut self, _: &str, words: &mut Words<'_>) {
        words.refuse();
    }
}

// Appends the recorded lines, or `untold` if the host records none.
fn put_said(answer: &mut Answer, said: Option<&[ByteText]>) {
    let Some(lines) = said else {
        answer.word("untold");
        return answer.end();
    };
    for line in lines {
        answer.bytes(line.bytes());
        answer.end();
    }
}

impl Kind for LogHost<MemoryHost, MemoryLines> {
    fn make(given: Given, _: Vec<LinkStep>, words: &mut Words<'_>) -> Result<Self, AllocError> {
        let alloc = words.alloc();
        let lines = MemoryLines::new(alloc, words.number());
        LogHost::new(alloc, given.into_host(alloc)?, lines)
    }

    fn tell(&self, answer: &mut Answer) {
        put_said(answer, self.lines().said());
    }

    fn change(&mut self, _: &str, words: &mut Words<'_>) {
        words.refuse();
    }
}

impl Kind for JournalHost<MemoryHost, MemorySink> {
    fn make(given: Given, _: Vec<LinkStep>, words: &mut Words<'_>) -> Result<Self, AllocError> {
        let alloc = words.alloc();
        let sink = MemorySink::new(alloc, words.number(), words.number())?;
        JournalHost::new(alloc, given.into_host(alloc)?, sink)
    }

    fn tell(&self, answer: &mut Answer) {
        answer.bytes(self.sink().bytes());
        answer.end();
    }

    fn change(&mut self, _: &str, words: &mut Words<'_>) {
        words.refuse();
    }
}

impl Kind for StreamHost<MemoryHost, MemoryLinks> {
    fn make(given: Given, links: Vec<LinkStep>, words: &mut Words<'_>) -> Result<Self, AllocError> {
        let alloc = words.alloc();
        let links = MemoryLinks::new(alloc, links, ROOM)?;
        StreamHost::new(alloc, given.into_host(alloc)?, links, ROOM)
    }

    fn tell(&self, answer: &mut Answer) {
        answer.word("untold");
        answer.end();
    }

    fn change(&mut self, _: &str, words: &mut Words<'_>) {
        words.refuse();
    }
}
