//! The answer to a script's line.
use itoa::Buffer;
use std::alloc::Global;
use std::fmt::{Debug, Display, Write};

/// The lines of an answer. After an allocation failure parts may be missing, and the answer ends with that error.
#[derive(Drop)]
pub struct Answer {
    alloc: Global,
    text: String,
    /// Whether the last line has a word.
    started: bool,
    /// Whether an allocation failed.
    torn: bool,
}

impl Answer {
    /// Returns an answer without a line.
    pub fn new(alloc: Global) -> Answer {
        Answer {
            alloc,
            text: String::new(alloc),
            started: false,
            torn: false,
        }
    }

    fn put(&mut self, text: &str) {
        if self.text.push_str(text).is_err() {
            self.torn = true;
        }
    }

    // Appends the space before a word.
    fn begin_word(&mut self) {
        if self.started {
            self.put(" ");
        }
        self.started = true;
    }

    /// Appends a word: letters, or a text that is the last word of its line.
    pub fn word(&mut self, word: &str) {
        self.begin_word();
        self.put(word);
    }

    /// Appends a number.
    pub fn number(&mut self, number: u64) {
        self.word(Buffer::new().format(number));
    }

    /// Appends a number of 32 bits.
    pub fn small(&mut self, number: u32) {
        self.number(u64::from(number));
    }

    /// Appends 1 or 0.
    pub fn flag(&mut self, flag: bool) {
        self.word(if flag { "1" } else { "0" });
    }

    /// Appends a number, or `-` for nothing.
    pub fn number_or_none(&mut self, number: Option<u64>) {
        match number {
            Some(number) => self.number(number),
            None => self.word("-"),
        }
    }

    /// Appends bytes in hexadecimal, or `-` for none.
    pub fn bytes(&mut self, bytes: &[u8]) {
        if bytes.is_empty() {
            return self.word("-");
        }
        match hex::encode(self.alloc, bytes) {
            Ok(text) => self.word(text.as_str()),
            Err(_) => self.torn = true,
        }
    }

    /// Appends a value's `Debug` text as a word.
    pub fn debug<V: Debug>(&mut self, value: &V) {
        self.begin_word();
        if write!(self.text, "{value:?}").is_err() {
            self.torn = true;
        }
    }

    /// Appends a value's `Display` text as a word.
    pub fn display<V: Display>(&mut self, value: &V) {
        self.begin_word();
        if write!(self.text, "{value}").is_err() {
            self.torn = true;
        }
    }

    /// Ends a line.
    pub fn end(&mut self) {
        self.started = false;
        self.put("\n");
    }

    /// Notes that an allocation failed.
    pub fn tear(&mut self) {
        self.torn = true;
    }

    /// Returns whether an allocation failed.
    pub fn is_torn(&self) -> bool {
        self.torn
    }

    /// Returns the text so far.
    pub fn text(&self) -> &str {
        self.text.as_str()
    }
}
