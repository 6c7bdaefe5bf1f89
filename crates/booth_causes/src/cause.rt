//! The text of a cause, in memory of its own.
ghost use Rattle.std.specs.Prelude.{◌≡◌, ◌≤◌, ◌<◌, ◌+◌, ◌++◌, [], length};

use arrayvec::ArrayString;
use booth_base::{Address, Name};
use itoa::Buffer;
use std::fmt::Write;
use std::marker::Model;
use std::str;

/// The most bytes of a text: a line of standard error has 1,024, with the program's name.
const TEXT_BYTES: usize = 900;

/// The most bytes of an argument or a file that are shown.
const SHOWN_BYTES: usize = 100;

/// The text of a cause, in one line. Contracts see its bytes.
#[derive(Drop)]
pub struct Cause {
    text: ArrayString<TEXT_BYTES>,
}

impl Model for Cause {
    ghost use Rattle.std.specs.Prelude.{List, ℕ};

    ghost Value = { List ℕ };

    ghost view = { λ c. c.text.bytes };
}

impl Cause {
    /// Returns an empty text.
    pub(crate) fn new() -> Cause
        ensures { result ≡ [] }
    {
        Cause {
            text: ArrayString::new(),
        }
    }

    /// Appends a text, or nothing if there is no room for all of it.
    pub(crate) fn put(&mut self, piece: &str)
        ensures room { length self.old + length piece.now ≤ TEXT_BYTES → self.new ≡ self.old ++ piece.now }
        ensures full { TEXT_BYTES < length self.old + length piece.now → self.new ≡ self.old }
    {
        let _ = self.text.try_push_str(piece);
    }

    /// Appends a number.
    pub(crate) fn put_number(&mut self, number: u64) {
        let mut digits = Buffer::new();
        self.put(digits.format(number));
    }

    /// Appends a time in milliseconds as seconds, with a tenth if it has one.
    pub(crate) fn put_seconds(&mut self, time: u64) {
        self.put_number(time / 1000);
        let tenth = time / 100 % 10;
        if tenth > 0 {
            self.put(".");
            self.put_number(tenth);
        }
        self.put(" s");
    }

    /// Appends an address.
    pub(crate) fn put_address(&mut self, address: &Address) {
        let text = address.print();
        self.put(text.as_str());
    }

    /// Appends a name.
    pub(crate) fn put_name(&mut self, name: &Name) {
        self.put(str::from_utf8(name.bytes()).unwrap_or(""));
    }

    // Appends a byte of an argument or a file: a printing character of ASCII unchanged, and any other in hexadecimal.
    fn put_byte(&mut self, byte: u8) {
        if (0x20..=0x7E).contains(&byte) {
            let _ = self.text.try_push(char::from(byte));
        } else {
            let _ = write!(self.text, "\\x{byte:02x}");
        }
    }

    /// Appends the bytes of an argument or a file in quotes: the first 100, and how many there are if there are more.
    pub(crate) fn put_quoted(&mut self, given: &[u8]) {
        self.put("'");
        for byte in given.iter().take(SHOWN_BYTES) {
            self.put_byte(*byte);
        }
        if given.len() <= SHOWN_BYTES {
            self.put("'");
            return;
        }
        self.put("..' (");
        self.put_number(given.len() as u64);
        self.put(" bytes)");
    }

    /// Returns the bytes.
    pub fn bytes(&self) -> &[u8]
        ensures { result.now ≡ self.now }
    {
        self.text.as_bytes()
    }
}
