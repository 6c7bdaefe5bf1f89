//! The words of a line.
ghost use Rattle.std.specs.Prelude.{◌<◌, ◌^◌};

use hex::FromHexError;
use std::alloc::Global;

/// The limit of moments: 2^62.
const NO_MOMENT: u64 = 4_611_686_018_427_387_904;

/// The words of a line that have not been read yet.
#[derive(Drop)]
pub struct Words<'a> {
    alloc: Global,
    rest: &'a str,
    /// Whether a word could not be read, or the line cannot be played.
    refused: bool,
    /// Whether an allocation failed.
    torn: bool,
}

impl<'a> Words<'a> {
    /// Returns the words of a line.
    pub fn of(alloc: Global, line: &'a str) -> Words<'a> {
        Words {
            alloc,
            rest: line,
            refused: false,
            torn: false,
        }
    }

    /// Returns the allocator.
    pub fn alloc(&self) -> Global {
        self.alloc
    }

    /// Reads a word, or an empty text after the last one.
    pub fn word(&mut self) -> &'a str {
        let (word, rest) = self.rest.split_once(" ").unwrap_or((self.rest, ""));
        self.rest = rest;
        word
    }

    /// Reads the next word if it begins with `-`, which stands for nothing. Returns whether it did.
    pub fn is_none(&mut self) -> bool {
        let is_none = self.rest.starts_with("-");
        if is_none {
            self.word();
        }
        is_none
    }

    /// Notes that the line cannot be played.
    pub fn refuse(&mut self) {
        self.refused = true;
    }

    /// Reads a number of 64 bits.
    pub fn long(&mut self) -> u64 {
        match self.word().parse::<u64>() {
            Ok(number) => number,
            Err(_) => {
                self.refused = true;
                0
            }
        }
    }

    /// Reads a moment, which is below 2^62.
    pub fn moment(&mut self) -> u64
        ensures { result < 2 ^ 62 }
    {
        let moment = self.long();
        if moment < NO_MOMENT {
            return moment;
        }
        self.refused = true;
        0
    }

    /// Reads a number of 64 bits, or `-` for nothing.
    pub fn long_or_none(&mut self) -> Option<u64> {
        if self.is_none() {
            None
        } else {
            Some(self.long())
        }
    }

    /// Reads a number of 32 bits.
    pub fn number(&mut self) -> u32 {
        match self.word().parse::<u32>() {
            Ok(number) => number,
            Err(_) => {
                self.refused = true;
                0
            }
        }
    }

    /// Reads a number of 16 bits.
    pub fn short(&mut self) -> u16 {
        match self.word().parse::<u16>() {
            Ok(number) => number,
            Err(_) => {
                self.refused = true;
                0
            }
        }
    }

    /// Reads a number of 32 bits that may be negative.
    pub fn signed(&mut self) -> i32 {
        match self.word().parse::<i32>() {
            Ok(number) => number,
            Err(_) => {
                self.refused = true;
                0
            }
        }
    }

    /// Reads 1 or 0.
    pub fn flag(&mut self) -> bool {
        let number = self.number();
        if number > 1 {
            self.refused = true;
        }
        number == 1
    }

    /// Reads the bytes of a hexadecimal word, or of `-`, which has none.
    pub fn bytes(&mut self) -> Vec<u8> {
        let word = self.word();
        if word != "-" {
            match hex::decode(self.alloc, word) {
                Ok(bytes) => return bytes,
                Err(FromHexError::OutOfMemory) => self.torn = true,
                Err(_) => self.refused = true,
            }
        }
        Vec::new(self.alloc)
    }

    /// Reads the bytes of a hexadecimal word, or none if no word is left.
    pub fn bytes_or_none(&mut self) -> Vec<u8> {
        if self.rest.is_empty() {
            Vec::new(self.alloc)
        } else {
            self.bytes()
        }
    }

    /// Reads a text from the bytes of a hexadecimal word.
    pub fn text(&mut self) -> String {
        match String::from_utf8(self.bytes()) {
            Ok(text) => text,
            Err(_) => {
                self.refused = true;
                String::new(self.alloc)
            }
        }
    }

    /// Returns whether the line was played: each word was read, and none is left.
    pub fn is_played(&self) -> bool {
        !self.refused && self.rest.is_empty()
    }

    /// Notes that an allocation failed.
    pub fn tear(&mut self) {
        self.torn = true;
    }

    /// Returns whether an allocation failed.
    pub fn is_torn(&self) -> bool {
        self.torn
    }
}
