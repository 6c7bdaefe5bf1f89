//! The text of a line for standard error, in memory of its own.
ghost use Rattle.std.specs.Prelude.{◌≡◌, ◌≤◌, ◌+◌, ◌++◌, [], decimal, length};
ghost use Rattle.booth_outcomes.specs.Texts.{spoken};

use arrayvec::ArrayVec;
use booth_cli::Program;
use itoa::Buffer;
use std::marker::Model;

/// The most bytes of a text.
const LINE_BYTES: usize = 400;

/// Nothing, or the text of one line. The program's name is put before it when it is printed. Contracts see its bytes.
#[derive(Drop)]
pub struct ErrorLine {
    bytes: ArrayVec<u8, LINE_BYTES>,
}

impl Model for ErrorLine {
    ghost use Rattle.std.specs.Prelude.{List, ℕ, ◌≤◌, length};
    ghost use Rattle.booth_outcomes.specs.declared.error_line.TheConstants.{LINE_BYTES};

    ghost Value = { List ℕ };

    ghost view = { λ c. c.bytes.items };

    ghost invariant = { λ c. length c.bytes.items ≤ LINE_BYTES };
}

impl ErrorLine {
    /// Returns an empty text.
    pub fn none() -> ErrorLine
        ensures { result ≡ [] }
    {
        ErrorLine {
            bytes: ArrayVec::new(),
        }
    }

    /// Appends a text; there must be room for it.
    pub fn put(&mut self, piece: &[u8])
        requires { length self.old + length piece.now ≤ LINE_BYTES }
        ensures { self.new ≡ self.old ++ piece.now }
    {
        self.bytes.try_extend_from_slice(piece).unwrap();
    }

    /// Appends a number.
    pub(crate) fn put_number(&mut self, number: u64)
        requires { length self.old + 20 ≤ LINE_BYTES }
        ensures bytes { self.new ≡ self.old ++ decimal number }
        ensures len { length self.new ≤ length self.old + 20 }
    {
        let mut digits = Buffer::new();
        self.put(digits.format(number).as_bytes());
    }

    /// Returns the bytes.
    pub fn bytes(&self) -> &[u8]
        ensures { result.now ≡ self.now }
    {
        &self.bytes
    }

    /// Returns the whole line: the program's name, and then the text.
    pub(crate) fn spoken(&self, program: Program) -> ArrayVec<u8, 415>
        ensures { result.items ≡ spoken program self.now }
    {
        let mut line = ArrayVec::new();
        line.try_extend_from_slice(program.name().as_bytes())
            .unwrap();
        line.try_extend_from_slice(b": ").unwrap();
        line.try_extend_from_slice(&self.bytes).unwrap();
        line.try_extend_from_slice(b"\n").unwrap();
        line
    }
}
