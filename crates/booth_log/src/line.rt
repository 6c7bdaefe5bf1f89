//! The text of a line, in memory of its own.
ghost use Rattle.std.specs.Prelude.{◌≡◌, ◌≤◌, ◌+◌, ◌++◌, codes, decimal, length};
ghost use Rattle.std.specs.Fmt.{signed_decimal};
ghost use Rattle.std.specs.List.{list_all};
ghost use Rattle.booth_base.specs.Name.{is_text_byte};
ghost use Rattle.booth_talk.specs.Civil.{date_text};
ghost use Rattle.booth_log.specs.Texts.{printed_path};

use arrayvec::ArrayVec;
use booth_base::PathText;
use booth_talk::date_text;
use itoa::Buffer;
use std::marker::Model;

/// The most bytes of a line.
const LINE_BYTES: usize = 800;

/// The text of a line. Contracts see its bytes.
#[derive(Drop)]
pub(crate) struct Line {
    bytes: ArrayVec<u8, LINE_BYTES>,
}

impl Model for Line {
    ghost use Rattle.std.specs.Prelude.{List, ℕ, ◌≤◌, length};
    ghost use Rattle.booth_log.specs.declared.line.TheConstants.{LINE_BYTES};

    ghost Value = { List ℕ };

    ghost view = { λ line. line.bytes.items };

    ghost invariant = { λ line. length line.bytes.items ≤ LINE_BYTES };
}

// Returns whether each byte prints.
fn prints(bytes: &[u8]) -> bool
    ensures { result ≡ list_all is_text_byte bytes.now }
{
    bytes.iter().all(|byte| (0x20..=0x7E).contains(byte))
}

impl Line {
    /// Starts a line with the program's name.
    pub(crate) fn begin() -> Line
        ensures { result ≡ codes "boothd: " }
    {
        let mut line = Line {
            bytes: ArrayVec::new(),
        };
        line.put(b"boothd: ");
        line
    }

    /// Appends a text; there must be room for it.
    pub(crate) fn put(&mut self, piece: &[u8])
        requires { length self.old + length piece.now ≤ LINE_BYTES }
        ensures { self.new ≡ self.old ++ piece.now }
    {
        self.bytes.try_extend_from_slice(piece).unwrap();
    }

    /// Appends a number.
    pub(crate) fn put_number(&mut self, number: u64)
        requires { length self.old + 40 ≤ LINE_BYTES }
        ensures bytes { self.new ≡ self.old ++ decimal number }
        ensures len { length self.new ≤ length self.old + 40 }
    {
        let mut digits = Buffer::new();
        self.put(digits.format(number).as_bytes());
    }

    /// Appends the status of a program.
    pub(crate) fn put_status(&mut self, status: i32)
        requires { length self.old + 40 ≤ LINE_BYTES }
        ensures bytes { self.new ≡ self.old ++ signed_decimal status }
        ensures len { length self.new ≤ length self.old + 40 }
    {
        let mut digits = Buffer::new();
        self.put(digits.format(status).as_bytes());
    }

    /// Appends a moment, in seconds since 1970, as a date.
    pub(crate) fn put_date(&mut self, seconds: u64)
        requires { length self.old + 32 ≤ LINE_BYTES }
        ensures bytes { self.new ≡ self.old ++ date_text seconds }
        ensures len { length self.new ≤ length self.old + 32 }
    {
        self.put(date_text(seconds).as_bytes());
    }

    /// Appends a path, or a `?` if a byte of it does not print: a line stays one line.
    pub(crate) fn put_path(&mut self, path: &PathText)
        requires { length self.old + 255 ≤ LINE_BYTES }
        ensures bytes { self.new ≡ self.old ++ printed_path path.now }
        ensures len { length self.new ≤ length self.old + 255 }
    {
        let bytes = path.as_str().as_bytes();
        if prints(bytes) {
            self.put(bytes);
        } else {
            self.put(b"?");
        }
    }

    /// Ends the line.
    pub(crate) fn end(&mut self)
        requires { length self.old + 1 ≤ LINE_BYTES }
        ensures { self.new ≡ self.old ++ codes "\n" }
    {
        self.put(b"\n");
    }

    /// Returns the bytes.
    pub(crate) fn bytes(&self) -> &[u8]
        ensures { result.now ≡ self.now }
    {
        &self.bytes
    }
}
