//! Lines for standard error, truncated if they are too long.

use arrayvec::ArrayVec;
use std::io::Write;

/// The most bytes of a line's text.
const LINE_BYTES: usize = 400;

/// The text of a line for standard error, without the program's name.
pub(crate) type Line = ArrayVec<u8, LINE_BYTES>;

/// Returns a line that consists of these texts.
pub(crate) fn line_of(parts: &[&[u8]]) -> Line {
    let mut line = Line::new();
    for part in parts {
        let _ = line.write_all(part);
    }
    line
}

/// Appends a number.
pub(crate) fn put_number(line: &mut Line, number: u64) {
    let _ = write!(line, "{number}");
}
