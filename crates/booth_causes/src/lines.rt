//! The lines of a configuration's text, with those keys and values that can be found without the reader.

/// Returns the line with this number, counted from 1, without blanks around it.
pub(crate) fn line_at(text: &[u8], number: u32) -> Option<&[u8]> {
    let mut left = number;
    for line in text.split(|byte| *byte == b'\n') {
        if left <= 1 {
            return Some(line.trim_ascii());
        }
        left -= 1;
    }
    None
}

fn up_to(bytes: &[u8], end: usize) -> &[u8] {
    bytes.get(..end).unwrap_or(bytes)
}

/// Returns the bytes before the first `=` of a line, without blanks around them.
pub(crate) fn key_in(line: &[u8]) -> &[u8] {
    match line.iter().position(|byte| *byte == b'=') {
        Some(place) => up_to(line, place).trim_ascii(),
        None => line.trim_ascii(),
    }
}

// Returns the bytes after the first `=` of a line, without blanks around them.
fn behind_key(line: &[u8]) -> &[u8] {
    match line.iter().position(|byte| *byte == b'=') {
        Some(place) => line
            .get(place.saturating_add(1)..)
            .unwrap_or(&[])
            .trim_ascii(),
        None => &[],
    }
}

fn before_quote(value: &[u8], quote: u8) -> &[u8] {
    match value.iter().position(|byte| *byte == quote) {
        Some(place) => up_to(value, place),
        None => value,
    }
}

fn before_blank(value: &[u8]) -> &[u8] {
    match value.iter().position(|byte| byte.is_ascii_whitespace()) {
        Some(place) => up_to(value, place),
        None => value,
    }
}

/// Returns the value of a line without its quotes, or up to the first blank if it has none.
pub(crate) fn value_in(line: &[u8]) -> &[u8] {
    match behind_key(line) {
        [b'"', value @ ..] => before_quote(value, b'"'),
        [b'\'', value @ ..] => before_quote(value, b'\''),
        value => before_blank(value),
    }
}

/// Returns whether these bytes are this text.
pub(crate) fn is(bytes: &[u8], text: &str) -> bool {
    bytes == text.as_bytes()
}
