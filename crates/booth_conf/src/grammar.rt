//! One line of a text, divided into its key and its value.
ghost use Rattle.std.specs.Prelude.{◌≡◌, ◌<◌, ◌==◌, length, option_copied};
ghost use Rattle.std.specs.List.{list_all, prefix_len, position};
ghost use Rattle.booth_conf.specs.Grammar.{is_blank, is_key_byte, is_value_byte, beyond, is_end, Reads};
ghost use Rattle.booth_conf.specs.LineReader.{front, closed, quoted, bare_part, bare, value_in, line_read, Shows};

/// The content of a line, as bytes.
#[derive(Clone, Copy)]
pub enum Line<'a> {
    /// Nothing, blanks or a comment.
    Empty,
    /// A key and its value.
    Pair { key: &'a [u8], value: &'a [u8] },
    /// Neither of these.
    Broken,
}

fn is_blank(byte: u8) -> bool
    ensures { result ≡ is_blank byte }
{
    matches!(byte, b' ' | b'\t' | b'\r')
}

fn is_key_byte(byte: u8) -> bool
    ensures { result ≡ is_key_byte byte }
{
    matches!(byte, b'a'..=b'z' | b'A'..=b'Z' | b'0'..=b'9' | b'-' | b'_')
}

fn is_value_byte(byte: u8) -> bool
    ensures { result ≡ is_value_byte byte }
{
    matches!(byte, 0x20..=0x7E | b'\t')
}

fn are_value_bytes(bytes: &[u8]) -> bool
    ensures { result ≡ list_all is_value_byte bytes.now }
{
    bytes.iter().all(|b| is_value_byte(*b))
}

fn blanks_len(bytes: &[u8]) -> usize
    ensures { result ≡ prefix_len is_blank bytes.now }
{
    bytes.iter().take_while(|b| is_blank(**b)).count()
}

fn key_len(bytes: &[u8]) -> usize
    ensures { result ≡ prefix_len is_key_byte bytes.now }
{
    bytes.iter().take_while(|b| is_key_byte(**b)).count()
}

#[tactic(auto, using(crate::proofs::Cuts::beyond_front))]
fn skip_blanks(bytes: &[u8]) -> &[u8]
    ensures { result.now ≡ beyond is_blank bytes.now }
{
    &bytes[blanks_len(bytes)..]
}

// Returns the key in front, and what follows it.
#[tactic(auto, using(crate::proofs::Cuts::both_sides))]
fn split_key(bytes: &[u8]) -> (&[u8], &[u8])
    ensures front { result.0.now ≡ front is_key_byte bytes.now }
    ensures beyond { result.1.now ≡ beyond is_key_byte bytes.now }
{
    bytes.split_at(key_len(bytes))
}

// Returns whether only blanks, or blanks and a comment, are left.
fn is_end(bytes: &[u8]) -> bool
    ensures { result ≡ is_end bytes.now }
{
    matches!(skip_blanks(bytes), [] | [b'#', ..])
}

fn closed(inside: &[u8], end: usize) -> Option<&[u8]>
    requires { end < length inside.now }
    ensures { option_copied result ≡ closed inside.now end }
{
    let (value, tail) = (&inside[..end], &inside[end + 1..]);
    if !is_end(tail) {
        return None;
    }
    are_value_bytes(value).then_some(value)
}

fn quote_at(quote: u8, inside: &[u8]) -> Option<usize>
    ensures { result ≡ position (λ b. b == quote) inside.now }
{
    inside.iter().position(|b| *b == quote)
}

#[tactic(auto, using(crate::proofs::Cuts::position_within))]
fn quoted(quote: u8, inside: &[u8]) -> Option<&[u8]>
    ensures { option_copied result ≡ quoted quote inside.now }
{
    match quote_at(quote, inside) {
        Some(end) => closed(inside, end),
        None => None,
    }
}

// Returns the bytes up to the last that is no blank, before a comment.
fn bare_part(bytes: &[u8]) -> &[u8]
    ensures { result.now ≡ bare_part bytes.now }
{
    let mut end = 0;
    for (i, byte) in bytes.iter().enumerate() {
        if *byte == b'#' && end < i {
            break;
        }
        if !is_blank(*byte) {
            end = i + 1;
        }
    }
    &bytes[..end]
}

fn bare(bytes: &[u8]) -> Option<&[u8]>
    ensures { option_copied result ≡ bare bytes.now }
{
    let value = bare_part(bytes);
    are_value_bytes(value).then_some(value)
}

fn value_in(bytes: &[u8]) -> Option<&[u8]>
    ensures { option_copied result ≡ value_in bytes.now }
{
    match bytes {
        [] | [b'#', ..] => None,
        [quote @ (b'"' | b'\''), inside @ ..] => quoted(*quote, inside),
        _ => bare(bytes),
    }
}

fn reading(line: &[u8]) -> Line<'_>
    ensures { Shows result (line_read line.now) }
{
    let start = skip_blanks(line);
    if is_end(start) {
        return Line::Empty;
    }
    let (key, rest) = split_key(start);
    match (key, skip_blanks(rest)) {
        ([_, ..], [b'=', rest @ ..]) => match value_in(skip_blanks(rest)) {
            Some(value) => Line::Pair { key, value },
            None => Line::Broken,
        },
        _ => Line::Broken,
    }
}

/// Returns the content of a line. The time is linear in the line's bytes.
#[tactic(auto, using(crate::proofs::BothWays::reads_of))]
pub fn line_of(line: &[u8]) -> Line<'_>
    ensures exact { Shows result (line_read line.now) }

    // A pair is one by the grammar, and a broken line is neither empty nor a pair.
    ensures grammar { Reads line.now result }
{
    reading(line)
}
