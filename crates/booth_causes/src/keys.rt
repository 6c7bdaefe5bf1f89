//! Why a file has no key: how many bytes it has, and how many are allowed.
ghost use Rattle.std.specs.Prelude.{IsErr, IsOk, MatchOption};
ghost use Rattle.booth_keys.specs.Key.{key_read};

use crate::cause::Cause;
use booth_keys::{Key, KeyFault};

fn is_plain(bytes: &[u8]) -> bool {
    bytes
        .iter()
        .all(|byte| matches!(*byte, 0x09..=0x0D | 0x20..=0x7E))
}

fn is_blank(byte: u8) -> bool {
    matches!(byte, 0x09..=0x0D | 0x20)
}

// Returns how many bytes a file has without the blanks around a key in plain text.
fn count_of(bytes: &[u8]) -> usize {
    if !is_plain(bytes) {
        return bytes.len();
    }
    let first = bytes.iter().take_while(|byte| is_blank(**byte)).count();
    let last = bytes
        .iter()
        .rev()
        .take_while(|byte| is_blank(**byte))
        .count();
    bytes.len().saturating_sub(first.saturating_add(last))
}

fn refuse(path: &str, bytes: &[u8], fault: KeyFault) -> Cause {
    let mut cause = Cause::new();
    cause.put(path);
    cause.put(" has a key of ");
    cause.put_number(count_of(bytes) as u64);
    match fault {
        KeyFault::TooShort => cause.put(" bytes; 8 to 64 are allowed: booth-keygen makes one"),
        KeyFault::TooLong => cause.put(" bytes; 8 to 64 are allowed"),
    }
    cause
}

/// Returns why the bytes of the file at this path are not a key; nothing if they are one.
pub fn bad_key(path: &str, bytes: &[u8]) -> Option<Cause>
    ensures { MatchOption result (IsOk (key_read bytes.now)) (λ _. IsErr (key_read bytes.now)) }
{
    match Key::read(bytes) {
        Ok(_) => None,
        Err(fault) => Some(refuse(path, bytes, fault)),
    }
}
