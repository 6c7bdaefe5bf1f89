//! Parts of answers that several players use.
use booth_rows::Answer;
use std::fmt::{Debug, Display};

/// The most milliseconds of a lease and of the time after it.
pub(crate) const LONGEST_MS: u64 = 10_000_000_000;

/// Appends a line with this word and the value's `Debug` text.
pub(crate) fn shown<V: Debug>(answer: &mut Answer, word: &str, value: &V) {
    answer.word(word);
    answer.debug(value);
    answer.end();
}

/// Appends the two lines of a fault.
pub(crate) fn fault<F: Debug + Display>(answer: &mut Answer, fault: &F) {
    shown(answer, "fault", fault);
    answer.display(fault);
    answer.end();
}

/// Appends a line with this word and these bytes.
pub(crate) fn spelled(answer: &mut Answer, word: &str, bytes: &[u8]) {
    answer.word(word);
    answer.bytes(bytes);
    answer.end();
}
