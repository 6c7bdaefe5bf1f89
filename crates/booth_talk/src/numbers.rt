//! Numbers as daemons print them.
ghost use Rattle.std.specs.Prelude.{◌≡◌, MatchBool, MatchOption};
ghost use Rattle.std.specs.Str.Parse.{digits_value};
ghost use Rattle.booth_talk.specs.Fields.{IsNumber};
ghost use Rattle.booth_talk.specs.Forms.{AreNumbers};

use crate::fields::{first, rest};
use itoa::Buffer;

/// Returns the number with this text, if it is the text of a number.
pub(crate) fn number(text: &[u8]) -> Option<u64>
    ensures { MatchOption result (IsNumber text.now → ⊥)
        (λ n. IsNumber text.now × (n ≡ digits_value 10 text.now)) }
{
    let Ok(word) = std::str::from_utf8(text) else {
        return None;
    };
    let Ok(number) = word.parse::<u64>() else {
        return None;
    };
    let mut digits = Buffer::new();
    if digits.format(number) == word {
        Some(number)
    } else {
        None
    }
}

pub(crate) fn is_number(text: &[u8]) -> bool
    ensures { MatchBool result (IsNumber text.now) (IsNumber text.now → ⊥) }
{
    number(text).is_some()
}

/// Returns whether this is one number more than `more`, with a blank after each except the last.
pub(crate) fn are_numbers(more: usize, text: &[u8]) -> bool
    ensures { MatchBool result (AreNumbers more text.now) (AreNumbers more text.now → ⊥) }
{
    let mut left = text;
    for _number in 0..more {
        if !is_number(first(left)) {
            return false;
        }
        left = rest(left);
    }
    is_number(left)
}
