//! The arguments of a command line: the values of options by their letters, and the others by their places.

// Returns whether an option with this letter has a value.
fn has_value(letter: u8) -> bool {
    matches!(
        letter,
        b'c' | b's' | b'l' | b'd' | b'n' | b'e' | b'r' | b't' | b'm' | b'k'
    )
}

fn is_option(word: &str) -> bool {
    word.starts_with('-') && word != "-"
}

// Returns whether this argument is only an option's letter, so that its value is the next argument.
fn awaits_value(word: &str) -> bool {
    match word.as_bytes() {
        [b'-', letter] => has_value(*letter),
        _ => false,
    }
}

// Returns what follows the letter of an option in this argument, if it begins with that option.
fn behind_letter(word: &str, letter: char) -> Option<&str> {
    let behind = word.strip_prefix('-')?;
    behind.strip_prefix(letter)
}

/// Returns the value of the first option with this letter, among arguments without the command.
pub(crate) fn option(words: &[String], letter: char) -> Option<&str> {
    let mut is_next = false;
    for word in words {
        let word = word.as_str();
        if is_next {
            return Some(word);
        }
        if word == "--" {
            return None;
        }
        if let Some(value) = behind_letter(word, letter) {
            if !value.is_empty() {
                return Some(value.strip_prefix('=').unwrap_or(value));
            }
            is_next = true;
        }
    }
    None
}

/// Returns the argument at this place, counted from 0 without the command, the options and their values.
pub(crate) fn plain(words: &[String], place: usize) -> Option<&str> {
    let mut left = place;
    let mut is_value = false;
    let mut takes_options = true;
    for word in words {
        let word = word.as_str();
        if is_value {
            is_value = false;
        } else if takes_options && word == "--" {
            takes_options = false;
        } else if takes_options && is_option(word) {
            is_value = awaits_value(word);
        } else if left == 0 {
            return Some(word);
        } else {
            left -= 1;
        }
    }
    None
}
