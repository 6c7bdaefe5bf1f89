//! Lists of arguments.

use std::alloc::{AllocError, Global};

/// Appends a copy of an argument.
pub(crate) fn push_word(
    alloc: Global,
    words: &mut Vec<String>,
    word: &str,
) -> Result<(), AllocError> {
    words.push(String::from_str(alloc, word)?)?;
    Ok(())
}

/// Appends copies of arguments.
pub(crate) fn push_words(
    alloc: Global,
    words: &mut Vec<String>,
    more: &[String],
) -> Result<(), AllocError> {
    for word in more {
        push_word(alloc, words, word.as_str())?;
    }
    Ok(())
}
