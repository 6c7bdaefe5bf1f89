//! Words that several players read.
use booth_base::Name;
use booth_conf::Config;
use booth_rows::Words;

/// Reads a configuration from the bytes of its text.
pub(crate) fn configuration(words: &mut Words<'_>) -> Option<Config> {
    match Config::parse(words.alloc(), &words.bytes()) {
        Ok(config) => Some(config),
        Err(_) => {
            words.refuse();
            None
        }
    }
}

/// Reads the name of a ticket.
pub(crate) fn name(words: &mut Words<'_>) -> Name {
    match Name::read(words.word().as_bytes()) {
        Ok(name) => name,
        Err(_) => {
            words.refuse();
            Name::default()
        }
    }
}
