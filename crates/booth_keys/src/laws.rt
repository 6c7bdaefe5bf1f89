//! Laws of key files.
ghost use Rattle.booth_keys.specs.Key.{KeyTextIsKey};

/// The key of a key file in plain text is the text between the blanks.
pub fn key_text_is_key()
    ensures { KeyTextIsKey }
{}
