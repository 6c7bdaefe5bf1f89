//! Texts and prerequisites in the bytes of a configuration: they are copied only when a field takes them.
ghost use Rattle.std.specs.Prelude.{◌≡◌, IsTrue};
ghost use Rattle.booth_base.specs.Name.{is_name, is_value};
ghost use Rattle.booth_conf.specs.ValueReader.{text_in};

use crate::tickets::{GrantKind, Prereq};
use booth_base::{AttrValue, Name, PathText};
use std::marker::Model;

// The greatest length of a text, in bytes.
const MOST_BYTES: usize = 255;

/// A text of at most `PATH_BYTES` bytes. Contracts see its bytes.
#[derive(Drop)]
pub struct SpelledText<'a> {
    text: &'a str,
}

impl<'a> Model for SpelledText<'a> {
    ghost use Rattle.std.specs.Prelude.{List, ℕ, ◌≤◌, length};
    ghost use Rattle.booth_base.specs.declared.text.TheConstants.{PATH_BYTES};

    ghost Value = { List ℕ };

    ghost view = { λ t. t.text.now };

    ghost invariant = { λ t. length t.text.now ≤ PATH_BYTES };
}

impl<'a> SpelledText<'a> {
    /// Returns this text, if it is not too long.
    pub fn new(text: &'a str) -> Option<SpelledText<'a>>
        ensures { result ≡ text_in 0 text.now }
    {
        if text.len() > MOST_BYTES {
            return None;
        }
        Some(SpelledText { text })
    }

    /// Returns a copy of the text with memory of its own.
    pub fn path(&self) -> PathText
        ensures { result ≡ self.now }
    {
        let Ok(path) = PathText::read(self.text) else {
            unreachable!()
        };
        path
    }

    /// Returns an equal text.
    pub fn copy(&self) -> SpelledText<'a>
        ensures { result ≡ self.now }
    {
        SpelledText { text: self.text }
    }
}

/// A prerequisite in the bytes of a configuration. Contracts see it as one with bytes of its own.
#[derive(Drop)]
pub struct SpelledPrereq<'a> {
    kind: GrantKind,
    name: &'a [u8],
    equal: bool,
    value: &'a [u8],
}

impl<'a> Model for SpelledPrereq<'a> {
    ghost use Rattle.std.specs.Prelude.{IsTrue};
    ghost use Rattle.booth_base.specs.Name.{is_name, is_value};
    ghost use Rattle.booth_conf.specs.declared.tickets.Prereq.{Prereq};

    ghost Value = { Prereq };

    ghost view = { λ p. record { kind = p.kind; name = p.name.now; equal = p.equal; value = p.value.now } };

    ghost invariant = { λ p. IsTrue (is_name p.name.now) × IsTrue (is_value p.value.now) };
}

impl<'a> SpelledPrereq<'a> {
    /// Returns the prerequisite with these parts.
    pub fn new(kind: GrantKind, name: &'a [u8], equal: bool, value: &'a [u8]) -> SpelledPrereq<'a>
        requires name { IsTrue (is_name name.now) }
        requires value { IsTrue (is_value value.now) }
        ensures { result ≡ record { kind = kind; name = name.now; equal = equal; value = value.now } }
    {
        SpelledPrereq {
            kind,
            name,
            equal,
            value,
        }
    }

    /// Returns the prerequisite with bytes of its own.
    pub fn owned(&self) -> Prereq
        ensures { result ≡ self.now }
    {
        let Ok(name) = Name::read(self.name) else {
            unreachable!()
        };
        let Ok(value) = AttrValue::read(self.value) else {
            unreachable!()
        };
        Prereq {
            kind: self.kind,
            name,
            equal: self.equal,
            value,
        }
    }

    /// Returns an equal prerequisite.
    pub fn copy(&self) -> SpelledPrereq<'a>
        ensures { result ≡ self.now }
    {
        SpelledPrereq {
            kind: self.kind,
            name: self.name,
            equal: self.equal,
            value: self.value,
        }
    }
}
