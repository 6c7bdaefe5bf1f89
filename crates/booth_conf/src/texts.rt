//! The texts in values: paths, names and addresses.
ghost use Rattle.std.specs.Prelude.{◌≡◌, true};
ghost use Rattle.std.specs.List.{list_all, list_any};
ghost use Rattle.booth_conf.specs.Grammar.{is_value_byte};
ghost use Rattle.booth_conf.specs.Values.{is_word_byte};
ghost use Rattle.booth_conf.specs.ValueReader.{text_in, command_in, name_in, value_in, address_in};

use crate::spelled::SpelledText;
use crate::words::is_gap;
use booth_base::{Address, AttrValue, Name};

/// Returns a text of at most `PATH_BYTES` bytes, and at least this many.
#[tactic(auto, using(crate::proofs::TextLemmas::plain_utf8))]
pub fn text(bytes: &[u8], least: usize) -> Option<SpelledText<'_>>
    requires { list_all is_value_byte bytes.now ≡ true }
    ensures { result ≡ text_in least bytes.now }
{
    if bytes.len() < least {
        return None;
    }
    let text = std::str::from_utf8(bytes).ok()?;
    SpelledText::new(text)
}

fn has_word(bytes: &[u8]) -> bool
    ensures { result ≡ list_any is_word_byte bytes.now }
{
    bytes.iter().any(|b| !is_gap(*b))
}

/// Returns a path and its arguments.
pub fn command(bytes: &[u8]) -> Option<SpelledText<'_>>
    requires { list_all is_value_byte bytes.now ≡ true }
    ensures { result ≡ command_in bytes.now }
{
    if has_word(bytes) {
        text(bytes, 1)
    } else {
        None
    }
}

/// Returns the name with these bytes.
pub fn name(bytes: &[u8]) -> Option<Name>
    ensures { result ≡ name_in bytes.now }
{
    Name::read(bytes).ok()
}

/// Returns the attribute's value with these bytes.
pub fn attr_value(bytes: &[u8]) -> Option<AttrValue>
    ensures { result ≡ value_in bytes.now }
{
    AttrValue::read(bytes).ok()
}

/// Returns the address that the text spells.
#[tactic(auto, using(crate::proofs::AddressLemmas::address_read))]
pub fn address(bytes: &[u8]) -> Option<Address>
    ensures { result ≡ address_in bytes.now }
{
    Address::read(bytes).ok()
}
