//! The value of a key.
ghost use Rattle.std.specs.Prelude.{◌≡◌, true, bytes_eq, position, option_map};
ghost use Rattle.std.specs.List.{list_all};
ghost use Rattle.booth_conf.specs.Grammar.{is_value_byte};
ghost use Rattle.booth_conf.specs.Values.{is_word_of, words_of};
ghost use Rattle.booth_conf.specs.ValueReader.{form_in, kind_in, prereq_in, setting_in, test_in};

use crate::digits::number_within;
use crate::keys::{Choice, ConfKey, Form};
use crate::settings::{Setting, Value, setting_of};
use crate::spelled::{SpelledPrereq, SpelledText};
use crate::texts::{address, attr_value, command, name, text};
use crate::tickets::GrantKind;
use crate::weights::weights;
use crate::words::{four_words, is_either};

/// The name of the `ticket` line whose values are the defaults.
const DEFAULTS: &str = "__default__";

// Returns the place of the value in the list of words, if the value is one of them.
fn word(choice: Choice, bytes: &[u8]) -> Option<usize>
    ensures { result ≡ position (is_word_of bytes.now) (words_of choice) }
{
    match choice {
        Choice::Transport => is_either(bytes, "UDP", "udp").then_some(0),
        Choice::Mode => {
            if is_either(bytes, "auto", "AUTO") {
                return Some(0);
            }
            is_either(bytes, "manual", "MANUAL").then_some(1)
        }
        Choice::Hash => {
            if is_either(bytes, "sha1", "sha1") {
                return Some(0);
            }
            is_either(bytes, "sha256", "sha256").then_some(1)
        }
        Choice::Steady => {
            if is_either(bytes, "no", "NO") {
                return Some(0);
            }
            is_either(bytes, "yes", "YES").then_some(1)
        }
    }
}

fn is_word(bytes: &[u8], word: &str) -> bool
    ensures { result ≡ bytes_eq bytes.now word.now }
{
    bytes == word.as_bytes()
}

fn kind(word: &[u8]) -> Option<GrantKind>
    ensures { result ≡ kind_in word.now }
{
    if is_word(word, "auto") {
        return Some(GrantKind::Auto);
    }
    is_word(word, "manual").then_some(GrantKind::Manual)
}

fn test(word: &[u8]) -> Option<bool>
    ensures { result ≡ test_in word.now }
{
    if is_word(word, "eq") {
        return Some(true);
    }
    is_word(word, "ne").then_some(false)
}

fn prereq(bytes: &[u8]) -> Option<SpelledPrereq<'_>>
    ensures { result ≡ prereq_in bytes.now }
{
    let words = four_words(bytes)?;
    let kind = kind(words.kind)?;
    let _name = name(words.name)?;
    let equal = test(words.test)?;
    let _value = attr_value(words.value)?;
    Some(SpelledPrereq::new(kind, words.name, equal, words.value))
}

fn ticket(bytes: &[u8]) -> Option<Value<'_>>
    ensures { result ≡ form_in Form.TicketName bytes.now }
{
    if is_word(bytes, DEFAULTS) {
        return Some(Value::Defaults);
    }
    match name(bytes) {
        Some(name) => Some(Value::Name(name)),
        None => None,
    }
}

fn text_value(text: Option<SpelledText<'_>>) -> Option<Value<'_>>
    ensures { result ≡ option_map Value.Text text.entry }
{
    match text {
        Some(text) => Some(Value::Text(text)),
        None => None,
    }
}

impl Form {
    /// Returns the value that the text spells in this form.
    pub fn read(self, bytes: &[u8]) -> Option<Value<'_>>
        requires { list_all is_value_byte bytes.now ≡ true }
        ensures { result ≡ form_in self bytes.now }
    {
        match self {
            Form::Number { least, most } => match number_within(bytes, least, most) {
                Some(number) => Some(Value::Number(number)),
                None => None,
            },
            Form::Text { least } => text_value(text(bytes, least)),
            Form::Command => text_value(command(bytes)),
            Form::OneOf(choice) => match word(choice, bytes) {
                Some(place) => Some(Value::Word(place)),
                None => None,
            },
            Form::Address => match address(bytes) {
                Some(address) => Some(Value::Address(address)),
                None => None,
            },
            Form::TicketName => ticket(bytes),
            Form::Weights => match weights(bytes) {
                Some(weights) => Some(Value::Weights(weights)),
                None => None,
            },
            Form::Prereq => match prereq(bytes) {
                Some(prereq) => Some(Value::Prereq(prereq)),
                None => None,
            },
        }
    }
}

impl ConfKey {
    /// Returns the setting for this value of the key, if the value has the key's form.
    pub fn setting(self, value: &[u8]) -> Option<Setting<'_>>
        requires { list_all is_value_byte value.now ≡ true }
        ensures { result ≡ setting_in self value.now }
    {
        match self.form().read(value) {
            Some(value) => Some(setting_of(self, value)),
            None => None,
        }
    }
}
